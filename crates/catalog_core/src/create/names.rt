//! CREATE TABLE: what its limits and its names decide. No test takes memory. There may be thousands
//! of periods and keys, so no check is quadratic in them: the periods are counted by their names
//! once, and what keys name is sought among the columns, which are few.

ghost use Rattle.std.specs.Prelude.{◌≡◌, bytes_eq, option_copied};
ghost use Rattle.std.specs.List.{list_any};
ghost use Rattle.catalog_core.specs.create.Creation.{exceeds_limits, is_ambiguous};
ghost use Rattle.catalog_core.specs.create.Creation.{is_keyed, is_no_value_column};
ghost use Rattle.catalog_core.specs.create.Creation.{is_shared, is_there, keys_period_column};
ghost use Rattle.catalog_core.specs.create.Creation.{lacks_name};
ghost use Rattle.catalog_core.specs.create.Creation.{lacks_parent, lacks_period};
ghost use Rattle.catalog_core.specs.create.Creation.{names_other_period};
ghost use Rattle.catalog_core.specs.create.Creation.{repeats_name, some_match};
ghost use Rattle.catalog_core.specs.create.Creation.{some_parent_match};
ghost use Rattle.catalog_core.specs.create.Definition.{parent_of};
ghost use Rattle.catalog_core.specs.create.PeriodCounts.{AreCounts};

use crate::create::period_counts::count_of;
use crate::limits::{MOST_COLUMNS, MOST_REFERENCES, MOST_TABLES};
use crate::table::TableDef;
use crate::table::catalog::Catalog;
use crate::table::match_counts::{
    MatchCount, either_matches, own_matches, repeats, some_def_match, some_own_match,
};
use sql_statements::{ColumnElement, CreateTable, Name, ReferenceElement};
use std::collections::BTreeMap;

/// The table that a reference names.
#[tactic(auto, unfolding(crate::specs::table::TableWords::table_of_name))]
pub fn parent_of<'a>(catalog: &'a Catalog, reference: &ReferenceElement) -> Option<&'a TableDef>
    ensures { option_copied result ≡ parent_of catalog.now.tables reference.now }
{
    match catalog.table_named(&reference.parent) {
        Some((_, table)) => Some(table),
        None => None,
    }
}

/// Whether one of the columns that a reference names in its parent matches the wanted number of
/// columns there.
#[tactic(auto, unfolding(crate::specs::create::Creation::some_parent_match))]
pub fn some_parent_match(
    catalog: &Catalog,
    wanted: MatchCount,
    reference: &ReferenceElement,
) -> bool
    ensures { result ≡ some_parent_match catalog.now.tables wanted reference.now }
{
    match parent_of(catalog, reference) {
        Some(table) => some_def_match(table, wanted, reference.parent_columns.as_slice()),
        None => false,
    }
}

/// Whether a column that CREATE names matches the wanted number of columns.
#[tactic(auto, unfolding(crate::specs::create::Creation::some_match))]
pub fn some_match(catalog: &Catalog, create: &CreateTable, wanted: MatchCount) -> bool
    ensures { result ≡ some_match catalog.now.tables create.now wanted }
{
    for period in create.periods.as_slice() {
        if either_matches(create, wanted, &period.start, &period.end) {
            return true;
        }
    }
    for system in create.system_periods.as_slice() {
        if either_matches(create, wanted, &system.start, &system.end) {
            return true;
        }
    }
    for key in create.keys.as_slice() {
        if some_own_match(create, wanted, key.columns.as_slice()) {
            return true;
        }
    }
    for reference in create.references.as_slice() {
        if some_own_match(create, wanted, reference.columns.as_slice()) {
            return true;
        }
    }
    for other in create.references.as_slice() {
        if some_parent_match(catalog, wanted, other) {
            return true;
        }
    }
    false
}

/// Whether a limit is exceeded: 64 tables with this one, 32 columns, 8 references.
#[tactic(auto, unfolding(crate::specs::create::Creation::exceeds_limits))]
pub fn exceeds_limits(catalog: &Catalog, create: &CreateTable) -> bool
    ensures { result ≡ exceeds_limits catalog.now.tables create.now }
{
    catalog.tables.len() >= MOST_TABLES
        || create.columns.len() > MOST_COLUMNS
        || create.references.len() > MOST_REFERENCES
}

/// Whether a table of this name exists.
#[tactic(auto, unfolding(crate::specs::create::Creation::is_there))]
pub fn is_there(catalog: &Catalog, name: &Name) -> bool
    ensures { result ≡ is_there catalog.now.tables name.now }
{
    let tables = catalog.tables.as_slice();
    tables.iter().any(|table| name.is(&table.name))
}

/// Whether a reference names a table that is missing.
#[tactic(auto, unfolding(crate::specs::create::Creation::lacks_parent))]
pub fn lacks_parent(catalog: &Catalog, create: &CreateTable) -> bool
    ensures { result ≡ lacks_parent catalog.now.tables create.now }
{
    let references = create.references.as_slice();
    references.iter().any(|x| parent_of(catalog, x).is_none())
}

/// Whether a reference names another period than its parent's.
#[tactic(auto, unfolding(crate::specs::create::Creation::names_other_period))]
pub fn names_other_period(catalog: &Catalog, reference: &ReferenceElement) -> bool
    ensures { result ≡ names_other_period catalog.now.tables reference.now }
{
    match parent_of(catalog, reference) {
        Some(table) => !reference.parent_period.is(&table.period.name),
        None => false,
    }
}

/// Whether a key or a reference names a period that is missing.
#[tactic(auto, unfolding(crate::specs::create::Creation::lacks_period))]
pub fn lacks_period(catalog: &Catalog, create: &CreateTable, counts: &BTreeMap<&str, usize>) -> bool
    requires { AreCounts create.now counts.now }
    ensures { result ≡ lacks_period catalog.now.tables create.now }
{
    for key in create.keys.as_slice() {
        if MatchCount::Zero.is(count_of(counts, &key.period)) {
            return true;
        }
    }
    for reference in create.references.as_slice() {
        if MatchCount::Zero.is(count_of(counts, &reference.period)) {
            return true;
        }
    }
    for other in create.references.as_slice() {
        if names_other_period(catalog, other) {
            return true;
        }
    }
    false
}

/// Whether a column or a period is named that is missing.
#[tactic(auto, unfolding(crate::specs::create::Creation::lacks_name))]
pub fn lacks_name(catalog: &Catalog, create: &CreateTable, counts: &BTreeMap<&str, usize>) -> bool
    requires { AreCounts create.now counts.now }
    ensures { result ≡ lacks_name catalog.now.tables create.now }
{
    some_match(catalog, create, MatchCount::Zero) || lacks_period(catalog, create, counts)
}

/// Whether a column that is named is declared more than once.
#[tactic(auto, unfolding(crate::specs::create::Creation::is_ambiguous))]
pub fn is_ambiguous(catalog: &Catalog, create: &CreateTable) -> bool
    ensures { result ≡ is_ambiguous catalog.now.tables create.now }
{
    some_match(catalog, create, MatchCount::Many)
}

/// Whether several of the columns and periods have one name.
#[tactic(auto, unfolding(crate::specs::create::Creation::is_shared, crate::specs::table::Matches::is_matching))]
pub fn is_shared(create: &CreateTable, counts: &BTreeMap<&str, usize>, name: &Name) -> bool
    requires { AreCounts create.now counts.now }
    ensures { result ≡ is_shared create.now name.now }
{
    let columns = own_matches(create, name);
    let periods = count_of(counts, name);
    columns > 1 || periods > 1 || (columns == 1 && periods == 1)
}

/// Whether two columns or periods share a name, or a list of a key or a reference repeats one.
#[tactic(auto, unfolding(crate::specs::create::Creation::repeats_name))]
pub fn repeats_name(create: &CreateTable, counts: &BTreeMap<&str, usize>) -> bool
    requires { AreCounts create.now counts.now }
    ensures { result ≡ repeats_name create.now }
{
    for column in create.columns.as_slice() {
        if is_shared(create, counts, &column.name) {
            return true;
        }
    }
    for period in create.periods.as_slice() {
        if is_shared(create, counts, &period.name) {
            return true;
        }
    }
    for key in create.keys.as_slice() {
        if repeats(key.columns.as_slice()) {
            return true;
        }
    }
    for reference in create.references.as_slice() {
        if repeats(reference.columns.as_slice()) || repeats(reference.parent_columns.as_slice()) {
            return true;
        }
    }
    false
}

/// Whether a column is a period or system column.
#[tactic(auto, unfolding(crate::specs::create::Creation::is_no_value_column))]
fn is_no_value_column(create: &CreateTable, column: &ColumnElement) -> bool
    ensures { result ≡ is_no_value_column create.now column.now }
{
    for period in create.periods.as_slice() {
        if column.name.is(&period.start) || column.name.is(&period.end) {
            return true;
        }
    }
    for system in create.system_periods.as_slice() {
        if column.name.is(&system.start) || column.name.is(&system.end) {
            return true;
        }
    }
    column.generated.is_some()
}

/// Whether a name is in a list.
fn is_among(names: &[Name], name: &Name) -> bool
    ensures { result ≡ list_any (bytes_eq name.now) names.now }
{
    names.iter().any(|x| name.is(x))
}

/// Whether a name is among the columns of a key or the own columns of a reference.
#[tactic(auto, unfolding(crate::specs::create::Creation::is_keyed))]
fn is_keyed(create: &CreateTable, name: &Name) -> bool
    ensures { result ≡ is_keyed create.now name.now }
{
    for key in create.keys.as_slice() {
        if is_among(key.columns.as_slice(), name) {
            return true;
        }
    }
    for reference in create.references.as_slice() {
        if is_among(reference.columns.as_slice(), name) {
            return true;
        }
    }
    false
}

/// Whether a period or system column is in a key or in the columns of a reference.
#[tactic(auto, unfolding(crate::specs::create::Creation::keys_period_column))]
pub fn keys_period_column(create: &CreateTable) -> bool
    ensures { result ≡ keys_period_column create.now }
{
    let columns = create.columns.as_slice();
    columns.iter().any(|x| is_keyed(create, &x.name) && is_no_value_column(create, x))
}
