//! CREATE TABLE: what its periods, key, types and references decide, with its columns and
//! references by places. No test takes memory.

ghost use Rattle.std.specs.Prelude.{◌≡◌, false, map};
ghost use Rattle.catalog_core.specs.create.Creation.{has_bad_column, has_bad_period};
ghost use Rattle.catalog_core.specs.create.Creation.{has_bad_system_period, has_other_period};
ghost use Rattle.catalog_core.specs.create.Creation.{has_unequal_lists, is_bad_definition};
ghost use Rattle.catalog_core.specs.create.Creation.{is_bad_type, is_other, is_used_otherwise};
ghost use Rattle.catalog_core.specs.create.Creation.{lacks_one_of_each, placed_conditions};
ghost use Rattle.catalog_core.specs.create.Creation.{references_no_key, references_other_kind};
ghost use Rattle.catalog_core.specs.create.Definition.{columns_of, declared_reference};
ghost use Rattle.catalog_core.specs.create.Definition.{reference_parts};
ghost use Rattle.catalog_core.specs.create.Places.{is_row_end, is_row_start};
ghost use Rattle.catalog_core.specs.RefusalConditions.{first_holding};

use crate::create::builder::own_place;
use crate::create::names::names_other_period;
use crate::create::places::{
    are_dates, declared_at, has_system_columns, some_refer_to_no_key, some_refer_to_other_kind,
};
use crate::limits::{GREATEST_PRECISION, MOST_CODE_POINTS};
use crate::table::catalog::Catalog;
use crate::table::{Column, ColumnKind, Reference};
use period_core::Refusal;
use sql_statements::{CreateTable, Name, TypeName};

/// Whether there is not exactly one of each: application period, SYSTEM_TIME period, ROW START
/// column, ROW END column and PRIMARY KEY.
#[tactic(auto, unfolding(crate::specs::create::Creation::lacks_one_of_each))]
fn lacks_one_of_each(create: &CreateTable, columns: &[Column]) -> bool
    requires { columns.now ≡ columns_of create.now }
    ensures { result ≡ lacks_one_of_each create.now }
{
    create.periods.len() != 1
        || create.system_periods.len() != 1
        || !has_system_columns(columns)
        || create.keys.len() != 1
}

/// Whether the application period's columns are not two different DATE columns.
#[tactic(auto, unfolding(crate::specs::create::Creation::has_bad_period))]
fn has_bad_period(create: &CreateTable, columns: &[Column]) -> bool
    requires { columns.now ≡ columns_of create.now }
    ensures { result ≡ has_bad_period create.now }
{
    for x in create.periods.as_slice() {
        if !are_dates(
            columns,
            own_place(create, &x.start),
            own_place(create, &x.end),
        ) {
            return true;
        }
    }
    false
}

/// Whether a name is not a ROW START column's.
fn is_no_start(create: &CreateTable, columns: &[Column], name: &Name) -> bool
    requires { columns.now ≡ columns_of create.now }
    ensures { result ≡ is_other is_row_start create.now name.now }
{
    match declared_at(columns, own_place(create, name)) {
        Some(ColumnKind::RowStart(_)) => false,
        _ => true,
    }
}

/// Whether a name is not a ROW END column's.
fn is_no_end(create: &CreateTable, columns: &[Column], name: &Name) -> bool
    requires { columns.now ≡ columns_of create.now }
    ensures { result ≡ is_other is_row_end create.now name.now }
{
    match declared_at(columns, own_place(create, name)) {
        Some(ColumnKind::RowEnd(_)) => false,
        _ => true,
    }
}

/// Whether the SYSTEM_TIME period is not over the ROW START and the ROW END column.
#[tactic(auto, unfolding(crate::specs::create::Creation::has_bad_system_period))]
fn has_bad_system_period(create: &CreateTable, columns: &[Column]) -> bool
    requires { columns.now ≡ columns_of create.now }
    ensures { result ≡ has_bad_system_period create.now }
{
    for x in create.system_periods.as_slice() {
        if is_no_start(create, columns, &x.start) || is_no_end(create, columns, &x.end) {
            return true;
        }
    }
    false
}

/// Whether a type does not go with its column, or its number is out of range.
#[tactic(auto, unfolding(crate::specs::create::Creation::is_bad_type))]
fn is_bad_type(kind: TypeName, generated: bool) -> bool
    ensures { result ≡ is_bad_type kind generated }
{
    match kind {
        TypeName::Integer => generated,
        TypeName::Date => generated,
        TypeName::Varchar(n) => generated || n < 1 || n > u64::from(MOST_CODE_POINTS),
        TypeName::Timestamp(None) => !generated,
        TypeName::Timestamp(Some(p)) => !generated || p > u64::from(GREATEST_PRECISION),
    }
}

/// Whether a column has such a type.
#[tactic(auto, unfolding(crate::specs::create::Creation::has_bad_column))]
pub fn has_bad_column(create: &CreateTable) -> bool
    ensures { result ≡ has_bad_column create.now }
{
    let columns = create.columns.as_slice();
    columns
        .iter()
        .any(|x| is_bad_type(x.kind, x.generated.is_some()))
}

/// Whether a key or reference is over another period.
#[tactic(auto, unfolding(crate::specs::create::Creation::is_used_otherwise))]
fn is_used_otherwise(create: &CreateTable, period: &Name) -> bool
    ensures { result ≡ is_used_otherwise create.now period.now }
{
    for key in create.keys.as_slice() {
        if !key.period.is(period) {
            return true;
        }
    }
    for reference in create.references.as_slice() {
        if !reference.period.is(period) {
            return true;
        }
    }
    false
}

/// Whether the key or a reference is over a period that is not the application period.
#[tactic(auto, unfolding(crate::specs::create::Creation::has_other_period))]
fn has_other_period(catalog: &Catalog, create: &CreateTable) -> bool
    ensures { result ≡ has_other_period catalog.now.tables create.now }
{
    for x in create.periods.as_slice() {
        if is_used_otherwise(create, &x.name) {
            return true;
        }
    }
    for reference in create.references.as_slice() {
        if names_other_period(catalog, reference) {
            return true;
        }
    }
    false
}

/// Whether the two lists of a reference are of unequal length.
#[tactic(auto, unfolding(crate::specs::create::Creation::has_unequal_lists))]
fn has_unequal_lists(create: &CreateTable) -> bool
    ensures { result ≡ has_unequal_lists create.now }
{
    let references = create.references.as_slice();
    references
        .iter()
        .any(|x| x.columns.len() != x.parent_columns.len())
}

/// Whether some reference is to columns that are not its parent's key.
fn references_no_key(catalog: &Catalog, create: &CreateTable, references: &[Reference]) -> bool
    requires { map (declared_reference catalog.now.tables create.now) create.now.references
        ≡ map reference_parts references.now }
    ensures { result ≡ references_no_key catalog.now.tables create.now }
{
    some_refer_to_no_key(catalog, references)
}

/// Whether some reference has a column of another kind than the parent's in its place.
fn references_other_kind(
    catalog: &Catalog,
    create: &CreateTable,
    columns: &[Column],
    references: &[Reference],
) -> bool
    requires columns { columns.now ≡ columns_of create.now }
    requires references { map (declared_reference catalog.now.tables create.now)
        create.now.references ≡ map reference_parts references.now }
    ensures { result ≡ references_other_kind catalog.now.tables create.now }
{
    some_refer_to_other_kind(catalog, columns, references)
}

/// Whether the definition, whose types are not refused, is not one that a table may have.
#[tactic(auto, unfolding(crate::specs::create::Creation::is_bad_definition))]
fn is_bad_definition(
    catalog: &Catalog,
    create: &CreateTable,
    columns: &[Column],
    references: &[Reference],
) -> bool
    requires types { has_bad_column create.now ≡ false }
    requires columns { columns.now ≡ columns_of create.now }
    requires references { map (declared_reference catalog.now.tables create.now)
        create.now.references ≡ map reference_parts references.now }
    ensures { result ≡ is_bad_definition catalog.now.tables create.now }
{
    lacks_one_of_each(create, columns)
        || has_bad_period(create, columns)
        || has_bad_system_period(create, columns)
        || has_other_period(catalog, create)
        || references_no_key(catalog, create, references)
}

/// The first refusal whose condition holds, of those that need the places of names.
pub fn placed_fault(
    catalog: &Catalog,
    create: &CreateTable,
    columns: &[Column],
    references: &[Reference],
) -> Option<Refusal>
    requires types { has_bad_column create.now ≡ false }
    requires columns { columns.now ≡ columns_of create.now }
    requires references { map (declared_reference catalog.now.tables create.now)
        create.now.references ≡ map reference_parts references.now }
    ensures { result ≡ first_holding (placed_conditions catalog.now.tables create.now) }
{
    if is_bad_definition(catalog, create, columns, references) {
        return Some(Refusal::BadDefinition);
    }
    if has_unequal_lists(create) {
        return Some(Refusal::ColumnCount);
    }
    if references_other_kind(catalog, create, columns, references) {
        return Some(Refusal::TypeMismatch);
    }
    None
}
