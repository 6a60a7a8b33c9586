//! Whether some CREATE gives a definition: what a store asks of each definition that it reads. The
//! definition is judged by its names and places, and no test takes memory.

ghost use Rattle.std.specs.Prelude.{◌≡◌, ◌&&◌, ◌<◌, ◌↔◌, IsTrue, length, not, true};
ghost use Rattle.std.specs.List.{list_all};
ghost use Rattle.catalog_core.specs.Limits.{most_tables};
ghost use Rattle.catalog_core.specs.create.Lawful.{IsLawful};
ghost use Rattle.catalog_core.specs.create.PlacedTests.{has_parent, is_keyed_place};
ghost use Rattle.catalog_core.specs.create.PlacedTests.{is_within_limits, keys_other_column};
ghost use Rattle.catalog_core.specs.create.PlacedTests.{names_several, passes_all, repeats_some};
ghost use Rattle.catalog_core.specs.table.TableWords.{has_date_period, has_distinct_names};
ghost use Rattle.catalog_core.specs.table.TableWords.{is_value_column};

use crate::create::names::is_there;
use crate::create::places::{
    are_dates, has_place, has_system_columns, repeats_place, some_refer_to_no_key,
    some_refer_to_other_kind,
};
use crate::limits::{MOST_COLUMNS, MOST_REFERENCES, MOST_TABLES};
use crate::table::catalog::Catalog;
use crate::table::columns::is_value_column;
use crate::table::match_counts::def_matches;
use crate::table::{Column, Reference, TableDef};
use sql_statements::Name;

/// Whether there is room for one table more, and its columns and references are not too many.
#[tactic(auto, unfolding(crate::specs::create::PlacedTests::is_within_limits))]
fn is_within_limits(catalog: &Catalog, definition: &TableDef) -> bool
    ensures { result ≡ is_within_limits catalog.now.tables definition.now }
{
    catalog.len() < MOST_TABLES
        && definition.columns.len() <= MOST_COLUMNS
        && definition.references.len() <= MOST_REFERENCES
}

/// Whether a reference is to a table that exists, the first of its name.
#[tactic(auto, unfolding(crate::specs::create::PlacedTests::has_parent))]
fn has_parent(catalog: &Catalog, reference: &Reference) -> bool
    ensures { result ≡ has_parent catalog.now.tables reference.now }
{
    match catalog.def(reference.parent) {
        Some(table) => match catalog.find(&table.name) {
            Some(first) => first == reference.parent,
            None => false,
        },
        None => false,
    }
}

/// Whether each reference has its parent.
fn have_parents(catalog: &Catalog, references: &[Reference]) -> bool
    ensures { result ≡ list_all (has_parent catalog.now.tables) references.now }
{
    references.iter().all(|x| has_parent(catalog, x))
}

/// Whether several of the columns and the period have one name.
#[tactic(auto, unfolding(crate::specs::create::PlacedTests::names_several, crate::specs::table::Matches::is_matching))]
fn names_several(definition: &TableDef, name: &Name) -> bool
    ensures { result ≡ names_several definition.now name.now }
{
    let columns = def_matches(definition, name);
    columns > 1 || (columns == 1 && name.is(&definition.period.name))
}

/// Whether two of the columns and the period share a name, or a place is repeated in the key or in
/// a list of a reference.
#[tactic(auto, unfolding(crate::specs::create::PlacedTests::repeats_some))]
fn repeats_some(definition: &TableDef) -> bool
    ensures { result ≡ repeats_some definition.now }
{
    for column in definition.columns.as_slice() {
        if names_several(definition, &column.name) {
            return true;
        }
    }
    if names_several(definition, &definition.period.name) {
        return true;
    }
    if repeats_place(definition.key.as_slice()) {
        return true;
    }
    for reference in definition.references.as_slice() {
        if repeats_place(reference.own.as_slice()) || repeats_place(reference.keys.as_slice()) {
            return true;
        }
    }
    false
}

/// Whether the column at a place is in the key or among a reference's own.
#[tactic(auto, unfolding(crate::specs::create::PlacedTests::is_keyed_place))]
fn is_keyed_place(definition: &TableDef, place: usize) -> bool
    ensures { result ≡ is_keyed_place definition.now place }
{
    if has_place(definition.key.as_slice(), place) {
        return true;
    }
    for reference in definition.references.as_slice() {
        if has_place(reference.own.as_slice(), place) {
            return true;
        }
    }
    false
}

/// Whether the column that is declared at a place is keyed so, and is no value column.
fn is_other_keyed(definition: &TableDef, place: usize, column: &Column) -> bool
    ensures { result ≡ (is_keyed_place definition.now place
        && not (is_value_column definition.now (place, column.now))) }
{
    is_keyed_place(definition, place) && !is_value_column(definition, place, column)
}

/// Whether some column is keyed so, and is no value column.
#[tactic(auto, unfolding(crate::specs::create::PlacedTests::keys_other_column))]
fn keys_other_column(definition: &TableDef) -> bool
    ensures { result ≡ keys_other_column definition.now }
{
    let columns = definition.columns.as_slice();
    for i in 0..columns.len() {
        if is_other_keyed(definition, i, &columns[i]) {
            return true;
        }
    }
    false
}

/// Whether a definition passes all tests.
#[tactic(auto, unfolding(crate::specs::create::PlacedTests::passes_all))]
fn passes_all(catalog: &Catalog, definition: &TableDef) -> bool
    ensures { result ≡ passes_all catalog.now.tables definition.now }
{
    let (columns, period) = (definition.columns.as_slice(), &definition.period);
    let references = definition.references.as_slice();
    is_within_limits(catalog, definition)
        && !is_there(catalog, &definition.name)
        && have_parents(catalog, references)
        && !repeats_some(definition)
        && !keys_other_column(definition)
        && has_system_columns(columns)
        && are_dates(columns, Some(period.start), Some(period.end))
        && !some_refer_to_no_key(catalog, references)
        && !some_refer_to_other_kind(catalog, columns, references)
}

/// Whether some CREATE that is accepted over the tables of the catalog gives this definition. The
/// catalog has then room for one table more, the definition's application period is over two
/// different DATE columns, and no two of its columns share a name.
pub fn lawful(catalog: &Catalog, definition: &TableDef) -> bool
    ensures given { IsTrue result ↔ IsLawful catalog.now.tables definition.now }
    ensures room { IsTrue result → length catalog.now.tables < most_tables }
    ensures dated { IsTrue result → has_date_period definition.now ≡ true }
    ensures distinct { IsTrue result → has_distinct_names definition.now ≡ true }
{
    passes_all(catalog, definition)
}
