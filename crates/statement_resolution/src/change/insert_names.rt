//! INSERT: what its list of columns and the lengths of its rows decide. No test takes memory.

ghost use Rattle.std.specs.Prelude.{◌≡◌, length};
ghost use Rattle.statement_resolution.specs.change.Insertion.{given_names, has_other_count};
ghost use Rattle.statement_resolution.specs.change.Insertion.{is_system_name};
ghost use Rattle.statement_resolution.specs.change.Insertion.{omits_column, lists_ambiguous};
ghost use Rattle.statement_resolution.specs.change.Insertion.{lists_system};
ghost use Rattle.statement_resolution.specs.change.Insertion.{repeats_column, lists_unknown};
ghost use Rattle.statement_resolution.specs.change.Insertion.{has_row_of_other_length};
ghost use Rattle.statement_resolution.specs.change.Insertion.{some_system_name, wanted_names};

use catalog_core::{MatchCount, TableDef, is_system, match_count, repeats, some_def_match};
use period_core::Value;
use sql_statements::{InsertRows, Name, NonEmpty};

/// The number of columns that a row is to give.
#[tactic(auto, unfolding(crate::specs::change::Insertion::wanted_names))]
pub fn wanted_count(table: &TableDef) -> usize
    ensures { result ≡ length (wanted_names table.now) }
{
    let mut count = 0;
    for x in table.columns.as_slice() {
        if !is_system(x.kind) {
            count += 1;
        }
    }
    count
}

/// The number of names that the values of a row are given for.
#[tactic(auto, unfolding(crate::specs::change::Insertion::given_names))]
pub fn given_count(table: &TableDef, list: &Option<NonEmpty<Name>>) -> usize
    ensures { result ≡ length (given_names table.now list.now) }
{
    match list {
        Some(names) => names.len(),
        None => wanted_count(table),
    }
}

/// Whether the list has a name that matches no column.
#[tactic(auto, unfolding(crate::specs::change::Insertion::lists_unknown))]
pub fn lists_unknown(table: &TableDef, insert: &InsertRows) -> bool
    ensures { result ≡ lists_unknown table.now insert.now }
{
    match &insert.columns {
        Some(names) => some_def_match(table, MatchCount::Zero, names.as_slice()),
        None => false,
    }
}

/// Whether the list has a name that matches several columns.
#[tactic(auto, unfolding(crate::specs::change::Insertion::lists_ambiguous))]
pub fn lists_ambiguous(table: &TableDef, insert: &InsertRows) -> bool
    ensures { result ≡ lists_ambiguous table.now insert.now }
{
    match &insert.columns {
        Some(names) => some_def_match(table, MatchCount::Many, names.as_slice()),
        None => false,
    }
}

/// Whether the list repeats a name.
#[tactic(auto, unfolding(crate::specs::change::Insertion::repeats_column))]
pub fn repeats_column(insert: &InsertRows) -> bool
    ensures { result ≡ repeats_column insert.now }
{
    match &insert.columns {
        Some(names) => repeats(names.as_slice()),
        None => false,
    }
}

/// Whether a system column has this name.
#[tactic(auto, unfolding(crate::specs::change::Insertion::is_system_name))]
pub fn is_system_name(table: &TableDef, name: &Name) -> bool
    ensures { result ≡ is_system_name table.now name.now }
{
    let columns = table.columns.as_slice();
    columns
        .iter()
        .any(|x| name.is(&x.name) && is_system(x.kind))
}

/// Whether one of the names names a system column.
#[tactic(auto, unfolding(crate::specs::change::Insertion::some_system_name))]
pub fn some_system_name(table: &TableDef, names: &[Name]) -> bool
    ensures { result ≡ some_system_name table.now names.now }
{
    names.iter().any(|x| is_system_name(table, x))
}

/// Whether the list has a system column.
#[tactic(auto, unfolding(crate::specs::change::Insertion::lists_system))]
pub fn lists_system(table: &TableDef, insert: &InsertRows) -> bool
    ensures { result ≡ lists_system table.now insert.now }
{
    match &insert.columns {
        Some(names) => some_system_name(table, names.as_slice()),
        None => false,
    }
}

/// Whether a column that a row is to give is not among the names.
#[tactic(auto, unfolding(crate::specs::change::Insertion::omits_column))]
pub fn omits_column(table: &TableDef, names: &[Name]) -> bool
    ensures { result ≡ omits_column table.now names.now }
{
    let columns = table.columns.as_slice();
    columns
        .iter()
        .any(|x| !is_system(x.kind) && match_count(names, &x.name) == 0)
}

/// Whether a row has another number of values.
#[tactic(auto, unfolding(crate::specs::change::Insertion::has_row_of_other_length))]
pub fn has_row_of_other_length(count: usize, rows: &[NonEmpty<Value>]) -> bool
    ensures { result ≡ has_row_of_other_length count rows.now }
{
    rows.iter().any(|x| x.as_slice().len() != count)
}

/// Whether the list lacks a column, or a row has another number of values than there are names.
#[tactic(auto, unfolding(crate::specs::change::Insertion::has_other_count))]
pub fn has_other_count(table: &TableDef, insert: &InsertRows) -> bool
    ensures { result ≡ has_other_count table.now insert.now }
{
    if let Some(names) = &insert.columns {
        if omits_column(table, names.as_slice()) {
            return true;
        }
    }
    has_row_of_other_length(given_count(table, &insert.columns), insert.rows.as_slice())
}
