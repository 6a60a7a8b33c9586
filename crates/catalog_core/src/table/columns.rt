//! The places of a table's columns, and which are value columns: all columns but its application
//! period's and its system columns.

ghost use Rattle.std.specs.Prelude.{◌≡◌, ◌&&◌, IfOk, bytes_eq, false, map};
ghost use Rattle.std.specs.Prelude.{not, true};
ghost use Rattle.catalog_core.specs.Limits.{number_limit};
ghost use Rattle.catalog_core.specs.query.Selection.{names_non_value_column, value_position};
ghost use Rattle.catalog_core.specs.table.IsDefinition.{are_places};
ghost use Rattle.catalog_core.specs.table.TableWords.{def_place, is_value_column};
ghost use Rattle.catalog_core.specs.table.TableWords.{some_def_match};
ghost use Rattle.catalog_core.specs.declared.table.match_counts.MatchCount.TheVariants.{Zero};

use crate::table::kinds::is_system;
use crate::table::named::places_among;
use crate::table::{Column, TableDef};
use period_core::Memory;
use sql_statements::Name;
use std::alloc::Global;

/// The places of a table's columns with the names.
pub fn def_places(alloc: Global, table: &TableDef, names: &[Name]) -> Result<Vec<usize>, Memory>
    requires { some_def_match table.now Zero names.now ≡ false }
    ensures value { IfOk result
        (λ v. map (def_place table.now) names.now ≡ map (λ i. Some i) v.items) }
    ensures small { IfOk result (λ v. are_places number_limit v.items ≡ true) }
{
    places_among(alloc, table.columns.as_slice(), names)
}

/// Whether the column that is declared at a place is a value column.
#[tactic(auto, unfolding(crate::specs::table::TableWords::is_value_column))]
pub fn is_value_column(table: &TableDef, place: usize, column: &Column) -> bool
    ensures { result ≡ is_value_column table.now (place, column.now) }
{
    place != table.period.start && place != table.period.end && !is_system(column.kind)
}

/// Whether the column that is declared at a place has this name and is no value column.
fn is_other_column(table: &TableDef, place: usize, column: &Column, name: &Name) -> bool
    ensures { result ≡ (bytes_eq name.now column.now.name
        && not (is_value_column table.now (place, column.now))) }
{
    name.is(&column.name) && !is_value_column(table, place, column)
}

/// Whether a column of this name is no value column.
#[tactic(auto, unfolding(crate::specs::query::Selection::names_non_value_column))]
pub fn names_non_value_column(table: &TableDef, name: &Name) -> bool
    ensures { result ≡ names_non_value_column table.now name.now }
{
    let columns = table.columns.as_slice();
    for i in 0..columns.len() {
        if is_other_column(table, i, &columns[i], name) {
            return true;
        }
    }
    false
}

/// The position of the value column of this name among a row's values.
#[tactic(auto, unfolding(crate::specs::query::Selection::value_position))]
pub fn value_position(table: &TableDef, name: &Name) -> Option<usize>
    ensures { result ≡ value_position table.now name.now }
{
    let columns = table.columns.as_slice();
    let mut position = 0;
    for i in 0..columns.len() {
        let column = &columns[i];
        if is_value_column(table, i, column) {
            if name.is(&column.name) {
                return Some(position);
            }
            position += 1;
        }
    }
    None
}
