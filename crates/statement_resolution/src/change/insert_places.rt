//! INSERT: the places of the columns that the values of its rows are given for. Each is found once
//! for a statement, so that no row's value costs a search by name.

ghost use Rattle.std.specs.Prelude.{◌≡◌, IfOk, Some, false, map, true};
ghost use Rattle.statement_resolution.specs.change.Insertion.{wanted_names};
ghost use Rattle.statement_resolution.specs.change.InsertPlaces.{ArePlaces};
ghost use Rattle.catalog_core.specs.table.Naming.{passes};
ghost use Rattle.catalog_core.specs.table.TableWords.{def_place, has_distinct_names};
ghost use Rattle.catalog_core.specs.table.TableWords.{some_def_match};
ghost use Rattle.catalog_core.specs.declared.table.match_counts.MatchCount.TheVariants.{Zero};

use catalog_core::{TableDef, def_places, is_system};
use period_core::Memory;
use sql_statements::{Name, NonEmpty};
use std::alloc::Global;

/// The places of the columns that a row is to give if no list is written: all but the system
/// ones.
fn wanted_places(alloc: Global, table: &TableDef) -> Result<Vec<usize>, Memory>
    requires { has_distinct_names table.now ≡ true }
    ensures { IfOk result
        (λ v. map (def_place table.now) (wanted_names table.now) ≡ map (λ i. Some i) v.items) }
{
    let columns = table.columns.as_slice();
    let mut places = Vec::with_capacity(alloc, columns.len())?;
    for i in 0..columns.len() {
        if !is_system(columns[i].kind) {
            places.push(i)?;
        }
    }
    Ok(places)
}

/// The place of the column that each value of a row is given for. Each name of the list is a
/// a column.
pub fn given_places(
    alloc: Global,
    table: &TableDef,
    list: &Option<NonEmpty<Name>>,
) -> Result<Vec<usize>, Memory>
    requires distinct { has_distinct_names table.now ≡ true }
    requires known { passes (some_def_match table.now Zero) list.now ≡ false }
    ensures { IfOk result (λ v. ArePlaces table.now list.now v.items) }
{
    match list {
        Some(names) => def_places(alloc, table, names.as_slice()),
        None => wanted_places(alloc, table),
    }
}
