//! INSERT: where the parts of a row are among the values that it gives. The positions are found
//! once for a statement, so that no row is searched for them.

ghost use Rattle.std.specs.Prelude.{◌≡◌, ℕ, IfOk, Some, map, true};
ghost use Rattle.statement_resolution.specs.change.InsertPlaces.{ArePositions, HasPositions};
ghost use Rattle.statement_resolution.specs.change.InsertPlaces.{position_for};
ghost use Rattle.catalog_core.specs.table.TableWords.{has_date_period, value_columns};
ghost use Rattle.catalog_core.specs.declared.table.Column.{Column};

use catalog_core::{TableDef, is_value_column};
use period_core::Memory;
use std::alloc::Global;

/// Positions among the values that each row gives: of those for the value columns, in declared
/// order, and of its period's start and end.
#[derive(Drop)]
pub struct RowPositions {
    pub values: Vec<usize>,
    pub start: usize,
    pub end: usize,
}

/// The position of the value for the column at a place, if one is given for it.
#[tactic(auto, unfolding(crate::specs::change::InsertPlaces::position_for))]
fn position_for(places: &[usize], place: usize) -> Option<usize>
    ensures { result ≡ position_for places.now place }
{
    places.iter().position(|given| *given == place)
}

/// The positions of the values for the value columns. Each has one.
fn value_positions(alloc: Global, table: &TableDef, places: &[usize]) -> Result<Vec<usize>, Memory>
    requires { HasPositions table.now places.now }
    ensures { IfOk result
        (λ v. map (λ (c : ℕ × Column). position_for places.now c.0) (value_columns table.now)
        ≡ map (λ k. Some k) v.items) }
{
    let mut positions = Vec::with_capacity(alloc, places.len())?;
    let columns = table.columns.as_slice();
    for i in 0..columns.len() {
        if is_value_column(table, i, &columns[i]) {
            let Some(position) = position_for(places, i) else {
                unreachable!()
            };
            positions.push(position)?;
        }
    }
    Ok(positions)
}

/// The positions of the parts of a table's rows, from the places of the columns that their values
/// are given for: all but the system ones are among these.
pub fn row_positions(
    alloc: Global,
    table: &TableDef,
    places: &[usize],
) -> Result<RowPositions, Memory>
    requires given { HasPositions table.now places.now }
    requires dated { has_date_period table.now ≡ true }
    ensures { IfOk result (λ at. ArePositions table.now places.now at) }
{
    let Some(start) = position_for(places, table.period.start) else {
        unreachable!()
    };
    let Some(end) = position_for(places, table.period.end) else {
        unreachable!()
    };
    let values = value_positions(alloc, table, places)?;
    Ok(RowPositions { values, start, end })
}
