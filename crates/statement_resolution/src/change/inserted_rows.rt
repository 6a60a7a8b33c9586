//! The rows of a sound INSERT, by the value columns and the period of their table. An `Err` says
//! that memory was refused: a sound INSERT gives each column a value, and a period's columns dates.

ghost use Rattle.std.specs.Prelude.{◌≡◌, ◌<◌, ℕ, All, IfOk, Some, false, length, map, slice_get};
ghost use Rattle.std.specs.Prelude.{true};
ghost use Rattle.period_core.specs.declared.value.Value.TheVariants.{Date};
ghost use Rattle.statement_resolution.specs.change.Insertion.{has_other_count, has_faulty_value};
ghost use Rattle.statement_resolution.specs.change.InsertPlaces.{ArePlaces, HasDate, parts_at};
ghost use Rattle.statement_resolution.specs.change.Resolution.{row_parts, written_row};
ghost use Rattle.catalog_core.specs.table.TableWords.{has_date_period, has_distinct_names};
ghost use Rattle.statement_resolution.specs.declared.change.insert_values.ValueFault.TheVariants as fault;

use crate::change::row_positions::{RowPositions, row_positions};
use catalog_core::{InsertedRow, TableDef};
use period_core::{Day, Memory, Value, Values};
use sql_statements::InsertRows;
use std::alloc::Global;

/// The date that a row gives at a position.
fn date_at(row: &[Value], position: usize) -> Day
    requires { HasDate row.now position }
    ensures { slice_get row.now position ≡ Some (Date result) }
{
    let value = &row[position];
    let Value::Date(day) = value else {
        unreachable!()
    };
    *day
}

/// The values that a row gives at the positions.
fn row_values(alloc: Global, positions: &[usize], row: &[Value]) -> Result<Vec<Value>, Memory>
    requires { All (λ k. k < length row.now) positions.now }
    ensures { IfOk result (λ v. map (λ (k : ℕ). slice_get row.now k) positions.now
        ≡ map (λ x. Some x) v.items) }
{
    let mut values = Vec::with_capacity(alloc, positions.len())?;
    for position in positions {
        let value = row[*position].copy(alloc)?;
        values.push_reserved(value);
    }
    Ok(values)
}

/// A row of INSERT by its parts.
fn inserted_row(alloc: Global, at: &RowPositions, row: &[Value]) -> Result<InsertedRow, Memory>
    requires values { All (λ k. k < length row.now) at.now.values.items }
    requires start { HasDate row.now at.now.start }
    requires end { HasDate row.now at.now.end }
    ensures { IfOk result (λ given. parts_at at.now row.now ≡ row_parts given) }
{
    let start = date_at(row, at.start);
    let end = date_at(row, at.end);
    let values = Values::from_vec(row_values(alloc, at.values.as_slice(), row)?);
    Ok(InsertedRow { values, start, end })
}

/// The rows of INSERT by their parts, from the places of the columns that their values are given
/// for.
pub fn inserted_rows(
    alloc: Global,
    table: &TableDef,
    insert: &InsertRows,
    places: &[usize],
) -> Result<Vec<InsertedRow>, Memory>
    requires placed { ArePlaces table.now insert.now.columns places.now }
    requires distinct { has_distinct_names table.now ≡ true }
    requires dated { has_date_period table.now ≡ true }
    requires count { has_other_count table.now insert.now ≡ false }
    requires kinds { has_faulty_value fault.Kind table.now insert.now ≡ false }
    ensures { IfOk result (λ v. map (written_row table.now insert.now.columns) insert.now.rows
        ≡ map row_parts v.items) }
{
    let at = row_positions(alloc, table, places)?;
    let rows = insert.rows.as_slice();
    let mut given = Vec::with_capacity(alloc, rows.len())?;
    for row in rows {
        let parts = inserted_row(alloc, &at, row.as_slice())?;
        given.push_reserved(parts);
    }
    Ok(given)
}
