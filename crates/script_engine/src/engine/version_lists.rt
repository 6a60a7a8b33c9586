//! Lists of versions: the columns of a table.

ghost use Rattle.std.specs.Prelude.{◌≡◌, IfOk};
ghost use Rattle.script_engine.specs.engine.VersionLists.{cell_at, version_columns};

use catalog_core::{Column, ColumnKind, TableDef, is_value_column};
use period_core::{Items, Memory};
use statement_reports::{Cell, VersionColumn};
use std::alloc::Global;

/// The cell of the column that is declared at a place, if its value has this position.
fn cell_at(table: &TableDef, place: usize, kind: ColumnKind, position: usize) -> Cell
    ensures { result ≡ cell_at table.now place kind position }
{
    if place == table.period.start {
        return Cell::Start;
    }
    if place == table.period.end {
        return Cell::End;
    }
    match kind {
        ColumnKind::RowStart(_) => Cell::From,
        ColumnKind::RowEnd(_) => Cell::To,
        ColumnKind::Integer | ColumnKind::Varchar(_) | ColumnKind::Date => Cell::Value(position),
    }
}

/// The column that is declared at a place, if its value has this position.
fn version_column(
    alloc: Global,
    table: &TableDef,
    place: usize,
    column: &Column,
    position: usize,
) -> Result<VersionColumn, Memory>
    ensures { IfOk result (λ shown. shown ≡ record {
      name = column.now.name;
      cell = cell_at table.now place column.now.kind position;
    }) }
{
    Ok(VersionColumn {
        name: column.name.as_text().copy(alloc)?,
        cell: cell_at(table, place, column.kind, position),
    })
}

/// The columns of a table's versions: those that are declared, in their order.
pub fn version_columns(alloc: Global, table: &TableDef) -> Result<Items<VersionColumn>, Memory>
    ensures { IfOk result (λ columns. columns ≡ version_columns table.now) }
{
    let declared = table.columns.as_slice();
    let mut columns = Vec::new(alloc);
    let mut position = 0;
    for i in 0..declared.len() {
        let column = &declared[i];
        columns.push(version_column(alloc, table, i, column, position)?)?;
        if is_value_column(table, i, column) {
            position += 1;
        }
    }
    Ok(Items::from_vec(columns))
}
