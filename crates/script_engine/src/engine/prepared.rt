//! The rows of a table in memory that conditions leave, with the secondary index by which they are
//! found: it is made before the first statement that asks for it.

ghost use Rattle.std.specs.Prelude.{◌≡◌, IfOk};

use crate::engine::in_memory::TablesInMemory;
use catalog_core::{Change, of_number_mut};
use period_core::Memory;
use period_keys::{RowConditions, RowRange, TableIndex, prepare_plan};
use std::alloc::Global;

/// The rows of a table that conditions leave. The index by which they are found is made first, if
/// there is to be one.
fn rows_of_table<C: RowConditions>(
    alloc: Global,
    table: &mut TableIndex,
    conditions: &C,
) -> Result<RowRange, Memory>
    ensures left { IfOk result (λ rows. C.IsRange conditions.now rows.positions rows.range) }
    ensures same { table.new ≡ table.old }
{
    let rows = table.rows_of(alloc, conditions)?;
    if table.rows().positions() != rows.positions.as_slice() {
        table.prepare_for(alloc, &rows)?;
    }
    Ok(rows)
}

impl TablesInMemory {
    /// The rows of the table of a number that conditions leave, as of a table. If no table has it,
    /// they are told by no values.
    pub fn rows_left<C: RowConditions>(
        &mut self,
        alloc: Global,
        number: u8,
        conditions: &C,
    ) -> Result<RowRange, Memory>
        ensures left { IfOk result (λ rows. C.IsRange conditions.now rows.positions rows.range) }
        ensures same { self.new ≡ self.old }
    {
        let Some(table) = of_number_mut(&mut self.current, number) else {
            return RowRange::at(alloc, &[], conditions.range_at(alloc, &[])?);
        };
        rows_of_table(alloc, table, conditions)
    }

    /// Makes the index by which the rows are found that a change may touch, if there is to be one.
    pub fn prepare_change(&mut self, alloc: Global, change: &Change) -> Result<(), Memory>
        ensures { self.new ≡ self.old }
    {
        let Some(table) = of_number_mut(&mut self.current, change.table) else {
            return Ok(());
        };
        prepare_plan(alloc, table, &change.action)
    }
}
