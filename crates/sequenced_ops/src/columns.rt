//! The values at given positions of a row.

ghost use Rattle.std.specs.Prelude.{List, IfOk, MatchOption};
ghost use Rattle.period_core.specs.declared.value.Value.{Value as ColumnValue};
ghost use Rattle.sequenced_ops.specs.Operations.{ReadsColumns};

use period_core::{Memory, Value, Values};
use std::alloc::Global;

/// The values at these positions: `None` if the row has no value at one of them.
pub fn read_columns(
    alloc: Global,
    columns: &[usize],
    values: &[Value],
) -> Result<Option<Values>, Memory>
    ensures { IfOk result (λ found. MatchOption found
        ((read : List ColumnValue) → ReadsColumns columns.now values.now read → ⊥)
        (ReadsColumns columns.now values.now)) }
{
    let mut read = Vec::with_capacity(alloc, columns.len())?;
    for column in columns {
        let Some(value) = values.get(*column) else {
            return Ok(None);
        };
        read.push(value.copy(alloc)?)?;
    }
    Ok(Some(Values::from_vec(read)))
}
