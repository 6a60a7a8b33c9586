//! The rows that meet a condition.

ghost use Rattle.std.specs.Prelude.{IfOk};
ghost use Rattle.sequenced_ops.specs.Operations.{InSelection, SnapshotsAre};

use catalog_core::{Cond, holds};
use period_core::{Memory, PeriodRow};
use std::alloc::Global;

/// On each day the values that the rows hold and that meet the condition.
pub fn filter(
    alloc: Global,
    rows: Vec<PeriodRow>,
    condition: &Cond,
) -> Result<Vec<PeriodRow>, Memory>
    ensures { IfOk result (λ kept. SnapshotsAre (InSelection condition.now rows.items) kept.items) }
{
    let mut kept = Vec::new(alloc);
    for row in rows {
        if holds(condition, row.values.as_slice()) {
            kept.push(row)?;
        }
    }
    Ok(kept)
}
