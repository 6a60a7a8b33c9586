//! Union: the rows of both sides.

ghost use Rattle.std.specs.Prelude.{IfOk};
ghost use Rattle.sequenced_ops.specs.Operations.{SnapshotsAre, InUnion};

use period_core::{Memory, PeriodRow};

/// On each day the values that either side holds.
pub fn union(left: Vec<PeriodRow>, right: Vec<PeriodRow>) -> Result<Vec<PeriodRow>, Memory>
    ensures { IfOk result (λ rows. SnapshotsAre (InUnion left.items right.items) rows.items) }
{
    let mut rows = left;
    let mut more = right;
    rows.append(&mut more)?;
    Ok(rows)
}
