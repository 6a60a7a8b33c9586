//! Rows that can still become part of a row that meets the conditions.

ghost use Rattle.std.specs.Prelude.{IfOk};
ghost use Rattle.temporal_model.specs.Snapshot.{InSnapshot};
ghost use Rattle.sequenced_ops.specs.Planning.{IsPruned};

use crate::conjuncts::is_ruled_out;
use catalog_core::Cond;
use period_core::{Memory, PeriodRow};
use std::alloc::Global;

/// Whether the conditions rule one of the rows out, so that it pays to leave such rows out. Either
/// answer is right.
pub fn rules_some_out(conjuncts: &[Cond], start: usize, rows: &[PeriodRow]) -> bool {
    for row in rows {
        if is_ruled_out(conjuncts, start, row.values.as_slice()) {
            return true;
        }
    }
    false
}

/// Copies of the rows, whose values a combined row has from a position on, but of those that the
/// conditions rule out.
pub fn copy_pruned(
    alloc: Global,
    conjuncts: &[Cond],
    start: usize,
    rows: &[PeriodRow],
) -> Result<Vec<PeriodRow>, Memory>
    ensures { IfOk result
        (λ kept. IsPruned conjuncts.now start (InSnapshot rows.now) kept.items) }
{
    let mut kept = Vec::new(alloc);
    for row in rows {
        if !is_ruled_out(conjuncts, start, row.values.as_slice()) {
            kept.push(row.copy(alloc)?)?;
        }
    }
    Ok(kept)
}
