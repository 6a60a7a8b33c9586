//! Coalescing: the shortest list of period rows with the same snapshots, in order, and the witness
//! of each row. It compares values only by their order, so a new type of column changes nothing
//! here: its place in the order is the place of its variant in `Value` (period_core).
#![tactic(auto)]

ghost use Rattle.std.specs.Prelude.{◌≡◌, map, IfOk};
ghost use Rattle.temporal_model.specs.Snapshot.{Equivalent, InSnapshot};
ghost use Rattle.temporal_model.specs.Answer.{IsShortest, IsUniqueUpToOrder};
ghost use Rattle.temporal_model.specs.Answer.{IsInAnswerOrder, IsCertified};
ghost use Rattle.temporal_model.specs.Witness.{witness_of, WitnessEachRow};

mod merging;
mod ordering;
mod sorting;

pub use merging::Coalesce;
pub use ordering::compare_values;
use ordering::is_coalesced;
use period_core::{Memory, PeriodRow, Witness};
use sorting::in_order;
use std::alloc::Global;

/// The shortest list with the same snapshots, in the order of values and then first day.
pub fn coalesce(alloc: Global, rows: Vec<PeriodRow>) -> Result<Vec<PeriodRow>, Memory>
    ensures equivalent { IfOk result (λ answer. Equivalent rows.items answer.items) }
    ensures shortest { IfOk result (λ answer. IsShortest answer.items) }
    ensures ordered { IfOk result (λ answer. IsInAnswerOrder answer.items) }
    ensures certified { IfOk result (λ answer. IsCertified answer.items) }
    ensures unique { IfOk result (λ answer. IsUniqueUpToOrder answer.items) }
{
    if is_coalesced(rows.as_slice()) {
        return Ok(rows);
    }
    let sorted = in_order(alloc, rows)?;
    let merged: Vec<PeriodRow> = Coalesce::new(sorted.into_iter()).collect(alloc)?;
    Ok(merged)
}

/// The first day of each row and the day before it, in the rows' order.
pub fn witnesses(alloc: Global, rows: &[PeriodRow]) -> Result<Vec<Witness>, Memory>
    ensures days { IfOk result (λ w. w.items ≡ map witness_of rows.now) }

    // Of a certified list they are witnesses against its own snapshots.
    ensures shows { IfOk result (λ w.
        IsCertified rows.now → WitnessEachRow (InSnapshot rows.now) rows.now w.items) }
{
    let mut witnesses = Vec::new(alloc);
    for row in rows {
        witnesses.push(Witness {
            held: row.period.start,
            absent: row.period.start.prev(),
        })?;
    }
    Ok(witnesses)
}
