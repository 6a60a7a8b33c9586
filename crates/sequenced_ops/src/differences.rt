//! Difference: a sweep over both sides, each shortest and in order.

ghost use Rattle.std.specs.Prelude.{◌↔◌, ◌⊎◌, ◌<ℤ◌, ℤ, List, IfOk, OnOk};
ghost use Rattle.period_core.specs.declared.value.Value.{Value};
ghost use Rattle.temporal_model.specs.Snapshot.{InSnapshot};
ghost use Rattle.sequenced_ops.specs.Operations.{SnapshotsAre, InDifference};
ghost use Rattle.sequenced_ops.specs.Sweeping.{IsDisjoint, KeepsLater, RowHolds};

use crate::relative_positions::{RelativePosition, relative_position};
use coalesce_core::coalesce;
use period_core::{Memory, Period, PeriodRow};
use std::alloc::Global;

// Adds the days of the row before the other begins, if there are any.
fn push_front(
    alloc: Global,
    rows: &mut Vec<PeriodRow>,
    row: &PeriodRow,
    other: &PeriodRow,
) -> Result<(), Memory>
    requires { other.now.period.start <ℤ row.now.period.end }
    ensures { OnOk result ((day : ℤ) (values : List Value) →
        (InSnapshot rows.new.items day values
        ↔ (InSnapshot rows.old.items day values
        ⊎ (RowHolds row.now day values × (day <ℤ other.now.period.start))))) }
{
    if let Some(period) = Period::new(row.period.start, other.period.start) {
        rows.push(PeriodRow {
            values: row.values.copy(alloc)?,
            period,
        })?;
    }
    Ok(())
}

// Adds the row's days on which the others do not hold its values. What it gives are the others that
// a later row can overlap.
fn push_outside<'a>(
    alloc: Global,
    rows: &mut Vec<PeriodRow>,
    row: PeriodRow,
    others: &'a [PeriodRow],
) -> Result<&'a [PeriodRow], Memory>
    requires { IsDisjoint others.now }
    ensures rows { OnOk result ((day : ℤ) (values : List Value) →
        (InSnapshot rows.new.items day values
        ↔ (InSnapshot rows.old.items day values
        ⊎ (RowHolds row day values × (InSnapshot others.now day values → ⊥))))) }
    ensures left { IfOk result (λ left. KeepsLater row others.now left.now) }
    ensures disjoint { IfOk result (λ left. IsDisjoint left.now) }
{
    let mut row = row;
    let mut rest = others;
    'others: while let [other, after @ ..] = rest {
        match relative_position(&row, other) {
            RelativePosition::Before => break,
            RelativePosition::After => {}
            RelativePosition::Overlapping => {
                push_front(alloc, rows, &row, other)?;
                let Some(period) = Period::new(other.period.end, row.period.end) else {
                    return Ok(rest);
                };
                row = PeriodRow {
                    values: row.values,
                    period,
                };
            }
        }
        rest = after;
    }
    rows.push(row)?;
    Ok(rest)
}

/// On each day the values that the left side holds and the right side does not.
pub fn difference(
    alloc: Global,
    left: Vec<PeriodRow>,
    right: Vec<PeriodRow>,
) -> Result<Vec<PeriodRow>, Memory>
    ensures { IfOk result (λ rows.
        SnapshotsAre (InDifference left.items right.items) rows.items) }
{
    let left = coalesce(alloc, left)?;
    let right = coalesce(alloc, right)?;
    let mut rows = Vec::new(alloc);
    let mut others = right.as_slice();
    for row in left {
        others = push_outside(alloc, &mut rows, row, others)?;
    }
    Ok(rows)
}
