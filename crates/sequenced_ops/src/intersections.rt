//! Intersection: a sweep over both sides, each shortest and in order.

ghost use Rattle.std.specs.Prelude.{◌↔◌, ◌⊎◌, ◌≡◌, ◌≤ℤ◌, ℤ, List, IfOk, IsTrue, OnOk};
ghost use Rattle.period_core.specs.declared.value.Value.{Value};
ghost use Rattle.temporal_model.specs.Snapshot.{InSnapshot};
ghost use Rattle.sequenced_ops.specs.Operations.{SnapshotsAre, InIntersection};
ghost use Rattle.sequenced_ops.specs.Sweeping.{IsDisjoint, KeepsLater, RowHolds};

use crate::relative_positions::{RelativePosition, relative_position};
use coalesce_core::coalesce;
use period_core::{Memory, PeriodRow};
use std::alloc::Global;

// Adds the days of both rows, which have the same values.
fn push_common(
    alloc: Global,
    rows: &mut Vec<PeriodRow>,
    row: &PeriodRow,
    other: &PeriodRow,
) -> Result<(), Memory>
    requires { row.now.values ≡ other.now.values }
    ensures { OnOk result ((day : ℤ) (values : List Value) →
        (InSnapshot rows.new.items day values
        ↔ (InSnapshot rows.old.items day values
        ⊎ (RowHolds row.now day values × RowHolds other.now day values)))) }
{
    if let Some(period) = row.period.intersect(other.period) {
        rows.push(PeriodRow {
            values: row.values.copy(alloc)?,
            period,
        })?;
    }
    Ok(())
}

// Whether the first row ends no later than the second.
fn ends_within(row: &PeriodRow, other: &PeriodRow) -> bool
    ensures { IsTrue result ↔ (row.now.period.end ≤ℤ other.now.period.end) }
{
    row.period.end <= other.period.end
}

// Adds the row's days on which the others hold its values. What it gives are the others that a
// later row can overlap.
fn push_inside<'a>(
    alloc: Global,
    rows: &mut Vec<PeriodRow>,
    row: &PeriodRow,
    others: &'a [PeriodRow],
) -> Result<&'a [PeriodRow], Memory>
    requires { IsDisjoint others.now }
    ensures rows { OnOk result ((day : ℤ) (values : List Value) →
        (InSnapshot rows.new.items day values
        ↔ (InSnapshot rows.old.items day values
        ⊎ (RowHolds row.now day values × InSnapshot others.now day values)))) }
    ensures left { IfOk result (λ left. KeepsLater row.now others.now left.now) }
    ensures disjoint { IfOk result (λ left. IsDisjoint left.now) }
{
    let mut rest = others;
    'others: while let [other, after @ ..] = rest {
        match relative_position(row, other) {
            RelativePosition::Before => break,
            RelativePosition::After => {}
            RelativePosition::Overlapping => {
                push_common(alloc, rows, row, other)?;
                if ends_within(row, other) {
                    return Ok(rest);
                }
            }
        }
        rest = after;
    }
    Ok(rest)
}

/// On each day the values that both sides hold.
pub fn intersection(
    alloc: Global,
    left: Vec<PeriodRow>,
    right: Vec<PeriodRow>,
) -> Result<Vec<PeriodRow>, Memory>
    ensures { IfOk result (λ rows.
        SnapshotsAre (InIntersection left.items right.items) rows.items) }
{
    let left = coalesce(alloc, left)?;
    let right = coalesce(alloc, right)?;
    let mut rows = Vec::new(alloc);
    let mut others = right.as_slice();
    for row in left {
        others = push_inside(alloc, &mut rows, &row, others)?;
    }
    Ok(rows)
}
