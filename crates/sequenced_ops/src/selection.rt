//! Selections: the rows that meet a condition, or several, projected to given positions.

ghost use Rattle.std.specs.Prelude.{◌≡◌, ◌↔◌, ◌⊎◌, ℤ, List, IfOk, OnErr, OnOk};
ghost use Rattle.period_core.specs.declared.value.Value.{Value};
ghost use Rattle.temporal_model.specs.Snapshot.{InSnapshot};
ghost use Rattle.catalog_core.specs.Conditions.{meets};
ghost use Rattle.sequenced_ops.specs.Operations.{AddsProjection, InProjection, InSelection};
ghost use Rattle.sequenced_ops.specs.Operations.{IsSelectedOn, SnapshotsAre};
ghost use Rattle.sequenced_ops.specs.Planning.{InMeeting, IsMeetingOn};

use crate::conjuncts::meets_all;
use crate::projection::project_into;
use catalog_core::{Cond, holds};
use period_core::{Memory, PeriodRow};
use std::alloc::Global;

/// Adds the row's values at these positions, over its period, if the row meets the condition and
/// has a value at each. An error leaves the rows as they were.
pub fn select_into(
    alloc: Global,
    rows: &mut Vec<PeriodRow>,
    row: &PeriodRow,
    condition: &Cond,
    columns: &[usize],
) -> Result<(), Memory>
    ensures added { OnOk result ((day : ℤ) (values : List Value) →
        (InSnapshot rows.new.items day values
        ↔ (InSnapshot rows.old.items day values
        ⊎ IsSelectedOn condition.now columns.now row.now day values))) }

    // At most the row's projection is added, at the end.
    ensures behind { OnOk result (AddsProjection (meets condition.now) columns.now row.now
        rows.old.items rows.new.items) }
    ensures kept { OnErr result (rows.new.items ≡ rows.old.items) }
{
    if holds(condition, row.values.as_slice()) {
        return project_into(alloc, rows, row, columns);
    }
    Ok(())
}

/// On each day the values at these positions of the rows that meet the condition.
pub fn select(
    alloc: Global,
    rows: &[PeriodRow],
    condition: &Cond,
    columns: &[usize],
) -> Result<Vec<PeriodRow>, Memory>
    ensures { IfOk result (λ selected.
        SnapshotsAre (InProjection columns.now (InSelection condition.now rows.now))
        selected.items) }
{
    let mut selected = Vec::new(alloc);
    for row in rows {
        select_into(alloc, &mut selected, row, condition, columns)?;
    }
    Ok(selected)
}

/// Adds the row's values at these positions, over its period, if the row meets all conditions and
/// has a value at each.
fn push_meeting(
    alloc: Global,
    rows: &mut Vec<PeriodRow>,
    row: &PeriodRow,
    conjuncts: &[Cond],
    columns: &[usize],
) -> Result<(), Memory>
    ensures { OnOk result ((day : ℤ) (values : List Value) →
        (InSnapshot rows.new.items day values
        ↔ (InSnapshot rows.old.items day values
        ⊎ IsMeetingOn conjuncts.now columns.now row.now day values))) }
{
    if meets_all(conjuncts, row.values.as_slice()) {
        return project_into(alloc, rows, row, columns);
    }
    Ok(())
}

/// On each day the values at these positions of the rows that meet all conditions.
pub fn select_meeting(
    alloc: Global,
    rows: &[PeriodRow],
    conjuncts: &[Cond],
    columns: &[usize],
) -> Result<Vec<PeriodRow>, Memory>
    ensures { IfOk result (λ selected.
        SnapshotsAre (InProjection columns.now (InMeeting conjuncts.now rows.now))
        selected.items) }
{
    // Few do not meet them: what a condition rules out by itself does not come here.
    let mut selected = Vec::with_capacity(alloc, rows.len())?;
    for row in rows {
        push_meeting(alloc, &mut selected, row, conjuncts, columns)?;
    }
    Ok(selected)
}
