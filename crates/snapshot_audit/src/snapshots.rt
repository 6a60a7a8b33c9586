//! The rows that hold on a day.

ghost use Rattle.std.specs.Prelude.{◌↔◌, IsTrue, IfOk};
ghost use Rattle.temporal_model.specs.Snapshot.{InSnapshot};
ghost use Rattle.snapshot_audit.specs.ActiveRows.{AllAreActive, AreActive, InActive};
ghost use Rattle.snapshot_audit.specs.Sets.{ListsSet};

use crate::sets::sorted_once;
use catalog_core::resolved::Tables;
use period_core::{Day, Memory, PeriodRow, Values};
use std::alloc::Global;

/// Whether some row holds the values on the day with this number.
pub(crate) fn is_held_on(rows: &[PeriodRow], values: &Values, day: i32) -> bool
    ensures { IsTrue result ↔ InSnapshot rows.now day values.now }
{
    for row in rows {
        if row.values == *values
            && row.period.start.number() <= day
            && day < row.period.end.number()
        {
            return true;
        }
    }
    false
}

/// The rows that cover the day.
pub(crate) fn active_on<'a>(
    alloc: Global,
    rows: &'a [PeriodRow],
    day: Day,
) -> Result<Vec<&'a PeriodRow>, Memory>
    ensures { IfOk result (λ active. AreActive rows.now active.items day) }
{
    let mut active = Vec::new(alloc);
    for row in rows {
        if row.period.contains_day(day) {
            active.push(row)?;
        }
    }
    Ok(active)
}

/// For each list the rows that cover the day.
pub(crate) fn all_active_on<'a>(
    alloc: Global,
    tables: &'a Tables,
    day: Day,
) -> Result<Vec<Vec<&'a PeriodRow>>, Memory>
    ensures { IfOk result (λ seen. AllAreActive tables.now seen.items day) }
{
    let mut seen = Vec::new(alloc);
    for table in tables.as_slice() {
        seen.push(active_on(alloc, table.as_slice(), day)?)?;
    }
    Ok(seen)
}

/// The values of the rows, in ascending order, each list of values once.
pub(crate) fn values_of(alloc: Global, active: &[&PeriodRow]) -> Result<Vec<Values>, Memory>
    ensures { IfOk result (λ set. ListsSet (InActive active.now) set.items) }
{
    let mut held = Vec::with_capacity(alloc, active.len())?;
    for row in active {
        held.push(row.values.copy(alloc)?)?;
    }
    sorted_once(held)
}

/// The snapshot of the rows on a day, in ascending order, each list of values once.
pub fn rows_on(alloc: Global, rows: &[PeriodRow], day: Day) -> Result<Vec<Values>, Memory>
    ensures { IfOk result (λ set. ListsSet (InSnapshot rows.now day) set.items) }
{
    let active = active_on(alloc, rows, day)?;
    values_of(alloc, active.as_slice())
}
