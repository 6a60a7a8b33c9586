//! Rows in an order in which it is quickly found whether they hold values on a day.

ghost use Rattle.std.specs.Prelude.{◌≡◌, ◌↔◌, ◌≤ℤ◌, ◌<ℤ◌, ◌+ℤ◌, pos, IfOk, IsTrue};
ghost use Rattle.temporal_model.specs.Snapshot.{Equivalent, InSnapshot};
ghost use Rattle.snapshot_audit.specs.Staggered.{AreStaggered, LastHolds, comes_before};

use period_core::{Day, Items, Memory, PeriodRow, Values};
use std::alloc::Global;
use std::cmp::Ordering;

// Whether the row ends no later than the other.
fn ends_by(row: &PeriodRow, other: &PeriodRow) -> bool
    ensures { IsTrue result ↔ (row.now.period.end ≤ℤ other.now.period.end) }
{
    row.period.end <= other.period.end
}

// Whether the last of the rows has the row's values, and ends no earlier.
fn last_holds(rows: &[PeriodRow], row: &PeriodRow) -> bool
    ensures { IsTrue result ↔ LastHolds rows.now row.now }
{
    match rows.last() {
        Some(last) => last.values == row.values && ends_by(row, last),
        None => false,
    }
}

/// Rows with the same snapshots, in the order of their values, and rows of the same values in the
/// order of their starts and of their ends: without rows that lie within another.
pub(crate) fn staggered(alloc: Global, rows: Vec<PeriodRow>) -> Result<Items<PeriodRow>, Memory>
    ensures staggered { IfOk result AreStaggered }
    ensures same { IfOk result (Equivalent rows.items) }
{
    let mut sorted = rows;
    sorted.sort()?;
    let mut kept = Vec::new(alloc);
    for row in sorted {
        if !last_holds(kept.as_slice(), &row) {
            kept.push(row)?;
        }
    }
    Ok(Items::from_vec(kept))
}

// Whether the row precedes these values, or has them and begins by the day.
fn begins_by(row: &PeriodRow, values: &Values, day: Day) -> bool
    ensures { result ≡ comes_before row.now.values row.now.period.start values.now (day +ℤ pos 1) }
{
    match row.values.cmp(values) {
        Ordering::Less => true,
        Ordering::Equal => row.period.start <= day,
        Ordering::Greater => false,
    }
}

// Whether the row ends after the day.
fn ends_after(row: &PeriodRow, day: Day) -> bool
    ensures { IsTrue result ↔ (day <ℤ row.now.period.end) }
{
    day < row.period.end
}

/// Whether the rows hold the values on the day: the last row with them that has begun does so, or
/// none.
pub(crate) fn holds_on(rows: &[PeriodRow], values: &Values, day: Day) -> bool
    requires { AreStaggered rows.now }
    ensures { IsTrue result ↔ InSnapshot rows.now day values.now }
{
    let begun = rows.partition_point(|row| begins_by(row, values, day));
    if begun == 0 {
        return false;
    }
    let last = &rows[begun - 1];
    last.values == *values && ends_after(last, day)
}
