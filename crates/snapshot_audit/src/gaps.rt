//! Rows in order with gaps: a form of a list that is read off its neighbours.

ghost use Rattle.std.specs.Prelude.{◌↔◌, ◌<ℤ◌, IsTrue};
ghost use Rattle.snapshot_audit.specs.Gaps.{HasGaps, IsBeforeWithGap};

use period_core::PeriodRow;
use std::cmp::Ordering;

/// Whether the rows are in order, and a day lies between any two of the same values.
pub(crate) fn has_gaps(rows: &[PeriodRow]) -> bool
    ensures { IsTrue result ↔ HasGaps rows.now }
{
    for place in 1..rows.len() {
        if !is_before_with_gap(&rows[place - 1], &rows[place]) {
            return false;
        }
    }
    true
}

// Whether the first row precedes the second, and a day lies between them if they have the same
// values.
fn is_before_with_gap(first: &PeriodRow, second: &PeriodRow) -> bool
    ensures { IsTrue result ↔ IsBeforeWithGap first.now second.now }
{
    match first.values.cmp(&second.values) {
        Ordering::Less => true,
        Ordering::Equal => ends_before(first, second),
        Ordering::Greater => false,
    }
}

// Whether a day that neither covers lies between the two: an end is the first day that a row does
// not cover.
fn ends_before(first: &PeriodRow, second: &PeriodRow) -> bool
    ensures { IsTrue result ↔ (first.now.period.end <ℤ second.now.period.start) }
{
    first.period.end < second.period.start
}
