//! Coalescing of ordered rows as they come.

ghost use Rattle.std.specs.Prelude.{◌≡◌, ◌↔◌, ◌≤ℤ◌, ◌⊎◌, IsTrue};
ghost use Rattle.std.specs.Iterator.{HoldsAlong, IsFinite};
ghost use Rattle.std.specs.Iterator.Runs.{EachRunFrom, SomeRun};
ghost use Rattle.coalesce_core.specs.Coalesced.{IsOrdered};
ghost use Rattle.coalesce_core.specs.Streaming.{coalesce_can, coalesce_left, coalesce_steps};
ghost use Rattle.coalesce_core.specs.Streaming.{IsCoalescedRun};

use crate::ordering::are_same;
use period_core::{Day, Period, PeriodRow};

/// The coalesced rows of a source of ordered rows, one at a time. It keeps one row of the source
/// in hand, and takes no memory.
#[derive(Drop)]
pub struct Coalesce<I> {
    source: I,
    // The first of the rows that are not given yet. None once the source has ended.
    ahead: Option<PeriodRow>,
}

impl<I: Iterator<Item = PeriodRow>> Coalesce<I> {
    /// The coalesced rows of a source that ends, and whose rows are in the order of values and
    /// then first day. The source's first row is taken at once.
    pub fn new(source: I) -> Coalesce<I>
        requires can { I.can_next source }
        requires ends { IsFinite (I.remaining source) }
        requires ordered { HoldsAlong I.next_gives source IsOrdered }
        ensures can { coalesce_can I.can_next I.remaining result }
        ensures ends { IsFinite (coalesce_left I.remaining result) }

        // The rows that it gives are the source's, coalesced.
        ensures runs { EachRunFrom (coalesce_steps I.next_gives) result (λ p.
            SomeRun I.next_gives source (λ q. IsCoalescedRun p q)) }
    {
        let mut source = source;
        let ahead = source.next();
        Coalesce { source, ahead }
    }
}

impl<I: Iterator<Item = PeriodRow>> Iterator for Coalesce<I> {
    type Item = PeriodRow;

    ghost can_next = { coalesce_can I.can_next I.remaining };

    ghost next_gives = { coalesce_steps I.next_gives };

    ghost remaining = { coalesce_left I.remaining };

    fn next(&mut self) -> Option<PeriodRow> {
        let mut row = self.ahead.take()?;
        while let Some(next) = self.source.next() {
            if !joins(&row, &next) {
                self.ahead = Some(next);
                return Some(row);
            }
            row.period = extended(row.period, next.period.end);
        }
        Some(row)
    }
}

// Whether a value-equivalent row overlaps or meets one that began no later.
fn joins(last: &PeriodRow, row: &PeriodRow) -> bool
    ensures { IsTrue result ↔
        ((last.now.values ≡ row.now.values) × (row.now.period.start ≤ℤ last.now.period.end)) }
{
    are_same(last.values.as_slice(), row.values.as_slice()) && row.period.start <= last.period.end
}

// The period with its end moved to this day, if that is later.
fn extended(period: Period, end: Day) -> Period
    ensures start { result.start ≡ period.start }
    ensures keeps { period.end ≤ℤ result.end }
    ensures reaches { end ≤ℤ result.end }
    ensures tight { (result.end ≡ period.end) ⊎ (result.end ≡ end) }
{
    if period.end < end {
        Period {
            start: period.start,
            end,
        }
    } else {
        period
    }
}
