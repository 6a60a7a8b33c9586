//! Periods of days, closed at their start and open at their end, as those of application time in
//! ISO/IEC 9075-2:2011.

ghost use Rattle.std.specs.Prelude.{◌≡◌, ◌↔◌, ◌<ℤ◌, IsSome, IfSome};
ghost use Rattle.period_core.specs.Calendar.{IsDayNumber};

use crate::day::Day;

/// The days from `start` on and before `end`: at least one day. Periods are in the order of their
/// starts, and those with the same start in the order of their ends.
#[derive(Clone, Copy, PartialEq, Eq, PartialOrd, Ord, Debug)]
pub struct Period {
    /// The first day.
    pub start: Day,
    /// The day after the last.
    pub end: Day,
    pub ghost ordered: { start <ℤ end },
    pub ghost days: { IsDayNumber start × IsDayNumber end },
}

impl Period {
    /// The period from `start` on and before `end`: `None` exactly if it would have no day.
    pub fn new(start: Day, end: Day) -> Option<Period>
        ensures there { IsSome result ↔ (start <ℤ end) }
        ensures start { IfSome result (λ p. p.start ≡ start) }
        ensures end { IfSome result (λ p. p.end ≡ end) }
    {
        // `number` ensures what a period keeps: that its ends are days of the calendar.
        if start.number() < end.number() {
            Some(Period { start, end })
        } else {
            None
        }
    }

    /// The first day.
    pub fn start(self) -> Day
        ensures { result ≡ self.start }
    {
        self.start
    }

    /// The day after the last.
    pub fn end(self) -> Day
        ensures { result ≡ self.end }
    {
        self.end
    }
}
