//! Relations of two periods: the period predicates of ISO/IEC 9075-2:2011, the days that two
//! periods share, and what is left of one without the other.

ghost use Rattle.std.specs.Prelude.{◌≡◌, ◌↔◌, ◌≤ℤ◌, ◌<ℤ◌, ℤ, IsTrue};
ghost use Rattle.period_core.specs.PeriodPredicates as table;
ghost use Rattle.period_core.specs.DaySets.{AreEqual, Contain, InPart, InPeriod, IsAfter};
ghost use Rattle.period_core.specs.DaySets.{IsBefore, Meet, Overlap, Precede};

use crate::day::Day;
use crate::period::Period;

/// The later of two days.
fn later(day: Day, other: Day) -> Day
    ensures { (next : ℤ) → ((result ≤ℤ next) ↔ ((day ≤ℤ next) × (other ≤ℤ next))) }
{
    if other < day { day } else { other }
}

/// The earlier of two days.
fn earlier(day: Day, other: Day) -> Day
    ensures { (next : ℤ) → ((next <ℤ result) ↔ ((next <ℤ day) × (next <ℤ other))) }
{
    if other < day { other } else { day }
}

/// The period from one day on and before another: `None` if there is no such day.
fn from_to(start: Day, end: Day) -> Option<Period>
    ensures { (day : ℤ) → (InPart result day ↔ ((start ≤ℤ day) × (day <ℤ end))) }
{
    Period::new(start, end)
}

impl Period {
    /// Whether the day is one of the period.
    pub fn contains_day(self, day: Day) -> bool
        ensures value { result ≡ table.covers_day self.start self.end day }
        ensures days { IsTrue result ↔ ((self.start ≤ℤ day) × (day <ℤ self.end)) }
    {
        self.start <= day && day < self.end
    }

    /// Whether the two share a day.
    pub fn overlaps(self, other: Period) -> bool
        ensures table { result ≡ table.overlaps self other }
        ensures days { IsTrue result ↔ Overlap self other }
    {
        self.start < other.end && other.start < self.end
    }

    /// Whether they have the same days.
    pub fn equals(self, other: Period) -> bool
        ensures table { result ≡ table.equals self other }
        ensures days { IsTrue result ↔ AreEqual self other }
    {
        self.start == other.start && self.end == other.end
    }

    /// Whether each day of the other is one of this period.
    pub fn contains(self, other: Period) -> bool
        ensures table { result ≡ table.contains self other }
        ensures days { IsTrue result ↔ Contain self other }
    {
        self.start <= other.start && other.end <= self.end
    }

    /// Whether each day of this period is before each of the other.
    pub fn precedes(self, other: Period) -> bool
        ensures table { result ≡ table.precedes self other }
        ensures days { IsTrue result ↔ Precede self other }
    {
        self.end <= other.start
    }

    /// Whether each day of this period is after each of the other.
    pub fn succeeds(self, other: Period) -> bool
        ensures table { result ≡ table.succeeds self other }
        ensures days { IsTrue result ↔ Precede other self }
    {
        other.precedes(self)
    }

    /// Whether this period precedes the other, with no day between.
    pub fn immediately_precedes(self, other: Period) -> bool
        ensures table { result ≡ table.immediately_precedes self other }
        ensures days { IsTrue result ↔ Meet self other }
    {
        self.end == other.start
    }

    /// Whether this period succeeds the other, with no day between.
    pub fn immediately_succeeds(self, other: Period) -> bool
        ensures table { result ≡ table.immediately_succeeds self other }
        ensures days { IsTrue result ↔ Meet other self }
    {
        self.start == other.end
    }

    /// The period of the days that both have: `None` if they share none.
    pub fn intersect(self, other: Period) -> Option<Period>
        ensures { (day : ℤ) → (InPart result day ↔ (InPeriod self day × InPeriod other day)) }
    {
        from_to(later(self.start, other.start), earlier(self.end, other.end))
    }

    /// The part of this period before each day of the other, and the part after each.
    pub fn minus(self, other: Period) -> (Option<Period>, Option<Period>)
        ensures before { (day : ℤ) →
            (InPart result.0 day ↔ (InPeriod self day × IsBefore day other)) }
        ensures after { (day : ℤ) →
            (InPart result.1 day ↔ (InPeriod self day × IsAfter day other)) }
    {
        let end = earlier(self.end, other.start);
        let start = later(self.start, other.end);
        let first = from_to(self.start, end);
        let last = from_to(start, self.end);
        (first, last)
    }
}
