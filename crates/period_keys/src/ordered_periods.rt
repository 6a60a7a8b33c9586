//! Periods nearly in the order of their starts, so that a period meets its neighbours alone, and
//! one that arrives moves few.

ghost use Rattle.std.specs.Prelude.{◌≡◌, ◌↔◌, ◌<◌, ◌≤◌, ◌<ℤ◌, ◌≤ℤ◌, ◌+◌, ◌++◌, ◌∷◌, []};
ghost use Rattle.std.specs.Prelude.{Contains, IfOk, IsPermutation, IsTrue, MatchOption, OnErr};
ghost use Rattle.std.specs.Prelude.{OnOk};
ghost use Rattle.std.specs.Prelude.{drop, false, length, slice_index_or, take, ℕ};
ghost use Rattle.std.specs.Bool.{OnFalse, OnTrue};
ghost use Rattle.period_core.specs.declared.period.Period.{Period as PeriodModel};
ghost use Rattle.period_keys.specs.Ordered.{AreInOrder, FitsAt};

use period_core::{Day, Memory, Period};
use std::alloc::Global;

// The most settled periods that one which arrives among them moves.
const MOST_MOVED: usize = 512;

/// Periods in two runs, each in the order of their starts. First come the settled ones, and after
/// them the late ones, which came in since and belong far before the last.
#[derive(Drop)]
pub struct OrderedPeriods {
    items: Vec<Period>,
    settled: usize,
    pub ghost within: { settled ≤ length items.items },
    pub ghost ordered: { AreInOrder (take settled items.items) },
    pub ghost late: { AreInOrder (drop settled items.items) },
}

impl OrderedPeriods {
    /// No periods.
    pub fn new(alloc: Global) -> OrderedPeriods
        ensures { result.items.items ≡ [] }
    {
        OrderedPeriods {
            items: Vec::new(alloc),
            settled: 0,
        }
    }

    /// The periods, sorted.
    pub fn sorted(mut items: Vec<Period>) -> Result<OrderedPeriods, Memory>
        ensures { IfOk result (λ sorted. IsPermutation items.items sorted.items.items) }
    {
        items.sort_by_key(|period| period.start)?;
        let settled = items.len();
        Ok(OrderedPeriods { items, settled })
    }

    /// The periods.
    pub fn as_slice(&self) -> &[Period]
        ensures { result.now ≡ self.now.items.items }
    {
        self.items.as_slice()
    }

    /// The settled ones, and the late ones.
    pub fn runs(&self) -> (&[Period], &[Period])
        ensures { result.0.now ++ result.1.now ≡ self.now.items.items }
    {
        self.items.as_slice().split_at(self.settled)
    }

    /// Adds a period. An error changes nothing.
    pub fn add(&mut self, period: Period) -> Result<(), Memory>
        ensures ok { OnOk result
            (IsPermutation self.new.items.items (self.old.items.items ++ period ∷ [])) }
        ensures err { OnErr result (self.new.items.items ≡ self.old.items.items) }
    {
        let (place, settles) = insertion_point(self.items.as_slice(), self.settled, period.start);
        self.items.insert(place, period)?;
        if settles {
            self.settled += 1;
        } else if should_merge(self.items.len() - self.settled, self.settled) {
            self.settle();
        }
        Ok(())
    }

    // Puts all periods in order, if there is memory for it.
    fn settle(&mut self)
        ensures { IsPermutation self.old.items.items self.new.items.items }
    {
        if let Ok(()) = self.items.sort_by_key(|period| period.start) {
            self.settled = self.items.len();
        }
    }

    /// Takes one such period out, and says whether it was there.
    pub fn take_one(&mut self, period: &Period) -> bool
        ensures taken { OnTrue result
            (IsPermutation self.old.items.items (period.now ∷ self.new.items.items)) }
        ensures absent { OnFalse result (Contains self.old.items.items period.now → ⊥) }
        ensures kept { OnFalse result (self.new.items.items ≡ self.old.items.items) }
    {
        let Some(place) = self.place_of(period) else {
            return false;
        };
        let _taken = self.items.remove(place);
        if place < self.settled {
            self.settled -= 1;
        }
        true
    }

    /// Whether such a period exists.
    pub fn has(&self, period: &Period) -> bool
        ensures { IsTrue result ↔ Contains self.now.items.items period.now }
    {
        self.place_of(period).is_some()
    }

    // The place of such a period, if there is one.
    fn place_of(&self, period: &Period) -> Option<usize>
        ensures { MatchOption result (Contains self.now.items.items period.now → ⊥)
            (λ place. (place < length self.now.items.items)
            × (slice_index_or self.now.items.items place period.now ≡ period.now)) }
    {
        let (settled, late) = self.items.as_slice().split_at(self.settled);
        let place = place_of(settled, period);
        if place.is_some() {
            return place;
        }
        let place = place_of(late, period)?;
        Some(self.settled + place)
    }
}

// The place among periods in two runs of one that starts on the day, and whether it is settled
// there: else it is late.
fn insertion_point(periods: &[Period], settled: usize, day: Day) -> (usize, bool)
    requires within { settled ≤ length periods.now }
    requires ordered { AreInOrder (take settled periods.now) }
    requires late { AreInOrder (drop settled periods.now) }
    ensures settles { IsTrue result.1 → (drop settled periods.now ≡ [])
        × FitsAt day (take settled periods.now) result.0 }
    ensures late { result.1 ≡ false → (place : ℕ) × (result.0 ≡ settled + place)
        × FitsAt day (drop settled periods.now) place }
{
    let (first, second) = periods.split_at(settled);
    let place = place_after(first, day);
    if second.is_empty() && first.len() - place <= MOST_MOVED {
        return (place, true);
    }
    (settled + place_after(second, day), false)
}

// Whether there are enough late periods to merge the two runs. Each settled one moves then, so the
// late ones are at least as many as the square root of the settled ones.
fn should_merge(late: usize, settled: usize) -> bool {
    late >= MOST_MOVED && late >= settled / late
}

// The number of periods that start by the day: of periods in order they come first.
fn place_after(periods: &[Period], day: Day) -> usize
    requires { AreInOrder periods.now }
    ensures bound { result ≤ length periods.now }
    ensures before { (k : ℕ) (d : PeriodModel) → k < result
        → (slice_index_or periods.now k d).start ≤ℤ day }
    ensures after { (k : ℕ) (d : PeriodModel) → result ≤ k → k < length periods.now
        → day <ℤ (slice_index_or periods.now k d).start }
{
    let mut low = 0;
    let mut high = periods.len();
    while low < high {
        let middle = low + (high - low) / 2;
        if starts_by(&periods[middle], day) {
            low = middle + 1;
        } else {
            high = middle;
        }
    }
    low
}

// Whether the period starts by the day.
fn starts_by(period: &Period, day: Day) -> bool
    ensures { IsTrue result ↔ (period.now.start ≤ℤ day) }
{
    period.start <= day
}

// The place of the period among periods in order, if it exists. Those that start on another day
// are passed over.
fn place_of(periods: &[Period], period: &Period) -> Option<usize>
    requires { AreInOrder periods.now }
    ensures { MatchOption result (Contains periods.now period.now → ⊥)
        (λ place. (place < length periods.now)
        × (slice_index_or periods.now place period.now ≡ period.now)) }
{
    let mut place = place_after(periods, period.start);
    while place > 0 {
        place -= 1;
        if periods[place].start < period.start {
            return None;
        }
        if periods[place] == *period {
            return Some(place);
        }
    }
    None
}
