//! A block of placed periods.

ghost use Rattle.std.specs.Prelude.{◌≡◌, ◌↔◌, ◌<◌, ◌≤ℤ◌, ◌⊎◌, ◌++◌, ◌∷◌, [], Contains, IfOk};
ghost use Rattle.std.specs.Prelude.{IfSome, IsTrue, OnErr, OnOk, false, length};
ghost use Rattle.std.specs.Prelude.{slice_index_or};
ghost use Rattle.std.specs.Bool.{OnTrue};
ghost use Rattle.std.specs.List.{All};
ghost use Rattle.period_keys.specs.declared.placed_period.PlacedPeriod.{PlacedPeriod as Placed};
ghost use Rattle.period_keys.specs.Between.{LiesBetween, Meets};

use crate::placed_period::PlacedPeriod;
use period_core::{Day, Memory, Period};
use std::alloc::Global;

// The most periods that a block has.
const MOST: usize = 128;

/// Placed periods in any order. They lie between two days, so that a block far from a period is
/// passed over.
#[derive(Drop)]
pub struct Block {
    start: Day,
    end: Day,
    items: Vec<PlacedPeriod>,
    pub ghost within: { All (LiesBetween start end) items.items },
}

impl Block {
    /// One placed period.
    pub fn one(alloc: Global, item: &PlacedPeriod) -> Result<Block, Memory>
        ensures { IfOk result (λ block. block.items.items ≡ item.now ∷ []) }
    {
        let mut items = Vec::new(alloc);
        items.push(*item)?;
        Ok(Block {
            start: item.period.start,
            end: item.period.end,
            items,
        })
    }

    /// The placed periods.
    pub fn as_slice(&self) -> &[PlacedPeriod]
        ensures { result.now ≡ self.now.items.items }
    {
        self.items.as_slice()
    }

    /// Whether some may start by the day.
    pub fn starts_by(&self, day: Day) -> bool {
        self.start <= day
    }

    /// Whether all end by the day.
    pub fn ends_by(&self, day: Day) -> bool {
        self.end <= day
    }

    /// Whether there are as many as a block has.
    pub fn is_full(&self) -> bool {
        self.items.len() >= MOST
    }

    /// Whether some may share a day with the period.
    pub fn may_meet(&self, period: &Period) -> bool
        ensures { result ≡ false → (item : Placed) → Contains self.now.items.items item
            → Meets item.period period.now → ⊥ }
    {
        self.start < period.end && period.start < self.end
    }

    /// Adds one. An error changes nothing.
    pub fn add(&mut self, item: &PlacedPeriod) -> Result<(), Memory>
        ensures ok { OnOk result
            (self.new.items.items ≡ self.old.items.items ++ item.now ∷ []) }
        ensures err { OnErr result (self.new.items.items ≡ self.old.items.items) }
    {
        self.items.push(*item)?;
        self.start = lower(self.start, item.period.start);
        self.end = upper(self.end, item.period.end);
        Ok(())
    }

    /// Takes one out, and says whether it was there.
    pub fn take_out(&mut self, item: &PlacedPeriod) -> bool
        ensures { (other : Placed) → Contains self.old.items.items other
            → (other ≡ item.now) ⊎ Contains self.new.items.items other }
    {
        let Some(place) = self.place_of(item) else {
            return false;
        };
        let _taken = self.items.swap_remove(place);
        if item.period.start == self.start || item.period.end == self.end {
            self.tighten();
        }
        true
    }

    /// Puts one for another of the same period, and says whether that was there.
    pub fn replace(&mut self, item: &PlacedPeriod, place: usize) -> bool
        ensures others { (other : Placed) → Contains self.old.items.items other
            → (other ≡ item.now) ⊎ Contains self.new.items.items other }
        ensures put { OnTrue result (Contains self.new.items.items
            (record { period = item.now.period; place = place })) }
    {
        let Some(at) = self.place_of(item) else {
            return false;
        };
        self.items[at] = PlacedPeriod {
            period: item.period,
            place,
        };
        true
    }

    // The place of the item, if it is in the block.
    fn place_of(&self, item: &PlacedPeriod) -> Option<usize>
        ensures { IfSome result (λ place. (place < length self.now.items.items)
            × (slice_index_or self.now.items.items place item.now ≡ item.now)) }
    {
        let items = self.items.as_slice();
        for i in 0..items.len() {
            if is_same(&items[i], item) {
                return Some(i);
            }
        }
        None
    }

    // Sets the block's days to the least range around its periods.
    fn tighten(&mut self)
        ensures { self.new.items.items ≡ self.old.items.items }
    {
        let Some(first) = self.items.first() else {
            return;
        };
        let (start, end) = bounds(&first.period, self.items.as_slice());
        self.start = start;
        self.end = end;
    }

    /// Takes out the later half, and gives it as a block of its own. An error changes nothing but
    /// their order.
    pub fn cut(&mut self, alloc: Global) -> Result<Block, Memory>
        ensures { IfOk result (λ later. (item : Placed) → Contains self.old.items.items item
            → Contains later.items.items item ⊎ Contains self.new.items.items item) }
    {
        self.items.sort_by_key(|item| item.period.start)?;
        let half = self.items.len() / 2;
        let (_earlier, second) = self.items.as_slice().split_at(half);
        let later = block_of(alloc, second)?;
        self.items.truncate(half);
        self.tighten();
        Ok(later)
    }
}

// A block of placed periods.
fn block_of(alloc: Global, items: &[PlacedPeriod]) -> Result<Block, Memory>
    ensures { IfOk result (λ block. block.items.items ≡ items.now) }
{
    let Some(first) = items.first() else {
        return Err(Memory);
    };
    let (start, end) = bounds(&first.period, items);
    let mut copies = Vec::with_capacity(alloc, MOST)?;
    copies.extend_from_slice(items)?;
    Ok(Block {
        start,
        end,
        items: copies,
    })
}

// Days between which the period and the items lie.
fn bounds(period: &Period, items: &[PlacedPeriod]) -> (Day, Day)
    ensures { All (LiesBetween result.0 result.1) items.now }
{
    let mut start = period.start;
    let mut end = period.end;
    for item in items {
        start = lower(start, item.period.start);
        end = upper(end, item.period.end);
    }
    (start, end)
}

// The earlier of two days.
fn lower(day: Day, other: Day) -> Day
    ensures one { result ≤ℤ day }
    ensures other { result ≤ℤ other }
{
    if other < day { other } else { day }
}

// The later of two days.
fn upper(day: Day, other: Day) -> Day
    ensures one { day ≤ℤ result }
    ensures other { other ≤ℤ result }
{
    if other < day { day } else { other }
}

// Whether the two are equal.
fn is_same(one: &PlacedPeriod, other: &PlacedPeriod) -> bool
    ensures { IsTrue result ↔ (one.now ≡ other.now) }
{
    one.place == other.place && is_same_period(&one.period, &other.period)
}

/// Whether the two periods are equal.
pub fn is_same_period(one: &Period, other: &Period) -> bool
    ensures { IsTrue result ↔ (one.now ≡ other.now) }
{
    *one == *other
}
