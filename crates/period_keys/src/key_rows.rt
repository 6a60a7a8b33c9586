//! The version rows of one key, found by their periods.

ghost use Rattle.std.specs.Prelude.{◌≡◌, ◌↔◌, ◌<◌, ◌+◌, ◌++◌, ◌∷◌, [], ℕ, Contains, IfOk};
ghost use Rattle.std.specs.Prelude.{IfSome, IsPermutation, IsTrue, List, MatchOption, OnErr, OnOk};
ghost use Rattle.std.specs.Prelude.{length, map, slice_index_or};
ghost use Rattle.std.proofs.Props.{props};
ghost use Rattle.std.specs.Bool.{OnFalse, OnTrue};
ghost use Rattle.std.specs.List.{swap_remove};
ghost use Rattle.std.specs.List.Sorted.{IsSorted};
ghost use Rattle.std.specs.Ordering.{nat_cmp};
ghost use Rattle.period_core.specs.declared.version.VersionRow.{VersionRow as Version};
ghost use Rattle.period_keys.specs.Between.{Meets};
ghost use Rattle.period_keys.specs.Gaps.{IsEndOfHolder};
ghost use Rattle.period_keys.specs.Index.{SharesDayOfKept, periods_at};
ghost use Rattle.period_keys.specs.Keys.{IsLeastOf};
ghost use Rattle.period_keys.specs.Near.{IsAt};
ghost use Rattle.period_keys.specs.Placed.{ArePlacedIn};
ghost use Rattle.period_keys.specs.Versions.{period_of, recorded};

use crate::block::Block;
use crate::key::Key;
use crate::keyed_periods::KeyedPeriods;
use crate::near_rows::{end_near, first_shared_near, is_recorded, place_near, places_near};
use crate::period_blocks::PeriodBlocks;
use crate::placed_period::PlacedPeriod;
use crate::shared_days::{earlier, first_of_kept};
use period_core::{Day, Memory, Moment, Period, Values, VersionRow};
use std::alloc::Global;

// Up to this many rows are looked at one by one.
const FEW: usize = 32;

/// The rows of one key. If they are many, their periods are stored too, with their places,
/// so that a look at a few days, or one row more or less, costs little however many they are.
/// The periods are in a box, so that a key of few rows takes little memory.
#[derive(Drop)]
pub struct KeyRows {
    rows: Vec<VersionRow>,
    placed: Option<Box<PeriodBlocks>>,
    pub ghost complete: { IfSome placed (ArePlacedIn rows.items) } by { Prim.hlevel props },
}

impl KeyRows {
    /// No rows.
    pub fn none(alloc: Global) -> KeyRows
        ensures { result.rows.items ≡ [] }
    {
        KeyRows {
            rows: Vec::new(alloc),
            placed: None,
        }
    }

    /// The rows.
    pub fn as_slice(&self) -> &[VersionRow]
        ensures { result.now ≡ self.now.rows.items }
    {
        self.rows.as_slice()
    }

    /// Whether there are none.
    pub fn is_empty(&self) -> bool
        ensures { IsTrue result ↔ (self.now.rows.items ≡ []) }
    {
        self.rows.is_empty()
    }

    /// Adds a row. An error changes nothing.
    pub fn add(&mut self, alloc: Global, row: VersionRow) -> Result<(), Memory>
        ensures ok { OnOk result
            (IsPermutation self.new.rows.items (self.old.rows.items ++ row ∷ [])) }
        ensures err { OnErr result (self.new.rows.items ≡ self.old.rows.items) }
    {
        let place = self.rows.len();
        push_row(&mut self.rows, row)?;
        let placed = self.placed.take();
        self.placed = placed_with(alloc, placed, self.rows.as_slice(), place);
        Ok(())
    }

    /// Takes out one row with the values, period and system time given. Says whether there was one.
    pub fn take_one(&mut self, values: &Values, period: Period, from: Moment, to: Moment) -> bool
        ensures taken { OnTrue result (IsPermutation self.old.rows.items
            (recorded values.now period from to ∷ self.new.rows.items)) }
        ensures absent { OnFalse result
            (Contains self.old.rows.items (recorded values.now period from to) → ⊥) }
        ensures kept { OnFalse result (self.new.rows.items ≡ self.old.rows.items) }
    {
        let Some(place) = self.place_of(values, period, from, to) else {
            return false;
        };
        let last = self.rows.len() - 1;
        let gone = placed_at(self.rows.as_slice(), place);
        let moved = placed_at(self.rows.as_slice(), last);
        let _row = self.rows.swap_remove(place);
        let placed = self.placed.take();
        self.placed = placed_without(placed, &gone, &moved);
        true
    }

    // The place of the row with the values, period and system time given, if there is one.
    fn place_of(&self, values: &Values, period: Period, from: Moment, to: Moment) -> Option<usize>
        ensures { MatchOption result
            (Contains self.now.rows.items (recorded values.now period from to) → ⊥)
            (λ place. (place < length self.now.rows.items)
            × ((d : Version)
            → slice_index_or self.now.rows.items place d ≡ recorded values.now period from to)) }
    {
        let rows = self.rows.as_slice();
        if let Some(placed) = &self.placed {
            let place = place_near(rows, placed.as_slice(), values, &period, from, to);
            if place.is_some() {
                return place;
            }
        }
        place_among(rows, values, &period, from, to)
    }

    /// The first day that the period shares with the period of a row which is not among the periods
    /// of the key that are removed.
    pub fn first_shared(&self, gone: &KeyedPeriods, key: &Key, period: &Period) -> Option<Day>
        ensures { IsLeastOf (SharesDayOfKept (map period_of self.now.rows.items)
            (periods_at gone.now key.now) period.now) result }
    {
        let rows = self.rows.as_slice();
        match &self.placed {
            Some(placed) => first_shared_near(rows, placed.as_slice(), gone, key, period),
            None => first_shared_among(rows, gone, key, period),
        }
    }

    /// The end of the period of a row that holds the day. If no two rows hold it, few rows are
    /// looked at, but to find that none does.
    pub fn end_of_holder(&self, day: Day) -> Option<Day>
        ensures { IsEndOfHolder (map period_of self.now.rows.items) day result }
    {
        let rows = self.rows.as_slice();
        if let Some(placed) = &self.placed {
            if let Some(end) = end_near(rows, placed.near(day), day) {
                return Some(end);
            }
        }
        end_among(rows, day)
    }

    /// The places of the rows that share a day with the period, in ascending order, if that
    /// takes no look at most of the rows.
    pub fn places_near(&self, alloc: Global, period: &Period) -> Result<Option<Vec<usize>>, Memory>
        ensures ascending { IfOk result (λ found. IfSome found (λ places.
            IsSorted nat_cmp places.items)) }
        ensures all { IfOk result (λ found. IfSome found (λ places.
            (place : ℕ) (d : Version) → place < length self.now.rows.items
            → Meets (slice_index_or self.now.rows.items place d).period period.now
            → (Contains places.items place → ⊥) → ⊥)) }
    {
        let Some(placed) = &self.placed else {
            return Ok(None);
        };
        let blocks = placed.as_slice();
        if !are_few_near(blocks, period) {
            return Ok(None);
        }
        let places = places_near(alloc, blocks, period)?;
        Ok(Some(places))
    }
}

// Adds a row at the end. The first one gets no spare room, since most keys have one row.
fn push_row(rows: &mut Vec<VersionRow>, row: VersionRow) -> Result<(), Memory>
    ensures ok { OnOk result (rows.new.items ≡ rows.old.items ++ row ∷ []) }
    ensures err { OnErr result (rows.new.items ≡ rows.old.items) }
{
    if rows.is_empty() {
        rows.reserve_exact(1)?;
    }
    rows.push(row)?;
    Ok(())
}

// The period of the row at a place.
fn placed_at(rows: &[VersionRow], place: usize) -> PlacedPeriod
    requires { place < length rows.now }
    ensures place { result.place ≡ place }
    ensures row { IsAt rows.now result }
{
    PlacedPeriod {
        period: rows[place].period,
        place,
    }
}

// The placed periods of rows of which the one at a place came in last. If there is
// no memory for it there are none.
fn placed_with(
    alloc: Global,
    placed: Option<Box<PeriodBlocks>>,
    rows: &[VersionRow],
    last: usize,
) -> Option<Box<PeriodBlocks>>
    requires { last < length rows.now }
    ensures { (before : List Version) (row : Version) → rows.now ≡ before ++ row ∷ []
        → last ≡ length before
        → IfSome placed (ArePlacedIn before) → IfSome result (ArePlacedIn rows.now) }
{
    let Some(blocks) = placed else {
        return placed_if_many(alloc, rows);
    };
    let mut more = blocks;
    let item = placed_at(rows, last);
    match more.add(alloc, &item) {
        Ok(()) => Some(more),
        Err(_) => None,
    }
}

// The placed periods of the rows, if they are many.
fn placed_if_many(alloc: Global, rows: &[VersionRow]) -> Option<Box<PeriodBlocks>>
    ensures { IfSome result (ArePlacedIn rows.now) }
{
    if rows.len() <= FEW {
        return None;
    }
    match placed_all(alloc, rows) {
        Ok(blocks) => Some(blocks),
        Err(_) => None,
    }
}

// The placed periods of the rows.
fn placed_all(alloc: Global, rows: &[VersionRow]) -> Result<Box<PeriodBlocks>, Memory>
    ensures { IfOk result (ArePlacedIn rows.now) }
{
    let blocks = PeriodBlocks::of(alloc, rows)?;
    let boxed = Box::new(alloc, blocks)?;
    Ok(boxed)
}

// The placed periods without one whose row is gone, and with the last one in its place. It takes no
// memory.
fn placed_without(
    placed: Option<Box<PeriodBlocks>>,
    gone: &PlacedPeriod,
    last: &PlacedPeriod,
) -> Option<Box<PeriodBlocks>>
    ensures { (before : List Version) (x : Version) → IsAt before gone.now → IsAt before last.now
        → last.now.place + 1 ≡ length before
        → IfSome placed (ArePlacedIn before)
        → IfSome result (ArePlacedIn (swap_remove before gone.now.place x)) }
{
    let Some(blocks) = placed else {
        return None;
    };
    let mut less = blocks;
    less.take_out(gone);
    if gone.place == last.place || less.replace(last, gone.place) {
        Some(less)
    } else {
        None
    }
}

// Whether at most half of the blocks may have a row on the days given.
fn are_few_near(blocks: &[Block], period: &Period) -> bool {
    let mut near = 0;
    for block in blocks {
        if block.may_meet(period) {
            near += 1;
        }
    }
    near <= blocks.len() / 2
}

// The place of the row with the values, period and system time given, if there is one.
fn place_among(
    rows: &[VersionRow],
    values: &Values,
    period: &Period,
    from: Moment,
    to: Moment,
) -> Option<usize>
    ensures { MatchOption result
        (Contains rows.now (recorded values.now period.now from to) → ⊥)
        (λ place. (place < length rows.now)
        × ((d : Version)
        → slice_index_or rows.now place d ≡ recorded values.now period.now from to)) }
{
    for place in 0..rows.len() {
        if is_recorded(&rows[place], values, *period, from, to) {
            return Some(place);
        }
    }
    None
}

// The end of the period of a row that holds the day.
fn end_among(rows: &[VersionRow], day: Day) -> Option<Day>
    ensures { IsEndOfHolder (map period_of rows.now) day result }
{
    for row in rows {
        if row.period.contains_day(day) {
            return Some(row.period.end);
        }
    }
    None
}

// The first day that the period shares with the period of a row which is not among the removed
// periods of the key.
fn first_shared_among(
    rows: &[VersionRow],
    gone: &KeyedPeriods,
    key: &Key,
    period: &Period,
) -> Option<Day>
    ensures { IsLeastOf (SharesDayOfKept (map period_of rows.now)
        (periods_at gone.now key.now) period.now) result }
{
    let mut found = None;
    for row in rows {
        found = earlier(found, first_of_kept(gone, key, period, &row.period));
    }
    found
}
