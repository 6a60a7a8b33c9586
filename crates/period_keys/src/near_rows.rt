//! The rows of a key that hold on days of a period, found by blocks of their periods.

ghost use Rattle.std.specs.Prelude.{◌≡◌, ◌<◌, ◌↔◌, ℕ, Contains, IfOk, IfSome, IsTrue, OnOk, length};
ghost use Rattle.std.specs.Prelude.{map, slice_index_or};
ghost use Rattle.std.specs.List.{Any};
ghost use Rattle.std.specs.List.Sorted.{IsSorted};
ghost use Rattle.std.specs.Ordering.{nat_cmp};
ghost use Rattle.period_core.specs.declared.version.VersionRow.{VersionRow as Version};
ghost use Rattle.period_keys.specs.declared.block.Block.{Block as BlockModel};
ghost use Rattle.period_keys.specs.declared.placed_period.PlacedPeriod.{PlacedPeriod as Placed};
ghost use Rattle.period_keys.specs.Between.{Meets};
ghost use Rattle.period_keys.specs.Gaps.{IsHeldUntil};
ghost use Rattle.period_keys.specs.Index.{periods_at};
ghost use Rattle.period_keys.specs.Keys.{IsLeastOf};
ghost use Rattle.period_keys.specs.Near.{IsAt, IsKeptAt};
ghost use Rattle.period_keys.specs.Versions.{period_of, recorded};

use crate::block::{Block, is_same_period};
use crate::key::Key;
use crate::keyed_periods::KeyedPeriods;
use crate::placed_period::PlacedPeriod;
use crate::shared_days::{earlier, first_of_kept};
use period_core::{Day, Memory, Moment, Period, Values, VersionRow};
use std::alloc::Global;

/// The places of those that share a day with the period, in ascending order.
pub fn places_near(alloc: Global, blocks: &[Block], period: &Period) -> Result<Vec<usize>, Memory>
    ensures ascending { IfOk result (λ places. IsSorted nat_cmp places.items) }
    ensures all { IfOk result (λ places. (item : Placed)
        → Any (λ (block : BlockModel). Contains block.items.items item) blocks.now
        → Meets item.period period.now → Contains places.items item.place) }
{
    let mut places = Vec::new(alloc);
    for block in blocks {
        push_places(&mut places, block, period)?;
    }
    places.sort()?;
    Ok(places)
}

// Adds the places of the block's periods that share a day with the period.
fn push_places(places: &mut Vec<usize>, block: &Block, period: &Period) -> Result<(), Memory>
    ensures kept { OnOk result ((place : ℕ)
        → Contains places.old.items place → Contains places.new.items place) }
    ensures all { OnOk result ((item : Placed) → Contains block.now.items.items item
        → Meets item.period period.now → Contains places.new.items item.place) }
{
    if block.may_meet(period) {
        push_each(places, block.as_slice(), period)
    } else {
        Ok(())
    }
}

// Adds the places of those that share a day with the period.
fn push_each(places: &mut Vec<usize>, items: &[PlacedPeriod], period: &Period) -> Result<(), Memory>
    ensures kept { OnOk result ((place : ℕ)
        → Contains places.old.items place → Contains places.new.items place) }
    ensures all { OnOk result ((item : Placed) → Contains items.now item
        → Meets item.period period.now → Contains places.new.items item.place) }
{
    for item in items {
        push_place(places, item, period)?;
    }
    Ok(())
}

// Adds the place of one, if it shares a day with the period.
fn push_place(places: &mut Vec<usize>, item: &PlacedPeriod, period: &Period) -> Result<(), Memory>
    ensures kept { OnOk result ((place : ℕ)
        → Contains places.old.items place → Contains places.new.items place) }
    ensures near { OnOk result
        (Meets item.now.period period.now → Contains places.new.items item.now.place) }
{
    if item.period.overlaps(*period) {
        places.push(item.place)?;
        Ok(())
    } else {
        Ok(())
    }
}

/// The first day that the period shares with a row whose period is not among the removed ones
/// of the key, for rows that are all in the blocks.
pub fn first_shared_near(
    rows: &[VersionRow],
    blocks: &[Block],
    gone: &KeyedPeriods,
    key: &Key,
    period: &Period,
) -> Option<Day>
    ensures { IsLeastOf (λ day. Any (λ (block : BlockModel). Any
        (IsKeptAt rows.now (periods_at gone.now key.now) period.now day) block.items.items)
        blocks.now) result }
{
    let mut found = None;
    for block in blocks {
        found = earlier(found, first_shared_in(rows, block, gone, key, period));
    }
    found
}

// The first shared day by the rows of one block.
fn first_shared_in(
    rows: &[VersionRow],
    block: &Block,
    gone: &KeyedPeriods,
    key: &Key,
    period: &Period,
) -> Option<Day>
    ensures { IsLeastOf (λ day. Any
        (IsKeptAt rows.now (periods_at gone.now key.now) period.now day) block.now.items.items)
        result }
{
    if block.may_meet(period) {
        first_shared_of(rows, block.as_slice(), gone, key, period)
    } else {
        None
    }
}

// The first shared day by the rows of some items of a block.
fn first_shared_of(
    rows: &[VersionRow],
    items: &[PlacedPeriod],
    gone: &KeyedPeriods,
    key: &Key,
    period: &Period,
) -> Option<Day>
    ensures { IsLeastOf (λ day. Any
        (IsKeptAt rows.now (periods_at gone.now key.now) period.now day) items.now) result }
{
    let mut found = None;
    for item in items {
        found = earlier(found, first_shared_at(rows, item, gone, key, period));
    }
    found
}

// The first shared day by one row.
fn first_shared_at(
    rows: &[VersionRow],
    item: &PlacedPeriod,
    gone: &KeyedPeriods,
    key: &Key,
    period: &Period,
) -> Option<Day>
    ensures { IsLeastOf
        (λ day. IsKeptAt rows.now (periods_at gone.now key.now) period.now day item.now) result }
{
    // (The row is looked at last: it lies far from the rest.)
    let Some(day) = first_of_kept(gone, key, period, &item.period) else {
        return None;
    };
    if is_at(rows, item) { Some(day) } else { None }
}

// Whether the row at the place has the period.
fn is_at(rows: &[VersionRow], item: &PlacedPeriod) -> bool
    ensures { IsTrue result ↔ IsAt rows.now item.now }
{
    item.place < rows.len() && is_same_period(&rows[item.place].period, &item.period)
}

/// The end of the period of a row that holds the day, if the items have one.
pub fn end_near(rows: &[VersionRow], items: &[PlacedPeriod], day: Day) -> Option<Day>
    ensures { IfSome result (IsHeldUntil (map period_of rows.now) day) }
{
    for item in items {
        if let Some(end) = end_at(rows, item, day) {
            return Some(end);
        }
    }
    None
}

// The end of the period of one row, if it holds the day.
fn end_at(rows: &[VersionRow], item: &PlacedPeriod, day: Day) -> Option<Day>
    ensures { IfSome result (IsHeldUntil (map period_of rows.now) day) }
{
    if !item.period.contains_day(day) {
        return None;
    }
    if is_at(rows, item) {
        Some(item.period.end)
    } else {
        None
    }
}

/// The place of the row with the values, period and system time given, if the blocks have it.
pub fn place_near(
    rows: &[VersionRow],
    blocks: &[Block],
    values: &Values,
    period: &Period,
    from: Moment,
    to: Moment,
) -> Option<usize>
    ensures { IfSome result (λ place. (place < length rows.now) × ((d : Version)
        → slice_index_or rows.now place d ≡ recorded values.now period.now from to)) }
{
    for block in blocks {
        if block.may_meet(period) {
            let place = place_in(rows, block.as_slice(), values, period, from, to);
            if place.is_some() {
                return place;
            }
        }
    }
    None
}

// The place of the row, if the block has it.
fn place_in(
    rows: &[VersionRow],
    items: &[PlacedPeriod],
    values: &Values,
    period: &Period,
    from: Moment,
    to: Moment,
) -> Option<usize>
    ensures { IfSome result (λ place. (place < length rows.now) × ((d : Version)
        → slice_index_or rows.now place d ≡ recorded values.now period.now from to)) }
{
    for item in items {
        let place = item.place;
        if item.period == *period
            && place < rows.len()
            && is_recorded(&rows[place], values, *period, from, to)
        {
            return Some(place);
        }
    }
    None
}

/// Whether the row has the values, period and system time given.
pub fn is_recorded(
    row: &VersionRow,
    values: &Values,
    period: Period,
    from: Moment,
    to: Moment,
) -> bool
    ensures { IsTrue result ↔ ((row.now.period ≡ period) × (row.now.from ≡ from)
        × (row.now.to ≡ to) × (row.now.values ≡ values.now)) }
{
    row.period == period && row.from == from && row.to == to && row.values == *values
}
