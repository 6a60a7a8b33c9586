//! The first day of a period, or of some periods, that no period of a key holds. It is found
//! soonest if the periods of the key are apart.

ghost use Rattle.std.specs.Prelude.{◌≡◌, ◌≤ℤ◌, ◌<ℤ◌, ◌++◌, ◌⊎◌, ℤ, IfSome, MatchOption, Some};
ghost use Rattle.std.specs.List.{Any};
ghost use Rattle.period_keys.specs.Keys.{IsLeastOf, IsWithin};
ghost use Rattle.period_keys.specs.Gaps.{IsEndOfHolder, IsGap, IsHeld, IsHeldUntil};
ghost use Rattle.period_keys.specs.LookUps.{periods_of};

use crate::periods_of_key::PeriodsOfKey;
use period_core::{Day, Period};

/// The first day of the period that none of the periods holds.
pub fn first_gap(periods: &PeriodsOfKey, period: &Period) -> Option<Day>
    ensures { IsLeastOf (IsGap (periods_of periods.now) period.now) result }
{
    let day = held_until(periods, period.start, period.end);
    found_at(None, day, period.end)
}

/// The first day of one of the children that none of the periods holds. Each period is looked at
/// once if the children are in the order of their starts: what one child found to be held is not
/// looked at for the next, and no day from the first gap on is looked at.
pub fn first_gap_of_some(periods: &PeriodsOfKey, children: &[Period]) -> Option<Day>
    ensures { IsLeastOf (λ day. Any (λ child. IsGap (periods_of periods.now) child day)
        children.now) result }
{
    let mut found = None;
    let mut held = None;
    for child in children {
        let from = day_past(&held, child.start);
        let until = earlier_end(&found, child.end);
        let day = held_until(periods, from, until);
        found = found_at(found, day, until);
        held = Period::new(child.start, day);
    }
    found
}

// The first day from this one on that is not in the period, if there is one.
fn day_past(held: &Option<Period>, day: Day) -> Day
    ensures from { day ≤ℤ result }
    ensures held { (other : ℤ) → day ≤ℤ other → other <ℤ result
        → MatchOption held.now ⊥ (λ period. IsWithin period other) }
{
    match held {
        Some(period) => {
            if period.contains_day(day) {
                period.end
            } else {
                day
            }
        }
        None => day,
    }
}

// The end, or the day that was found if that is earlier.
fn earlier_end(found: &Option<Day>, end: Day) -> Day
    ensures upto { result ≤ℤ end }
    ensures found { IfSome found.now (λ day. result ≤ℤ day) }
    ensures one { (result ≡ end) ⊎ (found.now ≡ Some result) }
{
    match found {
        Some(day) => { if *day < end { *day } else { end } }
        None => end,
    }
}

// The day, if it is before the end, else what was found before.
fn found_at(found: Option<Day>, day: Day, end: Day) -> Option<Day>
    ensures day { day <ℤ end → result ≡ Some day }
    ensures before { end ≤ℤ day → result ≡ found }
{
    if day < end { Some(day) } else { found }
}

// The first day from this one on that none of the periods holds, or one from the end on: all before
// it are held.
fn held_until(periods: &PeriodsOfKey, start: Day, end: Day) -> Day
    ensures from { start ≤ℤ result }
    ensures held { (day : ℤ) → start ≤ℤ day → day <ℤ result
        → IsHeld (periods_of periods.now) day }
    ensures gap { result <ℤ end → IsHeld (periods_of periods.now) result → ⊥ }
{
    let mut day = start;
    while day < end {
        match end_of_holder(periods, day) {
            Some(later) => day = later,
            None => return day,
        }
    }
    day
}

// The end of one of the periods that hold the day.
fn end_of_holder(periods: &PeriodsOfKey, day: Day) -> Option<Day>
    ensures { IsEndOfHolder (periods_of periods.now) day result }
{
    match periods {
        PeriodsOfKey::InRuns(first, second) => end_in_runs(*first, *second, day),
        PeriodsOfKey::OfGroup(group) => group.end_of_holder(day),
    }
}

// The end of one of the periods of both lists that hold the day.
fn end_in_runs(first: &[Period], second: &[Period], day: Day) -> Option<Day>
    ensures { IsEndOfHolder (first.now ++ second.now) day result }
{
    if let Some(end) = end_near(first, day) {
        return Some(end);
    }
    if let Some(end) = end_near(second, day) {
        return Some(end);
    }
    if let Some(end) = end_of_any(first, day) {
        return Some(end);
    }
    end_of_any(second, day)
}

// The end of the last period that starts by the day, if it holds the day and the periods are in the
// order of their starts. No other is looked at: if they are apart, no other holds the day.
fn end_near(periods: &[Period], day: Day) -> Option<Day>
    ensures { IfSome result (IsHeldUntil periods.now day) }
{
    let place = periods.partition_point(|other| other.start <= day);
    if place == 0 {
        return None;
    }
    let near = &periods[place - 1];
    if near.contains_day(day) {
        return Some(near.end);
    }
    None
}

// The end of one of the periods that hold the day, in whatever order they are.
fn end_of_any(periods: &[Period], day: Day) -> Option<Day>
    ensures { IsEndOfHolder periods.now day result }
{
    for other in periods {
        if other.contains_day(day) {
            return Some(other.end);
        }
    }
    None
}
