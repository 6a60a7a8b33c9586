//! The least day on which a child has no parent: after a change, judged by the rows that the change
//! touches, or of two tables.

ghost use Rattle.std.specs.Prelude.{◌++◌, ℕ, IfOk, IsPermutation, List, map};
ghost use Rattle.period_core.specs.declared.period.Period.{Period as PeriodModel};
ghost use Rattle.period_core.specs.declared.row.PeriodRow.{PeriodRow as Row};
ghost use Rattle.history_model.specs.Versions.{row_of};
ghost use Rattle.period_keys.specs.Keys.{IsEachCovered, IsLeastOf, IsUncovered};
ghost use Rattle.period_keys.specs.Index.{AreAtKeys, IsIndexOf};
ghost use Rattle.period_keys.specs.Gaps.{LacksKeyOf};
ghost use Rattle.period_keys.specs.LookUps.{periods_by, periods_of};

use crate::clashes::index_of;
use crate::current_rows::CurrentRows;
use crate::gaps::{first_gap, first_gap_of_some};
use crate::keyed_periods::KeyedPeriods;
use crate::keys::key_of;
use crate::ordered_periods::OrderedPeriods;
use crate::periods_by_key::PeriodsByKey;
use crate::periods_of_key::PeriodsOfKey;
use crate::shared_days::earlier;
use period_core::{Day, Memory, Period, PeriodRow};
use std::alloc::Global;

// Up to this many children are judged one by one, more by their keys.
const FEW: usize = 8;

/// The least day on which a child has no parent after the children are added, by the periods of the
/// parents. Children that went make no difference.
pub fn uncovered_by_children(
    alloc: Global,
    own: &[usize],
    added: &[PeriodRow],
    parents: &PeriodsByKey,
) -> Result<Option<Day>, Memory>
    ensures by_touched { IfOk result
        (λ found. IsLeastOf (LacksKeyOf own.now added.now (periods_by parents.now)) found) }

    // A look at all children would find this day, if each had a parent before.
    ensures of_whole { IfOk result (λ found. (keys : List ℕ) (above before ended stay : List Row)
        → AreAtKeys keys above (periods_by parents.now)
        → IsEachCovered own.now before keys above
        → IsPermutation before (ended ++ stay)
        → IsLeastOf (IsUncovered own.now (stay ++ added.now) keys above) found) }
{
    let found = least_lack(alloc, own, added, parents)?;
    Ok(found)
}

// The least day on which one of the children has no parent.
fn least_lack(
    alloc: Global,
    own: &[usize],
    children: &[PeriodRow],
    parents: &PeriodsByKey,
) -> Result<Option<Day>, Memory>
    ensures { IfOk result
        (λ found. IsLeastOf (LacksKeyOf own.now children.now (periods_by parents.now)) found) }
{
    if children.len() <= FEW {
        return least_lack_one_by_one(alloc, own, children, parents);
    }
    least_lack_key_by_key(alloc, own, children, parents)
}

// The least day on which a child has no parent, each child judged by itself.
fn least_lack_one_by_one(
    alloc: Global,
    own: &[usize],
    children: &[PeriodRow],
    parents: &PeriodsByKey,
) -> Result<Option<Day>, Memory>
    ensures { IfOk result
        (λ found. IsLeastOf (LacksKeyOf own.now children.now (periods_by parents.now)) found) }
{
    let mut found = None;
    for child in children {
        let key = key_of(alloc, own, child)?;
        found = earlier(found, first_gap(&parents.of_key(&key), &child.period));
    }
    Ok(found)
}

// The least day on which a child has no parent; the children of one key are judged together.
fn least_lack_key_by_key(
    alloc: Global,
    own: &[usize],
    children: &[PeriodRow],
    parents: &PeriodsByKey,
) -> Result<Option<Day>, Memory>
    ensures { IfOk result
        (λ found. IsLeastOf (LacksKeyOf own.now children.now (periods_by parents.now)) found) }
{
    let by_key = index_of(alloc, own, children)?;
    let found = least_lack_of_keys(alloc, &by_key, parents)?;
    Ok(found)
}

// The least day on which a child has no parent, by an index of the children.
fn least_lack_of_keys(
    alloc: Global,
    children: &KeyedPeriods,
    parents: &PeriodsByKey,
) -> Result<Option<Day>, Memory>
    ensures { IfOk result (λ found. (own : List ℕ) (rows : List Row)
        → IsIndexOf own rows children.now
        → IsLeastOf (LacksKeyOf own rows (periods_by parents.now)) found) }
{
    let keys = children.keys(alloc)?;
    let mut found = None;
    for key in keys.as_slice() {
        found = earlier(
            found,
            first_gap_of_some(&parents.of_key(key), children.of_key(key)),
        );
    }
    Ok(found)
}

/// The least day on which a child has no parent, by the periods of both tables by the columns of
/// the reference.
pub fn uncovered_by_periods(
    alloc: Global,
    children: &PeriodsByKey,
    parents: &PeriodsByKey,
) -> Result<Option<Day>, Memory>
    ensures { IfOk result (λ found. (own : List ℕ) (rows : List Row)
        → AreAtKeys own rows (periods_by children.now)
        → IsLeastOf (LacksKeyOf own rows (periods_by parents.now)) found) }
{
    match children {
        PeriodsByKey::Index(index) => least_lack_of_keys(alloc, *index, parents),
        PeriodsByKey::OfRows(current) => {
            let found = least_lack_of_rows(alloc, *current, parents)?;
            Ok(found)
        }
    }
}

// The least day on which a child has no parent, by the rows of the children, whose key names it.
fn least_lack_of_rows(
    alloc: Global,
    children: &CurrentRows,
    parents: &PeriodsByKey,
) -> Result<Option<Day>, Memory>
    ensures { IfOk result (IsLeastOf (LacksKeyOf children.now.positions
        (map row_of children.now.rows) (periods_by parents.now))) }
{
    let mut found = None;
    for (key, group) in children.by_key() {
        let periods = PeriodsOfKey::OfGroup(group).collect(alloc)?;
        let gap = first_gap_of_some(&parents.of_key(key), periods.as_slice());
        found = earlier(found, gap);
    }
    Ok(found)
}

/// The least day on which one of the children has no parent.
pub fn rows_uncovered(
    alloc: Global,
    own: &[usize],
    children: &[PeriodRow],
    keys: &[usize],
    parents: &[PeriodRow],
) -> Result<Option<Day>, Memory>
    ensures { IfOk result (IsLeastOf (IsUncovered own.now children.now keys.now parents.now)) }
{
    let index = index_of(alloc, keys, parents)?;
    let found = uncovered_by_children(alloc, own, children, &PeriodsByKey::Index(&index))?;
    Ok(found)
}

/// The least day on which a child has no parent after the ended parents are removed and new ones
/// added, for children that each had one before, and the periods of both tables by the columns of
/// the reference.
pub fn uncovered_by_parents(
    alloc: Global,
    keys: &[usize],
    parents: &PeriodsByKey,
    ended: &[PeriodRow],
    added: &[PeriodRow],
    children: &PeriodsByKey,
) -> Result<Option<Day>, Memory>
    ensures { IfOk result (λ found. (own : List ℕ) (below before stay : List Row)
        → AreAtKeys own below (periods_by children.now)
        → AreAtKeys keys.now before (periods_by parents.now)
        → IsEachCovered own below keys.now before
        → IsPermutation before (ended.now ++ stay)
        → IsLeastOf (IsUncovered own below keys.now (stay ++ added.now)) found) }
{
    let gone = index_of(alloc, keys, ended)?;
    let new = index_of(alloc, keys, added)?;
    let found = uncovered_by_keys(alloc, parents, &gone, &new, children)?;
    Ok(found)
}

// The least day, by indexes of the ended parents and of the added ones. Each key of an ended one is
// judged once.
fn uncovered_by_keys(
    alloc: Global,
    parents: &PeriodsByKey,
    gone: &KeyedPeriods,
    new: &KeyedPeriods,
    children: &PeriodsByKey,
) -> Result<Option<Day>, Memory>
    ensures { IfOk result (λ found. (own keys : List ℕ) (below before ended stay added : List Row)
        → AreAtKeys own below (periods_by children.now)
        → AreAtKeys keys before (periods_by parents.now)
        → IsIndexOf keys ended gone.now
        → IsIndexOf keys added new.now
        → IsEachCovered own below keys before
        → IsPermutation before (ended ++ stay)
        → IsLeastOf (IsUncovered own below keys (stay ++ added)) found) }
{
    let ended_keys = gone.keys(alloc)?;
    let mut found = None;
    for key in ended_keys.as_slice() {
        let there = there_after(
            alloc,
            &parents.of_key(key),
            gone.of_key(key),
            new.of_key(key),
        )?;
        let below = children.of_key(key).collect(alloc)?;
        let (first, second) = there.runs();
        let periods = PeriodsOfKey::InRuns(first, second);
        found = earlier(found, first_gap_of_some(&periods, below.as_slice()));
    }
    Ok(found)
}

// A key's periods without those that go, and with those that come. Equal periods are as many.
fn there_after(
    alloc: Global,
    periods: &PeriodsOfKey,
    gone: &[Period],
    new: &[Period],
) -> Result<OrderedPeriods, Memory>
    ensures { IfOk result (λ there. (stay : List PeriodModel)
        → IsPermutation (periods_of periods.now) (gone.now ++ stay)
        → IsPermutation there.items.items (stay ++ new.now)) }
{
    let mut there = OrderedPeriods::sorted(periods.collect(alloc)?)?;
    for going in gone {
        let _taken = there.take_one(going);
    }
    for coming in new {
        there.add(*coming)?;
    }
    Ok(there)
}
