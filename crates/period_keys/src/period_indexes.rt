//! Several indexes of one table's rows, each by its own positions, which follow a change together.

ghost use Rattle.std.specs.Prelude.{◌≡◌, ◌≤◌, ◌++◌, IfOk, List, OnErr, OnOk, length, map};
ghost use Rattle.period_core.specs.declared.row.PeriodRow.{PeriodRow as Row};
ghost use Rattle.period_keys.specs.Keys.{key_values};
ghost use Rattle.period_keys.specs.PeriodIndexes.{AreKeysByEach, EachIndexes, Indexes};
ghost use Rattle.period_keys.specs.PeriodIndexes.{PartlyIndex, positions_by};

use crate::changes::{add_rows, keys_of, take_rows};
use crate::key::Key;
use crate::keyed_periods::KeyedPeriods;
use period_core::{Items, Memory, PeriodRow};
use std::alloc::Global;

/// The periods of a table's rows by their values at some positions.
#[derive(Drop)]
pub struct PeriodIndex {
    pub positions: Items<usize>,
    pub periods: KeyedPeriods,
}

impl PeriodIndex {
    // Adds rows, whose keys these are, or none of them.
    fn add_all(&mut self, alloc: Global, keys: &[Key], rows: &[PeriodRow]) -> Result<(), Memory>
        requires { keys.now ≡ map (key_values self.old.positions) rows.now }
        ensures same { self.new.positions ≡ self.old.positions }
        ensures ok { OnOk result ((before : List Row)
            → Indexes before self.old → Indexes (before ++ rows.now) self.new) }
        ensures err { OnErr result ((before : List Row)
            → Indexes before self.old → Indexes before self.new) }
    {
        add_rows(alloc, &mut self.periods, keys, rows)
    }

    // Removes rows, whose keys these are.
    fn take_all(&mut self, keys: &[Key], rows: &[PeriodRow])
        requires { keys.now ≡ map (key_values self.old.positions) rows.now }
        ensures same { self.new.positions ≡ self.old.positions }
        ensures rows { (rest : List Row)
            → Indexes (rows.now ++ rest) self.old → Indexes rest self.new }
    {
        take_rows(&mut self.periods, keys, rows);
    }
}

/// The rows' keys by each of the indexes.
pub fn keys_by_each(
    alloc: Global,
    indexes: &[PeriodIndex],
    rows: &[PeriodRow],
) -> Result<Vec<Items<Key>>, Memory>
    ensures { IfOk result
        (λ keys. AreKeysByEach rows.now (map positions_by indexes.now) keys.items) }
{
    let mut keys = Vec::new(alloc);
    for index in indexes {
        let own = keys_of(alloc, index.positions.as_slice(), rows)?;
        keys.push(Items::from_vec(own))?;
    }
    Ok(keys)
}

/// Adds rows, whose keys these are, to each of the indexes, or to none of them.
pub fn add_to_each(
    alloc: Global,
    indexes: &mut [PeriodIndex],
    keys: &[Items<Key>],
    rows: &[PeriodRow],
) -> Result<(), Memory>
    requires { AreKeysByEach rows.now (map positions_by indexes.old) keys.now }
    ensures same { map positions_by indexes.new ≡ map positions_by indexes.old }
    ensures ok { OnOk result ((before : List Row)
        → EachIndexes before indexes.old → EachIndexes (before ++ rows.now) indexes.new) }
    ensures err { OnErr result ((before : List Row)
        → EachIndexes before indexes.old → EachIndexes before indexes.new) }
{
    for i in 0..indexes.len() {
        if let Err(refused) = indexes[i].add_all(alloc, keys[i].as_slice(), rows) {
            take_from_first(indexes, keys, rows, i);
            return Err(refused);
        }
    }
    Ok(())
}

/// Removes rows that exist, whose keys these are, from each of the indexes. It takes
/// no memory.
pub fn take_from_each(indexes: &mut [PeriodIndex], keys: &[Items<Key>], rows: &[PeriodRow])
    requires { AreKeysByEach rows.now (map positions_by indexes.old) keys.now }
    ensures same { map positions_by indexes.new ≡ map positions_by indexes.old }
    ensures rows { (rest : List Row)
        → EachIndexes (rows.now ++ rest) indexes.old → EachIndexes rest indexes.new }
{
    let count = indexes.len();
    take_from_first(indexes, keys, rows, count);
}

// Removes rows, whose keys these are, from the first indexes.
fn take_from_first(
    indexes: &mut [PeriodIndex],
    keys: &[Items<Key>],
    rows: &[PeriodRow],
    count: usize,
)
    requires keys { AreKeysByEach rows.now (map positions_by indexes.old) keys.now }
    requires count { count ≤ length indexes.old }
    ensures same { map positions_by indexes.new ≡ map positions_by indexes.old }
    ensures rows { (rest : List Row)
        → PartlyIndex (rows.now ++ rest) rest indexes.old count
        → EachIndexes rest indexes.new }
{
    let mut left = count;
    while left > 0 {
        left -= 1;
        indexes[left].take_all(keys[left].as_slice(), rows);
    }
}
