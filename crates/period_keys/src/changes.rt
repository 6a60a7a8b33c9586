//! An index follows a change of its rows.

ghost use Rattle.std.specs.Prelude.{◌≡◌, ◌≤◌, ◌++◌, ℕ, IfOk, List, OnErr, OnOk};
ghost use Rattle.std.specs.Prelude.{length, map, take};
ghost use Rattle.period_core.specs.declared.row.PeriodRow.{PeriodRow as Row};
ghost use Rattle.period_keys.specs.Keys.{key_values};
ghost use Rattle.period_keys.specs.Index.{IsIndexOf};

use crate::key::Key;
use crate::keyed_periods::KeyedPeriods;
use crate::keys::key_of;
use period_core::{Memory, PeriodRow};
use std::alloc::Global;

/// The keys of the rows, row by row.
pub fn keys_of(alloc: Global, positions: &[usize], rows: &[PeriodRow]) -> Result<Vec<Key>, Memory>
    ensures { IfOk result (λ keys. keys.items ≡ map (key_values positions.now) rows.now) }
{
    let mut keys = Vec::with_capacity(alloc, rows.len())?;
    for row in rows {
        keys.push(key_of(alloc, positions, row)?)?;
    }
    Ok(keys)
}

/// Adds the rows, whose keys these are, or none of them.
pub fn add_rows(
    alloc: Global,
    index: &mut KeyedPeriods,
    keys: &[Key],
    rows: &[PeriodRow],
) -> Result<(), Memory>
    requires { length keys.now ≡ length rows.now }
    ensures ok { OnOk result ((positions : List ℕ) (before : List Row)
        → keys.now ≡ map (key_values positions) rows.now
        → IsIndexOf positions before index.old
        → IsIndexOf positions (before ++ rows.now) index.new) }
    ensures err { OnErr result ((positions : List ℕ) (before : List Row)
        → keys.now ≡ map (key_values positions) rows.now
        → IsIndexOf positions before index.old → IsIndexOf positions before index.new) }
{
    for i in 0..rows.len() {
        if let Err(refused) = index.add(alloc, &keys[i], rows[i].period) {
            take_first(index, keys, rows, i);
            return Err(refused);
        }
    }
    Ok(())
}

/// Removes the rows, whose keys these are. It takes no memory: so if several indexes
/// follow one change, the rows that were added to some can be taken out again once another was
/// refused.
pub fn take_rows(index: &mut KeyedPeriods, keys: &[Key], rows: &[PeriodRow])
    requires { length keys.now ≡ length rows.now }
    ensures { (positions : List ℕ) (rest : List Row)
        → keys.now ≡ map (key_values positions) rows.now
        → IsIndexOf positions (rows.now ++ rest) index.old
        → IsIndexOf positions rest index.new }
{
    take_first(index, keys, rows, rows.len());
}

// Removes the first rows, whose keys these are.
fn take_first(index: &mut KeyedPeriods, keys: &[Key], rows: &[PeriodRow], count: usize)
    requires keys { length keys.now ≡ length rows.now }
    requires count { count ≤ length rows.now }
    ensures { (positions : List ℕ) (rest : List Row)
        → keys.now ≡ map (key_values positions) rows.now
        → IsIndexOf positions (take count rows.now ++ rest) index.old
        → IsIndexOf positions rest index.new }
{
    for i in 0..count {
        index.take_out(&keys[i], &rows[i].period);
    }
}
