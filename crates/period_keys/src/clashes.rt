//! The least day on which two rows share a key after a change, judged by the rows of the keys that
//! it adds.

ghost use Rattle.std.specs.Prelude.{◌≡◌, ◌++◌, IfOk, IsPermutation, List, OnOk, map};
ghost use Rattle.period_core.specs.declared.row.PeriodRow.{PeriodRow as Row};
ghost use Rattle.period_core.specs.declared.version.VersionRow.{VersionRow as Version};
ghost use Rattle.history_model.specs.Versions.{row_of};
ghost use Rattle.period_keys.specs.Keys.{HasNoClash, IsKeyClash, IsLeastOf, key_values};
ghost use Rattle.period_keys.specs.Index.{IsIndexOf};

use crate::current_rows::CurrentRows;
use crate::key::Key;
use crate::keyed_periods::KeyedPeriods;
use crate::keys::{key_of, values_of};
use crate::shared_days::earlier;
use crate::sweep::{least_repeat, row_keys};
use period_core::{Day, Memory, PeriodRow, VersionRow};
use std::alloc::Global;

/// An index of the rows by their values at these positions.
pub fn index_of(
    alloc: Global,
    positions: &[usize],
    rows: &[PeriodRow],
) -> Result<KeyedPeriods, Memory>
    ensures { IfOk result (IsIndexOf positions.now rows.now) }
{
    let mut index = KeyedPeriods::new(alloc);
    for row in rows {
        let key = key_of(alloc, positions, row)?;
        index.add(alloc, &key, row.period)?;
    }
    Ok(index)
}

/// An index of versions by their values at these positions.
pub fn index_of_versions(
    alloc: Global,
    positions: &[usize],
    versions: &[VersionRow],
) -> Result<KeyedPeriods, Memory>
    ensures { IfOk result (IsIndexOf positions.now (map row_of versions.now)) }
{
    let mut index = KeyedPeriods::new(alloc);
    add_versions(alloc, positions, &mut index, versions)?;
    Ok(index)
}

/// Adds versions to an index by these positions.
fn add_versions(
    alloc: Global,
    positions: &[usize],
    index: &mut KeyedPeriods,
    versions: &[VersionRow],
) -> Result<(), Memory>
    ensures { OnOk result ((before : List Row)
        → IsIndexOf positions.now before index.old
        → IsIndexOf positions.now (before ++ map row_of versions.now) index.new) }
{
    for version in versions {
        let key = values_of(alloc, positions, version.values.as_slice())?;
        index.add(alloc, &key, version.period)?;
    }
    Ok(())
}

/// An index of a table's current rows by these positions.
pub fn index_of_current(
    alloc: Global,
    positions: &[usize],
    current: &CurrentRows,
) -> Result<KeyedPeriods, Memory>
    ensures { IfOk result (IsIndexOf positions.now (map row_of current.now.rows)) }
{
    let mut index = KeyedPeriods::new(alloc);
    for group in current.groups() {
        add_versions(alloc, positions, &mut index, group.as_slice())?;
    }
    Ok(index)
}

/// The least day on which two rows of a table share its key once the ended rows are gone and the
/// added ones, which have these keys, are in it: the day that a look at all rows finds, if no two
/// shared it before. The ended ones are among the current rows.
pub fn key_clash_after(
    alloc: Global,
    current: &CurrentRows,
    ended: &[VersionRow],
    keys: &[Key],
    added: &[PeriodRow],
) -> Result<Option<Day>, Memory>
    requires { keys.now ≡ map (key_values current.now.positions) added.now }
    ensures { IfOk result (λ found. (stay : List Version)
        → HasNoClash current.now.positions (map row_of current.now.rows)
        → IsPermutation current.now.rows (ended.now ++ stay)
        → IsLeastOf (IsKeyClash current.now.positions (map row_of stay ++ added.now)) found) }
{
    let gone = index_of_versions(alloc, current.positions(), ended)?;
    let mut with_kept = None;
    for i in 0..added.len() {
        let kept = current.first_shared(&gone, &keys[i], &added[i].period);
        with_kept = earlier(with_kept, kept);
    }
    let among = least_repeat(row_keys(alloc, keys, added)?)?;
    Ok(earlier(with_kept, among))
}
