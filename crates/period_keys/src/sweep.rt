//! The least day on which two rows of a whole list, or of a table, share a key: the keys with the
//! rows' periods are sorted, and each is compared with the earlier period of its key that ends
//! latest. Of a table the rows of each key are looked at by themselves.

ghost use Rattle.std.specs.Prelude.{◌≡◌, ◌↔◌, ◌<◌, ◌≤ℤ◌, ◌⊎◌, [], ℕ, AllPairs, IfOk, IsTrue};
ghost use Rattle.std.specs.Prelude.{List, length, map};
ghost use Rattle.coalesce_core.specs.Coalesced.{NotAfter};
ghost use Rattle.history_model.specs.Versions.{row_of};
ghost use Rattle.period_keys.specs.Keys.{IsKeyClash, IsLeastOf, key_values};
ghost use Rattle.period_keys.specs.Repeats.{EndsByThen, EndsLater, IsReachedOn};
ghost use Rattle.period_keys.specs.Repeats.{Reaches, Repeats, key_row};

use crate::changes::keys_of;
use crate::current_rows::CurrentRows;
use crate::key::Key;
use crate::row_key::RowKey;
use crate::shared_days::earlier;
use period_core::{Day, Memory, PeriodRow, VersionRow};
use std::alloc::Global;

/// The least day on which two of the rows share their values at these positions.
pub fn rows_clash(
    alloc: Global,
    positions: &[usize],
    rows: &[PeriodRow],
) -> Result<Option<Day>, Memory>
    ensures { IfOk result (IsLeastOf (IsKeyClash positions.now rows.now)) }
{
    // (A row by itself clashes with none, so its key need not be known.)
    if rows.len() < 2 {
        return Ok(None);
    }
    let keys = keys_of(alloc, positions, rows)?;
    least_repeat(row_keys(alloc, keys.as_slice(), rows)?)
}

/// The least day on which two of a table's current rows share its key. No values are copied.
pub fn current_rows_clash(alloc: Global, current: &CurrentRows) -> Result<Option<Day>, Memory>
    ensures { IfOk result
        (IsLeastOf (IsKeyClash current.now.positions (map row_of current.now.rows))) }
{
    let mut found = None;
    for (_, group) in current.by_key() {
        found = earlier(found, day_of_two(alloc, group.as_slice())?);
    }
    Ok(found)
}

// The least day on which two of the versions hold. They count as of one key.
fn day_of_two(alloc: Global, versions: &[VersionRow]) -> Result<Option<Day>, Memory>
    ensures { IfOk result (IsLeastOf (IsKeyClash [] (map row_of versions.now))) }
{
    if versions.len() < 2 {
        return Ok(None);
    }
    let none = Key::from_vec(Vec::new(alloc));
    least_repeat(keys_of_one(alloc, &none, versions)?)
}

// The key of no values with the period of each version.
fn keys_of_one<'a>(
    alloc: Global,
    none: &'a Key,
    versions: &[VersionRow],
) -> Result<Vec<RowKey<'a>>, Memory>
    requires { none.now ≡ [] }
    ensures { IfOk result (λ keyed.
        keyed.items ≡ map (key_row []) (map row_of versions.now)) }
{
    let mut keyed = Vec::with_capacity(alloc, versions.len())?;
    for version in versions {
        keyed.push(RowKey::new(none, version.period))?;
    }
    Ok(keyed)
}

/// The least day on which two of the rows share their keys.
pub fn least_repeat(mut rows: Vec<RowKey>) -> Result<Option<Day>, Memory>
    ensures { IfOk result (IsLeastOf (Repeats rows.entry.items)) }
{
    rows.sort()?;
    Ok(first_repeat(rows.as_slice()))
}

/// The keys of the rows, with the rows' periods.
pub fn row_keys<'a>(
    alloc: Global,
    keys: &'a [Key],
    rows: &[PeriodRow],
) -> Result<Vec<RowKey<'a>>, Memory>
    requires { length keys.now ≡ length rows.now }
    ensures { IfOk result (λ keyed. (positions : List ℕ)
        → keys.now ≡ map (key_values positions) rows.now
        → keyed.items ≡ map (key_row positions) rows.now) }
{
    let mut keyed = Vec::with_capacity(alloc, rows.len())?;
    for i in 0..rows.len() {
        keyed.push(RowKey::new(&keys[i], rows[i].period))?;
    }
    Ok(keyed)
}

// The least day on which two entries hold the same values, of rows in order.
fn first_repeat(rows: &[RowKey]) -> Option<Day>
    requires { AllPairs NotAfter rows.now }
    ensures { IsLeastOf (Repeats rows.now) result }
{
    let mut found = None;
    let mut latest = 0;
    for next in 1..rows.len() {
        found = earlier(found, day_reached(&rows[latest], &rows[next]));
        latest = latest_with(rows, latest, next);
    }
    found
}

// The day on which the row begins, if the one that ends latest still holds then.
fn day_reached(latest: &RowKey, row: &RowKey) -> Option<Day>
    ensures { IsReachedOn latest.now row.now result }
{
    if reaches(latest, row) {
        Some(row.start())
    } else {
        None
    }
}

// Whether the row begins while one of the same values still holds.
fn reaches(latest: &RowKey, row: &RowKey) -> bool
    ensures { IsTrue result ↔ Reaches latest.now row.now }
{
    latest.has_key_of(row) && row.start() < latest.end()
}

// The place of the row that ends latest among those with the next row's values, up to that row.
fn latest_with(rows: &[RowKey], latest: usize, next: usize) -> usize
    requires latest { latest < length rows.now }
    requires next { next < length rows.now }
    ensures { ((result ≡ latest) × EndsLater rows.now next latest)
        ⊎ ((result ≡ next) × EndsByThen rows.now latest next) }
{
    if outlasts(&rows[latest], &rows[next]) {
        latest
    } else {
        next
    }
}

// Whether a row of the same values ends no earlier than this one.
fn outlasts(latest: &RowKey, row: &RowKey) -> bool
    ensures { IsTrue result ↔ ((row.now.values ≡ latest.now.values)
        × (row.now.period.end ≤ℤ latest.now.period.end)) }
{
    row.has_key_of(latest) && row.end() <= latest.end()
}
