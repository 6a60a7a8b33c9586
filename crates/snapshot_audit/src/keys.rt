//! The rows of one side of a join by the values that both sides share.

ghost use Rattle.std.specs.Prelude.{◌≡◌, ◌≤◌, List, Contains, IfOk, MatchOption, length, true};
ghost use Rattle.std.specs.Prelude.{false};
ghost use Rattle.std.specs.List.Sorted.{IsPartitionPoint};
ghost use Rattle.period_core.specs.declared.value.Value.{Value as ColumnValue};
ghost use Rattle.snapshot_audit.specs.Keys.{AreByKey, AreInOrder, BeginsWithin, Reads};
ghost use Rattle.snapshot_audit.specs.Staggered.{comes_before};
ghost use Rattle.snapshot_audit.specs.declared.keys.KeyedEntry.{KeyedEntry as Keyed};

use period_core::{Day, Memory, Period, PeriodRow, Value, Values};
use std::alloc::Global;
use std::cmp::Ordering;

/// A row with the values by which it is joined. Rows are in the order of these values, and rows
/// of the same values in the order of their periods.
#[derive(Drop, PartialEq, Eq, PartialOrd, Ord)]
pub(crate) struct KeyedEntry<'a> {
    /// The values by which it is joined.
    pub(crate) key: Values,
    /// The days on which it holds.
    pub(crate) period: Period,
    /// The row.
    pub(crate) row: &'a PeriodRow,
}

// The values at these positions: `None` if there is none at one of them.
fn read(alloc: Global, columns: &[usize], values: &[Value]) -> Result<Option<Values>, Memory>
    ensures { IfOk result (λ found. MatchOption found
        ((key : List ColumnValue) → Reads columns.now values.now key → ⊥)
        (Reads columns.now values.now)) }
{
    let mut key = Vec::with_capacity(alloc, columns.len())?;
    for column in columns {
        let Some(value) = values.get(*column) else {
            return Ok(None);
        };
        key.push(value.copy(alloc)?)?;
    }
    Ok(Some(Values::from_vec(key)))
}

/// The rows that have values at the positions, in the order of the values and of their periods.
pub(crate) fn by_key<'a>(
    alloc: Global,
    columns: &[usize],
    rows: &'a [PeriodRow],
) -> Result<Vec<KeyedEntry<'a>>, Memory>
    ensures { IfOk result (λ entries. AreByKey columns.now rows.now entries.items) }
{
    let mut entries = Vec::with_capacity(alloc, rows.len())?;
    for row in rows {
        if let Some(key) = read(alloc, columns, row.values.as_slice())? {
            entries.push(KeyedEntry {
                key,
                period: row.period,
                row,
            })?;
        }
    }
    entries.sort()?;
    Ok(entries)
}

// Whether the entry precedes all with this key that begin on the day or later.
fn begins_before(entry: &KeyedEntry, key: &Values, day: Day) -> bool
    ensures { result ≡ comes_before entry.now.key entry.now.period.start key.now day }
{
    match entry.key.cmp(key) {
        Ordering::Less => true,
        Ordering::Equal => entry.period.start < day,
        Ordering::Greater => false,
    }
}

// The number of entries before all with this key that begin on the day or later.
fn count_before(entries: &[KeyedEntry], key: &Values, day: Day) -> usize
    requires { AreInOrder entries.now }
    ensures inside { result ≤ length entries.now }
    ensures before { IsPartitionPoint
        (λ entry. comes_before entry.key entry.period.start key.now day ≡ true)
        (λ entry. comes_before entry.key entry.period.start key.now day ≡ false)
        entries.now result }
{
    entries.partition_point(|entry| begins_before(entry, key, day))
}

/// The entries of this entry's key that begin on one of its days.
pub(crate) fn beginning_within<'e, 'a>(
    entries: &'e [KeyedEntry<'a>],
    entry: &KeyedEntry,
) -> &'e [KeyedEntry<'a>]
    requires { AreInOrder entries.now }
    ensures inside { (other : Keyed) → Contains result.now other
        → Contains entries.now other }
    ensures all { (other : Keyed) → Contains entries.now other → BeginsWithin entry.now other
        → Contains result.now other }
{
    let first = count_before(entries, &entry.key, entry.period.start);
    let end = count_before(entries, &entry.key, entry.period.end);
    if end < first {
        return &[];
    }
    &entries[first..end]
}
