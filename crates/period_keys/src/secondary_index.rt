//! A secondary index: the keys of a table's rows by their values at other positions.

ghost use Rattle.std.specs.Prelude.{◌≡◌, ◌↔◌, ◌≤◌, ◌++◌, ℕ, ℤ, Contains, IfOk, IfSome, IsSome};
ghost use Rattle.std.specs.Prelude.{List, OnOk, length, map};
ghost use Rattle.std.specs.List.Sorted.{IsStrictlySortedBy};
ghost use Rattle.period_core.specs.Order.{values_cmp};
ghost use Rattle.period_core.specs.declared.version.VersionRow.{VersionRow as Version};
ghost use Rattle.period_keys.specs.Keys.{values_at};
ghost use Rattle.period_keys.specs.Secondary.{HasEntries, HasMoreEntries, HaveEntries};
ghost use Rattle.period_keys.specs.Secondary.{entries_of, keys_within};
ghost use Rattle.period_keys.specs.Versions.{begun};

use crate::current_rows::CurrentRows;
use crate::key::Key;
use crate::key_range::KeyRange;
use crate::keys::values_of;
use period_core::{Items, Memory, PeriodRow, Value, VersionRow};
use std::alloc::Global;
use std::collections::BTreeMap;
use std::ops::Bound;

// A row, with system time or without it.
trait Valued {
    ghost use Rattle.std.specs.Prelude.{List};
    ghost use Rattle.period_core.specs.declared.value.Value.{Value as ColumnValue};

    ghost values: { Self → List ColumnValue };

    // The values of the row.
    fn values(&self) -> &[Value]
        ensures { result.now ≡ values self.now };
}

impl Valued for PeriodRow {
    ghost values = { λ row. row.values };

    fn values(&self) -> &[Value] {
        self.values.as_slice()
    }
}

impl Valued for VersionRow {
    ghost values = { λ version. version.values };

    fn values(&self) -> &[Value] {
        self.values.as_slice()
    }
}

/// The keys of a table's current rows by their values at some positions. An entry is a row's values
/// there, followed by those of its key. It stays when no row has it any more, so that a removal
/// takes nothing out: such an entry costs a look-up of a key without rows. There are at most as
/// many entries as the table has had versions, which are all in memory, but for those of rows that
/// were added and taken back.
#[derive(Drop)]
pub struct SecondaryIndex {
    pub positions: Items<usize>,
    entry_positions: Items<usize>,
    entries: BTreeMap<Key, ()>,
}

impl SecondaryIndex {
    /// An index of a table's current rows by their values at these positions.
    pub fn of(
        alloc: Global,
        positions: &[usize],
        current: &CurrentRows,
    ) -> Result<SecondaryIndex, Memory>
        ensures positions { IfOk result (λ index. index.positions ≡ positions.now) }
        ensures entries { IfOk result (HasEntries current.now.positions current.now.rows) }
    {
        let mut entry = Vec::new(alloc);
        entry.extend_from_slice(positions)?;
        entry.extend_from_slice(current.positions())?;
        let mut own = Vec::new(alloc);
        own.extend_from_slice(positions)?;
        let mut index = SecondaryIndex {
            positions: Items::from_vec(own),
            entry_positions: Items::from_vec(entry),
            entries: BTreeMap::new(alloc),
        };
        for group in current.groups() {
            index.add_each(alloc, group.as_slice())?;
        }
        Ok(index)
    }

    // Adds the entry of a row with these values.
    fn add(&mut self, alloc: Global, values: &[Value]) -> Result<(), Memory>
        ensures more { HasMoreEntries self.old self.new }
        ensures added { OnOk result
            (Contains (entries_of self.new) (values_at self.old.entry_positions values.now)) }
    {
        let entry = values_of(alloc, self.entry_positions.as_slice(), values)?;
        self.entries.insert(entry, ())?;
        Ok(())
    }

    // Adds the entries of rows.
    fn add_each<R: Valued>(&mut self, alloc: Global, rows: &[R]) -> Result<(), Memory>
        ensures more { HasMoreEntries self.old self.new }
        ensures added { OnOk result ((row : R) → Contains rows.now row
            → Contains (entries_of self.new)
            (values_at self.old.entry_positions (R.values row))) }
    {
        for row in rows {
            self.add(alloc, row.values())?;
        }
        Ok(())
    }

    /// The keys of the entries in the range. They ascend if it fixes all values before them.
    pub fn keys_within(&self, alloc: Global, range: &KeyRange) -> Result<Vec<Key>, Memory>
        ensures keys { IfOk result (λ keys. keys.items ≡ keys_within self.now range.now) }
        ensures ascending { length self.now.positions ≤ length range.now.leading.items
            → IfOk result (λ keys. IsStrictlySortedBy values_cmp keys.items) }
    {
        let count = self.positions.as_slice().len();
        let first = range.first(alloc)?;
        let mut keys = Vec::new(alloc);
        for (entry, _) in self
            .entries
            .range((Bound::Included(&first), Bound::Unbounded))
        {
            if range.has(entry) {
                keys.push(entry.after(alloc, count)?)?;
            } else if !range.passes_over(entry) {
                return Ok(keys);
            }
        }
        Ok(keys)
    }
}

/// The index by these positions, if there is one.
pub fn find_index<'a>(
    indexes: &'a [SecondaryIndex],
    positions: &[usize],
) -> Option<&'a SecondaryIndex>
    ensures found { IfSome result (λ index.
        Contains indexes.now index.now × (index.now.positions ≡ positions.now)) }
    ensures there { IsSome result
        ↔ Contains (map (λ index. index.positions) indexes.now) positions.now }
{
    for index in indexes {
        if index.positions.as_slice() == positions {
            return Some(index);
        }
    }
    None
}

/// Adds the index of a table's current rows by these positions, if there is none.
pub fn add_index(
    alloc: Global,
    indexes: &mut Vec<SecondaryIndex>,
    positions: &[usize],
    current: &CurrentRows,
) -> Result<(), Memory>
    ensures there { OnOk result
        (Contains (map (λ index. index.positions) indexes.new.items) positions.now) }
    ensures kept { HaveEntries current.now.positions current.now.rows indexes.old.items
        → HaveEntries current.now.positions current.now.rows indexes.new.items }
{
    if find_index(indexes.as_slice(), positions).is_some() {
        return Ok(());
    }
    indexes.push(SecondaryIndex::of(alloc, positions, current)?)?;
    Ok(())
}

/// Adds the entries of rows that begin to each of the indexes.
pub fn add_entries_to_each(
    alloc: Global,
    indexes: &mut [SecondaryIndex],
    rows: &[PeriodRow],
) -> Result<(), Memory>
    ensures size { length indexes.new ≡ length indexes.old }
    ensures kept { (key : List ℕ) (before : List Version)
        → HaveEntries key before indexes.old → HaveEntries key before indexes.new }
    ensures ok { OnOk result ((key : List ℕ) (before : List Version) (moment : ℤ)
        → HaveEntries key before indexes.old
        → HaveEntries key (map (begun moment) rows.now ++ before) indexes.new) }
{
    for i in 0..indexes.len() {
        indexes[i].add_each(alloc, rows)?;
    }
    Ok(())
}
