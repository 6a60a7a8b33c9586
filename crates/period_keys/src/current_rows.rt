//! The current version rows of one table, by key.

ghost use Rattle.std.specs.Prelude.{◌≡◌, ◌≤◌, ◌++◌, ◌∷◌, [], IfOk, IsPermutation, List, OnErr};
ghost use Rattle.std.specs.Prelude.{MatchOption, OnOk, filter, length, map, take};
ghost use Rattle.std.specs.List.Sorted.{IsStrictlySortedBy};
ghost use Rattle.period_core.specs.Order.{values_cmp};
ghost use Rattle.period_core.specs.declared.version.VersionRow.{VersionRow as Version};
ghost use Rattle.period_keys.specs.Keys.{key_values, values_at};
ghost use Rattle.period_keys.specs.Index.{SharesDayOfKept, periods_at};
ghost use Rattle.period_keys.specs.Keys.{IsLeastOf};
ghost use Rattle.period_keys.specs.Rows.{AreGrouped, AreGroupsOf, HasRows, rows_of_groups};
ghost use Rattle.period_keys.specs.Rows.{rows_of_key, rows_of_lists, rows_within};
ghost use Rattle.period_keys.specs.Secondary.{is_of_some_key};
ghost use Rattle.period_keys.specs.Versions.{begun, period_of, recorded};
ghost use Rattle.period_keys.specs.Versions.{version_key};

use crate::groups::{Groups, add_to, group_at, group_within, groups_in, take_from};
use crate::key::Key;
use crate::key_range::KeyRange;
use crate::key_rows::KeyRows;
use crate::keyed_periods::KeyedPeriods;
use crate::keys::values_of;
use period_core::{Day, Items, Memory, Moment, Period, PeriodRow, Values, VersionRow};
use std::alloc::Global;
use std::collections::{BTreeMap, btree_map};
use std::marker::Model;
use std::mem;

/// The current version rows of one table, by the values of its key's columns. Contracts see the
/// positions of the key's columns among a row's values, and all rows, in some order.
#[derive(Drop)]
pub struct CurrentRows {
    positions: Items<usize>,
    groups: Groups,
}

impl Model for CurrentRows {
    ghost use Rattle.period_keys.specs.Rows.{AreGrouped, RowsByKey, rows_of_groups};

    ghost Value = { RowsByKey };

    ghost view = { λ c.
        record { positions = c.positions; rows = rows_of_groups c.groups.entries } };

    ghost invariant = { λ c. AreGrouped c.positions c.groups };
}

impl CurrentRows {
    /// No rows, of a key at these positions among a row's values.
    pub fn new(alloc: Global, positions: Items<usize>) -> CurrentRows
        ensures positions { result.positions ≡ positions }
        ensures rows { result.rows ≡ [] }
    {
        CurrentRows {
            positions,
            groups: BTreeMap::new(alloc),
        }
    }

    /// The positions of the key's columns among a row's values.
    pub fn positions(&self) -> &[usize]
        ensures { result.now ≡ self.now.positions }
    {
        self.positions.as_slice()
    }

    /// The rows of a key with their periods, if there are any.
    pub(crate) fn group_of_key(&self, key: &Key) -> Option<&KeyRows>
        ensures { MatchOption result (rows_of_key self.now key.now ≡ [])
            (λ group. group.now.rows.items ≡ rows_of_key self.now key.now) }
    {
        match group_at(&self.groups, key) {
            Some(group) => Some(group),
            None => None,
        }
    }

    /// The first day that the period shares with the period of a row of a key which is not
    /// among the removed periods of that key.
    pub(crate) fn first_shared(
        &self,
        gone: &KeyedPeriods,
        key: &Key,
        period: &Period,
    ) -> Option<Day>
        ensures { IsLeastOf (SharesDayOfKept (map period_of (rows_of_key self.now key.now))
            (periods_at gone.now key.now) period.now) result }
    {
        match self.group_of_key(key) {
            Some(group) => group.first_shared(gone, key, period),
            None => None,
        }
    }

    /// The rows of each key, one key after another.
    pub fn groups(&self) -> btree_map::Values<'_, Key, KeyRows>
        ensures { rows_of_lists result ≡ self.now.rows }
    {
        self.groups.values()
    }

    /// The rows of each key with the key, in the order of the keys.
    pub(crate) fn by_key(&self) -> btree_map::Iter<'_, Key, KeyRows>
        ensures { AreGroupsOf self.now result }
    {
        self.groups.iter()
    }

    /// The rows of each key in the range, one key after another.
    pub(crate) fn groups_within(
        &self,
        alloc: Global,
        range: &KeyRange,
    ) -> Result<Vec<&KeyRows>, Memory>
        ensures { IfOk result (λ groups. rows_of_lists (map (λ group. group.now) groups.items)
            ≡ rows_within self.now range.now) }
    {
        match range.whole_key(self.positions.as_slice()) {
            Some(key) => group_within(alloc, &self.groups, range, key),
            None => groups_in(alloc, &self.groups, range),
        }
    }

    /// The rows of each of these keys, one key after another.
    pub(crate) fn groups_of_keys(
        &self,
        alloc: Global,
        keys: &[Key],
    ) -> Result<Vec<&KeyRows>, Memory>
        requires { IsStrictlySortedBy values_cmp keys.now }
        ensures { IfOk result (λ groups. rows_of_lists (map (λ group. group.now) groups.items)
            ≡ filter (is_of_some_key self.now.positions keys.now) self.now.rows) }
    {
        let all = &self.groups;
        let mut groups = Vec::new(alloc);
        for key in keys {
            if let Some(group) = group_at(all, key) {
                groups.push(group)?;
            }
        }
        Ok(groups)
    }

    /// Adds a row. An error changes nothing.
    pub(crate) fn add(&mut self, alloc: Global, row: VersionRow) -> Result<(), Memory>
        ensures ok { OnOk result (HasRows (row ∷ self.old.rows) self.old self.new) }
        ensures err { OnErr result (self.new ≡ self.old) }
    {
        let key = values_of(alloc, self.positions.as_slice(), row.values.as_slice())?;
        add_to(alloc, &mut self.groups, &key, row)
    }

    /// Adds rows. Every other one is added first: so nodes of the map, which come half full of keys
    /// that ascend, are then filled.
    pub fn add_each(&mut self, alloc: Global, rows: Vec<VersionRow>) -> Result<(), Memory>
        ensures { OnOk result (HasRows (rows.items ++ self.old.rows) self.old self.new) }
    {
        let (first, second) = every_other(alloc, rows)?;
        self.add_list(alloc, first)?;
        self.add_list(alloc, second)?;
        Ok(())
    }

    // Adds rows, one after the other.
    fn add_list(&mut self, alloc: Global, rows: Vec<VersionRow>) -> Result<(), Memory>
        ensures { OnOk result (HasRows (rows.items ++ self.old.rows) self.old self.new) }
    {
        for row in rows {
            self.add(alloc, row)?;
        }
        Ok(())
    }

    /// Removes a row of this key, with these values, this period and this system time, which is
    /// there. It takes no memory.
    fn remove_version(
        &mut self,
        key: &Key,
        values: &Values,
        period: Period,
        from: Moment,
        to: Moment,
    )
        ensures same { self.new.positions ≡ self.old.positions }
        ensures rows { (rest : List Version)
            → key.now ≡ values_at self.old.positions values.now
            → IsPermutation self.old.rows (recorded values.now period from to ∷ rest)
            → IsPermutation self.new.rows rest }
    {
        take_from(&mut self.groups, key, values, period, from, to);
    }

    /// Removes rows of the table, given with their keys. It takes no memory.
    pub fn take_all(&mut self, keys: &[Key], rows: &[VersionRow])
        requires { keys.now ≡ map (version_key self.old.positions) rows.now }
        ensures same { self.new.positions ≡ self.old.positions }
        ensures rows { (rest : List Version) → IsPermutation self.old.rows (rows.now ++ rest)
            → IsPermutation self.new.rows rest }
    {
        for i in 0..rows.len() {
            let row = &rows[i];
            self.remove_version(&keys[i], &row.values, row.period, row.from, row.to);
        }
    }

    /// Adds rows that begin at a moment, whose keys these are, or none of them.
    pub fn add_all(
        &mut self,
        alloc: Global,
        moment: Moment,
        keys: &[Key],
        rows: &[PeriodRow],
    ) -> Result<(), Memory>
        requires { keys.now ≡ map (key_values self.old.positions) rows.now }
        ensures ok { OnOk result
            (HasRows (map (begun moment) rows.now ++ self.old.rows) self.old self.new) }
        ensures err { OnErr result (HasRows self.old.rows self.old self.new) }
    {
        for i in 0..rows.len() {
            if let Err(refused) = self.add_begun(alloc, moment, &keys[i], &rows[i]) {
                self.remove_first_added(moment, keys, rows, i);
                return Err(refused);
            }
        }
        Ok(())
    }

    /// Takes back what `add_all` added. It takes no memory.
    pub fn undo_add(&mut self, moment: Moment, keys: &[Key], rows: &[PeriodRow])
        requires { keys.now ≡ map (key_values self.old.positions) rows.now }
        ensures same { self.new.positions ≡ self.old.positions }
        ensures rows { (rest : List Version)
            → IsPermutation self.old.rows (map (begun moment) rows.now ++ rest)
            → IsPermutation self.new.rows rest }
    {
        self.remove_first_added(moment, keys, rows, rows.len());
    }

    // Adds a row that begins at a moment, whose key this is.
    fn add_begun(
        &mut self,
        alloc: Global,
        moment: Moment,
        key: &Key,
        row: &PeriodRow,
    ) -> Result<(), Memory>
        requires { key.now ≡ key_values self.old.positions row.now }
        ensures ok { OnOk result
            (HasRows (begun moment row.now ∷ self.old.rows) self.old self.new) }
        ensures err { OnErr result (self.new ≡ self.old) }
    {
        let version = VersionRow {
            values: row.values.copy(alloc)?,
            period: row.period,
            from: moment,
            to: Moment::forever(),
        };
        add_to(alloc, &mut self.groups, key, version)
    }

    // Removes the first `count` of rows that begin at a moment, whose keys these are.
    fn remove_first_added(&mut self, moment: Moment, keys: &[Key], rows: &[PeriodRow], count: usize)
        requires keys { keys.now ≡ map (key_values self.old.positions) rows.now }
        requires count { count ≤ length rows.now }
        ensures same { self.new.positions ≡ self.old.positions }
        ensures rows { (rest : List Version)
            → IsPermutation self.old.rows (map (begun moment) (take count rows.now) ++ rest)
            → IsPermutation self.new.rows rest }
    {
        for i in 0..count {
            let row = &rows[i];
            self.remove_version(&keys[i], &row.values, row.period, moment, Moment::forever());
        }
    }
}

// The rows in two lists, which take turns.
fn every_other(
    alloc: Global,
    rows: Vec<VersionRow>,
) -> Result<(Vec<VersionRow>, Vec<VersionRow>), Memory>
    ensures { IfOk result (λ found. IsPermutation (found.0.items ++ found.1.items) rows.items) }
{
    let half = rows.len() / 2 + 1;
    let mut first = Vec::with_capacity(alloc, half)?;
    let mut second = Vec::with_capacity(alloc, half)?;
    for row in rows {
        first.push(row)?;
        mem::swap(&mut first, &mut second);
    }
    Ok((first, second))
}
