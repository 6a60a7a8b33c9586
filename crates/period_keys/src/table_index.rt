//! A table's current rows by key, and their periods by the columns of references too.

ghost use Rattle.std.specs.Prelude.{◌≡◌, ◌↔◌, ◌++◌, ◌∷◌, [], Contains, IfOk, IfSome, IsSome};
ghost use Rattle.std.specs.Prelude.{IsPermutation, List, OnErr, OnOk, map};
ghost use Rattle.period_core.specs.declared.version.VersionRow.{VersionRow as Version};
ghost use Rattle.history_model.specs.Versions.{row_of};
ghost use Rattle.period_keys.specs.Index.{AreAtKeys};
ghost use Rattle.period_keys.specs.Keys.{key_values};
ghost use Rattle.period_keys.specs.LookUps.{periods_by};
ghost use Rattle.period_keys.specs.Rows.{rows_of_lists};
ghost use Rattle.period_keys.specs.Secondary.{AreRowsWithin};
ghost use Rattle.period_keys.specs.TableRows.{AreTouchedKeys, HasMoreIndexes, HasTableRows};
ghost use Rattle.period_keys.specs.Versions.{begun};

use crate::changes::keys_of;
use crate::clashes::index_of_current;
use crate::current_rows::CurrentRows;
use crate::key::Key;
use crate::key_range::KeyRange;
use crate::key_rows::KeyRows;
use crate::period_indexes::{PeriodIndex, add_to_each, keys_by_each, take_from_each};
use crate::periods_by_key::PeriodsByKey;
use crate::row_range::{RowConditions, RowRange};
use crate::secondary_index::{SecondaryIndex, add_entries_to_each, add_index, find_index};
use period_core::{Items, Memory, Moment, PeriodRow, VersionRow};
use std::alloc::Global;
use std::marker::Model;

/// The current rows of one table by key, and their periods by the columns of each reference from
/// the table and to it. The rows themselves have the periods by the columns of the key. Rows are
/// found by the columns of a reference through a secondary index, which is made when one first
/// asks for it (`prepare`): tables that are never asked so pay nothing.
#[derive(Drop)]
pub struct TableIndex {
    rows: CurrentRows,
    indexes: Vec<PeriodIndex>,
    secondary: Vec<SecondaryIndex>,
}

impl Model for TableIndex {
    ghost use Rattle.std.specs.Prelude.{◌∷◌, map};
    ghost use Rattle.history_model.specs.Versions.{row_of};
    ghost use Rattle.period_keys.specs.PeriodIndexes.{EachIndexes, positions_by};
    ghost use Rattle.period_keys.specs.Secondary.{HaveEntries};
    ghost use Rattle.period_keys.specs.TableRows.{TableRows};

    ghost Value = { TableRows };

    ghost view = { λ t. record {
      positions = t.rows.positions;
      rows = t.rows.rows;
      indexed = t.rows.positions ∷ map positions_by t.indexes.items;
    } };

    ghost invariant = { λ t. EachIndexes (map row_of t.rows.rows) t.indexes.items
        × HaveEntries t.rows.positions t.rows.rows t.secondary.items };
}

/// The keys of rows that a change touches, by the table's key and by each of its indexes.
#[derive(Drop)]
pub struct TouchedKeys {
    by_key: Vec<Key>,
    by_each: Vec<Items<Key>>,
}

impl TableIndex {
    /// An index of rows, by their key alone.
    pub fn new(alloc: Global, rows: CurrentRows) -> TableIndex
        ensures positions { result.positions ≡ rows.positions }
        ensures rows { result.rows ≡ rows.rows }
        ensures indexed { result.indexed ≡ rows.positions ∷ [] }
    {
        TableIndex {
            rows,
            indexes: Vec::new(alloc),
            secondary: Vec::new(alloc),
        }
    }

    /// The rows by key.
    pub fn rows(&self) -> &CurrentRows
        ensures positions { result.now.positions ≡ self.now.positions }
        ensures rows { result.now.rows ≡ self.now.rows }
    {
        &self.rows
    }

    /// The rows' periods by their values at these positions, if they can be looked up so.
    pub(crate) fn by(&self, positions: &[usize]) -> Option<PeriodsByKey<'_>>
        ensures found { IfSome result (λ periods.
            AreAtKeys positions.now (map row_of self.now.rows) (periods_by periods)) }
        ensures there { IsSome result ↔ Contains self.now.indexed positions.now }
    {
        if self.rows.positions() == positions {
            return Some(PeriodsByKey::OfRows(&self.rows));
        }
        for index in self.indexes.as_slice() {
            if index.positions.as_slice() == positions {
                return Some(PeriodsByKey::Index(&index.periods));
            }
        }
        None
    }

    /// The rows that conditions leave, by the key, or if they leave all keys, by the columns of a
    /// reference that they fix.
    pub fn rows_of<C: RowConditions>(
        &self,
        alloc: Global,
        conditions: &C,
    ) -> Result<RowRange, Memory>
        ensures left { IfOk result (λ rows. C.IsRange conditions.now rows.positions rows.range) }
        ensures known { IfOk result (λ rows. Contains self.now.indexed rows.positions) }
    {
        let range = conditions.range_at(alloc, self.rows.positions())?;
        if range.is_all() {
            for index in self.indexes.as_slice() {
                let positions = index.positions.as_slice();
                let other = conditions.range_at(alloc, positions)?;
                if other.whole_key(positions).is_some() {
                    return RowRange::at(alloc, positions, other);
                }
            }
        }
        RowRange::at(alloc, self.rows.positions(), range)
    }

    /// Makes the secondary index by which `groups_of` finds the rows that conditions leave, if
    /// there is to be one, and it is not there yet.
    pub(crate) fn prepare<C: RowConditions>(
        &mut self,
        alloc: Global,
        conditions: &C,
    ) -> Result<(), Memory>
        ensures { self.new ≡ self.old }
    {
        if self.indexes.is_empty() {
            return Ok(());
        }
        let rows = self.rows_of(alloc, conditions)?;
        self.prepare_for(alloc, &rows)
    }

    /// Makes the secondary index by which `groups_of` finds rows that were told by `rows_of`, if
    /// there is to be one, and it is not there yet.
    pub fn prepare_for(&mut self, alloc: Global, rows: &RowRange) -> Result<(), Memory>
        ensures { self.new ≡ self.old }
    {
        let positions = rows.positions.as_slice();
        if self.rows.positions() != positions {
            add_index(alloc, &mut self.secondary, positions, &self.rows)?;
        }
        Ok(())
    }

    /// The rows of each key of which a row may be in the range, one key after another: by the key
    /// or by a secondary index, or all, if there is none by these positions.
    pub fn groups_of(&self, alloc: Global, rows: &RowRange) -> Result<Vec<&KeyRows>, Memory>
        ensures { IfOk result (λ groups. AreRowsWithin rows.now self.now.rows
            (rows_of_lists (map (λ group. group.now) groups.items))) }
    {
        let positions = rows.positions.as_slice();
        if positions == self.rows.positions() {
            return self.rows.groups_within(alloc, &rows.range);
        }
        if rows.range.whole_key(positions).is_some() {
            if let Some(index) = find_index(self.secondary.as_slice(), positions) {
                let keys = index.keys_within(alloc, &rows.range)?;
                return self.rows.groups_of_keys(alloc, keys.as_slice());
            }
        }
        self.rows.groups_within(alloc, &KeyRange::all(alloc))
    }

    /// Indexes the rows' periods by their values at these positions too. An error changes nothing.
    pub(crate) fn index_by(&mut self, alloc: Global, positions: Items<usize>) -> Result<(), Memory>
        ensures ok { OnOk result (self.new ≡ record {
          positions = self.old.positions;
          rows = self.old.rows;
          indexed = self.old.indexed ++ positions ∷ [];
        }) }
        ensures err { OnErr result (self.new ≡ self.old) }
    {
        let periods = index_of_current(alloc, positions.as_slice(), &self.rows)?;
        self.indexes.push(PeriodIndex { positions, periods })?;
        Ok(())
    }

    /// Indexes the rows' periods by their values at these positions, if they cannot be looked up by
    /// these yet.
    pub(crate) fn index_once(
        &mut self,
        alloc: Global,
        positions: Items<usize>,
    ) -> Result<(), Memory>
        ensures ok { OnOk result (Contains self.new.indexed positions) }
        ensures kept { HasMoreIndexes self.old self.new }
    {
        match self.by(positions.as_slice()) {
            Some(_) => Ok(()),
            None => self.index_by(alloc, positions),
        }
    }

    /// The rows' keys by all of the table's positions.
    pub fn keys_of(&self, alloc: Global, rows: &[PeriodRow]) -> Result<TouchedKeys, Memory>
        ensures { IfOk result (λ keys. AreTouchedKeys self.now rows.now keys) }
    {
        let by_key = keys_of(alloc, self.rows.positions(), rows)?;
        self.keys_with(alloc, by_key, rows)
    }

    /// The rows' keys by all of the table's positions, if those by the table's key are given.
    pub fn keys_with(
        &self,
        alloc: Global,
        by_key: Vec<Key>,
        rows: &[PeriodRow],
    ) -> Result<TouchedKeys, Memory>
        requires { by_key.items ≡ map (key_values self.now.positions) rows.now }
        ensures { IfOk result (λ keys. AreTouchedKeys self.now rows.now keys) }
    {
        let by_each = keys_by_each(alloc, self.indexes.as_slice(), rows)?;
        Ok(TouchedKeys { by_key, by_each })
    }

    /// Adds rows that begin at a moment, whose keys these are, or none of them.
    pub fn add_all(
        &mut self,
        alloc: Global,
        moment: Moment,
        keys: &TouchedKeys,
        rows: &[PeriodRow],
    ) -> Result<(), Memory>
        requires { AreTouchedKeys self.old rows.now keys.now }
        ensures ok { OnOk result
            (HasTableRows (map (begun moment) rows.now ++ self.old.rows) self.old self.new) }
        ensures err { OnErr result (HasTableRows self.old.rows self.old self.new) }
    {
        let by_key = keys.by_key.as_slice();
        add_entries_to_each(alloc, self.secondary.as_mut_slice(), rows)?;
        self.rows.add_all(alloc, moment, by_key, rows)?;
        let by_each = keys.by_each.as_slice();
        if let Err(refused) = add_to_each(alloc, self.indexes.as_mut_slice(), by_each, rows) {
            self.rows.undo_add(moment, by_key, rows);
            return Err(refused);
        }
        Ok(())
    }

    /// Takes back what `add_all` added. It takes no memory.
    pub fn undo_add(&mut self, moment: Moment, keys: &TouchedKeys, rows: &[PeriodRow])
        requires keys { AreTouchedKeys self.old rows.now keys.now }
        requires there { (rest : List Version)
            × IsPermutation self.old.rows (map (begun moment) rows.now ++ rest) }
        ensures { (rest : List Version)
            → IsPermutation self.old.rows (map (begun moment) rows.now ++ rest)
            → HasTableRows rest self.old self.new }
    {
        self.rows.undo_add(moment, keys.by_key.as_slice(), rows);
        take_from_each(self.indexes.as_mut_slice(), keys.by_each.as_slice(), rows);
    }

    /// Removes versions that exist. `rows` are these without system time, and `keys` are those
    /// of the rows. It takes no memory.
    pub fn take_all(&mut self, keys: &TouchedKeys, versions: &[VersionRow], rows: &[PeriodRow])
        requires keys { AreTouchedKeys self.old rows.now keys.now }
        requires rows { rows.now ≡ map row_of versions.now }
        requires there { (rest : List Version)
            × IsPermutation self.old.rows (versions.now ++ rest) }
        ensures { (rest : List Version)
            → IsPermutation self.old.rows (versions.now ++ rest)
            → HasTableRows rest self.old self.new }
    {
        self.rows.take_all(keys.by_key.as_slice(), versions);
        take_from_each(self.indexes.as_mut_slice(), keys.by_each.as_slice(), rows);
    }
}
