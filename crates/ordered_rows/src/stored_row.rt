//! A row of a tree, with its abbreviated key.

ghost use Rattle.std.specs.Prelude.{◌≡◌, IfOk};
ghost use Rattle.sqlite_trees.specs.Tree.{rowid};
ghost use Rattle.sqlite_value.specs.Keys.{entry_cmp, prefix_cmp};
ghost use Rattle.sqlite_value.specs.Order.{value_cmp};
ghost use Rattle.sqlite_value.specs.declared.value.Value.TheVariants.{Int};
ghost use Rattle.ordered_rows.specs.AbbreviatedKeys.{IsAbbreviationOf};

use crate::abbreviated_key::AbbreviatedKey;
use crate::target::Probe;
use sqlite_value::order::compare;
use sqlite_value::row::Row;
use sqlite_value::value::ValueRef;
use std::alloc::{AllocError, Global};
use std::cmp::Ordering;
use std::marker::Model;

/// A row with its abbreviated key. Contracts see the row alone.
#[derive(Drop)]
pub(crate) struct StoredRow {
    abbreviated: AbbreviatedKey,
    row: Row,
}

impl Model for StoredRow {
    ghost use Rattle.sqlite_value.specs.Order.{Row as AnyRow};
    ghost use Rattle.sqlite_value.specs.contracts.row.Row.{the_row};
    ghost use Rattle.ordered_rows.specs.AbbreviatedKeys.{IsAbbreviationOf};

    ghost Value = { AnyRow };

    ghost coded = { the_row.coded };

    ghost view = { λ k. k.row };

    ghost invariant = { λ k. IsAbbreviationOf k.abbreviated k.row };
}

impl StoredRow {
    /// A copy of the row.
    pub(crate) fn new(alloc: Global, row: &Row) -> Result<StoredRow, AllocError>
        ensures { IfOk result (λ stored. stored ≡ row.now) }
    {
        let abbreviated = AbbreviatedKey::of(row);
        let row = row.copy(alloc)?;
        Ok(StoredRow { abbreviated, row })
    }

    /// The abbreviated key.
    pub(crate) fn abbreviated(&self) -> AbbreviatedKey
        ensures { IsAbbreviationOf result self.now }
    {
        self.abbreviated
    }

    pub(crate) fn row(&self) -> &Row
        ensures { result.now ≡ self.now }
    {
        &self.row
    }

    /// Whether the row is below a rowid, at it or above it.
    #[inline(always)]
    pub(crate) fn cmp_rowid(&self, id: i64) -> Ordering
        ensures { result ≡ value_cmp (rowid self.now) (Int id) }
    {
        match self.abbreviated.integer() {
            Some(first) => first.cmp(&id),
            None => compare(self.row.get(0), ValueRef::Int(id)),
        }
    }

    /// Whether the row is below an entry, at it or above it.
    #[inline(always)]
    pub(crate) fn cmp_entry(&self, probe: &Probe<'_>) -> Ordering
        ensures { result ≡ entry_cmp probe.now.order self.now probe.now.row.now }
    {
        match probe.cmp_abbreviated(self.abbreviated) {
            Ordering::Equal => self.row.cmp_entry(probe.order, probe.row),
            found => found,
        }
    }

    /// Compares two rows over the columns that a key has.
    #[inline(always)]
    pub(crate) fn cmp_prefix(&self, probe: &Probe<'_>) -> Ordering
        ensures { result ≡ prefix_cmp probe.now.order self.now probe.now.row.now }
    {
        match probe.cmp_abbreviated(self.abbreviated) {
            Ordering::Equal => self.row.cmp_prefix(probe.order, probe.row),
            found => found,
        }
    }
}
