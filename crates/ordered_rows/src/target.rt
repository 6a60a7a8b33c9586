//! The row or the key with which the rows of a tree are compared in an edit or a seek.

ghost use Rattle.std.specs.Prelude.{◌≡◌, ◌≢◌, IsTrue};
ghost use Rattle.ordered_rows.specs.AbbreviatedKeys.{IsAbbreviationOf};
ghost use Rattle.sqlite_value.specs.Keys.{entry_cmp, prefix_cmp};
ghost use Rattle.sqlite_value.specs.Order.{Row as AnyRow};

use crate::abbreviated_key::AbbreviatedKey;
use crate::stored_row::StoredRow;
use sqlite_value::keys::Order;
use sqlite_value::row::Row;
use std::cmp::Ordering;

/// An entry of an index, or the key of a seek, and the order that it is compared in.
#[derive(Clone, Copy)]
pub(crate) struct Probe<'a> {
    pub order: Order,
    pub abbreviated: AbbreviatedKey,
    pub row: &'a Row,
    pub ghost abbreviates: { IsAbbreviationOf abbreviated row.now },
}

impl<'a> Probe<'a> {
    /// A row in this order.
    pub(crate) fn new(order: Order, row: &'a Row) -> Probe<'a>
        ensures order { result.order ≡ order }
        ensures row { result.row.now ≡ row.now }
    {
        Probe {
            order,
            abbreviated: AbbreviatedKey::of(row),
            row,
        }
    }

    /// The order of a row with this abbreviated key and the probe, by their abbreviated keys.
    /// `Equal` says nothing of the rows.
    #[inline(always)]
    pub(crate) fn cmp_abbreviated(&self, key: AbbreviatedKey) -> Ordering
        ensures entry { (row : AnyRow) → IsAbbreviationOf key row → result ≢ Ordering.Equal
            → entry_cmp self.now.order row self.now.row.now ≡ result }
        ensures prefix { (row : AnyRow) → IsAbbreviationOf key row → result ≢ Ordering.Equal
            → prefix_cmp self.now.order row self.now.row.now ≡ result }
    {
        if self.order.digits != 0 {
            return Ordering::Equal;
        }
        key.cmp(self.abbreviated)
    }
}

/// A rowid of a table, or an entry of an index.
#[derive(Clone, Copy)]
pub(crate) enum Target<'a> {
    Rowid(i64),
    Entry(&'a Probe<'a>),
}

impl Target<'_> {
    ghost use Rattle.ordered_rows.specs.Targets.{side};

    /// Whether a row is below the target, at it or above it.
    #[inline(always)]
    pub(crate) fn side(self, row: &StoredRow) -> Ordering
        ensures { result ≡ side self.entry row.now }
    {
        match self {
            Target::Rowid(id) => row.cmp_rowid(id),
            Target::Entry(probe) => row.cmp_entry(probe),
        }
    }

    /// Whether a row with this abbreviated key is below the target. `false` says nothing of it.
    #[inline(always)]
    pub(crate) fn is_above(self, key: AbbreviatedKey) -> bool
        ensures { IsTrue result → (row : AnyRow) → IsAbbreviationOf key row
            → side self.entry row ≡ Ordering.Less }
    {
        match self {
            Target::Rowid(id) => match key.integer() {
                Some(first) => first < id,
                None => false,
            },
            Target::Entry(probe) => probe.cmp_abbreviated(key).is_lt(),
        }
    }
}
