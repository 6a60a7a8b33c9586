//! One write to the rows of a tree.

use sqlite_value::keys::Order;
use sqlite_value::row::Row;

/// A row of a table is put in place, or deleted by its rowid; an entry of an index in this order is
/// inserted or removed.
#[derive(Clone, Copy)]
pub(crate) enum Edit<'a> {
    Put(&'a Row),
    Delete(i64),
    Insert(Order, &'a Row),
    Remove(Order, &'a Row),
}
