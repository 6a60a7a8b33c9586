//! An entry of the log, which takes back one change of a content.

ghost use Rattle.std.specs.Prelude.{◌≡◌};

use crate::tree::StoredTree;
use ordered_rows::Undo as RowsUndo;
use sqlite_value::row::Row;

/// An entry of the undo log: the content is as it was before a change, once it is undone.
#[derive(Drop)]
pub(crate) enum LogEntry {
    /// A savepoint that was released, which changed nothing.
    Released,
    /// A savepoint, which changed nothing.
    Savepoint,
    /// The rows of the tree with this number were edited.
    Rows(u32, RowsUndo),
    /// One more number was made.
    SlotAdded,
    /// The tree that had the number.
    Replaced(u32, StoredTree),
    /// The tree with this number had this description and these REAL columns.
    Relisted(u32, Row, u64),
    /// The version of the schema.
    Version(u32),
}

impl LogEntry {
    ghost use Rattle.memory_store.specs.ContentStates.{is_savepoint};

    pub(crate) fn is_savepoint(&self) -> bool
        ensures { result ≡ is_savepoint self.now }
    {
        matches!(self, LogEntry::Savepoint)
    }
}
