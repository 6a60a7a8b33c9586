//! The outcome of a statement.

ghost use Rattle.std.specs.Prelude.{◌≡◌};
ghost use Rattle.statement_reports.specs.Report.{word_text};

use period_core::{Answer, Items, Text, VersionRow};

/// The kind of an accepted statement that is no query.
#[derive(Clone, Copy, Debug, PartialEq, Eq)]
pub enum Word {
    /// The clock was moved.
    At,
    /// A table was created.
    Create,
    /// Rows were inserted.
    Insert,
    /// Rows were updated.
    Update,
    /// Rows were deleted.
    Delete,
}

impl Word {
    /// The word as a report prints it.
    pub(crate) fn name(self) -> &'static str
        ensures { result.now ≡ word_text self }
    {
        match self {
            Word::At => "at",
            Word::Create => "create",
            Word::Insert => "insert",
            Word::Update => "update",
            Word::Delete => "delete",
        }
    }
}

/// The part of a version that the cell of a column shows.
#[derive(Clone, Copy, Debug, PartialEq, Eq)]
pub enum Cell {
    /// The value at this position among the version's values, from 0.
    Value(usize),
    /// The first day of the version's period.
    Start,
    /// The day on which its period ends.
    End,
    /// The first moment of its system time.
    From,
    /// The moment at which its system time ends: FOREVER if the version is current.
    To,
}

/// A column of a list of versions.
#[derive(Drop, Debug)]
pub struct VersionColumn {
    pub name: Text,
    pub cell: Cell,
}

/// Versions of a table, with all of its columns in declared order.
#[derive(Drop, Debug)]
pub struct VersionList {
    pub columns: Items<VersionColumn>,
    /// By values, then period start, then system start.
    pub rows: Items<VersionRow>,
}

/// The outcome of an accepted statement.
#[derive(Drop, Debug)]
pub enum Outcome {
    /// The word of a statement that is no query, with a number of rows: of an INSERT those that
    /// were given, of an UPDATE or a DELETE the current versions that it touched, else 0.
    Done(Word, u64),
    /// The answer of a sequenced query.
    Answer(Answer),
    /// The versions that a stored query shows.
    Versions(VersionList),
}
