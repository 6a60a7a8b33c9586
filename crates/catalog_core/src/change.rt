//! Changes with positions in place of names.

use crate::condition::Cond;
use period_core::{Day, Items, Period, PeriodRow, Value, Values, VersionRow};

/// A row of INSERT: its values in the order of the value columns, and the start and the end of its
/// period. Its end may be at or before its start: then the change is refused.
#[derive(Drop)]
pub struct InsertedRow {
    pub values: Values,
    pub start: Day,
    pub end: Day,
}

/// A position among a row's values, and the value that is set there.
#[derive(Drop)]
pub struct Assignment {
    pub position: usize,
    pub value: Value,
}

/// A change of a table. Without a portion it acts on every day, without a condition on every row.
#[derive(Drop)]
pub enum Action {
    /// Adds the rows.
    Insert(Items<InsertedRow>),
    /// In the portion, sets these values in the rows that meet the condition.
    Update(Option<Period>, Items<Assignment>, Option<Cond>),
    /// In the portion, removes the rows that meet the condition.
    Delete(Option<Period>, Option<Cond>),
}

/// A change of a table, by its number.
#[derive(Drop)]
pub struct Change {
    pub table: u8,
    pub action: Action,
}

/// The action of a change on the rows of a table.
#[derive(Drop)]
pub struct Plan {
    /// The rows that end: each is identified by its values, period start and system start.
    pub ended: Items<VersionRow>,
    /// The rows that are added.
    pub added: Items<PeriodRow>,
}
