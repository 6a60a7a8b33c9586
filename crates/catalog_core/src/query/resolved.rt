//! Sequenced queries with positions in place of names, and the rows that their references see.

ghost use Rattle.std.specs.Prelude.{◌≡◌};
ghost use Rattle.catalog_core.specs.query.Queries.{rows_for};

use crate::condition::Cond;
use crate::query::AnswerColumn;
use crate::table::ValueKind;
use period_core::{Items, PeriodRow, Window};
use sql_statements::{NonEmpty, SetOperator};
use std::marker::Model;

/// A table in FROM, by the table's number.
#[derive(Drop)]
pub struct QueryReference {
    /// The place among all table references of the query, in the order of the text, from 0.
    pub place: usize,
    /// The table's number.
    pub table: u8,
    /// The versions that it sees.
    pub window: Window,
    /// The kinds of its rows' values.
    pub kinds: Items<ValueKind>,
}

/// A select. A combined row has the values of a row of each reference, one after the other;
/// conditions and items name its values by their positions.
#[derive(Drop)]
pub struct Select {
    /// The tables in FROM, in the order of the text.
    pub references: NonEmpty<QueryReference>,
    /// All must hold: the conditions of ON, then the condition of WHERE, each cut at its outermost
    /// AND.
    pub conjuncts: Items<Cond>,
    /// The select list.
    pub items: Items<AnswerColumn>,
}

/// A sequenced query: a tree of set operators over selects.
#[derive(Drop)]
pub enum Query {
    Select(Select),
    Combined(SetOperator, Box<Query>, Box<Query>),
}

/// For each table reference of a query, in the order of the text, the period rows that it sees.
#[derive(Drop)]
pub struct Tables {
    lists: Items<Items<PeriodRow>>,
}

impl Model for Tables {
    ghost use Rattle.std.specs.Prelude.{List};
    ghost use Rattle.period_core.specs.declared.row.PeriodRow.{PeriodRow as Row};

    ghost Value = { List (List Row) };

    ghost view = { λ t. t.lists };
}

impl Tables {
    /// The tables of all lists.
    pub fn new(lists: Items<Items<PeriodRow>>) -> Tables
        ensures { result ≡ lists }
    {
        Tables { lists }
    }

    /// The lists.
    pub fn as_slice(&self) -> &[Items<PeriodRow>]
        ensures { result.now ≡ self.now }
    {
        self.lists.as_slice()
    }

    /// The rows that a reference sees; none, if there is no list in its place.
    pub fn rows_for(&self, reference: &QueryReference) -> &[PeriodRow]
        ensures { result.now ≡ rows_for self.now reference.now }
    {
        match self.lists.as_slice().get(reference.place) {
            Some(rows) => rows.as_slice(),
            None => &[],
        }
    }
}
