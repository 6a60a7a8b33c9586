//! CREATE TABLE as it is written. Its elements are listed by their kinds, each list in the order of
//! the text: no rule reads how the kinds are mixed.

ghost use Rattle.std.specs.Prelude.{◌≡◌};
ghost use Rattle.sql_statements.specs.Elements.{HasElement};

use crate::name::Name;
use crate::nonempty::NonEmpty;
use period_core::Items;
use std::marker::Model;

/// A column's type. A number is as its token says, not yet checked.
#[derive(Clone, Copy)]
pub enum TypeName {
    Integer,
    Date,
    Varchar(u64),
    Timestamp(Option<u64>),
}

/// GENERATED ALWAYS AS ROW START or END.
#[derive(Clone, Copy)]
pub enum Generated {
    Start,
    End,
}

/// A column, with its type, and for a system column with the end that it holds.
#[derive(Drop)]
pub struct ColumnElement {
    pub name: Name,
    pub kind: TypeName,
    pub generated: Option<Generated>,
}

/// PERIOD FOR a name, with its two columns.
#[derive(Drop)]
pub struct PeriodElement {
    pub name: Name,
    pub start: Name,
    pub end: Name,
}

/// PERIOD FOR SYSTEM_TIME, with its two columns.
#[derive(Drop)]
pub struct SystemElement {
    pub start: Name,
    pub end: Name,
}

/// PRIMARY KEY: its columns, and its period WITHOUT OVERLAPS.
#[derive(Drop)]
pub struct KeyElement {
    pub columns: NonEmpty<Name>,
    pub period: Name,
}

/// FOREIGN KEY: the child's columns and period, and the parent's.
#[derive(Drop)]
pub struct ReferenceElement {
    pub columns: NonEmpty<Name>,
    pub period: Name,
    pub parent: Name,
    pub parent_columns: NonEmpty<Name>,
    pub parent_period: Name,
}

/// CREATE TABLE of a name with these elements.
#[derive(Drop)]
pub struct CreateTable {
    pub name: Name,
    pub columns: Items<ColumnElement>,
    pub periods: Items<PeriodElement>,
    pub system_periods: Items<SystemElement>,
    pub keys: Items<KeyElement>,
    pub references: Items<ReferenceElement>,
}

/// CREATE TABLE of one element or more, of whatever kind, which contracts see as the table.
#[derive(Drop)]
pub struct CreateStatement {
    table: CreateTable,
}

impl Model for CreateStatement {
    ghost use Rattle.sql_statements.specs.declared.create.CreateTable.{CreateTable};
    ghost use Rattle.sql_statements.specs.Elements.{HasElement};

    ghost Value = { CreateTable };

    ghost view = { λ s. s.table };

    ghost invariant = { λ s. HasElement s.table };
}

impl CreateStatement {
    /// The statement of a table that has an element.
    pub fn new(table: CreateTable) -> CreateStatement
        requires { HasElement table }
        ensures { result ≡ table }
    {
        CreateStatement { table }
    }

    /// The table.
    pub fn table(&self) -> &CreateTable
        ensures value { result.now ≡ self.now }
        ensures filled { HasElement result.now }
    {
        &self.table
    }
}
