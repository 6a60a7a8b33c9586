//! A statement as it is written: tables, columns and periods are named, in upper case, and literals
//! are values.

ghost use Rattle.std.specs.Prelude.{◌≡◌};
ghost use Rattle.sql_statements.specs.Plain.{plain, plain_form};

use crate::clock_moment::ClockMoment;
use crate::create::CreateStatement;
use crate::name::Name;
use crate::nonempty::NonEmpty;
use crate::tree::{QueryTree, Tree};
use period_core::{Day, Items, Moment, Value};

/// A column, with the name of its table reference before it or without.
#[derive(Drop)]
pub struct ColumnReference {
    pub qualifier: Option<Name>,
    pub name: Name,
}

/// A comparison of two values.
#[derive(Clone, Copy, Debug)]
pub enum Comparison {
    Equal,
    NotEqual,
    Less,
    LessOrEqual,
    Greater,
    GreaterOrEqual,
}

/// A side of a comparison.
#[derive(Drop)]
pub enum Operand {
    Column(ColumnReference),
    Literal(Value),
}

/// Two operands compared.
#[derive(Drop)]
pub struct Compare {
    pub left: Operand,
    pub comparison: Comparison,
    pub right: Operand,
}

/// The period predicates of ISO/IEC 9075-2:2011, but for those on a day.
#[derive(Clone, Copy)]
pub enum PeriodPredicate {
    Overlaps,
    Equals,
    Contains,
    Precedes,
    Succeeds,
    ImmediatelyPrecedes,
    ImmediatelySucceeds,
}

/// A side of a period predicate: a period by its name, or PERIOD with its start and its end.
#[derive(Drop)]
pub enum PeriodOperand {
    Named(ColumnReference),
    Dates(Day, Day),
}

/// A test in the condition of a stored query.
#[derive(Drop)]
pub enum StoredTest {
    Values(Compare),
    Periods(PeriodOperand, PeriodPredicate, PeriodOperand),
    ContainsDay(PeriodOperand, Day),
}

/// FOR PORTION OF a period, from a day on and before another.
#[derive(Drop)]
pub struct Portion {
    pub period: Name,
    pub from: Day,
    pub to: Day,
}

/// The system-time window of a table reference. AS OF names a moment that the clock may have.
#[derive(Clone, Copy)]
pub enum SystemTime {
    AsOf(ClockMoment),
    FromTo(Moment, Moment),
    Between(Moment, Moment),
}

/// A table in FROM, with its system-time window and its new name.
#[derive(Drop)]
pub struct TableReference {
    pub table: Name,
    pub window: Option<SystemTime>,
    pub new_name: Option<Name>,
}

/// JOIN of a table, with its condition.
#[derive(Drop)]
pub struct Join {
    pub reference: TableReference,
    pub condition: Tree<Compare>,
}

/// Tables that are joined from left to right.
#[derive(Drop)]
pub struct JoinChain {
    pub first: TableReference,
    pub joins: Items<Join>,
}

/// A column of the select list, with its new name.
#[derive(Drop)]
pub struct SelectItem {
    pub column: ColumnReference,
    pub new_name: Option<Name>,
}

/// SELECT DISTINCT: each row once.
#[derive(Drop)]
pub struct SelectDistinct {
    pub items: NonEmpty<SelectItem>,
    pub chains: NonEmpty<JoinChain>,
    pub condition: Option<Tree<Compare>>,
}

/// INSERT of rows, for the columns that are listed, or else for all but the system columns, in
/// declared order. Whether each row has a value for each of them is judged against the table.
#[derive(Drop)]
pub struct InsertRows {
    pub table: Name,
    pub columns: Option<NonEmpty<Name>>,
    pub rows: NonEmpty<NonEmpty<Value>>,
}

/// `column = literal` in SET.
#[derive(Drop)]
pub struct Assignment {
    pub column: Name,
    pub value: Value,
}

/// UPDATE of the rows that meet a condition, of each the part in the portion.
#[derive(Drop)]
pub struct UpdateRows {
    pub table: Name,
    pub portion: Option<Portion>,
    pub assignments: NonEmpty<Assignment>,
    pub condition: Option<Tree<Compare>>,
}

/// DELETE of the rows that meet a condition, of each the part in the portion.
#[derive(Drop)]
pub struct DeleteRows {
    pub table: Name,
    pub portion: Option<Portion>,
    pub condition: Option<Tree<Compare>>,
}

/// SELECT * of the versions of a table.
#[derive(Drop)]
pub struct StoredQuery {
    pub table: Name,
    pub window: Option<SystemTime>,
    pub condition: Option<Tree<StoredTest>>,
}

/// A statement, by its form.
#[derive(Drop)]
pub enum StatementForm {
    /// AT: the moment of the statements that follow.
    At(ClockMoment),
    Create(CreateStatement),
    Insert(InsertRows),
    Update(UpdateRows),
    Delete(DeleteRows),
    /// VALIDTIME, and the query that is answered day by day.
    Sequenced(QueryTree<SelectDistinct>),
    Stored(StoredQuery),
}

/// A statement of the language, as `parse` makes it.
#[derive(Drop)]
pub struct Statement {
    form: StatementForm,
}

impl Statement {
    /// The statement that says this.
    pub fn new(form: StatementForm) -> Statement
        ensures { plain result ≡ plain_form form }
    {
        Statement { form }
    }

    /// The statement by its form.
    pub fn form(&self) -> &StatementForm
        ensures { plain_form result.now ≡ plain self.now }
    {
        &self.form
    }
}
