//! Words, names and lexemes, and the statements that they spell, as trees. The crates that run
//! statements use this one alone; `sql_front` reads statements from text.
//!
//! To add a form of statement: its variant in `StatementForm`, and its plain tree in `specs/Trees`
//! and in `plain_form` of `specs/Plain`. A new keyword that is no name: `specs/Words` and `words`.
//! The places that read the statement are listed in `sql_front`.
#![tactic(auto)]

pub mod clock_moment;
pub mod create;
pub mod lexeme;
pub mod name;
pub mod nonempty;
pub mod scan;
pub mod statement;
pub mod token;
pub mod tree;
pub mod word_text;
pub mod words;

pub use clock_moment::ClockMoment;
pub use create::{
    ColumnElement, CreateStatement, CreateTable, Generated, KeyElement, PeriodElement,
    ReferenceElement, SystemElement, TypeName,
};
pub use name::Name;
pub use nonempty::NonEmpty;
pub use statement::{
    Assignment, ColumnReference, Compare, Comparison, DeleteRows, InsertRows, Join, JoinChain,
    Operand, PeriodOperand, PeriodPredicate, Portion, SelectDistinct, SelectItem, Statement,
    StatementForm, StoredQuery, StoredTest, SystemTime, TableReference, UpdateRows,
};
pub use token::{Token, TokenKind};
pub use tree::{QueryTree, SetOperator, Tree};
