//! The text of statements: its tokens and its grammar.
//!
//! To add a form of statement, whose tree is in `sql_statements`: its production in
//! `specs/Grammar`, with what it builds in `specs/Builders`; its reader in `specs/reading/` and in
//! a file here; and its first keyword in `specs/reading/StatementReaders` and in `statements`.
//!
//! To add a literal: the values that its text names in `specs/LiteralValues`, its field in
//! `specs/Literals` and `specs/Placeholders`, its case in `IsLiteral` of `specs/Grammar`, its
//! reader in `specs/reading/Leaves` and in `leaves`; and what may be wrong with it in
//! `specs/LiteralFaults`, in `literal_faults` and in `piece_faults`.
#![tactic(auto)]

mod changes;
mod column_elements;
mod comparisons;
mod conditions;
mod date_tokens;
mod depth;
mod digits;
pub mod grammar_laws;
mod leaves;
pub mod lexer;
mod list;
mod literal_faults;
mod parser;
mod piece_faults;
pub mod pieces;
mod predicates;
mod queries;
mod read_error;
mod references;
mod selects;
mod statements;
mod stored;
mod table_elements;
mod tables;
mod terminal;
mod texts;
pub mod token_spans;
mod windows;

pub use lexer::{LexFault, lex};
pub use parser::parse;
pub use pieces::{Span, cut};
pub use token_spans::{TokenSpan, cut_spans, lex_spans, tokens_at};
