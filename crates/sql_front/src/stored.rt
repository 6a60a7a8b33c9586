//! Stored queries, read from the front.

ghost use Rattle.std.specs.Prelude.{◌≤◌, length, IfOk};
ghost use Rattle.sql_front.specs.reading.Gives.{Gives};
ghost use Rattle.sql_statements.specs.Lexemes.{lexemes};
ghost use Rattle.sql_statements.specs.Plain.{plain_stored};
ghost use Rattle.sql_front.specs.reading.StatementReaders.{stored_read, stored_table_read};

use crate::conditions::read_where;
use crate::leaves::read_name;
use crate::read_error::ReadError;
use crate::terminal::{Terminal, expect};
use crate::windows::read_for_window;
use sql_statements::statement::{StoredQuery, StoredTest};
use sql_statements::token::Token;
use std::alloc::Global;

/// A table with a window and a condition, and the tokens after them. At most `depth` parentheses
/// open in it.
#[tactic(auto, unfolding(crate::specs::reading::StatementReaders::stored_table_read))]
fn read_stored_table<'a, 'b>(
    alloc: Global,
    depth: usize,
    tokens: &'b [Token<'a>],
) -> Result<(StoredQuery, &'b [Token<'a>]), ReadError>
    ensures value { Gives (λ x. (plain_stored x.0, lexemes x.1.now)) result
        (stored_table_read depth (lexemes tokens.now)) }
    ensures rest { IfOk result (λ x. length x.1.now ≤ length tokens.now) }
{
    let (table, rest) = read_name(alloc, tokens)?;
    let (window, rest) = match read_for_window(rest) {
        Ok(found) => found,
        Err(error) => return Err(error),
    };
    let (condition, rest) = read_where::<StoredTest>(alloc, depth, rest)?;
    Ok((
        StoredQuery {
            table,
            window,
            condition,
        },
        rest,
    ))
}

/// SELECT * of a table, and the tokens after it. At most `depth` parentheses open in it.
#[tactic(auto, unfolding(crate::specs::reading::StatementReaders::stored_read))]
pub fn read_stored<'a, 'b>(
    alloc: Global,
    depth: usize,
    tokens: &'b [Token<'a>],
) -> Result<(StoredQuery, &'b [Token<'a>]), ReadError>
    ensures value { Gives (λ x. (plain_stored x.0, lexemes x.1.now)) result
        (stored_read depth (lexemes tokens.now)) }
    ensures rest { IfOk result (λ x. length x.1.now ≤ length tokens.now) }
{
    let rest = expect(tokens, Terminal::Keyword("SELECT"))?;
    let rest = expect(rest, Terminal::Symbol("*"))?;
    read_stored_table(alloc, depth, expect(rest, Terminal::Keyword("FROM"))?)
}
