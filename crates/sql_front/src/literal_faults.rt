//! Faults of the literals of a piece: dates, moments and numbers.

ghost use Rattle.std.specs.Prelude.{◌≡◌, codes, option_copied};
ghost use Rattle.sql_front.specs.reading.LeafValues.{clock_of_token};
ghost use Rattle.sql_statements.specs.Lexemes.{lexeme, lexemes};
ghost use Rattle.sql_front.specs.LiteralTests as tests;

use crate::date_tokens::{clock_moment_of_token, moment_of_token, names_no_day};
use crate::digits::is_number_above;
use crate::terminal::{Terminal, is_terminal};
use period_core::GREATEST_NUMBER;
use sql_statements::token::{Token, TokenKind};

/// The text after this keyword, if the next token is one.
// Few tokens are words, and few words have a text after them, so that is asked first.
#[inline(always)]
fn text_after<'a>(word: &str, first: &Token<'_>, after: &[Token<'a>]) -> Option<&'a str>
    ensures { option_copied result
        ≡ tests.text_after word.now (lexeme first.now) (lexemes after.now) }
{
    if first.kind != TokenKind::Word {
        return None;
    }
    match after {
        [token, ..]
            if token.kind == TokenKind::Text && is_terminal(first, Terminal::Keyword(word)) => {
            Some(token.text)
        }
        _ => None,
    }
}

/// DATE, then a text that names no day?
pub fn is_bad_date(first: &Token<'_>, after: &[Token<'_>]) -> bool
    ensures { result ≡ tests.is_bad_date (lexeme first.now) (lexemes after.now) }
{
    match text_after("DATE", first, after) {
        Some(token) => names_no_day(token),
        None => false,
    }
}

fn is_no_moment(first: &Token<'_>, after: &[Token<'_>]) -> bool
    ensures { result ≡ tests.is_no_moment (lexeme first.now) (lexemes after.now) }
{
    match text_after("TIMESTAMP", first, after) {
        Some(token) => moment_of_token(token).is_none(),
        None => false,
    }
}

fn is_no_clock_moment(first: &Token<'_>, after: &[Token<'_>]) -> bool
    ensures { result ≡ tests.is_unread (codes "TIMESTAMP") clock_of_token
        (lexeme first.now) (lexemes after.now) }
{
    match text_after("TIMESTAMP", first, after) {
        Some(token) => clock_moment_of_token(token).is_none(),
        None => false,
    }
}

fn is_open_end(first: &Token<'_>, after: &[Token<'_>]) -> bool
    ensures { result ≡ tests.is_open_end (lexeme first.now) (lexemes after.now) }
{
    match after {
        [] => false,
        [word, rest @ ..] => {
            is_no_clock_moment(word, rest)
                && (is_terminal(first, Terminal::Keyword("AT"))
                    || is_terminal(first, Terminal::Keyword("OF")))
        }
    }
}

/// TIMESTAMP, then a text that names no moment, or none before the open end after AT or OF?
pub fn is_bad_moment(first: &Token<'_>, after: &[Token<'_>]) -> bool
    ensures { result ≡ tests.is_bad_moment (lexeme first.now) (lexemes after.now) }
{
    first.kind == TokenKind::Word && (is_no_moment(first, after) || is_open_end(first, after))
}

/// A number that is outside 64 bits signed, after a minus or none?
pub fn is_above(minus: bool, token: &Token<'_>) -> bool
    ensures { result ≡ tests.is_above minus (lexeme token.now) }
{
    if token.kind != TokenKind::Number {
        return false;
    }
    let limit = if minus {
        GREATEST_NUMBER + 1
    } else {
        GREATEST_NUMBER
    };
    is_number_above(token.text, limit)
}
