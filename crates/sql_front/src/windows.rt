//! System-time windows, read from the front.

ghost use Rattle.std.specs.Prelude.{◌≤◌, length, IfOk};
ghost use Rattle.sql_front.specs.reading.Gives.{Gives};
ghost use Rattle.sql_statements.specs.Lexemes.{lexemes};
ghost use Rattle.sql_front.specs.reading.WindowReaders.{for_window_read, two_moments_read};
ghost use Rattle.sql_front.specs.reading.WindowReaders.{window_read};
ghost use Rattle.sql_front.specs.Terminals.{terminal};

use crate::leaves::{read_clock_moment, read_moment};
use crate::read_error::ReadError;
use crate::terminal::{Terminal, accept, expect};
use period_core::Moment;
use sql_statements::statement::SystemTime;
use sql_statements::token::Token;

// Moments are passed on by `match` while tokens are borrowed: the borrow checker has no rule for
// a `?` there.

/// Two moments with this terminal between them, and the tokens after them.
#[tactic(auto, unfolding(crate::specs::reading::WindowReaders::two_moments_read))]
fn read_two_moments<'a, 'b>(
    tokens: &'b [Token<'a>],
    between: Terminal<'_>,
) -> Result<((Moment, Moment), &'b [Token<'a>]), ReadError>
    ensures value { Gives (λ x. (x.0, lexemes x.1.now)) result
        (two_moments_read (terminal between.entry) (lexemes tokens.now)) }
    ensures rest { IfOk result (λ x. length x.1.now ≤ length tokens.now) }
{
    let (from, rest) = match read_moment(tokens) {
        Ok(read) => read,
        Err(error) => return Err(error),
    };
    match read_moment(expect(rest, between)?) {
        Ok((to, rest)) => Ok(((from, to), rest)),
        Err(error) => Err(error),
    }
}

/// A window, and the tokens after it.
#[tactic(auto, unfolding(crate::specs::reading::WindowReaders::window_read))]
fn read_window<'a, 'b>(tokens: &'b [Token<'a>]) -> Result<(SystemTime, &'b [Token<'a>]), ReadError>
    ensures value { Gives (λ x. (x.0, lexemes x.1.now)) result (window_read (lexemes tokens.now)) }
    ensures rest { IfOk result (λ x. length x.1.now ≤ length tokens.now) }
{
    if let Some(rest) = accept(tokens, Terminal::Keyword("AS")) {
        return match read_clock_moment(expect(rest, Terminal::Keyword("OF"))?) {
            Ok((moment, rest)) => Ok((SystemTime::AsOf(moment), rest)),
            Err(error) => Err(error),
        };
    }
    if let Some(rest) = accept(tokens, Terminal::Keyword("FROM")) {
        return match read_two_moments(rest, Terminal::Keyword("TO")) {
            Ok(((from, to), rest)) => Ok((SystemTime::FromTo(from, to), rest)),
            Err(error) => Err(error),
        };
    }
    let rest = expect(tokens, Terminal::Keyword("BETWEEN"))?;
    match read_two_moments(rest, Terminal::Keyword("AND")) {
        Ok(((from, to), rest)) => Ok((SystemTime::Between(from, to), rest)),
        Err(error) => Err(error),
    }
}

/// FOR SYSTEM_TIME with a window or nothing, and the tokens after it.
#[tactic(auto, unfolding(crate::specs::reading::WindowReaders::for_window_read))]
pub fn read_for_window<'a, 'b>(
    tokens: &'b [Token<'a>],
) -> Result<(Option<SystemTime>, &'b [Token<'a>]), ReadError>
    ensures value { Gives (λ x. (x.0, lexemes x.1.now)) result
        (for_window_read (lexemes tokens.now)) }
    ensures rest { IfOk result (λ x. length x.1.now ≤ length tokens.now) }
{
    let Some(rest) = accept(tokens, Terminal::Keyword("FOR")) else {
        return Ok((None, tokens));
    };
    match read_window(expect(rest, Terminal::Keyword("SYSTEM_TIME"))?) {
        Ok((window, rest)) => Ok((Some(window), rest)),
        Err(error) => Err(error),
    }
}
