//! Single tokens, read from the front.

ghost use Rattle.std.specs.Prelude.{◌≡◌, true, ◌≤◌, ◌<◌, length, is_some, Some, IfOk, IfSome};
ghost use Rattle.std.specs.Str.{bytes_eq};
ghost use Rattle.sql_statements.specs.Lexemes.{lexeme, lexemes};
ghost use Rattle.sql_front.specs.Language.{number, text};
ghost use Rattle.sql_front.specs.Grammar.{name};
ghost use Rattle.sql_statements.specs.Names.{is_plain_word};
ghost use Rattle.sql_front.specs.reading.Reading.{after_optional, begins, fixed_read, third_is};
ghost use Rattle.sql_front.specs.reading.Reading.{one_read};
ghost use Rattle.sql_front.specs.Terminals.{terminal};
ghost use Rattle.sql_front.specs.reading.Gives.{Gives};

use crate::read_error::ReadError;
use sql_statements::token::{Token, TokenKind};
use sql_statements::word_text::is_plain_word;
use sql_statements::words::is_same_word;

/// A keyword or a symbol: a token that means nothing but itself.
#[derive(Clone, Copy)]
pub enum Terminal<'m> {
    Keyword(&'m str),
    Symbol(&'m str),
}

// Tests for a terminal are in line: at each call it is a literal, for which little is left.

/// Whether the two are one symbol.
// Most symbols have one byte, which is compared alone.
#[inline(always)]
pub fn is_same_symbol(text: &str, want: &str) -> bool
    ensures { result ≡ bytes_eq text.now want.now }
{
    match (text.as_bytes(), want.as_bytes()) {
        ([byte], [only]) => byte == only,
        _ => text == want,
    }
}

/// Is the token this terminal?
#[inline(always)]
pub fn is_terminal(token: &Token<'_>, want: Terminal<'_>) -> bool
    ensures { result ≡ terminal want.entry (lexeme token.now) }
{
    match want {
        Terminal::Keyword(word) => {
            // (most scripts have it letter for letter, which is seen without a look at each letter)
            token.kind == TokenKind::Word && (token.text == word || is_same_word(token.text, word))
        }
        Terminal::Symbol(symbol) => {
            token.kind == TokenKind::Symbol && is_same_symbol(token.text, symbol)
        }
    }
}

/// Do the tokens begin with this terminal?
#[inline(always)]
pub fn starts(tokens: &[Token<'_>], want: Terminal<'_>) -> bool
    ensures { result ≡ begins (terminal want.entry) (lexemes tokens.now) }
{
    match tokens {
        [] => false,
        [first, ..] => is_terminal(first, want),
    }
}

/// Is the third token this terminal?
pub fn third_is(tokens: &[Token<'_>], want: Terminal<'_>) -> bool
    ensures { result ≡ third_is (terminal want.entry) (lexemes tokens.now) }
{
    match tokens {
        [_, _, rest @ ..] => starts(rest, want),
        _ => false,
    }
}

/// The tokens after this terminal.
#[inline(always)]
pub fn expect<'a, 'b>(
    tokens: &'b [Token<'a>],
    want: Terminal<'_>,
) -> Result<&'b [Token<'a>], ReadError>
    ensures value { Gives (λ rest. (tt, lexemes rest.now)) result
        (fixed_read (terminal want.entry) (lexemes tokens.now)) }
    ensures rest { IfOk result (λ r. length r.now < length tokens.now) }
{
    match tokens {
        [first, rest @ ..] if is_terminal(first, want) => Ok(rest),
        _ => Err(ReadError::Syntax),
    }
}

/// The tokens after this terminal, if they begin with it.
#[inline(always)]
pub fn accept<'a, 'b>(tokens: &'b [Token<'a>], want: Terminal<'_>) -> Option<&'b [Token<'a>]>
    ensures there { is_some result ≡ begins (terminal want.entry) (lexemes tokens.now) }
    ensures value { IfSome result
        (λ r. fixed_read (terminal want.entry) (lexemes tokens.now) ≡ Some (tt, lexemes r.now)) }
    ensures rest { IfSome result (λ r. length r.now < length tokens.now) }
{
    match tokens {
        [first, rest @ ..] if is_terminal(first, want) => Some(rest),
        _ => None,
    }
}

/// The tokens after this terminal, or all of them if they do not begin with it.
#[inline(always)]
pub fn skip_optional<'a, 'b>(tokens: &'b [Token<'a>], want: Terminal<'_>) -> &'b [Token<'a>]
    ensures value { lexemes result.now
        ≡ after_optional (terminal want.entry) (lexemes tokens.now) }
    ensures rest { length result.now ≤ length tokens.now }
{
    match tokens {
        [first, rest @ ..] if is_terminal(first, want) => rest,
        _ => tokens,
    }
}

fn is_name(token: &Token<'_>) -> bool
    ensures { result ≡ name (lexeme token.now) }
{
    token.kind == TokenKind::Word && is_plain_word(token.text)
}

/// A name, as it is written, and the tokens after it.
pub fn name<'a, 'b>(tokens: &'b [Token<'a>]) -> Result<(&'a str, &'b [Token<'a>]), ReadError>
    ensures value { Gives (λ x. (x.0.now, lexemes x.1.now)) result
        (one_read name (lexemes tokens.now)) }
    ensures rest { IfOk result (λ x. length x.1.now < length tokens.now) }
    ensures plain { IfOk result (λ x. is_plain_word x.0.now ≡ true) }
{
    match tokens {
        [first, rest @ ..] if is_name(first) => Ok((first.text, rest)),
        _ => Err(ReadError::Syntax),
    }
}

/// A number's digits, and the tokens after it.
pub fn number<'a, 'b>(tokens: &'b [Token<'a>]) -> Result<(&'a str, &'b [Token<'a>]), ReadError>
    ensures value { Gives (λ x. (x.0.now, lexemes x.1.now)) result
        (one_read number (lexemes tokens.now)) }
    ensures rest { IfOk result (λ x. length x.1.now < length tokens.now) }
{
    match tokens {
        [first, rest @ ..] if first.kind == TokenKind::Number => Ok((first.text, rest)),
        _ => Err(ReadError::Syntax),
    }
}

/// A text with its quotes, and the tokens after it.
pub fn text<'a, 'b>(tokens: &'b [Token<'a>]) -> Result<(&'a str, &'b [Token<'a>]), ReadError>
    ensures value { Gives (λ x. (x.0.now, lexemes x.1.now)) result
        (one_read text (lexemes tokens.now)) }
    ensures rest { IfOk result (λ x. length x.1.now < length tokens.now) }
{
    match tokens {
        [first, rest @ ..] if first.kind == TokenKind::Text => Ok((first.text, rest)),
        _ => Err(ReadError::Syntax),
    }
}

/// Do the tokens begin with a text?
pub fn starts_text(tokens: &[Token<'_>]) -> bool
    ensures { result ≡ begins text (lexemes tokens.now) }
{
    match tokens {
        [] => false,
        [first, ..] => first.kind == TokenKind::Text,
    }
}

/// Do the tokens begin with a name?
pub fn starts_name(tokens: &[Token<'_>]) -> bool
    ensures { result ≡ begins name (lexemes tokens.now) }
{
    match tokens {
        [] => false,
        [first, ..] => is_name(first),
    }
}
