//! Lists with commas.

ghost use Rattle.std.specs.Prelude.{◌≤◌, ◌<◌, ℕ, List, length, map, Option, IfOk, codes};
ghost use Rattle.sql_statements.specs.Lexemes.{Lexeme, lexemes};
ghost use Rattle.sql_front.specs.Language.{symbol};
ghost use Rattle.sql_front.specs.reading.Reading.{enclosed_read, separated_read};
ghost use Rattle.sql_front.specs.reading.Gives.{Gives};

use crate::read_error::ReadError;
use crate::terminal::{Terminal, expect, starts};
use sql_statements::nonempty::NonEmpty;
use sql_statements::token::Token;
use std::alloc::Global;

/// An item of a list with commas.
pub trait Item<'a>: Sized + Drop {
    ghost Tree: { Type 0 };

    ghost view: { Self → Tree };

    ghost reader: { ℕ → List Lexeme → Option (Tree × List Lexeme) };

    /// The first, and the tokens after it. At most `depth` parentheses open in it.
    fn read<'b>(
        alloc: Global,
        depth: usize,
        tokens: &'b [Token<'a>],
    ) -> Result<(Self, &'b [Token<'a>]), ReadError>
        ensures value { Gives (λ x. (view x.0, lexemes x.1.now)) result
            (reader depth (lexemes tokens.now)) }
        ensures rest { IfOk result (λ x. length x.1.now ≤ length tokens.now) };
}

/// One or more, with a comma between each two.
pub fn separated<'a, 'b, T: Item<'a>>(
    alloc: Global,
    depth: usize,
    tokens: &'b [Token<'a>],
) -> Result<(Vec<T>, &'b [Token<'a>]), ReadError>
    ensures value { Gives (λ x. (map T.view x.0.items, lexemes x.1.now)) result
        (separated_read (symbol (codes ",")) (T.reader depth) (lexemes tokens.now)) }
    ensures rest { IfOk result (λ x. length x.1.now ≤ length tokens.now) }
    ensures filled { IfOk result (λ x. 0 < length x.0.items) }
{
    let mut items = Vec::new(alloc);
    let (first, mut rest) = T::read(alloc, depth, tokens)?;
    items.push(first)?;
    'items: while starts(rest, Terminal::Symbol(",")) {
        let (next, after) = T::read(alloc, depth, expect(rest, Terminal::Symbol(","))?)?;
        items.push(next)?;
        rest = after;
    }
    Ok((items, rest))
}

/// One or more, with a comma between each two, as a list that has an element.
pub fn listed<'a, 'b, T: Item<'a>>(
    alloc: Global,
    depth: usize,
    tokens: &'b [Token<'a>],
) -> Result<(NonEmpty<T>, &'b [Token<'a>]), ReadError>
    ensures value { Gives (λ x. (map T.view x.0, lexemes x.1.now)) result
        (separated_read (symbol (codes ",")) (T.reader depth) (lexemes tokens.now)) }
    ensures rest { IfOk result (λ x. length x.1.now ≤ length tokens.now) }
{
    let (items, rest) = separated::<T>(alloc, depth, tokens)?;
    Ok((NonEmpty::from_vec(items), rest))
}

/// One or more in parentheses, with a comma between each two.
pub fn enclosed<'a, 'b, T: Item<'a>>(
    alloc: Global,
    depth: usize,
    tokens: &'b [Token<'a>],
) -> Result<(Vec<T>, &'b [Token<'a>]), ReadError>
    ensures value { Gives (λ x. (map T.view x.0.items, lexemes x.1.now)) result
        (enclosed_read (separated_read (symbol (codes ",")) (T.reader depth))
        (lexemes tokens.now)) }
    ensures rest { IfOk result (λ x. length x.1.now ≤ length tokens.now) }
    ensures filled { IfOk result (λ x. 0 < length x.0.items) }
{
    let inside = expect(tokens, Terminal::Symbol("("))?;
    let (items, rest) = separated::<T>(alloc, depth, inside)?;
    Ok((items, expect(rest, Terminal::Symbol(")"))?))
}
