//! The depth of parentheses.

ghost use Rattle.std.specs.Prelude.{◌≡◌, ◌+◌, ◌<◌, ◌≤◌, ◌∷◌, [], ◌^◌, List, is_none};
ghost use Rattle.sql_statements.specs.Lexemes.{Lexeme, lexeme};
ghost use Rattle.sql_front.specs.Depth.{is_too_small, most_open, room};

use crate::terminal::{Terminal, is_terminal};
use sql_statements::token::Token;

/// The greatest number of parentheses that may be open.
pub const MOST_OPEN: usize = 32;

/// The number of parentheses that may still open.
#[derive(Clone, Copy)]
pub struct Room {
    left: usize,
    /// One opened if none was left.
    is_exceeded: bool,
}

impl Room {
    /// The room before the first token.
    #[inline(always)]
    pub fn whole() -> Room
        ensures tokens { (tokens : List Lexeme)
            → is_too_small result tokens ≡ is_none (room most_open tokens) }
        ensures left { result.left ≤ most_open }
    {
        Room {
            left: MOST_OPEN,
            is_exceeded: false,
        }
    }

    /// The room that this token leaves.
    #[inline(always)]
    pub fn after(self, token: &Token<'_>) -> Room
        requires { self.left + 1 < 2 ^ 64 }
        ensures tokens { (rest : List Lexeme)
            → is_too_small result rest ≡ is_too_small self (lexeme token.now ∷ rest) }
        ensures left { result.left ≤ self.left + 1 }
    {
        if is_terminal(token, Terminal::Symbol("(")) {
            if self.left == 0 {
                return Room {
                    left: 0,
                    is_exceeded: true,
                };
            }
            return Room {
                left: self.left - 1,
                is_exceeded: self.is_exceeded,
            };
        }
        if is_terminal(token, Terminal::Symbol(")")) {
            return Room {
                left: self.left + 1,
                is_exceeded: self.is_exceeded,
            };
        }
        self
    }

    /// Were there, up to some token, over 32 more `(` than `)`?
    #[inline(always)]
    pub fn is_exceeded(self) -> bool
        ensures { result ≡ is_too_small self [] }
    {
        self.is_exceeded
    }
}
