//! The tokens of a script.

ghost use Rattle.std.specs.Prelude.{◌≡◌, ℕ, ◌+◌, ◌<◌, ◌≤◌, ◌∷◌, [], List, length, All, IfOk};
ghost use Rattle.std.specs.Prelude.{IfErr, IfNone, IfSome};
ghost use Rattle.sql_front.specs.declared.lexer.LexFault.TheVariants.{BadToken, Memory};
ghost use Rattle.sql_statements.specs.Lexemes.{Lexeme, lexeme, lexemes};
ghost use Rattle.sql_statements.specs.Lexis.{TokensFrom, StopsFrom, TokensOf, StopsAt, IsTokenAt};
ghost use Rattle.sql_statements.specs.Lexis.{text_limit};

use sql_statements::lexeme::{Front, first_lexeme};
use sql_statements::scan::byte_order_mark_size;
use sql_statements::token::Token;
use std::alloc::{AllocError, AllocFailed, Global};
use thiserror::Error;

/// Why a script has no tokens.
#[derive(Debug, Drop, Error)]
pub enum LexFault {
    /// At this byte no token begins, or a text that does not end.
    #[error("no token begins at byte {0}")]
    BadToken(usize),
    /// An allocation was refused.
    #[error("out of memory")]
    Memory,
}

impl From<AllocError> for LexFault {
    ghost from_gives = { λ _ e. e ≡ Memory };

    fn from(_error: AllocError) -> LexFault {
        LexFault::Memory
    }
}

impl<T: Drop> From<AllocFailed<T>> for LexFault {
    ghost from_gives = { λ _ e. e ≡ Memory };

    fn from(_error: AllocFailed<T>) -> LexFault {
        LexFault::Memory
    }
}

/// The first token of a text that begins at this offset of a script, and what is after it, if the
/// text has a token.
#[inline(always)]
pub(crate) fn first_token<'a>(
    start: usize,
    text: &'a str,
) -> Result<Option<(Token<'a>, &'a str)>, LexFault>
    requires { start + length text.now < text_limit }
    ensures token { IfOk result (λ next. IfSome next (λ x. (more : List Lexeme)
        → TokensFrom x.0.end x.1.now more → TokensFrom start text.now (lexeme x.0 ∷ more))) }
    ensures more { IfOk result (λ next. IfSome next (λ x. (offset : ℕ)
        → StopsFrom x.0.end x.1.now offset → StopsFrom start text.now offset)) }
    ensures size { IfOk result (λ next. IfSome next (λ x. (start ≤ x.0.start)
        × (x.0.start < x.0.end) × (x.0.end + length x.1.now ≡ start + length text.now))) }
    ensures none { IfOk result (λ next. IfNone next (TokensFrom start text.now [])) }
    ensures bad { IfErr result
        (λ fault. (offset : ℕ) → fault ≡ BadToken offset → StopsFrom start text.now offset) }
{
    let mut rest = text;
    let mut at = start;
    'fronts: while !rest.is_empty() {
        match first_lexeme(rest) {
            Front::Blank(size) => {
                let (_, after) = rest.split_at(size);
                rest = after;
                at += size;
            }
            Front::Lexeme(kind, size) => {
                let (text, after) = rest.split_at(size);
                let token = Token {
                    kind,
                    text,
                    start: at,
                    end: at + size,
                };
                return Ok(Some((token, after)));
            }
            Front::Bad => return Err(LexFault::BadToken(at)),
        }
    }
    Ok(None)
}

/// The tokens of a text that begins at this offset of a script.
fn lex_from<'a>(alloc: Global, start: usize, text: &'a str) -> Result<Vec<Token<'a>>, LexFault>
    requires { start + length text.now < text_limit }
    ensures tokens { IfOk result (λ tokens. TokensFrom start text.now (lexemes tokens.items)) }
    ensures bad { (offset : ℕ) → result ≡ Err (BadToken offset) → StopsFrom start text.now offset }
{
    let mut tokens = Vec::new(alloc);
    let mut rest = text;
    let mut at = start;
    'tokens: while let Some((token, after)) = first_token(at, rest)? {
        at = token.end;
        rest = after;
        tokens.push(token)?;
    }
    Ok(tokens)
}

/// The tokens of a script, in order. Offsets count bytes of the whole script.
///
/// If at some place no case fits, the fault is the first such offset, or out of memory in its
/// place.
pub fn lex<'a>(alloc: Global, script: &'a str) -> Result<Vec<Token<'a>>, LexFault>
    ensures tokens { IfOk result (λ tokens. TokensOf script.now (lexemes tokens.items)) }
    ensures slices { IfOk result (λ tokens. All (IsTokenAt script.now) (lexemes tokens.items)) }
    ensures bad { (offset : ℕ) → result ≡ Err (BadToken offset) → StopsAt script.now offset }
{
    let start = byte_order_mark_size(script.as_bytes());
    let (_, text) = script.split_at(start);
    lex_from(alloc, start, text)
}
