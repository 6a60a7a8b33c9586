//! The pieces between the semicolons of a script.

ghost use Rattle.std.specs.Prelude.{◌≡◌, ℕ, All, IfOk, List, length, map};
ghost use Rattle.sql_statements.specs.Lexemes.{Lexeme, lexemes};
ghost use Rattle.sql_statements.specs.Lexemes as tokens;
ghost use Rattle.sql_front.specs.Pieces as pieces;
ghost use Rattle.sql_front.specs.Pieces.{HasPieces, HasSpans, IsWithin, spanned};

use crate::terminal::is_same_symbol;
use period_core::Memory;
use sql_statements::token::Token;
use std::alloc::Global;

/// A run of tokens: from one index on and before another.
#[derive(Clone, Copy, PartialEq, Eq)]
pub struct Span {
    pub start: usize,
    pub end: usize,
}

/// A token of a script, in whatever form a list of them holds it.
pub(crate) trait Lexed {
    ghost fits: { List ℕ → Self → Type 0 };

    ghost lexeme: { List ℕ → Self → Lexeme };

    /// Is it a semicolon?
    fn is_semicolon(&self, script: &str) -> bool
        requires { fits script.now self.now }
        ensures { result ≡ pieces.is_semicolon (lexeme script.now self.now) };
}

impl Lexed for Token<'_> {
    ghost fits = { λ script token. Unit {0} };

    ghost lexeme = { λ script token. tokens.lexeme token };

    fn is_semicolon(&self, _script: &str) -> bool {
        is_same_symbol(self.text, ";")
    }
}

/// The pieces of the tokens of a script, in order: what is between semicolons, if that is not
/// empty. The last piece needs no semicolon.
pub(crate) fn cut_all<T: Lexed>(
    alloc: Global,
    script: &str,
    tokens: &[T],
) -> Result<Vec<Span>, Memory>
    requires { All (T.fits script.now) tokens.now }
    ensures pieces { IfOk result (λ spans. HasPieces (map (T.lexeme script.now) tokens.now)
        (map (spanned (map (T.lexeme script.now) tokens.now)) spans.items)) }
    ensures placed { IfOk result
        (λ spans. HasSpans 0 (map (T.lexeme script.now) tokens.now) spans.items) }
    ensures within { IfOk result (λ spans. All (IsWithin (length tokens.now)) spans.items) }
{
    let mut spans = Vec::new(alloc);
    let mut start = 0;
    'tokens: for (i, token) in tokens.iter().enumerate() {
        if token.is_semicolon(script) {
            if start < i {
                spans.push(Span { start, end: i })?;
            }
            start = i + 1;
        }
    }
    if start < tokens.len() {
        spans.push(Span {
            start,
            end: tokens.len(),
        })?;
    }
    Ok(spans)
}

/// The pieces of a list of tokens, in order: what is between semicolons, if that is not empty.
/// The last piece needs no semicolon.
pub fn cut(alloc: Global, tokens: &[Token<'_>]) -> Result<Vec<Span>, Memory>
    ensures pieces { IfOk result
        (λ spans. HasPieces (lexemes tokens.now) (map (spanned (lexemes tokens.now)) spans.items)) }
    ensures placed { IfOk result (λ spans. HasSpans 0 (lexemes tokens.now) spans.items) }
    ensures within { IfOk result (λ spans. All (IsWithin (length tokens.now)) spans.items) }
{
    // (a token has its own text, so nothing of the script is read)
    cut_all::<Token<'_>>(alloc, "", tokens)
}
