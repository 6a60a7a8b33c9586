//! The tokens of a script by their places in it: twelve bytes for each, where a token takes forty.

ghost use Rattle.std.specs.Prelude.{◌≡◌, ℕ, ◌+◌, ◌<◌, ◌^◌, All, IfOk, List, length, map};
ghost use Rattle.sql_front.specs.declared.lexer.LexFault.TheVariants.{BadToken};
ghost use Rattle.sql_front.specs.Pieces as pieces;
ghost use Rattle.sql_front.specs.Pieces.{HasPieces, HasSpans, IsWithin, spanned};
ghost use Rattle.sql_front.specs.TokenSpans as spans;
ghost use Rattle.sql_front.specs.TokenSpans.{IsInScript, lexemes_at, span_of};
ghost use Rattle.sql_statements.specs.Lexemes.{Lexeme, lexeme, lexemes};
ghost use Rattle.sql_statements.specs.Lexis.{StopsAt, StopsFrom, TokensFrom, TokensOf};

use crate::lexer::{LexFault, first_token};
use crate::pieces::{Lexed, Span, cut_all};
use crate::terminal::is_same_symbol;
use period_core::Memory;
use sql_statements::scan::byte_order_mark_size;
use sql_statements::token::{Token, TokenKind};
use std::alloc::Global;

/// A token by its place: from one byte of a script on and before another.
#[derive(Clone, Copy)]
pub struct TokenSpan {
    pub kind: TokenKind,
    pub start: u32,
    pub end: u32,
}

impl TokenSpan {
    // The place of a token.
    fn of(token: &Token<'_>) -> TokenSpan
        requires { (token.now.start < 2 ^ 32) × (token.now.end < 2 ^ 32) }
        ensures { result ≡ span_of (lexeme token.now) }
    {
        TokenSpan {
            kind: token.kind,
            start: token.start as u32,
            end: token.end as u32,
        }
    }

    // The bytes of the script at this place.
    fn text<'a>(&self, script: &'a str) -> &'a str
        requires { IsInScript script.now self.now }
        ensures { result.now ≡ (spans.lexeme_at script.now self.now).text }
    {
        &script[self.start as usize..self.end as usize]
    }

    // The token at this place.
    fn token<'a>(&self, script: &'a str) -> Token<'a>
        requires { IsInScript script.now self.now }
        ensures { lexeme result ≡ spans.lexeme_at script.now self.now }
    {
        Token {
            kind: self.kind,
            text: self.text(script),
            start: self.start as usize,
            end: self.end as usize,
        }
    }
}

impl Lexed for TokenSpan {
    ghost fits = { IsInScript };

    ghost lexeme = { spans.lexeme_at };

    fn is_semicolon(&self, script: &str) -> bool {
        is_same_symbol(self.text(script), ";")
    }
}

// The places of the tokens of a text that begins at this offset of a script.
fn spans_from(alloc: Global, start: usize, text: &str) -> Result<Vec<TokenSpan>, LexFault>
    requires { start + length text.now < 2 ^ 32 }
    ensures tokens { IfOk result (λ spans. (tokens : List Lexeme)
        × (spans.items ≡ map span_of tokens) × TokensFrom start text.now tokens) }
    ensures bad { (offset : ℕ) → result ≡ Err (BadToken offset) → StopsFrom start text.now offset }
{
    let mut spans = Vec::new(alloc);
    let mut rest = text;
    let mut at = start;
    'tokens: while let Some((token, after)) = first_token(at, rest)? {
        at = token.end;
        rest = after;
        spans.push(TokenSpan::of(&token))?;
    }
    Ok(spans)
}

/// The places of the tokens of a script, in order. Offsets count bytes of the whole script.
///
/// If at some place no case fits, the fault is the first such offset, or out of memory in its
/// place.
pub fn lex_spans(alloc: Global, script: &str) -> Result<Vec<TokenSpan>, LexFault>
    requires { length script.now < 2 ^ 32 }
    ensures tokens { IfOk result
        (λ spans. TokensOf script.now (lexemes_at script.now spans.items)) }
    ensures within { IfOk result (λ spans. All (IsInScript script.now) spans.items) }
    ensures bad { (offset : ℕ) → result ≡ Err (BadToken offset) → StopsAt script.now offset }
{
    let start = byte_order_mark_size(script.as_bytes());
    let (_, text) = script.split_at(start);
    spans_from(alloc, start, text)
}

/// The pieces of the tokens at these places, as `cut` gives them.
pub fn cut_spans(alloc: Global, script: &str, tokens: &[TokenSpan]) -> Result<Vec<Span>, Memory>
    requires { All (IsInScript script.now) tokens.now }
    ensures pieces { IfOk result (λ spans. HasPieces (lexemes_at script.now tokens.now)
        (map (spanned (lexemes_at script.now tokens.now)) spans.items)) }
    ensures placed { IfOk result
        (λ spans. HasSpans 0 (lexemes_at script.now tokens.now) spans.items) }
    ensures within { IfOk result (λ spans. All (IsWithin (length tokens.now)) spans.items) }
{
    cut_all(alloc, script, tokens)
}

/// The tokens at these places.
pub fn tokens_at<'a>(
    alloc: Global,
    script: &'a str,
    spans: &[TokenSpan],
) -> Result<Vec<Token<'a>>, Memory>
    requires { All (IsInScript script.now) spans.now }
    ensures { IfOk result (λ tokens. lexemes tokens.items ≡ lexemes_at script.now spans.now) }
{
    let mut tokens = Vec::with_capacity(alloc, spans.len())?;
    for span in spans {
        tokens.push_reserved(span.token(script));
    }
    Ok(tokens)
}
