//! Tokens.

/// A kind of token.
#[derive(Clone, Copy, Debug, PartialEq, Eq)]
pub enum TokenKind {
    /// A keyword or a name.
    Word,
    /// Digits.
    Number,
    /// A text with its quotes.
    Text,
    /// A sign, as `,` or `<=`.
    Symbol,
}

/// A token: the slice of the script from one byte on and before another.
#[derive(Clone, Copy)]
pub struct Token<'a> {
    pub kind: TokenKind,
    pub text: &'a str,
    pub start: usize,
    pub end: usize,
}
