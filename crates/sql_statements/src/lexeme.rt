//! The first lexeme of a text.

ghost use Rattle.std.specs.Prelude.{◌≡◌, ◌<◌, length};
ghost use Rattle.sql_statements.specs.Lexis as lexis;
ghost use Rattle.sql_statements.specs.Lexis.{EndsBetween, text_limit};

use crate::scan::{
    begins_pair, comment_size, is_blank, is_digit, is_letter, is_lone_symbol, is_symbol_byte,
    number_size, quoted_size, word_size,
};
use crate::token::TokenKind;

/// The first lexeme, and the number of its bytes.
#[derive(Clone, Copy)]
pub enum Front {
    /// White space or a comment.
    Blank(usize),
    /// A token.
    Lexeme(TokenKind, usize),
    /// Nothing: no token begins here, or a text that does not end.
    Bad,
}

/// The first case that fits, over the bytes of a text.
// Cases that the first byte alone decides come first: where one fits, no other does.
#[tactic(auto, unfolding(crate::specs::Lexis::first_lexeme))]
fn first_of_bytes(bytes: &[u8]) -> Front
    requires { length bytes.now < text_limit }
    ensures { result ≡ lexis.first_lexeme bytes.now }
{
    match bytes {
        [] => Front::Bad,
        [first, rest @ ..] => {
            if is_lone_symbol(*first) {
                Front::Lexeme(TokenKind::Symbol, 1)
            } else if is_letter(*first) {
                Front::Lexeme(TokenKind::Word, 1 + word_size(rest))
            } else if is_digit(*first) {
                Front::Lexeme(TokenKind::Number, 1 + number_size(rest))
            } else if *first == b'\'' {
                match quoted_size(rest) {
                    Some(size) => Front::Lexeme(TokenKind::Text, 1 + size),
                    None => Front::Bad,
                }
            } else if is_blank(*first) {
                Front::Blank(1)
            } else if bytes.starts_with(b"--") {
                Front::Blank(1 + comment_size(rest))
            } else if begins_pair(bytes) {
                Front::Lexeme(TokenKind::Symbol, 2)
            } else if is_symbol_byte(*first) {
                Front::Lexeme(TokenKind::Symbol, 1)
            } else {
                Front::Bad
            }
        }
    }
}

/// The first case that fits: what is first in a text, and how many bytes it takes.
pub fn first_lexeme(text: &str) -> Front
    requires { length text.now < text_limit }
    ensures value { result ≡ lexis.first_lexeme text.now }
    ensures ends { EndsBetween result text.now }
{
    first_of_bytes(text.as_bytes())
}
