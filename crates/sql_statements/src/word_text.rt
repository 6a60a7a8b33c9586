//! Words that may be names.

ghost use Rattle.std.specs.Prelude.{◌≡◌};
ghost use Rattle.std.specs.List.{list_all};
ghost use Rattle.sql_statements.specs.Lexis as lexis;
ghost use Rattle.sql_statements.specs.Names as names;

use crate::scan::{is_letter, is_word_byte};
use crate::words::is_reserved;

fn has_word_bytes_only(bytes: &[u8]) -> bool
    ensures { result ≡ list_all lexis.is_word_byte bytes.now }
{
    bytes.iter().all(|byte| is_word_byte(*byte))
}

fn is_word_text(text: &str) -> bool
    ensures { result ≡ names.is_word_text text.now }
{
    match text.as_bytes() {
        [] => false,
        [first, rest @ ..] => is_letter(*first) && has_word_bytes_only(rest),
    }
}

/// Whether the text is a word that is not reserved.
#[tactic(auto, unfolding(crate::specs::Names::is_plain_word))]
pub fn is_plain_word(text: &str) -> bool
    ensures { result ≡ names.is_plain_word text.now }
{
    is_word_text(text) && !is_reserved(text)
}
