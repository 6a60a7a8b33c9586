//! Names of tables, columns and periods.

ghost use Rattle.std.specs.Prelude.{◌≡◌, ◌==◌, ◌↔◌, true, IfOk, IfSome, IsSome};
ghost use Rattle.std.specs.Char.{to_ascii_uppercase};
ghost use Rattle.std.specs.List.{list_all};
ghost use Rattle.std.specs.Str.{bytes_eq};
ghost use Rattle.sql_statements.specs.Names.{is_name, is_plain_word, upper};

use crate::word_text::is_plain_word;
use period_core::{Memory, Text};
use std::alloc::Global;
use std::marker::Model;

/// A name: a word that is not reserved, in upper case.
#[derive(Drop)]
pub struct Name {
    text: Text,
}

impl Model for Name {
    ghost use Rattle.std.specs.Prelude.{◌≡◌, ℕ, List, true};
    ghost use Rattle.sql_statements.specs.Names.{is_name};

    ghost Value = { List ℕ };

    ghost view = { λ n. n.text };

    ghost invariant = { λ n. is_name n.text ≡ true };
}

impl Name {
    /// The name that a word means, whatever its case.
    #[tactic(auto, using(crate::proofs::NameFacts::upper_is_name))]
    pub fn of_word(alloc: Global, word: &str) -> Result<Name, Memory>
        requires { is_plain_word word.now ≡ true }
        ensures { IfOk result (λ name. name ≡ upper word.now) }
    {
        let mut string = String::new(alloc);
        string.push_str(word)?;
        string.make_ascii_uppercase();
        Ok(Name {
            text: Text::new(string),
        })
    }

    /// The name that a text is: `None` exactly if it is no word, a reserved one, or not in upper
    /// case.
    #[tactic(auto, unfolding(crate::specs::Names::is_name))]
    pub fn from_text(text: Text) -> Option<Name>
        ensures there { IsSome result ↔ (is_name text ≡ true) }
        ensures value { IfSome result (λ name. name ≡ text) }
    {
        if !is_plain_word(text.as_str()) || !is_upper(text.as_str()) {
            return None;
        }
        Some(Name { text })
    }

    /// The name as a text.
    pub fn as_text(&self) -> &Text
        ensures value { result.now ≡ self.now }
        ensures named { is_name self.now ≡ true }
    {
        &self.text
    }

    /// An equal name.
    pub fn copy(&self, alloc: Global) -> Result<Name, Memory>
        ensures { IfOk result (λ name. name ≡ self.now) }
    {
        Ok(Name {
            text: self.text.copy(alloc)?,
        })
    }

    /// Whether the two are one name.
    pub fn is(&self, other: &Name) -> bool
        ensures { result ≡ bytes_eq self.now other.now }
    {
        self.text.is(&other.text)
    }
}

/// Whether each byte of a text is its own upper case.
fn has_upper_bytes_only(text: &str) -> bool
    ensures { result ≡ list_all (λ b. b == to_ascii_uppercase b) text.now }
{
    text.as_bytes()
        .iter()
        .all(|byte| *byte == byte.to_ascii_uppercase())
}

/// Whether a text is in upper case.
#[tactic(auto, using(crate::proofs::NameFacts::upper_by_bytes))]
fn is_upper(text: &str) -> bool
    ensures { result ≡ bytes_eq text.now (upper text.now) }
{
    has_upper_bytes_only(text)
}
