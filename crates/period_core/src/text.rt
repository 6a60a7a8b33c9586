//! Texts and names in fields.

ghost use Rattle.std.specs.Prelude.{◌≡◌, ◌==◌, IfOk, bytes_eq, length, string_bytes};
ghost use Rattle.std.specs.Str.{chars};
ghost use Rattle.std.specs.Cmp.{partial_equiv_from_equiv};
ghost use Rattle.std.specs.Cmp.Lexicographic.{slice_cmp, pointwise};
ghost use Rattle.std.specs.Ordering.{nat_cmp, as_partial_cmp};
ghost use Rattle.std.proofs.lemmas.Cmp.{nat_list_cmp_total, nat_list_eq_equiv};

use crate::memory::Memory;
use std::alloc::Global;
use std::cmp::Ordering;
use std::marker::Model;

/// A text, which contracts see as its UTF-8 bytes. Texts compare as their bytes do.
#[derive(Drop, Debug)]
pub struct Text {
    string: String,
}

impl Model for Text {
    ghost use Rattle.std.specs.Prelude.{ℕ, List, string_bytes};

    ghost Value = { List ℕ };

    ghost view = { λ t. string_bytes t.string };
}

impl Text {
    /// The text of a string.
    pub fn new(string: String) -> Text
        ensures { result ≡ string_bytes string }
    {
        Text { string }
    }

    /// The string.
    pub fn as_str(&self) -> &str
        ensures { result.now ≡ self.now }
    {
        self.string.as_str()
    }

    /// An equal text. An `Err` says that memory was refused.
    pub fn copy(&self, alloc: Global) -> Result<Text, Memory>
        ensures { IfOk result (λ t. t ≡ self.now) }
    {
        let mut string = String::new(alloc);
        string.push_str(self.as_str())?;
        Ok(Text { string })
    }

    /// The number of code points, whatever they look like together.
    #[tactic(auto, using(std::proofs::lemmas::Str::chars_from_encodes))]
    pub fn char_count(&self) -> usize
        ensures { result ≡ length (chars self.now) }
    {
        self.as_str().chars().count()
    }

    /// Whether the two have the same bytes.
    pub fn is(&self, other: &Text) -> bool
        ensures { result ≡ bytes_eq self.now other.now }
    {
        self.string == other.string
    }
}

impl PartialEq for Text {
    ghost eq = { pointwise ◌==◌ };

    ghost laws = { partial_equiv_from_equiv nat_list_eq_equiv };

    fn eq(&self, other: &Text) -> bool {
        self.as_str() == other.as_str()
    }
}

impl Eq for Text {
    ghost laws = { nat_list_eq_equiv };
}

impl Ord for Text {
    ghost use Rattle.std.proofs.Common.{rules};
    ghost use Rattle.std.specs.Cmp.Rules.{comparing};

    ghost cmp = { slice_cmp nat_cmp };

    ghost total = { nat_list_cmp_total };

    ghost matches_partial_cmp = { Prim.search (comparing, rules) };

    ghost matches_eq = { Prim.search (comparing, rules) };

    fn cmp(&self, other: &Text) -> Ordering {
        self.as_str().cmp(other.as_str())
    }
}

impl PartialOrd for Text {
    ghost use Rattle.std.proofs.Common.{rules};
    ghost use Rattle.std.specs.Cmp.{partial_order_from_own_ties};
    ghost use Rattle.std.specs.Cmp.Rules.{comparing};

    ghost partial_cmp = { as_partial_cmp (slice_cmp nat_cmp) };

    ghost laws = { partial_order_from_own_ties
        (Prim.search (comparing, rules))
        (Prim.search (comparing, rules)) };

    fn partial_cmp(&self, other: &Text) -> Option<Ordering> {
        Some(self.cmp(other))
    }
}
