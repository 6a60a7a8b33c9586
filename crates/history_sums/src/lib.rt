//! The sum of a history: the digest of bytes that spell its clock, its definitions and all versions
//! of each table. `specs/Sums` has the bytes; a sum takes them in piece by piece.
#![tactic(auto)]

ghost use Rattle.history_sums.specs.Sums.{AlikeHaveOneSum};

mod pieces;

pub use pieces::{add_definitions, add_number, add_versions, digits_of};

/// Histories that have the same clock, the same definitions and the same versions, in whatever
/// order, have one sum.
pub fn alike_have_one_sum()
    ensures { AlikeHaveOneSum }
{}
