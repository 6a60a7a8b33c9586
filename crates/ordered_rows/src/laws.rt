//! A law of the heights of trees. The function does nothing: its contract is the law, whose
//! statement is in `specs/`.

ghost use Rattle.ordered_rows.specs.Heights.{LowIsLogarithmic};

/// A low tree, as each tree of this crate is, has a height of at most 1.45 times the binary
/// logarithm of one more than the number of its rows.
pub fn low_is_logarithmic()
    ensures { LowIsLogarithmic }
{}
