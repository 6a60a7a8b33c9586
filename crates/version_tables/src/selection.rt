//! The versions of a table that a query gives.

/// A choice by system time: of two moments' numbers, the first is the earlier one.
#[derive(Clone, Copy, PartialEq, Eq, Debug)]
pub enum Selection {
    /// All versions.
    Whole,
    /// The versions whose system time ends at this moment.
    EndingAt(i64),
    /// The versions whose system time ends after one moment and begins before another.
    Overlapping(i64, i64),
}
