//! The limits of a query, as `specs/Limits` has them.

/// The most items that a select may have.
pub const MOST_ITEMS: usize = 32;

/// The most table references that a select may have.
pub const MOST_SELECT_TABLES: usize = 4;

/// The most set operators that a query may have, nested ones counted.
pub const MOST_OPERATORS: usize = 16;
