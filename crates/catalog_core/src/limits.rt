//! The limits, as `specs/Limits` has them.

/// The most tables that a catalog may have.
pub const MOST_TABLES: usize = 64;

/// The most columns that a table may have.
pub const MOST_COLUMNS: usize = 32;

/// The most references that a table may have.
pub const MOST_REFERENCES: usize = 8;

/// The most code points that VARCHAR(n) may hold: n is at most this.
pub const MOST_CODE_POINTS: u16 = 1000;

/// The greatest p of TIMESTAMP(p).
pub const GREATEST_PRECISION: u8 = 12;

/// A table's number in a definition's bytes is below this.
pub const TABLE_NUMBER_LIMIT: usize = 256;

/// A count or a place in a definition's bytes is below this.
pub const NUMBER_LIMIT: usize = 1 << 63;
