//! Sequenced queries: their conditions, and what they are with positions in place of names.

pub mod conversion;
pub mod query_conversion;
pub mod query_parts;
pub mod references;
pub mod resolution;
pub mod scope;
pub mod seen;
pub mod seen_column;
pub mod select_conversion;
pub mod sides;
