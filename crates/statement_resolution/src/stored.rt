//! Stored queries: their conditions, and what they are with positions in place of names.

pub mod conditions;
pub mod resolution;
