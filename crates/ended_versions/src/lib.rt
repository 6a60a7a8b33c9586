//! The versions of a table that have ended, in memory, found by moment and by their values.
//!
//! A change ends versions at the clock, and the clock never goes back. So a version that ends comes
//! after all that ended before it, and the list is in the order of its ends by itself. What a
//! window may see are the versions of a last part of it, those that end late enough; in that part
//! whole blocks that begin too late are passed over (`blocks`, `walk`). `kept` holds the versions,
//! with their values as bytes.
//!
//! Versions with equal values at some positions have the same hash (`hashes`), and each leads to
//! the one before it of its hash (`chains`). The positions are those of a key, of its first
//! columns, or of a reference (`chained_values`). Versions are chained before a query that may look
//! for them so, and not as they end: a change costs no more than in a list without chains. `list`
//! has both; contracts see the list of versions alone.
#![tactic(auto)]

mod blocks;
mod chained_values;
mod chains;
mod hashes;
mod kept;
mod list;
mod walk;

pub use list::EndedVersions;
