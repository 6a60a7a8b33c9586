//! A store of `sqlite` in memory, whose trees are [`ordered_rows::OrderedRows`]: a write costs the
//! logarithm of the rows of its tree, and a transaction, a savepoint or a way back copies no row.
//!
//! `MemoryStore` keeps what the transaction sees, which is changed in place, and an undo log, which
//! leads back to the newest savepoint and to the last commit. Undoing needs no memory, so that no
//! rollback fails. An edit that fails leaves its tree as it was, so the store is never broken and
//! never shut: the one error of its calls, but for a row that may not be stored, is to be out of
//! memory.
#![tactic(auto)]

mod content;
mod edit;
mod log_entry;
mod logged_content;
mod opening;
mod store;
mod tree;

pub use opening::open_in_memory;
pub use store::MemoryStore;
