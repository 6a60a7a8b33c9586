//! Rows of a table or entries of an index, in order, in a balanced tree. The way to a row is at
//! most 1.45 times the binary logarithm of one more than their number (`laws`). Each edit gives
//! what takes it back, and taking it back needs no memory.
#![tactic(auto)]

mod abbreviated_key;
mod cursor;
pub mod laws;
mod rows;
mod stored_row;
mod target;
mod tree;
mod undo;

pub use cursor::RowCursor;
pub use rows::OrderedRows;
pub use undo::Undo;
