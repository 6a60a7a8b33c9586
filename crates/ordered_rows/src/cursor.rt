//! A place between two rows, and a direction.

use sqlite_trees::store::Direction;

/// Reads from the row with this number on, or backward from the one before it. It holds no row: it
/// may be used while the rows stay as they are.
#[derive(Clone, Copy)]
pub struct RowCursor {
    pub(crate) direction: Direction,
    pub(crate) at: u32,
}
