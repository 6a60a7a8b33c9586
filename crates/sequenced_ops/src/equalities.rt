//! The equalities of a join: which column of the left side has the value of which of the right.

ghost use Rattle.std.specs.Prelude.{◌≡◌, IfOk};
ghost use Rattle.sequenced_ops.specs.Joining.{columns_on};

use crate::keyed::Side;
use period_core::Memory;
use std::alloc::Global;

/// A column of the left side and one of the right, by their positions, whose values are to be the
/// same.
#[derive(Clone, Copy)]
pub struct Equality {
    /// The position in a row of the left side.
    pub left: usize,
    /// The position in a row of the right side.
    pub right: usize,
}

/// The positions of this side, equality by equality.
pub fn columns_of(alloc: Global, equalities: &[Equality], side: &Side) -> Result<Vec<usize>, Memory>
    ensures { IfOk result (λ columns. columns.items ≡ columns_on side.now equalities.now) }
{
    let mut columns = Vec::with_capacity(alloc, equalities.len())?;
    for equality in equalities {
        columns.push(match side {
            Side::Left => equality.left,
            Side::Right => equality.right,
        })?;
    }
    Ok(columns)
}
