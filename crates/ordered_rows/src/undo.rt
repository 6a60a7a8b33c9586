//! An undo, which takes an edit back.

ghost use Rattle.std.specs.Prelude.{◌≡◌};
ghost use Rattle.ordered_rows.specs.Countable.{IsCountable};
ghost use Rattle.ordered_rows.specs.declared.undo.InverseEdit.TheVariants.{Nothing};

use crate::stored_row::StoredRow;
use crate::tree::Fork;

/// Of one edit of a tree's rows: the tree that it gave is as it was once this is undone.
#[derive(Drop)]
pub struct Undo {
    pub(crate) inverse: InverseEdit,
    pub ghost countable: { IsCountable inverse },
}

impl Undo {
    /// Nothing was changed.
    pub(crate) fn nothing() -> Undo
        ensures { result.inverse ≡ Nothing }
    {
        Undo {
            inverse: InverseEdit::Nothing,
        }
    }
}

/// A row with this number is taken out, a row is added before it, or a row replaces it.
#[derive(Drop)]
pub(crate) enum InverseEdit {
    Nothing,
    Out(u32),
    In(u32, Box<Fork>),
    Over(u32, StoredRow),
}
