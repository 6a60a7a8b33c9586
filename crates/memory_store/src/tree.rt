//! One tree: its rows, and its schema entry.

ghost use Rattle.std.specs.Prelude.{◌≡◌, [], IfOk, OnErr, take, ◌<◌, ◌^◌};
ghost use Rattle.sqlite_trees.specs.Objects.{description, listing};
ghost use Rattle.sqlite_trees.specs.View.{IsShaped};
ghost use Rattle.ordered_rows.specs.Undos.{Undoes, undone};

use crate::edit::Edit;
use ordered_rows::{OrderedRows, Undo};
use sqlite_trees::schema::Object;
use sqlite_trees::store::Shape;
use sqlite_value::row::Row;
use sqlite_value::value::ValueRef;
use std::alloc::{AllocError, Global};

/// A tree of rows. Its shape, its REAL columns and its description are its heading. The rows have
/// that shape.
#[derive(Drop)]
pub(crate) struct StoredTree {
    pub shape: Shape,
    pub reals: u64,
    pub described: Row,
    pub rows: OrderedRows,
    pub ghost ordered: { ∥ IsShaped shape rows ∥₁ },
}

impl StoredTree {
    ghost use Rattle.memory_store.specs.Edit.{Fits, edited};
    ghost use Rattle.memory_store.specs.Content.{heading};

    /// The empty tree of an object.
    pub(crate) fn new(alloc: Global, object: &Object<'_>) -> Result<StoredTree, AllocError>
        ensures heading { IfOk result (λ tree. heading tree
            ≡ (object.now.shape, object.now.reals, description object.now)) }
        ensures rows { IfOk result (λ tree. tree.rows ≡ []) }
    {
        Ok(StoredTree {
            shape: object.shape,
            reals: object.reals,
            described: object.describe(alloc)?,
            rows: OrderedRows::new(alloc),
        })
    }

    /// The tree of a number that names none.
    pub(crate) fn absent(alloc: Global) -> StoredTree
        ensures heading { heading result ≡ (Shape.Absent, 0, []) }
        ensures rows { result.rows ≡ [] }
    {
        StoredTree {
            shape: Shape::Absent,
            reals: 0,
            described: Row::new(alloc),
            rows: OrderedRows::new(alloc),
        }
    }

    /// The entry of the tree in `sqlite_schema`: rowid, type, name, table and SQL text.
    pub(crate) fn listing(&self, alloc: Global, tree: usize) -> Result<Row, AllocError>
        requires { tree < 2 ^ 62 }
        ensures { IfOk result (λ row. row ≡ take 5
            (listing tree self.now.described self.now.shape self.now.reals)) }
    {
        let described = &self.described;
        let mut row = Row::new(alloc);
        row.push(ValueRef::Int(tree as i64 + 1))?;
        row.push(described.get(0))?;
        row.push(described.get(1))?;
        row.push(described.get(2))?;
        row.push(described.get(3))?;
        Ok(row)
    }

    /// The edit is made, or on an error nothing is changed.
    pub(crate) fn apply(&mut self, edit: Edit<'_>) -> Result<Undo, AllocError>
        requires { Fits edit self.old.shape }
        ensures ok { IfOk result (Undoes self.old.rows self.new.rows (edited edit.entry)) }
        ensures err { OnErr result (self.new.rows ≡ self.old.rows) }
        ensures heading { heading self.new ≡ heading self.old }
    {
        match edit {
            Edit::Put(row) => self.rows.put(row),
            Edit::Delete(id) => self.rows.delete(id),
            Edit::Insert(order, entry) => self.rows.insert(order, entry),
            Edit::Remove(order, entry) => self.rows.remove(order, entry),
        }
    }

    /// An edit of the rows is undone, if no other came after it.
    pub(crate) fn undo(&mut self, undo: Undo)
        requires { ∥ IsShaped self.old.shape (undone undo self.old.rows) ∥₁ }
        ensures rows { self.new.rows ≡ undone undo self.old.rows }
        ensures heading { heading self.new ≡ heading self.old }
    {
        self.rows.undo(undo);
    }
}
