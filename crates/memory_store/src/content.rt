//! The trees and the version at one moment.

ghost use Rattle.std.specs.Prelude.{◌-◌, ◌<◌, ◌≡◌, ◌≢◌, ◌≤◌, ◌⊎◌, ◌^◌};
ghost use Rattle.std.specs.Prelude.{[], ◌∷◌, IfOk, OnErr, length, map, slice_set, take, ℕ};
ghost use Rattle.sqlite_trees.specs.Objects.{catalog_tree, description};
ghost use Rattle.sqlite_trees.specs.declared.schema.Object.{Object};
ghost use Rattle.sqlite_trees.specs.Tree.{IsIndexShape, order_of, sought};
ghost use Rattle.sqlite_trees.specs.View.{Finds};
ghost use Rattle.ordered_rows.specs.Cursors.{Gives, left};

use crate::edit::Edit;
use crate::log_entry::LogEntry;
use crate::tree::StoredTree;
use ordered_rows::{OrderedRows, RowCursor, Undo as RowsUndo};
use sqlite_trees::store::{Direction, Shape};
use sqlite_value::row::Row;
use std::alloc::{AllocError, Global};
use std::mem;

/// A tree has the place of its number. Contracts see the `snapshot` of it: the trees with the list
/// of them, their shapes and their REAL columns.
#[derive(Drop)]
pub(crate) struct Content {
    pub trees: Vec<StoredTree>,
    pub version: u32,
}

impl Content {
    ghost use Rattle.memory_store.specs.Edit.{Fits, edited};
    ghost use Rattle.memory_store.specs.Content.{MayList, snapshot, with_edit, with_listed};
    ghost use Rattle.memory_store.specs.ContentStates.{RowsFitShapes, before, state_of};

    pub(crate) fn shape(&self, tree: u32) -> Shape
        ensures { result ≡ (snapshot self.now).shape tree }
    {
        match self.trees.get(tree as usize) {
            Some(found) => found.shape,
            None => Shape::Absent,
        }
    }

    pub(crate) fn reals(&self, tree: u32) -> u64
        ensures { result ≡ (snapshot self.now).reals tree }
    {
        match self.trees.get(tree as usize) {
            Some(found) if found.shape != Shape::Absent => found.reals,
            _ => 0,
        }
    }

    /// No number from this one on names an index, and the one below it names a tree.
    pub(crate) fn count(&self) -> u64
        ensures past { (t : ℕ) → result ≤ t → t < 2 ^ 32
            → ¬ IsIndexShape ((snapshot self.now).shape t) }
        ensures tight { (result ≡ 0) ⊎ ((snapshot self.now).shape (result - 1) ≢ Shape.Absent) }
        ensures fits { result ≤ 2 ^ 32 }
    {
        let mut count = (self.trees.len() as u64).min(1 << 32);
        while count > 0 && self.shape((count - 1) as u32) == Shape::Absent {
            count -= 1;
        }
        count
    }

    /// The rows that a seek in the tree with this number leaves to read.
    pub(crate) fn seek(
        &self,
        alloc: Global,
        tree: u32,
        key: &Row,
        direction: Direction,
    ) -> Result<RowCursor, AllocError>
        ensures { IfOk result (λ cursor. left cursor ((snapshot self.now).trees tree)
            ≡ sought (order_of ((snapshot self.now).shape tree)) direction key.now
            ((snapshot self.now).trees tree)) }
    {
        match self.trees.get(tree as usize) {
            Some(found) => found.rows.seek(found.shape, key, direction),
            None => OrderedRows::new(alloc).seek(Shape::Absent, key, direction),
        }
    }

    /// Writes the next row of a cursor in the tree with this number over `row`, and moves past it,
    /// or answers false if none is left.
    pub(crate) fn next(
        &self,
        tree: u32,
        cursor: &mut RowCursor,
        row: &mut Row,
    ) -> Result<bool, AllocError>
        ensures { IfOk result (Gives (left cursor.old ((snapshot self.now).trees tree))
            (left cursor.new ((snapshot self.now).trees tree)) row.new) }
    {
        match self.trees.get(tree as usize) {
            Some(found) => found.rows.next(cursor, row),
            None => Ok(false),
        }
    }

    /// Writes the row that has the rowid over `row`, or answers false.
    pub(crate) fn get(&self, table: u32, id: i64, row: &mut Row) -> Result<bool, AllocError>
        requires { (snapshot self.now).shape table ≡ Shape.Table }
        ensures { IfOk result (Finds ((snapshot self.now).trees table) id row.new) }
    {
        self.trees[table as usize].rows.get(id, row)
    }

    /// The edit is made, or on an error nothing is changed.
    pub(crate) fn edit(&mut self, tree: u32, edit: Edit<'_>) -> Result<RowsUndo, AllocError>
        requires { Fits edit ((snapshot self.old).shape tree) }
        ensures ok { IfOk result (λ undo. (snapshot self.new
            ≡ with_edit (snapshot self.old) tree (edited edit.entry))
            × (before (LogEntry.Rows tree undo) (state_of self.new) ≡ state_of self.old)) }
        ensures err { OnErr result (state_of self.new ≡ state_of self.old) }
    {
        self.trees[tree as usize].apply(edit)
    }

    /// Another tree with this number, and the one that had it.
    pub(crate) fn replace(&mut self, tree: u32, new: StoredTree) -> StoredTree
        requires { tree < length self.old.trees.items }
        ensures trees { self.new.trees.items ≡ slice_set self.old.trees.items tree new }
        ensures version { self.new.version ≡ self.old.version }
        ensures undo { before (LogEntry.Replaced tree result) (state_of self.new)
            ≡ state_of self.old }
    {
        mem::replace(&mut self.trees[tree as usize], new)
    }

    /// Gives the tree with this number another description and REAL columns. Returns those that it
    /// had.
    pub(crate) fn relist(&mut self, tree: u32, described: Row, reals: u64) -> (Row, u64)
        requires { tree < length self.old.trees.items }
        ensures state { state_of self.new
            ≡ before (LogEntry.Relisted tree described reals) (state_of self.old) }
        ensures snapshot { (o : Object) → described ≡ description o → reals ≡ o.reals
            → MayList (snapshot self.old) (tree, o)
            → snapshot self.new ≡ with_listed (snapshot self.old) ((tree, o) ∷ []) }
        ensures undo { before (LogEntry.Relisted tree result.0 result.1) (state_of self.new)
            ≡ state_of self.old }
    {
        let found = &mut self.trees[tree as usize];
        let described = mem::replace(&mut found.described, described);
        let reals = mem::replace(&mut found.reals, reals);
        (described, reals)
    }

    /// A change is undone, if no other came after it.
    pub(crate) fn undo(&mut self, undo: LogEntry)
        requires { ∥ RowsFitShapes (before undo (state_of self.old)) ∥₁ }
        ensures { state_of self.new ≡ before undo (state_of self.old) }
    {
        match undo {
            LogEntry::Released | LogEntry::Savepoint => {}
            LogEntry::Rows(tree, undo) => self.undo_rows(tree, undo),
            LogEntry::SlotAdded => {
                self.trees.pop();
            }
            LogEntry::Replaced(tree, old) => {
                if (tree as usize) < self.trees.len() {
                    self.replace(tree, old);
                }
            }
            LogEntry::Relisted(tree, described, reals) => {
                if (tree as usize) < self.trees.len() {
                    self.relist(tree, described, reals);
                }
            }
            LogEntry::Version(version) => self.version = version,
        }
    }

    fn undo_rows(&mut self, tree: u32, undo: RowsUndo)
        requires { ∥ RowsFitShapes (before (LogEntry.Rows tree undo) (state_of self.old)) ∥₁ }
        ensures { state_of self.new ≡ before (LogEntry.Rows tree undo) (state_of self.old) }
    {
        if (tree as usize) < self.trees.len() {
            self.trees[tree as usize].undo(undo);
        }
    }

    /// For each tree its rowid in `sqlite_schema`, type, name, table and SQL text.
    pub(crate) fn objects(&self, alloc: Global) -> Result<Vec<Row>, AllocError>
        ensures { IfOk result (λ rows.
            rows.items ≡ map (take 5) ((snapshot self.now).trees catalog_tree)) }
    {
        let trees = self.trees.as_slice();
        let mut rows = Vec::new(alloc);
        for at in 0..trees.len() {
            let tree = &trees[at];
            if tree.shape != Shape::Absent {
                rows.push(tree.listing(alloc, at)?)?;
            }
        }
        Ok(rows)
    }
}
