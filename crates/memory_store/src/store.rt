//! The store: what the transaction sees and what undoes it, and the cursors.

ghost use Rattle.std.specs.Prelude.{◌==◌, ◌≡◌, [], OnErr, OnOk, if◌then◌else◌, refl};
ghost use Rattle.std.specs.Prelude.{slice_index_or, ℕ};
ghost use Rattle.std.proofs.Common.{true≢false};
ghost use Rattle.sqlite_trees.specs.Objects.{catalog_tree};

use crate::content::Content;
use crate::edit::Edit;
use crate::logged_content::LoggedContent;
use ordered_rows::RowCursor;
use sqlite_trees::error::StoreError;
use sqlite_trees::schema::Object;
use sqlite_trees::store::{Alter, Direction, Shape, Store};
use sqlite_trees::typed::is_typed;
use sqlite_value::row::Row;
use std::alloc::{AllocError, Global};

/// A cursor in the tree with this number.
#[derive(Clone, Copy)]
pub(crate) struct Cursor {
    tree: u32,
    place: RowCursor,
}

/// A store in memory, never broken and never shut. Contracts see `memory_view` of it.
#[derive(Drop)]
pub struct MemoryStore {
    alloc: Global,
    logged: LoggedContent,
    cursors: Vec<Option<Cursor>>,
}

impl MemoryStore {
    ghost use Rattle.sqlite_trees.specs.View.{SetsTree};
    ghost use Rattle.memory_store.specs.Content.{snapshot, with_listed};
    ghost use Rattle.memory_store.specs.Edit.{Fits, edited};
    ghost use Rattle.memory_store.specs.LoggedContents.{Keeps};
    ghost use Rattle.memory_store.specs.Memory.{memory_view};

    /// A store with no tree.
    pub fn new(alloc: Global) -> MemoryStore
        ensures empty { (memory_view result).trees catalog_tree ≡ [] }
        ensures committed { (memory_view result).trees ≡ (memory_view result).committed }
        ensures unmarked { (memory_view result).marks ≡ [] }
    {
        MemoryStore {
            alloc,
            logged: LoggedContent::new(alloc),
            cursors: Vec::new(alloc),
        }
    }

    fn content(&self) -> &Content
        ensures { result.now ≡ self.now.logged.content }
    {
        &self.logged.content
    }

    fn write(&mut self, tree: u32, edit: Edit<'_>) -> Result<(), AllocError>
        requires { Fits edit ((memory_view self.old).shape tree) }
        ensures ok { OnOk result
            (SetsTree (memory_view self.old) (memory_view self.new) tree (edited edit.entry)) }
        ensures err { OnErr result (memory_view self.new
            ≡ record (memory_view self.old) { cursors = (memory_view self.new).cursors }) }
    {
        self.cursors.clear();
        self.logged.edit(tree, edit)
    }

    fn set_cursor(
        cursors: &mut Vec<Option<Cursor>>,
        at: usize,
        cursor: Cursor,
    ) -> Result<(), AllocError>
        ensures ok { OnOk result ((c : ℕ) → slice_index_or cursors.new.items c None
            ≡ (if c == at then Some cursor else slice_index_or cursors.old.items c None)) }
        ensures err { OnErr result ((c : ℕ) → slice_index_or cursors.new.items c None
            ≡ slice_index_or cursors.old.items c None) }
    {
        while cursors.len() <= at {
            cursors.push(None)?;
        }
        cursors[at] = Some(cursor);
        Ok(())
    }
}

impl Store for MemoryStore {
    ghost use Rattle.memory_store.specs.Laws.{memory_is_ordered, memory_is_unaltered};
    ghost use Rattle.memory_store.specs.Memory.{memory_view};

    ghost view = { memory_view };

    ghost faults = { λ _. 0 };

    ghost recovers = { λ s db. db ≡ (memory_view s).committed };

    ghost is_shielded = { λ _. Unit {0} };

    ghost is_step = { λ _ _ _. Unit {0} };

    ghost ordered = { λ s _. memory_is_ordered s };

    ghost shut_if_dirty = { λ _ dirty. absurd (true≢false dirty) };

    ghost empty_if_dirty = { λ _ dirty. absurd (true≢false dirty) };

    ghost broken_if_shut = { λ _ shut. absurd (true≢false shut) };

    ghost settled = { λ _ _ _ same. same };

    ghost stays = { λ _ _. refl };

    ghost survives = { λ _ _. ∣ (_, refl) ∣₁ };

    ghost unaltered = { λ s _. memory_is_unaltered s };

    fn is_broken(&self) -> bool {
        false
    }

    fn shape(&self, tree: u32) -> Shape {
        self.content().shape(tree)
    }

    fn tree_count(&self) -> u64 {
        self.content().count()
    }

    fn reals(&self, tree: u32) -> u64 {
        self.content().reals(tree)
    }

    fn seek(
        &mut self,
        cursor: u16,
        tree: u32,
        key: &Row,
        direction: Direction,
    ) -> Result<(), StoreError> {
        let place = self.content().seek(self.alloc, tree, key, direction)?;
        let found = Cursor { tree, place };
        Ok(Self::set_cursor(&mut self.cursors, usize::from(cursor), found)?)
    }

    fn next(&mut self, cursor: u16, row: &mut Row) -> Result<bool, StoreError> {
        match &mut self.cursors[usize::from(cursor)] {
            Some(found) => Ok(self.logged.content.next(found.tree, &mut found.place, row)?),
            None => Ok(false),
        }
    }

    fn get(&mut self, table: u32, id: i64, row: &mut Row) -> Result<bool, StoreError> {
        Ok(self.content().get(table, id, row)?)
    }

    fn put(&mut self, table: u32, row: &Row) -> Result<(), StoreError> {
        if row.len() < 2 || !is_typed(row, self.reals(table)) {
            return Err(StoreError::Unstorable);
        }
        Ok(self.write(table, Edit::Put(row))?)
    }

    fn delete(&mut self, table: u32, id: i64) -> Result<(), StoreError> {
        Ok(self.write(table, Edit::Delete(id))?)
    }

    fn insert(&mut self, index: u32, entry: &Row) -> Result<(), StoreError> {
        if !is_typed(entry, self.reals(index)) {
            return Err(StoreError::Unstorable);
        }
        let order = self.shape(index).order();
        Ok(self.write(index, Edit::Insert(order, entry))?)
    }

    fn remove(&mut self, index: u32, entry: &Row) -> Result<(), StoreError> {
        let order = self.shape(index).order();
        Ok(self.write(index, Edit::Remove(order, entry))?)
    }

    fn commit(&mut self) -> Result<(), StoreError> {
        self.logged.commit();
        Ok(())
    }

    fn rollback(&mut self) {
        self.logged.rollback();
        self.cursors.clear();
    }

    fn savepoint(&mut self) -> Result<(), StoreError> {
        Ok(self.logged.savepoint()?)
    }

    fn release(&mut self) -> Result<(), StoreError> {
        self.logged.release();
        Ok(())
    }

    fn rollback_to(&mut self) -> Result<(), StoreError> {
        if self.logged.rollback_to() {
            self.cursors.clear();
        }
        Ok(())
    }
}

impl Alter for MemoryStore {
    ghost use Rattle.memory_store.specs.Laws.{memory_is_listed};

    ghost listed = { λ s _. memory_is_listed s };

    fn objects(&self, alloc: Global) -> Result<Vec<Row>, AllocError> {
        self.content().objects(alloc)
    }

    fn create(&mut self, tree: u32, object: &Object<'_>) -> Result<(), StoreError> {
        self.cursors.clear();
        Ok(self.logged.create(self.alloc, tree, object)?)
    }

    fn destroy(&mut self, tree: u32) -> Result<(), StoreError> {
        self.cursors.clear();
        Ok(self.logged.destroy(self.alloc, tree)?)
    }

    fn relist(&mut self, changes: &[(u32, Object<'_>)]) -> Result<(), StoreError> {
        self.cursors.clear();
        Ok(self.logged.relist_all(self.alloc, changes)?)
    }

    fn version(&self) -> u32 {
        self.content().version
    }

    fn set_version(&mut self, version: u32) -> Result<(), StoreError> {
        self.cursors.clear();
        Ok(self.logged.set_version(version)?)
    }
}
