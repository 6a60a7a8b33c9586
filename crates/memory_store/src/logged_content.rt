//! Trees that are changed in place, with their undo log.

ghost use Rattle.std.specs.Prelude.{◌≡◌, ◌≢◌, ◌≤◌, ◌++◌, ◌+◌, ◌-◌, [], ◌∷◌};
ghost use Rattle.std.specs.Prelude.{MatchOption, OnErr, OnOk, false};
ghost use Rattle.std.specs.Prelude.{drop, length, pos, slice_index_or, take};
ghost use Rattle.std.specs.List.{AllByRecursion};
ghost use Rattle.sqlite_trees.specs.Objects.{object_row, version_rows, version_tree};
ghost use Rattle.sqlite_trees.specs.Tree.{put_row, without_rowid};
ghost use Rattle.memory_store.specs.ContentStates.{HaveNoSavepoint, IsNewestSavepoint};
ghost use Rattle.memory_store.specs.ContentStates.{IsValidLog, before_all};
ghost use Rattle.memory_store.specs.ContentStates.{shorter, state_of};

use crate::content::Content;
use crate::edit::Edit;
use crate::log_entry::LogEntry;
use crate::tree::StoredTree;
use sqlite_trees::schema::Object;
use sqlite_trees::store::Shape;
use std::alloc::{AllocError, Global};
use std::mem;

/// The content as the transaction sees it, and the undo log, the newest entry last: undone to its
/// start, it gives what was last committed, and to a savepoint what that returns to.
#[derive(Drop)]
pub(crate) struct LoggedContent {
    pub content: Content,
    log: Vec<LogEntry>,
    pub ghost valid: { ∥ IsValidLog log.items (state_of content) ∥₁ },
}

impl LoggedContent {
    ghost use Rattle.memory_store.specs.Content.{HasPlaced, MayList, snapshot, with_edit};
    ghost use Rattle.memory_store.specs.Content.{with_listed, with_object};
    ghost use Rattle.memory_store.specs.Edit.{Fits, edited};
    ghost use Rattle.memory_store.specs.LoggedContents.{Keeps, base, marks};

    /// No tree, and nothing to undo.
    pub(crate) fn new(alloc: Global) -> LoggedContent
        ensures content { result.content.trees.items ≡ [] }
        ensures version { result.content.version ≡ 0 }
        ensures log { result.log.items ≡ [] }
    {
        LoggedContent {
            content: Content {
                trees: Vec::new(alloc),
                version: 0,
            },
            log: Vec::new(alloc),
        }
    }

    /// The edit is made, or on an error nothing is changed.
    pub(crate) fn edit(&mut self, tree: u32, edit: Edit<'_>) -> Result<(), AllocError>
        requires { Fits edit ((snapshot self.old.content).shape tree) }
        ensures ok { OnOk result (snapshot self.new.content
            ≡ with_edit (snapshot self.old.content) tree (edited edit.entry)) }
        ensures err { OnErr result (snapshot self.new.content ≡ snapshot self.old.content) }
        ensures kept { Keeps self.old self.new }
    {
        self.log.reserve(1)?;
        let undo = self.content.edit(tree, edit)?;
        self.log.push_reserved(LogEntry::Rows(tree, undo));
        Ok(())
    }

    // One more number, which names no tree.
    fn grow(&mut self, alloc: Global) -> Result<(), AllocError>
        ensures ok { OnOk result (length self.new.content.trees.items
            ≡ length self.old.content.trees.items + 1) }
        ensures same { snapshot self.new.content ≡ snapshot self.old.content }
        ensures version { self.new.content.version ≡ self.old.content.version }
        ensures kept { Keeps self.old self.new }
    {
        self.log.reserve(1)?;
        self.content.trees.push(StoredTree::absent(alloc))?;
        self.log.push_reserved(LogEntry::SlotAdded);
        Ok(())
    }

    fn place(&mut self, alloc: Global, tree: u32, new: StoredTree) -> Result<(), AllocError>
        ensures ok { OnOk result (HasPlaced self.old.content self.new.content tree new) }
        ensures err { OnErr result (snapshot self.new.content ≡ snapshot self.old.content) }
        ensures kept { Keeps self.old self.new }
    {
        while self.content.trees.len() <= tree as usize {
            self.grow(alloc)?;
        }
        self.log.reserve(1)?;
        let old = self.content.replace(tree, new);
        self.log.push_reserved(LogEntry::Replaced(tree, old));
        Ok(())
    }

    /// Makes the empty tree of an object, or on an error changes nothing.
    pub(crate) fn create(
        &mut self,
        alloc: Global,
        tree: u32,
        object: &Object<'_>,
    ) -> Result<(), AllocError>
        requires { object.now.shape ≢ Shape.Absent }
        ensures ok { OnOk result (snapshot self.new.content
            ≡ with_object (snapshot self.old.content) tree object.now.shape object.now.reals
            (put_row (object_row tree object.now))) }
        ensures err { OnErr result (snapshot self.new.content ≡ snapshot self.old.content) }
        ensures kept { Keeps self.old self.new }
    {
        let new = StoredTree::new(alloc, object)?;
        self.place(alloc, tree, new)
    }

    /// Drops a tree and its rows, or on an error changes nothing.
    pub(crate) fn destroy(&mut self, alloc: Global, tree: u32) -> Result<(), AllocError>
        ensures ok { OnOk result (snapshot self.new.content
            ≡ with_object (snapshot self.old.content) tree Shape.Absent 0
            (without_rowid (pos (tree + 1)))) }
        ensures err { OnErr result (snapshot self.new.content ≡ snapshot self.old.content) }
        ensures kept { Keeps self.old self.new }
    {
        self.place(alloc, tree, StoredTree::absent(alloc))
    }

    /// Lists a tree as this object, or on an error changes nothing.
    pub(crate) fn relist(
        &mut self,
        alloc: Global,
        tree: u32,
        object: &Object<'_>,
    ) -> Result<(), AllocError>
        requires shaped { (snapshot self.old.content).shape tree ≡ object.now.shape }
        requires present { object.now.shape ≢ Shape.Absent }
        ensures ok { OnOk result (snapshot self.new.content
            ≡ with_listed (snapshot self.old.content) ((tree, object.now) ∷ [])) }
        ensures err { OnErr result (snapshot self.new.content ≡ snapshot self.old.content) }
        ensures kept { Keeps self.old self.new }
    {
        let described = object.describe(alloc)?;
        self.log.reserve(1)?;
        let (described, reals) = self.content.relist(tree, described, object.reals);
        self.log
            .push_reserved(LogEntry::Relisted(tree, described, reals));
        Ok(())
    }

    /// Lists trees as these objects, or on an error changes nothing.
    pub(crate) fn relist_all(
        &mut self,
        alloc: Global,
        changes: &[(u32, Object<'_>)],
    ) -> Result<(), AllocError>
        requires { AllByRecursion (MayList (snapshot self.old.content)) changes.now }
        ensures ok { OnOk result
            (snapshot self.new.content ≡ with_listed (snapshot self.old.content) changes.now) }
        ensures err { OnErr result (snapshot self.new.content ≡ snapshot self.old.content) }
        ensures kept { Keeps self.old self.new }
    {
        self.savepoint()?;
        let relisted = self.relist_each(alloc, changes);
        if relisted.is_err() {
            self.rollback_to();
        }
        self.release();
        relisted
    }

    // Lists each of the trees; on an error some may be listed.
    fn relist_each(
        &mut self,
        alloc: Global,
        changes: &[(u32, Object<'_>)],
    ) -> Result<(), AllocError>
        requires { AllByRecursion (MayList (snapshot self.old.content)) changes.now }
        ensures ok { OnOk result
            (snapshot self.new.content ≡ with_listed (snapshot self.old.content) changes.now) }
        ensures kept { Keeps self.old self.new }
    {
        for (tree, object) in changes {
            self.relist(alloc, *tree, object)?;
        }
        Ok(())
    }

    /// Sets the version, or on an error changes nothing.
    pub(crate) fn set_version(&mut self, version: u32) -> Result<(), AllocError>
        ensures ok { OnOk result (snapshot self.new.content
            ≡ with_edit (snapshot self.old.content) version_tree (λ _. version_rows version)) }
        ensures err { OnErr result (snapshot self.new.content ≡ snapshot self.old.content) }
        ensures kept { Keeps self.old self.new }
    {
        self.log.reserve(1)?;
        let old = mem::replace(&mut self.content.version, version);
        self.log.push_reserved(LogEntry::Version(old));
        Ok(())
    }

    /// Marks a savepoint.
    pub(crate) fn savepoint(&mut self) -> Result<(), AllocError>
        ensures ok { OnOk result
            (marks self.new ≡ marks self.old ++ snapshot self.old.content ∷ []) }
        ensures err { OnErr result (marks self.new ≡ marks self.old) }
        ensures content { self.new.content ≡ self.old.content }
        ensures base { base self.new ≡ base self.old }
    {
        self.log.reserve(1)?;
        self.log.push_reserved(LogEntry::Savepoint);
        Ok(())
    }

    // The place of the newest savepoint.
    fn newest_savepoint(&self) -> Option<usize>
        ensures { MatchOption result (HaveNoSavepoint self.now.log.items)
            (IsNewestSavepoint self.now.log.items) }
    {
        let log = self.log.as_slice();
        let mut at = log.len();
        while at > 0 {
            at -= 1;
            if log[at].is_savepoint() {
                return Some(at);
            }
        }
        None
    }

    /// Drops the newest savepoint, if there is one, and keeps what was changed since.
    pub(crate) fn release(&mut self)
        ensures marks { marks self.new ≡ take (length (marks self.old) - 1) (marks self.old) }
        ensures content { self.new.content ≡ self.old.content }
        ensures base { base self.new ≡ base self.old }
    {
        if let Some(at) = self.newest_savepoint() {
            self.log[at] = LogEntry::Released;
        }
    }

    // Undoes the newest entry, if there is one.
    fn undo_last(&mut self)
        ensures log { self.new.log.items ≡ shorter self.old.log.items }
        ensures state { state_of self.new.content
            ≡ before_all (drop (length self.old.log.items - 1) self.old.log.items)
            (state_of self.old.content) }
    {
        if let Some(undo) = self.log.pop() {
            self.content.undo(undo);
        }
    }

    // Undoes entries until `count` are left.
    fn undo_to(&mut self, count: usize)
        requires { count ≤ length self.old.log.items }
        ensures log { self.new.log.items ≡ take count self.old.log.items }
        ensures state { state_of self.new.content
            ≡ before_all (drop count self.old.log.items) (state_of self.old.content) }
    {
        while self.log.len() > count {
            self.undo_last();
        }
    }

    /// Returns to the newest savepoint, which stays, or answers false if there is none.
    pub(crate) fn rollback_to(&mut self) -> bool
        ensures none { marks self.old ≡ [] → result ≡ false }
        ensures same { result ≡ false → self.new ≡ self.old }
        ensures back { snapshot self.new.content
            ≡ slice_index_or (marks self.old) (length (marks self.old) - 1)
            (snapshot self.old.content) }
        ensures kept { Keeps self.old self.new }
    {
        let Some(at) = self.newest_savepoint() else {
            return false;
        };
        self.undo_to(at + 1);
        true
    }

    /// Returns to the last commit.
    pub(crate) fn rollback(&mut self)
        ensures content { state_of self.new.content ≡ base self.old }
        ensures log { self.new.log.items ≡ [] }
    {
        self.undo_to(0);
    }

    /// Commits: there is nothing to undo any more.
    pub(crate) fn commit(&mut self)
        ensures content { self.new.content ≡ self.old.content }
        ensures log { self.new.log.items ≡ [] }
    {
        self.log.clear();
    }
}
