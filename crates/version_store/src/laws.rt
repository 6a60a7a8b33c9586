//! Laws of the store's contents, and of the premise of its clauses. Each function does nothing: its
//! contract is the law, whose statement is in `specs/`.

ghost use Rattle.version_store.specs.Laws.{OthersStay, PlansLeaveOtherTables};
ghost use Rattle.version_store.specs.StoreState.{MemoryIsUsable};

/// A store in memory is always usable, so what the store's clauses say of usable connections holds
/// after each call over one.
pub fn kit_memory_is_usable()
    ensures { MemoryIsUsable }
{}

/// A plan of a table leaves the versions of every other table.
pub fn plans_leave_other_tables()
    ensures { PlansLeaveOtherTables }
{}

/// Versions stay that are not among the rows that end.
pub fn others_stay()
    ensures { OthersStay }
{}
