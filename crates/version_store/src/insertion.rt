//! Rows that a plan adds. A row that ended as it began has to be removed: if a row is added at
//! its place it becomes that row, which saves a removal and an insertion.

ghost use Rattle.std.specs.Prelude.{◌≡◌, ◌∷◌, [], length, map, OnOk};
ghost use Rattle.std.specs.List.{AllByRecursion};
ghost use Rattle.period_core.specs.Encoding.{encoded};
ghost use Rattle.period_core.specs.Moments.{forever};
ghost use Rattle.version_tables.specs.Healthy.{CanAdd, IsShort};
ghost use Rattle.version_tables.specs.Keeping.{LeavesOthers};
ghost use Rattle.version_tables.specs.Represents.{added, all_added, new_version, removed};
ghost use Rattle.version_tables.specs.Steps.{ChangesRecords, CommitsNothing, StaysHealthy};
ghost use Rattle.version_store.specs.Changed.{added_at};
ghost use Rattle.version_store.specs.DistinctKeys.{HaveDistinctKeys};
ghost use Rattle.version_store.specs.PendingRemovals.{CarriesExcept, IsCausedExcept};
ghost use Rattle.version_store.specs.PendingRemovals.{StaysHealthyExcept, key_at};
ghost use Rattle.version_store.specs.Steps.{ChangeIsCaused};

use crate::fault::StoreFault;
use crate::written_rows::{new_row, new_rows};
use period_core::{Moment, PeriodRow};
use sqlite::Transaction;
use sqlite_trees::store::Alter;
use std::alloc::Global;
use std::collections::BTreeSet;
use std::slice;
use version_tables::{NewRow, VersionKey, insert_versions, move_ends};

/// Inserts rows into a table at a moment.
fn insert_rows<S: Alter>(
    alloc: Global,
    transaction: &mut Transaction<'_, S>,
    table: u8,
    moment: Moment,
    new: &[NewRow],
) -> Result<(), StoreFault>
    ensures same_reference { transaction.new.conn.ghost_name ≡ transaction.old.conn.ghost_name }
    ensures made { ChangesRecords S.Store transaction.old.conn.now transaction.new.conn.now result
        (all_added (map (new_version table moment forever) new.now)) }
    ensures others { OnOk result
        (LeavesOthers S.Store transaction.old.conn.now transaction.new.conn.now) }
    ensures inside { CommitsNothing S.Store transaction.old.conn.now transaction.new.conn.now }
    ensures why { ChangeIsCaused S.Store transaction.old.conn.now transaction.new.conn.now result
        (length new.now) (CanAdd (map (new_version table moment forever) new.now)) }
    ensures healthy { StaysHealthy S.Store transaction.old.conn.now transaction.new.conn.now result
        (length new.now) (λ _. Unit {0}) }
{
    let until = Moment::forever().number();
    insert_versions(
        alloc,
        transaction,
        u32::from(table),
        moment.number(),
        until,
        new,
    )?;
    Ok(())
}

/// Inserts a row into a table at a moment.
fn insert_row<S: Alter>(
    alloc: Global,
    transaction: &mut Transaction<'_, S>,
    table: u8,
    moment: Moment,
    new: &NewRow,
) -> Result<(), StoreFault>
    ensures same_reference { transaction.new.conn.ghost_name ≡ transaction.old.conn.ghost_name }
    ensures made { ChangesRecords S.Store transaction.old.conn.now transaction.new.conn.now result
        (added (new_version table moment forever new.now)) }
    ensures others { OnOk result
        (LeavesOthers S.Store transaction.old.conn.now transaction.new.conn.now) }
    ensures inside { CommitsNothing S.Store transaction.old.conn.now transaction.new.conn.now }
    ensures why { ChangeIsCaused S.Store transaction.old.conn.now transaction.new.conn.now result
        1 (CanAdd (new_version table moment forever new.now ∷ [])) }
    ensures healthy { StaysHealthy S.Store transaction.old.conn.now transaction.new.conn.now result
        1 (λ _. Unit {0}) }
{
    insert_rows(alloc, transaction, table, moment, slice::from_ref(new))
}

/// Puts a new row in the place of the version that began at the moment, if there is one.
fn replace_row<S: Alter>(
    alloc: Global,
    transaction: &mut Transaction<'_, S>,
    table: u8,
    moment: Moment,
    new: &NewRow,
) -> Result<(), StoreFault>
    ensures same_reference { transaction.new.conn.ghost_name ≡ transaction.old.conn.ghost_name }
    ensures made { ChangesRecords S.Store transaction.old.conn.now transaction.new.conn.now result
        (λ records. added (new_version table moment forever new.now)
        (removed (key_at table moment new.now.key) records)) }
    ensures others { OnOk result
        (LeavesOthers S.Store transaction.old.conn.now transaction.new.conn.now) }
    ensures inside { CommitsNothing S.Store transaction.old.conn.now transaction.new.conn.now }
    ensures why { ChangeIsCaused S.Store transaction.old.conn.now transaction.new.conn.now result
        1 (λ _. IsShort new.now.key.values.items) }
    ensures healthy { StaysHealthy S.Store transaction.old.conn.now transaction.new.conn.now result
        1 (λ _. Unit {0}) }
{
    let to = Moment::forever().number();
    let replaced = move_ends(
        transaction,
        u32::from(table),
        new.key.values.as_slice(),
        new.key.start,
        moment.number(),
        new.end,
        to,
    )?;
    match replaced {
        0 => insert_row(alloc, transaction, table, moment, new),
        1 => Ok(()),
        _ => Err(StoreFault::Database),
    }
}

/// Adds a row to a table at a moment. If one that has to be removed has its place, it takes
/// that.
fn add_row<S: Alter>(
    alloc: Global,
    transaction: &mut Transaction<'_, S>,
    table: u8,
    moment: Moment,
    row: &PeriodRow,
    pending: &mut BTreeSet<VersionKey>,
) -> Result<(), StoreFault>
    ensures same_reference { transaction.new.conn.ghost_name ≡ transaction.old.conn.ghost_name }
    ensures made { CarriesExcept S.Store transaction.old.conn.now transaction.new.conn.now result
        table moment pending.old.keys pending.new.keys (added_at table moment (row.now ∷ [])) }
    ensures others { OnOk result
        (LeavesOthers S.Store transaction.old.conn.now transaction.new.conn.now) }
    ensures inside { CommitsNothing S.Store transaction.old.conn.now transaction.new.conn.now }
    ensures why { IsCausedExcept S.Store transaction.old.conn.now transaction.new.conn.now result
        table moment pending.old.keys 1 (λ c. IsShort (encoded row.now.values)
        × HaveDistinctKeys (added_at table moment (row.now ∷ []) c).versions) }
    ensures healthy { StaysHealthyExcept S.Store transaction.old.conn.now
        transaction.new.conn.now result table moment pending.old.keys 1 }
{
    let new = new_row(alloc, row)?;
    if pending.remove(&new.key) {
        return replace_row(alloc, transaction, table, moment, &new);
    }
    insert_row(alloc, transaction, table, moment, &new)
}

/// Adds rows to a table at a moment. They take the places of rows that have to be removed. If
/// none has, they are inserted together.
pub(crate) fn add_rows<S: Alter>(
    alloc: Global,
    transaction: &mut Transaction<'_, S>,
    table: u8,
    moment: Moment,
    rows: &[PeriodRow],
    pending: &mut BTreeSet<VersionKey>,
) -> Result<(), StoreFault>
    ensures same_reference { transaction.new.conn.ghost_name ≡ transaction.old.conn.ghost_name }
    ensures made { CarriesExcept S.Store transaction.old.conn.now transaction.new.conn.now result
        table moment pending.old.keys pending.new.keys (added_at table moment rows.now) }
    ensures others { OnOk result
        (LeavesOthers S.Store transaction.old.conn.now transaction.new.conn.now) }
    ensures inside { CommitsNothing S.Store transaction.old.conn.now transaction.new.conn.now }
    ensures why { IsCausedExcept S.Store transaction.old.conn.now transaction.new.conn.now result
        table moment pending.old.keys (length rows.now)
        (λ c. AllByRecursion (λ row. IsShort (encoded row.values)) rows.now
        × HaveDistinctKeys (added_at table moment rows.now c).versions) }
    ensures healthy { StaysHealthyExcept S.Store transaction.old.conn.now
        transaction.new.conn.now result table moment pending.old.keys (length rows.now) }
{
    if pending.is_empty() {
        let new = new_rows(alloc, rows)?;
        return insert_rows(alloc, transaction, table, moment, new.as_slice());
    }
    for row in rows {
        add_row(alloc, transaction, table, moment, row, pending)?;
    }
    Ok(())
}
