//! A plan, step by step inside a transaction: rows end, new ones are added, and last those are
//! removed that ended as they began, if none was added with their key.

ghost use Rattle.std.specs.Prelude.{◌≡◌, ◌∷◌, [], length, OnOk};
ghost use Rattle.std.specs.List.{AllByRecursion};
ghost use Rattle.period_core.specs.Encoding.{encoded};
ghost use Rattle.version_tables.specs.Healthy.{IsShort};
ghost use Rattle.version_tables.specs.Keeping.{LeavesOthers};
ghost use Rattle.version_tables.specs.Represents.{removed};
ghost use Rattle.version_tables.specs.Steps.{ChangesRecords, CommitsNothing, StaysHealthy};
ghost use Rattle.version_store.specs.Changed.{CanMake, ended_at, planned};
ghost use Rattle.version_store.specs.PendingRemovals.{CarriesExcept, IsCausedExcept};
ghost use Rattle.version_store.specs.PendingRemovals.{StaysHealthyExcept, key_at};
ghost use Rattle.version_store.specs.Runs.{CarriesSound};
ghost use Rattle.version_store.specs.Steps.{CarriesIfSound, ChangeIsCaused, PlanIsCaused};
ghost use Rattle.version_store.specs.Steps.{PlanStaysHealthy};

use crate::fault::StoreFault;
use crate::insertion::add_rows;
use crate::runs::end_runs;
use crate::written_rows::version_key_of;
use catalog_core::Plan;
use period_core::{Moment, VersionRow};
use sqlite::Transaction;
use sqlite_trees::store::Alter;
use std::alloc::Global;
use std::collections::BTreeSet;
use version_tables::{VersionKey, end_version, remove_version};

/// Ends a row of a table at a moment. If it began then, it has to be removed.
fn end_row<S: Alter>(
    alloc: Global,
    transaction: &mut Transaction<'_, S>,
    table: u8,
    moment: Moment,
    row: &VersionRow,
    pending: &mut BTreeSet<VersionKey>,
) -> Result<(), StoreFault>
    ensures same_reference { transaction.new.conn.ghost_name ≡ transaction.old.conn.ghost_name }
    ensures made { CarriesExcept S.Store transaction.old.conn.now transaction.new.conn.now result
        table moment pending.old.keys pending.new.keys (ended_at table moment (row.now ∷ [])) }
    ensures others { OnOk result
        (LeavesOthers S.Store transaction.old.conn.now transaction.new.conn.now) }
    ensures inside { CommitsNothing S.Store transaction.old.conn.now transaction.new.conn.now }
    ensures why { IsCausedExcept S.Store transaction.old.conn.now transaction.new.conn.now result
        table moment pending.old.keys 0 (λ _. IsShort (encoded row.now.values)) }
    ensures healthy { StaysHealthyExcept S.Store transaction.old.conn.now
        transaction.new.conn.now result table moment pending.old.keys 0 }
{
    let key = version_key_of(alloc, &row.values, row.period)?;
    let from = row.from.number();
    if from == moment.number() {
        pending.insert(key)?;
        return Ok(());
    }
    end_version(
        transaction,
        u32::from(table),
        key.values.as_slice(),
        key.start,
        from,
        moment.number(),
    )?;
    Ok(())
}

/// Ends rows of a table at a moment, one after another. Those that began then have to be removed.
fn end_each<S: Alter>(
    alloc: Global,
    transaction: &mut Transaction<'_, S>,
    table: u8,
    moment: Moment,
    rows: &[VersionRow],
    pending: &mut BTreeSet<VersionKey>,
) -> Result<(), StoreFault>
    ensures same_reference { transaction.new.conn.ghost_name ≡ transaction.old.conn.ghost_name }
    ensures made { CarriesExcept S.Store transaction.old.conn.now transaction.new.conn.now result
        table moment pending.old.keys pending.new.keys (ended_at table moment rows.now) }
    ensures others { OnOk result
        (LeavesOthers S.Store transaction.old.conn.now transaction.new.conn.now) }
    ensures inside { CommitsNothing S.Store transaction.old.conn.now transaction.new.conn.now }
    ensures why { IsCausedExcept S.Store transaction.old.conn.now transaction.new.conn.now result
        table moment pending.old.keys 0
        (λ _. AllByRecursion (λ row. IsShort (encoded row.values)) rows.now) }
    ensures healthy { StaysHealthyExcept S.Store transaction.old.conn.now
        transaction.new.conn.now result table moment pending.old.keys 0 }
{
    for row in rows {
        end_row(alloc, transaction, table, moment, row, pending)?;
    }
    Ok(())
}

/// Ends rows of a table at a moment, the first of them together if they are stored together. Those
/// that began then have to be removed.
fn end_rows<S: Alter>(
    alloc: Global,
    transaction: &mut Transaction<'_, S>,
    table: u8,
    moment: Moment,
    rows: &[VersionRow],
    pending: &mut BTreeSet<VersionKey>,
) -> Result<(), StoreFault>
    ensures same_reference { transaction.new.conn.ghost_name ≡ transaction.old.conn.ghost_name }
    ensures made { CarriesSound S.Store transaction.old.conn.now transaction.new.conn.now result
        table moment pending.old.keys pending.new.keys (ended_at table moment rows.now) }
    ensures others { OnOk result
        (LeavesOthers S.Store transaction.old.conn.now transaction.new.conn.now) }
    ensures inside { CommitsNothing S.Store transaction.old.conn.now transaction.new.conn.now }
    ensures why { IsCausedExcept S.Store transaction.old.conn.now transaction.new.conn.now result
        table moment pending.old.keys 0
        (λ _. AllByRecursion (λ row. IsShort (encoded row.values)) rows.now) }
    ensures healthy { StaysHealthyExcept S.Store transaction.old.conn.now
        transaction.new.conn.now result table moment pending.old.keys 0 }
{
    let done = end_runs(alloc, transaction, table, moment, rows)?;
    end_each(alloc, transaction, table, moment, &rows[done..], pending)
}

/// Removes the version of a table that began at the moment and has this key, if there is one.
fn remove_row<S: Alter>(
    transaction: &mut Transaction<'_, S>,
    table: u8,
    moment: Moment,
    key: &VersionKey,
) -> Result<(), StoreFault>
    ensures same_reference { transaction.new.conn.ghost_name ≡ transaction.old.conn.ghost_name }
    ensures made { ChangesRecords S.Store transaction.old.conn.now transaction.new.conn.now result
        (removed (key_at table moment key.now)) }
    ensures others { OnOk result
        (LeavesOthers S.Store transaction.old.conn.now transaction.new.conn.now) }
    ensures inside { CommitsNothing S.Store transaction.old.conn.now transaction.new.conn.now }
    ensures why { ChangeIsCaused S.Store transaction.old.conn.now transaction.new.conn.now result
        0 (λ _. Unit {0}) }
    ensures healthy { StaysHealthy S.Store transaction.old.conn.now transaction.new.conn.now result
        0 (λ _. Unit {0}) }
{
    remove_version(
        transaction,
        u32::from(table),
        key.values.as_slice(),
        key.start,
        moment.number(),
    )?;
    Ok(())
}

/// Removes those that still have to be removed.
fn remove_rows<S: Alter>(
    transaction: &mut Transaction<'_, S>,
    table: u8,
    moment: Moment,
    pending: &mut BTreeSet<VersionKey>,
) -> Result<(), StoreFault>
    ensures same_reference { transaction.new.conn.ghost_name ≡ transaction.old.conn.ghost_name }
    ensures made { CarriesExcept S.Store transaction.old.conn.now transaction.new.conn.now result
        table moment pending.old.keys [] (λ c. c) }
    ensures others { OnOk result
        (LeavesOthers S.Store transaction.old.conn.now transaction.new.conn.now) }
    ensures inside { CommitsNothing S.Store transaction.old.conn.now transaction.new.conn.now }
    ensures why { IsCausedExcept S.Store transaction.old.conn.now transaction.new.conn.now result
        table moment pending.old.keys 0 (λ _. Unit {0}) }
    ensures healthy { StaysHealthyExcept S.Store transaction.old.conn.now
        transaction.new.conn.now result table moment pending.old.keys 0 }
{
    'removals: while let Some(key) = pending.pop_first() {
        remove_row(transaction, table, moment, &key)?;
    }
    Ok(())
}

/// Makes what a plan says of a table at a moment.
pub(crate) fn put_plan<S: Alter>(
    alloc: Global,
    transaction: &mut Transaction<'_, S>,
    table: u8,
    moment: Moment,
    plan: &Plan,
) -> Result<(), StoreFault>
    ensures same_reference { transaction.new.conn.ghost_name ≡ transaction.old.conn.ghost_name }
    ensures made { CarriesIfSound S.Store transaction.old.conn.now transaction.new.conn.now result
        (planned table moment plan.now.ended plan.now.added) }
    ensures others { OnOk result
        (LeavesOthers S.Store transaction.old.conn.now transaction.new.conn.now) }
    ensures inside { CommitsNothing S.Store transaction.old.conn.now transaction.new.conn.now }
    ensures why { PlanIsCaused S.Store transaction.old.conn.now transaction.new.conn.now result
        (length plan.now.added) (CanMake table moment plan.now.ended plan.now.added) }
    ensures healthy { PlanStaysHealthy S.Store transaction.old.conn.now
        transaction.new.conn.now result (length plan.now.added) }
{
    let mut pending = BTreeSet::new(alloc);
    end_rows(
        alloc,
        transaction,
        table,
        moment,
        plan.ended.as_slice(),
        &mut pending,
    )?;
    add_rows(
        alloc,
        transaction,
        table,
        moment,
        plan.added.as_slice(),
        &mut pending,
    )?;
    remove_rows(transaction, table, moment, &mut pending)
}
