//! The changes: inside a transaction, and each whole in one of its own.

ghost use Rattle.std.specs.Prelude.{◌≡◌, ◌+◌, false, length, OnOk};
ghost use Rattle.version_tables.specs.Keeping.{LeavesOthers};
ghost use Rattle.version_tables.specs.Moves.{AreInSeconds, IsInSeconds, moved};
ghost use Rattle.version_tables.specs.Represents.{with_definition};
ghost use Rattle.version_store.specs.Changed.{CanMake, planned, with_clock};
ghost use Rattle.version_store.specs.StoreState.{IsUsable, StaysOnErr};
ghost use Rattle.version_store.specs.Steps.{Carries, ChangeIsCaused, CommitIsCaused, Commits};
ghost use Rattle.version_store.specs.Steps.{CommitsIfSound};
ghost use Rattle.version_store.specs.Steps.{CommitOfIsCaused, CommitsHealthy};
ghost use Rattle.version_store.specs.Steps.{CommitsHealthyWhere, CommitsWhere};
ghost use Rattle.version_tables.specs.Healthy.{AreShort, IsShort};
ghost use Rattle.version_tables.specs.Steps.{CommitsNothing, ChangesWhere, StaysHealthy};

use crate::fault::StoreFault;
use crate::plans::put_plan;
use catalog_core::Plan;
use period_core::Moment;
use sqlite::{Connection, Transaction};
use sqlite_trees::store::Alter;
use std::alloc::Global;
use version_tables::{insert_definition, move_to_microseconds, set_clock};

/// Makes what a plan says in one transaction, or nothing of it.
pub(crate) fn write_plan<S: Alter>(
    alloc: Global,
    connection: &mut Connection<S>,
    table: u8,
    moment: Moment,
    plan: &Plan,
) -> Result<(), StoreFault>
    requires { connection.old.in_transaction ≡ false }
    ensures made { CommitsIfSound S.Store connection.old connection.new result
        (planned table moment plan.now.ended plan.now.added) }
    ensures others { OnOk result (LeavesOthers S.Store connection.old connection.new) }
    ensures none { StaysOnErr S.Store connection.old connection.new result }
    ensures usable { IsUsable S.Store connection.new → IsUsable S.Store connection.old }
    ensures mode { connection.new.in_transaction ≡ false }
    ensures why { CommitOfIsCaused S.Store connection.old connection.new result
        (length plan.now.added) (CanMake table moment plan.now.ended plan.now.added) }
    ensures healthy { CommitsHealthy S.Store connection.old connection.new result
        (length plan.now.added) }
{
    // For the proof alone: whether a transaction is open is known by this call.
    let _settled = connection.is_autocommit();
    let mut transaction = connection.transaction();
    put_plan(alloc, &mut transaction, table, moment, plan)?;
    transaction.commit()?;
    Ok(())
}

/// Adds the bytes of the definition that follows the last one.
fn put_table<S: Alter>(
    transaction: &mut Transaction<'_, S>,
    number: u32,
    definition: &[u8],
) -> Result<(), StoreFault>
    ensures same_reference { transaction.new.conn.ghost_name ≡ transaction.old.conn.ghost_name }
    ensures made { ChangesWhere S.Store transaction.old.conn.now transaction.new.conn.now result
        (λ records. number ≡ length records.tables + 1) (with_definition definition.now) }
    ensures others { OnOk result
        (LeavesOthers S.Store transaction.old.conn.now transaction.new.conn.now) }
    ensures inside { CommitsNothing S.Store transaction.old.conn.now transaction.new.conn.now }
    ensures why { ChangeIsCaused S.Store transaction.old.conn.now transaction.new.conn.now
        result 0 (λ records. (number ≡ length records.tables + 1) × IsShort definition.now) }
    ensures healthy { StaysHealthy S.Store transaction.old.conn.now transaction.new.conn.now
        result 0 (λ _. Unit {0}) }
{
    insert_definition(transaction, number, definition)?;
    Ok(())
}

/// Sets the clock.
fn put_clock<S: Alter>(
    transaction: &mut Transaction<'_, S>,
    moment: Moment,
) -> Result<(), StoreFault>
    ensures same_reference { transaction.new.conn.ghost_name ≡ transaction.old.conn.ghost_name }
    ensures made { Carries S.Store transaction.old.conn.now transaction.new.conn.now result
        (with_clock moment) }
    ensures others { OnOk result
        (LeavesOthers S.Store transaction.old.conn.now transaction.new.conn.now) }
    ensures inside { CommitsNothing S.Store transaction.old.conn.now transaction.new.conn.now }
    ensures why { ChangeIsCaused S.Store transaction.old.conn.now transaction.new.conn.now
        result 0 (λ _. Unit {0}) }
    ensures healthy { StaysHealthy S.Store transaction.old.conn.now transaction.new.conn.now
        result 0 (λ _. Unit {0}) }
{
    set_clock(transaction, moment.number())?;
    Ok(())
}

/// Adds the bytes of the definition that follows the last one in one transaction, or nothing.
pub(crate) fn write_table<S: Alter>(
    connection: &mut Connection<S>,
    number: u32,
    definition: &[u8],
) -> Result<(), StoreFault>
    requires { connection.old.in_transaction ≡ false }
    ensures made { CommitsWhere S.Store connection.old connection.new result
        (λ records. number ≡ length records.tables + 1) (with_definition definition.now) }
    ensures others { OnOk result (LeavesOthers S.Store connection.old connection.new) }
    ensures none { StaysOnErr S.Store connection.old connection.new result }
    ensures usable { IsUsable S.Store connection.new → IsUsable S.Store connection.old }
    ensures mode { connection.new.in_transaction ≡ false }
    ensures why { CommitIsCaused S.Store connection.old connection.new result 0
        (λ records. (number ≡ length records.tables + 1) × IsShort definition.now) }
    ensures healthy { CommitsHealthy S.Store connection.old connection.new result 0 }
{
    // For the proof alone: whether a transaction is open is known by this call.
    let _settled = connection.is_autocommit();
    let mut transaction = connection.transaction();
    put_table(&mut transaction, number, definition)?;
    transaction.commit()?;
    Ok(())
}

/// Sets the clock in one transaction, or not at all.
pub(crate) fn write_clock<S: Alter>(
    connection: &mut Connection<S>,
    moment: Moment,
) -> Result<(), StoreFault>
    requires { connection.old.in_transaction ≡ false }
    ensures made { Commits S.Store connection.old connection.new result (with_clock moment) }
    ensures others { OnOk result (LeavesOthers S.Store connection.old connection.new) }
    ensures none { StaysOnErr S.Store connection.old connection.new result }
    ensures usable { IsUsable S.Store connection.new → IsUsable S.Store connection.old }
    ensures mode { connection.new.in_transaction ≡ false }
    ensures why { CommitIsCaused S.Store connection.old connection.new result 0 (λ _. Unit {0}) }
    ensures healthy { CommitsHealthy S.Store connection.old connection.new result 0 }
{
    // For the proof alone: whether a transaction is open is known by this call.
    let _settled = connection.is_autocommit();
    let mut transaction = connection.transaction();
    put_clock(&mut transaction, moment)?;
    transaction.commit()?;
    Ok(())
}

/// Counts the moments in microseconds, if they are seconds.
fn put_microseconds<S: Alter>(
    transaction: &mut Transaction<'_, S>,
    clock: Moment,
) -> Result<(), StoreFault>
    ensures same_reference { transaction.new.conn.ghost_name ≡ transaction.old.conn.ghost_name }
    ensures made { ChangesWhere S.Store transaction.old.conn.now transaction.new.conn.now result
        (AreInSeconds clock) moved }
    ensures others { OnOk result
        (LeavesOthers S.Store transaction.old.conn.now transaction.new.conn.now) }
    ensures inside { CommitsNothing S.Store transaction.old.conn.now transaction.new.conn.now }
    ensures why { ChangeIsCaused S.Store transaction.old.conn.now transaction.new.conn.now
        result 0 (λ records. AreInSeconds clock records × AreShort records.versions) }
    ensures healthy { StaysHealthy S.Store transaction.old.conn.now transaction.new.conn.now
        result 0 IsInSeconds }
{
    move_to_microseconds(transaction, clock.number())?;
    Ok(())
}

/// Moves a database of form 1 to form 2 in one transaction, or not at all. The clock is its clock
/// in microseconds.
pub(crate) fn write_move<S: Alter>(
    connection: &mut Connection<S>,
    clock: Moment,
) -> Result<(), StoreFault>
    requires { connection.old.in_transaction ≡ false }
    ensures made { CommitsWhere S.Store connection.old connection.new result
        (AreInSeconds clock) moved }
    ensures others { OnOk result (LeavesOthers S.Store connection.old connection.new) }
    ensures none { StaysOnErr S.Store connection.old connection.new result }
    ensures usable { IsUsable S.Store connection.new → IsUsable S.Store connection.old }
    ensures mode { connection.new.in_transaction ≡ false }
    ensures why { CommitIsCaused S.Store connection.old connection.new result 0
        (λ records. AreInSeconds clock records × AreShort records.versions) }
    ensures healthy { CommitsHealthyWhere S.Store connection.old connection.new result
        IsInSeconds }
{
    // For the proof alone: whether a transaction is open is known by this call.
    let _settled = connection.is_autocommit();
    let mut transaction = connection.transaction();
    put_microseconds(&mut transaction, clock)?;
    transaction.commit()?;
    Ok(())
}
