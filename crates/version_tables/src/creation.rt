//! The three tables and the row of bt_meta, made in one transaction.

ghost use Rattle.std.specs.Prelude.{◌≡◌, false, IfErr, IsTrue, OnErr, OnOk};
ghost use Rattle.sqlite.specs.State.{HasCleanDisk};
ghost use Rattle.sqlite.specs.Held.{state};
ghost use Rattle.version_tables.specs.Making.{HasCounters, HasDefinitions, HasMeta, HasNone};
ghost use Rattle.version_tables.specs.Making.{HasThree, IsBegunIn};
ghost use Rattle.version_tables.specs.Presence.{HasNoStoreTable};
ghost use Rattle.version_tables.specs.Represents.{Represents, begun};
ghost use Rattle.version_tables.specs.Steps.{CommitsNothing, HasReason, IsAsBefore, LeadsTo};
ghost use Rattle.version_tables.specs.Steps.{KeepsFaults, MakingFailsWithReason};
ghost use Rattle.version_tables.specs.Tables.{no_schema};

use sqlite::{Alter, Connection, Error, Transaction, params};

/// Makes the table of the form and the clock.
fn create_meta<S: Alter>(transaction: &mut Transaction<'_, S>) -> Result<usize, Error>
    ensures same_reference { transaction.new.conn.ghost_name ≡ transaction.old.conn.ghost_name }
    ensures made { LeadsTo S.Store transaction.old.conn.now transaction.new.conn.now result
        HasNone HasMeta }
    ensures inside { CommitsNothing S.Store transaction.old.conn.now transaction.new.conn.now }
    ensures why { MakingFailsWithReason S.Store transaction.old.conn.now transaction.new.conn.now
        result HasNone }
{
    transaction.execute(
        "CREATE TABLE bt_meta (id INTEGER PRIMARY KEY, form INTEGER NOT NULL, \
         clock INTEGER NOT NULL) STRICT",
        &[],
    )
}

/// Makes the table of the definitions.
fn create_definitions<S: Alter>(transaction: &mut Transaction<'_, S>) -> Result<usize, Error>
    ensures same_reference { transaction.new.conn.ghost_name ≡ transaction.old.conn.ghost_name }
    ensures made { LeadsTo S.Store transaction.old.conn.now transaction.new.conn.now result
        HasMeta HasDefinitions }
    ensures inside { CommitsNothing S.Store transaction.old.conn.now transaction.new.conn.now }
    ensures why { MakingFailsWithReason S.Store transaction.old.conn.now transaction.new.conn.now
        result HasMeta }
{
    transaction.execute(
        "CREATE TABLE bt_table (id INTEGER PRIMARY KEY, def BLOB NOT NULL) STRICT",
        &[],
    )
}

/// Makes the table of the versions.
fn create_versions<S: Alter>(transaction: &mut Transaction<'_, S>) -> Result<usize, Error>
    ensures same_reference { transaction.new.conn.ghost_name ≡ transaction.old.conn.ghost_name }
    ensures made { LeadsTo S.Store transaction.old.conn.now transaction.new.conn.now result
        HasDefinitions HasThree }
    ensures inside { CommitsNothing S.Store transaction.old.conn.now transaction.new.conn.now }
    ensures why { MakingFailsWithReason S.Store transaction.old.conn.now transaction.new.conn.now
        result HasDefinitions }
{
    transaction.execute(
        "CREATE TABLE bt_version (tab INTEGER NOT NULL, vals BLOB NOT NULL, \
         s INTEGER NOT NULL, e INTEGER NOT NULL, ss INTEGER NOT NULL, \
         se INTEGER NOT NULL, PRIMARY KEY (tab, vals, s, ss)) STRICT",
        &[],
    )
}

/// Adds the row of the form and the clock.
fn insert_meta<S: Alter>(
    transaction: &mut Transaction<'_, S>,
    form: i64,
    clock: i64,
) -> Result<usize, Error>
    ensures same_reference { transaction.new.conn.ghost_name ≡ transaction.old.conn.ghost_name }
    ensures made { LeadsTo S.Store transaction.old.conn.now transaction.new.conn.now result
        HasThree (IsBegunIn form clock) }
    ensures inside { CommitsNothing S.Store transaction.old.conn.now transaction.new.conn.now }
    ensures why { MakingFailsWithReason S.Store transaction.old.conn.now transaction.new.conn.now
        result HasThree }
{
    transaction.execute(
        "INSERT INTO bt_meta (id, form, clock) VALUES (1, ?1, ?2)",
        params![form, clock],
    )
}

/// Adds the three tables after all other tables, and the row of the form and the clock.
fn make_tables<S: Alter>(
    transaction: &mut Transaction<'_, S>,
    form: i64,
    clock: i64,
) -> Result<(), Error>
    ensures same_reference { transaction.new.conn.ghost_name ≡ transaction.old.conn.ghost_name }
    ensures made { LeadsTo S.Store transaction.old.conn.now transaction.new.conn.now result
        HasNone (IsBegunIn form clock) }
    ensures inside { CommitsNothing S.Store transaction.old.conn.now transaction.new.conn.now }
    ensures why { MakingFailsWithReason S.Store transaction.old.conn.now transaction.new.conn.now
        result HasNone }
{
    create_meta(transaction)?;
    create_definitions(transaction)?;
    create_versions(transaction)?;
    insert_meta(transaction, form, clock)?;
    Ok(())
}

/// Makes the three tables, with this form and this clock (a moment's number), in one transaction.
/// The other tables of the database stay: the three are added after them. On `Err` nothing
/// is changed, and no transaction is open. In a database without tables it is refused for nothing
/// but memory and faults.
pub fn create<S: Alter>(connection: &mut Connection<S>, form: i64, clock: i64) -> Result<(), Error>
    requires { connection.old.in_transaction ≡ false }
    ensures made { HasCleanDisk (state S.Store connection.new)
        → (state S.Store connection.old).now.schema ≡ no_schema
        → OnOk result (Represents (state S.Store connection.new).now (begun form clock)
        × ((state S.Store connection.new).committed ≡ (state S.Store connection.new).now)) }
    ensures beside { HasCleanDisk (state S.Store connection.new)
        → HasNoStoreTable (state S.Store connection.old).now.schema
        → HasCounters (state S.Store connection.old).now.schema
        → OnOk result (IsBegunIn form clock (state S.Store connection.old).now
        (state S.Store connection.new).now
        × ((state S.Store connection.new).committed ≡ (state S.Store connection.new).now)) }
    ensures none { HasCleanDisk (state S.Store connection.new)
        → IsTrue (state S.Store connection.new).is_open
        → OnErr result (IsAsBefore (state S.Store connection.old) (state S.Store connection.new)) }
    ensures was_usable { HasCleanDisk (state S.Store connection.new)
        → IsTrue (state S.Store connection.new).is_open
        → HasCleanDisk (state S.Store connection.old)
        × IsTrue (state S.Store connection.old).is_open }
    ensures why { HasCleanDisk (state S.Store connection.new)
        → (state S.Store connection.old).now.schema ≡ no_schema
        → IfErr result (HasReason (state S.Store connection.old) (state S.Store connection.new)) }
    ensures faults { KeepsFaults (state S.Store connection.old) (state S.Store connection.new) }
    ensures mode { connection.new.in_transaction ≡ false }
{
    // For the proof alone: whether a transaction is open is known by this call.
    let _settled = connection.is_autocommit();
    let mut transaction = connection.transaction();
    make_tables(&mut transaction, form, clock)?;
    transaction.commit()
}
