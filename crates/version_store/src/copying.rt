//! The database of a copy, as it is written: the three tables with a clock, the definitions, and
//! the versions as they are, with their system times.

ghost use Rattle.std.specs.Prelude.{◌≡◌, ◌≢◌, ◌+◌, ◌≤◌, ◌∷◌, [], false, length, true};
ghost use Rattle.std.specs.Prelude.{OnOk};
ghost use Rattle.catalog_core.specs.Limits.{most_tables};
ghost use Rattle.sqlite.specs.Held.{state};
ghost use Rattle.version_tables.specs.Steps.{CommitsNothing};
ghost use Rattle.version_tables.specs.Tables.{no_schema};
ghost use Rattle.version_store.specs.Changed.{with_table};
ghost use Rattle.version_store.specs.Copies.{CommitsMore, HasCommitted, with_tables, with_versions};
ghost use Rattle.version_store.specs.Copies.{without_versions};
ghost use Rattle.version_store.specs.Steps.{Carries, Commits};
ghost use Rattle.version_store.specs.StoreState.{IsUsable};
ghost use Rattle.version_store.specs.declared.fault.StoreFault.TheVariants.{Database as Failed};

use crate::fault::StoreFault;
use crate::transactions::write_table;
use crate::written_rows::copied_row;
use catalog_core::{Catalog, TableDef, encode_def};
use period_core::{Moment, VersionRow};
use sqlite::{Connection, Transaction};
use sqlite_trees::store::Alter;
use std::alloc::Global;
use std::slice;
use version_tables::{Form, create, insert_versions};

/// Adds a version row to a table as it is.
fn put_version<S: Alter>(
    alloc: Global,
    transaction: &mut Transaction<'_, S>,
    table: u8,
    row: &VersionRow,
) -> Result<(), StoreFault>
    ensures same_reference { transaction.new.conn.ghost_name ≡ transaction.old.conn.ghost_name }
    ensures made { Carries S.Store transaction.old.conn.now transaction.new.conn.now result
        (with_versions table (row.now ∷ [])) }
    ensures inside { CommitsNothing S.Store transaction.old.conn.now transaction.new.conn.now }
{
    let new = copied_row(alloc, row)?;
    let (from, to) = (row.from.number(), row.to.number());
    let table = u32::from(table);
    insert_versions(alloc, transaction, table, from, to, slice::from_ref(&new))?;
    Ok(())
}

/// Adds version rows to a table as they are.
fn put_versions<S: Alter>(
    alloc: Global,
    transaction: &mut Transaction<'_, S>,
    table: u8,
    rows: &[VersionRow],
) -> Result<(), StoreFault>
    ensures same_reference { transaction.new.conn.ghost_name ≡ transaction.old.conn.ghost_name }
    ensures made { Carries S.Store transaction.old.conn.now transaction.new.conn.now result
        (with_versions table rows.now) }
    ensures inside { CommitsNothing S.Store transaction.old.conn.now transaction.new.conn.now }
{
    for row in rows {
        put_version(alloc, transaction, table, row)?;
    }
    Ok(())
}

/// Adds version rows to a table as they are in one transaction, or nothing.
pub(crate) fn write_versions<S: Alter>(
    alloc: Global,
    connection: &mut Connection<S>,
    table: u8,
    rows: &[VersionRow],
) -> Result<(), StoreFault>
    requires { connection.old.in_transaction ≡ false }
    ensures made { Commits S.Store connection.old connection.new result
        (with_versions table rows.now) }
    ensures usable { IsUsable S.Store connection.new → IsUsable S.Store connection.old }
    ensures mode { connection.new.in_transaction ≡ false }
{
    // For the proof alone: whether a transaction is open is known by this call.
    let _settled = connection.is_autocommit();
    let mut transaction = connection.transaction();
    put_versions(alloc, &mut transaction, table, rows)?;
    transaction.commit()?;
    Ok(())
}

/// Adds the definition of a table, which gets this number, at the end.
fn write_definition<S: Alter>(
    alloc: Global,
    connection: &mut Connection<S>,
    number: u32,
    definition: &TableDef,
) -> Result<(), StoreFault>
    requires { connection.old.in_transaction ≡ false }
    ensures made { CommitsMore S.Store connection.old connection.new result
        (λ c. number ≡ length c.tables + 1) (with_table definition.now) }
    ensures usable { IsUsable S.Store connection.new → IsUsable S.Store connection.old }
    ensures mode { connection.new.in_transaction ≡ false }
{
    let bytes = encode_def(alloc, definition)?;
    write_table(connection, number, bytes.as_slice())
}

/// Adds the definitions of tables to a store without tables.
fn write_definitions<S: Alter>(
    alloc: Global,
    connection: &mut Connection<S>,
    definitions: &[TableDef],
) -> Result<(), StoreFault>
    requires settled { connection.old.in_transaction ≡ false }
    requires few { length definitions.now ≤ most_tables }
    ensures made { CommitsMore S.Store connection.old connection.new result
        (λ c. c.tables ≡ []) (with_tables definitions.now) }
    ensures usable { IsUsable S.Store connection.new → IsUsable S.Store connection.old }
    ensures mode { connection.new.in_transaction ≡ false }
{
    for (place, definition) in definitions.iter().enumerate() {
        write_definition(alloc, connection, place as u32 + 1, definition)?;
    }
    Ok(())
}

/// Whether a database has no table, no index and no view.
fn is_new<S: Alter>(connection: &Connection<S>) -> bool
    ensures { result ≡ true → (state S.Store connection.now).now.schema ≡ no_schema }
{
    let schema = connection.schema();
    schema.tables.is_empty() && schema.indexes.is_empty() && schema.views.is_empty()
}

/// Makes a store with these tables and this clock in a new database, in as many transactions as
/// there are tables and one more. A database that is not new is refused.
pub(crate) fn begin_copy<S: Alter>(
    alloc: Global,
    connection: &mut Connection<S>,
    catalog: &Catalog,
    clock: Moment,
) -> Result<(), StoreFault>
    requires { connection.old.in_transaction ≡ false }
    ensures made { IsUsable S.Store connection.new
        → OnOk result (HasCommitted S.Store connection.new
        (without_versions catalog.now.tables clock)) }
    ensures new { OnOk result ((state S.Store connection.old).now.schema ≡ no_schema) }
    ensures not_new { (state S.Store connection.old).now.schema ≢ no_schema
        → result ≡ Err Failed }
    ensures usable { IsUsable S.Store connection.new → IsUsable S.Store connection.old }
    ensures mode { connection.new.in_transaction ≡ false }
{
    if !is_new(connection) {
        return Err(StoreFault::Database);
    }
    create(connection, Form::Microseconds.number(), clock.number())?;
    write_definitions(alloc, connection, catalog.tables.as_slice())
}
