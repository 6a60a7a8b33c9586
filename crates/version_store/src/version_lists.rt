//! The versions of a store, read row by row as they are judged: of the rows of bt_version, one is
//! in memory at a time.

ghost use Rattle.std.specs.Prelude.{◌≡◌, ◌⊎◌, false, IfErr, IfOk, IsTrue, List, OnOk, [], ℕ};
ghost use Rattle.std.specs.Prelude.{length};
ghost use Rattle.std.specs.List.{AllByRecursion};
ghost use Rattle.sqlite.specs.Held.{state};
ghost use Rattle.sqlite.specs.Order.{Row as Values};
ghost use Rattle.sqlite.specs.State.{HasCleanDisk};
ghost use Rattle.version_tables.specs.Giving.{AreVersions};
ghost use Rattle.version_tables.specs.Steps.{Keeps, KeepsFaults};
ghost use Rattle.version_tables.specs.Tables.{HasStoreTables};
ghost use Rattle.version_store.specs.Contents.{rows_of_table};
ghost use Rattle.version_store.specs.Faults.{IsUnread};
ghost use Rattle.version_store.specs.GoodStore.{AreReadAs, IsVersionRow};
ghost use Rattle.version_store.specs.declared.fault.OpenFault.TheVariants.{BadStore};

use crate::fault::{OpenFault, StoreFault};
use crate::row_checks::{no_rows, read_row};
use catalog_core::Catalog;
use period_core::{Items, VersionRow};
use sqlite::Connection;
use sqlite_trees::store::Alter;
use std::alloc::Global;
use version_tables::{Form, to_next_row, version_rows};

/// Judges the rows of bt_version, and adds what they are read as to the lists of the tables, which
/// have no rows yet.
fn fill_lists<S: Alter>(
    alloc: Global,
    form: Form,
    catalog: &Catalog,
    clock: i64,
    connection: &mut Connection<S>,
    lists: &mut Vec<Items<VersionRow>>,
) -> Result<(), OpenFault>
    requires settled { connection.old.in_transaction ≡ false }
    requires count { length lists.old.items ≡ length catalog.now.tables }
    requires none { (number : ℕ) → rows_of_table lists.old.items number ≡ [] }
    ensures read { HasCleanDisk (state S.Store connection.new)
        → HasStoreTables (state S.Store connection.old).now.schema
        → OnOk result ((rows : List Values)
        × AreVersions (state S.Store connection.old).now rows
        × AreReadAs form catalog.now.tables clock rows lists.new.items) }
    ensures bad { HasCleanDisk (state S.Store connection.new)
        → HasStoreTables (state S.Store connection.old).now.schema
        → IfErr result (λ fault. fault ≡ BadStore → (rows : List Values)
        × AreVersions (state S.Store connection.old).now rows
        × ¬ AllByRecursion (IsVersionRow form catalog.now.tables clock) rows) }
    ensures why { HasCleanDisk (state S.Store connection.new)
        → HasStoreTables (state S.Store connection.old).now.schema
        → IsTrue (state S.Store connection.old).is_open
        → IfErr result (λ fault. (fault ≡ BadStore)
        ⊎ IsUnread (state S.Store connection.old) (state S.Store connection.new) fault) }
    ensures same { HasCleanDisk (state S.Store connection.new)
        → Keeps (state S.Store connection.old) (state S.Store connection.new) }
    ensures clean { HasCleanDisk (state S.Store connection.new)
        → HasCleanDisk (state S.Store connection.old) }
    ensures faults { KeepsFaults (state S.Store connection.old) (state S.Store connection.new) }
    ensures mode { connection.new.in_transaction ≡ false }
{
    let mut rows = match version_rows(connection) {
        Ok(rows) => rows,
        Err(error) => return Err(OpenFault::from(error)),
    };
    // The query ends the loop. Its bound shows that it ends in any case.
    'rows: for _ in 0..u64::MAX {
        if let Err(error) = to_next_row(&mut rows) {
            return Err(OpenFault::from(error));
        }
        let Some(row) = rows.get() else {
            return Ok(());
        };
        if let Err(fault) = read_row(alloc, form, catalog, clock, row, lists) {
            return Err(fault);
        }
    }
    Err(OpenFault::Store(StoreFault::Memory))
}

/// Judges the rows of bt_version. On `Ok` it has what they are read as: the version rows of each
/// table.
pub(crate) fn read_versions<S: Alter>(
    alloc: Global,
    form: Form,
    catalog: &Catalog,
    clock: i64,
    connection: &mut Connection<S>,
) -> Result<Vec<Items<VersionRow>>, OpenFault>
    requires { connection.old.in_transaction ≡ false }
    ensures read { HasCleanDisk (state S.Store connection.new)
        → HasStoreTables (state S.Store connection.old).now.schema
        → IfOk result (λ lists. (rows : List Values)
        × AreVersions (state S.Store connection.old).now rows
        × AreReadAs form catalog.now.tables clock rows lists.items) }
    ensures bad { HasCleanDisk (state S.Store connection.new)
        → HasStoreTables (state S.Store connection.old).now.schema
        → IfErr result (λ fault. fault ≡ BadStore → (rows : List Values)
        × AreVersions (state S.Store connection.old).now rows
        × ¬ AllByRecursion (IsVersionRow form catalog.now.tables clock) rows) }
    ensures why { HasCleanDisk (state S.Store connection.new)
        → HasStoreTables (state S.Store connection.old).now.schema
        → IsTrue (state S.Store connection.old).is_open
        → IfErr result (λ fault. (fault ≡ BadStore)
        ⊎ IsUnread (state S.Store connection.old) (state S.Store connection.new) fault) }
    ensures same { HasCleanDisk (state S.Store connection.new)
        → Keeps (state S.Store connection.old) (state S.Store connection.new) }
    ensures clean { HasCleanDisk (state S.Store connection.new)
        → HasCleanDisk (state S.Store connection.old) }
    ensures faults { KeepsFaults (state S.Store connection.old) (state S.Store connection.new) }
    ensures mode { connection.new.in_transaction ≡ false }
{
    // For the proof alone: whether a transaction is open is known by this call.
    let _settled = connection.is_autocommit();
    let mut lists = no_rows(alloc, catalog.len())?;
    fill_lists(alloc, form, catalog, clock, connection, &mut lists)?;
    Ok(lists)
}
