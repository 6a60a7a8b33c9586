//! The judge of a store's rows, as its database has them.

ghost use Rattle.std.specs.Prelude.{◌≡◌, ◌≢◌, [], false, IfErr, IfOk, IsTrue, OnOk};
ghost use Rattle.sqlite.specs.Held.{state};
ghost use Rattle.sqlite.specs.State.{HasCleanDisk, IsUnchanged};
ghost use Rattle.version_tables.specs.Good.{IsClock};
ghost use Rattle.version_tables.specs.Represents.{HaveOwnRowids};
ghost use Rattle.version_tables.specs.Steps.{Keeps, KeepsFaults};
ghost use Rattle.version_tables.specs.Tables.{HasStoreTables};
ghost use Rattle.version_store.specs.Contents.{AreVersionsOf, Contents};
ghost use Rattle.version_store.specs.Faults.{IsUnread};
ghost use Rattle.version_store.specs.GoodStore.{AreLawful, IsGoodStore, NoExtraCondition};
ghost use Rattle.version_store.specs.Units.{in_microseconds};
ghost use Rattle.version_store.specs.Written.{HasIn};
ghost use Rattle.version_store.specs.declared.fault.OpenFault.TheVariants.{BadStore};

use crate::fault::{OpenFault, StoreFault};
use crate::row_checks::check_definitions;
use crate::version_lists::read_versions;
use catalog_core::Catalog;
use period_core::{Items, VersionRow};
use sqlite::Connection;
use sqlite_trees::store::Alter;
use std::alloc::Global;
use version_tables::{
    Form, are_numbered, are_rising, columns_there, meta_rows, repeats_key, rowids, table_rows,
};

/// Judges the numbers (`rowid`) of all versions: each has one, and no other has it.
fn check_numbers<S: Alter>(connection: &mut Connection<S>) -> Result<(), OpenFault>
    requires { connection.old.in_transaction ≡ false }
    ensures own { HasCleanDisk (state S.Store connection.new)
        → HasStoreTables (state S.Store connection.old).now.schema
        → OnOk result (HaveOwnRowids ((state S.Store connection.old).now.trees 2)) }
    ensures unchanged { HasCleanDisk (state S.Store connection.new)
        → OnOk result (IsUnchanged (state S.Store connection.old) (state S.Store connection.new)) }
    ensures why { HasCleanDisk (state S.Store connection.new)
        → HasStoreTables (state S.Store connection.old).now.schema
        → IsTrue (state S.Store connection.old).is_open
        → HaveOwnRowids ((state S.Store connection.old).now.trees 2)
        → IfErr result (IsUnread (state S.Store connection.old) (state S.Store connection.new)) }
    ensures other { IfErr result (λ fault. fault ≢ BadStore) }
    ensures same { HasCleanDisk (state S.Store connection.new)
        → Keeps (state S.Store connection.old) (state S.Store connection.new) }
    ensures clean { HasCleanDisk (state S.Store connection.new)
        → HasCleanDisk (state S.Store connection.old) }
    ensures faults { KeepsFaults (state S.Store connection.old) (state S.Store connection.new) }
    ensures mode { connection.new.in_transaction ≡ false }
{
    let ids = rowids(connection)?;
    if !are_numbered(&ids) {
        return Err(OpenFault::Store(StoreFault::Database));
    }
    if !are_rising(&ids) {
        return Err(OpenFault::Store(StoreFault::Database));
    }
    Ok(())
}

/// Judges the numbers of all versions, and their keys, which are the table, the values, the first
/// day and the first moment: no two versions have one number or one key.
fn check_keys<S: Alter>(connection: &mut Connection<S>) -> Result<(), OpenFault>
    requires { connection.old.in_transaction ≡ false }
    ensures own { HasCleanDisk (state S.Store connection.new)
        → HasStoreTables (state S.Store connection.old).now.schema
        → OnOk result (HaveOwnRowids ((state S.Store connection.old).now.trees 2)) }
    ensures unchanged { HasCleanDisk (state S.Store connection.new)
        → OnOk result (IsUnchanged (state S.Store connection.old) (state S.Store connection.new)) }
    ensures why { HasCleanDisk (state S.Store connection.new)
        → HasStoreTables (state S.Store connection.old).now.schema
        → IsTrue (state S.Store connection.old).is_open
        → HaveOwnRowids ((state S.Store connection.old).now.trees 2)
        → IfErr result (IsUnread (state S.Store connection.old) (state S.Store connection.new)) }
    ensures other { HasCleanDisk (state S.Store connection.new)
        → HasStoreTables (state S.Store connection.old).now.schema
        → IfErr result (λ fault. fault ≢ BadStore) }
    ensures same { HasCleanDisk (state S.Store connection.new)
        → Keeps (state S.Store connection.old) (state S.Store connection.new) }
    ensures clean { HasCleanDisk (state S.Store connection.new)
        → HasCleanDisk (state S.Store connection.old) }
    ensures faults { KeepsFaults (state S.Store connection.old) (state S.Store connection.new) }
    ensures mode { connection.new.in_transaction ≡ false }
{
    check_numbers(connection)?;
    let repeated = repeats_key(connection)?;
    if repeated {
        return Err(OpenFault::BadStore);
    }
    Ok(())
}

/// Judges a store's rows. On `Ok` it has its tables, its form, its clock, a number in the
/// form's unit, and the version rows of each table.
pub(crate) fn inspect<S: Alter>(
    alloc: Global,
    connection: &mut Connection<S>,
) -> Result<(Catalog, Form, i64, Vec<Items<VersionRow>>), OpenFault>
    requires { connection.old.in_transaction ≡ false }
    ensures good { HasCleanDisk (state S.Store connection.new)
        → IsTrue (state S.Store connection.new).is_open
        → HasStoreTables (state S.Store connection.old).now.schema
        → IfOk result (λ found.
        (good : IsGoodStore NoExtraCondition (state S.Store connection.old).now)
        × HasIn good.form (state S.Store connection.old).now good.contents
        × (good.contents.tables ≡ found.0.tables) × (good.form ≡ found.1)
        × (good.contents.clock ≡ found.2)) }
    ensures versions { HasCleanDisk (state S.Store connection.new)
        → IsTrue (state S.Store connection.new).is_open
        → IfOk result (λ found.
        (c : Contents) → HasIn found.1 (state S.Store connection.old).now c
        → AreVersionsOf (in_microseconds found.1 c) found.3.items) }
    ensures bad { HasCleanDisk (state S.Store connection.new)
        → IsTrue (state S.Store connection.new).is_open
        → HasStoreTables (state S.Store connection.old).now.schema
        → IfErr result (λ fault. fault ≡ BadStore
        → ¬ IsGoodStore NoExtraCondition (state S.Store connection.old).now) }
    ensures why { HasCleanDisk (state S.Store connection.new)
        → IsTrue (state S.Store connection.new).is_open
        → IsGoodStore NoExtraCondition (state S.Store connection.old).now
        → HaveOwnRowids ((state S.Store connection.old).now.trees 2)
        → IfErr result (IsUnread (state S.Store connection.old) (state S.Store connection.new)) }
    ensures lawful { IfOk result (λ found. AreLawful [] found.0.tables) }
    ensures clock { IfOk result (λ found. IsClock found.1 found.2) }
    ensures same { HasCleanDisk (state S.Store connection.new)
        → Keeps (state S.Store connection.old) (state S.Store connection.new) }
    ensures clean { HasCleanDisk (state S.Store connection.new)
        → HasCleanDisk (state S.Store connection.old) }
    ensures faults { KeepsFaults (state S.Store connection.old) (state S.Store connection.new) }
    ensures mode { connection.new.in_transaction ≡ false }
{
    if !columns_there(connection) {
        return Err(OpenFault::BadStore);
    }
    // For the proof alone: while a connection is open, no two rows share a key.
    let _live = connection.schema();
    let metas = meta_rows(connection)?;
    let tables = table_rows(connection)?;
    check_keys(connection)?;
    let (catalog, form, clock) = check_definitions(alloc, &metas, &tables)?;
    let lists = read_versions(alloc, form, &catalog, clock, connection)?;
    Ok((catalog, form, clock, lists))
}
