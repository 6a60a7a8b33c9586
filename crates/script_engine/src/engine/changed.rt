//! A change made, in a store and in memory.

ghost use Rattle.std.specs.Prelude.{◌≡◌, ◌++◌, IsPermutation, List, OnErr, OnOk, Some, map};
ghost use Rattle.catalog_core.specs.declared.table.TableDef.{TableDef as Definition};
ghost use Rattle.catalog_core.specs.table.TableWords.{table_of};
ghost use Rattle.ended_versions.specs.Packed.{AreEndedBy, AreOfColumns, closed_at, packed};
ghost use Rattle.period_core.specs.declared.version.VersionRow.{VersionRow as Version};
ghost use Rattle.period_keys.specs.Current.{rows_by_key};
ghost use Rattle.period_keys.specs.Keys.{key_values};
ghost use Rattle.period_keys.specs.TableRows.{HasTableRows};
ghost use Rattle.period_keys.specs.Versions.{begun};
ghost use Rattle.script_engine.specs.engine.Changed.{MakesPlan};
ghost use Rattle.script_engine.specs.engine.Ended.{AllEndedBy, HaveClosed};
ghost use Rattle.script_engine.specs.engine.InMemory.{AreKeysIn, FollowCatalog, HaveRows, rows_in};

use crate::engine::in_memory::TablesInMemory;
use catalog_core::{Plan, of_number_mut};
use ended_versions::EndedVersions;
use period_core::Refusal;
use period_keys::{Key, TableIndex, rows_of};
use sqlite_trees::store::Alter;
use std::alloc::Global;
use version_store::VersionStore;

/// Makes what a plan, the keys of whose added rows these are, says of the table of a number at the
/// clock, in the store and in the table's current rows, of which the plan ends some. On `Err`
/// nothing is changed.
fn apply_plan<S: Alter>(
    alloc: Global,
    store: &mut VersionStore<S>,
    table: &mut TableIndex,
    number: u8,
    plan: &Plan,
    keys: Vec<Key>,
) -> Result<(), Refusal>
    requires split { (stay : List Version)
        × IsPermutation table.old.rows (plan.now.ended ++ stay) }
    requires keys { keys.items ≡ map (key_values table.old.positions) plan.now.added }
    ensures stored { MakesPlan S.Store store.old store.new result number plan.now }

    // The rows that the plan ends go, and those that it adds come.
    ensures made { (stay : List Version)
        → IsPermutation table.old.rows (plan.now.ended ++ stay)
        → OnOk result (HasTableRows (map (begun store.old.clock) plan.now.added ++ stay)
        table.old table.new) }
    ensures none { OnErr result (HasTableRows table.old.rows table.old table.new) }
    ensures indexed { table.new.indexed ≡ table.old.indexed }
{
    let moment = store.clock();
    let ended = plan.ended.as_slice();
    let added = plan.added.as_slice();
    let rows = rows_of(alloc, ended)?;
    let going = table.keys_of(alloc, rows.as_slice())?;
    let coming = table.keys_with(alloc, keys, added)?;
    table.add_all(alloc, moment, &coming, added)?;
    match store.apply(alloc, number, moment, plan) {
        Ok(()) => {
            table.take_all(&going, ended, rows.as_slice());
            Ok(())
        }
        Err(refusal) => {
            table.undo_add(moment, &coming, added);
            Err(refusal)
        }
    }
}

/// Makes what `apply_plan` makes, and adds the versions that the plan ends to the table's versions
/// that have ended. On `Err` nothing is changed.
fn apply_change<S: Alter>(
    alloc: Global,
    store: &mut VersionStore<S>,
    table: &mut TableIndex,
    ended: &mut EndedVersions,
    number: u8,
    plan: &Plan,
    keys: Vec<Key>,
) -> Result<(), Refusal>
    requires split { (stay : List Version)
        × IsPermutation table.old.rows (plan.now.ended ++ stay) }
    requires keys { keys.items ≡ map (key_values table.old.positions) plan.now.added }
    requires before { AreEndedBy store.old.clock ended.old }
    ensures stored { MakesPlan S.Store store.old store.new result number plan.now }
    ensures made { (stay : List Version)
        → IsPermutation table.old.rows (plan.now.ended ++ stay)
        → OnOk result (HasTableRows (map (begun store.old.clock) plan.now.added ++ stay)
        table.old table.new) }
    ensures none { OnErr result (HasTableRows table.old.rows table.old table.new) }
    ensures indexed { table.new.indexed ≡ table.old.indexed }

    // Of the versions that have ended:
    ensures appended { OnOk result
        (ended.new ≡ ended.old ++ map packed (closed_at store.old.clock plan.now.ended)) }
    ensures column_values { OnOk result (AreOfColumns (closed_at store.old.clock plan.now.ended)) }
    ensures unchanged { OnErr result (ended.new ≡ ended.old) }
    ensures ended_by_clock { AreEndedBy store.old.clock ended.new }
{
    let count = ended.len();
    ended.close_all(alloc, plan.ended.as_slice(), store.clock())?;
    let made = apply_plan(alloc, store, table, number, plan, keys);
    if made.is_err() {
        ended.truncate(count);
    }
    made
}

impl TablesInMemory {
    /// Makes what a plan, the keys of whose added rows these are, says of the table of a number,
    /// which exists, at the clock, in the store and in memory, if the plan ends some of its current
    /// rows. On `Err` nothing is changed.
    pub fn apply<S: Alter>(
        &mut self,
        alloc: Global,
        store: &mut VersionStore<S>,
        number: u8,
        plan: &Plan,
        keys: Vec<Key>,
    ) -> Result<(), Refusal>
        requires follow { FollowCatalog store.old.catalog.tables self.old.current }
        requires before { AllEndedBy store.old.clock self.old.ended }
        requires there { (definition : Definition)
            × (table_of store.old.catalog.tables number ≡ Some definition) }
        requires split { (stay : List Version)
            × IsPermutation (rows_in (map rows_by_key self.old.current) number)
            (plan.now.ended ++ stay) }
        requires keys { AreKeysIn (map rows_by_key self.old.current) number plan.now.added
            keys.items }
        ensures stored { MakesPlan S.Store store.old store.new result number plan.now }
        ensures made { (stay : List Version)
            → IsPermutation (rows_in (map rows_by_key self.old.current) number)
            (plan.now.ended ++ stay)
            → OnOk result
            (HaveRows number (map (begun store.old.clock) plan.now.added ++ stay)
            (map rows_by_key self.old.current) (map rows_by_key self.new.current)) }
        ensures none { OnErr result
            (HaveRows number (rows_in (map rows_by_key self.old.current) number)
            (map rows_by_key self.old.current) (map rows_by_key self.new.current)) }
        ensures follow { FollowCatalog store.new.catalog.tables self.new.current }
        ensures appended { OnOk result (HaveClosed number
            (closed_at store.old.clock plan.now.ended) self.old.ended self.new.ended) }
        ensures unchanged { OnErr result (self.new.ended ≡ self.old.ended) }
        ensures ended_by_clock { AllEndedBy store.new.clock self.new.ended }
    {
        let Some(table) = of_number_mut(&mut self.current, number) else {
            unreachable!()
        };
        let Some(ended) = of_number_mut(&mut self.ended, number) else {
            unreachable!()
        };
        apply_change(alloc, store, table, ended, number, plan, keys)
    }
}
