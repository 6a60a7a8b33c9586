//! A change is judged before it is made: by the key of its table, and by each reference from the
//! table and to it.

ghost use Rattle.std.specs.Prelude.{◌≡◌, ◌⊎◌, IfErr, IfOk, IsTrue, OnOk, Some, map};
ghost use Rattle.catalog_core.specs.change.EmptyRows.{has_empty_row};
ghost use Rattle.catalog_core.specs.declared.change.Change.{Change as ChangeModel};
ghost use Rattle.catalog_core.specs.declared.table.TableDef.{TableDef as Definition};
ghost use Rattle.catalog_core.specs.table.TableWords.{table_of};
ghost use Rattle.history_model.specs.Histories.{State};
ghost use Rattle.period_core.specs.declared.refusal.Refusal.TheVariants as refused;
ghost use Rattle.period_keys.specs.Current.{HoldCurrent, rows_by_key};
ghost use Rattle.period_keys.specs.Keys.{key_values};
ghost use Rattle.period_keys.specs.Lawful.{IsLawfulChange, IsLawfulState};
ghost use Rattle.period_keys.specs.Planned.{IsPlanOf};
ghost use Rattle.script_engine.specs.engine.Faults.{IsFault};
ghost use Rattle.script_engine.specs.engine.InMemory.{AreKeysIn, FollowCatalog, rows_in};
ghost use Rattle.script_engine.specs.engine.Runs.{IsConstraintRefusal};

use catalog_core::{Catalog, Change, Plan, of_number};
use period_core::Refusal;
use period_keys::{Key, TableIndex, key_fault, keys_of, plan_change, reference_fault};
use std::alloc::Global;

/// The plan of a lawful change, and the keys of the rows that it adds.
#[derive(Drop)]
pub struct LawfulPlan {
    /// The versions that the change ends, and the rows that it adds.
    pub plan: Plan,
    /// The keys of the added rows, row by row.
    pub keys: Vec<Key>,
}

/// Judges a change of the table of a number by its plan, the keys of whose added rows these are: by
/// the key of the table, and then by the references from it and to it. It is refused with the least
/// day of a fault, or out of memory.
fn judge_plan(
    alloc: Global,
    catalog: &Catalog,
    tables: &[TableIndex],
    table: &TableIndex,
    number: u8,
    plan: &Plan,
    keys: &[Key],
) -> Result<(), Refusal>
    requires keys { keys.now ≡ map (key_values table.now.positions) plan.now.added }
    requires follow { FollowCatalog catalog.now.tables tables.now }
    requires defined { (d : Definition) × (table_of catalog.now.tables number ≡ Some d) }
    requires table { table_of tables.now number ≡ Some table.now }
    ensures lawful { OnOk result ((change : ChangeModel) (before : State)
        → change.table ≡ number
        → IsPlanOf change.action table.now.rows plan.now
        → IsLawfulState catalog.now.tables before
        → HoldCurrent catalog.now.tables before (map rows_by_key tables.now)
        → IsLawfulChange catalog.now.tables before change) }
    ensures fault { IfErr result (λ refusal. (refusal ≡ refused.Memory)
        ⊎ (IsConstraintRefusal refusal × ((change : ChangeModel) (before : State)
        → change.table ≡ number
        → IsPlanOf change.action table.now.rows plan.now
        → IsLawfulState catalog.now.tables before
        → HoldCurrent catalog.now.tables before (map rows_by_key tables.now)
        → IsFault catalog.now.tables before change refusal))) }
{
    let clash = key_fault(alloc, table.rows(), keys, plan)?;
    if let Some(day) = clash {
        return Err(Refusal::KeyOverlap(day));
    }
    let lacking = reference_fault(alloc, catalog, tables, number, plan)?;
    match lacking {
        None => Ok(()),
        Some(day) => Err(Refusal::PeriodReference(day)),
    }
}

/// The plan of a change over its table's current rows, if the change is lawful. The values of
/// the rows that an INSERT gives become the plan's. The keys of the added rows are those by
/// which they were judged. The change is refused if such a row has a period without a day; with
/// the least day on which it breaks its table's key, or else a reference; and else only out of
/// memory.
pub fn lawful_plan(
    alloc: Global,
    catalog: &Catalog,
    tables: &[TableIndex],
    change: Change,
) -> Result<LawfulPlan, Refusal>
    requires follow { FollowCatalog catalog.now.tables tables.now }
    requires defined { (d : Definition)
        × (table_of catalog.now.tables change.table ≡ Some d) }
    ensures plan { IfOk result (λ made. IsPlanOf change.action
        (rows_in (map rows_by_key tables.now) change.table) made.plan) }
    ensures keys { IfOk result (λ made. AreKeysIn (map rows_by_key tables.now) change.table
        made.plan.added made.keys.items) }
    ensures lawful { OnOk result ((before : State)
        → IsLawfulState catalog.now.tables before
        → HoldCurrent catalog.now.tables before (map rows_by_key tables.now)
        → IsLawfulChange catalog.now.tables before change) }
    ensures refused { IfErr result (λ refusal.
        ((refusal ≡ refused.EmptyPeriod) × IsTrue (has_empty_row change.action))
        ⊎ ((refusal ≡ refused.Memory)
        ⊎ ((¬ IsTrue (has_empty_row change.action)) × IsConstraintRefusal refusal
        × ((before : State)
        → IsLawfulState catalog.now.tables before
        → HoldCurrent catalog.now.tables before (map rows_by_key tables.now)
        → IsFault catalog.now.tables before change refusal)))) }
{
    let Change {
        table: number,
        action,
    } = change;
    let Some(table) = of_number(tables, number) else {
        unreachable!()
    };
    let plan = plan_change(alloc, table, action)?;
    // Each key is made once: the rows are judged by it, and then added by it.
    let keys = keys_of(alloc, table.rows().positions(), plan.added.as_slice())?;
    judge_plan(
        alloc,
        catalog,
        tables,
        table,
        number,
        &plan,
        keys.as_slice(),
    )?;
    Ok(LawfulPlan { plan, keys })
}
