//! The least day on which a change would leave a row without its parent, over all references that
//! it touches: those from the changed table, and those to it.

ghost use Rattle.std.specs.Prelude.{◌≡◌, Contains, IfOk, List, Some, map};
ghost use Rattle.catalog_core.specs.declared.change.Change.{Change as ChangeModel};
ghost use Rattle.catalog_core.specs.declared.table.TableDef.{TableDef as Definition};
ghost use Rattle.catalog_core.specs.table.TableWords.{table_of};
ghost use Rattle.history_model.specs.Histories.{State};
ghost use Rattle.history_model.specs.Versions.{row_of};
ghost use Rattle.period_keys.specs.Current.{HaveIndexes, IsIndexed, IsIndexedBy};
ghost use Rattle.period_keys.specs.Faults.{IsFaultBy, IsFaultOf, IsPlannedIn};
ghost use Rattle.period_keys.specs.Index.{AreAtKeys};
ghost use Rattle.period_keys.specs.Keys.{IsLeastOf};
ghost use Rattle.period_keys.specs.Lawful.{IsReferenceFault, LacksParentBy, Refers};
ghost use Rattle.period_keys.specs.Lawful.{state_after};
ghost use Rattle.period_keys.specs.LookUps.{periods_by};
ghost use Rattle.period_keys.specs.TableRows.{TableRows};

use crate::faults::{child_fault, parent_fault};
use crate::periods_by_key::PeriodsByKey;
use crate::positions::positions_of;
use crate::shared_days::earlier;
use crate::table_index::TableIndex;
use catalog_core::{Catalog, Plan, Reference, TableDef, of_number};
use period_core::{Day, Memory};
use std::alloc::Global;

/// The least day on which a row of some table would have no parent by one of its references, after
/// a change of the table of a number by this plan. It is planned over the rows of that table, and
/// each table refers to earlier ones alone.
pub fn reference_fault(
    alloc: Global,
    catalog: &Catalog,
    tables: &[TableIndex],
    changed: u8,
    plan: &Plan,
) -> Result<Option<Day>, Memory>
    requires { HaveIndexes catalog.now.tables tables.now }
    ensures { IfOk result (λ found. (before : State) (change : ChangeModel)
        → change.table ≡ changed
        → IsPlannedIn catalog.now.tables before tables.now change plan.now
        → IsLeastOf (IsReferenceFault catalog.now.tables before change) found) }
{
    let definitions = catalog.tables.as_slice();
    let mut found = None;
    for place in 0..definitions.len() {
        let child = &definitions[place];
        let here = fault_of(alloc, definitions, tables, changed, plan, place + 1, child)?;
        found = earlier(found, here);
    }
    Ok(found)
}

// The least such day of a row of one table.
fn fault_of(
    alloc: Global,
    definitions: &[TableDef],
    tables: &[TableIndex],
    changed: u8,
    plan: &Plan,
    number: usize,
    child: &TableDef,
) -> Result<Option<Day>, Memory>
    requires indexed { HaveIndexes definitions.now tables.now }
    requires child { table_of definitions.now number ≡ Some child.now }
    ensures { IfOk result (λ found. (before : State) (change : ChangeModel)
        → change.table ≡ changed
        → IsPlannedIn definitions.now before tables.now change plan.now
        → IsLeastOf (IsFaultOf definitions.now before change number child.now) found) }
{
    let references = child.references.as_slice();
    let mut found = None;
    for reference in references {
        let by_it = fault_by(
            alloc,
            definitions,
            tables,
            changed,
            plan,
            number,
            child,
            reference,
        )?;
        found = earlier(found, by_it);
    }
    Ok(found)
}

// The least such day by one of its references.
fn fault_by(
    alloc: Global,
    definitions: &[TableDef],
    tables: &[TableIndex],
    changed: u8,
    plan: &Plan,
    number: usize,
    child: &TableDef,
    reference: &Reference,
) -> Result<Option<Day>, Memory>
    requires indexed { HaveIndexes definitions.now tables.now }
    requires child { table_of definitions.now number ≡ Some child.now }
    requires reference { Contains child.now.references reference.now }
    ensures { IfOk result (λ found. (before : State) (change : ChangeModel)
        → change.table ≡ changed
        → IsPlannedIn definitions.now before tables.now change plan.now
        → IsLeastOf (λ day.
        IsFaultBy definitions.now before change number child.now day reference.now) found) }
{
    let Some(parent) = of_number(definitions, reference.parent) else {
        return Ok(None);
    };
    if number == usize::from(changed) {
        let found = fault_from(alloc, tables, plan, number, child, reference, parent)?;
        return Ok(found);
    }
    if reference.parent == changed {
        let found = fault_to(alloc, tables, plan, number, child, reference, parent)?;
        return Ok(found);
    }
    Ok(None)
}

// The least such day by a reference from the changed table.
fn fault_from(
    alloc: Global,
    tables: &[TableIndex],
    plan: &Plan,
    number: usize,
    child: &TableDef,
    reference: &Reference,
    parent: &TableDef,
) -> Result<Option<Day>, Memory>
    requires { IsIndexed tables.now number child.now reference.now parent.now }
    ensures { IfOk result (λ found. (catalog : List Definition) (before : State)
        (change : ChangeModel)
        → IsPlannedIn catalog before tables.now change plan.now
        → Refers catalog number child.now reference.now parent.now
        → number ≡ change.table
        → IsLeastOf (LacksParentBy (state_after change before) number child.now reference.now
        parent.now) found) }
{
    let own = positions_of(alloc, child, reference.own.as_slice())?;
    let keys = positions_of(alloc, parent, reference.keys.as_slice())?;
    let parents = periods_by(tables, usize::from(reference.parent), keys.as_slice());
    let found = child_fault(alloc, own.as_slice(), plan, &parents)?;
    Ok(found)
}

// The least such day by a reference of another table to the changed one.
fn fault_to(
    alloc: Global,
    tables: &[TableIndex],
    plan: &Plan,
    number: usize,
    child: &TableDef,
    reference: &Reference,
    parent: &TableDef,
) -> Result<Option<Day>, Memory>
    requires { IsIndexed tables.now number child.now reference.now parent.now }
    ensures { IfOk result (λ found. (catalog : List Definition) (before : State)
        (change : ChangeModel)
        → IsPlannedIn catalog before tables.now change plan.now
        → Refers catalog number child.now reference.now parent.now
        → reference.now.parent ≡ change.table
        → (number ≡ change.table → ⊥)
        → IsLeastOf (LacksParentBy (state_after change before) number child.now reference.now
        parent.now) found) }
{
    let own = positions_of(alloc, child, reference.own.as_slice())?;
    let keys = positions_of(alloc, parent, reference.keys.as_slice())?;
    let children = periods_by(tables, number, own.as_slice());
    let parents = periods_by(tables, usize::from(reference.parent), keys.as_slice());
    let found = parent_fault(alloc, keys.as_slice(), &parents, plan, &children)?;
    Ok(found)
}

/// The periods of the table of a number by its rows' values at these positions, by which they are
/// looked up.
pub fn periods_by<'a>(
    tables: &'a [TableIndex],
    number: usize,
    positions: &[usize],
) -> PeriodsByKey<'a>
    requires { IsIndexedBy tables.now number positions.now }
    ensures { (table : TableRows) → table_of tables.now number ≡ Some table
        → AreAtKeys positions.now (map row_of table.rows) (periods_by result) }
{
    let table = &tables[number - 1];
    let Some(periods) = table.by(positions) else {
        unreachable!()
    };
    periods
}
