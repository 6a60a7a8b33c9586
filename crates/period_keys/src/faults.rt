//! The least day on which a change would break a table's key or a reference, judged by the rows
//! that its plan touches.

ghost use Rattle.std.specs.Prelude.{◌≡◌, ℕ, IfOk, List, map};
ghost use Rattle.period_core.specs.declared.version.VersionRow.{VersionRow as Version};
ghost use Rattle.catalog_core.specs.declared.change.Change.{Change as ChangeModel};
ghost use Rattle.catalog_core.specs.declared.table.Reference.{Reference};
ghost use Rattle.catalog_core.specs.declared.table.TableDef.{TableDef};
ghost use Rattle.history_model.specs.Histories.{State};
ghost use Rattle.history_model.specs.Versions.{row_of};
ghost use Rattle.period_keys.specs.Faults.{IsPlanned, IsReferredTo, RefersToOther};
ghost use Rattle.period_keys.specs.Keys.{IsLeastOf, key_values};
ghost use Rattle.period_keys.specs.Lawful.{IsKeyFault, IsKeyOf, LacksParentBy, own_positions};
ghost use Rattle.period_keys.specs.Lawful.{parent_positions, state_after};

use crate::clashes::key_clash_after;
use crate::current_rows::CurrentRows;
use crate::key::Key;
use crate::periods_by_key::PeriodsByKey;
use crate::references::{uncovered_by_children, uncovered_by_parents};
use catalog_core::Plan;
use period_core::{Day, Memory, PeriodRow, VersionRow};
use std::alloc::Global;

/// The least day on which a change of this plan, the keys of whose added rows these are, would let
/// two rows of its table share the key.
pub fn key_fault(
    alloc: Global,
    current: &CurrentRows,
    keys: &[Key],
    plan: &Plan,
) -> Result<Option<Day>, Memory>
    requires { keys.now ≡ map (key_values current.now.positions) plan.now.added }
    ensures { IfOk result (λ found. (catalog : List TableDef) (before : State)
        (change : ChangeModel)
        → IsKeyOf catalog change.table current.now.positions
        → IsPlanned catalog before change current.now.rows plan.now
        → IsLeastOf (IsKeyFault catalog before change) found) }
{
    let ended = plan.ended.as_slice();
    let found = key_clash_after(alloc, current, ended, keys, plan.added.as_slice())?;
    Ok(found)
}

/// The least day on which a row of the changed table would have no parent by one of its references
/// to another table, whose own columns are at these positions.
pub fn child_fault(
    alloc: Global,
    own: &[usize],
    plan: &Plan,
    parents: &PeriodsByKey,
) -> Result<Option<Day>, Memory>
    ensures { IfOk result (λ found. (catalog : List TableDef) (before : State)
        (change : ChangeModel) (current : List Version)
        (child : TableDef) (reference : Reference) (parent : TableDef)
        → own.now ≡ own_positions child reference
        → IsPlanned catalog before change current plan.now
        → RefersToOther catalog before change child reference parent parents.now
        → IsLeastOf (LacksParentBy (state_after change before) change.table child reference parent)
        found) }
{
    let found = uncovered_by_children(alloc, own, plan.added.as_slice(), parents)?;
    Ok(found)
}

/// The least day on which a row of another table would have no parent in the changed one, by one of
/// its references, to the columns at these positions.
pub fn parent_fault(
    alloc: Global,
    keys: &[usize],
    parents: &PeriodsByKey,
    plan: &Plan,
    children: &PeriodsByKey,
) -> Result<Option<Day>, Memory>
    ensures { IfOk result (λ found. (catalog : List TableDef) (before : State)
        (change : ChangeModel) (current : List Version)
        (number : ℕ) (child : TableDef) (reference : Reference) (parent : TableDef)
        → keys.now ≡ parent_positions parent reference
        → IsPlanned catalog before change current plan.now
        → IsReferredTo catalog before change current number child reference parent
        children.now parents.now
        → IsLeastOf (LacksParentBy (state_after change before) number child reference parent)
        found) }
{
    let ended = rows_of(alloc, plan.ended.as_slice())?;
    let added = plan.added.as_slice();
    let found = uncovered_by_parents(alloc, keys, parents, ended.as_slice(), added, children)?;
    Ok(found)
}

/// The versions without their system time.
pub fn rows_of(alloc: Global, versions: &[VersionRow]) -> Result<Vec<PeriodRow>, Memory>
    ensures { IfOk result (λ rows. rows.items ≡ map row_of versions.now) }
{
    let mut rows = Vec::new(alloc);
    for version in versions {
        rows.push(PeriodRow {
            values: version.values.copy(alloc)?,
            period: version.period,
        })?;
    }
    Ok(rows)
}
