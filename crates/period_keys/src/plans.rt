//! The plan of a change over a table's current rows by key.

ghost use Rattle.std.specs.Prelude.{◌≡◌, ◌↔◌, ◌<◌, ◌≤◌, ◌⊎◌, ◌++◌, ◌∷◌, [], ℕ, Contains, IfErr};
ghost use Rattle.std.specs.Prelude.{IfOk, IfSome, IsTrue, List, OnOk, length, map, slice_index_or};
ghost use Rattle.std.specs.Prelude.{true};
ghost use Rattle.std.specs.List.Sorted.{IsSorted};
ghost use Rattle.std.specs.Ordering.{nat_cmp};
ghost use Rattle.catalog_core.specs.change.EmptyRows.{has_empty_row};
ghost use Rattle.catalog_core.specs.Conditions.{meets};
ghost use Rattle.history_model.specs.Effects.{inserted_by};
ghost use Rattle.history_model.specs.Portions.{touches};
ghost use Rattle.period_core.specs.declared.version.VersionRow.{VersionRow as Version};
ghost use Rattle.portion_dml.specs.Plans.{Plans, version_row};
ghost use Rattle.period_keys.specs.Between.{Meets};
ghost use Rattle.period_keys.specs.Planned.{IsPlanOf};
ghost use Rattle.period_keys.specs.Rows.{rows_of_lists};
ghost use Rattle.period_keys.specs.Versions.{has_key_in};

use crate::key_rows::KeyRows;
use crate::row_range::RowRange;
use crate::table_index::TableIndex;
use catalog_core::{Action, Cond, Plan};
use period_core::{Items, Memory, Period, Refusal, VersionRow};
use portion_dml::{plan_given, plan_portion};
use std::alloc::Global;

/// Makes the secondary index by which `plan_change` finds the rows that an action's condition
/// leaves, if there is to be one, and it is not there yet.
pub fn prepare_plan(alloc: Global, table: &mut TableIndex, action: &Action) -> Result<(), Memory>
    ensures { table.new ≡ table.old }
{
    match condition_of(action) {
        Some(condition) => table.prepare(alloc, condition),
        None => Ok(()),
    }
}

/// The plan of a change over its table's current rows. Those that its condition leaves are looked
/// at alone (`TableIndex::rows_of`). The values of the rows that an INSERT gives become the plan's
/// values. It is refused if such a row has a period without a day, and else only out of memory.
pub fn plan_change(alloc: Global, table: &TableIndex, action: Action) -> Result<Plan, Refusal>
    ensures plan { IfOk result (λ plan. IsPlanOf action table.now.rows plan) }
    ensures refused { IfErr result (λ refusal.
        ((refusal ≡ Refusal.EmptyPeriod) × IsTrue (has_empty_row action))
        ⊎ (refusal ≡ Refusal.Memory)) }
{
    match action {
        Action::Insert(given) => plan_given(alloc, given),
        action => Ok(plan_by_condition(alloc, table, &action)?),
    }
}

// The plan of an action that gives no rows, over the rows that its condition leaves.
fn plan_by_condition(alloc: Global, table: &TableIndex, action: &Action) -> Result<Plan, Memory>
    requires { inserted_by action.now ≡ [] }
    ensures { IfOk result (λ plan. IsPlanOf action.now table.now.rows plan) }
{
    let rows = rows_of_action(alloc, table, action)?;
    plan_over(alloc, table.groups_of(alloc, &rows)?, action)
}

// The rows of the table that an action may touch.
fn rows_of_action(alloc: Global, table: &TableIndex, action: &Action) -> Result<RowRange, Memory>
    ensures { IfOk result (λ rows. (version : Version)
        → touches action.now (version_row version) ≡ true
        → has_key_in rows.positions rows.range version ≡ true) }
{
    match condition_of(action) {
        Some(condition) => table.rows_of(alloc, condition),
        None => Ok(RowRange::all(alloc)),
    }
}

// The plan of an action that gives no rows, over the rows of the groups.
fn plan_over(alloc: Global, groups: Vec<&KeyRows>, action: &Action) -> Result<Plan, Memory>
    requires { inserted_by action.now ≡ [] }
    ensures { IfOk result (λ plan.
        Plans action.now (rows_of_lists (map (λ group. group.now) groups.entry.items)) plan) }
{
    let mut plan = Plan {
        ended: Items::empty(alloc),
        added: Items::empty(alloc),
    };
    for group in groups {
        let own = plan_of_group(alloc, group, action)?;
        append_plan(&mut plan, own)?;
    }
    Ok(plan)
}

// The plan over the rows of a key, of which, if they are many, those are looked at that share a
// day with the portion.
fn plan_of_group(alloc: Global, group: &KeyRows, action: &Action) -> Result<Plan, Memory>
    requires { inserted_by action.now ≡ [] }
    ensures { IfOk result (λ plan. Plans action.now group.now.rows.items plan) }
{
    let Some(portion) = portion_of(action) else {
        return plan_portion(alloc, group.as_slice(), action);
    };
    let Some(places) = group.places_near(alloc, portion)? else {
        return plan_portion(alloc, group.as_slice(), action);
    };
    plan_at(alloc, group.as_slice(), places.as_slice(), action)
}

// The portion of an action, if it has one.
fn portion_of(action: &Action) -> Option<&Period>
    ensures { IfSome result (λ portion. (version : Version)
        → touches action.now (version_row version) ≡ true
        → Meets version.period portion.now) }
{
    match action {
        Action::Insert(_) => None,
        Action::Update(portion, _, _) => portion.as_ref(),
        Action::Delete(portion, _) => portion.as_ref(),
    }
}

// The plan over rows of which those at the places alone are touched.
fn plan_at(
    alloc: Global,
    rows: &[VersionRow],
    places: &[usize],
    action: &Action,
) -> Result<Plan, Memory>
    requires given { inserted_by action.now ≡ [] }
    requires ascending { IsSorted nat_cmp places.now }
    requires others { (place : ℕ) (d : Version) → place < length rows.now
        → touches action.now (version_row (slice_index_or rows.now place d)) ≡ true
        → (Contains places.now place → ⊥) → ⊥ }
    ensures { IfOk result (λ plan. Plans action.now rows.now plan) }
{
    let mut plan = Plan {
        ended: Items::empty(alloc),
        added: Items::empty(alloc),
    };
    let mut next = 0;
    for place in places {
        let at = *place;
        let is_next = is_between(at, next, rows.len());
        if is_next {
            plan_one(alloc, rows, at, action, &mut plan)?;
            next = at + 1;
        }
    }
    Ok(plan)
}

// Whether the place is one from a place on and before an end.
fn is_between(place: usize, from: usize, end: usize) -> bool
    ensures { IsTrue result ↔ ((from ≤ place) × (place < end)) }
{
    from <= place && place < end
}

// Adds the plan over the row at a place.
fn plan_one(
    alloc: Global,
    rows: &[VersionRow],
    at: usize,
    action: &Action,
    plan: &mut Plan,
) -> Result<(), Memory>
    requires given { inserted_by action.now ≡ [] }
    requires at { at < length rows.now }
    ensures { OnOk result ((before : List Version) (d : Version)
        → Plans action.now before plan.old
        → Plans action.now (before ++ slice_index_or rows.now at d ∷ []) plan.new) }
{
    let own = plan_portion(alloc, &rows[at..at + 1], action)?;
    append_plan(plan, own)
}

// Adds what another plan ends and adds.
fn append_plan(plan: &mut Plan, other: Plan) -> Result<(), Memory>
    ensures { OnOk result (plan.new ≡ record {
      ended = plan.old.ended ++ other.ended;
      added = plan.old.added ++ other.added;
    }) }
{
    plan.ended.append(other.ended)?;
    plan.added.append(other.added)
}

// The condition of an action, if it has one.
fn condition_of(action: &Action) -> Option<&Cond>
    ensures given { IfSome result (λ condition. inserted_by action.now ≡ []) }
    ensures met { IfSome result (λ condition. (version : Version)
        → touches action.now (version_row version) ≡ true
        → meets condition.now version.values ≡ true) }
{
    match action {
        Action::Insert(_) => None,
        Action::Update(_, _, condition) => condition.as_ref(),
        Action::Delete(_, condition) => condition.as_ref(),
    }
}
