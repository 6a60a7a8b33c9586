//! The plans of changes.

ghost use Rattle.std.specs.Prelude.{◌≡◌, ◌⊎◌, [], IfErr, IfOk, IsTrue, List};
ghost use Rattle.catalog_core.specs.change.EmptyRows.{has_empty_row, is_empty_row};
ghost use Rattle.catalog_core.specs.declared.change.Action.TheVariants.{Insert};
ghost use Rattle.history_model.specs.Effects.{inserted_by};
ghost use Rattle.history_model.specs.Portions.{plain_given, plain_row};
ghost use Rattle.period_core.specs.declared.version.VersionRow.{VersionRow as Version};
ghost use Rattle.portion_dml.specs.Plans.{IsDelete, IsInsert, IsUpdate, Plans};

use crate::parts::{push_replacements, touched};
use catalog_core::{Action, Change, InsertedRow, Plan};
use period_core::{Items, Memory, Period, PeriodRow, Refusal, VersionRow};
use std::alloc::Global;

/// The plan of an action that gives no rows, over its table's current versions.
pub fn plan_portion(alloc: Global, current: &[VersionRow], action: &Action) -> Result<Plan, Memory>
    requires { inserted_by action.now ≡ [] }
    ensures { IfOk result (λ plan. Plans action.now current.now plan) }
{
    let mut ended = Vec::new(alloc);
    let mut added = Vec::new(alloc);
    for row in current {
        if touched(action, row) {
            push_replacements(alloc, &mut added, action, row)?;
            ended.push(row.copy(alloc)?)?;
        }
    }
    Ok(Plan {
        ended: Items::from_vec(ended),
        added: Items::from_vec(added),
    })
}

/// The plan of an UPDATE over its table's current versions. Its only refusal is out of memory.
pub fn plan_update(alloc: Global, current: &[VersionRow], change: &Change) -> Result<Plan, Refusal>
    requires { IsUpdate change.now.action }
    ensures plan { IfOk result (λ plan. Plans change.now.action current.now plan) }
    ensures refused { IfErr result (λ refusal. refusal ≡ Refusal.Memory) }
{
    let plan = plan_portion(alloc, current, &change.action)?;
    Ok(plan)
}

/// The plan of a DELETE over its table's current versions. Its only refusal is out of memory.
pub fn plan_delete(alloc: Global, current: &[VersionRow], change: &Change) -> Result<Plan, Refusal>
    requires { IsDelete change.now.action }
    ensures plan { IfOk result (λ plan. Plans change.now.action current.now plan) }
    ensures refused { IfErr result (λ refusal. refusal ≡ Refusal.Memory) }
{
    let plan = plan_portion(alloc, current, &change.action)?;
    Ok(plan)
}

/// The row that INSERT gives, with its values. Its refusal is a period without a day.
fn added_row(given: InsertedRow) -> Result<PeriodRow, Refusal>
    ensures ok { IfOk result (λ row. plain_row row ≡ plain_given given) }
    ensures refused { IfErr result (λ refusal.
        (refusal ≡ Refusal.EmptyPeriod) × IsTrue (is_empty_row given)) }
{
    let InsertedRow { values, start, end } = given;
    let Some(period) = Period::new(start, end) else {
        return Err(Refusal::EmptyPeriod);
    };
    Ok(PeriodRow { values, period })
}

/// The plan of an INSERT that gives these rows, whose values it takes. It ends no version. It is
/// refused if a row has a period without a day, and else only out of memory.
pub fn plan_given(alloc: Global, given: Items<InsertedRow>) -> Result<Plan, Refusal>
    ensures plan { IfOk result (λ plan. (current : List Version)
        → Plans (Insert given) current plan) }
    ensures refused { IfErr result (λ refusal.
        ((refusal ≡ Refusal.EmptyPeriod) × IsTrue (has_empty_row (Insert given)))
        ⊎ (refusal ≡ Refusal.Memory)) }
{
    let rows = given.into_vec();
    let mut added = Vec::with_capacity(alloc, rows.len())?;
    for row in rows {
        added.push_reserved(added_row(row)?);
    }
    Ok(Plan {
        ended: Items::empty(alloc),
        added: Items::from_vec(added),
    })
}

/// The rows that an action gives.
fn given_by(action: &Action) -> &[InsertedRow]
    ensures { result.now ≡ inserted_by action.now }
{
    match action {
        Action::Insert(given) => given.as_slice(),
        Action::Update(..) | Action::Delete(..) => &[],
    }
}

/// Copies of the given rows.
fn copied_rows(alloc: Global, rows: &[InsertedRow]) -> Result<Vec<InsertedRow>, Memory>
    ensures { IfOk result (λ copies. copies.items ≡ rows.now) }
{
    let mut copies = Vec::new(alloc);
    for row in rows {
        copies.push(InsertedRow {
            values: row.values.copy(alloc)?,
            start: row.start,
            end: row.end,
        })?;
    }
    Ok(copies)
}

/// The plan of an INSERT, which ends none of its table's current versions. It is refused if a
/// row that it gives has a period without a day, and else only out of memory.
pub fn plan_insert(alloc: Global, current: &[VersionRow], change: &Change) -> Result<Plan, Refusal>
    requires { IsInsert change.now.action }
    ensures plan { IfOk result (λ plan. Plans change.now.action current.now plan) }
    ensures refused { IfErr result (λ refusal.
        ((refusal ≡ Refusal.EmptyPeriod) × IsTrue (has_empty_row change.now.action))
        ⊎ (refusal ≡ Refusal.Memory)) }
{
    let _current = current;
    let given = copied_rows(alloc, given_by(&change.action))?;
    plan_given(alloc, Items::from_vec(given))
}
