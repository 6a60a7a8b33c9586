//! UPDATE and DELETE: their refusals, and what they are with positions in place of names.

ghost use Rattle.std.specs.Prelude.{IfErr, IfOk, OnOk};
ghost use Rattle.period_core.specs.Leasts.{MayAnswer, NoneApplies};
ghost use Rattle.sql_statements.specs.Plain.{plain_delete, plain_update};
ghost use Rattle.statement_resolution.specs.change.PortionChanges.{ResolvesDelete, ResolvesUpdate};
ghost use Rattle.statement_resolution.specs.change.PortionChanges.{delete_conditions};
ghost use Rattle.statement_resolution.specs.change.PortionChanges.{update_conditions};
ghost use Rattle.catalog_core.specs.RefusalConditions.{Holds};

use crate::change::portion_faults::twice_fault;
use crate::faults::Faults;
use crate::positions::{resolve_assignments, resolve_portion};
use crate::query::scope::Scope;
use crate::query::seen_column::own_columns;
use crate::resolver::resolve_where;
use catalog_core::{Action, Catalog, Change};
use period_core::Refusal;
use sql_statements::{DeleteRows, UpdateRows};
use std::alloc::Global;

/// The change that an UPDATE makes. An `Err` is the lowest-numbered of the refusals 23 to 31 and 41
/// that apply, or out of memory. They are judged on the statement alone, whichever rows it touches.
pub fn resolve_update(
    alloc: Global,
    catalog: &Catalog,
    update: &UpdateRows,
) -> Result<Change, Refusal>
    ensures sound { OnOk result
        (NoneApplies (Holds (update_conditions catalog.now.tables (plain_update update.now)))) }
    ensures resolved { IfOk result
        (λ change. ResolvesUpdate catalog.now.tables (plain_update update.now) change) }
    ensures refused { IfErr result
        (MayAnswer (Holds (update_conditions catalog.now.tables (plain_update update.now)))) }
{
    let Some((number, table)) = catalog.table_named(&update.table) else {
        return Err(Refusal::UnknownTable);
    };
    let sets = update.assignments.as_slice();
    let columns = own_columns(alloc, table)?;
    let mut found = Faults::none();
    let portion = resolve_portion(table, &update.portion, &mut found);
    let scope = Scope {
        before: &[],
        seen: columns.as_slice(),
    };
    let condition = resolve_where(alloc, &scope, &update.condition, &mut found)?;
    let assignments = resolve_assignments(alloc, table, sets, &mut found)?;
    if let Some(fault) = found.or(twice_fault(sets)).first() {
        return Err(fault);
    }
    Ok(Change {
        table: number,
        action: Action::Update(portion, assignments, condition),
    })
}

/// The change that a DELETE makes. An `Err` is the lowest-numbered of the refusals 23 to 30 and 41
/// that apply, or out of memory. They are judged on the statement alone, whichever rows it touches.
pub fn resolve_delete(
    alloc: Global,
    catalog: &Catalog,
    delete: &DeleteRows,
) -> Result<Change, Refusal>
    ensures sound { OnOk result
        (NoneApplies (Holds (delete_conditions catalog.now.tables (plain_delete delete.now)))) }
    ensures resolved { IfOk result
        (λ change. ResolvesDelete catalog.now.tables (plain_delete delete.now) change) }
    ensures refused { IfErr result
        (MayAnswer (Holds (delete_conditions catalog.now.tables (plain_delete delete.now)))) }
{
    let Some((number, table)) = catalog.table_named(&delete.table) else {
        return Err(Refusal::UnknownTable);
    };
    let columns = own_columns(alloc, table)?;
    let mut found = Faults::none();
    let portion = resolve_portion(table, &delete.portion, &mut found);
    let scope = Scope {
        before: &[],
        seen: columns.as_slice(),
    };
    let condition = resolve_where(alloc, &scope, &delete.condition, &mut found)?;
    if let Some(fault) = found.first() {
        return Err(fault);
    }
    Ok(Change {
        table: number,
        action: Action::Delete(portion, condition),
    })
}
