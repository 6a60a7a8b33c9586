//! A change: its refusal, or the change with positions in place of names.

ghost use Rattle.std.specs.Prelude.{◌≡◌, IfErr, IfOk, OnOk};
ghost use Rattle.period_core.specs.Leasts.{MayAnswer, NoneApplies};
ghost use Rattle.sql_statements.specs.Plain.{plain};
ghost use Rattle.statement_resolution.specs.change.Insertion.{gives_empty_row, insert_conditions};
ghost use Rattle.catalog_core.specs.RefusalConditions.{Holds};
ghost use Rattle.statement_resolution.specs.change.Resolution.{IsChange, ResolvesChange};
ghost use Rattle.statement_resolution.specs.change.Resolution.{ResolvesInsert};
ghost use Rattle.statement_resolution.specs.change.Resolution.{change_conditions, empty_period};
ghost use Rattle.catalog_core.specs.change.EmptyRows.{has_empty_row};

use crate::change::insert_places::given_places;
use crate::change::inserted_rows::inserted_rows;
use crate::change::insertion::{shape_fault, value_fault};
use crate::change::portion_changes::{resolve_delete, resolve_update};
use catalog_core::{Action, Catalog, Change};
use period_core::{Items, Refusal};
use sql_statements::{InsertRows, Statement, StatementForm};
use std::alloc::Global;

/// The change that an INSERT makes. An `Err` is the lowest-numbered of the refusals 23 to 31 that
/// apply, or out of memory. Whether a row's period ends after its start is not yet judged: `empty`
/// says that the given rows decide it.
pub fn resolve_insert(
    alloc: Global,
    catalog: &Catalog,
    insert: &InsertRows,
) -> Result<Change, Refusal>
    ensures sound { OnOk result
        (NoneApplies (Holds (insert_conditions catalog.now.tables insert.now))) }
    ensures resolved { IfOk result
        (λ change. ResolvesInsert catalog.now.tables insert.now change) }
    ensures empty { IfOk result
        (λ change. gives_empty_row catalog.now.tables insert.now ≡ has_empty_row change.action) }
    ensures refused { IfErr result
        (MayAnswer (Holds (insert_conditions catalog.now.tables insert.now))) }
{
    let Some((number, table)) = catalog.table_named(&insert.table) else {
        return Err(Refusal::UnknownTable);
    };
    if let Some(fault) = shape_fault(table, insert) {
        return Err(fault);
    }
    let places = given_places(alloc, table, &insert.columns)?;
    if let Some(fault) = value_fault(table, insert, places.as_slice()) {
        return Err(fault);
    }
    let rows = inserted_rows(alloc, table, insert, places.as_slice())?;
    Ok(Change {
        table: number,
        action: Action::Insert(Items::from_vec(rows)),
    })
}

/// The change that a statement makes: an INSERT as `resolve_insert` gives it, an UPDATE as
/// `resolve_update`, a DELETE as `resolve_delete`. The statement is one of them.
pub fn resolve_change(
    alloc: Global,
    catalog: &Catalog,
    statement: &Statement,
) -> Result<Change, Refusal>
    requires { IsChange (plain statement.now) }
    ensures sound { OnOk result
        (NoneApplies (Holds (change_conditions catalog.now.tables (plain statement.now)))) }
    ensures resolved { IfOk result
        (λ change. ResolvesChange catalog.now.tables (plain statement.now) change) }
    ensures empty { IfOk result (λ change.
        (empty_period catalog.now.tables (plain statement.now)).1 ≡ has_empty_row change.action) }
    ensures refused { IfErr result
        (MayAnswer (Holds (change_conditions catalog.now.tables (plain statement.now)))) }
{
    match statement.form() {
        StatementForm::Insert(insert) => resolve_insert(alloc, catalog, insert),
        StatementForm::Update(update) => resolve_update(alloc, catalog, update),
        StatementForm::Delete(delete) => resolve_delete(alloc, catalog, delete),
        _ => unreachable!(),
    }
}
