//! A stored query: its refusal, or the query with positions in place of names.

ghost use Rattle.std.specs.Prelude.{IfErr, IfOk, OnOk};
ghost use Rattle.period_core.specs.Leasts.{MayAnswer, NoneApplies};
ghost use Rattle.sql_statements.specs.Plain.{plain, plain_stored};
ghost use Rattle.catalog_core.specs.RefusalConditions.{Holds};
ghost use Rattle.statement_resolution.specs.stored.StoredQueries.{IsStored, ResolvesStored};
ghost use Rattle.statement_resolution.specs.stored.StoredQueries.{ResolvesStoredQuery};
ghost use Rattle.statement_resolution.specs.stored.StoredQueries.{stored_conditions};
ghost use Rattle.statement_resolution.specs.stored.StoredQueries.{stored_query_conditions};

use crate::faults::Faults;
use crate::query::scope::Scope;
use crate::query::seen_column::own_columns;
use crate::resolver::resolve_where;
use crate::stored::conditions::StoredScope;
use crate::system_window::window_of;
use catalog_core::{Catalog, Stored};
use period_core::Refusal;
use sql_statements::{Statement, StatementForm, StoredQuery};
use std::alloc::Global;

/// A stored query with positions for names. An `Err` is the lowest-numbered of the refusals 23 to
/// 30 and 41 that apply, or out of memory.
pub fn resolve_stored_query(
    alloc: Global,
    catalog: &Catalog,
    query: &StoredQuery,
) -> Result<Stored, Refusal>
    ensures sound { OnOk result (NoneApplies
        (Holds (stored_query_conditions catalog.now.tables (plain_stored query.now)))) }
    ensures resolved { IfOk result
        (λ stored. ResolvesStoredQuery catalog.now.tables (plain_stored query.now) stored) }
    ensures refused { IfErr result (MayAnswer
        (Holds (stored_query_conditions catalog.now.tables (plain_stored query.now)))) }
{
    let Some((number, table)) = catalog.table_named(&query.table) else {
        return Err(Refusal::UnknownTable);
    };
    let columns = own_columns(alloc, table)?;
    let scope = StoredScope {
        table,
        columns: Scope {
            before: &[],
            seen: columns.as_slice(),
        },
    };
    let mut found = Faults::none();
    let condition = resolve_where(alloc, &scope, &query.condition, &mut found)?;
    if let Some(fault) = found.first() {
        return Err(fault);
    }
    Ok(Stored {
        table: number,
        window: window_of(&query.window),
        condition,
    })
}

/// Resolves a statement, which is a stored query.
pub fn resolve_stored(
    alloc: Global,
    catalog: &Catalog,
    statement: &Statement,
) -> Result<Stored, Refusal>
    requires { IsStored (plain statement.now) }
    ensures sound { OnOk result
        (NoneApplies (Holds (stored_conditions catalog.now.tables (plain statement.now)))) }
    ensures resolved { IfOk result
        (λ stored. ResolvesStored catalog.now.tables (plain statement.now) stored) }
    ensures refused { IfErr result
        (MayAnswer (Holds (stored_conditions catalog.now.tables (plain statement.now)))) }
{
    let StatementForm::Stored(query) = statement.form() else {
        unreachable!()
    };
    resolve_stored_query(alloc, catalog, query)
}
