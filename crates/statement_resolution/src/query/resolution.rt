//! A sequenced query: its refusal, or the query with positions in place of names.

ghost use Rattle.std.specs.Prelude.{IfErr, IfOk, OnOk};
ghost use Rattle.period_core.specs.Leasts.{MayAnswer, NoneApplies};
ghost use Rattle.sql_statements.specs.Plain.{plain, plain_query};
ghost use Rattle.sql_statements.specs.Trees.{sequenced};
ghost use Rattle.catalog_core.specs.RefusalConditions.{Holds};
ghost use Rattle.catalog_core.specs.query.Queries as resolved;
ghost use Rattle.statement_resolution.specs.query.Resolving.{IsSequenced, ResolvesQuery};
ghost use Rattle.statement_resolution.specs.query.Resolving.{query_conditions};

use crate::faults::Faults;
use crate::query::query_conversion::convert_query;
use crate::query::query_parts::is_above_limit;
use catalog_core::Catalog;
use catalog_core::resolved::Query;
use period_core::Refusal;
use sql_statements::{QueryTree, SelectDistinct, Statement, StatementForm};
use std::alloc::Global;

/// A sequenced query with positions for names. An `Err` is the lowest-numbered of the refusals 21
/// to 30 that apply, wherever in the query, or out of memory.
pub fn resolve_sequenced(
    alloc: Global,
    catalog: &Catalog,
    query: &QueryTree<SelectDistinct>,
) -> Result<Query, Refusal>
    ensures sound { OnOk result (NoneApplies (Holds
        (query_conditions catalog.now.tables (sequenced (plain_query query.now))))) }
    ensures resolved { IfOk result (λ numbered. ResolvesQuery catalog.now.tables
        (sequenced (plain_query query.now)) (resolved.plain_query numbered)) }
    ensures refused { IfErr result (MayAnswer (Holds
        (query_conditions catalog.now.tables (sequenced (plain_query query.now))))) }
{
    if is_above_limit(query) {
        return Err(Refusal::LimitReached);
    }
    let mut place = 0;
    let mut faults = Faults::none();
    let side = convert_query(alloc, catalog, query, &mut place, &mut faults)?;
    match faults.first() {
        Some(fault) => Err(fault),
        None => Ok(side.query),
    }
}

/// The query that a statement asks, with positions for names, as `resolve_sequenced` gives it. The
/// statement is a sequenced query.
pub fn resolve_query(
    alloc: Global,
    catalog: &Catalog,
    statement: &Statement,
) -> Result<Query, Refusal>
    requires { IsSequenced (plain statement.now) }
    ensures sound { OnOk result
        (NoneApplies (Holds (query_conditions catalog.now.tables (plain statement.now)))) }
    ensures resolved { IfOk result (λ query. ResolvesQuery catalog.now.tables
        (plain statement.now) (resolved.plain_query query)) }
    ensures refused { IfErr result
        (MayAnswer (Holds (query_conditions catalog.now.tables (plain statement.now)))) }
{
    let StatementForm::Sequenced(query) = statement.form() else {
        unreachable!()
    };
    resolve_sequenced(alloc, catalog, query)
}
