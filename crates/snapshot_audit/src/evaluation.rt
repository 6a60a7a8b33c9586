//! The set of a query on a day, by the ordinary query.

ghost use Rattle.std.specs.Prelude.{IfOk};
ghost use Rattle.catalog_core.specs.query.Queries.{plain_query};
ghost use Rattle.history_model.specs.OrdinaryQuery.{InAnswerOver, InQuery};
ghost use Rattle.snapshot_audit.specs.ActiveRows.{VisibleInActive};
ghost use Rattle.snapshot_audit.specs.Sets.{ListsSet};

use crate::selects::selected_set;
use crate::set_operations::combined;
use crate::snapshots::all_active_on;
use catalog_core::resolved::{Query, Tables};
use period_core::{Day, Memory, PeriodRow, Values};
use std::alloc::Global;

/// The set of a query by the active rows, in ascending order, each list of values once.
pub(crate) fn evaluated(
    alloc: Global,
    query: &Query,
    seen: &[Vec<&PeriodRow>],
) -> Result<Vec<Values>, Memory>
    ensures { IfOk result (λ set.
        ListsSet (InQuery (VisibleInActive seen.now) (plain_query query.now)) set.items) }
{
    match query {
        Query::Select(select) => selected_set(alloc, select, seen),
        Query::Combined(operator, left, right) => {
            let first = evaluated(alloc, left, seen)?;
            let second = evaluated(alloc, right, seen)?;
            combined(alloc, *operator, first, second)
        }
    }
}

/// The set that the ordinary query gives on a day, if each reference sees that day's snapshot of
/// the list in its place: in ascending order, each list of values once.
pub fn eval_on(
    alloc: Global,
    query: &Query,
    tables: &Tables,
    day: Day,
) -> Result<Vec<Values>, Memory>
    ensures { IfOk result (λ set.
        ListsSet (InAnswerOver (plain_query query.now) tables.now day) set.items) }
{
    let seen = all_active_on(alloc, tables, day)?;
    evaluated(alloc, query, seen.as_slice())
}
