//! The rows of a query's selects on each day, as rows over periods, and the query's set by them.

ghost use Rattle.std.specs.Prelude.{◌≡◌, ◌↔◌, All, IsTrue, OnOk, drop};
ghost use Rattle.catalog_core.specs.query.Queries.{plain_query};
ghost use Rattle.snapshot_audit.specs.Differences.{AddsRowsOf, InLists, is_combined, select_count};
ghost use Rattle.snapshot_audit.specs.Staggered.{AreStaggered};

use crate::select_rows::select_rows;
use crate::staggered::{holds_on, staggered};
use catalog_core::resolved::{Query, Tables};
use period_core::{Day, Items, Memory, PeriodRow, Values};
use sql_statements::SetOperator;
use std::alloc::Global;

/// Adds for each select, in the order of the text, staggered rows that hold on each day what it
/// gives on it.
pub(crate) fn add_query_rows(
    alloc: Global,
    lists: &mut Vec<Items<PeriodRow>>,
    query: &Query,
    tables: &Tables,
) -> Result<(), Memory>
    ensures { OnOk result
        (AddsRowsOf tables.now (plain_query query.now) lists.old.items lists.new.items) }
{
    match query {
        Query::Select(select) => {
            let rows = select_rows(alloc, select, tables)?;
            let list = staggered(alloc, rows)?;
            lists.push(list)?;
            Ok(())
        }
        Query::Combined(_, left, right) => {
            add_query_rows(alloc, lists, left, tables)?;
            add_query_rows(alloc, lists, right, tables)
        }
    }
}

// Whether what the set operator makes of two sets has what is in the first or not, and in the
// second or not.
fn is_combined(operator: SetOperator, first: bool, second: bool) -> bool
    ensures { result ≡ is_combined operator first second }
{
    match operator {
        SetOperator::Union => first || second,
        SetOperator::Except => first && !second,
        SetOperator::Intersect => first && second,
    }
}

/// Whether the query's set on the day has the values, if the first lists are the rows of
/// its selects; and the remaining lists.
pub(crate) fn in_query<'l>(
    query: &Query,
    lists: &'l [Items<PeriodRow>],
    values: &Values,
    day: Day,
) -> (bool, &'l [Items<PeriodRow>])
    requires { All AreStaggered lists.now }
    ensures told { IsTrue result.0 ↔ InLists (plain_query query.now) lists.now day values.now }
    ensures rest { result.1.now ≡ drop (select_count (plain_query query.now)) lists.now }
{
    match query {
        Query::Select(_) => {
            let [list, rest @ ..] = lists else {
                return (false, lists);
            };
            (holds_on(list.as_slice(), values, day), rest)
        }
        Query::Combined(operator, left, right) => {
            let (first, others) = in_query(left, lists, values, day);
            let (second, rest) = in_query(right, others, values, day);
            (is_combined(*operator, first, second), rest)
        }
    }
}
