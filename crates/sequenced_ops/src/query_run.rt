//! The rows that a query gives.

ghost use Rattle.std.specs.Prelude.{◌≡◌, IfOk, map, true};
ghost use Rattle.catalog_core.specs.declared.query.AnswerColumn.{AnswerColumn as Item};
ghost use Rattle.catalog_core.specs.query.Fitting.{fits};
ghost use Rattle.catalog_core.specs.query.Queries.{one, plain_query};
ghost use Rattle.history_model.specs.OrdinaryQuery.{InAnswerOver};
ghost use Rattle.sequenced_ops.specs.Operations.{InProjection, SnapshotsAre};
ghost use Rattle.sequenced_ops.specs.Planning.{InJoined};

use crate::differences::difference;
use crate::intersections::intersection;
use crate::key_joins::join_next;
use crate::outputs::JoinOutput;
use crate::pruning::{copy_pruned, rules_some_out};
use crate::selection::select_meeting;
use crate::unions::union;
use catalog_core::resolved::{Query, QueryReference, Select, Tables};
use catalog_core::{AnswerColumn, Cond};
use period_core::{Memory, PeriodRow};
use sql_statements::SetOperator;
use std::alloc::Global;

/// The positions of the items.
fn positions_of(alloc: Global, items: &[AnswerColumn]) -> Result<Vec<usize>, Memory>
    ensures { IfOk result
        (λ columns. columns.items ≡ map (λ (item : Item). item.position) items.now) }
{
    let mut columns = Vec::with_capacity(alloc, items.len())?;
    for item in items {
        columns.push(item.position)?;
    }
    Ok(columns)
}

/// The rows joined so far, joined with the references that are left, from left to right: the values
/// at these positions of the rows that meet all conditions.
fn join_all(
    alloc: Global,
    tables: &Tables,
    conjuncts: &[Cond],
    columns: &[usize],
    rows: &[PeriodRow],
    references: &[QueryReference],
) -> Result<Vec<PeriodRow>, Memory>
    ensures { IfOk result (λ joined. SnapshotsAre
        (InProjection columns.now (InJoined tables.now conjuncts.now rows.now references.now))
        joined.items) }
{
    let [reference, more @ ..] = references else {
        return select_meeting(alloc, rows, conjuncts, columns);
    };
    let others = tables.rows_for(reference);
    if more.is_empty() {
        return join_next(alloc, conjuncts, JoinOutput::Columns(columns), rows, others);
    }
    let next = join_next(alloc, conjuncts, JoinOutput::Pairs, rows, others)?;
    join_all(alloc, tables, conjuncts, columns, next.as_slice(), more)
}

/// The rows of the first reference, joined with the rest from left to right, as `join_all` gives
/// them. Rows that the conditions on the first reference alone rule out are left out before.
fn join_references(
    alloc: Global,
    tables: &Tables,
    conjuncts: &[Cond],
    columns: &[usize],
    first: &[PeriodRow],
    more: &[QueryReference],
) -> Result<Vec<PeriodRow>, Memory>
    ensures { IfOk result (λ joined. SnapshotsAre
        (InProjection columns.now (InJoined tables.now conjuncts.now first.now more.now))
        joined.items) }
{
    if !more.is_empty() && rules_some_out(conjuncts, 0, first) {
        let kept = copy_pruned(alloc, conjuncts, 0, first)?;
        return join_all(alloc, tables, conjuncts, columns, kept.as_slice(), more);
    }
    join_all(alloc, tables, conjuncts, columns, first, more)
}

/// The rows that a select gives.
fn run_select(alloc: Global, select: &Select, tables: &Tables) -> Result<Vec<PeriodRow>, Memory>
    ensures { IfOk result (λ rows. SnapshotsAre
        (InAnswerOver (one select.now) tables.now) rows.items) }
{
    let [reference, more @ ..] = select.references.as_slice() else {
        unreachable!()
    };
    let columns = positions_of(alloc, select.items.as_slice())?;
    let first = tables.rows_for(reference);
    let conjuncts = select.conjuncts.as_slice();
    join_references(alloc, tables, conjuncts, columns.as_slice(), first, more)
}

/// The rows that a part of a query gives.
fn run_part(alloc: Global, query: &Query, tables: &Tables) -> Result<Vec<PeriodRow>, Memory>
    ensures { IfOk result (λ rows. SnapshotsAre
        (InAnswerOver (plain_query query.now) tables.now) rows.items) }
{
    match query {
        Query::Select(select) => run_select(alloc, select, tables),
        Query::Combined(operator, left, right) => {
            let first = run_part(alloc, left, tables)?;
            let second = run_part(alloc, right, tables)?;
            match operator {
                SetOperator::Union => union(first, second),
                SetOperator::Except => difference(alloc, first, second),
                SetOperator::Intersect => intersection(alloc, first, second),
            }
        }
    }
}

/// The rows that a query gives: on each day they hold the set of the ordinary query over what the
/// table references see on that day. They may overlap and repeat. The tables are the query's, as
/// `fits` tests.
pub fn run_query(alloc: Global, query: &Query, tables: &Tables) -> Result<Vec<PeriodRow>, Memory>
    requires { fits (plain_query query.now) tables.now ≡ true }
    ensures { IfOk result (λ rows. SnapshotsAre
        (InAnswerOver (plain_query query.now) tables.now) rows.items) }
{
    run_part(alloc, query, tables)
}
