//! The first day on which an answer is not the query's set.

ghost use Rattle.std.specs.Prelude.{◌≡◌, ◌↔◌, All, IfOk, IsTrue, MatchBool, MatchOption};
ghost use Rattle.catalog_core.specs.query.Queries.{plain_query};
ghost use Rattle.history_model.specs.OrdinaryQuery.{InAnswerOver};
ghost use Rattle.temporal_model.specs.Snapshot.{IsDay};
ghost use Rattle.snapshot_audit.specs.Differences.{AgreesIn, ChangesOn, ChangesOnAny, Checks};
ghost use Rattle.snapshot_audit.specs.Differences.{IsAt, IsBefore};
ghost use Rattle.snapshot_audit.specs.Staggered.{AreStaggered};
ghost use Rattle.snapshot_audit.specs.Verdicts.{AgreesAlways, IsFirstDifference};

use crate::query_rows::{add_query_rows, in_query};
use crate::staggered::{holds_on, staggered};
use catalog_core::resolved::{Query, Tables};
use period_core::{Day, Items, Memory, PeriodRow, Values};
use std::alloc::Global;

// Copies of the rows.
fn copies(alloc: Global, rows: &[PeriodRow]) -> Result<Vec<PeriodRow>, Memory>
    ensures { IfOk result (λ list. list.items ≡ rows.now) }
{
    let mut list = Vec::with_capacity(alloc, rows.len())?;
    for row in rows {
        list.push(row.copy(alloc)?)?;
    }
    Ok(list)
}

// Whether a period can cover the day: 9999-12-31 is only an end.
fn can_be_covered(day: Day) -> bool
    ensures { IsTrue result ↔ IsDay day }
{
    day.next().is_some()
}

// Whether the day is before the other, if there is one.
fn is_before(day: Day, least: &Option<Day>) -> bool
    ensures { MatchBool result (IsBefore least.now day) (IsBefore least.now day → ⊥) }
{
    match least {
        Some(other) => day < *other,
        None => true,
    }
}

// Whether one of the answer and the query's set has the values on the day, and the other has not.
fn differs(
    query: &Query,
    lists: &[Items<PeriodRow>],
    answer: &[PeriodRow],
    values: &Values,
    day: Day,
) -> bool
    requires lists { All AreStaggered lists.now }
    requires answer { AreStaggered answer.now }
    ensures { let Agrees = AgreesIn (plain_query query.now) lists.now answer.now day values.now in
        MatchBool result (Agrees → ⊥) Agrees }
{
    let (wanted, _) = in_query(query, lists, values, day);
    holds_on(answer, values, day) != wanted
}

// The day, if it is before the least one, and the answer differs on it in the values; or else the
// least one.
fn earlier(
    query: &Query,
    lists: &[Items<PeriodRow>],
    answer: &[PeriodRow],
    values: &Values,
    day: Day,
    least: Option<Day>,
) -> Option<Day>
    requires lists { All AreStaggered lists.now }
    requires answer { AreStaggered answer.now }
    ensures { Checks (plain_query query.now) lists.now answer.now
        (IsAt day values.now) least result }
{
    if !is_before(day, &least) || !can_be_covered(day) {
        return least;
    }
    if differs(query, lists, answer, values, day) {
        return Some(day);
    }
    least
}

// The least of this day and of those on which a row of the list starts or ends and the answer
// differs in its values.
fn earliest(
    query: &Query,
    lists: &[Items<PeriodRow>],
    answer: &[PeriodRow],
    rows: &[PeriodRow],
    least: Option<Day>,
) -> Option<Day>
    requires lists { All AreStaggered lists.now }
    requires answer { AreStaggered answer.now }
    ensures { Checks (plain_query query.now) lists.now answer.now
        (ChangesOn rows.now) least result }
{
    let mut first = least;
    for row in rows {
        let start = earlier(query, lists, answer, &row.values, row.period.start, first);
        first = earlier(query, lists, answer, &row.values, row.period.end, start);
    }
    first
}

// The earliest difference of all lists.
fn earliest_of_all(query: &Query, lists: &[Items<PeriodRow>], answer: &[PeriodRow]) -> Option<Day>
    requires lists { All AreStaggered lists.now }
    requires answer { AreStaggered answer.now }
    ensures { Checks (plain_query query.now) lists.now answer.now
        (ChangesOnAny answer.now lists.now) None result }
{
    let mut first = earliest(query, lists, answer, answer, None);
    for list in lists {
        first = earliest(query, lists, answer, list.as_slice(), first);
    }
    first
}

/// The least day on which the snapshot of the rows is not the query's set. It is one on which a row
/// of the answer or of a select starts or ends, and the values of that row show it.
pub(crate) fn first_difference(
    alloc: Global,
    query: &Query,
    tables: &Tables,
    rows: &[PeriodRow],
) -> Result<Option<Day>, Memory>
    ensures { let InSet = InAnswerOver (plain_query query.now) tables.now in
        IfOk result (λ found. MatchOption found
        (AgreesAlways InSet rows.now) (IsFirstDifference InSet rows.now)) }
{
    let copied = copies(alloc, rows)?;
    let answer = staggered(alloc, copied)?;
    let mut lists = Vec::new(alloc);
    add_query_rows(alloc, &mut lists, query, tables)?;
    Ok(earliest_of_all(query, lists.as_slice(), answer.as_slice()))
}
