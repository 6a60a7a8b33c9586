//! The audit of an answer.

ghost use Rattle.std.specs.Prelude.{IfOk};
ghost use Rattle.catalog_core.specs.query.Queries.{plain_query};
ghost use Rattle.history_model.specs.OrdinaryQuery.{InAnswerOver};
ghost use Rattle.snapshot_audit.specs.ChangeDays.{seen_lists};
ghost use Rattle.snapshot_audit.specs.Verdicts.{IsVerdict};

use crate::days::change_days;
use crate::differences::first_difference;
use crate::verdict::Verdict;
use crate::witness_check::check_witnesses;
use catalog_core::resolved::{Query, Tables};
use period_core::{Answer, Memory};
use std::alloc::Global;

/// Compares the answer's snapshot with the query's set on each change day, and then checks the
/// witnesses. Each reference of the query sees the list in its place; none, if there is no such
/// list.
pub fn audit(
    alloc: Global,
    query: &Query,
    tables: &Tables,
    answer: &Answer,
) -> Result<Verdict, Memory>
    ensures { let plain = plain_query query.now in
        IfOk result (IsVerdict (InAnswerOver plain tables.now) (seen_lists plain tables.now)
        answer.now.rows answer.now.witnesses) }
{
    let rows = answer.rows.as_slice();
    let found = change_days(alloc, query, tables, rows)?;
    let days = found.as_slice();
    match first_difference(alloc, query, tables, rows)? {
        Some(day) => Ok(Verdict::Differs(day)),
        None => match check_witnesses(rows, answer.witnesses.as_slice()) {
            Some(row) => Ok(Verdict::BadWitness(row)),
            None => Ok(Verdict::Agrees(days.len())),
        },
    }
}
