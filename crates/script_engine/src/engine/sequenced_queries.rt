//! Sequenced queries answered: what their table references see, as period rows, and the answer over
//! these rows. All versions are in memory, so no query reads the database.

ghost use Rattle.std.specs.Prelude.{◌≡◌, ◌++◌, IfOk, List, OnOk, map, true};
ghost use Rattle.catalog_core.specs.declared.query.AnswerColumn.{AnswerColumn as Item};
ghost use Rattle.catalog_core.specs.declared.query.resolved.QueryReference.{QueryReference as Ref};
ghost use Rattle.catalog_core.specs.query.Fitting.{fits};
ghost use Rattle.catalog_core.specs.query.Queries.{plain_query, references_of};
ghost use Rattle.history_model.specs.Histories.{History};
ghost use Rattle.history_model.specs.OrdinaryQuery.{InAnswerOver};
ghost use Rattle.script_engine.specs.Headline.{IsSequencedAnswer};
ghost use Rattle.script_engine.specs.engine.Answering.{EachSees, SeesRows, columns_of};
ghost use Rattle.script_engine.specs.engine.Stored.{TablesRepresent};

use crate::engine::conditions::Conditions;
use crate::engine::in_memory::TablesInMemory;
use crate::engine::reading::{Access, read};
use catalog_core::AnswerColumn;
use catalog_core::resolved::{Query, QueryReference, Tables};
use coalesce_core::{coalesce, witnesses};
use period_core::{Answer, Items, Memory, PeriodRow, Text};
use period_keys::RowRange;
use sequenced_ops::run_query;
use std::alloc::Global;

// ---- the rows that a table reference sees

/// The rows that a table reference sees through its window, of the versions in memory. The rows may
/// come in any order, with overlaps and repeats.
fn seen_by(
    alloc: Global,
    tables: &TablesInMemory,
    reference: &QueryReference,
) -> Result<Items<PeriodRow>, Memory>
    ensures { IfOk result (λ rows. (history : History)
        → TablesRepresent history tables.now
        → SeesRows history reference.now rows) }
{
    let access = Access::of(reference, RowRange::all(alloc));
    let unconditional = Conditions {
        reference,
        conjuncts: &[],
        start: 0,
        width: 0,
    };
    let mut rows = Vec::new(alloc);
    read(alloc, tables, &access, &unconditional, &mut rows)?;
    Ok(Items::from_vec(rows))
}

// ---- the rows that the references of a query see

/// Adds to lists what each of the table references sees, in their order.
fn push_seen(
    alloc: Global,
    tables: &TablesInMemory,
    references: &[QueryReference],
    lists: &mut Vec<Items<PeriodRow>>,
) -> Result<(), Memory>
    ensures { (history : History) → TablesRepresent history tables.now
        → (before : List Ref) → EachSees history before lists.old.items
        → OnOk result (EachSees history (before ++ references.now) lists.new.items) }
{
    for reference in references {
        lists.push(seen_by(alloc, tables, reference)?)?;
    }
    Ok(())
}

/// Adds to lists what each of the references of a query sees, in the order of the text.
fn push_tables(
    alloc: Global,
    tables: &TablesInMemory,
    query: &Query,
    lists: &mut Vec<Items<PeriodRow>>,
) -> Result<(), Memory>
    ensures { (history : History) → TablesRepresent history tables.now
        → (before : List Ref) → EachSees history before lists.old.items
        → OnOk result (EachSees history
        (before ++ references_of (plain_query query.now)) lists.new.items) }
{
    match query {
        Query::Select(select) => { push_seen(alloc, tables, select.references.as_slice(), lists) }
        Query::Combined(_, left, right) => {
            push_tables(alloc, tables, left, lists)?;
            push_tables(alloc, tables, right, lists)
        }
    }
}

/// Rows that the table references of a query see, in the order of the text.
pub fn tables_of(alloc: Global, tables: &TablesInMemory, query: &Query) -> Result<Tables, Memory>
    ensures { IfOk result (λ seen. (history : History)
        → TablesRepresent history tables.now
        → EachSees history (references_of (plain_query query.now)) seen) }
{
    let mut lists = Vec::new(alloc);
    push_tables(alloc, tables, query, &mut lists)?;
    Ok(Tables::new(Items::from_vec(lists)))
}

// ---- the answer

/// The select list that names the columns of a query's answer: its leftmost select has it.
fn items_of(query: &Query) -> &[AnswerColumn]
    ensures { result.now ≡ columns_of (plain_query query.now) }
{
    match query {
        Query::Select(select) => select.items.as_slice(),
        Query::Combined(_, left, _) => items_of(left),
    }
}

/// The names of a select list.
fn column_names(alloc: Global, items: &[AnswerColumn]) -> Result<Items<Text>, Memory>
    ensures { IfOk result (λ names. names ≡ map (λ (item : Item). item.name) items.now) }
{
    let mut names = Vec::new(alloc);
    for item in items {
        names.push(item.name.as_text().copy(alloc)?)?;
    }
    Ok(Items::from_vec(names))
}

/// The answer of a query over what its references see: its rows, coalesced, with their witnesses.
pub fn evaluate(alloc: Global, query: &Query, tables: &Tables) -> Result<Answer, Memory>
    requires { fits (plain_query query.now) tables.now ≡ true }
    ensures right { IfOk result
        (IsSequencedAnswer (InAnswerOver (plain_query query.now) tables.now)) }
    ensures columns { IfOk result (λ answer. answer.columns
        ≡ map (λ (item : Item). item.name) (columns_of (plain_query query.now))) }
{
    let rows = run_query(alloc, query, tables)?;
    let rows = coalesce(alloc, rows)?;
    let witnesses = witnesses(alloc, rows.as_slice())?;
    Ok(Answer {
        columns: column_names(alloc, items_of(query))?,
        rows: Items::from_vec(rows),
        witnesses: Items::from_vec(witnesses),
    })
}
