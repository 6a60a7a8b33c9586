//! The rows that the table references of a query have to see: of the versions in memory those that
//! can be part of a combined row that meets the conditions of their select. So a query whose
//! conditions leave a range of keys looks at the rows with a key in that range alone. One that
//! joins a few rows with a table, by its key or by the columns of a reference, looks at the rows of
//! their keys, whichever of the two comes first in the text.

ghost use Rattle.std.specs.List.{AllByRecursion};
ghost use Rattle.std.specs.Prelude.{◌≡◌, IfErr, IfOk, OnOk, map};
ghost use Rattle.catalog_core.specs.declared.query.AnswerColumn.{AnswerColumn as Item};
ghost use Rattle.catalog_core.specs.query.Queries.{plain_query, references_of};
ghost use Rattle.history_model.specs.Histories.{History, catalog_of};
ghost use Rattle.history_model.specs.OrdinaryQuery.{InAnswerOn};
ghost use Rattle.period_core.specs.declared.refusal.Refusal.TheVariants.{Memory as OutOfMemory};
ghost use Rattle.version_store.specs.StoreState.{IsStoreRefusal};
ghost use Rattle.script_engine.specs.Headline.{IsSequencedAnswer};
ghost use Rattle.script_engine.specs.engine.Answering.{IsKnown, IsOfCatalog, columns_of};
ghost use Rattle.script_engine.specs.engine.Needed.{AddNeeded, IsNeededBy};
ghost use Rattle.script_engine.specs.engine.Stored.{TablesRepresent};

use crate::engine::in_memory::TablesInMemory;
use crate::engine::read_lists::push_needed_by_each;
use crate::engine::sequenced_queries::evaluate;
use catalog_core::fits;
use catalog_core::resolved::{Query, Tables};
use period_core::{Answer, Items, Memory, PeriodRow, Refusal};
use std::alloc::Global;

/// Adds to lists what each of the references of a query has to see, in the order of the text.
fn push_needed_tables(
    alloc: Global,
    tables: &mut TablesInMemory,
    query: &Query,
    lists: &mut Vec<Items<PeriodRow>>,
) -> Result<(), Memory>
    ensures needed { (history : History) → TablesRepresent history tables.old
        → AllByRecursion (IsKnown (catalog_of history)) (references_of (plain_query query.now))
        → OnOk result (AddNeeded (IsNeededBy history (plain_query query.now))
        lists.old.items lists.new.items) }
    ensures same { tables.new ≡ tables.old }
{
    match query {
        Query::Select(select) => {
            let conjuncts = select.conjuncts.as_slice();
            let references = select.references.as_slice();
            push_needed_by_each(alloc, tables, conjuncts, references, lists)
        }
        Query::Combined(_, left, right) => {
            push_needed_tables(alloc, tables, left, lists)?;
            push_needed_tables(alloc, tables, right, lists)
        }
    }
}

/// Rows that the table references of a query have to see, in the order of the text.
fn needed_tables(
    alloc: Global,
    tables: &mut TablesInMemory,
    query: &Query,
) -> Result<Tables, Memory>
    ensures needed { IfOk result (λ needed. (history : History)
        → TablesRepresent history tables.old
        → AllByRecursion (IsKnown (catalog_of history)) (references_of (plain_query query.now))
        → IsNeededBy history (plain_query query.now) needed) }
    ensures same { tables.new ≡ tables.old }
{
    let mut lists = Vec::new(alloc);
    push_needed_tables(alloc, tables, query, &mut lists)?;
    Ok(Tables::new(Items::from_vec(lists)))
}

/// The answer of a query over the rows in memory. Of what its references see, only what it needs is
/// looked at, which in a history always fits a query of the catalog. If it does not, the rows in
/// memory are no history's, and the refusal is 62. The versions that have ended are the same
/// afterwards, chained if that may help.
pub fn answer_query(
    alloc: Global,
    tables: &mut TablesInMemory,
    query: &Query,
) -> Result<Answer, Refusal>
    ensures right { (history : History) → TablesRepresent history tables.old
        → IsOfCatalog (catalog_of history) (plain_query query.now)
        → IfOk result (IsSequencedAnswer (InAnswerOn history (plain_query query.now))) }
    ensures why { (history : History) → TablesRepresent history tables.old
        → IsOfCatalog (catalog_of history) (plain_query query.now)
        → IfErr result (λ refusal. refusal ≡ OutOfMemory) }
    ensures columns { IfOk result (λ answer. answer.columns
        ≡ map (λ (item : Item). item.name) (columns_of (plain_query query.now))) }
    ensures named { IfErr result IsStoreRefusal }
    ensures same { tables.new ≡ tables.old }
{
    let needed = needed_tables(alloc, tables, query)?;
    if !fits(query, &needed) {
        return Err(Refusal::Store);
    }
    let answer = evaluate(alloc, query, &needed)?;
    Ok(answer)
}
