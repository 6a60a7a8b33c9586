//! Statements that are run with an audit of their answer. A query is answered as without one; the
//! checker gets all rows that its references see, whatever the answer was made from.

ghost use Rattle.std.specs.Prelude.{◌≡◌, IfErr};
ghost use Rattle.catalog_core.specs.query.Queries.{plain_query as plain_resolved};
ghost use Rattle.history_model.specs.Histories.{History, catalog_of};
ghost use Rattle.history_model.specs.OrdinaryQuery.{InAnswerOn};
ghost use Rattle.sql_statements.specs.Plain.{plain, plain_query};
ghost use Rattle.sql_statements.specs.Trees as statement;
ghost use Rattle.version_store.specs.StoreState.{SparesOthers};
ghost use Rattle.script_engine.specs.Headline.{IsSequencedAnswer};
ghost use Rattle.script_engine.specs.engine.Answering.{IsOfCatalog};
ghost use Rattle.script_engine.specs.engine.Audits.{AuditedStepsTo, IsAuditOf};
ghost use Rattle.script_engine.specs.engine.Healthy.{StatementLeavesHealthy};
ghost use Rattle.script_engine.specs.engine.Over.{RunsOver, StepOver};
ghost use Rattle.script_engine.specs.engine.Runs.{IsQuery, MayRefuseQuery};
ghost use Rattle.script_engine.specs.engine.Stored.{IfRepresents, KeepsOnErr, TablesRepresent};

use crate::engine::Engine;
use crate::engine::in_memory::TablesInMemory;
use crate::engine::needed::answer_query;
use crate::engine::sequenced_queries::tables_of;
use catalog_core::resolved::Query;
use period_core::{Answer, Refusal};
use snapshot_audit::{Verdict, audit};
use sql_statements::{QueryTree, SelectDistinct, Statement, StatementForm};
use sqlite_trees::store::Alter;
use statement_reports::{Entry, Outcome};
use statement_resolution::resolve_sequenced;
use std::alloc::Global;

/// Audits the answer of a query, over all that its references see in memory.
fn audit_of(
    alloc: Global,
    tables: &TablesInMemory,
    query: &Query,
    answer: &Answer,
) -> Result<Verdict, Refusal>
    ensures confirms { (history : History)
        → TablesRepresent history tables.now
        → IsOfCatalog (catalog_of history) (plain_resolved query.now)
        → IsSequencedAnswer (InAnswerOn history (plain_resolved query.now)) answer.now
        → IsAuditOf history (plain_resolved query.now) answer.now result }
    ensures memory { IfErr result (λ refusal. refusal ≡ Refusal.Memory) }
{
    let seen = tables_of(alloc, tables, query)?;
    let verdict = audit(alloc, query, &seen, answer)?;
    Ok(verdict)
}

impl<S: Alter> Engine<S> {
    /// Answers a sequenced query, and audits the answer. Nothing is changed.
    fn answer_audited(&mut self, alloc: Global, query: &QueryTree<SelectDistinct>) -> Entry
        ensures step { IfRepresents S.Store self.old self.new (λ history.
            AuditedStepsTo S.Store history (statement.sequenced (plain_query query.now)) result
            self.new) }
        ensures queries { IfRepresents S.Store self.old self.new (λ history.
            IfErr result.result (MayRefuseQuery S.Store self.old self.new
            (statement.sequenced (plain_query query.now)))) }
        ensures kept { KeepsOnErr S.Store self.old self.new result.result }
        ensures over { StepOver S.Store self.old (statement.sequenced (plain_query query.now))
            result.result self.new }
        ensures healthy { StatementLeavesHealthy S.Store self.old
            (statement.sequenced (plain_query query.now)) result.result self.new }
        ensures others { SparesOthers S.Store self.old.connection self.new.connection }
    {
        let query = match resolve_sequenced(alloc, self.store.catalog(), query) {
            Ok(query) => query,
            Err(refusal) => return Entry::unaudited(Err(refusal)),
        };
        match answer_query(alloc, &mut self.tables, &query) {
            Ok(answer) => {
                let audit = audit_of(alloc, &self.tables, &query, &answer);
                Entry {
                    result: Ok(Outcome::Answer(answer)),
                    audit: Some(audit),
                }
            }
            Err(refusal) => Entry::unaudited(Err(refusal)),
        }
    }

    /// Runs a statement as `execute` does, and audits its answer, if it gives one. The audit says
    /// that the answer agrees, or is refused for memory: either way the answer is given.
    pub fn execute_audited(&mut self, alloc: Global, statement: &Statement) -> Entry
        // Whatever history the engine represents, the call is a step of it, and the engine then
        // represents the new one. Without its audit it is one of `execute`.
        ensures step { IfRepresents S.Store self.old self.new (λ history.
            AuditedStepsTo S.Store history (plain statement.now) result self.new) }
        ensures runs { RunsOver S.Store self.old (plain statement.now) result.result self.new }
        ensures kept { KeepsOnErr S.Store self.old self.new result.result }

        // A query is refused with 62 only if there was a fault of the database.
        ensures queries { IfRepresents S.Store self.old self.new (λ history.
            IsQuery (plain statement.now) → IfErr result.result
            (MayRefuseQuery S.Store self.old self.new (plain statement.now))) }
        ensures others { SparesOthers S.Store self.old.connection self.new.connection }
    {
        match statement.form() {
            StatementForm::Sequenced(query) => self.answer_audited(alloc, query),
            _ => Entry::unaudited(self.execute(alloc, statement)),
        }
    }
}
