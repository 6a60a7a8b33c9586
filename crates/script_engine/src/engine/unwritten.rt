//! Statements that are no queries, if the store is only read: why each is refused.

ghost use Rattle.std.specs.Prelude.{◌≡◌, IfSome, None};
ghost use Rattle.sql_statements.specs.Plain.{plain};
ghost use Rattle.sql_statements.specs.Trees as statement;
ghost use Rattle.sql_statements.specs.Trees.{Statement as StatementModel};
ghost use Rattle.history_model.specs.Histories.{History};
ghost use Rattle.script_engine.specs.engine.Planned.{IsResolved};
ghost use Rattle.script_engine.specs.engine.Runs.{IsQuery};
ghost use Rattle.script_engine.specs.engine.Stored.{EngineRepresents};
ghost use Rattle.script_engine.specs.engine.Unwritten.{MayRefuseUnwritten};
ghost use Rattle.script_engine.specs.engine.Unwritten.{MayRefuseUnwrittenOver};
ghost use Rattle.statement_reports.specs.declared.outcome.Word.{Word as WordModel};

use crate::engine::Engine;
use crate::engine::lawfulness::lawful_plan;
use catalog_core::{Change, define};
use period_core::Refusal;
use sql_statements::{ClockMoment, CreateTable, Statement, StatementForm};
use sqlite_trees::store::Alter;
use statement_resolution::{resolve_delete, resolve_insert, resolve_update};
use std::alloc::Global;

impl<S: Alter> Engine<S> {
    // Of an AT.
    fn refusal_of_at(&self, moment: ClockMoment) -> Refusal
        ensures step { (history : History) → EngineRepresents S.Store history self.now
            → MayRefuseUnwritten history (statement.at moment) result }
        ensures over { MayRefuseUnwrittenOver self.now.catalog.tables self.now.clock
            (statement.at moment) result }
    {
        if moment.moment() < self.store.clock() {
            Refusal::MomentBack
        } else {
            Refusal::Store
        }
    }

    // Of a CREATE.
    fn refusal_of_create(&self, alloc: Global, create: &CreateTable) -> Refusal
        ensures step { (history : History) → EngineRepresents S.Store history self.now
            → MayRefuseUnwritten history (statement.create create.now) result }
        ensures over { MayRefuseUnwrittenOver self.now.catalog.tables self.now.clock
            (statement.create create.now) result }
    {
        match define(alloc, self.store.catalog(), create) {
            Ok(definition) => {
                drop(definition);
                Refusal::Store
            }
            Err(refusal) => refusal,
        }
    }

    // Of a change that a statement is resolved to, or as which it was refused.
    fn refusal_of_change(&self, alloc: Global, resolved: Result<Change, Refusal>) -> Refusal
        requires { (s : StatementModel) × (verb : WordModel)
            × IsResolved self.now.catalog.tables s verb resolved }
        ensures step { (history : History) → EngineRepresents S.Store history self.now
            → (s : StatementModel) (verb : WordModel)
            → IsResolved self.now.catalog.tables s verb resolved
            → MayRefuseUnwritten history s result }
        ensures over { (s : StatementModel) (verb : WordModel)
            → IsResolved self.now.catalog.tables s verb resolved
            → MayRefuseUnwrittenOver self.now.catalog.tables self.now.clock s result }
    {
        let change = match resolved {
            Ok(change) => change,
            Err(refusal) => return refusal,
        };
        match lawful_plan(alloc, self.store.catalog(), self.tables.current(), change) {
            Ok(made) => {
                drop(made);
                Refusal::Store
            }
            Err(refusal) => refusal,
        }
    }

    /// Why a statement is refused if the store is only read: as it would be over a store that is
    /// written, or with 62 if it would be accepted. Nothing of a query, which is not refused for
    /// that.
    pub(crate) fn refusal_unwritten(&self, alloc: Global, statement: &Statement) -> Option<Refusal>
        ensures query { result ≡ None → IsQuery (plain statement.now) }
        ensures other { IfSome result (λ _. IsQuery (plain statement.now) → ⊥) }
        ensures step { (history : History) → EngineRepresents S.Store history self.now
            → IfSome result (MayRefuseUnwritten history (plain statement.now)) }
        ensures over { IfSome result
            (MayRefuseUnwrittenOver self.now.catalog.tables self.now.clock (plain statement.now)) }
    {
        match statement.form() {
            StatementForm::At(moment) => Some(self.refusal_of_at(*moment)),
            StatementForm::Create(create) => Some(self.refusal_of_create(alloc, create.table())),
            StatementForm::Insert(insert) => {
                let resolved = resolve_insert(alloc, self.catalog(), insert);
                Some(self.refusal_of_change(alloc, resolved))
            }
            StatementForm::Update(update) => {
                let resolved = resolve_update(alloc, self.catalog(), update);
                Some(self.refusal_of_change(alloc, resolved))
            }
            StatementForm::Delete(delete) => {
                let resolved = resolve_delete(alloc, self.catalog(), delete);
                Some(self.refusal_of_change(alloc, resolved))
            }
            StatementForm::Sequenced(_) => None,
            StatementForm::Stored(_) => None,
        }
    }
}
