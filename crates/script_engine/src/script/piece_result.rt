//! The result of a piece of a script, as a run keeps it: alone, or with the audit of its answer.
//! `timed.rt` adds the system's time.

ghost use Rattle.std.specs.Prelude.{◌≡◌, List, None, Err};
ghost use Rattle.period_core.specs.Leasts.{MayAnswer, NoneApplies};
ghost use Rattle.period_core.specs.declared.refusal.Refusal.{Refusal as RefusalModel};
ghost use Rattle.sql_front.specs.Grammar.{IsStatement};
ghost use Rattle.sql_statements.specs.Lexemes.{Lexeme};
ghost use Rattle.sql_statements.specs.Plain.{plain};
ghost use Rattle.history_model.specs.Histories.{History};
ghost use Rattle.version_store.specs.StoreState.{SparesOthers};
ghost use Rattle.script_engine.specs.engine.EngineState.{EngineState};
ghost use Rattle.script_engine.specs.engine.Stored.{IfRepresents, RepresentsSome, WasUsable};
ghost use Rattle.script_engine.specs.script.AuditedRuns.{AuditedPieceStep};
ghost use Rattle.script_engine.specs.script.Script.{KeptStepOver, PieceStep, PieceStepOver};
ghost use Rattle.script_engine.specs.script.Script.{TextApplies};
ghost use Rattle.statement_reports.specs.declared.entry.Entry.{Entry as EntryModel};

use crate::engine::Engine;
use period_core::Refusal;
use sql_statements::Statement;
use sqlite_trees::store::Alter;
use statement_reports::{Entry, Outcome};
use std::alloc::Global;
use std::time::Clock;

/// A record of a piece.
pub trait PieceResult<S: Alter> {
    /// The pieces of which it may be the record in a history, and the history that follows.
    ghost is_step: { History → List Lexeme → Self → History → Type 0 };

    /// The pieces of which it may be the record between states of an engine, over any database.
    ghost is_step_over: { EngineState S → List Lexeme → Self → EngineState S → Type 0 };

    /// The record of a piece that is refused before it is run.
    ghost of_refusal: { RefusalModel → Self };

    /// Of a piece that is refused before it is run, as by its tokens alone.
    fn refused(refusal: Refusal) -> Self
        ensures kept { result ≡ of_refusal refusal }
        ensures step { (piece : List Lexeme) → MayAnswer (TextApplies piece) refusal
            → (history : History) → is_step history piece result history }
        ensures over { (piece : List Lexeme) → MayAnswer (TextApplies piece) refusal
            → (engine : EngineState S) → is_step_over engine piece result engine };

    /// Of a piece that spells this statement, which is run, with a clock that gives the system's
    /// time.
    fn executed<C: Clock>(
        alloc: Global,
        engine: &mut Engine<S>,
        clock: &C,
        statement: &Statement,
    ) -> Self
        ensures step { IfRepresents S.Store engine.old engine.new (λ history.
            (piece : List Lexeme) → NoneApplies (TextApplies piece)
            → IsStatement piece (plain statement.now)
            → RepresentsSome S.Store (is_step history piece result) engine.new) }
        ensures over { (piece : List Lexeme) → NoneApplies (TextApplies piece)
            → IsStatement piece (plain statement.now)
            → is_step_over engine.old piece result engine.new }
        ensures usable { WasUsable S.Store engine.old.connection engine.new.connection }
        ensures others { SparesOthers S.Store engine.old.connection engine.new.connection };
}

impl<S: Alter> PieceResult<S> for Result<Outcome, Refusal> {
    ghost is_step = { PieceStep };

    ghost is_step_over = { PieceStepOver S.Store };

    ghost of_refusal = { λ refusal. Err refusal };

    fn refused(refusal: Refusal) -> Result<Outcome, Refusal> {
        Err(refusal)
    }

    fn executed<C: Clock>(
        alloc: Global,
        engine: &mut Engine<S>,
        _clock: &C,
        statement: &Statement,
    ) -> Result<Outcome, Refusal> {
        engine.execute(alloc, statement)
    }
}

impl<S: Alter> PieceResult<S> for Entry {
    ghost is_step = { AuditedPieceStep };

    ghost is_step_over = { KeptStepOver S.Store (λ (entry : EntryModel). entry.result) };

    ghost of_refusal = { λ refusal. record { result = Err refusal; audit = None } };

    fn refused(refusal: Refusal) -> Entry {
        Entry::unaudited(Err(refusal))
    }

    fn executed<C: Clock>(
        alloc: Global,
        engine: &mut Engine<S>,
        _clock: &C,
        statement: &Statement,
    ) -> Entry {
        engine.execute_audited(alloc, statement)
    }
}
