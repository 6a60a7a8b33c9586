//! Results with the number of versions that a change forgets.

ghost use Rattle.std.specs.Prelude.{◌≡◌, Err, None, Result, length};
ghost use Rattle.period_core.specs.declared.refusal.Refusal.{Refusal as RefusalModel};
ghost use Rattle.sql_statements.specs.Plain.{plain};
ghost use Rattle.script_engine.specs.engine.Ended.{ended_in};
ghost use Rattle.script_engine.specs.script.AuditedRuns.{AuditedPieceStep};
ghost use Rattle.script_engine.specs.script.Noted.{NotedStep, NotedStepOver, ending_table, lost_of};
ghost use Rattle.script_engine.specs.script.Noted.{touched_in};
ghost use Rattle.script_engine.specs.script.Script.{KeptStepOver, PieceStep, PieceStepOver};
ghost use Rattle.statement_reports.specs.declared.entry.Entry.{Entry as EntryModel};
ghost use Rattle.statement_reports.specs.declared.outcome.Outcome.{Outcome as OutcomeModel};

use crate::engine::Engine;
use crate::script::piece_result::PieceResult;
use period_core::Refusal;
use sql_statements::{Statement, StatementForm};
use sqlite_trees::store::Alter;
use statement_reports::{Entry, Outcome, Word};
use std::alloc::Global;
use std::time::Clock;

/// A recorded result of a piece, and how many versions its statement forgot: those that it
/// ended at the very moment at which they began. The history before it has them, and none after it.
#[derive(Drop)]
pub struct Noted<K> {
    /// The recorded result of the piece.
    pub kept: K,
    /// The number of versions.
    pub forgotten: u64,
}

// The table that a statement may change, and how many of its versions have ended.
#[derive(Clone, Copy)]
struct Past {
    table: u8,
    ended: usize,
}

// The number of the table whose versions a statement may end, or 0.
fn table_of<S: Alter>(engine: &Engine<S>, statement: &Statement) -> u8
    ensures { result ≡ ending_table engine.now.catalog.tables (plain statement.now) }
{
    match statement.form() {
        StatementForm::At(_) => 0,
        StatementForm::Create(_) => 0,
        StatementForm::Insert(_) => 0,
        StatementForm::Update(update) => engine.catalog().find(&update.table).unwrap_or(0),
        StatementForm::Delete(delete) => engine.catalog().find(&delete.table).unwrap_or(0),
        StatementForm::Sequenced(_) => 0,
        StatementForm::Stored(_) => 0,
    }
}

// The versions that have ended before a statement.
fn past_before<S: Alter>(engine: &Engine<S>, statement: &Statement) -> Past
    ensures table { result.table ≡ ending_table engine.now.catalog.tables (plain statement.now) }
    ensures ended { result.ended ≡ length (ended_in engine.now.ended result.table) }
{
    let table = table_of(engine, statement);
    Past {
        table,
        ended: engine.ended_of(table),
    }
}

// The number of versions that a result says were touched.
fn touched_of(kept: &Result<Outcome, Refusal>) -> u64
    ensures { result ≡ touched_in kept.now }
{
    match kept {
        Ok(Outcome::Done(Word::Update, count)) => *count,
        Ok(Outcome::Done(Word::Delete, count)) => *count,
        _ => 0,
    }
}

// The number of touched versions that have not ended since.
fn forgotten_since<S: Alter>(
    engine: &Engine<S>,
    past: &Past,
    kept: &Result<Outcome, Refusal>,
) -> u64
    ensures { result ≡ lost_of (touched_in kept.now) past.now.ended
        (length (ended_in engine.now.ended past.now.table)) }
{
    let more = engine.ended_of(past.table).saturating_sub(past.ended);
    touched_of(kept).saturating_sub(more as u64)
}

impl<S: Alter> PieceResult<S> for Noted<Result<Outcome, Refusal>> {
    ghost is_step = { NotedStep PieceStep (λ (kept : Result OutcomeModel RefusalModel). kept) };

    ghost is_step_over = { NotedStepOver (PieceStepOver S.Store)
        (λ (kept : Result OutcomeModel RefusalModel). kept) };

    ghost of_refusal = { λ refusal. record { kept = Err refusal; forgotten = 0 } };

    fn refused(refusal: Refusal) -> Noted<Result<Outcome, Refusal>> {
        Noted {
            kept: Err(refusal),
            forgotten: 0,
        }
    }

    fn executed<C: Clock>(
        alloc: Global,
        engine: &mut Engine<S>,
        _clock: &C,
        statement: &Statement,
    ) -> Noted<Result<Outcome, Refusal>> {
        let past = past_before(engine, statement);
        let kept = engine.execute(alloc, statement);
        let forgotten = forgotten_since(engine, &past, &kept);
        Noted { kept, forgotten }
    }
}

impl<S: Alter> PieceResult<S> for Noted<Entry> {
    ghost is_step = { NotedStep AuditedPieceStep (λ (entry : EntryModel). entry.result) };

    ghost is_step_over = { NotedStepOver
        (KeptStepOver S.Store (λ (entry : EntryModel). entry.result))
        (λ (entry : EntryModel). entry.result) };

    ghost of_refusal = { λ refusal.
        record { kept = record { result = Err refusal; audit = None }; forgotten = 0 } };

    fn refused(refusal: Refusal) -> Noted<Entry> {
        Noted {
            kept: Entry::unaudited(Err(refusal)),
            forgotten: 0,
        }
    }

    fn executed<C: Clock>(
        alloc: Global,
        engine: &mut Engine<S>,
        _clock: &C,
        statement: &Statement,
    ) -> Noted<Entry> {
        let past = past_before(engine, statement);
        let kept = engine.execute_audited(alloc, statement);
        let forgotten = forgotten_since(engine, &past, &kept.result);
        Noted { kept, forgotten }
    }
}
