//! A session: the parts of one input, each run as soon as it is read, and the commands between
//! them.

ghost use Rattle.std.specs.Prelude.{◌≡◌, ◌≢◌, ◌∷◌, ℕ, [], All, Bool, IfErr, IfOk, IfSome, IsSome};
ghost use Rattle.std.specs.Prelude.{List, None, Option, false, true};
ghost use Rattle.std.specs.Io.KnownBytes.{Appends};
ghost use Rattle.version_store.specs.StoreState.{IsUsable, SparesOthers};
ghost use Rattle.history_model.specs.Histories.{History};
ghost use Rattle.command_line.specs.declared.fault.RunFault.TheVariants.{Memory};
ghost use Rattle.script_engine.specs.engine.Stored.{EngineRepresents, RepresentsSome, WasUsable};
ghost use Rattle.bitemporal_file.specs.Commands.{IsAnswer, IsAnswered, IsAnsweredOver};
ghost use Rattle.bitemporal_file.specs.Parts.{IsPart, is_command};
ghost use Rattle.bitemporal_file.specs.Reporting.{IsReportFault, ReceivesResults};
ghost use Rattle.bitemporal_file.specs.ScriptRuns.{AreRun, IsWhole};
ghost use Rattle.bitemporal_file.specs.Sessions.{AreTurnsOf, EndsWith, IsTurn, ReceivesTurn};
ghost use Rattle.bitemporal_file.specs.Sessions.{LeadsThrough, PartStep, Turn, TurnStep, bytes_in};
ghost use Rattle.bitemporal_file.specs.Sessions.{ends_line, placed_at, runs_in, runs_of};

use crate::commands::answer_to_line;
use crate::parts::{Part, read_part};
use crate::reporter::{Reported, Reporter};
use crate::system::System;
use command_line::{RunFault, Tracked};
use period_core::Refusal;
use script_engine::{Engine, Listener, PieceResult, run_over};
use sqlite::Alter;
use std::alloc::Global;
use std::io::{Read, Write};
use std::time::Clock;

// The refusal of a part that begins at this byte of the session, where a bad token is counted from
// the session's beginning. Nothing if it is not within 64 bits.
fn placed(start: usize, refusal: Refusal) -> Option<Refusal>
    ensures { IfSome result (λ placed. placed ≡ placed_at start refusal) }
{
    match refusal {
        Refusal::BadToken(offset) => match start.checked_add(offset) {
            Some(place) => Some(Refusal::BadToken(place)),
            None => None,
        },
        other => Some(other),
    }
}

// Reports that a part that begins at this byte is refused as a whole, as the refusal of one
// statement. Says whether the session continues.
fn refuse_part<K: Reported + Drop, W: Write, E: Write>(
    start: usize,
    refusal: Refusal,
    reporter: &mut Reporter<W, E>,
) -> Result<bool, RunFault>
    requires { reporter.old.fault ≡ None }
    ensures told { IfOk result (λ goes_on. ReceivesResults W.contents E.contents K.text K.status_of
        K.forgotten_of reporter.old
        (K.refused (placed_at start refusal) ∷ []) goes_on reporter.new) }
    ensures none { IfErr result (λ fault. (fault ≡ Memory) × (reporter.new ≡ reporter.old)) }
{
    match placed(start, refusal) {
        Some(refusal) => Ok(reporter.hear(1, K::of_refusal(refusal))),
        None => Err(RunFault::Memory),
    }
}

// Runs a part as a script of its own, and reports it. If it is refused as a whole, that is
// reported as the refusal of one statement.
fn run_whole<S: Alter, K: PieceResult<S> + Reported + Drop, C: Clock, W: Write, E: Write>(
    alloc: Global,
    engine: &mut Engine<S>,
    clock: &C,
    start: usize,
    bytes: &[u8],
    reporter: &mut Reporter<W, E>,
) -> Result<bool, RunFault>
    requires { reporter.old.fault ≡ None }
    ensures ran { IfOk result (λ goes_on. (results : List K)
        × ReceivesResults W.contents E.contents K.text K.status_of K.forgotten_of
        reporter.old results goes_on reporter.new
        × (IsSome reporter.new.fault → results ≢ [])
        × PartStep K.is_step_over K.refused start engine.old
        (record { script = bytes.now; results = results; is_whole = goes_on }) engine.new
        × (IsUsable S.Store engine.new.connection
        → (history : History) → EngineRepresents S.Store history engine.old
        → RepresentsSome S.Store (PartStep K.is_step K.refused start history
        (record { script = bytes.now; results = results; is_whole = goes_on })) engine.new)) }
    ensures none { IfErr result (λ fault. (fault ≡ Memory) × (reporter.new ≡ reporter.old)
        × (engine.new ≡ engine.old)) }
    ensures usable { WasUsable S.Store engine.old.connection engine.new.connection }
    ensures others { SparesOthers S.Store engine.old.connection engine.new.connection }
{
    match run_over::<S, K, C, Reporter<W, E>>(alloc, engine, clock, bytes, reporter) {
        Ok(goes_on) => Ok(goes_on),
        Err(refusal) => refuse_part::<K, W, E>(start, refusal, reporter),
    }
}

// Does what the line of a command asks for, and writes its answer. Says whether that met no fault.
fn run_command<S: Alter, C: System, W: Write, E>(
    alloc: Global,
    engine: &mut Engine<S>,
    system: &C,
    line: &[u8],
    reporter: &mut Reporter<W, E>,
) -> bool
    requires { reporter.old.fault ≡ None }
    ensures told { (told : List ℕ)
        × (result ≡ true → Appends (W.contents reporter.old.out) (W.contents reporter.new.out) told)
        × (IsUsable S.Store engine.new.connection
        → (history : History) → EngineRepresents S.Store history engine.old
        → IsAnswer C.made history line.now told × EngineRepresents S.Store history engine.new) }
    ensures quiet { result ≡ true → reporter.new.fault ≡ None }
    ensures fault { result ≡ false → IsSome reporter.new.fault
        × IfSome reporter.new.fault IsReportFault }
    ensures same { reporter.new
        ≡ record reporter.old { out = reporter.new.out; fault = reporter.new.fault } }
    ensures usable { WasUsable S.Store engine.old.connection engine.new.connection }
    ensures others { SparesOthers S.Store engine.old.connection engine.new.connection }
{
    match answer_to_line(alloc, engine, system, line) {
        Ok(text) => reporter.tell(Some(text.as_slice())),
        Err(_) => reporter.tell(None),
    }
}

// Runs a part that was read, or does what the line of a command asks for, and reports it. The part
// begins at this byte of the session.
fn run_turn<S: Alter, K: PieceResult<S> + Reported + Drop, C: System, W: Write, E: Write>(
    alloc: Global,
    engine: &mut Engine<S>,
    system: &C,
    start: usize,
    part: &Part,
    reporter: &mut Reporter<W, E>,
) -> Result<bool, RunFault>
    requires { reporter.old.fault ≡ None }
    ensures ran { (starts : Bool) (bytes : List ℕ) (left : Option (List ℕ))
        → IsPart starts bytes left part.now → IfOk result (λ goes_on. (turn : Turn K)
        × (bytes_in turn ≡ bytes) × IsTurn starts turn left
        × (ends_line turn ≡ is_command part.now)
        × (goes_on ≡ true → All IsWhole (runs_in turn))
        × ReceivesTurn W.contents E.contents K.text K.status_of K.forgotten_of
        reporter.old turn goes_on reporter.new
        × TurnStep K.is_step_over K.refused (IsAnsweredOver S.Store) start
        engine.old turn engine.new
        × (IsUsable S.Store engine.new.connection
        → (history : History) → EngineRepresents S.Store history engine.old
        → RepresentsSome S.Store (TurnStep K.is_step K.refused (IsAnswered C.made) start history
        turn)
        engine.new)) }
    ensures none { IfErr result (λ fault. (fault ≡ Memory) × (reporter.new ≡ reporter.old)
        × (engine.new ≡ engine.old)) }
    ensures usable { WasUsable S.Store engine.old.connection engine.new.connection }
    ensures others { SparesOthers S.Store engine.old.connection engine.new.connection }
{
    match part {
        Part::Whole(bytes) => {
            let script = bytes.as_slice();
            run_whole::<S, K, C, W, E>(alloc, engine, system, start, script, reporter)
        }
        Part::TooLarge(_) => refuse_part::<K, W, E>(start, Refusal::ScriptTooLarge, reporter),
        Part::Command(line) => {
            let text = line.bytes.as_slice();
            Ok(run_command(alloc, engine, system, text, reporter))
        }
    }
}

/// Runs the parts of an input, each up to its semicolon, as they are read, and does what the lines
/// of commands between them ask for. Says whether the run came to the input's end, where no more
/// than blanks and comments follow the last part.
pub(crate) fn run_parts<
    S: Alter,
    K: PieceResult<S> + Reported + Drop,
    C: System,
    R: Read,
    W: Write,
    E: Write,
>(
    alloc: Global,
    engine: &mut Engine<S>,
    system: &C,
    input: &mut Tracked<R>,
    reporter: &mut Reporter<W, E>,
) -> Result<bool, RunFault>
    requires { reporter.old.fault ≡ None }
    ensures ran { (turns : List (Turn K))
        × AreTurnsOf (R.remaining input.old.inner) (R.remaining input.new.inner)
        input.new.has_failed turns result
        × AreRun (runs_of turns) result reporter.new.fault
        × EndsWith W.contents E.contents K.text K.status_of K.forgotten_of
        reporter.old turns result reporter.new
        × LeadsThrough K.is_step_over K.refused (IsAnsweredOver S.Store) 0
        engine.old turns engine.new
        × (IsUsable S.Store engine.new.connection
        → (history : History) → EngineRepresents S.Store history engine.old
        → RepresentsSome S.Store
        (LeadsThrough K.is_step K.refused (IsAnswered C.made) 0 history turns) engine.new) }
    ensures usable { WasUsable S.Store engine.old.connection engine.new.connection }
    ensures others { SparesOthers S.Store engine.old.connection engine.new.connection }
{
    let mut start: usize = 0;
    let mut starts_line = true;
    // The input ends the loop. Its bound shows that it ends in any case.
    'parts: for _ in 0..u64::MAX {
        let Some(part) = read_part(alloc, input, starts_line)? else {
            return Ok(true);
        };
        let goes_on = run_turn::<S, K, C, W, E>(alloc, engine, system, start, &part, reporter)?;
        if let Some(fault) = reporter.fault {
            return Err(fault);
        }
        if !goes_on {
            return Ok(false);
        }
        start = match start.checked_add(part.len()) {
            Some(end) => end,
            None => return Err(RunFault::Memory),
        };
        starts_line = part.is_command();
    }
    Err(RunFault::Memory)
}
