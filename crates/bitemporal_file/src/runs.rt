//! Runs of scripts, one after the other.

ghost use Rattle.std.specs.Prelude.{◌≡◌, ◌∷◌, [], List, None, map};
ghost use Rattle.std.specs.String.{string_bytes};
ghost use Rattle.version_store.specs.StoreState.{IsUsable, SparesOthers};
ghost use Rattle.history_model.specs.Histories.{History};
ghost use Rattle.script_engine.specs.engine.Stored.{EngineRepresents, RepresentsSome, WasUsable};
ghost use Rattle.bitemporal_file.specs.ScriptRuns.{AreOfReaders, AreRun, Ends, LeadsTo, ScriptRun};

use crate::reporter::{Reported, Reporter};
use crate::system::System;
use command_line::{RunFault, ScriptFiles, Scripts, Tracked, read_script};
use period_core::Refusal;
use script_engine::{Engine, MOST_BYTES, PieceResult, run_over};
use sqlite::Alter;
use std::alloc::Global;
use std::io::{Read, Write};

// Runs the script that a reader has, and reports it. Says whether the run came to its end.
fn run_script<
    S: Alter,
    K: PieceResult<S> + Reported + Drop,
    C: System,
    R: Read,
    W: Write,
    E: Write,
>(
    alloc: Global,
    engine: &mut Engine<S>,
    system: &C,
    input: &mut Tracked<R>,
    reporter: &mut Reporter<W, E>,
) -> Result<bool, RunFault>
    requires { reporter.old.fault ≡ None }
    ensures ran { (runs : List (ScriptRun K))
        × AreOfReaders (R.remaining input.old.inner ∷ []) runs
        × AreRun runs result reporter.new.fault
        × Ends W.contents E.contents K.text K.status_of K.forgotten_of
        (R.remaining input.old.inner ∷ []) input.new.has_failed
        reporter.old runs result reporter.new
        × LeadsTo K.is_step_over engine.old runs engine.new
        × (IsUsable S.Store engine.new.connection
        → (history : History) → EngineRepresents S.Store history engine.old
        → RepresentsSome S.Store (LeadsTo K.is_step history runs) engine.new) }
    ensures usable { WasUsable S.Store engine.old.connection engine.new.connection }
    ensures others { SparesOthers S.Store engine.old.connection engine.new.connection }
{
    reporter.next = 1;
    let script = read_script(alloc, input, MOST_BYTES)?;
    match run_over::<S, K, C, Reporter<W, E>>(alloc, engine, system, script.as_slice(), reporter) {
        Ok(goes_on) => match reporter.fault {
            Some(fault) => Err(fault),
            None => Ok(goes_on),
        },
        Err(refusal) => Err(RunFault::Script(refusal)),
    }
}

// Runs the script that is named.
fn run_named<
    S: Alter,
    K: PieceResult<S> + Reported + Drop,
    C: System,
    Q: Scripts,
    W: Write,
    E: Write,
>(
    alloc: Global,
    engine: &mut Engine<S>,
    system: &C,
    scripts: &mut ScriptFiles<'_, Q>,
    name: &str,
    reporter: &mut Reporter<W, E>,
) -> Result<bool, RunFault>
    requires { reporter.old.fault ≡ None }
    ensures same { scripts.new.scripts ≡ scripts.old.scripts }
    ensures ran { (runs : List (ScriptRun K))
        × AreOfReaders (Q.content scripts.old.scripts.now name.now ∷ []) runs
        × AreRun runs result reporter.new.fault
        × Ends W.contents E.contents K.text K.status_of K.forgotten_of
        (Q.content scripts.old.scripts.now name.now ∷ []) scripts.new.has_failed
        reporter.old runs result reporter.new
        × LeadsTo K.is_step_over engine.old runs engine.new
        × (IsUsable S.Store engine.new.connection
        → (history : History) → EngineRepresents S.Store history engine.old
        → RepresentsSome S.Store (LeadsTo K.is_step history runs) engine.new) }
    ensures usable { WasUsable S.Store engine.old.connection engine.new.connection }
    ensures others { SparesOthers S.Store engine.old.connection engine.new.connection }
{
    match scripts.open(name) {
        Ok(mut script) => {
            let ended = run_script::<S, K, C, Q::Script, W, E>(
                alloc,
                engine,
                system,
                &mut script,
                reporter,
            );
            scripts.note(&script);
            ended
        }
        Err(fault) => Err(fault),
    }
}

/// Runs the scripts that are named, in order. Says whether all came to their ends.
pub(crate) fn run_all<
    S: Alter,
    K: PieceResult<S> + Reported + Drop,
    C: System,
    Q: Scripts,
    W: Write,
    E: Write,
>(
    alloc: Global,
    engine: &mut Engine<S>,
    system: &C,
    scripts: &mut ScriptFiles<'_, Q>,
    names: &[String],
    reporter: &mut Reporter<W, E>,
) -> Result<bool, RunFault>
    requires { reporter.old.fault ≡ None }
    ensures same { scripts.new.scripts ≡ scripts.old.scripts }
    ensures ran { let readers = map (Q.content scripts.old.scripts.now)
        (map string_bytes names.now) in
        (runs : List (ScriptRun K)) × AreOfReaders readers runs
        × AreRun runs result reporter.new.fault
        × Ends W.contents E.contents K.text K.status_of K.forgotten_of
        readers scripts.new.has_failed reporter.old runs result reporter.new
        × LeadsTo K.is_step_over engine.old runs engine.new
        × (IsUsable S.Store engine.new.connection
        → (history : History) → EngineRepresents S.Store history engine.old
        → RepresentsSome S.Store (LeadsTo K.is_step history runs) engine.new) }
    ensures usable { WasUsable S.Store engine.old.connection engine.new.connection }
    ensures others { SparesOthers S.Store engine.old.connection engine.new.connection }
{
    for name in names {
        let goes_on = run_named::<S, K, C, Q, W, E>(
            alloc,
            engine,
            system,
            scripts,
            name.as_str(),
            reporter,
        )?;
        if !goes_on {
            return Ok(false);
        }
    }
    Ok(true)
}
