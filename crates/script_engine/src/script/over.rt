//! Runs of scripts over an engine that is open, with each result passed on as it is done.

ghost use Rattle.std.specs.Prelude.{◌≡◌, IfErr, IfOk, List, OnErr};
ghost use Rattle.version_store.specs.StoreState.{SparesOthers};
ghost use Rattle.script_engine.specs.engine.Stored.{EngineRepresents, IfRepresents, WasUsable};
ghost use Rattle.script_engine.specs.script.Listening.{IsFrontRunBy, ReceivesAll};
ghost use Rattle.script_engine.specs.script.Script.{MayRefuseScript};

use crate::engine::Engine;
use crate::script::listener::Listener;
use crate::script::piece_result::PieceResult;
use crate::script::{run_pieces, script_pieces};
use period_core::Refusal;
use sqlite_trees::store::Alter;
use std::alloc::Global;
use std::time::Clock;

/// Runs a script over an engine, and passes what it keeps of each piece to the listener as soon as
/// the piece is done, its change in the database. Says whether the run came to the script's end: it
/// ends earlier if the listener asks for no more. An `Err` is the refusal of the whole script, or
/// out of memory: then nothing is run and nothing passed on. The clock gives the system's time,
/// which only results that are [`Timed`] take; else AT alone moves the engine's clock.
///
/// [`Timed`]: crate::Timed
pub fn run_over<S: Alter, K: PieceResult<S>, C: Clock, L: Listener<K>>(
    alloc: Global,
    engine: &mut Engine<S>,
    clock: &C,
    script: &[u8],
    listener: &mut L,
) -> Result<bool, Refusal>
    // The listener gets the results of a run of the script's first pieces: whatever the database
    // holds, from the engine as it was to the engine as it is; and from whatever history the
    // engine represents to one that it represents then.
    ensures run { IfOk result (λ goes_on. (results : List K)
        × ReceivesAll L.hears 1 listener.old results goes_on listener.new
        × ((made : IsFrontRunBy K.is_step_over engine.old script.now results goes_on)
        × (made.last ≡ engine.new))
        × IfRepresents S.Store engine.old engine.new (λ history.
        (made : IsFrontRunBy K.is_step history script.now results goes_on)
        × EngineRepresents S.Store made.last engine.new)) }
    ensures refused { IfErr result (MayRefuseScript script.now) }
    ensures none { OnErr result ((engine.new ≡ engine.old) × (listener.new ≡ listener.old)) }
    ensures usable { WasUsable S.Store engine.old.connection engine.new.connection }
    ensures others { SparesOthers S.Store engine.old.connection engine.new.connection }
{
    let pieces = script_pieces(alloc, script)?;
    let tokens = pieces.tokens.as_slice();
    let spans = pieces.spans.as_slice();
    Ok(run_pieces::<S, K, C, L>(alloc, engine, clock, pieces.text, tokens, spans, listener))
}
