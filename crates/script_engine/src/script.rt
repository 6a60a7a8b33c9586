//! Scripts: their text, their pieces, and the pieces' results.

ghost use Rattle.std.specs.Prelude.{◌≡◌, ◌≤◌, All, IfErr, IfOk, List, OnOk, false, length, map};
ghost use Rattle.std.specs.Str.{IsUtf8};
ghost use Rattle.period_core.specs.Leasts.{MayAnswer, NoneApplies};
ghost use Rattle.period_core.specs.declared.refusal.Refusal.TheVariants.{BadStore, NotUtf8};
ghost use Rattle.period_core.specs.declared.refusal.Refusal.TheVariants.{ScriptTooLarge};
ghost use Rattle.sql_front.specs.Grammar.{IsStatement};
ghost use Rattle.sql_statements.specs.Lexis.{TokensOf};
ghost use Rattle.sql_front.specs.Pieces.{IsWithin, spanned};
ghost use Rattle.sql_front.specs.TokenSpans.{IsInScript, lexemes_at};
ghost use Rattle.sql_statements.specs.Plain.{plain};
ghost use Rattle.sqlite.specs.Held.{state};
ghost use Rattle.version_store.specs.StoreState.{IsUsable, SparesOthers};
ghost use Rattle.version_tables.specs.Steps.{IsAsBefore};
ghost use Rattle.history_model.specs.Histories.{History};
ghost use Rattle.script_engine.specs.engine.EngineState.{EngineState};
ghost use Rattle.script_engine.specs.engine.Opens.{IsUnopenedFor, Opens};
ghost use Rattle.script_engine.specs.engine.Stored.{DatabaseRepresents, EngineRepresents};
ghost use Rattle.script_engine.specs.engine.Stored.{IfRepresents, IsAlwaysUsable, IsBadStore};
ghost use Rattle.script_engine.specs.engine.Stored.{RepresentsSome, WasUsable};
ghost use Rattle.script_engine.specs.script.AuditedRuns.{IsAuditedRunFrom, results_of};
ghost use Rattle.script_engine.specs.script.Listening.{ReceivesAll, StepFront};
ghost use Rattle.script_engine.specs.script.Script.{IsCutInto, IsRunBy, IsRunFrom};
ghost use Rattle.script_engine.specs.script.Script.{MayRefuseRun, MayRefuseScript, PieceStepOver};
ghost use Rattle.script_engine.specs.script.Script.{ScriptApplies, TextApplies, most_bytes};

pub(crate) mod check;
pub(crate) mod listener;
pub(crate) mod noted;
pub(crate) mod over;
pub(crate) mod piece_result;
pub(crate) mod read_only;
pub(crate) mod timed;

use crate::engine::Engine;
use crate::script::listener::{AllKept, Listener};
use crate::script::piece_result::PieceResult;
use crate::script::timed::NoClock;
use period_core::Refusal;
use sql_front::{LexFault, Span, TokenSpan, cut_spans, lex_spans, parse, tokens_at};
use sql_statements::Statement;
use sqlite::Connection;
use sqlite_trees::store::Alter;
use statement_reports::{Entry, Outcome};
use std::alloc::Global;
use std::str;
use std::time::Clock;

/// The most bytes that a script may have.
pub const MOST_BYTES: usize = 4_194_304;

/// The most tokens that a statement may have.
const MOST_TOKENS: usize = 10_000;

/// The text of a script.
pub(crate) fn script_text(script: &[u8]) -> Result<&str, Refusal>
    ensures text { IfOk result (λ text. text.now ≡ script.now) }
    ensures utf8 { OnOk result (IsUtf8 script.now) }
    ensures small { OnOk result (length script.now ≤ most_bytes) }
    ensures refused { IfErr result (MayRefuseScript script.now) }
{
    if script.len() > MOST_BYTES {
        return Err(Refusal::ScriptTooLarge);
    }
    match str::from_utf8(script) {
        Ok(text) => Ok(text),
        Err(_) => Err(Refusal::NotUtf8),
    }
}

/// The tokens of a script that is not too large, by their places in it.
pub(crate) fn script_tokens(alloc: Global, script: &str) -> Result<Vec<TokenSpan>, Refusal>
    requires { length script.now ≤ most_bytes }
    ensures tokens { IfOk result
        (λ tokens. TokensOf script.now (lexemes_at script.now tokens.items)) }
    ensures inside { IfOk result (λ tokens. All (IsInScript script.now) tokens.items) }
    ensures refused { IfErr result (MayRefuseScript script.now) }
{
    match lex_spans(alloc, script) {
        Ok(tokens) => Ok(tokens),
        Err(LexFault::BadToken(offset)) => Err(Refusal::BadToken(offset)),
        Err(LexFault::Memory) => Err(Refusal::Memory),
    }
}

/// The statement that a piece of a script spells. Of a piece that is too long nothing else is
/// judged. The tokens of the piece are made here, and dropped at the return.
pub(crate) fn statement_of(
    alloc: Global,
    script: &str,
    piece: &[TokenSpan],
) -> Result<Statement, Refusal>
    requires { All (IsInScript script.now) piece.now }
    ensures found { IfOk result
        (λ statement. IsStatement (lexemes_at script.now piece.now) (plain statement)) }
    ensures sound { OnOk result (NoneApplies (TextApplies (lexemes_at script.now piece.now))) }
    ensures refused { IfErr result (MayAnswer (TextApplies (lexemes_at script.now piece.now))) }
{
    if piece.len() > MOST_TOKENS {
        return Err(Refusal::LimitReached);
    }
    let tokens = tokens_at(alloc, script, piece)?;
    parse(alloc, script, tokens.as_slice())
}

/// The pieces of a script: its text, the places of its tokens in it, and of each piece which of
/// these tokens it has.
#[derive(Drop)]
pub(crate) struct Pieces<'a> {
    pub(crate) text: &'a str,
    pub(crate) tokens: Vec<TokenSpan>,
    pub(crate) spans: Vec<Span>,
}

/// The pieces of a script. An `Err` is the refusal of the whole script, or out of memory.
pub(crate) fn script_pieces<'a>(alloc: Global, script: &'a [u8]) -> Result<Pieces<'a>, Refusal>
    ensures cut { IfOk result (λ pieces. IsCutInto script.now
        (map (spanned (lexemes_at pieces.text.now pieces.tokens.items)) pieces.spans.items)) }
    ensures inside { IfOk result
        (λ pieces. All (IsInScript pieces.text.now) pieces.tokens.items) }
    ensures within { IfOk result
        (λ pieces. All (IsWithin (length pieces.tokens.items)) pieces.spans.items) }
    ensures refused { IfErr result (MayRefuseScript script.now) }
{
    let text = script_text(script)?;
    let tokens = script_tokens(alloc, text)?;
    let spans = cut_spans(alloc, text, tokens.as_slice())?;
    Ok(Pieces {
        text,
        tokens,
        spans,
    })
}

/// Runs a piece of a script, and gives the record of it.
fn run_piece<S: Alter, K: PieceResult<S>, C: Clock>(
    alloc: Global,
    engine: &mut Engine<S>,
    clock: &C,
    script: &str,
    piece: &[TokenSpan],
) -> K
    requires { All (IsInScript script.now) piece.now }
    ensures step { IfRepresents S.Store engine.old engine.new (λ history.
        RepresentsSome S.Store (K.is_step history (lexemes_at script.now piece.now) result)
        engine.new) }
    ensures over { K.is_step_over engine.old (lexemes_at script.now piece.now) result engine.new }
    ensures usable { WasUsable S.Store engine.old.connection engine.new.connection }
    ensures others { SparesOthers S.Store engine.old.connection engine.new.connection }
{
    let statement = match statement_of(alloc, script, piece) {
        Ok(statement) => statement,
        Err(refusal) => return K::refused(refusal),
    };
    let kept = K::executed(alloc, engine, clock, &statement);
    // By a call: the proof of an implicit drop walks through each kind of statement.
    drop(statement);
    kept
}

/// Runs the pieces of a script, one after the other, from any history that the engine represents,
/// and passes on what it keeps of each. Says whether it came to the last: it ends earlier if the
/// listener asks for no more.
fn run_pieces<S: Alter, K: PieceResult<S>, C: Clock, L: Listener<K>>(
    alloc: Global,
    engine: &mut Engine<S>,
    clock: &C,
    script: &str,
    tokens: &[TokenSpan],
    pieces: &[Span],
    listener: &mut L,
) -> bool
    requires inside { All (IsInScript script.now) tokens.now }
    requires within { All (IsWithin (length tokens.now)) pieces.now }
    ensures run { (results : List K)
        × ReceivesAll L.hears 1 listener.old results result listener.new
        × (length results ≤ length pieces.now)
        × StepFront K.is_step_over engine.old
        (map (spanned (lexemes_at script.now tokens.now)) pieces.now) results result engine.new
        × IfRepresents S.Store engine.old engine.new (λ history.
        RepresentsSome S.Store (StepFront K.is_step history
        (map (spanned (lexemes_at script.now tokens.now)) pieces.now) results result) engine.new) }
    ensures usable { WasUsable S.Store engine.old.connection engine.new.connection }
    ensures others { SparesOthers S.Store engine.old.connection engine.new.connection }
{
    for (i, piece) in pieces.iter().enumerate() {
        let kept: K = run_piece(
            alloc,
            engine,
            clock,
            script,
            &tokens[piece.start..piece.end],
        );
        if !listener.hear(i as u64 + 1, kept) {
            return false;
        }
    }
    true
}

/// Runs a script over the store of a connection, a new one if there is none, and keeps of each
/// of its pieces, in order, its result, or with it the audit of its answer. Gives these records,
/// and the engine as it is then. An `Err` hands the connection back: it is the refusal of the whole
/// script, of which nothing is run; out of memory; or, of a script that is sound, why the store is
/// not opened: 60, 61 or 62. It changes nothing. A sound script over a good store or a new one is
/// refused only for memory or a fault of the database.
pub fn run<S: Alter, K: PieceResult<S> + Drop>(
    alloc: Global,
    connection: Connection<S>,
    script: &[u8],
) -> Result<(Vec<K>, Engine<S>), (Refusal, Connection<S>)>
    requires { connection.in_transaction ≡ false }

    // Whatever history the database stood for, these are the results of a run from it on, and the
    // engine represents the history to which the run leads.
    ensures run { IfOk result (λ ran. IsUsable S.Store ran.1.connection
        → (history : History) → DatabaseRepresents history (state S.Store connection).now
        → (made : IsRunBy K.is_step history script.now ran.0.items)
        × EngineRepresents S.Store made.last ran.1) }

    // And whatever the database holds, of the engine that is opened and the one that is given.
    ensures over { IfOk result (λ ran. (opening : EngineState S) × Opens S.Store connection opening
        × ((made : IsRunBy K.is_step_over opening script.now ran.0.items)
        × (made.last ≡ ran.1))) }
    ensures others { IfOk result (λ ran. SparesOthers S.Store connection ran.1.connection) }
    ensures usable { IfOk result (λ ran. WasUsable S.Store connection ran.1.connection) }

    ensures refused { IfErr result (λ failed. MayRefuseRun script.now failed.0) }
    ensures why { IfErr result (λ failed. NoneApplies (ScriptApplies script.now)
        → IsUnopenedFor S.Store connection failed.1 failed.0) }
    ensures bad { IfErr result (λ failed. IsUsable S.Store failed.1 → failed.0 ≡ BadStore
        → IsBadStore (state S.Store connection).now) }
    ensures none { IfErr result (λ failed. IsUsable S.Store failed.1
        → IsAsBefore (state S.Store connection) (state S.Store failed.1)) }
    ensures settled { IfErr result (λ failed. failed.1.in_transaction ≡ false) }
{
    let pieces = match script_pieces(alloc, script) {
        Ok(pieces) => pieces,
        Err(refusal) => return Err((refusal, connection)),
    };
    let Ok(room) = Vec::with_capacity(alloc, pieces.spans.len()) else {
        return Err((Refusal::Memory, connection));
    };
    let mut engine = match Engine::open(alloc, connection) {
        Ok(engine) => engine,
        Err(failed) => return Err(failed),
    };
    let tokens = pieces.tokens.as_slice();
    let spans = pieces.spans.as_slice();
    let mut all = AllKept { kept: room };
    run_pieces::<S, K, NoClock, AllKept<K>>(
        alloc,
        &mut engine,
        &NoClock,
        pieces.text,
        tokens,
        spans,
        &mut all,
    );
    let AllKept { kept } = all;
    Ok((kept, engine))
}

/// Runs a script over the store of a connection, a new one if there is none. The results are
/// those of its statements, refused ones too, in order; an `Err` is as [`run`] gives it.
pub fn run_script<S: Alter + Drop>(
    alloc: Global,
    connection: Connection<S>,
    script: &[u8],
) -> Result<Vec<Result<Outcome, Refusal>>, Refusal>
    requires { connection.in_transaction ≡ false }
    // The connection is dropped, so this is said of stores that are always usable, as each in
    // memory is. For all stores `run` says it.
    ensures run { IsAlwaysUsable S.Store
        → (history : History) → DatabaseRepresents history (state S.Store connection).now
        → IfOk result (λ results. IsRunFrom history script.now results.items) }

    // And whatever the database holds, of the engine that is opened.
    ensures over { IfOk result (λ results. (opening : EngineState S)
        × Opens S.Store connection opening
        × IsRunBy (PieceStepOver S.Store) opening script.now results.items) }
    ensures refused { IfErr result (MayRefuseRun script.now) }
    ensures bad { IsAlwaysUsable S.Store → IfErr result (λ refusal. refusal ≡ BadStore
        → IsBadStore (state S.Store connection).now) }
{
    match run(alloc, connection, script) {
        Ok((results, _engine)) => Ok(results),
        Err((refusal, _connection)) => Err(refusal),
    }
}

/// Runs a script with an audit of each answer at once, over all rows that its references see. The
/// entries are those of the script's statements, refused ones too, in order. An audit says that
/// the answer agrees, or is refused for memory; the script continues either way.
pub fn run_audited<S: Alter + Drop>(
    alloc: Global,
    connection: Connection<S>,
    script: &[u8],
) -> Result<Vec<Entry>, Refusal>
    requires { connection.in_transaction ≡ false }
    ensures audited { IsAlwaysUsable S.Store
        → (history : History) → DatabaseRepresents history (state S.Store connection).now
        → IfOk result (λ entries. IsAuditedRunFrom history script.now entries.items) }
    ensures run { IsAlwaysUsable S.Store
        → (history : History) → DatabaseRepresents history (state S.Store connection).now
        → IfOk result (λ entries. IsRunFrom history script.now (results_of entries.items)) }

    // And whatever the database holds, of the engine that is opened.
    ensures over { IfOk result (λ entries. (opening : EngineState S)
        × Opens S.Store connection opening
        × IsRunBy (PieceStepOver S.Store) opening script.now (results_of entries.items)) }
    ensures refused { IfErr result (MayRefuseRun script.now) }
    ensures bad { IsAlwaysUsable S.Store → IfErr result (λ refusal. refusal ≡ BadStore
        → IsBadStore (state S.Store connection).now) }
{
    match run(alloc, connection, script) {
        Ok((entries, _engine)) => Ok(entries),
        Err((refusal, _connection)) => Err(refusal),
    }
}
