//! Runs over a store: it is opened, used and closed.

ghost use Rattle.std.specs.Prelude.{◌≡◌, ◌≤◌, ◌≤ℤ◌, ◌↔◌, ℤ, IfErr, IfOk, IfSome, IsSome, IsTrue};
ghost use Rattle.std.specs.Prelude.{None, Ok, OnOk, false, map, true};
ghost use Rattle.std.specs.String.{string_bytes};
ghost use Rattle.version_store.specs.StoreState.{SparesOthers};
ghost use Rattle.script_engine.specs.engine.Opens.{Opens};
ghost use Rattle.script_engine.specs.engine.Stored.{WasUsable};
ghost use Rattle.sqlite_wal.specs.Files.{image_at};
ghost use Rattle.bitemporal_file.specs.Commands.{IsAnswered, IsAnsweredOver};
ghost use Rattle.bitemporal_file.specs.Notes.{TellsFirst};
ghost use Rattle.bitemporal_file.specs.Reporting.{IsUnused};
ghost use Rattle.bitemporal_file.specs.declared.stores.StoreEnd.TheVariants.{Unopened};
ghost use Rattle.bitemporal_file.specs.StoreFiles.{IsInFiles, IsItsFault, IsLeftAs, IsUnclosedFor};
ghost use Rattle.bitemporal_file.specs.StoreFiles.{filing};
ghost use Rattle.bitemporal_file.specs.StoreRuns.{IsInTime, IsUnusedFor, LeadsEngine, RunsAs};
ghost use Rattle.bitemporal_file.specs.StoreRuns.{RunsAsked, RunsGiven, RunsKind, failed_in};
ghost use Rattle.bitemporal_file.specs.StoreRuns as runs;

use crate::reporter::{Reported, Reporter};
use crate::runs::run_all;
use crate::session::run_parts;
use crate::stores::{Filed, StoreFiles};
use crate::system::System;
use command_line::{Request, RunFault, ScriptFiles, Scripts, Tracked};
use period_core::{Moment, Refusal};
use script_engine::{Engine, Entry, Noted, Outcome, PieceResult, Timed};
use sqlite::{Alter, Connection, Start};
use sqlite_trees::store::Store;
use std::alloc::Global;
use std::io::{Read, Write};

// Runs the scripts in files, or else a session of the input, and reports each statement.
fn run_files<
    S: Alter,
    K: PieceResult<S> + Reported + Drop,
    C: System,
    Q: Scripts,
    R: Read,
    W: Write,
    E: Write,
>(
    alloc: Global,
    engine: &mut Engine<S>,
    system: &C,
    scripts: &mut ScriptFiles<'_, Q>,
    files: &[String],
    input: &mut Tracked<R>,
    reporter: &mut Reporter<W, E>,
) -> Result<bool, RunFault>
    requires { reporter.old.fault ≡ None }
    ensures ran { RunsGiven K.is_step K.is_step_over (IsAnswered C.made) (IsAnsweredOver S.Store)
        K.refused
        W.contents E.contents K.text K.status_of K.forgotten_of
        (LeadsEngine S.Store engine.old engine.new)
        (λ Led. Led engine.old engine.new)
        (map (Q.content scripts.old.scripts.now) (map string_bytes files.now))
        (R.remaining input.old.inner) (R.remaining input.new.inner)
        (failed_in files.now input.new.has_failed scripts.new.has_failed)
        reporter.old result reporter.new }
    ensures low { reporter.old.worst ≤ 3 → reporter.new.worst ≤ 3 }
    ensures told { TellsFirst E.contents reporter.old.notes reporter.new.notes }
    ensures usable { WasUsable S.Store engine.old.connection engine.new.connection }
    ensures others { SparesOthers S.Store engine.old.connection engine.new.connection }
{
    if files.is_empty() {
        return run_parts::<S, K, C, R, W, E>(alloc, engine, system, input, reporter);
    }
    run_all::<S, K, C, Q, W, E>(alloc, engine, system, scripts, files, reporter)
}

// Whether a command line wants a store whose clock is not ahead of the system's time.
fn is_in_time(asked: &Request) -> bool
    ensures { result ≡ runs.is_in_time asked.now }
{
    asked.timed && !asked.clock_ahead
}

// The latest moment that a clock may have: the system's time, if it is wanted in time.
fn latest_of<C: System>(system: &C, in_time: bool) -> Option<Moment>
    ensures told { IfSome result C.tells }
    ensures wanted { IsSome result ↔ IsTrue in_time }
{
    if in_time { Some(system.time()) } else { None }
}

// Opens the store of a connection, a new one if there is none; if it is wanted in time, not one
// whose clock is later than the system's time. An `Err` says why it is not opened: it changes
// nothing.
fn open_engine<S: Alter, C: System>(
    alloc: Global,
    connection: Connection<S>,
    system: &C,
    in_time: bool,
) -> Result<Engine<S>, (RunFault, Connection<S>)>
    requires { connection.in_transaction ≡ false }
    ensures opened { IfOk result (Opens S.Store connection) }
    ensures timely { in_time ≡ true → IfOk result (λ engine.
        (time : ℤ) × C.tells time × (engine.clock ≤ℤ time)) }
    ensures refused { IfErr result (λ failed.
        IsUnusedFor S.Store C.tells in_time connection failed.0 failed.1) }
{
    match Engine::open_by(alloc, connection, latest_of(system, in_time)) {
        Ok(engine) => Ok(engine),
        Err((cause, connection)) => match cause {
            Some(refusal) => Err((RunFault::Script(refusal), connection)),
            None => Err((RunFault::ClockAhead, connection)),
        },
    }
}

/// Runs scripts, or a session, over the store of a connection, a new one if there is none; if it is
/// wanted in time, not over one whose clock is later than the system's time. Gives the connection
/// back. An `Err` says why the store is not opened: it changes nothing, and nothing is read.
pub(crate) fn run_store<
    S: Alter,
    K: PieceResult<S> + Reported + Drop,
    C: System,
    Q: Scripts,
    R: Read,
    W: Write,
    E: Write,
>(
    alloc: Global,
    connection: Connection<S>,
    system: &C,
    in_time: bool,
    scripts: &mut ScriptFiles<'_, Q>,
    files: &[String],
    input: &mut Tracked<R>,
    reporter: &mut Reporter<W, E>,
) -> Result<(Result<bool, RunFault>, Connection<S>), (RunFault, Connection<S>)>
    requires settled { connection.in_transaction ≡ false }
    requires fresh { reporter.old.fault ≡ None }
    ensures timely { IfOk result (λ ended.
        IsInTime S.Store C.tells in_time connection ended.1) }
    ensures ran { IfOk result (λ ended. RunsKind S.Store C.made K.is_step K.is_step_over K.refused
        W.contents E.contents K.text K.status_of K.forgotten_of
        (map (Q.content scripts.old.scripts.now) (map string_bytes files.now))
        (R.remaining input.old.inner) (R.remaining input.new.inner)
        (failed_in files.now input.new.has_failed scripts.new.has_failed)
        reporter.old connection ended.0 ended.1 reporter.new) }
    ensures usable { IfOk result (λ ended. WasUsable S.Store connection ended.1) }
    ensures others { IfOk result (λ ended. SparesOthers S.Store connection ended.1) }
    ensures closed { IfOk result (λ ended. ended.1.in_transaction ≡ false) }
    ensures low { reporter.old.worst ≤ 3 → reporter.new.worst ≤ 3 }
    ensures told { TellsFirst E.contents reporter.old.notes reporter.new.notes }
    ensures refused { IfErr result (λ failed.
        IsUnusedFor S.Store C.tells in_time connection failed.0 failed.1
        × (reporter.new ≡ reporter.old) × (input.new ≡ input.old)) }
{
    let mut engine = open_engine(alloc, connection, system, in_time)?;
    let ended = run_files::<S, K, C, Q, R, W, E>(
        alloc,
        &mut engine,
        system,
        scripts,
        files,
        input,
        reporter,
    );
    Ok((ended, engine.close_at_exit()))
}

// Runs the scripts with an audit of each answer, or without; at the system's time, or not; over a
// store that is wanted in time, or not. Tells of the versions that changes forget.
fn run_opened<S: Alter, C: System, Q: Scripts, R: Read, W: Write, E: Write>(
    alloc: Global,
    connection: Connection<S>,
    system: &C,
    in_time: bool,
    scripts: &mut ScriptFiles<'_, Q>,
    asked: &Request,
    input: &mut Tracked<R>,
    reporter: &mut Reporter<W, E>,
) -> Result<(Result<bool, RunFault>, Connection<S>), (RunFault, Connection<S>)>
    requires settled { connection.in_transaction ≡ false }
    requires fresh { reporter.old.fault ≡ None }
    ensures timely { IfOk result (λ ended.
        IsInTime S.Store C.tells in_time connection ended.1) }
    ensures ran { IfOk result (λ ended. RunsAs S.Store C.made W.contents E.contents
        asked.now.audits asked.now.timed
        (map (Q.content scripts.old.scripts.now) (map string_bytes asked.now.files.items))
        (R.remaining input.old.inner) (R.remaining input.new.inner)
        (failed_in asked.now.files.items input.new.has_failed scripts.new.has_failed)
        reporter.old connection ended.0 ended.1 reporter.new) }
    ensures usable { IfOk result (λ ended. WasUsable S.Store connection ended.1) }
    ensures others { IfOk result (λ ended. SparesOthers S.Store connection ended.1) }
    ensures low { reporter.old.worst ≤ 3 → reporter.new.worst ≤ 3 }
    ensures told { TellsFirst E.contents reporter.old.notes reporter.new.notes }
    ensures refused { IfErr result (λ failed.
        IsUnusedFor S.Store C.tells in_time connection failed.0 failed.1
        × (reporter.new ≡ reporter.old) × (input.new ≡ input.old)) }
{
    let files = asked.files.as_slice();
    match (asked.audits, asked.timed) {
        (false, false) => run_store::<S, Noted<Result<Outcome, Refusal>>, C, Q, R, W, E>(
            alloc, connection, system, in_time, scripts, files, input, reporter,
        ),
        (false, true) => run_store::<S, Timed<Noted<Result<Outcome, Refusal>>>, C, Q, R, W, E>(
            alloc, connection, system, in_time, scripts, files, input, reporter,
        ),
        (true, false) => run_store::<S, Noted<Entry>, C, Q, R, W, E>(
            alloc, connection, system, in_time, scripts, files, input, reporter,
        ),
        (true, true) => run_store::<S, Timed<Noted<Entry>>, C, Q, R, W, E>(
            alloc, connection, system, in_time, scripts, files, input, reporter,
        ),
    }
}

/// Closes the store after what was done over it. If that failed before any statement was run,
/// and the store is new, no file of it stays.
pub(crate) fn end_over<S: Start + Copy, T: Drop, W, E>(
    stores: &mut StoreFiles<'_, S>,
    report: &Reporter<W, E>,
    ended: Result<T, RunFault>,
    connection: Connection<Filed<S>>,
) -> Result<(), RunFault>
    ensures kept { OnOk result (IsInFiles stores.new.end connection) }
    ensures left { IsLeftAs stores.new.end connection }
    ensures whole { OnOk result ((value : T) × (ended ≡ Ok value)) }
    ensures fault { IfErr result (IsItsFault (IsUnclosedFor stores.new.end connection) ended) }
    ensures same { stores.new.name ≡ stores.old.name }
{
    match ended {
        Ok(_) => stores.close_store(connection),
        Err(fault) if report.is_unused && stores.is_new() => {
            stores.give_up(report, connection);
            Err(fault)
        }
        Err(fault) => {
            let _ = stores.close_store(connection);
            Err(fault)
        }
    }
}

/// Runs what is asked for over the store that is named, with `--stop` as the report has it. Gives
/// the exit status.
pub(crate) fn run_over<S: Start + Copy, C: System, Q: Scripts, R: Read, W: Write, E: Write>(
    alloc: Global,
    stores: &mut StoreFiles<'_, S>,
    system: &C,
    scripts: &mut ScriptFiles<'_, Q>,
    asked: &Request,
    input: &mut Tracked<R>,
    reporter: &mut Reporter<W, E>,
) -> Result<u8, RunFault>
    requires unused { IsUnused reporter.old }
    requires unopened { stores.old.end ≡ Unopened }
    ensures ran { RunsAsked ⟦<Filed<S> as Store>⟧ C.made C.tells W.contents E.contents
        (filing (string_bytes asked.now.store) (image_at S.Start) (string_bytes stores.new.name)
        stores.new.end)
        (Q.content scripts.old.scripts.now) (λ unread. R.remaining unread.inner)
        (λ unread. failed_in asked.now.files.items unread.has_failed scripts.new.has_failed)
        asked.now
        reporter.old input.old result reporter.new input.new }
    ensures low { reporter.old.worst ≤ 3 → IfOk result (λ status. status ≤ 3) }
    ensures told { TellsFirst E.contents reporter.old.notes reporter.new.notes }
{
    let name = asked.store.as_str();
    let connection = stores.open_store(name, true, asked.wait)?;
    let in_time = is_in_time(asked);
    let ran = run_opened::<Filed<S>, C, Q, R, W, E>(
        alloc, connection, system, in_time, scripts, asked, input, reporter,
    );
    match ran {
        Ok((ended, connection)) => {
            end_over(stores, reporter, ended, connection)?;
            Ok(reporter.worst)
        }
        Err((fault, connection)) => {
            stores.give_up(reporter, connection);
            Err(fault)
        }
    }
}
