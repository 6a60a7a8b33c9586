//! Stores that are only read: their files are, and what they hold is opened in memory.

ghost use Rattle.std.specs.Prelude.{◌≡◌, ◌⊎◌, ◌≤◌, IfErr, IfOk, IsTrue, None, false, map};
ghost use Rattle.std.specs.String.{string_bytes};
ghost use Rattle.sqlite.specs.Files.{image_of};
ghost use Rattle.sqlite_disk.specs.Memory.{memory_bytes, memory_is_usable};
ghost use Rattle.version_store.specs.StoreState.{SparesOthers};
ghost use Rattle.script_engine.specs.engine.Stored.{WasUsable};
ghost use Rattle.script_engine.specs.declared.script.read_only.ReadOnly.{ReadOnly as ReadOnlyModel};
ghost use Rattle.command_line.specs.declared.fault.RunFault.TheVariants.{Memory as NoMemory};
ghost use Rattle.bitemporal_file.specs.Notes.{TellsFirst};
ghost use Rattle.bitemporal_file.specs.ReadOnly.{AreHeldAt, AreHeldBy, FailsToOpenHeld};
ghost use Rattle.bitemporal_file.specs.ReadOnly.{DoesAskedReading, IsReadFault};
ghost use Rattle.bitemporal_file.specs.ReadOnly.{RunsAskedReading, RunsReading};
ghost use Rattle.bitemporal_file.specs.ReadOnly.{read_only_refusal, reading};
ghost use Rattle.bitemporal_file.specs.Reporting.{IsUnused};
ghost use Rattle.bitemporal_file.specs.StoreFiles.{Finds};
ghost use Rattle.bitemporal_file.specs.StoreRuns.{Inspects, IsUnusedFor, failed_in};

use crate::held_files::{HeldFiles, read_held};
use crate::inspections::{Inspection, inspect_store, inspection_of};
use crate::over::run_store;
use crate::places::Places;
use crate::reporter::{Reported, Reporter};
use crate::stores::{fault_of, pause, tries_in};
use crate::system::System;
use command_line::{Request, RunFault, ScriptFiles, Scripts, Tracked};
use period_core::Refusal;
use script_engine::{Entry, Outcome, ReadOnly, ReportFault};
use sqlite::{Alter, Connection, FileStore, Files, Options};
use sqlite_disk::{Disk, Memory};
use sqlite_trees::store::Store;
use std::alloc::Global;
use std::io::{Read, Write};
use std::mem::ManuallyDrop;
use std::thread;

// The salts of a log that is written in memory are made of this.
const SEED: u64 = 1;

/// A database in memory, of the bytes that files hold.
pub(crate) type Held = FileStore<Memory>;

impl<K: Reported> Reported for ReadOnly<K> {
    ghost text = { λ number (only : ReadOnlyModel K). K.text number only.kept };

    ghost status_of = { λ (only : ReadOnlyModel K). K.status_of only.kept };

    ghost forgotten_of = { λ only. 0 };

    ghost refused = { read_only_refusal K.refused };

    fn write_records<W: Write>(
        &self,
        alloc: Global,
        out: &mut W,
        number: u64,
    ) -> Result<(), ReportFault> {
        self.kept.write_records(alloc, out, number)
    }

    fn status(&self) -> u8 {
        self.kept.status()
    }

    fn forgotten(&self) -> u64 {
        0
    }

    fn of_refusal(refusal: Refusal) -> ReadOnly<K> {
        ReadOnly {
            kept: K::of_refusal(refusal),
        }
    }
}

// A file in memory with the bytes given.
fn file_of(alloc: Global, bytes: &[u8]) -> Result<Memory, RunFault>
    ensures bytes { IfOk result (λ file. memory_bytes file ≡ bytes.now) }
    ensures usable { IfOk result (λ file. IsTrue (memory_is_usable file)) }
    ensures fault { IfErr result (λ fault. fault ≡ NoMemory) }
{
    let mut file = Memory::new(alloc);
    match file.write_at(0, bytes) {
        Ok(()) => Ok(file),
        Err(_) => Err(RunFault::Memory),
    }
}

// Files in memory with the bytes given.
fn files_of(alloc: Global, held: &HeldFiles) -> Result<Files<Memory>, RunFault>
    ensures held { IfOk result (λ files. image_of ⟦<Memory as Disk>⟧ files
        ≡ record { log = held.now.log.items; db = held.now.db.items }) }
    ensures log { IfOk result (λ files. IsTrue (memory_is_usable files.log)) }
    ensures db { IfOk result (λ files. IsTrue (memory_is_usable files.db)) }
    ensures fault { IfErr result (λ fault. fault ≡ NoMemory) }
{
    let log = file_of(alloc, held.log.as_slice())?;
    let db = file_of(alloc, held.db.as_slice())?;
    Ok(Files { log, db })
}

// A connection to the database that files with the bytes given hold.
fn open_held(alloc: Global, held: &HeldFiles) -> Result<Connection<Held>, RunFault>
    ensures settled { IfOk result (λ connection. connection.in_transaction ≡ false) }
    ensures opened { IfOk result
        (Finds (record { log = held.now.log.items; db = held.now.db.items })) }
    ensures refused { IfErr result (λ fault. IsReadFault fault
        ⊎ FailsToOpenHeld ⟦<Memory as Disk>⟧
        (record { log = held.now.log.items; db = held.now.db.items }) fault) }
{
    let files = files_of(alloc, held)?;
    match Connection::open_files(alloc, files, Options::new(SEED)) {
        Ok(connection) => Ok(connection),
        Err((error, _left)) => Err(fault_of(error)),
    }
}

// Reads the files of the store at a place. While another program changes them, it tries again, for
// so many seconds.
fn wait_for_held<Q: Scripts + Places>(
    rt: &HostRuntime,
    alloc: Global,
    files: &Q,
    place: &str,
    seconds: u32,
) -> Result<HeldFiles, RunFault>
    ensures held { IfOk result (λ held. AreHeldAt (Q.content files.now) (Q.may_lack files.now)
        place.now (record { log = held.log.items; db = held.db.items })) }
    ensures fault { IfErr result IsReadFault }
{
    'tries: for _ in 0..tries_in(seconds) {
        match read_held(alloc, files, place) {
            Err(RunFault::Locked) => thread::sleep(rt, pause()),
            ended => return ended,
        }
    }
    read_held(alloc, files, place)
}

// A connection to what the files of the store of that name hold.
fn open_read<Q: Scripts + Places>(
    rt: &HostRuntime,
    alloc: Global,
    files: &Q,
    name: &str,
    seconds: u32,
) -> Result<Connection<Held>, RunFault>
    ensures settled { IfOk result (λ connection. connection.in_transaction ≡ false) }
    ensures opened { IfOk result (reading ⟦<Memory as Disk>⟧ (AreHeldBy
        (Q.leads_to files.now name.now) (Q.content files.now) (Q.may_lack files.now))).Opens }
    ensures refused { IfErr result (reading ⟦<Memory as Disk>⟧ (AreHeldBy
        (Q.leads_to files.now name.now) (Q.content files.now) (Q.may_lack files.now))).Fails }
{
    let place = files.place_of(alloc, name)?;
    let held = wait_for_held(rt, alloc, files, place.as_str(), seconds)?;
    open_held(alloc, &held)
}

// Runs what is asked for over the store of a connection, with an audit of each answer, or without.
// Gives the connection back.
fn run_reading<S: Alter, C: System, Q: Scripts, R: Read, W: Write, E: Write>(
    alloc: Global,
    connection: Connection<S>,
    system: &C,
    scripts: &mut ScriptFiles<'_, Q>,
    asked: &Request,
    input: &mut Tracked<R>,
    reporter: &mut Reporter<W, E>,
) -> Result<(Result<bool, RunFault>, Connection<S>), (RunFault, Connection<S>)>
    requires settled { connection.in_transaction ≡ false }
    requires fresh { reporter.old.fault ≡ None }
    ensures ran { IfOk result (λ ended. RunsReading S.Store C.made W.contents E.contents
        asked.now.audits
        (map (Q.content scripts.old.scripts.now) (map string_bytes asked.now.files.items))
        (R.remaining input.old.inner) (R.remaining input.new.inner)
        (failed_in asked.now.files.items input.new.has_failed scripts.new.has_failed)
        reporter.old connection ended.0 ended.1 reporter.new) }
    ensures usable { IfOk result (λ ended. WasUsable S.Store connection ended.1) }
    ensures others { IfOk result (λ ended. SparesOthers S.Store connection ended.1) }
    ensures low { reporter.old.worst ≤ 3 → reporter.new.worst ≤ 3 }
    ensures told { TellsFirst E.contents reporter.old.notes reporter.new.notes }
    ensures refused { IfErr result (λ failed.
        IsUnusedFor S.Store C.tells false connection failed.0 failed.1
        × (reporter.new ≡ reporter.old) × (input.new ≡ input.old)) }
{
    let files = asked.files.as_slice();
    if asked.audits {
        run_store::<S, ReadOnly<Entry>, C, Q, R, W, E>(
            alloc, connection, system, false, scripts, files, input, reporter,
        )
    } else {
        run_store::<S, ReadOnly<Result<Outcome, Refusal>>, C, Q, R, W, E>(
            alloc, connection, system, false, scripts, files, input, reporter,
        )
    }
}

// Runs what is asked for over the store that is named, of which only the files are read, with
// `--stop` as the report has it. Gives the exit status.
fn read_over<Q: Scripts + Places + System, R: Read, W: Write, E: Write>(
    rt: &HostRuntime,
    alloc: Global,
    system: &Q,
    scripts: &mut ScriptFiles<'_, Q>,
    asked: &Request,
    input: &mut Tracked<R>,
    reporter: &mut Reporter<W, E>,
) -> Result<u8, RunFault>
    requires unused { IsUnused reporter.old }
    ensures ran { RunsAskedReading ⟦<Held as Store>⟧ Q.made W.contents E.contents
        (reading ⟦<Memory as Disk>⟧
        (AreHeldBy (Q.leads_to system.now (string_bytes asked.now.store))
        (Q.content system.now) (Q.may_lack system.now)))
        (Q.content scripts.old.scripts.now) (λ unread. R.remaining unread.inner)
        (λ unread. failed_in asked.now.files.items unread.has_failed scripts.new.has_failed)
        asked.now
        reporter.old input.old result reporter.new input.new }
    ensures low { reporter.old.worst ≤ 3 → IfOk result (λ status. status ≤ 3) }
    ensures told { TellsFirst E.contents reporter.old.notes reporter.new.notes }
{
    let connection = open_read(rt, alloc, system, asked.store.as_str(), asked.wait)?;
    let ran = run_reading::<Held, Q, Q, R, W, E>(
        alloc, connection, system, scripts, asked, input, reporter,
    );
    match ran {
        Ok((ended, connection)) => {
            let _left = ManuallyDrop::new(connection);
            ended?;
            Ok(reporter.worst)
        }
        Err((fault, connection)) => {
            let _left = ManuallyDrop::new(connection);
            Err(fault)
        }
    }
}

// Reports what is asked of the named store, of which only the files are read. Gives the exit
// status.
fn inspect_read<Q: Scripts + Places, W: Write, E: Write>(
    rt: &HostRuntime,
    alloc: Global,
    files: &Q,
    asked: &Request,
    inspection: Inspection,
    reporter: &mut Reporter<W, E>,
) -> Result<u8, RunFault>
    requires { IsUnused reporter.old }
    ensures inspects { Inspects ⟦<Held as Store>⟧ W.contents
        (reading ⟦<Memory as Disk>⟧ (AreHeldBy (Q.leads_to files.now (string_bytes asked.now.store))
        (Q.content files.now) (Q.may_lack files.now))) inspection
        reporter.old result reporter.new }
    ensures low { IfOk result (λ status. status ≤ 3) }
    ensures told { TellsFirst E.contents reporter.old.notes reporter.new.notes }
{
    let connection = open_read(rt, alloc, files, asked.store.as_str(), asked.wait)?;
    match inspect_store(alloc, connection, inspection, &mut reporter.out) {
        Ok((told, connection)) => {
            let _left = ManuallyDrop::new(connection);
            told?;
            Ok(0)
        }
        Err((refusal, connection)) => {
            let _left = ManuallyDrop::new(connection);
            Err(RunFault::Script(refusal))
        }
    }
}

/// Does what is asked for over the store that is named, of which only the files are read. Gives the
/// exit status.
pub(crate) fn read_asked<Q: Scripts + Places + System, R: Read, W: Write, E: Write>(
    rt: &HostRuntime,
    alloc: Global,
    system: &Q,
    scripts: &mut ScriptFiles<'_, Q>,
    asked: &Request,
    input: &mut Tracked<R>,
    reporter: &mut Reporter<W, E>,
) -> Result<u8, RunFault>
    requires { IsUnused reporter.old }
    ensures done { DoesAskedReading ⟦<Held as Store>⟧ Q.made W.contents E.contents
        (reading ⟦<Memory as Disk>⟧
        (AreHeldBy (Q.leads_to system.now (string_bytes asked.now.store))
        (Q.content system.now) (Q.may_lack system.now)))
        (Q.content scripts.old.scripts.now) (λ unread. R.remaining unread.inner)
        (λ unread. failed_in asked.now.files.items unread.has_failed scripts.new.has_failed)
        asked.now
        reporter.old input.old result reporter.new input.new }
    ensures low { reporter.old.worst ≤ 3 → IfOk result (λ status. status ≤ 3) }
    ensures told { TellsFirst E.contents reporter.old.notes reporter.new.notes }
{
    if let Some(inspection) = inspection_of(asked) {
        return inspect_read(rt, alloc, system, asked, inspection, reporter);
    }
    reporter.stops = asked.stops;
    read_over(rt, alloc, system, scripts, asked, input, reporter)
}
