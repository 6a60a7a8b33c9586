//! The program: what its command line asks for, over the store that it names.

ghost use Rattle.std.specs.Prelude.{◌≡◌, ◌≤◌, ◌⊎◌, ℕ, IfOk, Result, false, map, true};
ghost use Rattle.std.specs.String.{string_bytes};
ghost use Rattle.sqlite_wal.specs.Files.{image_at};
ghost use Rattle.command_line.specs.CommandFaults.{IsShown};
ghost use Rattle.command_line.specs.declared.command.CommandFault.{CommandFault};
ghost use Rattle.command_line.specs.declared.fault.RunFault.{RunFault};
ghost use Rattle.command_line.specs.declared.file_command.Request.{Request};
ghost use Rattle.bitemporal_file.specs.Notes.{TellsFirst};
ghost use Rattle.bitemporal_file.specs.Program.{AskNothingFor, ExitsNoting, IsAskedBy};
ghost use Rattle.bitemporal_file.specs.Program.{last_component, names_program};
ghost use Rattle.bitemporal_file.specs.ReadOnly.{AreHeldBy, DoesAskedReading, reading};
ghost use Rattle.bitemporal_file.specs.Reporting.{IsUnused};
ghost use Rattle.bitemporal_file.specs.declared.stores.StoreEnd.TheVariants.{Unopened};
ghost use Rattle.bitemporal_file.specs.StoreFiles.{filing};
ghost use Rattle.bitemporal_file.specs.StoreRuns.{DoesAsked, Inspects, failed_in};

use crate::inspections::{Inspection, inspect_store, inspection_of};
use crate::over::{end_over, run_over};
use crate::places::Places;
use crate::read_only::{Held, read_asked};
use crate::reporter::Reporter;
use crate::stores::{Filed, StoreFiles};
use crate::system::System;
use command_line::{
    ProgramName, Request, RunFault, ScriptFiles, Scripts, Tracked, end_in, parse_request, show,
};
use sqlite::Start;
use sqlite_disk::{Disk, Memory};
use sqlite_trees::store::Store;
use std::alloc::Global;
use std::io::{Read, Write};

const NAME: &str = "bitemporal_file";

// The last component of a path.
fn component_of(path: &[u8]) -> &[u8]
    ensures { result.now ≡ last_component path.now }
{
    let mut start = 0;
    for (i, byte) in path.iter().enumerate() {
        if *byte == b'/' {
            start = i + 1;
        }
    }
    &path[start..]
}

/// Whether the words of a command line call this program: whether the last component of the first,
/// which is the path of a program, begins with its name.
pub fn is_called(words: &[String]) -> bool
    ensures { result ≡ names_program (map string_bytes words.now) }
{
    match words.first() {
        Some(word) => component_of(word.as_str().as_bytes()).starts_with(NAME.as_bytes()),
        None => false,
    }
}

// Reports what is asked of the store. Gives the exit status.
fn inspect_asked<S: Start + Copy, W: Write, E: Write>(
    alloc: Global,
    stores: &mut StoreFiles<'_, S>,
    asked: &Request,
    inspection: Inspection,
    reporter: &mut Reporter<W, E>,
) -> Result<u8, RunFault>
    requires unused { IsUnused reporter.old }
    requires unopened { stores.old.end ≡ Unopened }
    ensures inspects { Inspects ⟦<Filed<S> as Store>⟧ W.contents
        (filing (string_bytes asked.now.store) (image_at S.Start) (string_bytes stores.new.name)
        stores.new.end) inspection reporter.old result reporter.new }
    ensures low { IfOk result (λ status. status ≤ 3) }
    ensures told { TellsFirst E.contents reporter.old.notes reporter.new.notes }
{
    let name = asked.store.as_str();
    let connection = stores.open_store(name, false, asked.wait)?;
    match inspect_store(alloc, connection, inspection, &mut reporter.out) {
        Ok((told, connection)) => {
            end_over(stores, reporter, told, connection)?;
            Ok(0)
        }
        Err((refusal, connection)) => {
            stores.give_up(reporter, connection);
            Err(RunFault::Script(refusal))
        }
    }
}

// Reports what is asked of the store, or runs what is asked for. Gives the exit status.
fn run_asked<S: Start + Copy, Q: Scripts + Places + System, R: Read, W: Write, E: Write>(
    alloc: Global,
    stores: &mut StoreFiles<'_, S>,
    system: &Q,
    scripts: &mut ScriptFiles<'_, Q>,
    asked: &Request,
    input: &mut Tracked<R>,
    reporter: &mut Reporter<W, E>,
) -> Result<u8, RunFault>
    requires unused { IsUnused reporter.old }
    requires unopened { stores.old.end ≡ Unopened }
    ensures done { asked.now.reads_only ≡ false
        → DoesAsked ⟦<Filed<S> as Store>⟧ Q.made Q.tells W.contents E.contents
        (filing (string_bytes asked.now.store) (image_at S.Start) (string_bytes stores.new.name)
        stores.new.end) (Q.content scripts.old.scripts.now)
        (λ unread. R.remaining unread.inner)
        (λ unread. failed_in asked.now.files.items unread.has_failed scripts.new.has_failed)
        asked.now
        reporter.old input.old
        result reporter.new input.new }
    ensures read { asked.now.reads_only ≡ true
        → DoesAskedReading ⟦<Held as Store>⟧ Q.made W.contents E.contents
        (reading ⟦<Memory as Disk>⟧
        (AreHeldBy (Q.leads_to system.now (string_bytes asked.now.store))
        (Q.content system.now) (Q.may_lack system.now))) (Q.content scripts.old.scripts.now)
        (λ unread. R.remaining unread.inner)
        (λ unread. failed_in asked.now.files.items unread.has_failed scripts.new.has_failed)
        asked.now
        reporter.old input.old
        result reporter.new input.new × (stores.new ≡ stores.old) }
    ensures low { reporter.old.worst ≤ 3 → IfOk result (λ status. status ≤ 3) }
    ensures told { TellsFirst E.contents reporter.old.notes reporter.new.notes }
{
    if asked.reads_only {
        return read_asked(stores.rt, alloc, system, scripts, asked, input, reporter);
    }
    if let Some(inspection) = inspection_of(asked) {
        return inspect_asked::<S, W, E>(alloc, stores, asked, inspection, reporter);
    }
    reporter.stops = asked.stops;
    run_over::<S, Q, Q, R, W, E>(alloc, stores, system, scripts, asked, input, reporter)
}

/// Does what the words ask for: runs scripts over the store that they name, those in files or a
/// session of `input`, and reports each statement as soon as it is done; or lists the store's
/// tables, or verifies the store; or shows help or the version. Gives the exit status: 0 to 3 as
/// `bitemporal` does, for all scripts together. With 2 standard error gets a text that says why.
/// Before that it gets notes of versions that changes ended at the very moment at which they began:
/// of the first statement that did so as soon as it is run, and at the end how many they are.
pub fn run_file_program<S: Start + Copy, Q: Scripts + Places + System, R: Read, W: Write, E: Write>(
    alloc: Global,
    words: &[String],
    stores: &mut StoreFiles<'_, S>,
    system: &Q,
    scripts: &mut ScriptFiles<'_, Q>,
    input: &mut Tracked<R>,
    report: &mut Reporter<W, E>,
) -> u8
    requires unused { IsUnused report.old }
    requires unopened { stores.old.end ≡ Unopened }
    ensures status { result ≤ 3 }

    // The words ask for nothing that runs: it shows why or is out of memory, and opens and reads
    // nothing. Or it does what they ask for. A run of scripts is from whatever history the store
    // represented: all results are of that run, the report is theirs, and the store represents the
    // history to which they led: so it is for the next run. The other tables of its database stay.
    // If no version was forgotten standard error has no note, or else these come first there.
    // If the tables are listed or the store is verified, the output gets the report of the
    // history that the store represents, no statement is reported, no input is read, and the
    // history is the same. With --read-only all that is over a database in memory, which the bytes
    // of the store's files hold: no store is opened in its files.
    ensures runs { ((fault : CommandFault) × AskNothingFor (map string_bytes words.now) fault
        × IsShown ProgramName.BitemporalFile fault result
        (W.contents report.old.out) (W.contents report.new.out) report.new.notes.err.has_failed
        (E.contents report.old.notes.err.inner) (E.contents report.new.notes.err.inner)
        × (stores.new ≡ stores.old) × (scripts.new ≡ scripts.old) × (input.new ≡ input.old)
        × (report.new ≡ record report.old {
          out = report.new.out;
          notes = record report.old.notes { err = report.new.notes.err };
        }))
        ⊎ ((asked : Request) × IsAskedBy (map string_bytes words.now) asked
        × (ended : Result ℕ RunFault) × (left : Reporter W E)
        × (report.new ≡ record left { notes = report.new.notes })
        × ExitsNoting left.notes.tally ended result report.new.notes.err.has_failed
        (E.contents report.old.notes.err.inner) (E.contents report.new.notes.err.inner)
        × (asked.reads_only ≡ false
        → DoesAsked ⟦<Filed<S> as Store>⟧ Q.made Q.tells W.contents E.contents
        (filing (string_bytes asked.store) (image_at S.Start) (string_bytes stores.new.name)
        stores.new.end) (Q.content scripts.old.scripts.now)
        (λ unread. R.remaining unread.inner)
        (λ unread. failed_in asked.files.items unread.has_failed scripts.new.has_failed)
        asked report.old input.old ended left input.new)
        × (asked.reads_only ≡ true
        → DoesAskedReading ⟦<Held as Store>⟧ Q.made W.contents E.contents
        (reading ⟦<Memory as Disk>⟧
        (AreHeldBy (Q.leads_to system.now (string_bytes asked.store))
        (Q.content system.now) (Q.may_lack system.now)))
        (Q.content scripts.old.scripts.now) (λ unread. R.remaining unread.inner)
        (λ unread. failed_in asked.files.items unread.has_failed scripts.new.has_failed)
        asked report.old input.old
        ended left input.new × (stores.new ≡ stores.old))) }
{
    let program = ProgramName::BitemporalFile;
    let asked = match parse_request(alloc, words) {
        Ok(asked) => asked,
        Err(fault) => {
            return show(
                alloc,
                program,
                &fault,
                &mut report.out,
                &mut report.notes.err,
            );
        }
    };
    let ended = run_asked::<S, Q, R, W, E>(alloc, stores, system, scripts, &asked, input, report);
    report.notes.add_up(alloc);
    match ended {
        Ok(status) => status,
        Err(fault) => end_in(alloc, program, &mut report.notes.err, fault),
    }
}
