//! A copy of a store in a file of its own, as one state between two statements.

ghost use Rattle.std.specs.Prelude.{◌≡◌, ◌≤◌, IfErr, IfOk, Result, false, ℕ};
ghost use Rattle.std.specs.String.{string_bytes};
ghost use Rattle.sqlite_disk.specs.Memory.{memory_bytes};
ghost use Rattle.sqlite_wal.specs.Files.{image_at};
ghost use Rattle.version_store.specs.StoreState.{IsUsable, SparesOthers};
ghost use Rattle.history_model.specs.Histories.{History};
ghost use Rattle.script_engine.specs.engine.Opens.{RefusesStore};
ghost use Rattle.script_engine.specs.engine.Stored.{EngineRepresents, WasUsable};
ghost use Rattle.command_line.specs.declared.fault.RunFault.{RunFault as AnyFault};
ghost use Rattle.bitemporal_file.specs.Backups.{BacksUp, IsCopied};
ghost use Rattle.bitemporal_file.specs.Copies.{IsBackupFault, IsFileOf};
ghost use Rattle.bitemporal_file.specs.Program.{ExitsAs};
ghost use Rattle.bitemporal_file.specs.Reporting.{IsUnused};
ghost use Rattle.bitemporal_file.specs.StoreFiles.{filing};
ghost use Rattle.bitemporal_file.specs.declared.stores.StoreEnd.TheVariants.{Unopened};

use crate::over::end_over;
use crate::reporter::Reporter;
use crate::stores::{Filed, StoreFiles, closing_fault};
use crate::system::System;
use command_line::{Backup, ProgramName, RunFault, Tracked, end_in};
use period_core::Refusal;
use script_engine::Engine;
use sqlite::{Alter, Connection, Files, Options, Start};
use sqlite_disk::Memory;
use sqlite_trees::store::Store;
use std::alloc::Global;
use std::io::Write;

// The salts of the log of the copy, which is empty as the copy is closed, are made of this.
const SEED: u64 = 1;

// The file of a copy of the engine's store, in memory.
fn copy_of<S: Alter>(alloc: Global, engine: &mut Engine<S>) -> Result<Memory, RunFault>
    ensures copied { IfOk result (λ file. IsUsable S.Store engine.new.connection
        → (history : History) → EngineRepresents S.Store history engine.old
        → IsFileOf history (memory_bytes file)) }
    ensures fault { IfErr result IsBackupFault }
    ensures same { IsUsable S.Store engine.new.connection
        → (history : History) → EngineRepresents S.Store history engine.old
        → EngineRepresents S.Store history engine.new }
    ensures usable { WasUsable S.Store engine.old.connection engine.new.connection }
    ensures others { SparesOthers S.Store engine.old.connection engine.new.connection }
{
    let files = Files {
        log: Memory::new(alloc),
        db: Memory::new(alloc),
    };
    let mut copy = match Connection::open_files(alloc, files, Options::new(SEED)) {
        Ok(copy) => copy,
        Err((error, _left)) => return Err(closing_fault(error)),
    };
    if let Err(refusal) = engine.copy_into(alloc, &mut copy) {
        return Err(RunFault::Script(refusal));
    }
    match copy.close_files() {
        Ok(files) => Ok(files.db),
        Err((error, _left)) => Err(closing_fault(error)),
    }
}

/// Makes a new file of that name with a copy of the engine's store. Gives its bytes.
pub(crate) fn back_up<S: Alter, C: System>(
    system: &C,
    alloc: Global,
    engine: &mut Engine<S>,
    name: &str,
) -> Result<Memory, RunFault>
    ensures copied { IfOk result (λ file. IsUsable S.Store engine.new.connection
        → (history : History) → EngineRepresents S.Store history engine.old
        → IsFileOf history (memory_bytes file)) }
    ensures made { IfOk result (λ file. C.made name.now (memory_bytes file)) }
    ensures fault { IfErr result IsBackupFault }
    ensures same { IsUsable S.Store engine.new.connection
        → (history : History) → EngineRepresents S.Store history engine.old
        → EngineRepresents S.Store history engine.new }
    ensures usable { WasUsable S.Store engine.old.connection engine.new.connection }
    ensures others { SparesOthers S.Store engine.old.connection engine.new.connection }
{
    let copy = copy_of(alloc, engine)?;
    match system.make(name, copy.bytes()) {
        Ok(()) => Ok(copy),
        Err(fault) => Err(fault),
    }
}

// Makes a copy of the store of a connection, which is given back. An `Err` says why the store is
// not opened: it changes nothing.
fn back_up_store<S: Alter, C: System>(
    system: &C,
    alloc: Global,
    connection: Connection<S>,
    name: &str,
) -> Result<(Result<Memory, RunFault>, Connection<S>), (Refusal, Connection<S>)>
    requires { connection.in_transaction ≡ false }
    ensures copied { IfOk result (λ ended. IsCopied S.Store C.made name.now
        connection ended.0 ended.1) }
    ensures usable { IfOk result (λ ended. WasUsable S.Store connection ended.1) }
    ensures others { IfOk result (λ ended. SparesOthers S.Store connection ended.1) }
    ensures refused { IfErr result (λ failed.
        RefusesStore S.Store connection failed.0 failed.1) }
{
    let mut engine = Engine::open(alloc, connection)?;
    let copied = back_up::<S, C>(system, alloc, &mut engine, name);
    Ok((copied, engine.close_at_exit()))
}

// Makes the copy that is asked for. Gives the exit status.
fn back_up_named<S: Start + Copy, C: System, W, E>(
    system: &C,
    alloc: Global,
    stores: &mut StoreFiles<'_, S>,
    asked: &Backup<'_>,
    report: &Reporter<W, E>,
) -> Result<u8, RunFault>
    requires unused { IsUnused report.now }
    requires unopened { stores.old.end ≡ Unopened }
    ensures backs_up { BacksUp ⟦<Filed<S> as Store>⟧ C.made asked.now.file.now
        (filing asked.now.store.now (image_at S.Start) (string_bytes stores.new.name)
        stores.new.end) result report.now }
    ensures low { IfOk result (λ status. status ≤ 3) }
{
    let connection = stores.open_store(asked.store, false, 0)?;
    match back_up_store(system, alloc, connection, asked.file) {
        Ok((copied, connection)) => {
            end_over(stores, report, copied, connection)?;
            Ok(0)
        }
        Err((refusal, connection)) => {
            stores.give_up(report, connection);
            Err(RunFault::Script(refusal))
        }
    }
}

/// Makes a copy of the store that is named in a new file, which has its name only once it is whole:
/// if there is such a file it stays, and so it does if the copy fails. Gives the exit status:
/// 0, or 2, and then `err` gets a text that says why.
pub fn run_backup<S: Start + Copy, C: System, W, E: Write>(
    system: &C,
    alloc: Global,
    stores: &mut StoreFiles<'_, S>,
    asked: &Backup<'_>,
    report: &Reporter<W, E>,
    err: &mut Tracked<E>,
) -> u8
    requires unused { IsUnused report.now }
    requires unopened { stores.old.end ≡ Unopened }
    ensures status { result ≤ 3 }

    // The store represents the history that it represented. With 0 the system was given the file's
    // name and bytes of which a file holds a database that represents it too, and refused neither.
    ensures backs_up { (ended : Result ℕ AnyFault) × ExitsAs ended result err.new.has_failed
        (E.contents err.old.inner) (E.contents err.new.inner)
        × BacksUp ⟦<Filed<S> as Store>⟧ C.made asked.now.file.now
        (filing asked.now.store.now (image_at S.Start) (string_bytes stores.new.name)
        stores.new.end) ended report.now }
{
    match back_up_named::<S, C, W, E>(system, alloc, stores, asked, report) {
        Ok(status) => status,
        Err(fault) => end_in(alloc, ProgramName::BitemporalFile, err, fault),
    }
}
