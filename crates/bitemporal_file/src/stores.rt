//! The stores of a command line: the database files that their names open.

ghost use Rattle.std.specs.Prelude.{◌≡◌, IfErr, IfOk, OnOk, false, true};
ghost use Rattle.std.specs.String.{string_bytes};
ghost use Rattle.sqlite_wal.specs.Files.{image_at};
ghost use Rattle.command_line.specs.declared.fault.RunFault.TheVariants.{Memory};
ghost use Rattle.bitemporal_file.specs.declared.stores.StoreEnd.TheVariants.{Unopened};
ghost use Rattle.bitemporal_file.specs.StoreFiles.{FailsToOpen, Finds, IsInFiles, IsLeftAs};
ghost use Rattle.bitemporal_file.specs.StoreFiles.{IsSought, IsUnclosedFor, fault_for};
ghost use Rattle.bitemporal_file.specs.StoreFiles.{fault_for_closing};

use crate::reporter::Reporter;
use command_line::RunFault;
use period_core::Refusal;
use sqlite::{Connection, Error, ErrorCode, FileFrom, FileStore, Files, Leftover, Start};
use sqlite_disk::Disk;
use std::alloc::Global;
use std::io::ErrorKind;
use std::mem::ManuallyDrop;
use std::time::Duration;
use std::{fs, thread};

// The number of tries in a second, as another program has a database open.
const TRIES_PER_SECOND: u64 = 20;

// Between two tries: 50 ms.
const PAUSE_MILLIS: u64 = 50;

/// The time between two tries.
pub(crate) fn pause() -> Duration {
    Duration::from_millis(PAUSE_MILLIS)
}

/// The number of tries in so many seconds, but for the last one.
pub(crate) fn tries_in(seconds: u32) -> u64 {
    u64::from(seconds) * TRIES_PER_SECOND
}

// The files of a store that exist.
#[derive(Clone, Copy)]
struct Present {
    // The file itself.
    store: bool,
    // The log next to it.
    log: bool,
}

/// Why a database did not open.
pub(crate) fn fault_of(error: Error) -> RunFault
    ensures { result ≡ fault_for error }
{
    match error {
        Error::SqliteFailure(ErrorCode::DatabaseBusy) => RunFault::Locked,
        Error::SqliteFailure(ErrorCode::CannotOpen) => RunFault::NoStore,
        Error::SqliteFailure(ErrorCode::OutOfMemory) => RunFault::Memory,
        Error::SqliteFailure(ErrorCode::NotADatabase | ErrorCode::DatabaseCorrupt) => {
            RunFault::Script(Refusal::BadStore)
        }
        _ => RunFault::Script(Refusal::Store),
    }
}

/// Why a connection was not closed.
pub(crate) fn closing_fault(error: Error) -> RunFault
    ensures { result ≡ fault_for_closing error }
{
    match error {
        Error::SqliteFailure(ErrorCode::OutOfMemory) => RunFault::Memory,
        _ => RunFault::Script(Refusal::Store),
    }
}

// A copy of a store's name.
fn copied_name(alloc: Global, name: &str) -> Result<String, RunFault>
    ensures copy { IfOk result (λ copy. string_bytes copy ≡ name.now) }
    ensures fault { IfErr result (λ fault. fault ≡ Memory) }
{
    match String::from_str(alloc, name) {
        Ok(copy) => Ok(copy),
        Err(_) => Err(RunFault::Memory),
    }
}

// Whether a file exists. If the system does not say, it is taken for one.
fn is_there(rt: &HostRuntime, path: &str) -> bool {
    match fs::symlink_metadata(rt, path) {
        Ok(_) => true,
        Err(error) => error.kind() != ErrorKind::NotFound,
    }
}

// The place of the store's file: that to which a link of its name leads. The log is next to it.
fn place_of(rt: &HostRuntime, name: &str) -> Option<(String, String)> {
    let place = match fs::canonicalize(rt, name) {
        Ok(path) => String::from_str(rt.alloc(), path.as_str()),
        Err(_) => String::from_str(rt.alloc(), name),
    };
    let Ok(place) = place else {
        return None;
    };
    match format!(in rt.alloc(); "{place}-wal") {
        Ok(log) => Some((place, log)),
        Err(_) => None,
    }
}

// Removes the files that were not there before.
fn remove_new(rt: &HostRuntime, name: &str, before: Present) {
    let Some((place, log)) = place_of(rt, name) else {
        return;
    };
    if !before.log {
        let _ = fs::remove_file(rt, log.as_str());
    }
    if !before.store {
        let _ = fs::remove_file(rt, place.as_str());
    }
}

// Removes the log.
fn remove_log(rt: &HostRuntime, name: &str) {
    if let Some((_, log)) = place_of(rt, name) {
        let _ = fs::remove_file(rt, log.as_str());
    }
}

// The files of the store of that name that exist.
fn files_there(rt: &HostRuntime, name: &str) -> Present {
    match place_of(rt, name) {
        Some((place, log)) => Present {
            store: is_there(rt, place.as_str()),
            log: is_there(rt, log.as_str()),
        },
        None => Present {
            store: true,
            log: true,
        },
    }
}

/// A database in files of which `S` says what they held.
pub(crate) type Filed<S> = FileStore<FileFrom<S>>;

/// The state in which the files of a store were left.
pub enum StoreEnd<D: Disk> {
    /// None was opened.
    Unopened,
    /// The files did not open as a database. What is left of them stays open and locked until the
    /// process ends.
    Refused(ManuallyDrop<Leftover<D>>),
    /// There is a connection.
    Opened,
    /// The connection was given up, and stays open and locked until the process ends.
    GivenUp(ManuallyDrop<Connection<FileStore<D>>>),
    /// The connection was closed.
    Closed(Files<D>),
    /// A connection that could not be closed, and what is left of it.
    Unclosed(FileStore<D>),
}

impl<D: Disk + Drop> Drop for StoreEnd<D> {
    fn drop(self) {
        match self {
            StoreEnd::Unopened | StoreEnd::Opened => {}
            StoreEnd::Refused(_left) => {}
            StoreEnd::GivenUp(_connection) => {}
            StoreEnd::Closed(_files) => {}
            StoreEnd::Unclosed(_store) => {}
        }
    }
}

/// Database files, of which one is opened by its name, and closed or given up. At first they hold
/// what `S` represents, whatever that is: a program has `Unknown`.
#[derive(Drop)]
pub struct FilesOf<'a, S: Start + Copy, D: Disk> {
    /// The system, whose files and whose clock they are.
    pub(crate) rt: &'a HostRuntime,
    start: S,
    before: Present,
    /// The name of the store that was sought last.
    pub(crate) name: String,
    /// The state in which the files that were opened were left.
    pub(crate) end: StoreEnd<D>,
}

/// The database files of the system.
pub type StoreFiles<'a, S> = FilesOf<'a, S, FileFrom<S>>;

impl<'a, S: Start + Copy> FilesOf<'a, S, FileFrom<S>> {
    /// The files of the system, of which none is open.
    pub fn new(rt: &'a HostRuntime, start: S) -> StoreFiles<'a, S>
        ensures { result.end ≡ Unopened }
    {
        FilesOf {
            rt,
            start,
            before: Present {
                store: true,
                log: true,
            },
            name: String::new(rt.alloc()),
            end: StoreEnd::Unopened,
        }
    }
}

impl<S: Start + Copy> FilesOf<'_, S, FileFrom<S>> {
    // Removes the files that were not there as the store was sought.
    fn remove_made(&self) {
        remove_new(self.rt, self.name.as_str(), self.before);
    }

    // Opens the database of that name at once, or not.
    fn open_now(&mut self, name: &str, may_make: bool) -> Result<Connection<Filed<S>>, RunFault>
        requires { self.old.end ≡ Unopened }
        ensures settled { IfOk result (λ connection. connection.in_transaction ≡ false) }
        ensures opened { IfOk result (Finds (image_at S.Start)) }
        ensures named { IfOk result (λ _. string_bytes self.new.name ≡ name.now) }
        ensures refused { IfErr result (FailsToOpen (image_at S.Start) self.new.end) }
        ensures sought { IfErr result (IsSought name.now (string_bytes self.new.name)) }
    {
        self.name = copied_name(self.rt.alloc(), name)?;
        let sought = self.name.as_str();
        self.before = files_there(self.rt, sought);
        if !may_make && !self.before.store {
            return Err(RunFault::NoStore);
        }
        match Connection::open_from(self.rt, sought, false, self.start) {
            Ok(connection) => {
                self.end = StoreEnd::Opened;
                Ok(connection)
            }
            Err((error, left)) => {
                let fault = fault_of(error);
                if let Some(left) = left {
                    self.end = StoreEnd::Refused(ManuallyDrop::new(left));
                }
                // While the files are open and locked no other program has them.
                if fault != RunFault::Locked {
                    self.remove_made();
                }
                Err(fault)
            }
        }
    }

    // Whether no file was opened.
    fn is_unopened(&self) -> bool
        ensures { result ≡ true → self.now.end ≡ Unopened }
    {
        matches!(self.end, StoreEnd::Unopened)
    }

    /// A connection to the database of that name. If it is missing, it is made, if it may be.
    /// While another program has it, that is tried again, for so many seconds. On `Err` there is no
    /// file that was not there before. Only one is ever opened.
    pub(crate) fn open_store(
        &mut self,
        name: &str,
        may_make: bool,
        seconds: u32,
    ) -> Result<Connection<Filed<S>>, RunFault>
        requires { self.old.end ≡ Unopened }
        ensures settled { IfOk result (λ connection. connection.in_transaction ≡ false) }
        ensures opened { IfOk result (Finds (image_at S.Start)) }
        ensures named { IfOk result (λ _. string_bytes self.new.name ≡ name.now) }
        ensures refused { IfErr result (FailsToOpen (image_at S.Start) self.new.end) }
        ensures sought { IfErr result (IsSought name.now (string_bytes self.new.name)) }
    {
        'tries: for _ in 0..tries_in(seconds) {
            match self.open_now(name, may_make) {
                Err(RunFault::Locked) if self.is_unopened() => thread::sleep(self.rt, pause()),
                ended => return ended,
            }
        }
        self.open_now(name, may_make)
    }

    /// Whether the database was made as it was opened.
    pub(crate) fn is_new(&self) -> bool {
        !self.before.store
    }

    /// Gives a connection up, as the program ends and its report has no statement: no file is left
    /// that was not there before.
    pub(crate) fn give_up<W, E>(
        &mut self,
        report: &Reporter<W, E>,
        connection: Connection<Filed<S>>,
    )
        requires { report.now.is_unused ≡ true }
        ensures left { IsLeftAs self.new.end connection }
        ensures same { self.new.name ≡ self.old.name }
    {
        self.end = StoreEnd::GivenUp(ManuallyDrop::new(connection));
        self.remove_made();
    }

    /// Closes a connection, with all that is committed in its database file. The file of its log,
    /// which then holds nothing, is removed while the files are still locked.
    pub(crate) fn close_store(&mut self, connection: Connection<Filed<S>>) -> Result<(), RunFault>
        ensures kept { OnOk result (IsInFiles self.new.end connection) }
        ensures left { IsLeftAs self.new.end connection }
        ensures fault { IfErr result (IsUnclosedFor self.new.end connection) }
        ensures same { self.new.name ≡ self.old.name }
    {
        match connection.close_files() {
            Ok(files) => {
                remove_log(self.rt, self.name.as_str());
                self.end = StoreEnd::Closed(files);
                Ok(())
            }
            Err((error, store)) => {
                self.end = StoreEnd::Unclosed(store);
                Err(closing_fault(error))
            }
        }
    }
}
