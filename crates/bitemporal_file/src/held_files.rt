//! The bytes that the files of a store hold, which are only read.

ghost use Rattle.std.specs.Prelude.{◌≡◌, IfErr, IfOk, IfSome, None, Ok};
ghost use Rattle.bitemporal_file.specs.ReadOnly.{AreAllOf, AreHeldAt, IsReadFault, log_beside};

use crate::places::{FileKind, Places};
use command_line::{RunFault, Scripts};
use period_core::Refusal;
use std::alloc::Global;
use std::io::{ErrorKind, Read};

/// The bytes of a store's files.
#[derive(Drop)]
pub(crate) struct HeldFiles {
    /// The bytes of its log; none if there is no log.
    pub(crate) log: Vec<u8>,
    /// The bytes of its own file.
    pub(crate) db: Vec<u8>,
}

// All bytes that a reader has left.
fn read_all<R: Read>(alloc: Global, file: &mut R) -> Result<Vec<u8>, RunFault>
    ensures bytes { IfOk result (λ bytes. AreAllOf (R.remaining file.old) bytes.items) }
    ensures fault { IfErr result IsReadFault }
{
    let mut bytes = Vec::new(alloc);
    match file.read_to_end(&mut bytes) {
        Ok(_) => Ok(bytes),
        Err(error) if error.kind() == ErrorKind::OutOfMemory => Err(RunFault::Memory),
        Err(_) => Err(RunFault::Script(Refusal::Store)),
    }
}

// The bytes of the file at a place; nothing if there is none. A file that exists and then is
// not is one that another program has taken away.
fn read_file<Q: Scripts + Places>(
    alloc: Global,
    files: &Q,
    place: &str,
) -> Result<Option<Vec<u8>>, RunFault>
    ensures some { IfOk result (λ read. IfSome read
        (λ bytes. AreAllOf (Q.content files.now place.now) bytes.items)) }
    ensures none { result ≡ Ok None → Q.may_lack files.now place.now }
    ensures fault { IfErr result IsReadFault }
{
    match files.kind_at(place) {
        FileKind::Nothing => return Ok(None),
        FileKind::Plain => {}
        FileKind::Other => return Err(RunFault::NoStore),
    }
    let mut file = match files.open_script(place) {
        Ok(file) => file,
        Err(error) if error.kind() == ErrorKind::NotFound => return Err(RunFault::Locked),
        Err(_) => return Err(RunFault::NoStore),
    };
    match read_all(alloc, &mut file) {
        Ok(bytes) => Ok(Some(bytes)),
        Err(fault) => Err(fault),
    }
}

// The bytes of the files of the store at a place, the log first.
fn read_both<Q: Scripts + Places>(
    alloc: Global,
    files: &Q,
    place: &str,
    log_place: &str,
) -> Result<HeldFiles, RunFault>
    requires { log_place.now ≡ log_beside place.now }
    ensures held { IfOk result (λ held. AreHeldAt (Q.content files.now) (Q.may_lack files.now)
        place.now (record { log = held.log.items; db = held.db.items })) }
    ensures fault { IfErr result IsReadFault }
{
    let log = match read_file(alloc, files, log_place)? {
        Some(log) => log,
        None => Vec::new(alloc),
    };
    match read_file(alloc, files, place)? {
        Some(db) => Ok(HeldFiles { log, db }),
        None => Err(RunFault::NoStore),
    }
}

// Whether a transaction that was not ended may be rolled back by a journal next to the store.
fn has_journal<Q: Scripts + Places>(alloc: Global, files: &Q, place: &str) -> Result<bool, RunFault>
    ensures fault { IfErr result IsReadFault }
{
    let Ok(journal) = format!(in alloc; "{place}-journal") else {
        return Err(RunFault::Memory);
    };
    match read_file(alloc, files, journal.as_str())? {
        Some(bytes) => Ok(matches!(bytes.first(), Some(byte) if *byte != 0)),
        None => Ok(false),
    }
}

/// The bytes of the files of the store at a place at one moment: they are read twice, and hold the
/// same both times, so they held it at the moment in between. Else another program changes them.
pub(crate) fn read_held<Q: Scripts + Places>(
    alloc: Global,
    files: &Q,
    place: &str,
) -> Result<HeldFiles, RunFault>
    ensures held { IfOk result (λ held. AreHeldAt (Q.content files.now) (Q.may_lack files.now)
        place.now (record { log = held.log.items; db = held.db.items })) }
    ensures fault { IfErr result IsReadFault }
{
    let Ok(log_place) = format!(in alloc; "{place}-wal") else {
        return Err(RunFault::Memory);
    };
    let held = read_both(alloc, files, place, log_place.as_str())?;
    if has_journal(alloc, files, place)? {
        return Err(RunFault::NoStore);
    }
    let again = read_both(alloc, files, place, log_place.as_str())?;
    if held.log.as_slice() == again.log.as_slice() && held.db.as_slice() == again.db.as_slice() {
        Ok(held)
    } else {
        Err(RunFault::Locked)
    }
}
