//! New files, which have their names only once they are whole and on the disk.

ghost use Rattle.std.specs.Prelude.{IfErr};
ghost use Rattle.bitemporal_file.specs.Copies.{IsCopyFault};

use command_line::RunFault;
use std::fs::File;
use std::io::{ErrorKind, Write};
use std::{fs, io};

// Writes a new file to the disk. If there is one of that name, it stays.
fn write_part(rt: &HostRuntime, part: &str, bytes: &[u8]) -> io::Result<()> {
    let mut file = File::create_new(rt, part)?;
    let written = file.write_all(bytes);
    let synced = match written {
        Ok(()) => file.sync_all(),
        Err(error) => Err(error),
    };
    if synced.is_err() {
        let _ = fs::remove_file(rt, part);
    }
    synced
}

// The fault of a call that made a file or gave it a name.
fn fault_of(error: &io::Error) -> RunFault
    ensures { IsCopyFault result }
{
    match error.kind() {
        ErrorKind::AlreadyExists => RunFault::CopyThere,
        ErrorKind::OutOfMemory => RunFault::Memory,
        _ => RunFault::CopyFailed,
    }
}

/// Makes a file with these bytes. They are written to the file of the same name with `.part` after
/// it and synced; the file then gets its name by a link, which never takes the place of another
/// file, and loses the first one.
pub(crate) fn make_file(rt: &HostRuntime, name: &str, bytes: &[u8]) -> Result<(), RunFault>
    ensures { IfErr result IsCopyFault }
{
    let Ok(part) = format!(in rt.alloc(); "{name}.part") else {
        return Err(RunFault::Memory);
    };
    if fs::symlink_metadata(rt, name).is_ok() {
        return Err(RunFault::CopyThere);
    }
    if let Err(error) = write_part(rt, part.as_str(), bytes) {
        return Err(fault_of(&error));
    }
    let named = fs::hard_link(rt, part.as_str(), name);
    let _ = fs::remove_file(rt, part.as_str());
    match named {
        Ok(()) => Ok(()),
        Err(error) => Err(fault_of(&error)),
    }
}
