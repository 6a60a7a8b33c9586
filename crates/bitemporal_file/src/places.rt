//! The places of the files of stores.

ghost use Rattle.std.specs.Prelude.{◌≡◌, ℕ, IfErr, IfOk, List};
ghost use Rattle.std.specs.String.{string_bytes};
ghost use Rattle.bitemporal_file.specs.ReadOnly.{IsReadFault};

use command_line::RunFault;
use std::alloc::Global;
use std::fs;
use std::io::ErrorKind;
use std::os::unix::fs::MetadataExt;

/// The kind of file that is found at a place.
#[derive(Clone, Copy)]
pub enum FileKind {
    /// Nothing.
    Nothing,
    /// A file with one name.
    Plain,
    /// Anything else, as a folder, a link or a file with several names.
    Other,
}

/// The places of files.
pub trait Places {
    // A name leads to this place.
    ghost leads_to: { Self → List ℕ → List ℕ → Type 0 };

    // A place may lack a file.
    ghost may_lack: { Self → List ℕ → Type 0 };

    /// The place to which a name leads. An `Err` is that it leads nowhere, or out of memory.
    fn place_of(&self, alloc: Global, name: &str) -> Result<String, RunFault>
        ensures leads { IfOk result (λ place. leads_to self.now name.now (string_bytes place)) }
        ensures fault { IfErr result IsReadFault };

    /// The kind of file that is found at a place.
    fn kind_at(&self, place: &str) -> FileKind
        ensures { result ≡ FileKind.Nothing → may_lack self.now place.now };
}

/// The places of the system, of which nothing is known: any name may lead anywhere.
impl Places for HostRuntime {
    ghost leads_to = { λ _ _ _. Unit {0} };

    ghost may_lack = { λ _ _. Unit {0} };

    fn place_of(&self, alloc: Global, name: &str) -> Result<String, RunFault> {
        let place = match fs::canonicalize(self, name) {
            Ok(path) => String::from_str(alloc, path.as_str()),
            Err(error) if error.kind() == ErrorKind::OutOfMemory => return Err(RunFault::Memory),
            Err(_) => return Err(RunFault::NoStore),
        };
        match place {
            Ok(place) => Ok(place),
            Err(_) => Err(RunFault::Memory),
        }
    }

    fn kind_at(&self, place: &str) -> FileKind {
        match fs::symlink_metadata(self, place) {
            Ok(found) if found.is_file() && found.nlink() == 1 => FileKind::Plain,
            Err(error) if error.kind() == ErrorKind::NotFound => FileKind::Nothing,
            _ => FileKind::Other,
        }
    }
}
