//! A connection over a new store in memory.

ghost use Rattle.std.specs.Prelude.{◌≡◌, IfOk, IsTrue};
ghost use Rattle.sqlite.specs.Held.{IsNew, state};
ghost use Rattle.sqlite.specs.Steps.{IsEmpty};
ghost use Rattle.memory_store.specs.Connected.{over_memory};

use crate::store::MemoryStore;
use sqlite::{Connection, Error, ErrorCode};
use std::alloc::{AllocError, Global};

fn is_out_of_memory(error: &Error) -> bool
    ensures { error.now ≡ Error.SqliteFailure ErrorCode.OutOfMemory → IsTrue result }
{
    matches!(error, Error::SqliteFailure(ErrorCode::OutOfMemory))
}

/// A connection to an empty database. It fails only if it is out of memory.
pub fn open_in_memory(alloc: Global) -> Result<Connection<MemoryStore>, AllocError>
    ensures empty { IfOk result (λ connection. IsEmpty (state over_memory connection)) }
    ensures fresh { IfOk result IsNew }
{
    match Connection::over(alloc, MemoryStore::new(alloc)) {
        Ok(connection) => Ok(connection),
        Err((error, _store)) => {
            prove!(is_out_of_memory(&error));
            Err(AllocError)
        }
    }
}
