//! Faults of the database, and the refusals that they are.

ghost use Rattle.std.specs.Prelude.{◌≡◌, ◌≢◌};
ghost use Rattle.period_core.specs.declared.decoding.DecodeFault.TheVariants.{Malformed};
ghost use Rattle.period_core.specs.declared.refusal.Refusal.TheVariants.{BadStore, Store};
ghost use Rattle.period_core.specs.declared.refusal.Refusal.TheVariants.{Memory as MemoryRefusal};
ghost use Rattle.sqlite.specs.declared.error.Error.TheVariants.{SqliteFailure};
ghost use Rattle.sqlite.specs.declared.error.ErrorCode.TheVariants.{OutOfMemory};
ghost use Rattle.version_store.specs.declared.fault.OpenFault.TheVariants.{BadStore as IsBad};
ghost use Rattle.version_store.specs.declared.fault.OpenFault.TheVariants.{Store as Unread};
ghost use Rattle.version_store.specs.declared.fault.StoreFault.TheVariants.{Database as Failed};
ghost use Rattle.version_store.specs.declared.fault.StoreFault.TheVariants.{Memory as NoMemory};
ghost use Rattle.version_store.specs.Faults.{IsJudgement};
ghost use Rattle.version_store.specs.StoreState.{IsOpenRefusal, IsStoreRefusal};

use period_core::{DecodeFault, Memory, Refusal};
use sqlite::{Error, ErrorCode};
use std::alloc::{AllocError, AllocFailed};

/// Why the database did not do what it was called for.
#[derive(Clone, Copy, Debug, PartialEq, Eq)]
pub(crate) enum StoreFault {
    /// Memory ran out.
    Memory,
    /// Another failure of the database.
    Database,
}

impl From<Error> for StoreFault {
    ghost from_gives = { λ error fault. error ≡ SqliteFailure OutOfMemory → fault ≡ NoMemory };

    fn from(error: Error) -> StoreFault {
        match error {
            Error::SqliteFailure(ErrorCode::OutOfMemory) => StoreFault::Memory,
            _ => StoreFault::Database,
        }
    }
}

impl From<Memory> for StoreFault {
    ghost from_gives = { λ _ fault. fault ≡ NoMemory };

    fn from(_fault: Memory) -> StoreFault {
        StoreFault::Memory
    }
}

impl From<AllocError> for StoreFault {
    ghost from_gives = { λ _ fault. fault ≡ NoMemory };

    fn from(_error: AllocError) -> StoreFault {
        StoreFault::Memory
    }
}

impl<T: Drop> From<AllocFailed<T>> for StoreFault {
    ghost from_gives = { λ _ fault. fault ≡ NoMemory };

    fn from(_error: AllocFailed<T>) -> StoreFault {
        StoreFault::Memory
    }
}

impl From<DecodeFault> for StoreFault {
    ghost from_gives = { λ decoding fault. fault ≡ Failed → decoding ≡ Malformed };

    fn from(fault: DecodeFault) -> StoreFault {
        match fault {
            DecodeFault::Memory => StoreFault::Memory,
            DecodeFault::Malformed => StoreFault::Database,
        }
    }
}

impl From<StoreFault> for Refusal {
    ghost from_gives = { λ fault refusal. IsStoreRefusal refusal
        × (fault ≡ NoMemory → refusal ≡ MemoryRefusal) × (fault ≡ Failed → refusal ≡ Store) };

    fn from(fault: StoreFault) -> Refusal {
        match fault {
            StoreFault::Memory => Refusal::Memory,
            StoreFault::Database => Refusal::Store,
        }
    }
}

/// Why a store is not opened.
#[derive(Clone, Copy, Debug, PartialEq, Eq)]
pub(crate) enum OpenFault {
    /// The database is no good store.
    BadStore,
    /// The database could not be read.
    Store(StoreFault),
}

impl From<Error> for OpenFault {
    ghost from_gives = { λ error fault. (fault ≢ IsBad)
        × (error ≡ SqliteFailure OutOfMemory → fault ≡ Unread NoMemory) };

    fn from(error: Error) -> OpenFault {
        OpenFault::Store(StoreFault::from(error))
    }
}

impl From<Memory> for OpenFault {
    ghost from_gives = { λ _ fault. fault ≡ Unread NoMemory };

    fn from(fault: Memory) -> OpenFault {
        OpenFault::Store(StoreFault::from(fault))
    }
}

impl From<DecodeFault> for OpenFault {
    ghost from_gives = { λ decoding fault.
        IsJudgement fault × (fault ≡ IsBad → decoding ≡ Malformed) };

    fn from(fault: DecodeFault) -> OpenFault {
        match fault {
            DecodeFault::Memory => OpenFault::Store(StoreFault::Memory),
            DecodeFault::Malformed => OpenFault::BadStore,
        }
    }
}

impl From<OpenFault> for Refusal {
    ghost from_gives = { λ fault refusal.
        IsOpenRefusal refusal × (refusal ≡ BadStore → fault ≡ IsBad)
        × (fault ≡ Unread NoMemory → refusal ≡ MemoryRefusal) };

    fn from(fault: OpenFault) -> Refusal {
        match fault {
            OpenFault::BadStore => Refusal::BadStore,
            OpenFault::Store(fault) => Refusal::from(fault),
        }
    }
}

/// The refusal that an error of the database is.
pub(crate) fn refusal_of(error: &Error) -> Refusal
    ensures named { IsStoreRefusal result }
    ensures memory { error.now ≡ SqliteFailure OutOfMemory → result ≡ MemoryRefusal }
{
    Refusal::from(StoreFault::from(*error))
}
