//! Out of memory, the one fault of calls that take memory.

use std::alloc::{AllocError, AllocFailed};

/// Out of memory: an allocation was refused. It carries nothing.
#[derive(Clone, Copy, Debug, PartialEq, Eq)]
pub struct Memory;

impl From<AllocError> for Memory {
    fn from(_error: AllocError) -> Memory {
        Memory
    }
}

impl<T: Drop> From<AllocFailed<T>> for Memory {
    fn from(_error: AllocFailed<T>) -> Memory {
        Memory
    }
}
