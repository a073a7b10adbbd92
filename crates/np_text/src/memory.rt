//! Running out of memory.

use std::alloc::{AllocError, AllocFailed};

/// Memory ran out. Everything is as it was before the call.
#[derive(Clone, Copy, Debug, PartialEq, Eq)]
pub struct NoMemory;

/// Whether memory was ample: what a call that only does something comes to.
pub type Ample = Result<(), NoMemory>;

impl From<AllocError> for NoMemory {
    fn from(_: AllocError) -> NoMemory {
        NoMemory
    }
}

impl<T: Drop> From<AllocFailed<T>> for NoMemory {
    fn from(_: AllocFailed<T>) -> NoMemory {
        NoMemory
    }
}
