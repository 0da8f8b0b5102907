//! Out of memory, as an error.

use std::alloc::{AllocError, AllocFailed};

/// The call ran out of memory.
#[derive(Clone, Copy, Debug)]
pub struct Mem;

impl From<AllocError> for Mem {
    fn from(_: AllocError) -> Self {
        Mem
    }
}

impl<T: Drop> From<AllocFailed<T>> for Mem {
    fn from(_: AllocFailed<T>) -> Self {
        Mem
    }
}
