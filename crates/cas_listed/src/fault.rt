//! Why the listed files weren't loaded.

ghost use Rattle.std.specs.Prelude.{◌≡◌};
ghost use Rattle.cas_listed.specs.declared.fault.ListedFault.TheVariants as listed_fault;

use std::alloc::{AllocError, AllocFailed};

/// Why the listed files weren't loaded.
#[derive(Clone, Copy, Debug, PartialEq, Eq)]
pub enum ListedFault {
    /// The folder failed, and has counted it.
    Failed,
    /// A read of a file failed, and the tally that was handed in has counted it.
    Read,
    /// The file of that number isn't as it must be, or isn't as it is listed, at that place.
    Bad { number: u64, at: u64 },
    /// Out of memory.
    Mem,
}

impl From<AllocError> for ListedFault {
    ghost from_gives = { λ _ fault. fault ≡ listed_fault.Mem };

    fn from(_: AllocError) -> Self {
        ListedFault::Mem
    }
}

impl<T: Drop> From<AllocFailed<T>> for ListedFault {
    ghost from_gives = { λ _ fault. fault ≡ listed_fault.Mem };

    fn from(_: AllocFailed<T>) -> Self {
        ListedFault::Mem
    }
}
