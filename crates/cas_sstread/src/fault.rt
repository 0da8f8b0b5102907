//! Why a table file wasn't read.

ghost use Rattle.std.specs.Prelude.{◌≡◌};
ghost use Rattle.cas_sstread.specs.declared.fault.TableFault.TheVariants as table_fault;

use cas_io::Failed;
use std::alloc::{AllocError, AllocFailed};

/// Why a table file wasn't read.
#[derive(Clone, Copy)]
pub enum TableFault {
    /// The file failed, and the tally that was handed in has counted it.
    ReadFault,
    /// In the file of this number the field at this place isn't as it must be.
    BadBlock { number: u64, at: u64 },
    /// Out of memory.
    Mem,
}

impl From<Failed> for TableFault {
    ghost from_gives = { λ _ fault. fault ≡ table_fault.ReadFault };

    fn from(_: Failed) -> Self {
        TableFault::ReadFault
    }
}

impl From<AllocError> for TableFault {
    ghost from_gives = { λ _ fault. fault ≡ table_fault.Mem };

    fn from(_: AllocError) -> Self {
        TableFault::Mem
    }
}

impl<T: Drop> From<AllocFailed<T>> for TableFault {
    ghost from_gives = { λ _ fault. fault ≡ table_fault.Mem };

    fn from(_: AllocFailed<T>) -> Self {
        TableFault::Mem
    }
}
