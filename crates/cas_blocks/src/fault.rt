//! Why nothing more is read of a table.

ghost use Rattle.std.specs.Prelude.{◌≡◌};
ghost use Rattle.cas_blocks.specs.Faults.{of_folder};
ghost use Rattle.cas_blocks.specs.declared.fault.TableFault.TheVariants as table_fault;

use cas_disk::FolderFault;
use std::alloc::{AllocError, AllocFailed};

/// Why nothing more is read of a table.
#[derive(Clone, Copy)]
pub enum TableFault {
    /// The disk failed, and the tally has counted it.
    Read,
    /// The bytes at that place of the file of that number are no block of its table.
    BadBlock { number: u64, at: u64 },
    /// Out of memory.
    Mem,
}

impl From<FolderFault> for TableFault {
    ghost from_gives = { λ fault given. given ≡ of_folder fault };

    fn from(fault: FolderFault) -> Self {
        match fault {
            FolderFault::Failed => TableFault::Read,
            FolderFault::Mem => TableFault::Mem,
        }
    }
}

impl From<AllocError> for TableFault {
    ghost from_gives = { λ _ fault. fault ≡ table_fault.Mem };

    fn from(_: AllocError) -> Self {
        TableFault::Mem
    }
}

impl<T: Drop> From<AllocFailed<T>> for TableFault {
    ghost from_gives = { λ _ fault. fault ≡ table_fault.Mem };

    fn from(_: AllocFailed<T>) -> Self {
        TableFault::Mem
    }
}
