//! Why a field wasn't read.

ghost use Rattle.std.specs.Prelude.{◌≡◌};
ghost use Rattle.cas_codec.specs.declared.fault.ReadFault.TheVariants.{Mem};

use std::alloc::{AllocError, AllocFailed};

/// Why a field wasn't read. The place is that of the field's first byte, counted from the file's
/// start.
#[derive(Clone, Copy, PartialEq)]
pub enum ReadFault {
    /// The bytes end before the field does.
    Short { at: u64 },
    /// The field holds a value that isn't allowed there.
    Bad { at: u64 },
    Mem,
}

impl From<AllocError> for ReadFault {
    ghost from_gives = { λ _ f. f ≡ Mem };

    fn from(_: AllocError) -> Self {
        ReadFault::Mem
    }
}

impl<T: Drop> From<AllocFailed<T>> for ReadFault {
    ghost from_gives = { λ _ f. f ≡ Mem };

    fn from(_: AllocFailed<T>) -> Self {
        ReadFault::Mem
    }
}
