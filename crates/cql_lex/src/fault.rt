//! Why a line has no tokens.

ghost use Rattle.cql_lex.specs.declared.fault.LexFault.TheVariants as faults;
ghost use Rattle.std.specs.Prelude.{◌≡◌};

use cas_types::Mem;
use std::alloc::{AllocError, AllocFailed};

/// Why a line has no tokens.
#[derive(Clone, Copy, Debug)]
pub enum LexFault {
    /// The rules give none.
    Syntax,
    /// Out of memory.
    Mem,
}

impl From<AllocError> for LexFault {
    ghost from_gives = { λ _ fault. fault ≡ faults.Mem };

    fn from(_: AllocError) -> Self {
        LexFault::Mem
    }
}

impl<T: Drop> From<AllocFailed<T>> for LexFault {
    ghost from_gives = { λ _ fault. fault ≡ faults.Mem };

    fn from(_: AllocFailed<T>) -> Self {
        LexFault::Mem
    }
}

impl From<Mem> for LexFault {
    ghost from_gives = { λ _ fault. fault ≡ faults.Mem };

    fn from(_: Mem) -> Self {
        LexFault::Mem
    }
}
