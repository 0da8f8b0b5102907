//! Why tokens give no statement.

ghost use Rattle.std.specs.Prelude.{◌≡◌};
ghost use Rattle.cql_phrases.specs.declared.fault.ParseFault.TheVariants as faults;

use cas_types::Mem;
use std::alloc::{AllocError, AllocFailed};

/// Why tokens gave no statement.
#[derive(Clone, Copy, Debug)]
pub enum ParseFault {
    /// They aren't in the grammar.
    Syntax,
    /// There wasn't enough memory.
    Mem,
}

impl From<Mem> for ParseFault {
    ghost from_gives = { λ _ e. e ≡ faults.Mem };

    fn from(_: Mem) -> Self {
        ParseFault::Mem
    }
}

impl From<AllocError> for ParseFault {
    ghost from_gives = { λ _ e. e ≡ faults.Mem };

    fn from(_: AllocError) -> Self {
        ParseFault::Mem
    }
}

impl<T: Drop> From<AllocFailed<T>> for ParseFault {
    ghost from_gives = { λ _ e. e ≡ faults.Mem };

    fn from(_: AllocFailed<T>) -> Self {
        ParseFault::Mem
    }
}
