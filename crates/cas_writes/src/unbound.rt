//! Why an INSERT isn't bound at once.

use cas_effects::BindFault;
use std::alloc::{AllocError, AllocFailed};

/// It isn't a plain one with values that fit, its key is too large, or memory ran out. What is wrong with it
/// is found out in the order in which it is told.
#[derive(Clone, Copy)]
pub(crate) struct Unbound;

impl From<BindFault> for Unbound {
    fn from(_: BindFault) -> Self {
        Unbound
    }
}

impl From<AllocError> for Unbound {
    fn from(_: AllocError) -> Self {
        Unbound
    }
}

impl<T: Drop> From<AllocFailed<T>> for Unbound {
    fn from(_: AllocFailed<T>) -> Self {
        Unbound
    }
}
