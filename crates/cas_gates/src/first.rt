//! The first fault that a store met.

/// The first failed call of the folder, by the folder's count of faults after it, which isn't 0. Once
/// one is kept, log and manifest are written no more.
#[derive(Clone, Copy, Debug, PartialEq, Eq)]
pub struct First {
    pub number: u64,
}
