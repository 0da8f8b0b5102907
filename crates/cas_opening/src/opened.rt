//! A store that is open.

use cas_atoms::Mutation;
use cas_changes::Said;
use cas_journal::Journal;

/// A store that is open: its journal, to be written on, and what its manifest says.
#[derive(Drop)]
pub struct OpenStore {
    pub journal: Journal,
    pub said: Said,
}

/// A store that is open: its journal, to be written on; what its manifest says; and the mutations of
/// its log that stand in no table file, in order.
#[derive(Drop)]
pub struct Opened {
    pub journal: Journal,
    pub said: Said,
    pub mutations: Vec<Mutation>,
}
