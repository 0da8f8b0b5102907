//! A gate that counts its calls.

use cas_io::Gate;
use std::cell::Cell;

/// A gate that lets every line pass, and counts how often it was called.
#[derive(Drop)]
pub(crate) struct CountedGate {
    calls: Cell<usize>,
}

impl CountedGate {
    pub fn new() -> Self {
        CountedGate {
            calls: Cell::new(0),
        }
    }

    pub fn calls(&self) -> usize {
        self.calls.get()
    }
}

impl Gate for CountedGate {
    fn before(&self, _client: u32, _call: u64) {
        self.calls.set(self.calls.get().saturating_add(1));
    }

    fn after(&self, _client: u32, _call: u64) {
        self.calls.set(self.calls.get().saturating_add(1));
    }
}
