//! A clock that gives listed readings one after another.

ghost use Rattle.std.specs.Prelude.{⊤};

use cas_io::Clock;
use std::cell::Cell;

/// A clock that gives its readings one after another, and the last one from then on. Where none is
/// listed it stands at 0.
#[derive(Drop)]
pub(crate) struct ListedClock<'a> {
    readings: &'a [i64],
    given: Cell<usize>,
}

impl<'a> ListedClock<'a> {
    pub fn new(readings: &'a [i64]) -> Self {
        ListedClock {
            readings,
            given: Cell::new(0),
        }
    }

    /// How often it was read.
    pub fn given(&self) -> usize {
        self.given.get()
    }
}

impl Clock for ListedClock<'_> {
    ghost may_give = { λ _ _. ⊤ };

    fn read(&self) -> i64 {
        let given = self.given.get();
        self.given.set(given.saturating_add(1));
        match self.readings.get(given).or(self.readings.last()) {
            Some(reading) => *reading,
            None => 0,
        }
    }
}
