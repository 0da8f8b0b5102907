//! Bytes that come in.
ghost use Rattle.std.specs.Prelude.{◌≤◌, List, ℕ, Option, OnErr};
ghost use Rattle.std.specs.Io.{ReadsAtMost};
ghost use Rattle.std.specs.Io.KnownBytes.{ReadConsumes};
ghost use Rattle.cas_io.specs.Causes.{Rose};

use crate::fault::Failed;

/// Bytes that come in.
pub trait Source {
    /// The bytes that are left, where the source tells them.
    ghost left: { Self → Option (List ℕ) };

    /// How often it has failed. At the greatest `u64` the count stands, and counts as risen.
    ghost faults: { Self → ℕ };

    /// Puts bytes at the front of `into`, and says how many. 0 is the end, where `into` has room.
    fn read(&mut self, into: &mut [u8]) -> Result<usize, Failed>
        ensures bound { ReadsAtMost result into.new }
        ensures bytes { ReadConsumes (left self.old) (left self.new) result into.new }
        ensures kept { faults self.old ≤ faults self.new }
        ensures cause { OnErr result (Rose (faults self.old) (faults self.new)) };
}
