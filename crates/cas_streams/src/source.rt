//! Where the fragments of a partition come from.

ghost use Rattle.std.specs.Prelude.{◌≡◌, ℕ, List, Option, Some};
ghost use Rattle.cas_cell.specs.declared.deletion.Deletion.{Deletion};
ghost use Rattle.cas_streams.specs.declared.fragment.Fragment.{Fragment};
ghost use Rattle.cas_streams.specs.Sources.{TakesFirst, Shrinks, KeepsFault};

use crate::fragment::Fragment;
use cas_cell::Deletion;
use std::alloc::AllocError;

/// Gives the fragments of one partition, one at a call.
pub trait FragmentSource: Drop {
    type Fault: Copy + From<AllocError>;

    /// What is still to come, of a source that tells it.
    ghost to_come: { Self → Option (List Fragment) };

    /// The deletion of the partition as a whole.
    ghost over_all: { Self → Option Deletion };

    /// At most so many fragments are given from here on.
    ghost at_most: { Self → ℕ };

    /// The fault that was answered.
    ghost broken_by: { Self → Option Self.Fault };

    /// The deletion of the partition as a whole, if there is one.
    fn top(&self) -> Option<Deletion>
        ensures { result ≡ over_all self.now };

    /// The next fragment; none when all were given. A fault, once answered, is answered again.
    fn next(&mut self) -> Result<Option<Fragment>, Self::Fault>
        ensures same_top { over_all self.new ≡ over_all self.old }
        ensures first { (fs : List Fragment) → to_come self.old ≡ Some fs → TakesFirst fs (to_come self.new) result }
        ensures ends { Shrinks (at_most self.old) (at_most self.new) result }
        ensures faults { KeepsFault (broken_by self.old) (broken_by self.new) result };
}
