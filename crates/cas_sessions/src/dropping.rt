//! Drops segments of the log that no table needs any more.

ghost use Rattle.std.specs.Prelude.{◌≡◌, ◌≤◌, ℕ, ℤ, pos, Err, IfErr, OnOk};
ghost use Rattle.cas_disk.specs.Disk.{During};
ghost use Rattle.cas_journal.specs.Stores.{SameTables};
ghost use Rattle.cas_sessions.specs.Calls.{IsTrueOf};
ghost use Rattle.cas_sessions.specs.Dropping.{DropsSegments, NoneMayGo};
ghost use Rattle.cas_lasting.specs.Nodes.{KeepsAll, Moves};
ghost use Rattle.cas_lasting.specs.Numbering.{NumbersOn};

use crate::answer::Fault;
use crate::node::{Node, Session, Stored};
use crate::writing::fault_for;
use cas_disk::Folder;
use cas_history::Store;
use std::alloc::Global;

impl<F: Folder, J: Store> Node<F, J> {
    /// Drops segments of the log, the lowest first, as long as it isn't the last and table files have all its mutations:
    /// tells how many. It is for behind a flush, by which frontiers rise. What is dropped is in every image before a
    /// file goes; a file that couldn't be removed goes at the next opening. It takes time in proportion to the
    /// tables and shards that the segments have mutations of.
    pub fn drop_segments(&mut self, alloc: Global, session: &mut Session<J>) -> Result<u64, Fault>
        ensures drops { (clock : ℤ) → Moves (λ h after. DropsSegments h result after)
            (⟦<Node<F, J> as Stored>⟧.state self.old session.old.seat.list session.old.seat.calls clock)
            (⟦<Node<F, J> as Stored>⟧.state self.new session.new.seat.list session.new.seat.calls clock)
            (⟦<Node<F, J> as Stored>⟧.disk self.old) (⟦<Node<F, J> as Stored>⟧.disk self.new) }
        ensures stays { OnOk result ((clock : ℤ)
            → NoneMayGo (⟦<Node<F, J> as Stored>⟧.state self.new session.new.seat.list session.new.seat.calls clock)
            (⟦<Node<F, J> as Stored>⟧.disk self.new)) }
        ensures crash { (clock : ℤ) → KeepsAll (⟦<Node<F, J> as Stored>⟧.state self.old session.old.seat.list session.old.seat.calls clock)
            (⟦<Node<F, J> as Stored>⟧.state self.new session.new.seat.list session.new.seat.calls clock)
            (⟦<Node<F, J> as Stored>⟧.disk self.old) (⟦<Node<F, J> as Stored>⟧.disk self.new) }
        ensures tables { During SameTables (⟦<Node<F, J> as Stored>⟧.disk self.old) (⟦<Node<F, J> as Stored>⟧.disk self.new) }
        ensures last { self.new.room.numbers ≡ self.old.room.numbers }
        ensures numbers { (clock : ℤ) → NumbersOn (⟦<Node<F, J> as Stored>⟧.state self.old session.old.seat.list session.old.seat.calls clock)
            (⟦<Node<F, J> as Stored>⟧.state self.new session.new.seat.list session.new.seat.calls clock) }
        ensures told { IfErr result (λ f. IsTrueOf (Err f) (⟦<Node<F, J> as Stored>⟧.state self.old session.old.seat.list session.old.seat.calls (pos 0))
            (⟦<Node<F, J> as Stored>⟧.state self.new session.new.seat.list session.new.seat.calls (pos 0))) }
        ensures counts { (session.new.seat.calls ≡ session.old.seat.calls) × (self.new.room.accepted ≡ self.old.room.accepted) }
        ensures limits { self.new.limits ≡ self.old.limits }
        ensures sessions { ⟦<Node<F, J> as Stored>⟧.sessions self.new ≡ ⟦<Node<F, J> as Stored>⟧.sessions self.old }
    {
        match self
            .room
            .drop_covered(alloc, &mut session.seat, &self.frontiers)
        {
            Ok(count) => Ok(count),
            Err(fault) => Err(fault_for(fault)),
        }
    }
}
