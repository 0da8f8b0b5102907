//! Drops segments of the log.

ghost use mathlib.Core.List.{IsPrefix};
ghost use Rattle.std.specs.Prelude.{◌≡◌, ◌≤◌, ◌++◌, ℕ, List, Err, OnOk, MatchResult};
ghost use Rattle.cas_disk.specs.Disk.{During, Leaves};
ghost use Rattle.cas_atoms.specs.declared.atom.Mutation.{Mutation as MutationOf};
ghost use Rattle.cas_changes.specs.Saying.{frontiers_in, said_by};
ghost use Rattle.cas_changes.specs.declared.entry.Entry.TheVariants.{DropSegment};
ghost use Rattle.cas_journal.specs.Ends.{Ends, IsLowestNeeded};
ghost use Rattle.cas_journal.specs.Journals.{Lasts};
ghost use Rattle.cas_journal.specs.Reach.{reach_of, reach_dropped, IsOver};
ghost use Rattle.cas_journal.specs.Stores.{Told, SameTables};
ghost use Rattle.cas_history.specs.Items.{listed, log_list, faults_list};
ghost use Rattle.cas_room.specs.Dropping.{Drops, IsTrimmed, StandsDropped};
ghost use Rattle.cas_room.specs.Keeping.{Keeps};
ghost use Rattle.cas_room.specs.Rooms.{accepted_in, first_number, Knows};

use crate::event::Event;
use crate::room::{Room, note};
use cas_disk::Folder;
use cas_history::{Session, Store};
use cas_journal::JournalFault;
use std::alloc::Global;

impl<F: Folder, J: Store> Room<F, J> {
    /// Drops segments of the log, the lowest first, as long as it isn't the last and all its mutations are at or below
    /// these frontiers, those of each table in each shard, table by table: tells how many. The entries that the
    /// manifest gets are in every image before a file goes; a file that couldn't be removed goes at the next opening.
    pub fn drop_covered(
        &mut self,
        alloc: Global,
        session: &mut Session<Event, J>,
        frontiers: &[u64],
    ) -> Result<u64, JournalFault>
        ensures kept { (found : List MutationOf) (t : Told)
            → Keeps self.old.journal (F.disk self.old.folder) (listed log_list self.old.log.pass.saw) self.old.faults.committed found t
            → frontiers.now ≡ frontiers_in (said_by t.entries) → (u : Told) × Drops t u
            × Keeps self.new.journal (F.disk self.new.folder) (listed log_list self.new.log.pass.saw) self.new.faults.committed found u }
        ensures crash { (found : List MutationOf) (t : Told)
            → Keeps self.old.journal (F.disk self.old.folder) (listed log_list self.old.log.pass.saw) self.old.faults.committed found t
            → frontiers.now ≡ frontiers_in (said_by t.entries)
            → Leaves (λ c. StandsDropped t found (accepted_in (listed log_list self.old.log.pass.saw)) self.old.faults.committed c)
            (F.disk self.old.folder) (F.disk self.new.folder) }
        ensures tables { During SameTables (F.disk self.old.folder) (F.disk self.new.folder) }
        ensures stays { OnOk result ((t : Told) → Lasts self.new.journal (F.disk self.new.folder) t
            → IsLowestNeeded self.new.journal.notes.shards frontiers.now t (F.disk self.new.folder) (said_by t.entries).segments) }
        ensures trimmed { OnOk result ((found : List MutationOf) (t : Told)
            → Keeps self.new.journal (F.disk self.new.folder) (listed log_list self.new.log.pass.saw) self.new.faults.committed found t
            → frontiers.now ≡ frontiers_in (said_by t.entries)
            → IsTrimmed (said_by t.entries) (found ++ accepted_in (listed log_list self.new.log.pass.saw))) }
        ensures log { self.new.log ≡ self.old.log }
        ensures session { (session.new.list ≡ session.old.list) × (session.new.calls ≡ session.old.calls)
            × (listed session.old.list session.new.pass.saw ≡ listed session.old.list session.old.pass.saw)
            × IsPrefix session.old.pass.saw session.new.pass.saw }
        ensures known { Knows self.new.faults.number self.new.faults.committed self.new.faults.first (listed faults_list session.new.pass.saw) }
        ensures first { self.new.faults.first ≡ first_number self.new.journal.first }
        ensures numbers { self.new.numbers ≡ self.old.numbers }
        ensures size { self.new.journal.size ≡ self.old.journal.size }
        ensures accepted { self.new.accepted ≡ self.old.accepted }
        ensures committed { self.new.faults.committed ≡ self.old.faults.committed }
        ensures reach { MatchResult result (λ count. reach_of self.new.journal ≡ reach_dropped count (reach_of self.old.journal))
            (λ f. (count : ℕ) × (reach_of self.new.journal ≡ reach_dropped count (reach_of self.old.journal))) }
        ensures outcome { Ends self.old.journal.first self.new.journal.first (F.faults_of self.old.folder) (F.faults_of self.new.folder) result }
        ensures full { (what : _) (most : _) → result ≡ Err (JournalFault.TooMany what most)
            → (number : ℕ) × IsOver what (DropSegment number) self.new.journal }
        ensures count { F.faults_of self.old.folder ≤ F.faults_of self.new.folder }
    {
        if let Some(first) = self.journal.stopped() {
            note(
                &self.folder,
                &self.journal,
                self.committed,
                &mut self.faults,
                session,
            );
            return Err(JournalFault::Stopped(first));
        }
        let result = self
            .journal
            .drop_covered(alloc, &mut self.folder, frontiers);
        note(
            &self.folder,
            &self.journal,
            self.committed,
            &mut self.faults,
            session,
        );
        result
    }
}
