//! Drops segments of the commit log.

ghost use Rattle.std.specs.Prelude.{◌≡◌, ◌≤◌, ℕ, true, false, length, drop, None, Err, IfOk, IfErr, OnOk, MatchResult};
ghost use Rattle.cas_io.specs.Causes.{Rose};
ghost use Rattle.cas_disk.specs.Disk.{Image, During, Same, Leaves};
ghost use Rattle.cas_changes.specs.declared.entry.Entry.TheVariants.{DropSegment};
ghost use Rattle.cas_changes.specs.Saying.{said_by};
ghost use Rattle.cas_manifest.specs.Manifests.{place_of};
ghost use Rattle.cas_journal.specs.Stores.{Told, SameTables, Dropped, HoldsDropped, without};
ghost use Rattle.cas_journal.specs.Journals.{Lasts, AreFree};
ghost use Rattle.cas_journal.specs.Ends.{Ends, WritesNothing, Limits, LastsDropped, IsLowestNeeded, entry_limit};
ghost use Rattle.cas_journal.specs.Reach.{reach_of, reach_after, reach_dropped, IsOver};
ghost use Rattle.cas_journal.specs.Inner.Dropping.{IsLowest, HasFirst, HoldsWithout, LastsAfter};

use crate::fault::JournalFault;
use crate::journal::Journal;
use cas_changes::Entry;
use cas_disk::{Folder, Name};
use std::alloc::Global;

impl Journal {
    // Drops the lowest segment that is listed: the manifest names it dropped, and then its file is
    // removed. It tells whether the file was; one that stays goes at the next opening.
    #[tactic(auto, unfolding(cas_codec::specs::Fields::u8, cas_codec::specs::Fields::u64))]
    fn drop_segment<F: Folder>(
        &mut self,
        alloc: Global,
        folder: &mut F,
        number: u64,
    ) -> Result<bool, JournalFault>
        requires free { AreFree self.old (F.disk folder.old) }
        ensures free { AreFree self.new (F.disk folder.new) }
        ensures lasts { (t : Told) → Lasts self.old (F.disk folder.old) t → IsLowest number (said_by t.entries).segments
            → MatchResult result
            (λ _. (many : ℕ) × HasFirst self.old.notes number many t (F.disk folder.old) × Lasts self.new (F.disk folder.new) (without number many t))
            (λ f. LastsAfter f self.new (F.disk folder.new) self.old.notes number t (F.disk folder.old)) }
        ensures during { (t : Told) → Lasts self.old (F.disk folder.old) t → IsLowest number (said_by t.entries).segments
            → Leaves (λ c. HoldsWithout self.old.notes number t (F.disk folder.old) c) (F.disk folder.old) (F.disk folder.new) }
        ensures tables { During SameTables (F.disk folder.old) (F.disk folder.new) }
        ensures gone { IfOk result (λ removed. removed ≡ true → (c : Image) → (F.disk folder.new).reads c → c (Name.Log number) ≡ None) }
        ensures left { IfOk result (λ removed. removed ≡ false → Rose (F.faults_of folder.old) (F.faults_of folder.new)) }
        ensures outcome { Ends self.old.first self.new.first (F.faults_of folder.old) (F.faults_of folder.new) result }
        ensures limits { Limits (entry_limit self.old (DropSegment number)) result }
        ensures reach { reach_of self.new ≡ reach_after result (DropSegment number) (reach_of self.old) }
        ensures untouched { IfErr result (λ f. WritesNothing f → During Same (F.disk folder.old) (F.disk folder.new)) }
        ensures stays { IfErr result (λ _. place_of self.new.manifest ≡ place_of self.old.manifest) }
        ensures count { F.faults_of folder.old ≤ F.faults_of folder.new }
        ensures notes { (self.new.notes.shards ≡ self.old.notes.shards)
            × MatchResult result (λ _. self.new.notes.list.items ≡ drop 1 self.old.notes.list.items) (λ _. self.new.notes ≡ self.old.notes) }
        ensures log { self.new.log ≡ self.old.log }
        ensures spare { self.new.spare ≡ self.old.spare }
        ensures last { self.new.last_segment ≡ self.old.last_segment }
        ensures size { self.new.size ≡ self.old.size }
    {
        if let Err(fault) = self.append(alloc, folder, &Entry::DropSegment { number }) {
            return Err(fault);
        }
        self.notes.drop_first();
        Ok(folder.remove(Name::Log(number)).is_ok())
    }

    /// Drops segments, the lowest first, as long as it isn't the last and all its mutations are at or below these
    /// frontiers, which are those of each table in each shard, table by table; tells how many. A file that
    /// couldn't be removed goes at the next opening.
    pub fn drop_covered<F: Folder>(
        &mut self,
        alloc: Global,
        folder: &mut F,
        frontiers: &[u64],
    ) -> Result<u64, JournalFault>
        requires free { AreFree self.old (F.disk folder.old) }
        ensures free { AreFree self.new (F.disk folder.new) }
        ensures lasts { (t : Told) → Lasts self.old (F.disk folder.old) t
            → MatchResult result
            (λ count. (u : Told) × (d : Dropped self.old.notes.shards frontiers.now t u) × (length d.numbers ≡ count) × Lasts self.new (F.disk folder.new) u)
            (λ f. LastsDropped f self.new (F.disk folder.new) self.old.notes.shards frontiers.now t) }
        ensures during { (t : Told) → Lasts self.old (F.disk folder.old) t
            → Leaves (λ c. HoldsDropped self.old.notes.shards frontiers.now t c) (F.disk folder.old) (F.disk folder.new) }
        ensures tables { During SameTables (F.disk folder.old) (F.disk folder.new) }
        ensures stays { OnOk result ((t : Told) → Lasts self.new (F.disk folder.new) t
            → IsLowestNeeded self.old.notes.shards frontiers.now t (F.disk folder.new) (said_by t.entries).segments) }
        ensures reach { MatchResult result (λ count. reach_of self.new ≡ reach_dropped count (reach_of self.old))
            (λ f. (count : ℕ) × (reach_of self.new ≡ reach_dropped count (reach_of self.old))) }
        ensures shards { self.new.notes.shards ≡ self.old.notes.shards }
        ensures outcome { Ends self.old.first self.new.first (F.faults_of folder.old) (F.faults_of folder.new) result }
        ensures full { (what : _) (most : _) → result ≡ Err (JournalFault.TooMany what most) → (number : ℕ) × IsOver what (DropSegment number) self.new }
        ensures count { F.faults_of folder.old ≤ F.faults_of folder.new }
        ensures log { self.new.log ≡ self.old.log }
        ensures spare { self.new.spare ≡ self.old.spare }
        ensures last { self.new.last_segment ≡ self.old.last_segment }
        ensures size { self.new.size ≡ self.old.size }
    {
        if let Some(first) = self.first {
            return Err(JournalFault::Stopped(first));
        }
        let mut dropped = 0;
        'turns: while let Some(number) = self.notes.first_covered(frontiers) {
            if let Err(fault) = self.drop_segment(alloc, folder, number) {
                return Err(fault);
            }
            dropped += 1;
        }
        Ok(dropped)
    }
}
