//! Takes mutations and definitions, and commits them.

ghost use Rattle.std.specs.Prelude.{◌≡◌, ◌⊎◌, ◌+◌, ◌<◌, ◌≤◌, ◌^◌, List, ◌∷◌, [], ◌++◌, length, None, Err, OnOk, IfErr, MatchResult};
ghost use Rattle.std.specs.Option.{ForSome};
ghost use Rattle.cas_disk.specs.Disk.{During, Changed, MayBeAnything, Same, Leaves};
ghost use Rattle.cas_atoms.specs.declared.atom.Mutation.{Mutation as MutationOf};
ghost use Rattle.cas_changes.specs.declared.entry.Entry.{Entry as EntryOf};
ghost use Rattle.cas_changes.specs.Saying.{said_by};
ghost use Rattle.cas_changes.specs.Spelling.{entry_bytes};
ghost use Rattle.cas_changes.specs.Allowed.{FitsEntry, HasSpelling};
ghost use Rattle.cas_log.specs.Segment.{IsSize};
ghost use Rattle.cas_log.specs.Logs.{IsOfATable};
ghost use Rattle.cas_manifest.specs.Manifests.{place_of, room_of, Stands, MayHave};
ghost use Rattle.cas_journal.specs.Fresh.{IsBegun, IsFresh};
ghost use Rattle.cas_journal.specs.Stores.{Told, Holds, SameTables, took, committed_all, appended, failed_at};
ghost use Rattle.cas_journal.specs.Journals.{Lasts, AreFree, HasMemory, IsPrepared, MayTake};
ghost use Rattle.cas_journal.specs.Ends.{Ends, IsOfFolder, IsToldAtOnce, WritesNothing, Limits, entry_limit, told_after, IsTold};
ghost use Rattle.cas_journal.specs.Reach.{reach_of, reach_after, IsOver};

use crate::fault::JournalFault;
use crate::journal::Journal;
use crate::notes::Notes;
use cas_atoms::Mutation;
use cas_changes::Entry;
use cas_disk::{Folder, Name};
use cas_gates::First;
use cas_log::Log;
use cas_manifest::Manifest;
use std::alloc::Global;

impl Journal {
    /// The journal of a store that was opened, with no fault kept: its manifest, the segment that is
    /// written, one that was begun and isn't named, the greatest number of one that was begun, how long
    /// segments are, and what is noted of those that are listed.
    pub fn new(
        manifest: Manifest,
        log: Option<Log>,
        spare: Option<Log>,
        last_segment: u64,
        size: u64,
        notes: Notes,
    ) -> Journal
        requires sized { IsSize size }
        requires written { ForSome log (λ l. IsBegun size last_segment l) }
        requires fresh { ForSome spare (λ l. IsFresh size last_segment l) }
        ensures manifest { result.manifest ≡ manifest }
        ensures log { result.log ≡ log }
        ensures spare { result.spare ≡ spare }
        ensures last { result.last_segment ≡ last_segment }
        ensures size { result.size ≡ size }
        ensures first { result.first ≡ None }
        ensures notes { result.notes ≡ notes }
    {
        Journal {
            manifest,
            log,
            spare,
            last_segment,
            size,
            first: None,
            notes,
        }
    }

    /// The fault that stopped it, if one did.
    pub fn stopped(&self) -> Option<First>
        ensures { result ≡ self.now.first }
    {
        self.first
    }

    /// Takes a mutation, for which room was made. The next commit writes it.
    pub fn push<F: Folder>(&mut self, folder: &F, mutation: &Mutation)
        requires prepared { IsPrepared self.old mutation.now }
        requires mutation { IsOfATable mutation.now }
        ensures lasts { (t : Told) → Lasts self.old (F.disk folder.now) t → MayTake t mutation.now → Lasts self.new (F.disk folder.now) (took mutation.now t) }
        ensures reach { reach_of self.new ≡ reach_of self.old }
        ensures manifest { self.new.manifest ≡ self.old.manifest }
        ensures spare { self.new.spare ≡ self.old.spare }
        ensures last { self.new.last_segment ≡ self.old.last_segment }
        ensures size { self.new.size ≡ self.old.size }
        ensures first { self.new.first ≡ self.old.first }
    {
        if let Some(log) = &mut self.log {
            log.push(mutation);
            self.notes.note(mutation);
        }
    }

    /// Commits what was taken: four calls of the folder where something is pending, else none.
    pub fn commit<F: Folder>(&mut self, folder: &mut F) -> Result<(), JournalFault>
        requires free { AreFree self.old (F.disk folder.old) }
        ensures free { AreFree self.new (F.disk folder.new) }
        ensures lasts { (t : Told) → Lasts self.old (F.disk folder.old) t
            → MatchResult result (λ _. Lasts self.new (F.disk folder.new) (committed_all t)) (λ _. Lasts self.new (F.disk folder.new) t) }
        ensures during { (t : Told) → Lasts self.old (F.disk folder.old) t → Leaves (λ c. Holds t c) (F.disk folder.old) (F.disk folder.new) }
        ensures tables { During SameTables (F.disk folder.old) (F.disk folder.new) }
        ensures outcome { Ends self.old.first self.new.first (F.faults_of folder.old) (F.faults_of folder.new) result }
        ensures why { IfErr result (λ f. IsOfFolder f) }
        ensures untouched { IfErr result (λ f. IsToldAtOnce f → During Same (F.disk folder.old) (F.disk folder.new)) }
        ensures idle { (t : Told) → Lasts self.old (F.disk folder.old) t → t.committed ≡ length t.taken → During Same (F.disk folder.old) (F.disk folder.new) }
        ensures reach { reach_of self.new ≡ reach_of self.old }
        ensures count { F.faults_of folder.old ≤ F.faults_of folder.new }
        ensures manifest { self.new.manifest ≡ self.old.manifest }
        ensures spare { self.new.spare ≡ self.old.spare }
        ensures last { self.new.last_segment ≡ self.old.last_segment }
        ensures size { self.new.size ≡ self.old.size }
        ensures memory { (m : MutationOf) → HasMemory self.old.log m → HasMemory self.new.log m }
        ensures notes { self.new.notes ≡ self.old.notes }
    {
        if let Some(first) = self.first {
            return Err(JournalFault::Stopped(first));
        }
        let Some(log) = &mut self.log else {
            return Ok(());
        };
        match log.commit(folder, &mut self.first) {
            Ok(()) => Ok(()),
            Err(fault) => Err(JournalFault::from(fault)),
        }
    }

    // Appends an entry to the manifest.
    pub(crate) fn append<F: Folder>(
        &mut self,
        alloc: Global,
        folder: &mut F,
        entry: &Entry,
    ) -> Result<(), JournalFault>
        requires spelled { HasSpelling entry.now }
        requires short { length (entry_bytes entry.now) < 2 ^ 32 }
        ensures appended { (entries : List EntryOf) → Stands (place_of self.old.manifest) (F.disk folder.old) entries → FitsEntry (said_by entries) entry.now
            → OnOk result (Stands (place_of self.new.manifest) (F.disk folder.new) (entries ++ entry.now ∷ [])) }
        ensures during { (entries : List EntryOf) → Stands (place_of self.old.manifest) (F.disk folder.old) entries → FitsEntry (said_by entries) entry.now
            → During (Changed Name.Manifest (λ _ file. MayHave entries entry.now file)) (F.disk folder.old) (F.disk folder.new) }
        ensures others { During (Changed Name.Manifest MayBeAnything) (F.disk folder.old) (F.disk folder.new) }
        ensures untouched { IfErr result (λ f. WritesNothing f → During Same (F.disk folder.old) (F.disk folder.new)) }
        ensures end { OnOk result ((place_of self.new.manifest).end ≡ (place_of self.old.manifest).end + room_of entry.now) }
        ensures stays { IfErr result (λ _. place_of self.new.manifest ≡ place_of self.old.manifest) }
        ensures outcome { Ends self.old.first self.new.first (F.faults_of folder.old) (F.faults_of folder.new) result }
        ensures limits { Limits (entry_limit self.old entry.now) result }
        ensures count { F.faults_of folder.old ≤ F.faults_of folder.new }
        ensures log { self.new.log ≡ self.old.log }
        ensures spare { self.new.spare ≡ self.old.spare }
        ensures last { self.new.last_segment ≡ self.old.last_segment }
        ensures size { self.new.size ≡ self.old.size }
        ensures notes { self.new.notes ≡ self.old.notes }
    {
        self.manifest.append(alloc, folder, &mut self.first, entry)?;
        Ok(())
    }

    /// Tells an entry: a table is defined, or columns of one that there is, or files of tables come and go.
    /// What was taken and isn't committed stays so: who changes files of tables commits first what they hold.
    pub fn tell<F: Folder>(
        &mut self,
        alloc: Global,
        folder: &mut F,
        entry: &Entry,
    ) -> Result<(), JournalFault>
        requires told { IsTold entry.now }
        requires spelled { HasSpelling entry.now }
        requires short { length (entry_bytes entry.now) < 2 ^ 32 }
        requires free { AreFree self.old (F.disk folder.old) }
        ensures free { AreFree self.new (F.disk folder.new) }
        ensures lasts { (t : Told) → Lasts self.old (F.disk folder.old) t → FitsEntry (said_by t.entries) entry.now
            → MatchResult result (λ _. Lasts self.new (F.disk folder.new) (appended entry.now t))
            (λ f. Lasts self.new (F.disk folder.new) (told_after f entry.now t)) }
        ensures during { (t : Told) → Lasts self.old (F.disk folder.old) t → FitsEntry (said_by t.entries) entry.now
            → Leaves (λ c. Holds t c ⊎ Holds (failed_at entry.now t) c) (F.disk folder.old) (F.disk folder.new) }
        ensures tables { During SameTables (F.disk folder.old) (F.disk folder.new) }
        ensures outcome { Ends self.old.first self.new.first (F.faults_of folder.old) (F.faults_of folder.new) result }
        ensures limits { Limits (entry_limit self.old entry.now) result }
        ensures full { (what : _) (most : _) → result ≡ Err (JournalFault.TooMany what most) → IsOver what entry.now self.old }
        ensures reach { reach_of self.new ≡ reach_after result entry.now (reach_of self.old) }
        ensures untouched { IfErr result (λ f. WritesNothing f → During Same (F.disk folder.old) (F.disk folder.new)) }
        ensures count { F.faults_of folder.old ≤ F.faults_of folder.new }
        ensures log { self.new.log ≡ self.old.log }
        ensures spare { self.new.spare ≡ self.old.spare }
        ensures last { self.new.last_segment ≡ self.old.last_segment }
        ensures size { self.new.size ≡ self.old.size }
        ensures notes { self.new.notes ≡ self.old.notes }
    {
        self.append(alloc, folder, entry)
    }
}
