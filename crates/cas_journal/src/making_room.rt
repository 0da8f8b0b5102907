//! Makes room for a mutation: where the segment that is written has none left, the next one is begun
//! and named.

ghost use Rattle.std.specs.Prelude.{◌≡◌, ◌⊎◌, ◌+◌, ◌<◌, ◌≤◌, ◌^◌, None, Err, Ok, OnOk, IfOk, IfErr, MatchResult, length, IsSome, Some};
ghost use Rattle.cas_disk.specs.Disk.{During, Same, Leaves};
ghost use Rattle.cas_atoms.specs.declared.atom.Mutation.{Mutation as MutationOf};
ghost use Rattle.cas_atoms.specs.LogLength.{record_length};
ghost use Rattle.cas_changes.specs.declared.entry.Entry.TheVariants.{NewSegment};
ghost use Rattle.cas_log.specs.Logs.{half};
ghost use Rattle.cas_journal.specs.Stores.{Told, Holds, MadeRoom, HoldsWithRoom, SameTables, appended, failed_at};
ghost use Rattle.cas_journal.specs.Journals.{Lasts, AreFree, HasMemory, IsPrepared};
ghost use Rattle.cas_journal.specs.Notes.{HasPlace, HasSpace};
ghost use Rattle.cas_journal.specs.Ends.{Ends, IsOfFolder, IsToldAtOnce, next_limit, told_after, Prepares, TellsLimit};
ghost use Rattle.cas_journal.specs.Reach.{GoesOn, IsFull, name_room, reach_of};
ghost use Rattle.cas_journal.specs.Inner.Noting.{HasNext};
ghost use Rattle.cas_journal.specs.Inner.Parts.{Asks, fits_in, FitsOrSettled, MayBegin};

use crate::fault::{Counted, JournalFault};
use crate::journal::Journal;
use cas_atoms::{Mutation, length};
use cas_changes::{Entry, SEGMENT_LIMIT};
use cas_disk::Folder;
use cas_log::Log;
use cas_types::Mem;
use std::alloc::Global;

impl Journal {
    // What can be asked before anything is done. Tells how many bytes the mutation's record has.
    fn ask(&self, mutation: &Mutation) -> Result<u64, JournalFault>
        ensures asks { Asks (record_length mutation.now) (half self.now.size) self.now.first result }
        ensures bytes { IfOk result (λ n. n ≡ record_length mutation.now) }
    {
        let length = length(mutation);
        let limit = self.size / 2;
        if length > limit {
            return Err(JournalFault::TooLarge { length, limit });
        }
        match self.first {
            Some(first) => Err(JournalFault::Stopped(first)),
            None => Ok(length),
        }
    }

    // Makes memory for a record in the segment that is written, where there is one, and room to note it.
    fn reserve<F: Folder>(
        &mut self,
        folder: &F,
        mutation: &Mutation,
        bytes: u64,
    ) -> Result<(), JournalFault>
        requires known { bytes ≡ record_length mutation.now }
        requires short { bytes ≤ half self.old.size }
        ensures memory { OnOk result (HasMemory self.new.log mutation.now) }
        ensures place { OnOk result (HasPlace self.new.notes mutation.now) }
        ensures why { IfErr result (λ f. f ≡ JournalFault.Mem) }
        ensures lasts { (t : Told) → Lasts self.old (F.disk folder.now) t → Lasts self.new (F.disk folder.now) t }
        ensures fits { fits_in self.new.log bytes ≡ fits_in self.old.log bytes }
        ensures manifest { self.new.manifest ≡ self.old.manifest }
        ensures spare { self.new.spare ≡ self.old.spare }
        ensures last { self.new.last_segment ≡ self.old.last_segment }
        ensures size { self.new.size ≡ self.old.size }
        ensures first { self.new.first ≡ self.old.first }
    {
        if let Err(Mem) = self.notes.reserve(mutation) {
            return Err(JournalFault::Mem);
        }
        let Some(log) = &mut self.log else {
            return Ok(());
        };
        match log.reserve(bytes) {
            Ok(()) => Ok(()),
            Err(fault) => Err(JournalFault::from(fault)),
        }
    }

    // Whether a record of so many bytes fits into the segment that is written.
    fn has_room(&self, bytes: u64) -> bool
        requires { bytes < 2 ^ 32 }
        ensures { result ≡ fits_in self.now.log bytes }
    {
        match &self.log {
            Some(log) => log.has_room(bytes),
            None => false,
        }
    }

    // Whether what is pending, with a record of so many bytes, is at most half a segment.
    fn is_short(&self, bytes: u64) -> bool {
        match &self.log {
            Some(log) => log.pending().saturating_add(bytes) <= self.size / 2,
            None => true,
        }
    }

    // Commits what is pending where a record of so many bytes doesn't fit behind it, or would make
    // it longer than half a segment.
    fn settle<F: Folder>(&mut self, folder: &mut F, bytes: u64) -> Result<(), JournalFault>
        requires short { bytes ≤ half self.old.size }
        requires free { AreFree self.old (F.disk folder.old) }
        requires going { self.old.first ≡ None }
        ensures free { AreFree self.new (F.disk folder.new) }
        ensures lasts { (t : Told) → Lasts self.old (F.disk folder.old) t
            → MatchResult result (λ _. FitsOrSettled self.new bytes (F.disk folder.new) t) (λ _. Lasts self.new (F.disk folder.new) t) }
        ensures during { (t : Told) → Lasts self.old (F.disk folder.old) t → Leaves (λ c. Holds t c) (F.disk folder.old) (F.disk folder.new) }
        ensures tables { During SameTables (F.disk folder.old) (F.disk folder.new) }
        ensures outcome { Ends self.old.first self.new.first (F.faults_of folder.old) (F.faults_of folder.new) result }
        ensures why { IfErr result (λ f. IsOfFolder f) }
        ensures count { F.faults_of folder.old ≤ F.faults_of folder.new }
        ensures manifest { self.new.manifest ≡ self.old.manifest }
        ensures spare { self.new.spare ≡ self.old.spare }
        ensures last { self.new.last_segment ≡ self.old.last_segment }
        ensures size { self.new.size ≡ self.old.size }
        ensures memory { (m : MutationOf) → HasMemory self.old.log m → HasMemory self.new.log m }
        ensures notes { self.new.notes ≡ self.old.notes }
    {
        if self.has_room(bytes) && self.is_short(bytes) {
            return Ok(());
        }
        self.commit(folder)
    }

    // Begins the segment with the next number. It waits as the spare one until it is named.
    fn begin_spare<F: Folder>(&mut self, alloc: Global, folder: &mut F) -> Result<(), JournalFault>
        requires unspared { self.old.spare ≡ None }
        requires allowed { self.old.last_segment < SEGMENT_LIMIT }
        requires free { AreFree self.old (F.disk folder.old) }
        requires going { self.old.first ≡ None }
        ensures free { AreFree self.new (F.disk folder.new) }
        ensures lasts { (t : Told) → Lasts self.old (F.disk folder.old) t → Lasts self.new (F.disk folder.new) t }
        ensures during { (t : Told) → Lasts self.old (F.disk folder.old) t → Leaves (λ c. Holds t c) (F.disk folder.old) (F.disk folder.new) }
        ensures tables { During SameTables (F.disk folder.old) (F.disk folder.new) }
        ensures begun { OnOk result (IsSome self.new.spare) }
        ensures outcome { Ends self.old.first self.new.first (F.faults_of folder.old) (F.faults_of folder.new) result }
        ensures why { IfErr result (λ f. MayBegin f) }
        ensures count { F.faults_of folder.old ≤ F.faults_of folder.new }
        ensures manifest { self.new.manifest ≡ self.old.manifest }
        ensures last { self.new.last_segment ≡ self.old.last_segment + 1 }
        ensures log { self.new.log ≡ self.old.log }
        ensures size { self.new.size ≡ self.old.size }
    {
        self.last_segment += 1;
        match Log::begin(alloc, folder, &mut self.first, self.last_segment, self.size) {
            Ok(log) => {
                self.spare = Some(log);
                Ok(())
            }
            Err(fault) => Err(JournalFault::from(fault)),
        }
    }

    // Sees that a segment is begun that isn't named yet.
    fn begin_next<F: Folder>(&mut self, alloc: Global, folder: &mut F) -> Result<(), JournalFault>
        requires free { AreFree self.old (F.disk folder.old) }
        requires going { self.old.first ≡ None }
        ensures free { AreFree self.new (F.disk folder.new) }
        ensures lasts { (t : Told) → Lasts self.old (F.disk folder.old) t → Lasts self.new (F.disk folder.new) t }
        ensures during { (t : Told) → Lasts self.old (F.disk folder.old) t → Leaves (λ c. Holds t c) (F.disk folder.old) (F.disk folder.new) }
        ensures tables { During SameTables (F.disk folder.old) (F.disk folder.new) }
        ensures begun { OnOk result (IsSome self.new.spare) }
        ensures outcome { Ends self.old.first self.new.first (F.faults_of folder.old) (F.faults_of folder.new) result }
        ensures limit { (what : _) (most : _) → result ≡ Err (JournalFault.TooMany what most)
            → next_limit self.new.spare self.new ≡ Some (JournalFault.TooMany what most) }
        ensures count { F.faults_of folder.old ≤ F.faults_of folder.new }
        ensures manifest { self.new.manifest ≡ self.old.manifest }
        ensures last { (self.old.last_segment ≤ self.new.last_segment) × (self.new.last_segment ≤ self.old.last_segment + 1) }
        ensures log { self.new.log ≡ self.old.log }
        ensures size { self.new.size ≡ self.old.size }
    {
        if self.spare.is_some() {
            return Ok(());
        }
        if self.last_segment >= SEGMENT_LIMIT {
            return Err(JournalFault::TooMany {
                what: Counted::Segments,
                limit: SEGMENT_LIMIT,
            });
        }
        self.begin_spare(alloc, folder)
    }

    // Makes memory for a record in the segment that is begun and not named, and room to note it.
    fn reserve_spare<F: Folder>(
        &mut self,
        folder: &F,
        mutation: &Mutation,
        bytes: u64,
    ) -> Result<(), JournalFault>
        requires known { bytes ≡ record_length mutation.now }
        requires short { bytes ≤ half self.old.size }
        ensures memory { OnOk result (HasMemory self.new.spare mutation.now) }
        ensures next { OnOk result (HasNext self.new.notes mutation.now) }
        ensures why { IfErr result (λ f. f ≡ JournalFault.Mem) }
        ensures lasts { (t : Told) → Lasts self.old (F.disk folder.now) t → Lasts self.new (F.disk folder.now) t }
        ensures begun { IsSome self.old.spare → IsSome self.new.spare }
        ensures manifest { self.new.manifest ≡ self.old.manifest }
        ensures log { self.new.log ≡ self.old.log }
        ensures last { self.new.last_segment ≡ self.old.last_segment }
        ensures size { self.new.size ≡ self.old.size }
        ensures first { self.new.first ≡ self.old.first }
    {
        if let Err(Mem) = self.notes.reserve_next(mutation) {
            return Err(JournalFault::Mem);
        }
        let Some(log) = &mut self.spare else {
            return Ok(());
        };
        match log.reserve(bytes) {
            Ok(()) => Ok(()),
            Err(fault) => Err(JournalFault::from(fault)),
        }
    }

    // Names the segment that was begun last, which is written from then on.
    #[tactic(auto, unfolding(cas_codec::specs::Fields::u8, cas_codec::specs::Fields::u64))]
    fn name_next<F: Folder>(&mut self, alloc: Global, folder: &mut F) -> Result<(), JournalFault>
        requires begun { IsSome self.old.spare }
        requires space { HasSpace self.old.notes }
        requires free { AreFree self.old (F.disk folder.old) }
        requires going { self.old.first ≡ None }
        ensures free { AreFree self.new (F.disk folder.new) }
        ensures lasts { (t : Told) → Lasts self.old (F.disk folder.old) t → t.committed ≡ length t.taken
            → MatchResult result (λ _. Lasts self.new (F.disk folder.new) (appended (NewSegment self.old.last_segment) t))
            (λ f. Lasts self.new (F.disk folder.new) (told_after f (NewSegment self.old.last_segment) t)) }
        ensures during { (t : Told) → Lasts self.old (F.disk folder.old) t
            → Leaves (λ c. Holds t c ⊎ Holds (failed_at (NewSegment self.old.last_segment) t) c) (F.disk folder.old) (F.disk folder.new) }
        ensures tables { During SameTables (F.disk folder.old) (F.disk folder.new) }
        ensures outcome { Ends self.old.first self.new.first (F.faults_of folder.old) (F.faults_of folder.new) result }
        ensures limit { (what : _) (most : _) → result ≡ Err (JournalFault.TooMany what most)
            → next_limit self.new.spare self.new ≡ Some (JournalFault.TooMany what most) }
        ensures count { F.faults_of folder.old ≤ F.faults_of folder.new }
        ensures log { MatchResult result (λ _. self.new.log ≡ self.old.spare) (λ _. self.new.log ≡ self.old.log) }
        ensures place { (m : MutationOf) → HasNext self.old.notes m → OnOk result (HasPlace self.new.notes m) }
        ensures last { self.new.last_segment ≡ self.old.last_segment }
        ensures end { ((reach_of self.old).manifest ≤ (reach_of self.new).manifest)
            × ((reach_of self.new).manifest ≤ (reach_of self.old).manifest + name_room) }
        ensures size { self.new.size ≡ self.old.size }
    {
        let number = self.last_segment;
        match self.append(alloc, folder, &Entry::NewSegment { number }) {
            Ok(()) => {
                self.log = self.spare.take();
                self.notes.begin(alloc, number);
                Ok(())
            }
            Err(fault) => Err(fault),
        }
    }

    // Begins the next segment, and names it once there is memory for a record in it.
    fn next_segment<F: Folder>(
        &mut self,
        alloc: Global,
        folder: &mut F,
        mutation: &Mutation,
        bytes: u64,
    ) -> Result<(), JournalFault>
        requires known { bytes ≡ record_length mutation.now }
        requires short { bytes ≤ half self.old.size }
        requires free { AreFree self.old (F.disk folder.old) }
        requires going { self.old.first ≡ None }
        ensures free { AreFree self.new (F.disk folder.new) }
        ensures prepared { OnOk result (IsPrepared self.new mutation.now) }
        ensures lasts { (t : Told) → Lasts self.old (F.disk folder.old) t → t.committed ≡ length t.taken
            → (u : Told) × MadeRoom t u × Lasts self.new (F.disk folder.new) u }
        ensures during { (t : Told) → Lasts self.old (F.disk folder.old) t → t.committed ≡ length t.taken
            → Leaves (λ c. HoldsWithRoom t c) (F.disk folder.old) (F.disk folder.new) }
        ensures tables { During SameTables (F.disk folder.old) (F.disk folder.new) }
        ensures outcome { Ends self.old.first self.new.first (F.faults_of folder.old) (F.faults_of folder.new) result }
        ensures limit { (what : _) (most : _) → result ≡ Err (JournalFault.TooMany what most)
            → (next_limit self.new.spare self.new ≡ Some (JournalFault.TooMany what most)) × (self.new.log ≡ self.old.log) }
        ensures count { F.faults_of folder.old ≤ F.faults_of folder.new }
        ensures reach { GoesOn (reach_of self.old) (reach_of self.new) }
        ensures size { self.new.size ≡ self.old.size }
    {
        self.begin_next(alloc, folder)?;
        self.reserve_spare(folder, mutation, bytes)?;
        self.name_next(alloc, folder)
    }

    /// Makes room for a mutation, so that it can be pushed: memory for its record, and place in the
    /// segment that is written. What is pending is committed where it would get too long with the
    /// record, and the next segment begun where the record doesn't fit behind that.
    pub fn prepare<F: Folder>(
        &mut self,
        alloc: Global,
        folder: &mut F,
        mutation: &Mutation,
    ) -> Result<(), JournalFault>
        requires free { AreFree self.old (F.disk folder.old) }
        ensures free { AreFree self.new (F.disk folder.new) }
        ensures prepared { OnOk result (IsPrepared self.new mutation.now) }
        ensures lasts { (t : Told) → Lasts self.old (F.disk folder.old) t → (u : Told) × MadeRoom t u × Lasts self.new (F.disk folder.new) u }
        ensures during { (t : Told) → Lasts self.old (F.disk folder.old) t → Leaves (λ c. HoldsWithRoom t c) (F.disk folder.old) (F.disk folder.new) }
        ensures tables { During SameTables (F.disk folder.old) (F.disk folder.new) }
        ensures outcome { Prepares (record_length mutation.now) (half self.old.size) self.old.first self.new.first
            (F.faults_of folder.old) (F.faults_of folder.new) result }
        ensures limit { TellsLimit self.new mutation.now result }
        ensures full { (what : _) (most : _) → result ≡ Err (JournalFault.TooMany what most) → IsFull (reach_of self.new) }
        ensures reach { GoesOn (reach_of self.old) (reach_of self.new) }
        ensures untouched { IfErr result (λ f. IsToldAtOnce f → During Same (F.disk folder.old) (F.disk folder.new)) }
        ensures count { F.faults_of folder.old ≤ F.faults_of folder.new }
        ensures size { self.new.size ≡ self.old.size }
    {
        let bytes = self.ask(mutation)?;
        self.reserve(folder, mutation, bytes)?;
        self.settle(folder, bytes)?;
        if self.has_room(bytes) {
            return Ok(());
        }
        self.next_segment(alloc, folder, mutation, bytes)
    }
}
