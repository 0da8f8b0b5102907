//! The room.

ghost use mathlib.Core.List.{IsPrefix};
ghost use Rattle.std.specs.Prelude.{◌≡◌, ◌≢◌, ◌⊎◌, ◌+◌, ◌-◌, ◌<◌, ◌≤◌, ◌^◌, min, List, [], ◌∷◌, ◌++◌, Err, length, IfOk, IfErr, OnOk, OnErr};
ghost use Rattle.cas_disk.specs.Disk.{Image, During, Leaves, Same};
ghost use Rattle.cas_atoms.specs.LogLength.{record_length};
ghost use Rattle.cas_atoms.specs.declared.atom.Mutation.{Mutation as MutationOf};
ghost use Rattle.cas_log.specs.Logs.{IsOfATable, half};
ghost use Rattle.cas_changes.specs.Allowed.{FitsEntry, HasSpelling};
ghost use Rattle.cas_changes.specs.Saying.{said_by};
ghost use Rattle.cas_changes.specs.Spelling.{entry_bytes};
ghost use Rattle.cas_journal.specs.Ends.{Ends, IsDefinition, IsOfFolder, IsTold, IsToldAtOnce, Limits, Prepares, WritesNothing, entry_limit};
ghost use Rattle.cas_journal.specs.Reach.{reach_of, reach_after, GoesOn, HasNoPlace, IsFull, IsOver};
ghost use Rattle.cas_journal.specs.Stores.{Told, Holds, HoldsWithRoom, MadeRoom, MayList, SameTables, failed_at};
ghost use Rattle.cas_journal.specs.Journals.{Lasts, AreFree, MayTake};
ghost use Rattle.cas_history.specs.Items.{listed, log_list, front_list, faults_list};
ghost use Rattle.cas_history.specs.Last.{last_fault};
ghost use Rattle.cas_history.specs.declared.item.Item.TheVariants.{Wrote};
ghost use Rattle.cas_room.specs.Rooms.{accepted_in, first_number, Accepts, Knows, after_accept, after_commit, after_define};
ghost use Rattle.cas_room.specs.Keeping.{Keeps, StandsFor};

use crate::event::{Accepted, Event};
use cas_atoms::Mutation;
use cas_changes::Entry;
use cas_disk::Folder;
use cas_gates::First;
use cas_history::{Faults, Files, Front, Log, Numbers, Session, Store, write};
use cas_journal::{Journal, JournalFault};
use std::alloc::Global;

/// The folder of a store with its journal, and the seats of what came onto it: the list of all mutations,
/// what the room says of its disk, and the numbers of table files.
#[derive(Drop)]
pub struct Room<F: Folder, J: Store> {
    pub(crate) folder: F,
    pub(crate) journal: Journal,
    pub(crate) log: Log<Event, J>,
    pub(crate) faults: Faults<Event, J>,
    pub(crate) numbers: Numbers<Event, J>,
    /// How many mutations were accepted.
    pub(crate) accepted: u64,
    /// How many of them the room said are committed.
    pub(crate) committed: u64,
    ghost free: { AreFree journal (F.disk folder) },
    ghost counted: { accepted ≤ length (accepted_in (listed log_list log.pass.saw)) },
    ghost told: { (faults.committed ≡ committed) × (committed ≤ accepted) },
    ghost faulted: { faults.number ≤ F.faults_of folder },
    ghost first: { faults.first ≡ first_number journal.first },
}

impl<F: Folder, J: Store> Room<F, J> {
    /// The room of a store that was opened, before anything is accepted.
    pub fn new(
        folder: F,
        journal: Journal,
        log: Log<Event, J>,
        faults: Faults<Event, J>,
        numbers: Numbers<Event, J>,
    ) -> Room<F, J>
        requires free { AreFree journal (F.disk folder) }
        requires new { (faults.number ≡ 0) × (faults.committed ≡ 0) × (faults.first ≡ first_number journal.first) }
        ensures folder { result.folder ≡ folder }
        ensures journal { result.journal ≡ journal }
        ensures log { result.log ≡ log }
        ensures faults { result.faults ≡ faults }
        ensures numbers { result.numbers ≡ numbers }
        ensures accepted { result.accepted ≡ 0 }
    {
        Room {
            folder,
            journal,
            log,
            faults,
            numbers,
            accepted: 0,
            committed: 0,
        }
    }

    /// The fault that stopped the room, if one did.
    pub fn stopped(&self) -> Option<First>
        ensures { result ≡ self.now.journal.first }
    {
        self.journal.stopped()
    }

    /// The folder and what was said of it, once nothing is written any more.
    pub fn close(self) -> (F, Option<First>, Log<Event, J>)
        ensures folder { result.0 ≡ self.folder }
        ensures first { result.1 ≡ self.journal.first }
        ensures log { result.2 ≡ self.log }
    {
        (self.folder, self.journal.stopped(), self.log)
    }
}

// The number of the fault that stopped the journal, 0 where none did.
fn number_of(first: Option<First>) -> u64
    ensures { result ≡ first_number first }
{
    match first {
        Some(first) => first.number,
        None => 0,
    }
}

// The room says what it knows of its disk, with so many mutations committed.
pub(crate) fn say<F: Folder, J: Store>(
    folder: &F,
    journal: &Journal,
    committed: u64,
    faults: &mut Faults<Event, J>,
)
    requires rises { (faults.old.number ≤ F.faults_of folder.now) × (faults.old.committed ≤ committed)
        × (faults.old.first ≢ 0 → first_number journal.now.first ≡ faults.old.first) }
    ensures said { (faults.new.number ≡ F.faults_of folder.now) × (faults.new.committed ≡ committed)
        × (faults.new.first ≡ first_number journal.now.first) }
{
    faults.say(folder.faults(), committed, number_of(journal.stopped()));
}

// The room says what it knows of its disk, with so many mutations committed, and the session gets to know it.
pub(crate) fn note<F: Folder, J: Store>(
    folder: &F,
    journal: &Journal,
    committed: u64,
    faults: &mut Faults<Event, J>,
    session: &mut Session<Event, J>,
)
    requires rises { (faults.old.number ≤ F.faults_of folder.now) × (faults.old.committed ≤ committed)
        × (faults.old.first ≢ 0 → first_number journal.now.first ≡ faults.old.first) }
    ensures said { (faults.new.number ≡ F.faults_of folder.now) × (faults.new.committed ≡ committed)
        × (faults.new.first ≡ first_number journal.now.first) }
    ensures known { Knows faults.new.number faults.new.committed faults.new.first (listed faults_list session.new.pass.saw) }
    ensures session { (session.new.list ≡ session.old.list) × (session.new.calls ≡ session.old.calls)
        × (listed session.old.list session.new.pass.saw ≡ listed session.old.list session.old.pass.saw)
        × IsPrefix session.old.pass.saw session.new.pass.saw }
{
    say(folder, journal, committed, faults);
    faults.tell(session);
}

// The room says what it knows of its disk, with so many mutations committed, and a seat of files gets to know it.
pub(crate) fn note_files<F: Folder, J: Store>(
    folder: &F,
    journal: &Journal,
    committed: u64,
    faults: &mut Faults<Event, J>,
    files: &mut Files<Event, J>,
)
    requires rises { (faults.old.number ≤ F.faults_of folder.now) × (faults.old.committed ≤ committed)
        × (faults.old.first ≢ 0 → first_number journal.now.first ≡ faults.old.first) }
    ensures said { (faults.new.number ≡ F.faults_of folder.now) × (faults.new.committed ≡ committed)
        × (faults.new.first ≡ first_number journal.now.first) }
    ensures known { last_fault (listed faults_list files.new.pass.saw) ≡ F.faults_of folder.now }
    ensures files { (files.new.list ≡ files.old.list)
        × (listed files.old.list files.new.pass.saw ≡ listed files.old.list files.old.pass.saw)
        × IsPrefix files.old.pass.saw files.new.pass.saw }
{
    say(folder, journal, committed, faults);
    faults.tell_files(files);
}

// How many mutations are committed, once a commit ended so: all that were accepted, or as many as before.
fn committed_by(ended: &Result<(), JournalFault>, accepted: u64, committed: u64) -> u64
    ensures all { OnOk ended.now (result ≡ accepted) }
    ensures same { OnErr ended.now (result ≡ committed) }
{
    match ended {
        Ok(()) => accepted,
        Err(_) => committed,
    }
}

impl<F: Folder, J: Store> Room<F, J> {
    /// Accepts a mutation of a shard, by a session: it comes into the history, behind all others, and the
    /// next commit writes it. All that can fail is done before, and then nothing is accepted; what was
    /// accepted earlier may then be committed, and a segment begun.
    pub fn accept(
        &mut self,
        alloc: Global,
        session: &mut Session<Event, J>,
        front: &mut Front<Event, J>,
        mutation: &Mutation,
    ) -> Result<u64, JournalFault>
        requires of { IsOfATable mutation.now }
        requires number { (mutation.now.shard ≡ front.old.shard) × (mutation.now.number ≡ front.old.number + 1) }
        requires few { (front.old.number + 1 < 2 ^ 64) × (session.old.calls + 1 < 2 ^ 64) }
        ensures kept { (found : List MutationOf) (t : Told)
            → Keeps self.old.journal (F.disk self.old.folder) (listed log_list self.old.log.pass.saw) self.old.faults.committed found t
            → MayTake t mutation.now → (u : Told) × MadeRoom t u
            × Keeps self.new.journal (F.disk self.new.folder) (listed log_list self.new.log.pass.saw) self.new.faults.committed found
            (after_accept result mutation.now u) }
        ensures crash { (t : Told) → Lasts self.old.journal (F.disk self.old.folder) t
            → Leaves (λ c. HoldsWithRoom t c) (F.disk self.old.folder) (F.disk self.new.folder) }
        ensures tables { During SameTables (F.disk self.old.folder) (F.disk self.new.folder) }
        ensures number { IfOk result (λ n. n ≡ mutation.now.number) }
        ensures entered { OnOk result (Accepts mutation.now (session.old.calls + 1) session.old.list
            (listed log_list self.old.log.pass.saw) (listed log_list self.new.log.pass.saw)
            × Accepts mutation.now (session.old.calls + 1) session.old.list
            (listed (front_list front.old.shard) front.old.pass.saw) (listed (front_list front.old.shard) front.new.pass.saw)
            × Accepts mutation.now (session.old.calls + 1) session.old.list
            (listed session.old.list session.old.pass.saw) (listed session.old.list session.new.pass.saw)) }
        ensures unentered { OnErr result ((listed log_list self.new.log.pass.saw ≡ listed log_list self.old.log.pass.saw)
            × (front.new ≡ front.old) × (session.new.calls ≡ session.old.calls)
            × (listed session.old.list session.new.pass.saw ≡ listed session.old.list session.old.pass.saw)) }
        ensures seats { (session.new.list ≡ session.old.list) × (front.new.shard ≡ front.old.shard) × IsPrefix session.old.pass.saw session.new.pass.saw }
        ensures known { OnErr result (Knows self.new.faults.number self.new.faults.committed self.new.faults.first (listed faults_list session.new.pass.saw)) }
        ensures first { self.new.faults.first ≡ first_number self.new.journal.first }
        ensures numbers { self.new.numbers ≡ self.old.numbers }
        ensures size { self.new.journal.size ≡ self.old.journal.size }
        ensures reach { GoesOn (reach_of self.old.journal) (reach_of self.new.journal) }
        ensures full { (what : _) (most : _) → result ≡ Err (JournalFault.TooMany what most) → IsFull (reach_of self.new.journal) }
        ensures accepted { OnOk result (self.new.accepted ≡ min (self.old.accepted + 1) (2 ^ 64 - 1)) }
        ensures unaccepted { OnErr result (self.new.accepted ≡ self.old.accepted) }
        ensures committed { self.new.faults.committed ≡ self.old.faults.committed }
        ensures front { OnOk result (front.new.number ≡ mutation.now.number) }
        ensures calls { OnOk result (session.new.calls ≡ session.old.calls + 1) }
        ensures outcome { Prepares (record_length mutation.now) (half self.old.journal.size) self.old.journal.first self.new.journal.first
            (F.faults_of self.old.folder) (F.faults_of self.new.folder) result }
        ensures untouched { IfErr result (λ f. IsToldAtOnce f → During Same (F.disk self.old.folder) (F.disk self.new.folder)) }
        ensures count { F.faults_of self.old.folder ≤ F.faults_of self.new.folder }
    {
        if let Err(fault) = self.journal.prepare(alloc, &mut self.folder, mutation) {
            note(
                &self.folder,
                &self.journal,
                self.committed,
                &mut self.faults,
                session,
            );
            return Err(fault);
        }
        let number = write(&mut self.log, front, session, &Accepted { mutation });
        self.journal.push(&self.folder, mutation);
        self.accepted = self.accepted.saturating_add(1);
        Ok(number)
    }

    /// Commits what was accepted: after Ok each mutation that the room accepted is in every image, and the
    /// session knows it.
    pub fn commit(&mut self, session: &mut Session<Event, J>) -> Result<(), JournalFault>
        ensures kept { (found : List MutationOf) (t : Told)
            → Keeps self.old.journal (F.disk self.old.folder) (listed log_list self.old.log.pass.saw) self.old.faults.committed found t
            → Keeps self.new.journal (F.disk self.new.folder) (listed log_list self.new.log.pass.saw) self.new.faults.committed found
            (after_commit result t) }
        ensures crash { (t : Told) → Lasts self.old.journal (F.disk self.old.folder) t
            → Leaves (λ c. Holds t c) (F.disk self.old.folder) (F.disk self.new.folder) }
        ensures tables { During SameTables (F.disk self.old.folder) (F.disk self.new.folder) }
        ensures log { self.new.log ≡ self.old.log }
        ensures session { (session.new.list ≡ session.old.list) × (session.new.calls ≡ session.old.calls)
            × (listed session.old.list session.new.pass.saw ≡ listed session.old.list session.old.pass.saw)
            × IsPrefix session.old.pass.saw session.new.pass.saw }
        ensures known { Knows self.new.faults.number self.new.faults.committed self.new.faults.first (listed faults_list session.new.pass.saw) }
        ensures all { OnOk result (self.new.faults.committed ≡ self.old.accepted) }
        ensures first { self.new.faults.first ≡ first_number self.new.journal.first }
        ensures numbers { self.new.numbers ≡ self.old.numbers }
        ensures size { self.new.journal.size ≡ self.old.journal.size }
        ensures reach { reach_of self.new.journal ≡ reach_of self.old.journal }
        ensures manifest { self.new.journal.manifest ≡ self.old.journal.manifest }
        ensures accepted { self.new.accepted ≡ self.old.accepted }
        ensures same { OnErr result (self.new.faults.committed ≡ self.old.faults.committed) }
        ensures rises { self.old.faults.committed ≤ self.new.faults.committed }
        ensures outcome { Ends self.old.journal.first self.new.journal.first (F.faults_of self.old.folder) (F.faults_of self.new.folder) result }
        ensures why { IfErr result (λ f. IsOfFolder f) }
        ensures untouched { IfErr result (λ f. IsToldAtOnce f → During Same (F.disk self.old.folder) (F.disk self.new.folder)) }
        ensures count { F.faults_of self.old.folder ≤ F.faults_of self.new.folder }
    {
        let result = self.journal.commit(&mut self.folder);
        self.committed = committed_by(&result, self.accepted, self.committed);
        note(
            &self.folder,
            &self.journal,
            self.committed,
            &mut self.faults,
            session,
        );
        result
    }

    // Tells an entry: after Ok it is in every image.
    pub(crate) fn tell(
        &mut self,
        alloc: Global,
        session: &mut Session<Event, J>,
        entry: &Entry,
    ) -> Result<(), JournalFault>
        requires spelled { HasSpelling entry.now }
        requires short { length (entry_bytes entry.now) < 2 ^ 32 }
        requires told { IsTold entry.now }
        ensures kept { (found : List MutationOf) (t : Told)
            → Keeps self.old.journal (F.disk self.old.folder) (listed log_list self.old.log.pass.saw) self.old.faults.committed found t
            → FitsEntry (said_by t.entries) entry.now
            → Keeps self.new.journal (F.disk self.new.folder) (listed log_list self.new.log.pass.saw) self.new.faults.committed found
            (after_define result entry.now t) }
        ensures log { self.new.log ≡ self.old.log }
        ensures session { (session.new.list ≡ session.old.list) × (session.new.calls ≡ session.old.calls)
            × (listed session.old.list session.new.pass.saw ≡ listed session.old.list session.old.pass.saw)
            × IsPrefix session.old.pass.saw session.new.pass.saw }
        ensures crash { (t : Told) → Lasts self.old.journal (F.disk self.old.folder) t → FitsEntry (said_by t.entries) entry.now
            → Leaves (λ c. Holds t c ⊎ Holds (failed_at entry.now t) c) (F.disk self.old.folder) (F.disk self.new.folder) }
        ensures tables { During SameTables (F.disk self.old.folder) (F.disk self.new.folder) }
        ensures known { Knows self.new.faults.number self.new.faults.committed self.new.faults.first (listed faults_list session.new.pass.saw) }
        ensures first { self.new.faults.first ≡ first_number self.new.journal.first }
        ensures numbers { self.new.numbers ≡ self.old.numbers }
        ensures size { self.new.journal.size ≡ self.old.journal.size }
        ensures reach { reach_of self.new.journal ≡ reach_after result entry.now (reach_of self.old.journal) }
        ensures full { (what : _) (most : _) → result ≡ Err (JournalFault.TooMany what most) → IsOver what entry.now self.old.journal }
        ensures accepted { self.new.accepted ≡ self.old.accepted }
        ensures committed { self.new.faults.committed ≡ self.old.faults.committed }
        ensures outcome { Ends self.old.journal.first self.new.journal.first (F.faults_of self.old.folder) (F.faults_of self.new.folder) result }
        ensures limits { Limits (entry_limit self.old.journal entry.now) result }
        ensures untouched { IfErr result (λ f. WritesNothing f → During Same (F.disk self.old.folder) (F.disk self.new.folder)) }
        ensures count { F.faults_of self.old.folder ≤ F.faults_of self.new.folder }
    {
        let result = self.journal.tell(alloc, &mut self.folder, entry);
        note(
            &self.folder,
            &self.journal,
            self.committed,
            &mut self.faults,
            session,
        );
        result
    }

    /// Defines a table, or columns of one: after Ok the entry is in every image.
    #[tactic(auto, using(cas_journal::proofs::Reaching::definition_over, cas_journal::proofs::Reaching::definition_told))]
    pub fn define(
        &mut self,
        alloc: Global,
        session: &mut Session<Event, J>,
        entry: &Entry,
    ) -> Result<(), JournalFault>
        requires spelled { HasSpelling entry.now }
        requires short { length (entry_bytes entry.now) < 2 ^ 32 }
        requires definition { IsDefinition entry.now }
        ensures kept { (found : List MutationOf) (t : Told)
            → Keeps self.old.journal (F.disk self.old.folder) (listed log_list self.old.log.pass.saw) self.old.faults.committed found t
            → FitsEntry (said_by t.entries) entry.now
            → Keeps self.new.journal (F.disk self.new.folder) (listed log_list self.new.log.pass.saw) self.new.faults.committed found
            (after_define result entry.now t) }
        ensures log { self.new.log ≡ self.old.log }
        ensures session { (session.new.list ≡ session.old.list) × (session.new.calls ≡ session.old.calls)
            × (listed session.old.list session.new.pass.saw ≡ listed session.old.list session.old.pass.saw)
            × IsPrefix session.old.pass.saw session.new.pass.saw }
        ensures crash { (t : Told) → Lasts self.old.journal (F.disk self.old.folder) t → FitsEntry (said_by t.entries) entry.now
            → Leaves (λ c. Holds t c ⊎ Holds (failed_at entry.now t) c) (F.disk self.old.folder) (F.disk self.new.folder) }
        ensures tables { During SameTables (F.disk self.old.folder) (F.disk self.new.folder) }
        ensures known { Knows self.new.faults.number self.new.faults.committed self.new.faults.first (listed faults_list session.new.pass.saw) }
        ensures first { self.new.faults.first ≡ first_number self.new.journal.first }
        ensures numbers { self.new.numbers ≡ self.old.numbers }
        ensures size { self.new.journal.size ≡ self.old.journal.size }
        ensures reach { reach_of self.new.journal ≡ reach_after result entry.now (reach_of self.old.journal) }
        ensures full { (what : _) (most : _) → result ≡ Err (JournalFault.TooMany what most) → HasNoPlace entry.now (reach_of self.old.journal) }
        ensures accepted { self.new.accepted ≡ self.old.accepted }
        ensures committed { self.new.faults.committed ≡ self.old.faults.committed }
        ensures outcome { Ends self.old.journal.first self.new.journal.first (F.faults_of self.old.folder) (F.faults_of self.new.folder) result }
        ensures limits { Limits (entry_limit self.old.journal entry.now) result }
        ensures untouched { IfErr result (λ f. WritesNothing f → During Same (F.disk self.old.folder) (F.disk self.new.folder)) }
        ensures count { F.faults_of self.old.folder ≤ F.faults_of self.new.folder }
    {
        self.tell(alloc, session, entry)
    }

    /// Whatever a crash leaves now stands for a front of the history: what the opening found, and behind it
    /// the first mutations of the room's list, each that was said to be committed among them.
    pub fn images_stand(&self)
        ensures law { (found : List MutationOf) (t : Told)
            → Keeps self.now.journal (F.disk self.now.folder) (listed log_list self.now.log.pass.saw) self.now.faults.committed found t
            → (c : Image) → (F.disk self.now.folder).may_leave c
            → StandsFor (MayList t) found (accepted_in (listed log_list self.now.log.pass.saw)) self.now.faults.committed c }
    {}
}
