//! Changes of table files: the draft is admitted, and the manifest and the history get the change.

ghost use mathlib.Core.List.{IsPrefix};
ghost use Rattle.std.specs.Prelude.{◌≡◌, ◌^◌, ◌<◌, ◌≤◌, ℕ, List, [], true, Some, Err, length, IfOk, IfErr, OnOk, OnErr, IsErrOf, MatchResult};
ghost use Rattle.cas_disk.specs.Counts.{Counted};
ghost use Rattle.cas_disk.specs.Disk.{Image, Changed as ChangedIn, During, Follows, IsKept, Leaves, MayBeAnything, Same};
ghost use Rattle.cas_disk.specs.declared.fault.FolderFault.TheVariants as folder_fault;
ghost use Rattle.cas_atoms.specs.declared.atom.Mutation.{Mutation as MutationOf};
ghost use Rattle.cas_changes.specs.declared.entry.Entry.TheVariants as entry_of;
ghost use Rattle.cas_changes.specs.Allowed.{FitsEntry, HasSpelling};
ghost use Rattle.cas_changes.specs.Saying.{said_by};
ghost use Rattle.cas_changes.specs.Spelling.{entry_bytes};
ghost use Rattle.cas_journal.specs.Ends.{Ends, IsTold, IsToldAtOnce, entry_limit};
ghost use Rattle.cas_journal.specs.Reach.{reach_of, reach_after, IsOver};
ghost use Rattle.cas_journal.specs.Stores.{Told, Holds, SameTables, appended, committed_all};
ghost use Rattle.cas_journal.specs.Journals.{Lasts};
ghost use Rattle.cas_history.specs.Log.{Each, Has};
ghost use Rattle.cas_refs.specs.Counts.{at};
ghost use Rattle.cas_history.specs.Items.{listed, log_list, front_list, faults_list, changes_list, room_changes, book_changes, Distinct};
ghost use Rattle.cas_history.specs.Last.{holds, last_fault, files_of, frontier_of};
ghost use Rattle.cas_lifecycle.specs.Books.{is_live};
ghost use Rattle.cas_room.specs.Rooms.{accepted_in, first_number, Knows};
ghost use Rattle.cas_room.specs.Keeping.{Keeps};
ghost use Rattle.cas_room.specs.Changing.{added_by, Stand, MayBeTold, HoldsSettled, HoldsChange, StandsAmid, TellsLimit, Installs};

use crate::event::{Changed, Event};
use crate::room::{Room, note_files};
use cas_changes::{Change, Entry};
use cas_disk::{Draft, Folder, FolderFault, Name};
use cas_history::{Files, Front, Session, Store};
use cas_journal::JournalFault;
use cas_lifecycle::{Book, Changes, RoomCopy, install};
use std::alloc::Global;

impl<F: Folder, J: Store> Room<F, J> {
    /// Puts a draft into the folder, for good. No manifest lists it yet; a fault that stopped the room is
    /// no reason not to.
    pub fn admit(
        &mut self,
        files: &mut Files<Event, J>,
        draft: F::Draft,
    ) -> Result<F::Sealed, FolderFault>
        requires synced { F.Draft.is_synced draft }
        ensures holds { IfOk result (λ file. (b : List ℕ) → F.Sealed.contents file ≡ Some b → F.Draft.written draft b) }
        ensures told { IfOk result (λ file. (c : Image) → (F.disk self.old.folder).reads c → (b : List ℕ) × (F.Sealed.contents file ≡ Some b)) }
        ensures stands { OnOk result ((c : Image) → (F.disk self.new.folder).may_leave c
            → (b : List ℕ) × F.Draft.written draft b × (c (Name.Table (F.Draft.number draft)) ≡ Some b)) }
        ensures during { During (ChangedIn (Name.Table (F.Draft.number draft)) MayBeAnything) (F.disk self.old.folder) (F.disk self.new.folder) }
        ensures reads { OnOk result (Follows (ChangedIn (Name.Table (F.Draft.number draft)) MayBeAnything)
            (F.disk self.old.folder).reads (F.disk self.new.folder).reads) }
        ensures kept { (found : List MutationOf) (t : Told)
            → Keeps self.old.journal (F.disk self.old.folder) (listed log_list self.old.log.pass.saw) self.old.faults.committed found t
            → Keeps self.new.journal (F.disk self.new.folder) (listed log_list self.new.log.pass.saw) self.new.faults.committed found t }
        ensures crash { (t : Told) → Lasts self.old.journal (F.disk self.old.folder) t
            → Leaves (λ c. Holds t c) (F.disk self.old.folder) (F.disk self.new.folder) }
        ensures files { (files.new.list ≡ files.old.list)
            × (listed files.old.list files.new.pass.saw ≡ listed files.old.list files.old.pass.saw)
            × IsPrefix files.old.pass.saw files.new.pass.saw }
        ensures known { IfErr result (λ f. f ≡ FolderFault.Failed → (self.new.faults.number ≡ F.faults_of self.new.folder)
            × (last_fault (listed faults_list files.new.pass.saw) ≡ F.faults_of self.new.folder)) }
        ensures count { Counted (F.faults_of self.old.folder) (F.faults_of self.new.folder) (IsErrOf result FolderFault.Failed) }
        ensures journal { self.new.journal ≡ self.old.journal }
        ensures log { self.new.log ≡ self.old.log }
        ensures numbers { self.new.numbers ≡ self.old.numbers }
        ensures accepted { self.new.accepted ≡ self.old.accepted }
        ensures committed { self.new.faults.committed ≡ self.old.faults.committed }
        ensures first { self.new.faults.first ≡ self.old.faults.first }
    {
        let fault = match self.folder.admit(draft) {
            Ok(sealed) => return Ok(sealed),
            Err(fault) => fault,
        };
        note_files(
            &self.folder,
            &self.journal,
            self.committed,
            &mut self.faults,
            files,
        );
        Err(fault)
    }

    // Commits what was accepted, and then tells an entry: no image has it without all mutations.
    fn settle(
        &mut self,
        alloc: Global,
        session: &mut Session<Event, J>,
        entry: &Entry,
    ) -> Result<(), JournalFault>
        requires spelled { HasSpelling entry.now }
        requires short { length (entry_bytes entry.now) < 2 ^ 32 }
        requires told { IsTold entry.now }
        ensures kept { (found : List MutationOf) (t : Told)
            → Keeps self.old.journal (F.disk self.old.folder) (listed log_list self.old.log.pass.saw) self.old.faults.committed found t
            → FitsEntry (said_by t.entries) entry.now
            → MatchResult result
            (λ _. Keeps self.new.journal (F.disk self.new.folder) (listed log_list self.new.log.pass.saw) self.new.faults.committed found
            (appended entry.now (committed_all t)))
            (λ f. (u : Told) × MayBeTold f entry.now t u
            × Keeps self.new.journal (F.disk self.new.folder) (listed log_list self.new.log.pass.saw) self.new.faults.committed found u) }
        ensures crash { (found : List MutationOf) (t : Told)
            → Keeps self.old.journal (F.disk self.old.folder) (listed log_list self.old.log.pass.saw) self.old.faults.committed found t
            → FitsEntry (said_by t.entries) entry.now
            → Leaves (λ c. HoldsSettled t entry.now c) (F.disk self.old.folder) (F.disk self.new.folder) }
        ensures tables { During SameTables (F.disk self.old.folder) (F.disk self.new.folder) }
        ensures log { self.new.log ≡ self.old.log }
        ensures session { (session.new.list ≡ session.old.list) × (session.new.calls ≡ session.old.calls)
            × (listed session.old.list session.new.pass.saw ≡ listed session.old.list session.old.pass.saw)
            × IsPrefix session.old.pass.saw session.new.pass.saw }
        ensures known { Knows self.new.faults.number self.new.faults.committed self.new.faults.first (listed faults_list session.new.pass.saw) }
        ensures first { self.new.faults.first ≡ first_number self.new.journal.first }
        ensures all { OnOk result (self.new.faults.committed ≡ self.old.accepted) }
        ensures rises { self.old.faults.committed ≤ self.new.faults.committed }
        ensures numbers { self.new.numbers ≡ self.old.numbers }
        ensures size { self.new.journal.size ≡ self.old.journal.size }
        ensures accepted { self.new.accepted ≡ self.old.accepted }
        ensures reach { reach_of self.new.journal ≡ reach_after result entry.now (reach_of self.old.journal) }
        ensures full { (what : _) (most : _) → result ≡ Err (JournalFault.TooMany what most) → IsOver what entry.now self.old.journal }
        ensures limits { TellsLimit (entry_limit self.old.journal entry.now) result }
        ensures outcome { Ends self.old.journal.first self.new.journal.first (F.faults_of self.old.folder) (F.faults_of self.new.folder) result }
        ensures untouched { IfErr result (λ f. IsToldAtOnce f → During Same (F.disk self.old.folder) (F.disk self.new.folder)) }
        ensures count { F.faults_of self.old.folder ≤ F.faults_of self.new.folder }
    {
        match self.commit(session) {
            Ok(()) => self.tell(alloc, session, entry),
            Err(fault) => Err(fault),
        }
    }

    /// Changes the table files of a table in a shard: all that was accepted is committed, then the manifest
    /// gets the change, and then the history. The added files were admitted. After a fault the history has
    /// no change; where the folder failed, the manifest may have it.
    pub fn install(
        &mut self,
        alloc: Global,
        session: &mut Session<Event, J>,
        changes: &mut Changes<Event, J>,
        copy: &mut RoomCopy<Event, J>,
        book: &mut Book<Event, J>,
        files: &mut Files<Event, J>,
        front: &mut Front<Event, J>,
        entry: &Entry,
        change: &Change,
        added: &[u64],
    ) -> Result<(), JournalFault>
        requires entry { entry.now ≡ entry_of.Change change.now }
        requires spelled { HasSpelling entry.now }
        requires short { length (entry_bytes entry.now) < 2 ^ 32 }
        requires added { added.now ≡ added_by change.now }
        requires stand { Stand (added_by change.now) (F.disk self.old.folder) }
        requires shard { (change.now.shard ≡ changes.old.shard) × (copy.old.shard ≡ changes.old.shard) × (front.old.shard ≡ changes.old.shard) }
        requires held { Distinct (added_by change.now) × Each (λ k. holds k (listed files.old.list files.old.pass.saw) ≡ true) (added_by change.now) }
        requires live { Each (λ k. is_live (at book.old.refs k) ≡ true) (added_by change.now) }
        requires removed { Each (λ k. Has (files_of (listed (changes_list changes.old.shard) changes.old.pass.saw)) k) change.now.removed }
        requires frontier { (frontier_of change.now.table (listed (changes_list changes.old.shard) changes.old.pass.saw) ≤ change.now.frontier)
            × (change.now.frontier ≤ front.old.number) }
        ensures kept { (found : List MutationOf) (t : Told)
            → Keeps self.old.journal (F.disk self.old.folder) (listed log_list self.old.log.pass.saw) self.old.faults.committed found t
            → FitsEntry (said_by t.entries) entry.now
            → MatchResult result
            (λ _. Keeps self.new.journal (F.disk self.new.folder) (listed log_list self.new.log.pass.saw) self.new.faults.committed found
            (appended entry.now (committed_all t)))
            (λ f. (u : Told) × MayBeTold f entry.now t u
            × Keeps self.new.journal (F.disk self.new.folder) (listed log_list self.new.log.pass.saw) self.new.faults.committed found u) }
        ensures crash { (found : List MutationOf) (t : Told)
            → Keeps self.old.journal (F.disk self.old.folder) (listed log_list self.old.log.pass.saw) self.old.faults.committed found t
            → FitsEntry (said_by t.entries) entry.now
            → Leaves (λ c. HoldsChange t entry.now (added_by change.now) c) (F.disk self.old.folder) (F.disk self.new.folder) }
        ensures front { (found : List MutationOf) (t : Told)
            → Keeps self.old.journal (F.disk self.old.folder) (listed log_list self.old.log.pass.saw) self.old.faults.committed found t
            → FitsEntry (said_by t.entries) entry.now
            → Leaves (λ c. StandsAmid t entry.now found (accepted_in (listed log_list self.old.log.pass.saw)) self.old.faults.committed c)
            (F.disk self.old.folder) (F.disk self.new.folder) }
        ensures stand { Stand (added_by change.now) (F.disk self.new.folder) }
        ensures tables { During SameTables (F.disk self.old.folder) (F.disk self.new.folder) }
        ensures files { (n : ℕ) (file : List ℕ) → IsKept (Name.Table n) file (F.disk self.old.folder) → IsKept (Name.Table n) file (F.disk self.new.folder) }
        ensures entered { OnOk result (
            Installs change.now changes.old.shard files.old.list
            (listed (changes_list changes.old.shard) changes.old.pass.saw) (listed (changes_list changes.old.shard) changes.new.pass.saw)
            × Installs change.now changes.old.shard files.old.list
            (listed (room_changes changes.old.shard) copy.old.pass.saw) (listed (room_changes changes.old.shard) copy.new.pass.saw)
            × Installs change.now changes.old.shard files.old.list
            (listed (book_changes changes.old.shard) book.old.pass.saw) (listed (book_changes changes.old.shard) book.new.pass.saw)
            × Installs change.now changes.old.shard files.old.list
            (listed files.old.list files.old.pass.saw) (listed files.old.list files.new.pass.saw)
            × Installs change.now changes.old.shard files.old.list
            (listed (front_list changes.old.shard) front.old.pass.saw) (listed (front_list changes.old.shard) front.new.pass.saw)) }
        ensures unentered { OnErr result ((changes.new ≡ changes.old) × (copy.new ≡ copy.old) × (book.new ≡ book.old)
            × (files.new ≡ files.old) × (front.new ≡ front.old)) }
        ensures retires { OnOk result ((s k : ℕ) → s < 16 → Has change.now.removed k → Has (files_of (listed (book_changes s) book.new.pass.saw)) k → ⊥) }
        ensures seats { (changes.new.shard ≡ changes.old.shard) × (copy.new.shard ≡ changes.old.shard) × (front.new.shard ≡ changes.old.shard)
            × (front.new.number ≡ front.old.number) × (files.new.list ≡ files.old.list) × (book.new.refs ≡ book.old.refs) }
        ensures log { self.new.log ≡ self.old.log }
        ensures session { (session.new.list ≡ session.old.list) × (session.new.calls ≡ session.old.calls)
            × (listed session.old.list session.new.pass.saw ≡ listed session.old.list session.old.pass.saw)
            × IsPrefix session.old.pass.saw session.new.pass.saw }
        ensures known { Knows self.new.faults.number self.new.faults.committed self.new.faults.first (listed faults_list session.new.pass.saw) }
        ensures first { self.new.faults.first ≡ first_number self.new.journal.first }
        ensures all { OnOk result (self.new.faults.committed ≡ self.old.accepted) }
        ensures rises { self.old.faults.committed ≤ self.new.faults.committed }
        ensures numbers { self.new.numbers ≡ self.old.numbers }
        ensures size { self.new.journal.size ≡ self.old.journal.size }
        ensures accepted { self.new.accepted ≡ self.old.accepted }
        ensures reach { reach_of self.new.journal ≡ reach_after result entry.now (reach_of self.old.journal) }
        ensures full { (what : _) (most : _) → result ≡ Err (JournalFault.TooMany what most)
            → IsOver what entry.now self.old.journal }
        ensures limits { TellsLimit (entry_limit self.old.journal entry.now) result }
        ensures outcome { Ends self.old.journal.first self.new.journal.first (F.faults_of self.old.folder) (F.faults_of self.new.folder) result }
        ensures untouched { IfErr result (λ f. IsToldAtOnce f → During Same (F.disk self.old.folder) (F.disk self.new.folder)) }
        ensures count { F.faults_of self.old.folder ≤ F.faults_of self.new.folder }
    {
        if let Err(fault) = self.settle(alloc, session, entry) {
            return Err(fault);
        }
        enter(changes, copy, book, files, front, change, added);
        Ok(())
    }
}

// A change comes into the history.
fn enter<J: Store>(
    changes: &mut Changes<Event, J>,
    copy: &mut RoomCopy<Event, J>,
    book: &mut Book<Event, J>,
    files: &mut Files<Event, J>,
    front: &mut Front<Event, J>,
    change: &Change,
    added: &[u64],
)
    requires added { added.now ≡ added_by change.now }
    requires shard { (change.now.shard ≡ changes.old.shard) × (copy.old.shard ≡ changes.old.shard) × (front.old.shard ≡ changes.old.shard) }
    requires held { Distinct (added_by change.now) × Each (λ k. holds k (listed files.old.list files.old.pass.saw) ≡ true) (added_by change.now) }
    requires live { Each (λ k. is_live (at book.old.refs k) ≡ true) (added_by change.now) }
    requires removed { Each (λ k. Has (files_of (listed (changes_list changes.old.shard) changes.old.pass.saw)) k) change.now.removed }
    requires frontier { (frontier_of change.now.table (listed (changes_list changes.old.shard) changes.old.pass.saw) ≤ change.now.frontier)
        × (change.now.frontier ≤ front.old.number) }
    ensures changes { Installs change.now changes.old.shard files.old.list
        (listed (changes_list changes.old.shard) changes.old.pass.saw) (listed (changes_list changes.old.shard) changes.new.pass.saw) }
    ensures copy { Installs change.now changes.old.shard files.old.list
        (listed (room_changes changes.old.shard) copy.old.pass.saw) (listed (room_changes changes.old.shard) copy.new.pass.saw) }
    ensures book { Installs change.now changes.old.shard files.old.list
        (listed (book_changes changes.old.shard) book.old.pass.saw) (listed (book_changes changes.old.shard) book.new.pass.saw) }
    ensures files { Installs change.now changes.old.shard files.old.list
        (listed files.old.list files.old.pass.saw) (listed files.old.list files.new.pass.saw) }
    ensures front { Installs change.now changes.old.shard files.old.list
        (listed (front_list changes.old.shard) front.old.pass.saw) (listed (front_list changes.old.shard) front.new.pass.saw) }
    ensures retires { (s k : ℕ) → s < 16 → Has change.now.removed k → Has (files_of (listed (book_changes s) book.new.pass.saw)) k → ⊥ }
    ensures seats { (changes.new.shard ≡ changes.old.shard) × (copy.new.shard ≡ changes.old.shard) × (front.new.shard ≡ changes.old.shard)
        × (front.new.number ≡ front.old.number) × (files.new.list ≡ files.old.list) × (book.new.refs ≡ book.old.refs) }
{
    install(
        changes,
        copy,
        book,
        files,
        front,
        cas_lifecycle::Change {
            table: change.table as u64,
            frontier: change.frontier,
            removed: change.removed.as_slice(),
            added,
            what: &Changed { change },
        },
    );
}
