//! The files of tables: their numbers and drafts, and their removal.

ghost use mathlib.Core.List.{IsPrefix};
ghost use Rattle.std.specs.Prelude.{◌≡◌, ◌+◌, ◌≤◌, ℕ, List, [], true, IfOk, IfErr, OnOk, IsErr};
ghost use Rattle.cas_disk.specs.Counts.{Counted};
ghost use Rattle.cas_disk.specs.Disk.{Changed, During, Follows, IsGone, Leaves, MayBeAnything, MayGo, Same};
ghost use Rattle.cas_atoms.specs.declared.atom.Mutation.{Mutation as MutationOf};
ghost use Rattle.cas_journal.specs.Stores.{Told, Holds};
ghost use Rattle.cas_journal.specs.Journals.{Lasts};
ghost use Rattle.cas_history.specs.Items.{listed, log_list, numbers_list, faults_list};
ghost use Rattle.cas_history.specs.Last.{holds, last_fault};
ghost use Rattle.cas_room.specs.Rooms.{first_number};
ghost use Rattle.cas_room.specs.Keeping.{Keeps};
ghost use Rattle.cas_room.specs.Tables.{Begins, Draws, IsFull};

use crate::event::Event;
use crate::fault::FreshFault;
use crate::room::{Room, note_files};
use cas_disk::{Draft, Folder, Name};
use cas_history::{Files, Store};
use cas_info::FILE_NUMBER_LIMIT;
use cas_io::Failed;
use cas_refs::Removal;

/// How many table files may be live: those that the manifest lists, and those that were retired and
/// aren't removed yet.
pub const LIVE_LIMIT: u64 = 4_096;

impl<F: Folder, J: Store> Room<F, J> {
    /// Draws the number of a new table's file, and begins the draft of it. So many files are live. The
    /// number stays drawn also where the folder fails; a fault that stopped the room is no reason not to.
    pub fn fresh(
        &mut self,
        files: &mut Files<Event, J>,
        live: u64,
    ) -> Result<(u64, F::Draft), FreshFault>
        ensures outcome { Begins live self.old.numbers.last (F.faults_of self.old.folder) (F.faults_of self.new.folder) result }
        ensures number { IfOk result (λ r. (r.0 ≡ self.old.numbers.last + 1) × (F.Draft.number r.1 ≡ r.0)) }
        ensures empty { IfOk result (λ r. (b : List ℕ) → F.Draft.written r.1 b → b ≡ []) }
        ensures drawn { (IsFull live self.old.numbers.last → ⊥) → (self.new.numbers.last ≡ self.old.numbers.last + 1)
            × Draws (self.old.numbers.last + 1) files.old.list (listed numbers_list self.old.numbers.pass.saw) (listed numbers_list self.new.numbers.pass.saw)
            × Draws (self.old.numbers.last + 1) files.old.list (listed files.old.list files.old.pass.saw) (listed files.old.list files.new.pass.saw)
            × (holds (self.old.numbers.last + 1) (listed files.old.list files.new.pass.saw) ≡ true) }
        ensures full { IsFull live self.old.numbers.last → (self.new ≡ self.old) × (files.new ≡ files.old) }
        ensures files { (files.new.list ≡ files.old.list) × IsPrefix files.old.pass.saw files.new.pass.saw }
        ensures known { IfErr result (λ f. f ≡ FreshFault.Failed → (self.new.faults.number ≡ F.faults_of self.new.folder)
            × (last_fault (listed faults_list files.new.pass.saw) ≡ F.faults_of self.new.folder)) }
        ensures kept { (found : List MutationOf) (t : Told)
            → Keeps self.old.journal (F.disk self.old.folder) (listed log_list self.old.log.pass.saw) self.old.faults.committed found t
            → Keeps self.new.journal (F.disk self.new.folder) (listed log_list self.new.log.pass.saw) self.new.faults.committed found t }
        ensures crash { (t : Told) → Lasts self.old.journal (F.disk self.old.folder) t
            → Leaves (λ c. Holds t c) (F.disk self.old.folder) (F.disk self.new.folder) }
        ensures during { During (Changed (Name.Table (self.old.numbers.last + 1)) MayBeAnything) (F.disk self.old.folder) (F.disk self.new.folder) }
        ensures reads { Follows Same (F.disk self.old.folder).reads (F.disk self.new.folder).reads }
        ensures journal { self.new.journal ≡ self.old.journal }
        ensures log { self.new.log ≡ self.old.log }
        ensures accepted { self.new.accepted ≡ self.old.accepted }
        ensures committed { self.new.faults.committed ≡ self.old.faults.committed }
        ensures first { self.new.faults.first ≡ self.old.faults.first }
        ensures count { F.faults_of self.old.folder ≤ F.faults_of self.new.folder }
    {
        if live >= LIVE_LIMIT || self.numbers.last() >= FILE_NUMBER_LIMIT {
            return Err(FreshFault::Full { files: live });
        }
        let number = self.numbers.draw(files);
        let fault = match self.folder.draft(number) {
            Ok(draft) => return Ok((number, draft)),
            Err(fault) => fault,
        };
        note_files(
            &self.folder,
            &self.journal,
            self.committed,
            &mut self.faults,
            files,
        );
        Err(FreshFault::from(fault))
    }

    /// Removes the file of a table that nobody uses any more: that of the removal, and nothing else. A
    /// crash may bring it back, and then the next opening removes it. A fault that stopped the room is
    /// no reason not to.
    pub fn remove(&mut self, removal: Removal) -> Result<(), Failed>
        ensures during { During (Changed (Name.Table removal.id) MayGo) (F.disk self.old.folder) (F.disk self.new.folder) }
        ensures gone { OnOk result (Follows (Changed (Name.Table removal.id) IsGone) (F.disk self.old.folder).reads (F.disk self.new.folder).reads) }
        ensures kept { (found : List MutationOf) (t : Told)
            → Keeps self.old.journal (F.disk self.old.folder) (listed log_list self.old.log.pass.saw) self.old.faults.committed found t
            → Keeps self.new.journal (F.disk self.new.folder) (listed log_list self.new.log.pass.saw) self.new.faults.committed found t }
        ensures crash { (t : Told) → Lasts self.old.journal (F.disk self.old.folder) t
            → Leaves (λ c. Holds t c) (F.disk self.old.folder) (F.disk self.new.folder) }
        ensures count { Counted (F.faults_of self.old.folder) (F.faults_of self.new.folder) (IsErr result) }
        ensures journal { self.new.journal ≡ self.old.journal }
        ensures accepted { self.new.accepted ≡ self.old.accepted }
        ensures seats { (self.new.log ≡ self.old.log) × (self.new.faults ≡ self.old.faults) × (self.new.numbers ≡ self.old.numbers) }
    {
        self.folder.remove(Name::Table(removal.into_id()))
    }
}
