//! Writes a segment: mutations are pushed, and committed together.

ghost use Rattle.std.specs.Prelude.{◌≡◌, ◌≢◌, ◌+◌, ◌≤◌, ◌<◌, ◌^◌, List, [], ◌∷◌, ◌++◌};
ghost use Rattle.std.specs.Prelude.{OnOk, vec_len, None, Err, MatchResult, IfOk, nat_le};
ghost use Rattle.cas_disk.specs.Disk.{Image, During, Changed, MayBeAnything, Same};
ghost use Rattle.cas_atoms.specs.declared.atom.Mutation.{Mutation as MutationOf};
ghost use Rattle.cas_atoms.specs.LogLength.{record_length};
ghost use Rattle.cas_log.specs.Segment.{IsSize};
ghost use Rattle.cas_log.specs.Logs.{Stands, HasPushed, MayHave, Ends, place_of, moved, block_length, HasMemoryFor, IsOfATable, IsReserved, WhyNotReserved, half};

use crate::blocks::{add_record, first_bytes, no_records, take_records};
use crate::fault::LogFault;
use crate::log::Log;
use cas_atoms::Mutation;
use cas_disk::{Folder, FolderFault, Name, make};
use cas_gates::{First, write_gated};
use cas_io::Failed;
use cas_mutations::records_are_exact;
use std::alloc::Global;

impl Log {
    // What was pushed is committed: the gate after it is the file's last byte, and nothing is pushed.
    fn settle(&mut self)
        requires { 0 < self.old.count }
        ensures place { place_of self.new ≡ moved (vec_len self.old.block) (place_of self.old) }
        ensures pushed { HasPushed self.new [] }
        ensures reserved { (m : MutationOf) → IsReserved self.old m → IsReserved self.new m }
    {
        self.end += self.block.len() as u64;
        self.count = 0;
        take_records(&mut self.block);
    }

    /// Begins a segment. After Ok its file lasts, with no mutations; until then a crash may leave
    /// anything under its name.
    pub fn begin<F: Folder>(
        alloc: Global,
        folder: &mut F,
        first: &mut Option<First>,
        number: u64,
        size: u64,
    ) -> Result<Log, LogFault>
        requires absent { (c : Image) → (F.disk folder.old).reads c → c (Name.Log number) ≡ None }
        requires size { IsSize size }
        ensures place { IfOk result (λ log. ((place_of log).number ≡ number) × ((place_of log).size ≡ size)) }
        ensures stands { IfOk result (λ log. Stands (place_of log) (F.disk folder.new) []) }
        ensures pushed { IfOk result (λ log. HasPushed log []) }
        // The header has 24 bytes; a block without records has 9.
        ensures short { IfOk result (λ log. ((place_of log).end ≡ 24) × (block_length log ≡ 10)) }
        ensures during { During (Changed (Name.Log number) MayBeAnything) (F.disk folder.old) (F.disk folder.new) }
        ensures outcome { Ends first.old first.new (F.faults_of folder.old) (F.faults_of folder.new) result }
        ensures count { F.faults_of folder.old ≤ F.faults_of folder.new }
    {
        if let Some(kept) = first {
            return Err(LogFault::Stopped(*kept));
        }
        let block = no_records(alloc)?;
        match make(folder, Name::Log(number), &first_bytes(number, size)) {
            Ok(()) => Ok(Log {
                number,
                size,
                end: 24,
                count: 0,
                block,
            }),
            Err(FolderFault::Failed) => {
                *first = Some(First {
                    number: folder.faults(),
                });
                Err(LogFault::Failed)
            }
            Err(FolderFault::Mem) => Err(LogFault::Mem),
        }
    }

    /// Makes room for a record of so many bytes, so that it can be pushed without memory.
    pub fn reserve(&mut self, bytes: u64) -> Result<(), LogFault>
        ensures reserved { OnOk result (HasMemoryFor self.new bytes) }
        ensures place { place_of self.new ≡ place_of self.old }
        ensures pushed { (pushed : List MutationOf) → HasPushed self.old pushed → HasPushed self.new pushed }
        ensures long { block_length self.new ≡ block_length self.old }
        ensures why { MatchResult result (λ _. bytes ≤ half (place_of self.old).size) (λ f. WhyNotReserved f bytes (half (place_of self.old).size)) }
    {
        let limit = self.size / 2;
        if bytes > limit {
            return Err(LogFault::TooLarge {
                length: bytes,
                limit,
            });
        }
        self.block.reserve(bytes as usize)?;
        Ok(())
    }

    /// How many bytes the records of what is pushed have.
    pub fn pending(&self) -> u64
        ensures { result + 10 ≡ block_length self.now }
    {
        self.block.len() as u64 - 9
    }

    /// Whether a record of so many bytes fits behind those that are pushed.
    pub fn has_room(&self, bytes: u64) -> bool
        requires { bytes < 2 ^ 32 }
        ensures { result ≡ nat_le ((place_of self.now).end + block_length self.now + bytes) (place_of self.now).size }
    {
        self.end + self.block.len() as u64 + 1 + bytes <= self.size
    }

    /// Adds a mutation to those that the next commit takes.
    pub fn push(&mut self, mutation: &Mutation)
        requires mutation { IsOfATable mutation.now }
        requires reserved { IsReserved self.old mutation.now }
        requires room { (place_of self.old).end + block_length self.old + record_length mutation.now ≤ (place_of self.old).size }
        ensures place { place_of self.new ≡ place_of self.old }
        ensures pushed { (pushed : List MutationOf) → HasPushed self.old pushed → HasPushed self.new (pushed ++ mutation.now ∷ []) }
        ensures long { block_length self.new ≡ block_length self.old + record_length mutation.now }
    {
        records_are_exact();
        add_record(&mut self.block, mutation, self.count + 1);
        self.count += 1;
    }

    /// Commits what is pushed, in four calls of the folder. Of what a crash leaves at any moment,
    /// the mutations are those committed before, with the pushed ones or without; after Ok they are
    /// there. After a fault what was pushed stays pushed.
    pub fn commit<F: Folder>(
        &mut self,
        folder: &mut F,
        first: &mut Option<First>,
    ) -> Result<(), LogFault>
        ensures committed { (committed pushed : List MutationOf) → Stands (place_of self.old) (F.disk folder.old) committed → HasPushed self.old pushed
            → OnOk result (Stands (place_of self.new) (F.disk folder.new) (committed ++ pushed)) }
        ensures pushed { (pushed : List MutationOf) → HasPushed self.old pushed
            → MatchResult result (λ _. HasPushed self.new []) (λ _. HasPushed self.new pushed) }
        ensures during { (committed pushed : List MutationOf) → Stands (place_of self.old) (F.disk folder.old) committed → HasPushed self.old pushed
            → During (Changed (Name.Log ((place_of self.old).number)) (λ _ file. MayHave ((place_of self.old).number) committed pushed file))
            (F.disk folder.old) (F.disk folder.new) }
        ensures others { During (Changed (Name.Log ((place_of self.old).number)) MayBeAnything) (F.disk folder.old) (F.disk folder.new) }
        ensures number { (place_of self.new).number ≡ (place_of self.old).number }
        ensures size { (place_of self.new).size ≡ (place_of self.old).size }
        ensures outcome { Ends first.old first.new (F.faults_of folder.old) (F.faults_of folder.new) result }
        ensures idle { HasPushed self.old [] → During Same (F.disk folder.old) (F.disk folder.new) }
        ensures reserved { (m : MutationOf) → IsReserved self.old m → IsReserved self.new m }
        ensures no_memory { result ≢ Err LogFault.Mem }
        ensures count { F.faults_of folder.old ≤ F.faults_of folder.new }
    {
        if let Some(kept) = first {
            return Err(LogFault::Stopped(*kept));
        }
        if self.count == 0 {
            return Ok(());
        }
        match write_gated(folder, Name::Log(self.number), self.end, &self.block) {
            Ok(()) => {
                self.settle();
                Ok(())
            }
            Err(Failed) => {
                *first = Some(First {
                    number: folder.faults(),
                });
                Err(LogFault::Failed)
            }
        }
    }
}
