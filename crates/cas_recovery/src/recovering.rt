//! Reads the store of a folder back into memory: its tables, its shards with what the log and the table files
//! have of them, and its journal.

ghost use Rattle.std.specs.Prelude.{◌≡◌, ◌≤◌, ℕ, List, [], ◌∷◌, ◌++◌, length, IfOk, IfErr, IsErrOf, None};
ghost use Rattle.cas_types.specs.Limits.{IsShardCount};
ghost use Rattle.cas_disk.specs.Counts.{Counted};
ghost use Rattle.cas_disk.specs.Disk.{Disk, Image, During, Same};
ghost use Rattle.cas_atoms.specs.declared.atom.Mutation.{Mutation as MutationOf};
ghost use Rattle.cas_changes.specs.Saying.{frontiers_in};
ghost use Rattle.cas_changes.specs.declared.entry.Entry.{Entry as EntryOf};
ghost use Rattle.cas_log.specs.Segment.{IsSize};
ghost use Rattle.cas_manifest.specs.Loading.{IsNew};
ghost use Rattle.cas_journal.specs.Journals.{AreFree};
ghost use Rattle.cas_journal.specs.Stores.{IsStore};
ghost use Rattle.cas_opening.specs.Opening.{IsOfBytes, IsReadWith, MayBeMadeNew, MayBeOpened};
ghost use Rattle.cas_recovery.specs.Recovered.{IsRecovered, IsUnreadable};
ghost use Rattle.cas_recovery.specs.Restored.{MayBeRead, greatest_of};
ghost use Rattle.cas_recovery.specs.Inner.Filling.{IsBadOfShard, IsBroughtBack, IsWithin};
ghost use Rattle.cas_recovery.specs.Inner.Restoring.{HasRestored};

use crate::all_shards::{AllShards, Restoring};
use crate::fault::{RecoveryFault, of_opening};
use crate::filling::fill_shards;
use crate::memory::{Started, copied, greatest_of, restored, with_shards};
use cas_bind::Limits;
use cas_disk::{Count, Folder};
use cas_opening::{OpenStore, open_to};
use cas_types::Mem;
use std::alloc::Global;

// The store in memory, of an opening that handed on the mutations of its log.
fn brought_back<F: Folder>(
    alloc: Global,
    folder: &mut F,
    limits: &Limits,
    opened: OpenStore,
    restoring: Restoring<F::Sealed>,
    tally: &mut F::Tally,
) -> Result<Started<F::Sealed>, RecoveryFault>
    requires within { IsWithin opened.said }
    ensures back { (given : List MutationOf) → HasRestored given restoring.shards
        → IfOk result (λ s. IsBroughtBack limits.now given opened.said (F.disk folder.old) s.limits s.tables.items s.shards.items) }
    ensures journal { IfOk result (λ s. s.journal ≡ opened.journal) }
    ensures files { IfOk result (λ s. (s.last_file ≡ greatest_of opened.said.numbers) × (s.live ≡ opened.said.listed)
        × (s.frontiers.items ≡ frontiers_in opened.said)) }
    ensures bad { IfErr result (λ f. (c : Image) → (F.disk folder.old).reads c → IsBadOfShard opened.said c f) }
    ensures during { During Same (F.disk folder.old) (F.disk folder.new) }
    ensures count { Counted (F.faults_of folder.old) (F.faults_of folder.new) (IsErrOf result RecoveryFault.Failed) }
    ensures read { Counted (F.Tally.number tally.old) (F.Tally.number tally.new) (IsErrOf result RecoveryFault.Read) }
{
    let OpenStore { journal, said } = opened;
    let tables = copied(alloc, said.tables())?;
    let frontiers = said.frontiers(alloc)?;
    let mut shards = restored(restoring, said.shards())?;
    if let Err(fault) = fill_shards(alloc, folder, &said, &mut shards, tally) {
        return Err(fault);
    }
    Ok(Started {
        limits: with_shards(limits, said.shards()),
        tables,
        shards,
        frontiers,
        last_file: greatest_of(said.numbers()),
        live: said.listed_count(),
        journal,
    })
}

/// Reads the store of a folder back into memory, or makes one where it has none yet: then it gets so many shards.
/// What a crash left is made to last first. The listed table files are loaded, and stay in the folder.
pub fn recover<F: Folder>(
    alloc: Global,
    folder: &mut F,
    limits: &Limits,
    tally: &mut F::Tally,
) -> Result<Started<F::Sealed>, RecoveryFault>
    requires shards { IsShardCount limits.now.shards }
    requires size { IsSize limits.now.segment }
    ensures recovered { IfOk result (λ s. IsRecovered limits.now s.limits s.tables.items s.shards.items s.frontiers.items s.last_file
        s.live s.journal (F.disk folder.old) (F.disk folder.new)) }
    ensures readable { IfOk result (λ s. MayBeRead s.tables.items s.shards.items) }
    ensures runs { IfOk result (λ s. (s.journal.first ≡ None) × (s.journal.size ≡ limits.now.segment) × AreFree s.journal (F.disk folder.new)) }
    ensures refused { (name : _) (at : ℕ) → IsErrOf result (RecoveryFault.Bad name at) → (c : Image) → (F.disk folder.old).reads c → IsOfBytes c
        → IsUnreadable limits.now.shards (F.disk folder.old) name at c }
    ensures stays { (c : Image) → (F.disk folder.old).reads c → IsOfBytes c → (entries : List EntryOf) (mutations : List MutationOf)
        → IsStore entries mutations c → During (MayBeOpened entries mutations) (F.disk folder.old) (F.disk folder.new) }
    ensures made { (c : Image) → (F.disk folder.old).reads c → IsOfBytes c → IsNew c
        → During (MayBeMadeNew limits.now.shards) (F.disk folder.old) (F.disk folder.new) }
    ensures untouched { (c : Image) → (F.disk folder.old).reads c → IsOfBytes c → (IsNew c → ⊥)
        → ((entries : List EntryOf) (mutations : List MutationOf) → IsStore entries mutations c → ⊥) → During Same (F.disk folder.old) (F.disk folder.new) }
    ensures count { Counted (F.faults_of folder.old) (F.faults_of folder.new) (IsErrOf result RecoveryFault.Failed) }
    ensures read { Counted (F.Tally.number tally.old) (F.Tally.number tally.new) (IsErrOf result RecoveryFault.Read) }
{
    let all = match AllShards::new(alloc) {
        Ok(all) => all,
        Err(Mem) => return Err(RecoveryFault::Mem),
    };
    let mut restoring = Restoring {
        alloc,
        shards: Some(all),
    };
    let opened = match open_to(alloc, folder, limits.shards, limits.segment, &mut restoring) {
        Ok(opened) => opened,
        Err(fault) => return Err(of_opening(fault)),
    };
    brought_back(alloc, folder, limits, opened, restoring, tally)
}
