//! Opens the store of a folder, or makes one.

ghost use Rattle.std.specs.Prelude.{◌≡◌, ◌++◌, List, None, IfOk, IfErr, IsErrOf};
ghost use Rattle.cas_types.specs.Limits.{IsShardCount};
ghost use Rattle.cas_disk.specs.Counts.{Counted};
ghost use Rattle.cas_disk.specs.Disk.{Image, During, Same};
ghost use Rattle.cas_atoms.specs.declared.atom.Mutation.{Mutation as MutationOf};
ghost use Rattle.cas_changes.specs.declared.entry.Entry.{Entry as EntryOf};
ghost use Rattle.cas_changes.specs.Saying.{nothing, said_by};
ghost use Rattle.cas_log.specs.Segment.{IsSize};
ghost use Rattle.cas_manifest.specs.File.{MayFollow};
ghost use Rattle.cas_manifest.specs.Loading.{IsNew};
ghost use Rattle.cas_manifest.specs.Manifests.{place_of};
ghost use Rattle.cas_journal.specs.Stores.{IsStore};
ghost use Rattle.cas_journal.specs.Notes.{HasSpace};
ghost use Rattle.cas_journal.specs.Journals.{AreFree};
ghost use Rattle.cas_opening.specs.Opening.{IsOfBytes, OpensAs, Answers, Ends, EndsWith, HasStayed, IsReadAs, IsReadWith, MayBeOpened, MayBeMadeNew};
ghost use Rattle.cas_opening.specs.Inner.Faults.{IsOfFolder};
ghost use Rattle.cas_opening.specs.Inner.Keeping.{Keeps};
ghost use Rattle.cas_opening.specs.Inner.Reading.{AreNotedIn};
ghost use Rattle.cas_opening.specs.Inner.Naming.{IsBegunWith, IsToldOf};

use crate::fault::OpenFault;
use crate::naming::begin;
use crate::opened::{OpenStore, Opened};
use crate::reading::read_store;
use crate::stored::Stored;
use crate::sweeping::sweep;
use cas_disk::Folder;
use cas_replay::TakesMutations;
use std::alloc::Global;

// Opens a store that was read: removes what isn't listed, and begins the segment that is written.
fn open_stored<F: Folder>(
    alloc: Global,
    folder: &mut F,
    stored: Stored,
    size: u64,
) -> Result<OpenStore, OpenFault>
    requires size { IsSize size }
    requires said { stored.said ≡ said_by stored.entries.items }
    requires follow { MayFollow nothing stored.entries.items }
    requires space { HasSpace stored.notes }
    ensures opened { (mutations : List MutationOf) → Keeps (place_of stored.manifest) stored.entries.items mutations (F.disk folder.old)
        → AreNotedIn stored.notes (said_by stored.entries.items) mutations
        → IfOk result (λ o. IsBegunWith stored.entries.items mutations o.journal o.said (F.disk folder.new)) }
    ensures told { IfOk result (λ o. IsToldOf stored.entries.items o.journal o.said) }
    ensures free { IfOk result (λ o. AreFree o.journal (F.disk folder.new)) }
    ensures runs { IfOk result (λ o. (o.journal.first ≡ None) × (o.journal.size ≡ size)) }
    ensures during { (mutations : List MutationOf) → Keeps (place_of stored.manifest) stored.entries.items mutations (F.disk folder.old)
        → During (HasStayed stored.entries.items mutations) (F.disk folder.old) (F.disk folder.new) }
    ensures why { IfErr result (λ f. IsOfFolder f) }
    ensures count { Counted (F.faults_of folder.old) (F.faults_of folder.new) (IsErrOf result OpenFault.Failed) }
{
    if let Err(fault) = sweep(alloc, folder, &stored.said) {
        return Err(fault);
    }
    match begin(
        alloc,
        folder,
        stored.manifest,
        stored.said,
        size,
        stored.notes,
    ) {
        Ok((journal, said)) => Ok(OpenStore { journal, said }),
        Err(fault) => Err(fault),
    }
}

/// Opens the store that a folder has, or makes one of so many shards where there is none yet, so that
/// it can be written on, in segments of so many bytes, and hands on the mutations of its log that stand in no
/// table file, each as it is read. What is read lasts: the manifest and the listed segments are synced before
/// they are read. Segments and tables that aren't listed are removed, and a new segment is begun and named.
pub fn open_to<F: Folder, T: TakesMutations>(
    alloc: Global,
    folder: &mut F,
    shards: u8,
    size: u64,
    taker: &mut T,
) -> Result<OpenStore, OpenFault>
    requires shards { IsShardCount shards }
    requires size { IsSize size }
    requires taker { (first : List MutationOf) × T.has_taken first taker.old }
    ensures opens { (first : List MutationOf) → T.has_taken first taker.old → (c : Image) → (F.disk folder.old).reads c → IsOfBytes c
        → (entries : List EntryOf) (mutations : List MutationOf) → OpensAs shards entries mutations c
        → (given : List MutationOf) × T.has_taken (first ++ given) taker.new × EndsWith entries mutations given (F.disk folder.new) result }
    // What is opened is a store's, also where the folder tells nothing of what it reads.
    ensures read { (first : List MutationOf) → T.has_taken first taker.old → IfOk result (λ o. (entries : List EntryOf) × (mutations : List MutationOf)
        × (given : List MutationOf) × T.has_taken (first ++ given) taker.new × IsReadWith entries mutations given o.journal o.said
        × ((c : Image) → (F.disk folder.old).reads c → IsOfBytes c → OpensAs shards entries mutations c)) }
    ensures answers { (c : Image) → (F.disk folder.old).reads c → IsOfBytes c → Answers shards c result }
    ensures free { IfOk result (λ o. AreFree o.journal (F.disk folder.new)) }
    ensures runs { IfOk result (λ o. (o.journal.first ≡ None) × (o.journal.size ≡ size)) }
    // A crash at any moment leaves what was there before, or the store that was there.
    ensures stays { (c : Image) → (F.disk folder.old).reads c → IsOfBytes c → (entries : List EntryOf) (mutations : List MutationOf)
        → IsStore entries mutations c → During (MayBeOpened entries mutations) (F.disk folder.old) (F.disk folder.new) }
    ensures made { (c : Image) → (F.disk folder.old).reads c → IsOfBytes c → IsNew c → During (MayBeMadeNew shards) (F.disk folder.old) (F.disk folder.new) }
    ensures untouched { (c : Image) → (F.disk folder.old).reads c → IsOfBytes c → (IsNew c → ⊥)
        → ((entries : List EntryOf) (mutations : List MutationOf) → IsStore entries mutations c → ⊥) → During Same (F.disk folder.old) (F.disk folder.new) }
    ensures count { Counted (F.faults_of folder.old) (F.faults_of folder.new) (IsErrOf result OpenFault.Failed) }
{
    match read_store(alloc, folder, shards, taker) {
        Ok(stored) => open_stored(alloc, folder, stored, size),
        Err(fault) => Err(fault),
    }
}

/// The same where all mutations are wanted at once.
pub fn open<F: Folder>(
    alloc: Global,
    folder: &mut F,
    shards: u8,
    size: u64,
) -> Result<Opened, OpenFault>
    requires shards { IsShardCount shards }
    requires size { IsSize size }
    ensures opens { (c : Image) → (F.disk folder.old).reads c → IsOfBytes c → (entries : List EntryOf) (mutations : List MutationOf)
        → OpensAs shards entries mutations c → Ends entries mutations (F.disk folder.new) result }
    // What is opened is a store's, also where the folder tells nothing of what it reads.
    ensures read { IfOk result (λ o. (entries : List EntryOf) × (mutations : List MutationOf) × IsReadAs entries mutations o
        × ((c : Image) → (F.disk folder.old).reads c → IsOfBytes c → OpensAs shards entries mutations c)) }
    ensures answers { (c : Image) → (F.disk folder.old).reads c → IsOfBytes c → Answers shards c result }
    ensures free { IfOk result (λ o. AreFree o.journal (F.disk folder.new)) }
    ensures runs { IfOk result (λ o. (o.journal.first ≡ None) × (o.journal.size ≡ size)) }
    // A crash at any moment leaves what was there before, or the store that was there.
    ensures stays { (c : Image) → (F.disk folder.old).reads c → IsOfBytes c → (entries : List EntryOf) (mutations : List MutationOf)
        → IsStore entries mutations c → During (MayBeOpened entries mutations) (F.disk folder.old) (F.disk folder.new) }
    ensures made { (c : Image) → (F.disk folder.old).reads c → IsOfBytes c → IsNew c → During (MayBeMadeNew shards) (F.disk folder.old) (F.disk folder.new) }
    ensures untouched { (c : Image) → (F.disk folder.old).reads c → IsOfBytes c → (IsNew c → ⊥)
        → ((entries : List EntryOf) (mutations : List MutationOf) → IsStore entries mutations c → ⊥) → During Same (F.disk folder.old) (F.disk folder.new) }
    ensures count { Counted (F.faults_of folder.old) (F.faults_of folder.new) (IsErrOf result OpenFault.Failed) }
{
    let mut mutations = Vec::new(alloc);
    match open_to(alloc, folder, shards, size, &mut mutations) {
        Ok(store) => Ok(Opened {
            journal: store.journal,
            said: store.said,
            mutations,
        }),
        Err(fault) => Err(fault),
    }
}
