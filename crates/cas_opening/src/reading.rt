//! Reads the store of a folder: its manifest, and the segments that it lists.

ghost use Rattle.std.specs.Prelude.{◌≡◌, ◌++◌, List, length, filter, OnOk, IfOk, IfErr, IsErrOf};
ghost use Rattle.cas_types.specs.Limits.{IsShardCount};
ghost use Rattle.cas_disk.specs.Counts.{Counted};
ghost use Rattle.cas_disk.specs.Disk.{Image, During, Follows, Changed, Same};
ghost use Rattle.cas_atoms.specs.declared.atom.Mutation.{Mutation as MutationOf};
ghost use Rattle.cas_changes.specs.declared.entry.Entry.{Entry as EntryOf};
ghost use Rattle.cas_changes.specs.Saying.{IsSaid, nothing, said_by};
ghost use Rattle.cas_manifest.specs.File.{MayFollow};
ghost use Rattle.cas_manifest.specs.Manifests.{place_of};
ghost use Rattle.cas_manifest.specs.Loading.{IsNew, MayBeNewStore};
ghost use Rattle.cas_replay.specs.Replays.{IsReplayOf, Last};
ghost use Rattle.cas_journal.specs.Notes.{HasSpace};
ghost use Rattle.cas_opening.specs.Opening.{IsOfBytes, OpensAs, Answers};
ghost use Rattle.cas_opening.specs.Inner.Counting.{frontiers_below};
ghost use Rattle.cas_opening.specs.Inner.Reading.{ReplaysSaid, IsWhole, IsRead, FaultGave, AreNotedIn};

use crate::collecting::frontiers;
use crate::fault::{OpenFault, of_loading, of_replay};
use crate::stored::Stored;
use cas_changes::Said;
use cas_disk::{Folder, Name};
use cas_journal::Notes;
use cas_manifest::Manifest;
use cas_replay::{TakesMutations, replay_to};
use cas_types::Mem;
use std::alloc::Global;

// Hands on the mutations of the listed segments that are above their frontiers, and notes them all together with each segment.
fn replay_said<F: Folder, T: TakesMutations>(
    alloc: Global,
    folder: &mut F,
    said: &Said,
    taker: &mut T,
) -> Result<Notes, OpenFault>
    requires { IsSaid said.now }
    ensures exact { (first : List MutationOf) → T.has_taken first taker.old → (c : Image) → (F.disk folder.old).reads c
        → ReplaysSaid (λ given. T.has_taken (first ++ given) taker.new) said.now c result }
    ensures replayed { (first : List MutationOf) → T.has_taken first taker.old → IfOk result (λ notes. (given : List MutationOf)
        × T.has_taken (first ++ given) taker.new
        × (r : IsReplayOf said.now.tables said.now.shards said.now.segments (frontiers_below said.now (length said.now.tables)) (F.disk folder.old) given)
        × AreNotedIn notes said.now r.all) }
    ensures space { IfOk result HasSpace }
    ensures taken { (first : List MutationOf) → T.has_taken first taker.old → (given : List MutationOf) × T.has_taken (first ++ given) taker.new }
    ensures lasts { OnOk result (Last said.now.segments (F.disk folder.new)) }
    ensures reads { Follows Same (F.disk folder.old).reads (F.disk folder.new).reads }
    ensures during { During Same (F.disk folder.old) (F.disk folder.new) }
    ensures count { Counted (F.faults_of folder.old) (F.faults_of folder.new) (IsErrOf result OpenFault.Failed) }
{
    let frontiers = match frontiers(alloc, said) {
        Ok(frontiers) => frontiers,
        Err(Mem) => return Err(OpenFault::Mem),
    };
    match replay_to(
        alloc,
        folder,
        said.segments(),
        said.tables(),
        said.shards(),
        &frontiers,
        taker,
    ) {
        Ok(tops) => match Notes::of(alloc, said.shards(), said.segments(), &tops) {
            Ok(notes) => Ok(notes),
            Err(Mem) => Err(OpenFault::Mem),
        },
        Err(fault) => Err(of_replay(fault)),
    }
}

/// Reads the store of a folder, which is made where there is none, and hands its mutations on. What is read lasts.
pub(crate) fn read_store<F: Folder, T: TakesMutations>(
    alloc: Global,
    folder: &mut F,
    shards: u8,
    taker: &mut T,
) -> Result<Stored, OpenFault>
    requires shards { IsShardCount shards }
    requires taker { (first : List MutationOf) × T.has_taken first taker.old }
    ensures read { (first : List MutationOf) → T.has_taken first taker.old → IfOk result (λ s. (mutations : List MutationOf) × (given : List MutationOf)
        × T.has_taken (first ++ given) taker.new × IsWhole s.entries.items mutations given × AreNotedIn s.notes (said_by s.entries.items) mutations
        × ((c : Image) → (F.disk folder.old).reads c → IsOfBytes c → IsRead shards (place_of s.manifest) s.entries.items mutations c (F.disk folder.new))) }
    ensures gave { (first : List MutationOf) → T.has_taken first taker.old → (c : Image) → (F.disk folder.old).reads c → IsOfBytes c
        → (entries : List EntryOf) (mutations : List MutationOf) → OpensAs shards entries mutations c
        → IfErr result (λ f. (given : List MutationOf) × T.has_taken (first ++ given) taker.new × FaultGave entries mutations given f) }
    ensures said { IfOk result (λ s. s.said ≡ said_by s.entries.items) }
    ensures follow { IfOk result (λ s. MayFollow nothing s.entries.items) }
    ensures space { IfOk result (λ s. HasSpace s.notes) }
    ensures answers { (c : Image) → (F.disk folder.old).reads c → IsOfBytes c → Answers shards c result }
    ensures during { During (Changed Name.Manifest (MayBeNewStore shards)) (F.disk folder.old) (F.disk folder.new) }
    ensures untouched { (c : Image) → (F.disk folder.old).reads c → (IsNew c → ⊥) → During Same (F.disk folder.old) (F.disk folder.new) }
    ensures count { Counted (F.faults_of folder.old) (F.faults_of folder.new) (IsErrOf result OpenFault.Failed) }
{
    let (manifest, said, entries) = match Manifest::load(alloc, folder, shards) {
        Ok(loaded) => loaded,
        Err(fault) => return Err(of_loading(fault)),
    };
    match replay_said(alloc, folder, &said, taker) {
        Ok(notes) => Ok(Stored {
            manifest,
            said,
            entries,
            notes,
        }),
        Err(fault) => Err(fault),
    }
}
