//! Begins the segment that is written, and names it.

ghost use Rattle.std.specs.Prelude.{◌≡◌, ◌≤◌, List, ◌∷◌, [], None, IfOk, IfErr, IsErrOf};
ghost use Rattle.cas_disk.specs.Counts.{Counted};
ghost use Rattle.cas_disk.specs.Disk.{Image, During, Changed, MayBeAnything};
ghost use Rattle.cas_atoms.specs.declared.atom.Mutation.{Mutation as MutationOf};
ghost use Rattle.cas_changes.specs.declared.entry.Entry.{Entry as EntryOf};
ghost use Rattle.cas_changes.specs.declared.entry.Entry.TheVariants.{NewSegment};
ghost use Rattle.cas_changes.specs.declared.said.TheConstants.{SEGMENT_LIMIT};
ghost use Rattle.cas_changes.specs.Saying.{said_by};
ghost use Rattle.cas_changes.specs.Allowed.{FitsEntry};
ghost use Rattle.cas_log.specs.Segment.{IsSize};
ghost use Rattle.cas_manifest.specs.Manifests.{place_of, Stands, MayHave};
ghost use Rattle.cas_journal.specs.Fresh.{IsFresh};
ghost use Rattle.cas_journal.specs.Notes.{HasSpace};
ghost use Rattle.cas_journal.specs.Journals.{NoneAbove, AreFree};
ghost use Rattle.cas_opening.specs.Opening.{HasStayed};
ghost use Rattle.cas_opening.specs.Inner.Faults.{IsOfFolder};
ghost use Rattle.cas_opening.specs.Inner.Keeping.{Keeps};
ghost use Rattle.cas_opening.specs.Inner.Reading.{AreNotedIn};
ghost use Rattle.cas_opening.specs.Inner.Naming.{HasBegun, IsNamed, IsBegunWith, IsToldOf};

use crate::fault::OpenFault;
use cas_changes::{Entry, SEGMENT_LIMIT, Said};
use cas_disk::{Folder, Name};
use cas_journal::{Journal, Notes};
use cas_log::{Log, LogFault};
use cas_manifest::{Manifest, ManifestFault};
use cas_types::Mem;
use std::alloc::Global;

// Begins a segment under a number that no file has.
fn begin_segment<F: Folder>(
    alloc: Global,
    folder: &mut F,
    number: u64,
    size: u64,
) -> Result<Log, OpenFault>
    requires absent { (c : Image) → (F.disk folder.old).reads c → c (Name.Log number) ≡ None }
    requires allowed { number ≤ SEGMENT_LIMIT }
    requires size { IsSize size }
    ensures fresh { IfOk result (λ log. IsFresh size number log) }
    ensures begun { IfOk result (λ log. HasBegun log (F.disk folder.new)) }
    ensures during { During (Changed (Name.Log number) MayBeAnything) (F.disk folder.old) (F.disk folder.new) }
    ensures why { IfErr result (λ f. IsOfFolder f) }
    ensures count { Counted (F.faults_of folder.old) (F.faults_of folder.new) (IsErrOf result OpenFault.Failed) }
{
    let mut first = None;
    match Log::begin(alloc, folder, &mut first, number, size) {
        Ok(log) => Ok(log),
        Err(LogFault::Mem) => Err(OpenFault::Mem),
        Err(LogFault::Failed) => Err(OpenFault::Failed),
        Err(LogFault::TooLarge { .. } | LogFault::Stopped(_)) => unreachable!(),
    }
}

// Names a segment in the manifest, unless that has no place for it.
fn name_segment<F: Folder>(
    alloc: Global,
    folder: &mut F,
    manifest: &mut Manifest,
    number: u64,
) -> Result<bool, OpenFault>
    ensures named { (entries : List EntryOf) → Stands (place_of manifest.old) (F.disk folder.old) entries → FitsEntry (said_by entries) (NewSegment number)
        → IfOk result (λ is_named. IsNamed entries (NewSegment number) (place_of manifest.old) (place_of manifest.new) (F.disk folder.old)
        (F.disk folder.new) is_named) }
    ensures during { (entries : List EntryOf) → Stands (place_of manifest.old) (F.disk folder.old) entries → FitsEntry (said_by entries) (NewSegment number)
        → During (Changed Name.Manifest (λ _ file. MayHave entries (NewSegment number) file)) (F.disk folder.old) (F.disk folder.new) }
    ensures others { During (Changed Name.Manifest MayBeAnything) (F.disk folder.old) (F.disk folder.new) }
    ensures why { IfErr result (λ f. IsOfFolder f) }
    ensures count { Counted (F.faults_of folder.old) (F.faults_of folder.new) (IsErrOf result OpenFault.Failed) }
{
    let mut first = None;
    match manifest.append(alloc, folder, &mut first, &Entry::NewSegment { number }) {
        Ok(()) => Ok(true),
        Err(ManifestFault::TooMany { .. }) => Ok(false),
        Err(ManifestFault::Mem) => Err(OpenFault::Mem),
        Err(ManifestFault::Failed) => Err(OpenFault::Failed),
        Err(ManifestFault::Stopped(_) | ManifestFault::Bad { .. }) => unreachable!(),
    }
}

/// Begins the next segment and names it, and answers the journal that writes it, with what is noted of the
/// segments. Where no number is left, or the manifest has no place for the name, no segment is written.
pub(crate) fn begin<F: Folder>(
    alloc: Global,
    folder: &mut F,
    mut manifest: Manifest,
    mut said: Said,
    size: u64,
    mut notes: Notes,
) -> Result<(Journal, Said), OpenFault>
    requires size { IsSize size }
    requires none { NoneAbove said.last_segment (F.disk folder.old) }
    requires space { HasSpace notes }
    ensures begun { (entries : List EntryOf) (mutations : List MutationOf) → Keeps (place_of manifest) entries mutations (F.disk folder.old)
        → said ≡ said_by entries → AreNotedIn notes (said_by entries) mutations
        → IfOk result (λ r. IsBegunWith entries mutations r.0 r.1 (F.disk folder.new)) }
    ensures told { (entries : List EntryOf) → said ≡ said_by entries → IfOk result (λ r. IsToldOf entries r.0 r.1) }
    ensures free { IfOk result (λ r. AreFree r.0 (F.disk folder.new)) }
    ensures runs { IfOk result (λ r. (r.0.first ≡ None) × (r.0.size ≡ size)) }
    ensures during { (entries : List EntryOf) (mutations : List MutationOf) → Keeps (place_of manifest) entries mutations (F.disk folder.old)
        → said ≡ said_by entries → During (HasStayed entries mutations) (F.disk folder.old) (F.disk folder.new) }
    ensures why { IfErr result (λ f. IsOfFolder f) }
    ensures count { Counted (F.faults_of folder.old) (F.faults_of folder.new) (IsErrOf result OpenFault.Failed) }
{
    let last = said.last_segment();
    if last >= SEGMENT_LIMIT {
        return Ok((Journal::new(manifest, None, None, last, size, notes), said));
    }
    let number = last + 1;
    let log = match begin_segment(alloc, folder, number, size) {
        Ok(log) => log,
        Err(fault) => return Err(fault),
    };
    let is_named = match name_segment(alloc, folder, &mut manifest, number) {
        Ok(is_named) => is_named,
        Err(fault) => return Err(fault),
    };
    if !is_named {
        let journal = Journal::new(manifest, None, Some(log), number, size, notes);
        return Ok((journal, said));
    }
    if let Err(Mem) = said.take(alloc, &Entry::NewSegment { number }) {
        return Err(OpenFault::Mem);
    }
    notes.begin(alloc, number);
    let journal = Journal::new(manifest, Some(log), None, number, size, notes);
    Ok((journal, said))
}
