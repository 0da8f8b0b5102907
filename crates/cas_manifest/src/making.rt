//! Makes a store where none is: its manifest, and the number of its shards as the first entry.

ghost use Rattle.std.specs.Prelude.{◌≡◌, ◌≤◌, ◌+◌, false, None, Some, [], ◌∷◌, OnOk, IfOk, IfErr, IsErrOf};
ghost use Rattle.cas_types.specs.Limits.{IsShardCount};
ghost use Rattle.cas_disk.specs.Counts.{Counted};
ghost use Rattle.cas_disk.specs.Disk.{Image, During, Changed, IsKept};
ghost use Rattle.cas_changes.specs.declared.said.TheConstants.{FILE_LIMIT};
ghost use Rattle.cas_changes.specs.Saying.{said_by};
ghost use Rattle.cas_manifest.specs.Manifests.{place_of, Stands, MayBegin, MayHave, is_made};
ghost use Rattle.cas_manifest.specs.Loading.{first_entry, first_entries};
ghost use Rattle.cas_manifest.specs.Inner.Making.{MayStayShut, StandsShut, IsFound, IsFolderFault};

use crate::fault::ManifestFault;
use crate::manifest::Manifest;
use cas_changes::{Entry, Said};
use cas_disk::{Folder, FolderFault, Name, put};
use cas_gates::write_gated;
use cas_types::Mem;
use std::alloc::Global;

/// What stands behind the file's own gate: a word, and the gate of the first block, closed.
const BEHIND_THE_GATE: [u8; 9] = *b"CASSMAN1\0";

// Creates the file with its own gate, closed.
fn create_shut<F: Folder>(folder: &mut F) -> Result<(), FolderFault>
    requires { (c : Image) → (F.disk folder.old).reads c → c Name.Manifest ≡ None }
    ensures kept { OnOk result (IsKept Name.Manifest (0 ∷ []) (F.disk folder.new)) }
    ensures during { During (Changed Name.Manifest MayStayShut) (F.disk folder.old) (F.disk folder.new) }
    ensures count { Counted (F.faults_of folder.old) (F.faults_of folder.new) (IsErrOf result FolderFault.Failed) }
{
    folder.create(Name::Manifest)?;
    folder.write_at(Name::Manifest, 0, &[0])?;
    folder.sync(Name::Manifest)?;
    Ok(())
}

// Closes the own gate of a file that isn't a manifest yet: one of two bytes or more has it closed.
fn shut_over<F: Folder>(folder: &mut F, file: &[u8]) -> Result<(), FolderFault>
    requires unmade { is_made (Some file.now) ≡ false }
    requires kept { IsKept Name.Manifest file.now (F.disk folder.old) }
    ensures shut { OnOk result (StandsShut (F.disk folder.new)) }
    ensures during { During (Changed Name.Manifest MayStayShut) (F.disk folder.old) (F.disk folder.new) }
    ensures count { Counted (F.faults_of folder.old) (F.faults_of folder.new) (IsErrOf result FolderFault.Failed) }
{
    if file.len() >= 2 {
        return Ok(());
    }
    put(folder, Name::Manifest, 0, &[0])?;
    Ok(())
}

// Makes a file whose own gate is closed, where there is none or one that isn't a manifest yet.
fn shut<F: Folder>(folder: &mut F, there: bool, file: &[u8]) -> Result<(), FolderFault>
    requires unmade { is_made (Some file.now) ≡ false }
    requires found { IsFound there file.now (F.disk folder.old) }
    ensures shut { OnOk result (StandsShut (F.disk folder.new)) }
    ensures during { During (Changed Name.Manifest MayStayShut) (F.disk folder.old) (F.disk folder.new) }
    ensures count { Counted (F.faults_of folder.old) (F.faults_of folder.new) (IsErrOf result FolderFault.Failed) }
{
    if there {
        return shut_over(folder, file);
    }
    create_shut(folder)
}

/// Makes the manifest without entries, where what was found is no manifest yet.
pub(crate) fn make_empty<F: Folder>(
    folder: &mut F,
    there: bool,
    file: &[u8],
) -> Result<Manifest, FolderFault>
    requires unmade { is_made (Some file.now) ≡ false }
    requires found { IsFound there file.now (F.disk folder.old) }
    ensures stands { IfOk result (λ m. Stands (place_of m) (F.disk folder.new) []) }
    ensures begins { IfOk result (λ m. m.end ≡ 9) }
    ensures during { During (Changed Name.Manifest MayBegin) (F.disk folder.old) (F.disk folder.new) }
    ensures count { Counted (F.faults_of folder.old) (F.faults_of folder.new) (IsErrOf result FolderFault.Failed) }
{
    shut(folder, there, file)?;
    write_gated(folder, Name::Manifest, 0, &BEHIND_THE_GATE)?;
    Ok(Manifest { end: 9, listed: 0 })
}

/// A manifest without entries gets its first: how many shards the store has.
pub(crate) fn begin_store<F: Folder>(
    alloc: Global,
    folder: &mut F,
    mut manifest: Manifest,
    shards: u8,
) -> Result<(Manifest, Said, Vec<Entry>), ManifestFault>
    requires shards { IsShardCount shards }
    requires stands { Stands (place_of manifest) (F.disk folder.old) [] }
    requires room { manifest.end + 12 ≤ FILE_LIMIT }
    ensures stands { IfOk result (λ m. Stands (place_of m.0) (F.disk folder.new) m.2.items) }
    ensures first { IfOk result (λ m. (m.1 ≡ said_by m.2.items) × (m.2.items ≡ first_entries shards)) }
    ensures during { During (Changed Name.Manifest (λ _ file. MayHave [] (first_entry shards) file)) (F.disk folder.old) (F.disk folder.new) }
    ensures count { Counted (F.faults_of folder.old) (F.faults_of folder.new) (IsErrOf result ManifestFault.Failed) }
    ensures why { IfErr result (λ f. IsFolderFault f) }
{
    let mut said = Said::nothing(alloc);
    if let Err(Mem) = said.take(alloc, &Entry::Store { shards }) {
        return Err(ManifestFault::Mem);
    }
    let mut entries = Vec::new(alloc);
    entries.push(Entry::Store { shards })?;
    let mut first = None;
    match manifest.append(alloc, folder, &mut first, &Entry::Store { shards }) {
        Ok(()) => Ok((manifest, said, entries)),
        Err(fault) => Err(fault),
    }
}
