//! Loads the manifest of a folder, or makes a store there.

ghost use Rattle.std.specs.Prelude.{◌≡◌, ◌≢◌, true, false, [], Some, IfOk, IfErr, IsErrOf};
ghost use Rattle.cas_types.specs.Limits.{IsShardCount};
ghost use Rattle.cas_disk.specs.Counts.{Counted};
ghost use Rattle.cas_disk.specs.Disk.{Image, During, Follows, Changed, Same, IsKept};
ghost use Rattle.cas_changes.specs.Saying.{said_by};
ghost use Rattle.cas_manifest.specs.Manifests.{place_of, Stands, is_made};
ghost use Rattle.cas_manifest.specs.Loading.{Loads, IsNew, IsEmpty, MayBeNewStore, EndsLoading};
ghost use Rattle.cas_manifest.specs.Reading.{manifest_of};
ghost use Rattle.cas_manifest.specs.Reads.{Reads, IsRead};
ghost use Rattle.cas_manifest.specs.Inner.Loading.{LoadsMade, LoadsUnmade, LoadsFound, MayMake};
ghost use Rattle.cas_manifest.specs.Inner.Making.{IsFound};

use crate::fault::ManifestFault;
use crate::finding::{has_manifest, has_others, lasting_bytes};
use crate::making::{begin_store, make_empty};
use crate::manifest::Manifest;
use crate::reading::read_manifest;
use cas_changes::{Entry, Said};
use cas_disk::{Folder, Name};
use std::alloc::Global;

// Whether a file is a manifest that is made.
fn is_made(file: &[u8]) -> bool
    ensures { result ≡ is_made (Some file.now) }
{
    match file {
        [] => false,
        [_gate] => false,
        [gate, _next, _rest @ ..] => *gate == 1,
    }
}

// What is read of a manifest that is made.
fn read_made(alloc: Global, file: &[u8]) -> Result<(Manifest, Said, Vec<Entry>), ManifestFault>
    ensures exact { Reads (λ m. ((m.1, m.2.items), m.0.end)) result (manifest_of file.now) }
    ensures found { IfOk result (λ m. IsRead (m.1, m.2.items) m.0.end file.now) }
    ensures listed { IfOk result (λ m. m.1.listed ≡ m.0.listed) }
{
    match read_manifest(alloc, file) {
        Ok((said, entries, end)) => {
            let listed = said.listed_count();
            Ok((Manifest { end, listed }, said, entries))
        }
        Err(fault) => Err(fault),
    }
}

// Makes a store where no manifest is made, unless there are other files of one.
fn make_store<F: Folder>(
    alloc: Global,
    folder: &mut F,
    there: bool,
    file: &[u8],
    others: bool,
    shards: u8,
) -> Result<(Manifest, Said, Vec<Entry>), ManifestFault>
    requires shards { IsShardCount shards }
    requires unmade { is_made (Some file.now) ≡ false }
    requires found { IsFound there file.now (F.disk folder.old) }
    ensures loads { LoadsUnmade (λ m. (m.1, m.2.items)) shards others result }
    ensures stands { IfOk result (λ m. Stands (place_of m.0) (F.disk folder.new) m.2.items) }
    ensures said { IfOk result (λ m. m.1 ≡ said_by m.2.items) }
    ensures during { During (Changed Name.Manifest (MayBeNewStore shards)) (F.disk folder.old) (F.disk folder.new) }
    ensures untouched { others ≡ true → During Same (F.disk folder.old) (F.disk folder.new) }
    ensures reads { others ≡ true → Follows Same (F.disk folder.old).reads (F.disk folder.new).reads }
    ensures count { Counted (F.faults_of folder.old) (F.faults_of folder.new) (IsErrOf result ManifestFault.Failed) }
    ensures why { IfErr result (λ f. EndsLoading f) }
{
    if others {
        return Err(ManifestFault::Bad { at: 0 });
    }
    let manifest = make_empty(folder, there, file)?;
    begin_store(alloc, folder, manifest, shards)
}

// Loads the store of a manifest that is made: one without entries gets its first.
fn load_made<F: Folder>(
    alloc: Global,
    folder: &mut F,
    file: &[u8],
    shards: u8,
) -> Result<(Manifest, Said, Vec<Entry>), ManifestFault>
    requires shards { IsShardCount shards }
    requires kept { IsKept Name.Manifest file.now (F.disk folder.old) }
    ensures loads { LoadsMade (λ m. (m.1, m.2.items)) shards file.now result }
    ensures stands { IfOk result (λ m. Stands (place_of m.0) (F.disk folder.new) m.2.items) }
    ensures said { IfOk result (λ m. m.1 ≡ said_by m.2.items) }
    ensures during { During (Changed Name.Manifest (MayBeNewStore shards)) (F.disk folder.old) (F.disk folder.new) }
    ensures untouched { (IsEmpty file.now → ⊥) → During Same (F.disk folder.old) (F.disk folder.new) }
    ensures reads { (IsEmpty file.now → ⊥) → Follows Same (F.disk folder.old).reads (F.disk folder.new).reads }
    ensures count { Counted (F.faults_of folder.old) (F.faults_of folder.new) (IsErrOf result ManifestFault.Failed) }
    ensures why { IfErr result (λ f. EndsLoading f) }
{
    let (manifest, said, entries) = match read_made(alloc, file) {
        Ok(read) => read,
        Err(fault) => return Err(fault),
    };
    if !entries.is_empty() {
        return Ok((manifest, said, entries));
    }
    begin_store(alloc, folder, manifest, shards)
}

// Loads the store of a manifest's file, or makes one in its place where it isn't made.
fn load_file<F: Folder>(
    alloc: Global,
    folder: &mut F,
    file: &[u8],
    others: bool,
    shards: u8,
) -> Result<(Manifest, Said, Vec<Entry>), ManifestFault>
    requires shards { IsShardCount shards }
    requires kept { IsKept Name.Manifest file.now (F.disk folder.old) }
    ensures loads { LoadsFound (λ m. (m.1, m.2.items)) shards (Some file.now) others result }
    ensures stands { IfOk result (λ m. Stands (place_of m.0) (F.disk folder.new) m.2.items) }
    ensures said { IfOk result (λ m. m.1 ≡ said_by m.2.items) }
    ensures during { During (Changed Name.Manifest (MayBeNewStore shards)) (F.disk folder.old) (F.disk folder.new) }
    ensures untouched { (MayMake (Some file.now) others → ⊥) → During Same (F.disk folder.old) (F.disk folder.new) }
    ensures reads { (MayMake (Some file.now) others → ⊥) → Follows Same (F.disk folder.old).reads (F.disk folder.new).reads }
    ensures count { Counted (F.faults_of folder.old) (F.faults_of folder.new) (IsErrOf result ManifestFault.Failed) }
    ensures why { IfErr result (λ f. EndsLoading f) }
{
    if is_made(file) {
        return load_made(alloc, folder, file, shards);
    }
    make_store(alloc, folder, true, file, others, shards)
}

impl Manifest {
    /// Loads the store of a folder: its manifest, to which entries may be appended, what these say
    /// together, and the entries. Where there is none yet, makes one of so many shards; but not beside
    /// log or table files, whose manifest is lost: then the manifest is bad at 0.
    pub fn load<F: Folder>(
        alloc: Global,
        folder: &mut F,
        shards: u8,
    ) -> Result<(Manifest, Said, Vec<Entry>), ManifestFault>
        requires { IsShardCount shards }
        ensures loads { (c : Image) → (F.disk folder.old).reads c → Loads (λ m. (m.1, m.2.items)) shards c result }
        ensures stands { IfOk result (λ m. Stands (place_of m.0) (F.disk folder.new) m.2.items) }
        ensures said { IfOk result (λ m. m.1 ≡ said_by m.2.items) }
        ensures made { IfOk result (λ m. m.2.items ≢ []) }
        ensures during { During (Changed Name.Manifest (MayBeNewStore shards)) (F.disk folder.old) (F.disk folder.new) }
        ensures untouched { (c : Image) → (F.disk folder.old).reads c → (IsNew c → ⊥) → During Same (F.disk folder.old) (F.disk folder.new) }
        ensures reads { (c : Image) → (F.disk folder.old).reads c → (IsNew c → ⊥) → Follows Same (F.disk folder.old).reads (F.disk folder.new).reads }
        ensures count { Counted (F.faults_of folder.old) (F.faults_of folder.new) (IsErrOf result ManifestFault.Failed) }
        ensures why { IfErr result (λ f. EndsLoading f) }
    {
        let files = folder.list()?;
        let others = has_others(&files);
        if has_manifest(&files) {
            let file = lasting_bytes(alloc, folder)?;
            return load_file(alloc, folder, &file, others, shards);
        }
        make_store(alloc, folder, false, &[], others, shards)
    }
}
