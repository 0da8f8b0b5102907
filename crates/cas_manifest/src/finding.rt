//! What a folder has: the bytes of its manifest, and whether other files of a store are there.

ghost use Rattle.std.specs.Prelude.{◌≡◌, true, false, Some, is_some, IfOk, IsErrOf};
ghost use Rattle.std.specs.List.{list_any};
ghost use Rattle.cas_disk.specs.Counts.{Counted};
ghost use Rattle.cas_disk.specs.Disk.{Image, During, Follows, Same, IsListing, IsKept};
ghost use Rattle.cas_disk.specs.Names.{same_name};
ghost use Rattle.cas_manifest.specs.Loading.{is_beside, IsBare, HasOthers};

use cas_disk::{Entry, Folder, FolderFault, Name, same_name};
use cas_files::read_file;
use std::alloc::Global;

/// The bytes of the manifest's file, which is there. They last.
pub(crate) fn lasting_bytes<F: Folder>(
    alloc: Global,
    folder: &mut F,
) -> Result<Vec<u8>, FolderFault>
    requires { (c : Image) → (F.disk folder.old).reads c → is_some (c Name.Manifest) ≡ true }
    ensures kept { IfOk result (λ v. IsKept Name.Manifest v.items (F.disk folder.new)) }
    ensures read { IfOk result (λ v. (c : Image) → (F.disk folder.old).reads c → c Name.Manifest ≡ Some v.items) }
    ensures reads { Follows Same (F.disk folder.old).reads (F.disk folder.new).reads }
    ensures during { During Same (F.disk folder.old) (F.disk folder.new) }
    ensures count { Counted (F.faults_of folder.old) (F.faults_of folder.new) (IsErrOf result FolderFault.Failed) }
{
    folder.sync(Name::Manifest)?;
    read_file(alloc, folder, Name::Manifest)
}

// Whether it is a file that stands beside a manifest.
fn is_beside(name: Name) -> bool
    ensures { result ≡ is_beside name }
{
    match name {
        Name::Log(_) | Name::Table(_) => true,
        Name::Manifest | Name::Import(_) => false,
    }
}

// Whether a log or table file is among these.
fn any_beside(files: &[Entry]) -> bool
    ensures { result ≡ list_any (λ e. is_beside e.name) files.now }
{
    files.iter().any(|file| is_beside(file.name))
}

// Whether the manifest is among these.
fn any_manifest(files: &[Entry]) -> bool
    ensures { result ≡ list_any (λ e. same_name e.name Name.Manifest) files.now }
{
    files
        .iter()
        .any(|file| same_name(file.name, Name::Manifest))
}

/// Whether a log or table file is there, by the list of a folder's files.
pub(crate) fn has_others(files: &[Entry]) -> bool
    ensures some { (c : Image) → IsListing c files.now → result ≡ true → HasOthers c }
    ensures none { (c : Image) → IsListing c files.now → result ≡ false → IsBare c }
{
    any_beside(files)
}

/// Whether the manifest is there, by the list of a folder's files.
pub(crate) fn has_manifest(files: &[Entry]) -> bool
    ensures { (c : Image) → IsListing c files.now → result ≡ is_some (c Name.Manifest) }
{
    any_manifest(files)
}
