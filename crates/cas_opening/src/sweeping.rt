//! Removes the files that the manifest doesn't list.

ghost use Rattle.std.specs.Prelude.{◌≡◌, true, false, None, OnOk, IfErr, IsErr, IsErrOf};
ghost use Rattle.cas_disk.specs.declared.name.Name.{Name as NameOf};
ghost use Rattle.cas_disk.specs.Counts.{Counted};
ghost use Rattle.cas_disk.specs.Disk.{Image, During, IsListing};
ghost use Rattle.cas_changes.specs.Saying.{IsSaid, is_listed};
ghost use Rattle.cas_opening.specs.Inner.Faults.{IsOfFolder};
ghost use Rattle.cas_opening.specs.Inner.Sweeping.{stays_of, Sweeps, Spares, HasOnlyListed};

use crate::collecting::listed_tables;
use crate::fault::{OpenFault, of_folder};
use cas_changes::Said;
use cas_disk::{Entry, Folder, Name};
use cas_io::Failed;
use cas_types::Mem;
use std::alloc::Global;

// Whether the number is among these.
fn is_listed(numbers: &[u64], number: u64) -> bool
    ensures { result ≡ is_listed numbers.now number }
{
    numbers.iter().any(|one| *one == number)
}

// Whether a file stays, by the numbers of the listed segments and of the listed tables.
fn stays(name: Name, segments: &[u64], tables: &[u64]) -> bool
    ensures { result ≡ stays_of segments.now tables.now name }
{
    match name {
        Name::Manifest | Name::Import(_) => true,
        Name::Log(number) => is_listed(segments, number),
        Name::Table(number) => is_listed(tables, number),
    }
}

// Removes the files that don't stay, of all that are there.
fn sweep_files<F: Folder>(
    folder: &mut F,
    files: &[Entry],
    segments: &[u64],
    tables: &[u64],
) -> Result<(), Failed>
    requires { (c : Image) → (F.disk folder.old).reads c → IsListing c files.now }
    ensures during { During (Sweeps (stays_of segments.now tables.now)) (F.disk folder.old) (F.disk folder.new) }
    ensures gone { OnOk result ((c : Image) → (F.disk folder.new).reads c → (n : NameOf) → stays_of segments.now tables.now n ≡ false → c n ≡ None) }
    ensures count { Counted (F.faults_of folder.old) (F.faults_of folder.new) (IsErr result) }
{
    for file in files {
        if !stays(file.name, segments, tables) {
            folder.remove(file.name)?;
        }
    }
    Ok(())
}

/// Removes the segments and tables that aren't listed, and makes it last that no such segment is there.
pub(crate) fn sweep<F: Folder>(alloc: Global, folder: &mut F, said: &Said) -> Result<(), OpenFault>
    requires { IsSaid said.now }
    ensures during { During (Spares said.now) (F.disk folder.old) (F.disk folder.new) }
    ensures gone { OnOk result (HasOnlyListed said.now.segments (F.disk folder.new)) }
    ensures why { IfErr result (λ f. IsOfFolder f) }
    ensures count { Counted (F.faults_of folder.old) (F.faults_of folder.new) (IsErrOf result OpenFault.Failed) }
{
    let tables = match listed_tables(alloc, said) {
        Ok(tables) => tables,
        Err(Mem) => return Err(OpenFault::Mem),
    };
    let files = match folder.list() {
        Ok(files) => files,
        Err(fault) => return Err(of_folder(fault)),
    };
    if let Err(Failed) = sweep_files(folder, &files, said.segments(), &tables) {
        return Err(OpenFault::Failed);
    }
    match folder.sync(Name::Manifest) {
        Ok(()) => Ok(()),
        Err(Failed) => Err(OpenFault::Failed),
    }
}
