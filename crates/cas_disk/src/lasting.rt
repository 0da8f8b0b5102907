//! Files and writes that last.
ghost use Rattle.std.specs.Prelude.{◌≡◌, ◌≤◌, ℕ, List, length, None, OnOk, IsErr, IsErrOf};
ghost use Rattle.cas_disk.specs.Counts.{Counted};
ghost use Rattle.cas_disk.specs.Disk.{Image, During, Changed, MayTear, MayBeAnything, IsKept, put_at};

use crate::fault::FolderFault;
use crate::folder::Folder;
use crate::name::Name;
use cas_io::Failed;

/// Writes, and makes it last.
pub fn put<F: Folder>(folder: &mut F, n: Name, at: u64, bytes: &[u8]) -> Result<(), Failed>
    ensures kept { (file : List ℕ) → at ≤ length file → IsKept n file (F.disk folder.old)
        → OnOk result (IsKept n (put_at at bytes.now file) (F.disk folder.new)) }
    ensures during { During (Changed n (MayTear at (length bytes.now))) (F.disk folder.old) (F.disk folder.new) }
    ensures count { Counted (F.faults_of folder.old) (F.faults_of folder.new) (IsErr result) }
{
    folder.write_at(n, at, bytes)?;
    folder.sync(n)
}

/// Makes a file with these bytes, which lasts. Until it does a crash may leave anything under its name.
pub fn make<F: Folder>(folder: &mut F, n: Name, bytes: &[u8]) -> Result<(), FolderFault>
    requires { (c : Image) → (F.disk folder.old).reads c → c n ≡ None }
    ensures kept { OnOk result (IsKept n bytes.now (F.disk folder.new)) }
    ensures during { During (Changed n MayBeAnything) (F.disk folder.old) (F.disk folder.new) }
    ensures count { Counted (F.faults_of folder.old) (F.faults_of folder.new) (IsErrOf result FolderFault.Failed) }
{
    folder.create(n)?;
    folder.write_at(n, 0, bytes)?;
    folder.sync(n)?;
    Ok(())
}
