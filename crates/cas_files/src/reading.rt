//! Reads a file from its folder, piece by piece.

ghost use Rattle.std.specs.Prelude.{◌≡◌, ◌+◌, ◌≤◌, ◌^◌, length, max, vec_len, OnOk, IfOk, IsErrOf};
ghost use Rattle.cas_disk.specs.Counts.{Counted};
ghost use Rattle.cas_disk.specs.Disk.{Image, During, Follows, Same, bytes_of};
ghost use Rattle.cas_files.specs.Ahead.{AreNext, AreEnough};

use cas_disk::{Folder, FolderFault, Name};
use std::alloc::Global;

/// So many bytes are read at once.
const PIECE: usize = 1 << 16;

/// Reads behind bytes that are at hand, of which the first stands at a place of the file, until so
/// many are, or the file has no more.
// A frame with a piece is only entered where there is something to read.
#[inline(never)]
pub(crate) fn read_on<F: Folder>(
    folder: &mut F,
    n: Name,
    at: u64,
    bytes: &mut Vec<u8>,
    count: usize,
) -> Result<(), FolderFault>
    requires { at ≤ 2 ^ 62 }
    ensures next { OnOk result ((c : Image) → (F.disk folder.old).reads c → AreNext at (bytes_of (c n)) bytes.old.items
        → AreNext at (bytes_of (c n)) bytes.new.items × AreEnough count at (bytes_of (c n)) bytes.new.items) }
    ensures bounded { OnOk result (vec_len bytes.new ≤ max (vec_len bytes.old) (count + 65535)) }
    ensures reads { Follows Same (F.disk folder.old).reads (F.disk folder.new).reads }
    ensures during { During Same (F.disk folder.old) (F.disk folder.new) }
    ensures count { Counted (F.faults_of folder.old) (F.faults_of folder.new) (IsErrOf result FolderFault.Failed) }
{
    let mut piece = [0u8; PIECE];
    while bytes.len() < count {
        let given = match folder.read_at(n, at + bytes.len() as u64, &mut piece) {
            Ok(given) => given,
            Err(fault) => return Err(FolderFault::from(fault)),
        };
        if given == 0 {
            return Ok(());
        }
        bytes.extend_from_slice(&piece[..given])?;
    }
    Ok(())
}

/// The bytes of a file, none where it isn't there.
pub fn read_file<F: Folder>(alloc: Global, folder: &mut F, n: Name) -> Result<Vec<u8>, FolderFault>
    ensures bytes { IfOk result (λ v. (c : Image) → (F.disk folder.old).reads c → v.items ≡ bytes_of (c n)) }
    ensures reads { Follows Same (F.disk folder.old).reads (F.disk folder.new).reads }
    ensures during { During Same (F.disk folder.old) (F.disk folder.new) }
    ensures count { Counted (F.faults_of folder.old) (F.faults_of folder.new) (IsErrOf result FolderFault.Failed) }
{
    let mut bytes = Vec::new(alloc);
    match read_on(folder, n, 0, &mut bytes, usize::MAX) {
        Ok(()) => Ok(bytes),
        Err(fault) => Err(fault),
    }
}
