//! Reads a part of a file.

ghost use Rattle.std.specs.Prelude.{◌≡◌, ◌+◌, ◌<◌, ◌≤◌, ◌^◌, ℕ, List, Some, take, drop, length, vec_len, IfOk, IfErr, IsErr, IsErrOf};
ghost use Rattle.cas_disk.specs.Counts.{Counted};
ghost use Rattle.cas_sstread.specs.Inner.Parts.{IsFilled};
ghost use Rattle.cas_sstread.specs.Loading.{IsNoBlock};

use crate::fault::TableFault;
use cas_disk::Sealed;
use cas_io::Failed;
use std::alloc::Global;

// Fills bytes from a place of the file on, and says how many the file had.
fn fill<F: Sealed>(
    file: &F,
    at: u64,
    bytes: &mut [u8],
    tally: &mut F::Tally,
) -> Result<usize, Failed>
    requires { at + length bytes.old < 2 ^ 63 }
    ensures bound { IfOk result (λ count. count ≤ length bytes.old) }
    ensures filled { IfOk result (λ count. (b : List ℕ) → F.contents file.now ≡ Some b → IsFilled b at (length bytes.old) count bytes.new) }
    ensures count { Counted (F.Tally.number tally.old) (F.Tally.number tally.new) (IsErr result) }
{
    let mut filled = 0;
    while filled < bytes.len() {
        let given = file.read_at(at + filled as u64, &mut bytes[filled..], tally)?;
        if given == 0 {
            return Ok(filled);
        }
        filled += given;
    }
    Ok(filled)
}

/// Reads so many bytes of the file from a place on, or all that it has from there on.
pub(crate) fn read_part<F: Sealed>(
    alloc: Global,
    file: &F,
    at: u64,
    count: usize,
    tally: &mut F::Tally,
) -> Result<Vec<u8>, TableFault>
    requires { at + count < 2 ^ 63 }
    ensures bytes { IfOk result (λ v. (b : List ℕ) → F.contents file.now ≡ Some b → v.items ≡ take count (drop at b)) }
    ensures long { IfOk result (λ v. vec_len v ≤ count) }
    ensures count { Counted (F.Tally.number tally.old) (F.Tally.number tally.new) (IsErrOf result TableFault.ReadFault) }
    ensures why { IfErr result IsNoBlock }
{
    let mut bytes = vec![in alloc; 0; count]?;
    let filled = match fill(file, at, &mut bytes, tally) {
        Ok(filled) => filled,
        Err(_) => return Err(TableFault::ReadFault),
    };
    bytes.truncate(filled);
    Ok(bytes)
}
