//! The bytes of a block, behind their number.

ghost use Rattle.std.specs.Prelude.{◌≡◌, ◌+◌, ◌≤◌, ◌<◌, ◌^◌, ℕ, List, Some, vec_len, IfOk, IfErr, IfSome, IsErrOf};
ghost use Rattle.cas_disk.specs.Counts.{Counted};
ghost use Rattle.cas_codec.specs.Reading.{bytes32_at};
ghost use Rattle.cas_info.specs.declared.info.TheConstants.{FILE_LIMIT};
ghost use Rattle.cas_blocks.specs.Reading.{left_at};
ghost use Rattle.cas_blocks.specs.Inner.Bodies.{TellsLength};
ghost use Rattle.cas_sstread.specs.Loading.{IsNoBlock};
ghost use Rattle.cas_verify.specs.Inner.Ends.{Ends};

use crate::faults::bad;
use cas_codec::Reader;
use cas_disk::Sealed;
use cas_sstread::{Table, TableFault};
use std::alloc::Global;

// The length that is told at a place; none where it doesn't stand before the end.
fn read_length<F: Sealed>(
    alloc: Global,
    table: &Table<F>,
    place: u64,
    tally: &mut F::Tally,
) -> Result<Option<u32>, TableFault>
    ensures told { IfOk result (λ n. (b : List ℕ) → table.now.contents ≡ Some b → TellsLength n (left_at b table.now.kept.end place)) }
    ensures within { IfOk result (λ n. IfSome n (λ long. place + 4 ≤ table.now.kept.end)) }
    ensures count { Counted (F.Tally.number tally.old) (F.Tally.number tally.new) (IsErrOf result TableFault.ReadFault) }
    ensures why { IfErr result IsNoBlock }
{
    if table.end().saturating_sub(place) < 4 {
        return Ok(None);
    }
    let bytes = table.read(alloc, place, 4, tally)?;
    let mut reader = Reader::new(&bytes, place);
    match reader.u32() {
        Ok(long) => Ok(Some(long)),
        Err(_) => Ok(None),
    }
}

/// The bytes behind the length that is told at a place. Room is made for them once it is held against
/// the end.
pub(crate) fn read_body<F: Sealed>(
    alloc: Global,
    table: &Table<F>,
    place: u64,
    tally: &mut F::Tally,
) -> Result<Vec<u8>, TableFault>
    ensures told { (b : List ℕ) → table.now.contents ≡ Some b
        → Ends (λ v p. (p.0 ≡ v.items) × (p.1 ≡ left_at b table.now.kept.end (place + 4 + vec_len v))) table.now.info.number result
        (bytes32_at (left_at b table.now.kept.end place)) }
    ensures within { IfOk result (λ v. (place + 4 + vec_len v ≤ table.now.kept.end) × (place + 4 + vec_len v ≤ FILE_LIMIT)) }
    ensures count { Counted (F.Tally.number tally.old) (F.Tally.number tally.new) (IsErrOf result TableFault.ReadFault) }
{
    let Some(long) = read_length(alloc, table, place, tally)? else {
        return Err(bad(table, place));
    };
    if u64::from(long) > table.end() - place - 4 {
        return Err(bad(table, place));
    }
    let long = long as usize;
    let body = table.read(alloc, place + 4, long, tally)?;
    if body.len() < long {
        return Err(bad(table, place));
    }
    Ok(body)
}
