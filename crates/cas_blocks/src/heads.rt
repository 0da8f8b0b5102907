//! The head of a partition, of which nobody knows beforehand how long it is.

ghost use Rattle.std.specs.Prelude.{◌≡◌, ◌+◌, ◌≤◌, ◌^◌, List as ListOf, ℕ, Some, take, drop, IsErrOf};
ghost use Rattle.cas_disk.specs.Counts.{Counted};
ghost use Rattle.cas_blocks.specs.Reading.{left_at};
ghost use Rattle.cas_blocks.specs.Heads.{HeadAnswers};
ghost use Rattle.cas_blocks.specs.Inner.Fronts.{FrontAnswers};

use crate::fault::TableFault;
use crate::file::TableFile;
use crate::reading::read_range;
use cas_codec::{ReadFault, Reader};
use cas_disk::Sealed;
use cas_fragments::{Head, read_head};

/// So many bytes are tried first.
const AT_FIRST: u64 = 512;

// The head with which these bytes begin, the first of which stands at a place; none where they
// aren't the front of one.
fn parse_head<F: Sealed>(
    file: &TableFile<'_, F>,
    place: u64,
    bytes: &[u8],
) -> Result<Option<Head>, TableFault>
    requires { place ≤ 2 ^ 62 }
    ensures told { FrontAnswers file.now.version file.now.columns.now (record { bytes = bytes.now; at = place }) result }
    ensures no_read { IsErrOf result TableFault.Read → ⊥ }
{
    let mut reader = Reader::new(bytes, place);
    match read_head(file.alloc, &mut reader, file.version, file.columns) {
        Ok(head) => Ok(Some(head)),
        Err(ReadFault::Mem) => Err(TableFault::Mem),
        Err(_) => Ok(None),
    }
}

// The same of the next bytes of the file, so many.
fn read_front<F: Sealed>(
    file: &TableFile<'_, F>,
    place: u64,
    count: u64,
    tally: &mut F::Tally,
) -> Result<Option<Head>, TableFault>
    requires { place + count ≤ 2 ^ 62 }
    ensures told { (b : ListOf ℕ) → F.contents file.now.sealed.now ≡ Some b
        → FrontAnswers file.now.version file.now.columns.now (record { bytes = take count (drop place b); at = place }) result }
    ensures count { Counted (F.Tally.number tally.old) (F.Tally.number tally.new) (IsErrOf result TableFault.Read) }
{
    match read_range(file.alloc, file.sealed, place, count as usize, tally) {
        Ok(bytes) => parse_head(file, place, &bytes),
        Err(fault) => Err(TableFault::from(fault)),
    }
}

/// Reads the head of the partition at a place of a file: its key, the deletion of all of it, and its
/// static columns. It reads 512 bytes, and twice as many while that isn't enough, up to the end.
pub fn read_head_at<F: Sealed>(
    file: &TableFile<'_, F>,
    place: u64,
    tally: &mut F::Tally,
) -> Result<Head, TableFault>
    requires { place ≤ file.now.end }
    ensures told { (b : ListOf ℕ) → F.contents file.now.sealed.now ≡ Some b
        → HeadAnswers file.now.version file.now.columns.now file.now.number (left_at b file.now.end place) result }
    ensures count { Counted (F.Tally.number tally.old) (F.Tally.number tally.new) (IsErrOf result TableFault.Read) }
{
    let room = file.end - place;
    let mut long = AT_FIRST;
    while long < room {
        if let Some(head) = read_front(file, place, long, tally)? {
            return Ok(head);
        }
        long *= 2;
    }
    match read_front(file, place, room, tally)? {
        Some(head) => Ok(head),
        None => Err(file.bad_block(place)),
    }
}
