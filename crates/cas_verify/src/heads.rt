//! The heads of partitions, of which nobody knows beforehand how long they are.

ghost use Rattle.std.specs.Prelude.{◌≡◌, ◌+◌, ◌≤◌, ◌<◌, ◌^◌, ℕ, List, Some, take, drop, length, IfOk, IfErr, IsErrOf};
ghost use Rattle.std.specs.Option.{option_copied};
ghost use Rattle.cas_types.specs.Limits.{IsNarrow};
ghost use Rattle.cas_types.specs.Values.{bytes_cmp};
ghost use Rattle.cas_codec.specs.Reading.{Gives, checked};
ghost use Rattle.cas_disk.specs.Counts.{Counted};
ghost use Rattle.cas_records.specs.Reading.{key_at};
ghost use Rattle.cas_fragments.specs.Reading.{is_above};
ghost use Rattle.cas_info.specs.declared.info.TheConstants.{FILE_LIMIT};
ghost use Rattle.cas_blocks.specs.Reading.{left_at};
ghost use Rattle.cas_sstread.specs.Loading.{IsNoBlock};
ghost use Rattle.cas_verify.specs.Inner.Ends.{Ends};
ghost use Rattle.cas_verify.specs.Inner.Heads.{FrontTells};
ghost use Rattle.cas_verify.specs.Inner.Scans.{next_head_at, IsHead};

use crate::faults::fault_in;
use cas_codec::{ReadFault, Reader};
use cas_disk::Sealed;
use cas_fragments::{Head, Version, read_head};
use cas_records::read_key;
use cas_sstread::{Table, TableFault};
use cas_types::{Bytes, Column, compare_bytes};
use std::alloc::Global;

/// So many bytes are tried first.
const AT_FIRST: u64 = 4_096;

// Whether the key stands above the one before it, if there is one.
fn is_above(before: Option<&[u8]>, key: &[u8]) -> bool
    ensures { result ≡ is_above bytes_cmp (option_copied before.entry) key.now }
{
    match before {
        Some(before) => compare_bytes(before, key).is_lt(),
        None => true,
    }
}

// A key that stands above the one before it.
#[tactic(auto, unfolding(cas_codec::specs::Reading::checked))]
fn read_key_above(
    alloc: Global,
    reader: &mut Reader<'_>,
    before: Option<&[u8]>,
) -> Result<Bytes, ReadFault>
    ensures { Gives (λ b. b) result reader.new (checked (is_above bytes_cmp (option_copied before.entry)) key_at reader.old) }
{
    let at = reader.at();
    let key = read_key(alloc, reader)?;
    if is_above(before, key.as_slice()) {
        return Ok(key);
    }
    Err(ReadFault::Bad { at })
}

// The head of a partition whose key stands above the one before it.
#[tactic(auto, unfolding(crate::specs::Inner::Scans::next_head_at))]
fn read_next_head(
    alloc: Global,
    reader: &mut Reader<'_>,
    version: Version,
    columns: &[Column],
    before: Option<&[u8]>,
) -> Result<Head, ReadFault>
    requires { reader.old.at + length reader.old.bytes < 2 ^ 64 }
    ensures { Gives (λ h. (h.key, h.top, h.columns)) result reader.new (next_head_at version columns.now (option_copied before.entry) reader.old) }
{
    let mut ahead = Reader::new(reader.left(), reader.at());
    read_key_above(alloc, &mut ahead, before)?;
    read_head(alloc, reader, version, columns)
}

// The head with which these bytes begin, the first of which stands at a place, and where it ends.
fn parse_front(
    alloc: Global,
    version: Version,
    columns: &[Column],
    place: u64,
    bytes: &[u8],
    before: Option<&[u8]>,
) -> Result<(Head, u64), ReadFault>
    requires narrow { IsNarrow columns.now }
    requires room { place + length bytes.now < 2 ^ 64 }
    ensures told { FrontTells version columns.now (option_copied before.entry) (record { bytes = bytes.now; at = place }) result }
    ensures key { IfOk result (λ p. length p.0.key < 2 ^ 16) }
{
    let mut reader = Reader::new(bytes, place);
    let head = read_next_head(alloc, &mut reader, version, columns, before)?;
    Ok((head, reader.at()))
}

// The same of the next bytes of the file, so many.
fn read_front<F: Sealed>(
    alloc: Global,
    table: &Table<F>,
    place: u64,
    count: u64,
    before: Option<&[u8]>,
    tally: &mut F::Tally,
) -> Result<Result<(Head, u64), ReadFault>, TableFault>
    requires narrow { IsNarrow table.now.columns }
    requires room { place + count < 2 ^ 63 }
    ensures told { IfOk result (λ r. (b : List ℕ) → table.now.contents ≡ Some b
        → FrontTells table.now.kept.version table.now.columns (option_copied before.entry) (record { bytes = take count (drop place b); at = place }) r) }
    ensures key { IfOk result (λ r. IfOk r (λ p. length p.0.key < 2 ^ 16)) }
    ensures count { Counted (F.Tally.number tally.old) (F.Tally.number tally.new) (IsErrOf result TableFault.ReadFault) }
    ensures why { IfErr result IsNoBlock }
{
    let bytes = table.read(alloc, place, count as usize, tally)?;
    let version = table.version();
    let columns = table.columns();
    Ok(parse_front(alloc, version, columns, place, &bytes, before))
}

/// Reads the head of the partition at a place, whose key is to stand above the one before it, and tells
/// where it ends. It reads 4 KiB, and twice as many while that isn't enough, up to the end.
pub(crate) fn read_head_at<F: Sealed>(
    alloc: Global,
    table: &Table<F>,
    place: u64,
    before: Option<&[u8]>,
    tally: &mut F::Tally,
) -> Result<(Head, u64), TableFault>
    requires narrow { IsNarrow table.now.columns }
    requires within { place ≤ FILE_LIMIT }
    ensures told { (b : List ℕ) → table.now.contents ≡ Some b
        → Ends (λ h p. IsHead table.now.kept.version table.now.kept.end b place h.0 h.1 p) table.now.info.number result
        (next_head_at table.now.kept.version table.now.columns (option_copied before.entry) (left_at b table.now.kept.end place)) }
    ensures key { IfOk result (λ p. length p.0.key < 2 ^ 16) }
    ensures count { Counted (F.Tally.number tally.old) (F.Tally.number tally.new) (IsErrOf result TableFault.ReadFault) }
{
    let room = table.end().saturating_sub(place);
    let mut long = AT_FIRST;
    while long < room {
        match read_front(alloc, table, place, long, before, tally)? {
            Ok(found) => return Ok(found),
            Err(ReadFault::Mem) => return Err(TableFault::Mem),
            Err(_) => long *= 2,
        }
    }
    match read_front(alloc, table, place, room, before, tally)? {
        Ok(found) => Ok(found),
        Err(fault) => Err(fault_in(table, fault)),
    }
}
