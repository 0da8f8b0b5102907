//! A block as it is written: its lengths, its records, and the next gate, closed.

ghost use Rattle.std.specs.Prelude.{◌≡◌, ◌+◌, ◌≤◌, ◌<◌, ◌^◌, ℕ, List, [], ◌∷◌, ◌++◌, length, drop, vec_len, IfOk, IfErr};
ghost use Rattle.std.specs.Vec.{vec_capacity};
ghost use Rattle.cas_atoms.specs.LogLength.{record_length};
ghost use Rattle.cas_mutations.specs.Spelling.{record_bytes};
ghost use Rattle.cas_mutations.specs.Allowed.{HasRecord};
ghost use Rattle.cas_log.specs.Segment.{header, lengths, written};

use crate::fault::LogFault;
use cas_atoms::Mutation;
use cas_mutations::put_record;
use std::alloc::Global;

/// The lengths of a block without records, and the next gate.
const NO_RECORDS: [u8; 9] = [0; 9];

// Puts the length of the body and the number of records into their place.
#[tactic(auto, unfolding(crate::specs::Segment::lengths, cas_codec::specs::Fields::u32))]
fn set_lengths(block: &mut [u8], long: u32, count: u32)
    requires { 8 ≤ length block.old }
    ensures { block.new ≡ lengths long count ++ drop 8 block.old }
{
    let (body, records) = (long.to_be_bytes(), count.to_be_bytes());
    block[..8].copy_from_slice(&[
        body[0], body[1], body[2], body[3], records[0], records[1], records[2], records[3],
    ]);
}

/// A block without records.
#[tactic(auto, unfolding(crate::specs::Segment::lengths, cas_codec::specs::Fields::u32))]
pub(crate) fn no_records(alloc: Global) -> Result<Vec<u8>, LogFault>
    ensures items { IfOk result (λ v. v.items ≡ written [] 0) }
    ensures long { IfOk result (λ v. vec_len v ≡ 9) }
    ensures why { IfErr result (λ f. f ≡ LogFault.Mem) }
{
    Ok(Vec::from_slice(alloc, &NO_RECORDS)?)
}

/// Takes all records out of a block.
#[tactic(auto, unfolding(crate::specs::Segment::lengths, cas_codec::specs::Fields::u32))]
pub(crate) fn take_records(block: &mut Vec<u8>)
    requires { 9 ≤ vec_len block.old }
    ensures items { block.new.items ≡ written [] 0 }
    ensures long { vec_len block.new ≡ 9 }
    ensures capacity { vec_capacity block.new ≡ vec_capacity block.old }
{
    block.truncate(9);
    block.copy_from_slice(&NO_RECORDS);
}

// Puts the lengths into their place, and the next gate behind so many records.
fn close(block: &mut Vec<u8>, count: u32)
    requires headed { 8 ≤ vec_len block.old }
    requires short { vec_len block.old < 2 ^ 32 }
    requires spare { vec_len block.old + 1 ≤ vec_capacity block.old }
    ensures items { block.new.items ≡ lengths (length (drop 8 block.old.items)) count ++ drop 8 block.old.items ++ 0 ∷ [] }
    ensures long { vec_len block.new ≡ vec_len block.old + 1 }
    ensures capacity { vec_capacity block.old ≤ vec_capacity block.new }
{
    let long = (block.len() - 8) as u32;
    set_lengths(block, long, count);
    let Ok(()) = block.push(0) else {
        return;
    };
}

/// Puts a record behind those of a block, which then has so many.
pub(crate) fn add_record(block: &mut Vec<u8>, mutation: &Mutation, count: u32)
    requires recorded { HasRecord mutation.now }
    requires headed { 9 ≤ vec_len block.old }
    requires reserved { vec_len block.old + record_length mutation.now ≤ vec_capacity block.old }
    requires short { vec_len block.old + record_length mutation.now < 2 ^ 32 }
    ensures items { (records : List ℕ) (before : ℕ) → block.old.items ≡ written records before
        → block.new.items ≡ written (records ++ record_bytes mutation.now) count }
    ensures long { vec_len block.new ≡ vec_len block.old + record_length mutation.now }
    ensures capacity { vec_capacity block.old ≤ vec_capacity block.new }
{
    block.pop();
    let Ok(()) = put_record(block, mutation) else {
        return;
    };
    close(block, count);
}

/// A segment's header, and its first gate, closed.
#[tactic(auto, unfolding(crate::specs::Segment::header, cas_codec::specs::Fields::u64))]
pub(crate) fn first_bytes(number: u64, size: u64) -> [u8; 25]
    ensures { result ≡ header number size ++ 0 ∷ [] }
{
    let [a, b, c, d, e, f, g, h] = number.to_be_bytes();
    let [i, j, k, l, m, n, o, p] = size.to_be_bytes();
    [
        b'C', b'A', b'S', b'S', b'L', b'O', b'G', b'1', a, b, c, d, e, f, g, h, i, j, k, l, m, n,
        o, p, 0,
    ]
}
