//! The fields of a segment, from left to right, of the bytes at hand.

ghost use Rattle.std.specs.Prelude.{◌≡◌, ◌++◌, ◌∷◌, [], List, OnOk, OnErr, IfOk};
ghost use Rattle.cas_types.specs.Limits.{IsShardCount};
ghost use Rattle.cas_codec.specs.Reading.{Gives};
ghost use Rattle.cas_atoms.specs.declared.atom.Mutation.{Mutation as MutationOf};
ghost use Rattle.cas_mutations.specs.Allowed.{AreTables, FitsRecord};
ghost use Rattle.cas_replay.specs.Reading.{is_above, next_at, records_at, length_at, header_at};
ghost use Rattle.cas_replay.specs.Grammar.{IsWithinLimits};
ghost use Rattle.cas_replay.specs.Inner.Steps.{opened_at, body_at, part_at, filled_at};
ghost use Rattle.cas_replay.specs.Inner.Progress.{AreLast, Stands, Went, Tells};

use crate::lasts::Lasts;
use crate::segment::Segment;
use crate::taker::TakesMutations;
use crate::tops::place_in;
use cas_atoms::Mutation;
use cas_codec::{ReadFault, Reader};
use cas_log::{GREATEST_SEGMENT, LEAST_SEGMENT};
use cas_mutations::read_record;
use cas_types::Mem;

// Whether a mutation is above the frontier of its table and shard.
fn is_above(shards: u8, frontiers: &[u64], mutation: &Mutation) -> bool
    ensures { result ≡ is_above shards frontiers.now mutation.now }
{
    match frontiers.get(place_in(shards, mutation)) {
        Some(frontier) => *frontier < mutation.number,
        None => 0 < mutation.number,
    }
}

// A record whose mutation may stand behind those that were read.
#[tactic(auto, unfolding(crate::specs::Reading::next_at, cas_codec::specs::Reading::checked))]
fn read_next(
    of: &Segment<'_>,
    reader: &mut Reader<'_>,
    lasts: &Lasts,
) -> Result<Mutation, ReadFault>
    ensures exact { (before : List MutationOf) → AreLast lasts.now.numbers before
        → Gives (λ m. m) result reader.new (next_at of.now.tables.now of.now.shards before reader.old) }
    ensures limits { IfOk result IsWithinLimits }
    ensures fits { IfOk result (λ m. AreTables of.now.tables.now → IsShardCount of.now.shards → FitsRecord of.now.tables.now of.now.shards m) }
{
    let at = reader.at();
    let _left = reader.left();
    let mutation = read_record(of.alloc, reader, of.tables, of.shards)?;
    if lasts.allow(&mutation) {
        return Ok(mutation);
    }
    Err(ReadFault::Bad { at })
}

// Hands a mutation on that was read, where it is above its frontier, and notes it.
fn hand_on<T: TakesMutations>(
    of: &Segment<'_>,
    mutation: Mutation,
    lasts: &mut Lasts,
    taker: &mut T,
) -> Result<(), Mem>
    requires { IsWithinLimits mutation }
    ensures handed { (first before : List MutationOf)
        → Stands of.now.shards of.now.frontiers.now (λ ms. T.has_taken (first ++ ms) taker.old) lasts.old before
        → OnOk result (Stands of.now.shards of.now.frontiers.now (λ ms. T.has_taken (first ++ ms) taker.new) lasts.new (before ++ mutation ∷ [])) }
    ensures kept { (first before : List MutationOf)
        → Stands of.now.shards of.now.frontiers.now (λ ms. T.has_taken (first ++ ms) taker.old) lasts.old before
        → OnErr result (Stands of.now.shards of.now.frontiers.now (λ ms. T.has_taken (first ++ ms) taker.new) lasts.new before) }
{
    let (shard, number) = (mutation.shard, mutation.number);
    let place = place_in(of.shards, &mutation);
    lasts.reserve(place)?;
    if is_above(of.shards, of.frontiers, &mutation) {
        taker.take(mutation)?;
    }
    lasts.put(shard, number, place);
    Ok(())
}

// Reads so many records, and hands their mutations on.
fn take_records<T: TakesMutations>(
    of: &Segment<'_>,
    reader: &mut Reader<'_>,
    count: u32,
    lasts: &mut Lasts,
    taker: &mut T,
) -> Result<(), ReadFault>
    ensures { (first before : List MutationOf) → Stands of.now.shards of.now.frontiers.now (λ ms. T.has_taken (first ++ ms) taker.old) lasts.old before
        → Went of.now.tables.now of.now.shards of.now.frontiers.now (λ ms. T.has_taken (first ++ ms) taker.new) lasts.new before
        (λ after. Tells (λ _. after) (λ ms. ms) after result reader.new (records_at of.now.tables.now of.now.shards count before reader.old)) }
{
    for _done in 0..count {
        match read_next(of, reader, lasts) {
            Ok(mutation) => match hand_on(of, mutation, lasts, taker) {
                Ok(()) => {}
                Err(Mem) => return Err(ReadFault::Mem),
            },
            Err(fault) => return Err(fault),
        }
    }
    Ok(())
}

// The length of a block's body.
#[tactic(auto, unfolding(crate::specs::Reading::length_at, cas_codec::specs::Reading::checked))]
fn read_length(reader: &mut Reader<'_>, size: u64) -> Result<u32, ReadFault>
    ensures { Gives (λ n. n) result reader.new (length_at size reader.old) }
{
    let at = reader.at();
    let long = reader.u32()?;
    if at <= size && long as u64 + 9 <= size - at {
        return Ok(long);
    }
    Err(ReadFault::Bad { at })
}

// The body of a block, behind its lengths, and how many records it has.
#[tactic(auto, unfolding(crate::specs::Inner::Steps::body_at, cas_codec::specs::Reading::bytes_at))]
fn read_body<'a>(reader: &mut Reader<'a>, size: u64) -> Result<(Reader<'a>, u32), ReadFault>
    ensures { Gives (λ p. (p.0, p.1)) result reader.new (body_at size reader.old) }
{
    let at = reader.at();
    let long = read_length(reader, size)?;
    let count = reader.u32()?;
    if reader.left().len() < long as usize {
        return Err(ReadFault::Short { at });
    }
    let body = reader.part(long as usize)?;
    Ok((body, count))
}

/// The length of the body behind the next gate, where that is open.
#[tactic(auto, unfolding(crate::specs::Inner::Steps::opened_at))]
pub(crate) fn read_opened(reader: &mut Reader<'_>, size: u64) -> Result<Option<u32>, ReadFault>
    ensures { Gives (λ n. n) result reader.new (opened_at size reader.old) }
{
    if reader.u8()? != 1 {
        return Ok(None);
    }
    Ok(Some(read_length(reader, size)?))
}

/// The body behind the next gate, and how many records it has, where the gate is open.
#[tactic(auto, unfolding(crate::specs::Inner::Steps::part_at))]
pub(crate) fn read_part<'a>(
    reader: &mut Reader<'a>,
    size: u64,
) -> Result<Option<(Reader<'a>, u32)>, ReadFault>
    ensures { Gives (λ part. part) result reader.new (part_at size reader.old) }
{
    let gate = reader.u8()?;
    if gate != 1 {
        return Ok(None);
    }
    Ok(Some(read_body(reader, size)?))
}

/// Hands on the mutations of a block's records, which fill its body.
pub(crate) fn take_body<T: TakesMutations>(
    of: &Segment<'_>,
    body: &mut Reader<'_>,
    count: u32,
    lasts: &mut Lasts,
    taker: &mut T,
) -> Result<(), ReadFault>
    ensures { (first before : List MutationOf) → Stands of.now.shards of.now.frontiers.now (λ ms. T.has_taken (first ++ ms) taker.old) lasts.old before
        → Went of.now.tables.now of.now.shards of.now.frontiers.now (λ ms. T.has_taken (first ++ ms) taker.new) lasts.new before
        (λ after. Tells (λ _. after) (λ ms. ms) after result body.new (filled_at of.now.tables.now of.now.shards count before body.old)) }
{
    match take_records(of, body, count, lasts, taker) {
        Ok(()) => {
            if body.is_empty() {
                return Ok(());
            }
            Err(ReadFault::Bad { at: body.at() })
        }
        Err(fault) => Err(fault),
    }
}

/// The word, the number and the size, of which the size is told.
#[tactic(auto, unfolding(crate::specs::Reading::header_at, cas_codec::specs::Reading::checked))]
pub(crate) fn read_header(reader: &mut Reader<'_>, number: u64) -> Result<u64, ReadFault>
    ensures { Gives (λ size. size) result reader.new (header_at number reader.old) }
{
    let at = reader.at();
    let word = reader.bytes(8)?;
    if word != b"CASSLOG1".as_slice() {
        return Err(ReadFault::Bad { at });
    }
    let at = reader.at();
    if reader.u64()? != number {
        return Err(ReadFault::Bad { at });
    }
    reader.u64_within(LEAST_SEGMENT, GREATEST_SEGMENT)
}
