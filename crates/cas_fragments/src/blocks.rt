//! Blocks of fragments.

ghost use Rattle.std.specs.Prelude.{◌≡◌, ◌+◌, length, IfOk};
ghost use Rattle.std.specs.List.{last_or};
ghost use Rattle.std.specs.Ordering.{is_lt};
ghost use Rattle.std.specs.Option.{option_copied, option_map};
ghost use Rattle.cas_codec.specs.Reading.{Gives};
ghost use Rattle.cas_streams.specs.Joined.{opened};
ghost use Rattle.cas_streams.specs.Places.{place_of, place_cmp};
ghost use Rattle.cas_streams.specs.Settled.{same_force};
ghost use Rattle.cas_fragments.specs.Blocks.{last_place, past_all, is_change, may_follow};
ghost use Rattle.cas_fragments.specs.Reading.{next_fragment_at, early_fragment_at, body_at};
ghost use Rattle.cas_fragments.specs.Inner.Lasts.{point_of};

use crate::fragments::read_fragment;
use cas_bounds::{End, RowOrder, compare_points};
use cas_cell::Deletion;
use cas_codec::{ReadFault, Reader};
use cas_streams::Fragment;
use cas_types::{Bytes, Column};
use std::alloc::Global;
use std::mem::drop;

/// A block ends with the first fragment that makes it so many bytes long or longer, or with its
/// partition.
pub const BLOCK_LEAST: usize = 4_096;

/// The fragments of a block, and the range deletion in force behind them.
#[derive(Drop)]
pub struct Block {
    pub fragments: Vec<Fragment>,
    pub force: Option<Deletion>,
}

// The point at which a row or a marker stands.
fn point(fragment: &Fragment) -> Option<(End, &[Bytes])>
    ensures { option_map (λ p. point_of p.0 p.1.now) result ≡ place_of fragment.now }
{
    match fragment {
        Fragment::Static(_) => None,
        Fragment::Row(row) => Some((End::Row, row.clustering.values.as_slice())),
        Fragment::Marker(cut, _) => {
            let end = if cut.after { End::After } else { End::Before };
            Some((end, cut.prefix.as_slice()))
        }
    }
}

// Whether a fragment stands behind the last one.
fn stands_behind(order: &RowOrder, last: Option<&Fragment>, fragment: &Fragment) -> bool
    ensures { result ≡ is_lt (place_cmp order.now (last_place (option_copied last.entry)) (place_of fragment.now)) }
{
    let before = match last {
        Some(last) => point(last),
        None => None,
    };
    match (before, point(fragment)) {
        (None, Some(_)) => true,
        (Some((m, a)), Some((n, b))) => compare_points(order.as_slice(), m, a, n, b).is_lt(),
        (_, None) => false,
    }
}

fn same_force(a: Option<Deletion>, b: Option<Deletion>) -> bool
    ensures { result ≡ same_force a b }
{
    match (a, b) {
        (None, None) => true,
        (Some(x), Some(y)) => x.at.cmp(&y.at).then(x.second.cmp(&y.second)).is_eq(),
        _ => false,
    }
}

// Whether a marker changes what is in force.
fn is_change(force: Option<Deletion>, fragment: &Fragment) -> bool
    ensures { result ≡ is_change force fragment.now }
{
    match fragment {
        Fragment::Marker(_, deletion) => !same_force(force, *deletion),
        Fragment::Static(_) => true,
        Fragment::Row(_) => true,
    }
}

// What is in force behind a fragment.
fn opened(force: Option<Deletion>, fragment: &Fragment) -> Option<Deletion>
    ensures { result ≡ opened force fragment.now }
{
    match fragment {
        Fragment::Marker(_, deletion) => *deletion,
        Fragment::Static(_) => force,
        Fragment::Row(_) => force,
    }
}

// A fragment that may stand behind the last one, where that deletion is in force.
#[tactic(auto, unfolding(crate::specs::Reading::next_fragment_at, crate::specs::Blocks::may_follow, cas_codec::specs::Reading::checked))]
fn read_next(
    alloc: Global,
    reader: &mut Reader<'_>,
    order: &RowOrder,
    columns: &[Column],
    last: Option<&Fragment>,
    force: Option<Deletion>,
) -> Result<Fragment, ReadFault>
    ensures { Gives (λ f. f) result reader.new (next_fragment_at order.now columns.now
        (record { last = last_place (option_copied last.entry); force = force }) reader.old) }
{
    let at = reader.at();
    let fragment = read_fragment(alloc, reader, order, columns)?;
    if stands_behind(order, last, &fragment) && is_change(force, &fragment) {
        return Ok(fragment);
    }
    drop(fragment);
    Err(ReadFault::Bad { at })
}

// The same in a block of so many bytes, which isn't full yet.
#[tactic(auto, unfolding(crate::specs::Reading::early_fragment_at))]
fn read_early(
    alloc: Global,
    reader: &mut Reader<'_>,
    order: &RowOrder,
    columns: &[Column],
    long: usize,
    last: Option<&Fragment>,
    force: Option<Deletion>,
) -> Result<Fragment, ReadFault>
    ensures { Gives (λ f. f) result reader.new (early_fragment_at order.now columns.now long
        (record { last = last_place (option_copied last.entry); force = force }) reader.old) }
{
    if long.saturating_sub(reader.left().len()) >= BLOCK_LEAST {
        return Err(ReadFault::Bad { at: reader.at() });
    }
    read_next(alloc, reader, order, columns, last, force)
}

// The last of these fragments; where there is none, the one before them.
fn last_of<'a>(before: Option<&'a Fragment>, fragments: &'a [Fragment]) -> Option<&'a Fragment>
    ensures { option_copied result ≡ last_or (option_copied before.entry) fragments.now }
{
    match fragments.last() {
        Some(last) => Some(last),
        None => before,
    }
}

/// Reads the fragments of a block, which fill all that the reader has. The last fragment before
/// them, and the range deletion in force there, are told; before the first fragment of a partition
/// there is none. Where a block in the middle of a partition is read, a marker may stand for what
/// comes before it.
#[tactic(auto, unfolding(crate::specs::Reading::body_at))]
pub fn read_block(
    alloc: Global,
    reader: &mut Reader<'_>,
    order: &RowOrder,
    columns: &[Column],
    last: Option<&Fragment>,
    force: Option<Deletion>,
) -> Result<Block, ReadFault>
    ensures exact { Gives (λ b. b.fragments.items) result reader.new (body_at order.now columns.now
        (record { last = last_place (option_copied last.entry); force = force }) reader.old) }
    ensures force { IfOk result (λ b. b.force ≡ (past_all (record { last = last_place (option_copied last.entry); force = force }) b.fragments.items).force) }
{
    let long = reader.left().len();
    let mut fragments = Vec::new(alloc);
    let mut now = force;
    for _done in 0..long {
        let behind = last_of(last, &fragments);
        match read_early(alloc, reader, order, columns, long, behind, now) {
            Ok(fragment) => {
                now = opened(now, &fragment);
                fragments.push(fragment)?;
            }
            Err(fault) => return Err(fault),
        }
        if reader.is_empty() {
            return Ok(Block {
                fragments,
                force: now,
            });
        }
    }
    Err(ReadFault::Short { at: reader.at() })
}
