//! Blocks of fragments, checked.

ghost use Rattle.std.specs.Prelude.{◌≡◌, ◌+◌, ◌<◌, ◌^◌, vec_len, length, Some, IfOk};
ghost use Rattle.std.specs.Option.{option_copied};
ghost use Rattle.std.specs.Ordering.{is_lt};
ghost use Rattle.cas_types.specs.Limits.{IsNarrow};
ghost use Rattle.cas_bounds.specs.ClusteringOrder.{clustering_order};
ghost use Rattle.cas_codec.specs.Exact.{AreBytes};
ghost use Rattle.cas_codec.specs.Reading.{Gives, Left};
ghost use Rattle.cas_streams.specs.Places.{place_of, place_cmp};
ghost use Rattle.cas_streams.specs.Settled.{same_force};
ghost use Rattle.cas_fragments.specs.Blocks.{last_place, past_all};
ghost use Rattle.cas_fragments.specs.Reading.{next_fragment_at, early_fragment_at, body_at};
ghost use Rattle.cas_skips.specs.Told.{told, Ends};
ghost use Rattle.cas_skips.specs.Marks.{mark_of, changes, force_behind, may_stand};
ghost use Rattle.cas_skips.specs.Inner.Passing.{seen, mark_at, place_at, counted};
ghost use Rattle.cas_skips.specs.Inner.Notes.{ArePrefix, IsSought};

use crate::fragments::{Passed, end_of, skip_fragment};
use crate::notes::{Spot, found, low_prefix, noted, spot_at};
use crate::places::compare_seen;
use crate::spelled::Spelled;
use cas_atoms::Row;
use cas_bounds::{Clustering, Cut, End, RowOrder, Values};
use cas_cell::Deletion;
use cas_codec::{ReadFault, Reader};
use cas_fragments::BLOCK_LEAST;
use cas_streams::Fragment;
use cas_types::{Bytes, Column, List};
use std::alloc::{AllocError, Global};
use std::mem;

/// The fragments of a block, a fragment that stands where the last of them does, and the range
/// deletion in force behind them.
#[derive(Drop)]
pub struct Checked<'a> {
    pub fragments: Spelled<'a>,
    pub last: Option<Fragment>,
    pub force: Option<Deletion>,
}

// How many fragments were passed over, where the last of them stands, what is in force behind it,
// and where those begin that stand behind the cut that is looked for.
#[derive(Drop)]
struct Ended<'a> {
    count: usize,
    end: End,
    values: Vec<&'a [u8]>,
    force: Option<Deletion>,
    spot: Option<Spot>,
}

// How many fragments there are, a fragment that stands where the last of them does, what is in
// force behind it, and where those begin that stand behind the cut that is looked for.
#[derive(Drop)]
struct Reaching {
    count: usize,
    last: Fragment,
    force: Option<Deletion>,
    spot: Option<Spot>,
}

// Whether a point stands behind the last one.
fn stands_behind(
    order: &RowOrder,
    last: Option<End>,
    before: &[&[u8]],
    end: End,
    values: &[&[u8]],
) -> bool
    ensures { result ≡ is_lt (place_cmp order.now (place_at last (seen before.now)) (place_at (Some end) (seen values.now))) }
{
    match last {
        None => true,
        Some(last) => compare_seen(order.as_slice(), last, before, end, values).is_lt(),
    }
}

pub(crate) fn same_force(a: Option<Deletion>, b: Option<Deletion>) -> bool
    ensures { result ≡ same_force a b }
{
    match (a, b) {
        (None, None) => true,
        (Some(x), Some(y)) => x.at.cmp(&y.at).then(x.second.cmp(&y.second)).is_eq(),
        _ => false,
    }
}

// Whether a marker changes what is in force.
fn changes(now: Option<Deletion>, opens: Option<Option<Deletion>>) -> bool
    ensures { result ≡ changes now opens }
{
    match opens {
        None => true,
        Some(deletion) => !same_force(now, deletion),
    }
}

// What is in force behind a fragment.
pub(crate) fn force_behind(
    now: Option<Deletion>,
    opens: Option<Option<Deletion>>,
) -> Option<Deletion>
    ensures { result ≡ force_behind now opens }
{
    match opens {
        None => now,
        Some(deletion) => deletion,
    }
}

// Whether a fragment may stand behind the last one, where that deletion is in force.
fn may_stand(
    order: &RowOrder,
    last: Option<End>,
    before: &[&[u8]],
    force: Option<Deletion>,
    passed: Passed,
    values: &[&[u8]],
) -> bool
    ensures { result ≡ may_stand order.now (record { last = place_at last (seen before.now); force = force }) (mark_at passed.end passed.opens (seen values.now)) }
{
    stands_behind(order, last, before, passed.end, values) && changes(force, passed.opens)
}

// Passes over a fragment that may stand behind the last one, where that deletion is in force.
fn skip_next<'a>(
    reader: &mut Reader<'a>,
    order: &RowOrder,
    columns: &[Column],
    last: Option<End>,
    before: &[&[u8]],
    force: Option<Deletion>,
    values: &mut Vec<&'a [u8]>,
) -> Result<Passed, ReadFault>
    ensures { Gives (λ p. mark_at p.end p.opens (seen values.new.items)) result reader.new (told mark_of (next_fragment_at order.now columns.now
        (record { last = place_at last (seen before.now); force = force }) reader.old)) }
{
    let at = reader.at();
    match skip_fragment(reader, order, columns, values) {
        Ok(passed) => {
            if may_stand(order, last, before, force, passed, values) {
                return Ok(passed);
            }
            Err(ReadFault::Bad { at })
        }
        Err(fault) => Err(fault),
    }
}

// The same in a block of so many bytes, which isn't full yet.
#[tactic(auto, unfolding(cas_fragments::specs::Reading::early_fragment_at))]
fn skip_early<'a>(
    reader: &mut Reader<'a>,
    order: &RowOrder,
    columns: &[Column],
    long: usize,
    last: Option<End>,
    before: &[&[u8]],
    force: Option<Deletion>,
    values: &mut Vec<&'a [u8]>,
) -> Result<Passed, ReadFault>
    ensures { Gives (λ p. mark_at p.end p.opens (seen values.new.items)) result reader.new (told mark_of (early_fragment_at order.now columns.now long
        (record { last = place_at last (seen before.now); force = force }) reader.old)) }
{
    if long.saturating_sub(reader.left().len()) >= BLOCK_LEAST {
        return Err(ReadFault::Bad { at: reader.at() });
    }
    skip_next(reader, order, columns, last, before, force, values)
}

// References to some values.
pub(crate) fn borrowed<'a>(alloc: Global, values: &'a [Bytes]) -> Result<Vec<&'a [u8]>, AllocError>
    ensures { IfOk result (λ v. seen v.items ≡ values.now) }
{
    let mut all = Vec::with_capacity(alloc, values.len())?;
    for value in values {
        all.push(value.as_slice())?;
    }
    Ok(all)
}

// Copies of some values.
fn kept(alloc: Global, values: &[&[u8]]) -> Result<Vec<Bytes>, AllocError>
    ensures { IfOk result (λ v. v.items ≡ seen values.now) }
{
    let mut copies = Vec::with_capacity(alloc, values.len())?;
    for value in values {
        copies.push(Bytes::copy_of(alloc, value)?)?;
    }
    Ok(copies)
}

// A fragment that stands at a point, and says nothing else.
fn mark(alloc: Global, order: &RowOrder, end: End, values: &[&[u8]]) -> Result<Fragment, AllocError>
    ensures { IfOk result (λ f. place_of f ≡ place_at (Some end) (seen values.now)) }
{
    let values = Values::from_vec(kept(alloc, values)?);
    let order = order.clone()?;
    match end {
        End::Row => Ok(Fragment::Row(Row {
            clustering: Clustering { values, order },
            deletion: None,
            live: None,
            columns: List::from_vec(Vec::new(alloc)),
        })),
        End::Before => Ok(Fragment::Marker(
            Cut {
                prefix: values,
                after: false,
                order,
            },
            None,
        )),
        End::After => Ok(Fragment::Marker(
            Cut {
                prefix: values,
                after: true,
                order,
            },
            None,
        )),
    }
}

// Where a fragment stands, if it isn't the static row: the end of its point, and its values.
fn place_before<'a>(
    alloc: Global,
    last: Option<&'a Fragment>,
) -> Result<(Option<End>, Vec<&'a [u8]>), AllocError>
    ensures { IfOk result (λ p. place_at p.0 (seen p.1.items) ≡ last_place (option_copied last.entry)) }
{
    match last {
        None => Ok((None, Vec::new(alloc))),
        Some(Fragment::Static(_)) => Ok((None, Vec::new(alloc))),
        Some(Fragment::Row(row)) => {
            let values = borrowed(alloc, row.clustering.values.as_slice())?;
            Ok((Some(End::Row), values))
        }
        Some(Fragment::Marker(cut, _)) => {
            let values = borrowed(alloc, cut.prefix.as_slice())?;
            Ok((Some(end_of(cut.after)), values))
        }
    }
}

// Passes over the fragments of a block, which fill all that the reader has.
fn skip_all<'a>(
    alloc: Global,
    reader: &mut Reader<'a>,
    order: &RowOrder,
    columns: &[Column],
    last: Option<&'a Fragment>,
    force: Option<Deletion>,
    low: Option<&Cut>,
    prefix: &[&[u8]],
) -> Result<Ended<'a>, ReadFault>
    requires ordered { order.now ≡ clustering_order columns.now }
    requires narrow { IsNarrow columns.now }
    requires prefix { ArePrefix (option_copied low) (seen prefix.now) }
    ensures exact { Gives (λ e. (e.count, record { last = place_at (Some e.end) (seen e.values.items); force = e.force })) result reader.new
        (told (counted 0 (record { last = last_place (option_copied last.entry); force = force })) (body_at order.now columns.now
        (record { last = last_place (option_copied last.entry); force = force }) reader.old)) }
    ensures sought { IfOk result (λ e. IsSought order.now columns.now (option_copied low.entry) force reader.old e.count e.force reader.new e.spot) }
{
    let long = reader.left().len();
    let (mut end, mut before) = place_before(alloc, last)?;
    let mut values = Vec::new(alloc);
    let (mut now, mut spot) = (force, None);
    for done in 0..long {
        let here = spot_at(reader, done, now);
        match skip_early(reader, order, columns, long, end, &before, now, &mut values) {
            Ok(passed) => {
                spot = found(order, low, prefix, spot, here, passed.end, &values);
                now = force_behind(now, passed.opens);
                end = Some(passed.end);
                mem::swap(&mut before, &mut values);
                if reader.is_empty() {
                    return Ok(Ended {
                        count: done + 1,
                        end: passed.end,
                        values: before,
                        force: now,
                        spot,
                    });
                }
            }
            Err(fault) => return Err(fault),
        }
    }
    Err(ReadFault::Short { at: reader.at() })
}

// Checks the bytes of a block, of which they are all, and tells of its fragments how many there
// are, how far they came, and where those begin that stand behind the cut.
fn check_bytes<'a>(
    alloc: Global,
    bytes: &'a [u8],
    place: u64,
    order: &RowOrder,
    columns: &[Column],
    last: Option<&'a Fragment>,
    force: Option<Deletion>,
    low: Option<&Cut>,
) -> Result<Reaching, ReadFault>
    requires ordered { order.now ≡ clustering_order columns.now }
    requires narrow { IsNarrow columns.now }
    requires within { place + length bytes.now < 2 ^ 64 }
    ensures exact { Ends (λ e. (e.count, record { last = place_of e.last; force = e.force })) result
        (told (counted 0 (record { last = last_place (option_copied last.entry); force = force })) (body_at order.now columns.now
        (record { last = last_place (option_copied last.entry); force = force }) (record { bytes = bytes.now; at = place }))) }
    ensures are_bytes { AreBytes bytes.now }
    ensures sought { IfOk result (λ e. (new : Left) × IsSought order.now columns.now (option_copied low.entry) force
        (record { bytes = bytes.now; at = place }) e.count e.force new e.spot) }
{
    let mut reader = Reader::new(bytes, place);
    let prefix = low_prefix(alloc, low)?;
    let ended = skip_all(
        alloc,
        &mut reader,
        order,
        columns,
        last,
        force,
        low,
        &prefix,
    )?;
    let last = mark(alloc, order, ended.end, &ended.values)?;
    Ok(Reaching {
        count: ended.count,
        last,
        force: ended.force,
        spot: ended.spot,
    })
}

/// Checks the bytes of a block, whose first stands at a place of the file, as `read_block` of
/// `cas_fragments` reads them, and builds no fragment. The last fragment before them, and the range
/// deletion in force there, are told, as there. Where a cut is to be looked for, it is told as
/// `low`: a `skip` to it needn't read again what it passes over.
pub fn check_block<'a>(
    alloc: Global,
    bytes: Vec<u8>,
    place: u64,
    order: &'a RowOrder,
    columns: &'a [Column],
    last: Option<&Fragment>,
    force: Option<Deletion>,
    low: Option<&Cut>,
) -> Result<Checked<'a>, ReadFault>
    requires ordered { order.now ≡ clustering_order columns.now }
    requires narrow { IsNarrow columns.now }
    requires within { place + vec_len bytes < 2 ^ 64 }
    ensures exact { Ends (λ c. c.fragments) result (body_at order.now columns.now (record { last = last_place (option_copied last.entry); force = force })
        (record { bytes = bytes.items; at = place })) }
    ensures reached { IfOk result (λ c. record { last = last_place c.last; force = c.force }
        ≡ past_all (record { last = last_place (option_copied last.entry); force = force }) c.fragments) }
    ensures are_bytes { AreBytes bytes.items }
{
    match check_bytes(alloc, &bytes, place, order, columns, last, force, low) {
        Ok(reaching) => {
            let note = noted(low, force, reaching.spot)?;
            Ok(Checked {
                fragments: Spelled::new(bytes, place, reaching.count, order, columns, note),
                last: Some(reaching.last),
                force: reaching.force,
            })
        }
        Err(fault) => Err(fault),
    }
}
