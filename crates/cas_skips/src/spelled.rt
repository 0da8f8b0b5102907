//! Fragments that bytes spell, built one at a time.

ghost use Rattle.std.specs.Prelude.{◌≡◌, ◌+◌, ◌<◌, ◌≤◌, ◌^◌, drop, length, vec_len, None, Some, [], IfOk, OnErr};
ghost use Rattle.std.specs.Ordering.{is_lt};
ghost use Rattle.cas_types.specs.Limits.{IsNarrow};
ghost use Rattle.cas_bounds.specs.ClusteringOrder.{clustering_order};
ghost use Rattle.cas_bounds.specs.Points.{cut_point};
ghost use Rattle.cas_streams.specs.Places.{place_cmp};
ghost use Rattle.cas_skips.specs.Blocks.{spelled, skipped, with_first};
ghost use Rattle.cas_skips.specs.Inner.Passing.{seen, place_at};
ghost use Rattle.cas_skips.specs.Inner.Stops.{IsFurther, IsFirst, PassesOne};
ghost use Rattle.cas_skips.specs.Inner.Notes.{IsNoted};

use crate::blocks::{borrowed, force_behind};
use crate::fragments::{Passed, end_of, skip_fragment};
use crate::notes::{Note, count_behind, noted_spot};
use crate::places::compare_seen;
use cas_bounds::{Cut, End, RowOrder};
use cas_cell::Deletion;
use cas_codec::{ReadFault, Reader};
use cas_fragments::read_fragment;
use cas_streams::Fragment;
use cas_types::Column;
use std::alloc::{AllocError, Global};
use std::marker::Model;

/// Fragments of a table, which contracts see as their list. They are kept as the bytes that spell
/// them, and built one at a time.
#[derive(Drop)]
pub struct Spelled<'a> {
    bytes: Vec<u8>,
    // Where the bytes stand in the file, and how many of them were taken.
    place: u64,
    taken: usize,
    count: usize,
    order: &'a RowOrder,
    columns: &'a [Column],
    // Where those behind some cut begin, if that is known.
    note: Option<Note>,
}

impl<'a> Model for Spelled<'a> {
    ghost use Rattle.std.specs.Prelude.{List, ◌≡◌, ◌+◌, ◌<◌, ◌≤◌, ◌^◌, length, drop};
    ghost use Rattle.cas_types.specs.Limits.{IsNarrow};
    ghost use Rattle.cas_bounds.specs.ClusteringOrder.{clustering_order};
    ghost use Rattle.cas_streams.specs.declared.fragment.Fragment.{Fragment};
    ghost use Rattle.cas_skips.specs.Blocks.{spelled};
    ghost use Rattle.cas_skips.specs.Inner.Stops.{left_from};
    ghost use Rattle.cas_skips.specs.Inner.Notes.{IsHeld};

    ghost Value = { List Fragment };

    ghost view = { λ s. spelled s.order.now s.columns.now s.count (left_from s.bytes.items s.place s.taken) };

    ghost invariant = { λ s. IsHeld s.order.now s.columns.now s.bytes.items s.place s.taken s.count s.note };
}

// Whether a point stands behind a cut, whose prefix is told by reference too.
pub(crate) fn is_beyond(
    order: &RowOrder,
    cut: &Cut,
    prefix: &[&[u8]],
    end: End,
    values: &[&[u8]],
) -> bool
    requires { seen prefix.now ≡ cut.now.prefix }
    ensures { result ≡ is_lt (place_cmp order.now (Some (cut_point cut.now)) (place_at (Some end) (seen values.now))) }
{
    compare_seen(order.as_slice(), end_of(cut.after), prefix, end, values).is_lt()
}

// The bytes behind those that were taken.
fn behind(bytes: &[u8], taken: usize) -> &[u8]
    requires { taken ≤ length bytes.now }
    ensures { result.now ≡ drop taken bytes.now }
{
    &bytes[taken..]
}

/// What is left of spelled fragments behind those that were passed over, and the range deletion in
/// force there.
#[derive(Drop)]
struct Stop<'a> {
    rest: &'a [u8],
    at: u64,
    count: usize,
    force: Option<Deletion>,
}

// Passes over the first fragment; none where none stands there.
fn pass_one<'a>(
    reader: &mut Reader<'a>,
    order: &RowOrder,
    columns: &[Column],
    values: &mut Vec<&'a [u8]>,
) -> Result<Option<Passed>, AllocError>
    ensures { IfOk result (PassesOne order.now columns.now reader.old reader.new (seen values.new.items)) }
{
    match skip_fragment(reader, order, columns, values) {
        Ok(passed) => Ok(Some(passed)),
        Err(ReadFault::Mem) => Err(AllocError),
        Err(_) => Ok(None),
    }
}

// Passes over the fragments up to the first that stands behind the cut.
fn pass<'a>(
    alloc: Global,
    reader: &mut Reader<'a>,
    order: &RowOrder,
    columns: &[Column],
    count: usize,
    by: &RowOrder,
    cut: &Cut,
    force: Option<Deletion>,
) -> Result<Stop<'a>, AllocError>
    requires ordered { order.now ≡ clustering_order columns.now }
    requires narrow { IsNarrow columns.now }
    ensures passed { IfOk result (λ s. skipped by.now cut.now force (spelled order.now columns.now count reader.old)
        ≡ (s.force, spelled order.now columns.now s.count (record { bytes = s.rest.now; at = s.at }))) }
    ensures further { IfOk result (λ s. IsFurther reader.old (record { bytes = s.rest.now; at = s.at })) }
{
    let low = borrowed(alloc, cut.prefix.as_slice())?;
    let mut values = Vec::new(alloc);
    let mut now = force;
    for done in 0..count {
        let rest = reader.left();
        let at = reader.at();
        match pass_one(reader, order, columns, &mut values) {
            Ok(Some(passed)) => {
                if is_beyond(by, cut, &low, passed.end, &values) {
                    return Ok(Stop {
                        rest,
                        at,
                        count: count - done,
                        force: now,
                    });
                }
                now = force_behind(now, passed.opens);
            }
            Ok(None) => {
                return Ok(Stop {
                    rest,
                    at,
                    count: 0,
                    force: now,
                });
            }
            Err(fault) => return Err(fault),
        }
    }
    Ok(Stop {
        rest: reader.left(),
        at: reader.at(),
        count: 0,
        force: now,
    })
}

// The first of so many fragments, and how many bytes are left behind it.
fn first_of(
    alloc: Global,
    bytes: &[u8],
    at: u64,
    order: &RowOrder,
    columns: &[Column],
) -> Result<Option<(Fragment, usize)>, AllocError>
    requires within { at + length bytes.now < 2 ^ 64 }
    ensures { IfOk result (IsFirst order.now columns.now (record { bytes = bytes.now; at = at })) }
{
    let mut reader = Reader::new(bytes, at);
    match read_fragment(alloc, &mut reader, order, columns) {
        Ok(fragment) => Ok(Some((fragment, reader.left().len()))),
        Err(ReadFault::Mem) => Err(AllocError),
        Err(_) => Ok(None),
    }
}

impl<'a> Spelled<'a> {
    /// No fragments, of a table with these columns.
    #[tactic(auto, unfolding(crate::specs::Blocks::spelled))]
    pub fn none(alloc: Global, order: &'a RowOrder, columns: &'a [Column]) -> Self
        requires ordered { order.now ≡ clustering_order columns.now }
        requires narrow { IsNarrow columns.now }
        ensures { result ≡ [] }
    {
        Spelled::new(Vec::new(alloc), 0, 0, order, columns, None)
    }

    /// So many fragments that these bytes spell, which stand at that place, and what is noted of
    /// them.
    pub(crate) fn new(
        bytes: Vec<u8>,
        place: u64,
        count: usize,
        order: &'a RowOrder,
        columns: &'a [Column],
        note: Option<Note>,
    ) -> Self
        requires ordered { order.now ≡ clustering_order columns.now }
        requires narrow { IsNarrow columns.now }
        requires within { place + vec_len bytes < 2 ^ 64 }
        requires noted { IsNoted order.now columns.now (record { bytes = bytes.items; at = place }) count note }
        ensures { result ≡ spelled order.now columns.now count (record { bytes = bytes.items; at = place }) }
    {
        Spelled {
            bytes,
            place,
            taken: 0,
            count,
            order,
            columns,
            note,
        }
    }

    /// The first of them, and the others stay; none where there are none.
    pub fn next(&mut self, alloc: Global) -> Result<Option<Fragment>, AllocError>
        ensures split { IfOk result (λ first. with_first first self.new ≡ self.old) }
        ensures ended { IfOk result (λ first. first ≡ None → self.new ≡ []) }
        ensures unchanged { OnErr result (self.new ≡ self.old) }
    {
        if self.count == 0 {
            return Ok(None);
        }
        let place = self.place + self.taken as u64;
        let bytes = behind(&self.bytes, self.taken);
        match first_of(alloc, bytes, place, self.order, self.columns)? {
            Some((fragment, left)) => {
                self.taken = self.bytes.len() - left;
                self.count -= 1;
                count_behind(&mut self.note, &fragment);
                Ok(Some(fragment))
            }
            None => {
                self.count = 0;
                self.note = None;
                Ok(None)
            }
        }
    }

    /// Passes over those that don't stand behind the cut, up to the first that does, and tells what
    /// is in force there; before them that deletion is. None is built.
    pub fn skip(
        &mut self,
        alloc: Global,
        order: &RowOrder,
        cut: &Cut,
        force: Option<Deletion>,
    ) -> Result<Option<Deletion>, AllocError>
        ensures passed { IfOk result (λ now. skipped order.now cut.now force self.old ≡ (now, self.new)) }
        ensures unchanged { OnErr result (self.new ≡ self.old) }
    {
        if let Some(spot) = noted_spot(&self.note, self.order, order, cut, force) {
            self.taken = self.bytes.len() - spot.left;
            self.count -= spot.before;
            self.note = None;
            return Ok(spot.force);
        }
        let place = self.place + self.taken as u64;
        let mut reader = Reader::new(behind(&self.bytes, self.taken), place);
        let stop = pass(
            alloc,
            &mut reader,
            self.order,
            self.columns,
            self.count,
            order,
            cut,
            force,
        )?;
        let (left, count, now) = (stop.rest.len(), stop.count, stop.force);
        self.taken = self.bytes.len() - left;
        self.count = count;
        self.note = None;
        Ok(now)
    }
}
