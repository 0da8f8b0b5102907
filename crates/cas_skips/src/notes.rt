//! Notes of where the fragments behind a cut begin, made while a block is checked.

ghost use Rattle.std.specs.Prelude.{◌≡◌, ◌<◌, length, Some, true, IfOk, MatchOption};
ghost use Rattle.std.specs.Option.{option_copied};
ghost use Rattle.cas_codec.specs.Exact.{AreBytes};
ghost use Rattle.cas_streams.specs.Joined.{opened};
ghost use Rattle.cas_skips.specs.Inner.Notes.{ArePrefix, IsNoteOf, IsOfSkip, found, note_behind};
ghost use Rattle.cas_skips.specs.Inner.Passing.{seen, place_at};

use crate::blocks::{borrowed, same_force};
use crate::spelled::is_beyond;
use cas_bounds::{Cut, End, Ordered, RowOrder};
use cas_cell::Deletion;
use cas_codec::Reader;
use cas_streams::Fragment;
use cas_types::Bytes;
use std::alloc::{AllocError, Global};

/// Where a fragment begins: how many stand before it, how many bytes are left from there on, and
/// the range deletion in force there.
#[derive(Clone, Copy)]
pub struct Spot {
    pub before: usize,
    pub left: usize,
    pub force: Option<Deletion>,
}

/// Where the first fragment behind a cut begins, counted from where that deletion is in force.
#[derive(Drop)]
pub struct Note {
    pub cut: Cut,
    pub force: Option<Deletion>,
    pub spot: Spot,
}

/// The values of the prefix of the cut that is looked for, if one is.
pub(crate) fn low_prefix<'c>(
    alloc: Global,
    low: Option<&'c Cut>,
) -> Result<Vec<&'c [u8]>, AllocError>
    ensures { IfOk result (λ v. ArePrefix (option_copied low.entry) (seen v.items)) }
{
    match low {
        None => Ok(Vec::new(alloc)),
        Some(cut) => borrowed(alloc, cut.prefix.as_slice()),
    }
}

/// The spot where the reader stands, behind so many fragments.
#[inline]
pub(crate) fn spot_at(reader: &Reader<'_>, before: usize, force: Option<Deletion>) -> Spot
    ensures spot { result ≡ record { before = before; left = length reader.now.bytes; force = force } }
    ensures are_bytes { AreBytes reader.now.bytes }
{
    Spot {
        before,
        left: reader.left().len(),
        force,
    }
}

/// The spot that was found before, or else this one, if the fragment there stands behind the cut
/// that is looked for.
#[inline]
pub(crate) fn found(
    order: &RowOrder,
    low: Option<&Cut>,
    prefix: &[&[u8]],
    so_far: Option<Spot>,
    here: Spot,
    end: End,
    values: &[&[u8]],
) -> Option<Spot>
    requires { ArePrefix (option_copied low) (seen prefix.now) }
    ensures { result ≡ found order.now (option_copied low.entry) so_far here (place_at (Some end) (seen values.now)) }
{
    match (low, so_far) {
        (Some(cut), None) => is_beyond(order, cut, prefix, end, values).then_some(here),
        _ => so_far,
    }
}

/// What is to be kept of a spot that was found behind the cut, before which that deletion is in
/// force: nothing, if the first fragment stands there.
pub(crate) fn noted(
    low: Option<&Cut>,
    force: Option<Deletion>,
    spot: Option<Spot>,
) -> Result<Option<Note>, AllocError>
    ensures { IfOk result (λ n. IsNoteOf (option_copied low.entry) force spot n) }
{
    match (low, spot) {
        (Some(cut), Some(spot)) if spot.before > 0 => Ok(Some(Note {
            cut: cut.copied()?,
            force,
            spot,
        })),
        _ => Ok(None),
    }
}

// The range deletion in force behind a fragment.
fn opened(force: Option<Deletion>, fragment: &Fragment) -> Option<Deletion>
    ensures { result ≡ opened force fragment.now }
{
    match fragment {
        Fragment::Marker(_, deletion) => *deletion,
        Fragment::Static(_) | Fragment::Row(_) => force,
    }
}

/// Counts the note from behind the first fragment. None stays, if its spot is the first one's.
pub(crate) fn count_behind(note: &mut Option<Note>, first: &Fragment)
    ensures { note.new ≡ note_behind note.old first.now }
{
    if let Some(kept) = note {
        if kept.spot.before == 0 {
            *note = None;
        } else {
            kept.force = opened(kept.force, first);
            kept.spot.before -= 1;
        }
    }
}

// Whether two tables order their rows alike.
fn same_order(a: &[Ordered], b: &[Ordered]) -> bool
    ensures { result ≡ true → a.now ≡ b.now }
{
    match (a, b) {
        ([], []) => true,
        ([x, xs @ ..], [y, ys @ ..]) => same_column(x, y) && same_order(xs, ys),
        _ => false,
    }
}

// Whether two columns are ordered alike.
fn same_column(a: &Ordered, b: &Ordered) -> bool
    ensures { result ≡ true → a.now ≡ b.now }
{
    a.tag as u8 == b.tag as u8 && a.descending == b.descending
}

fn same_value(a: &Bytes, b: &Bytes) -> bool
    ensures { result ≡ true → a.now ≡ b.now }
{
    a == b
}

// Whether two lists of values are the same.
fn same_values(a: &[Bytes], b: &[Bytes]) -> bool
    ensures { result ≡ true → a.now ≡ b.now }
{
    match (a, b) {
        ([], []) => true,
        ([x, xs @ ..], [y, ys @ ..]) => same_value(x, y) && same_values(xs, ys),
        _ => false,
    }
}

/// The spot that is noted of the cut, in that order and where that deletion is in force; none where
/// the note is of another one.
pub(crate) fn noted_spot(
    note: &Option<Note>,
    own: &RowOrder,
    order: &RowOrder,
    cut: &Cut,
    force: Option<Deletion>,
) -> Option<Spot>
    ensures { MatchOption result Unit (λ spot. IsOfSkip note.now own.now order.now cut.now force spot) }
{
    let Some(note) = note else {
        return None;
    };
    let same = note.cut.after == cut.after
        && same_force(note.force, force)
        && same_values(note.cut.prefix.as_slice(), cut.prefix.as_slice())
        && same_order(own.as_slice(), order.as_slice());
    same.then_some(note.spot)
}
