//! Where rows and markers stand, as their bytes spell it.

ghost use Rattle.std.specs.Prelude.{◌≡◌, ◌≤◌, drop, IfOk};
ghost use Rattle.std.specs.Int.{is_in_range};
ghost use Rattle.cas_bounds.specs.Orders.{first_cmp};
ghost use Rattle.cas_bounds.specs.Points.{rank, beside, ends_cmp};
ghost use Rattle.cas_codec.specs.Reading.{Gives, checked, u8_at};
ghost use Rattle.cas_records.specs.Reading.{value_at, values_at, clustering_at, cut_at};
ghost use Rattle.cas_records.specs.Inner.Values.{after_values};
ghost use Rattle.cas_skips.specs.Inner.Passing.{seen};

use cas_bounds::{End, Ordered, RowOrder};
use cas_codec::{ReadFault, Reader};
use cas_types::{TypeTag, check, compare_bytes};
use std::cmp::Ordering;

// A value of the type.
#[tactic(auto, unfolding(cas_records::specs::Reading::value_at))]
#[inline(always)]
fn see_value<'a>(reader: &mut Reader<'a>, tag: TypeTag) -> Result<&'a [u8], ReadFault>
    ensures { Gives (λ b. b.now) result reader.new (value_at tag reader.old) }
{
    let at = reader.at();
    let bytes = reader.bytes16()?;
    if check(tag, bytes).is_err() {
        return Err(ReadFault::Bad { at });
    }
    Ok(bytes)
}

// A value of each of the columns, after those that were read.
#[tactic(auto, using(cas_records::proofs::BoundLaws::values_none, cas_records::proofs::BoundLaws::values_more, cas_records::proofs::BoundLaws::values_fault))]
#[inline(always)]
fn see_values<'a>(
    reader: &mut Reader<'a>,
    order: &[Ordered],
    values: &mut Vec<&'a [u8]>,
) -> Result<(), ReadFault>
    ensures { Gives (λ done. seen values.new.items) result reader.new (after_values (seen values.old.items) (values_at order.now reader.old)) }
{
    let mut rest = order;
    while let [first, others @ ..] = rest {
        let value = see_value(reader, first.tag)?;
        values.push(value)?;
        rest = others;
    }
    Ok(())
}

// A value of each of the columns.
#[tactic(auto, using(cas_records::proofs::BoundLaws::values_from_none))]
#[inline(always)]
fn see_each<'a>(
    reader: &mut Reader<'a>,
    order: &[Ordered],
    values: &mut Vec<&'a [u8]>,
) -> Result<(), ReadFault>
    ensures { Gives (λ done. seen values.new.items) result reader.new (values_at order.now reader.old) }
{
    values.clear();
    see_values(reader, order, values)
}

// How many values there are, from least to greatest.
#[tactic(auto, unfolding(cas_codec::specs::Reading::checked))]
#[inline(always)]
fn read_count(reader: &mut Reader<'_>, least: usize, greatest: usize) -> Result<u8, ReadFault>
    ensures exact { Gives (λ n. n) result reader.new (checked (is_in_range least greatest) u8_at reader.old) }
    ensures within { IfOk result (λ n. (least ≤ n) × (n ≤ greatest)) }
{
    let at = reader.at();
    let count = reader.u8()?;
    if least <= count as usize && count as usize <= greatest {
        return Ok(count);
    }
    Err(ReadFault::Bad { at })
}

/// The values of the place of a row.
#[tactic(auto, unfolding(cas_records::specs::Reading::clustering_at))]
#[inline(always)]
pub(crate) fn see_clustering<'a>(
    reader: &mut Reader<'a>,
    order: &RowOrder,
    values: &mut Vec<&'a [u8]>,
) -> Result<(), ReadFault>
    ensures { Gives (λ done. record { values = seen values.new.items; order = order.now }) result reader.new (clustering_at order.now reader.old) }
{
    read_count(reader, order.len(), order.len())?;
    see_each(reader, order.as_slice(), values)?;
    Ok(())
}

/// The prefix of a cut, and whether the cut stands after it.
#[tactic(auto, unfolding(cas_records::specs::Reading::cut_at))]
#[inline(always)]
pub(crate) fn see_cut<'a>(
    reader: &mut Reader<'a>,
    order: &RowOrder,
    values: &mut Vec<&'a [u8]>,
) -> Result<bool, ReadFault>
    ensures { Gives (λ after. record { prefix = seen values.new.items; after = after; order = order.now }) result reader.new (cut_at order.now reader.old) }
{
    let after = reader.flag()?;
    let count = read_count(reader, 0, order.len())?;
    see_each(reader, &order.as_slice()[..count as usize], values)?;
    Ok(after)
}

// The order of two values of the first column.
fn compare_first(order: &[Ordered], a: &[u8], b: &[u8]) -> Ordering
    ensures { result ≡ first_cmp order.now a.now b.now }
{
    match order {
        [] => compare_bytes(a, b),
        [o, _os @ ..] => o.compare(a, b),
    }
}

// The columns after the first one.
fn later(order: &[Ordered]) -> &[Ordered]
    ensures { result.now ≡ drop 1 order.now }
{
    match order {
        [] => order,
        [_o, os @ ..] => os,
    }
}

fn rank(end: End) -> u8
    ensures { result ≡ rank end }
{
    match end {
        End::Before => 0,
        End::Row => 1,
        End::After => 2,
    }
}

// The end against a further value.
fn beside(end: End) -> Ordering
    ensures { result ≡ beside end }
{
    match end {
        End::Before | End::Row => Ordering::Less,
        End::After => Ordering::Greater,
    }
}

/// The order of two points of a table, each by its end and its values, as `compare_points` of
/// `cas_bounds` tells it of values that are kept.
pub(crate) fn compare_seen(order: &[Ordered], m: End, a: &[&[u8]], n: End, b: &[&[u8]]) -> Ordering
    ensures { result ≡ ends_cmp order.now m (seen a.now) n (seen b.now) }
{
    match (a, b) {
        ([], []) => rank(m).cmp(&rank(n)),
        ([], [_y, _ys @ ..]) => beside(m),
        ([_x, _xs @ ..], []) => beside(n).reverse(),
        ([x, xs @ ..], [y, ys @ ..]) => match compare_first(order, x, y) {
            Ordering::Equal => compare_seen(later(order), m, xs, n, ys),
            decided => decided,
        },
    }
}
