//! Keys of ordered maps of a partition's rows.

ghost use Rattle.std.specs.Prelude.{◌≡◌, Some, refl};
ghost use Rattle.std.specs.Ordering.{eq_by_cmp};
ghost use Rattle.std.specs.Cmp.{eq_by_cmp_equiv, partial_equiv_from_equiv, partial_order_from_agreeing_total};
ghost use Rattle.cas_bounds.specs.Points.{rank, beside, ends_cmp, row_point, cut_point};
ghost use Rattle.cas_bounds.specs.Keys.{tag_rank, ordered_cmp, orders_cmp, key_point, key_cmp};
ghost use Rattle.cas_bounds.specs.Inner.KeyLaws.{key_total};

use crate::cuts::{Clustering, Cut};
use crate::order::{Ordered, compare_first, later};
use crate::row_order::RowOrder;
use crate::values::Values;
use cas_types::{Bytes, TypeTag};
use std::cmp::Ordering;

/// What a point's values stand for: all that a row has, or those that all rows past a cut, or all
/// before it, begin with.
#[derive(Clone, Copy)]
pub enum End {
    Before,
    Row,
    After,
}

impl End {
    #[inline]
    fn rank(self) -> u8
        ensures { result ≡ rank self }
    {
        match self {
            End::Before => 0,
            End::Row => 1,
            End::After => 2,
        }
    }

    // The end against a further value.
    fn beside(self) -> Ordering
        ensures { result ≡ beside self }
    {
        match self {
            End::Before | End::Row => Ordering::Less,
            End::After => Ordering::Greater,
        }
    }
}

/// Where a row or a cut stands, as a key of an ordered map: keys of one table go by the table's
/// order. A map of rows has keys of rows, and is asked for what lies between the keys of two cuts.
#[derive(Drop)]
pub struct MapKey {
    pub values: Values,
    pub end: End,
    pub order: RowOrder,
}

impl MapKey {
    /// The key of a row.
    pub fn of_row(row: Clustering) -> Self
        ensures point { key_point result ≡ row_point row.values }
        ensures order { result.order ≡ row.order }
    {
        MapKey {
            values: row.values,
            end: End::Row,
            order: row.order,
        }
    }

    /// The key of a cut, at which no row stands.
    pub fn of_cut(cut: Cut) -> Self
        ensures point { key_point result ≡ cut_point cut }
        ensures order { result.order ≡ cut.order }
    {
        MapKey {
            values: cut.prefix,
            end: if cut.after { End::After } else { End::Before },
            order: cut.order,
        }
    }
}

#[inline(always)]
fn tag_rank(tag: TypeTag) -> u8
    ensures { result ≡ tag_rank tag }
{
    match tag {
        TypeTag::Ascii => 0,
        TypeTag::BigInt => 1,
        TypeTag::Blob => 2,
        TypeTag::Boolean => 3,
        TypeTag::Date => 4,
        TypeTag::Int => 5,
        TypeTag::SmallInt => 6,
        TypeTag::Text => 7,
        TypeTag::Time => 8,
        TypeTag::Timestamp => 9,
        TypeTag::TimeUuid => 10,
        TypeTag::TinyInt => 11,
        TypeTag::Uuid => 12,
    }
}

#[inline]
fn compare_ordered(a: &Ordered, b: &Ordered) -> Ordering
    ensures { result ≡ ordered_cmp a.now b.now }
{
    match tag_rank(a.tag).cmp(&tag_rank(b.tag)) {
        Ordering::Equal => a.descending.cmp(&b.descending),
        decided => decided,
    }
}

// How two tables order their rows, mostly by one column.
#[inline(always)]
fn compare_tables(a: &[Ordered], b: &[Ordered]) -> Ordering
    ensures { result ≡ orders_cmp a.now b.now }
{
    match (a, b) {
        ([x], [y]) => compare_ordered(x, y),
        _ => compare_orders(a, b),
    }
}

#[inline(never)]
fn compare_orders(a: &[Ordered], b: &[Ordered]) -> Ordering
    ensures { result ≡ orders_cmp a.now b.now }
{
    match (a, b) {
        ([], []) => Ordering::Equal,
        ([], [_y, _ys @ ..]) => Ordering::Less,
        ([_x, _xs @ ..], []) => Ordering::Greater,
        ([x, xs @ ..], [y, ys @ ..]) => match compare_ordered(x, y) {
            Ordering::Equal => compare_orders(xs, ys),
            decided => decided,
        },
    }
}

/// The order of two points of a table, each by its end and its values.
#[inline(always)]
pub fn compare_points(order: &[Ordered], m: End, a: &[Bytes], n: End, b: &[Bytes]) -> Ordering
    ensures { result ≡ ends_cmp order.now m a.now n b.now }
{
    match (order, a, b) {
        ([o], [x], [y]) => match o.compare(x.as_slice(), y.as_slice()) {
            Ordering::Equal => m.rank().cmp(&n.rank()),
            decided => decided,
        },
        _ => compare_many(order, m, a, n, b),
    }
}

// The same column by column.
#[inline(never)]
fn compare_many(order: &[Ordered], m: End, a: &[Bytes], n: End, b: &[Bytes]) -> Ordering
    ensures { result ≡ ends_cmp order.now m a.now n b.now }
{
    match (a, b) {
        ([], []) => m.rank().cmp(&n.rank()),
        ([], [_y, _ys @ ..]) => m.beside(),
        ([_x, _xs @ ..], []) => n.beside().reverse(),
        ([x, xs @ ..], [y, ys @ ..]) => {
            match compare_first(order, x.as_slice(), y.as_slice()) {
                Ordering::Equal => compare_many(later(order), m, xs, n, ys),
                decided => decided,
            }
        }
    }
}

impl PartialEq for MapKey {
    ghost eq = { eq_by_cmp key_cmp };

    ghost laws = { partial_equiv_from_equiv (eq_by_cmp_equiv key_total) };

    fn eq(&self, other: &MapKey) -> bool {
        self.cmp(other).is_eq()
    }
}

impl Eq for MapKey {
    ghost laws = { eq_by_cmp_equiv key_total };
}

impl PartialOrd for MapKey {
    ghost partial_cmp = { λ a b. Some (key_cmp a b) };

    ghost laws = { partial_order_from_agreeing_total key_cmp key_total (λ a b. refl) (λ a b. refl) };

    fn partial_cmp(&self, other: &MapKey) -> Option<Ordering> {
        Some(self.cmp(other))
    }
}

impl Ord for MapKey {
    ghost cmp = { key_cmp };

    ghost total = { key_total };

    ghost matches_partial_cmp = { λ a b. refl };

    ghost matches_eq = { λ a b. refl };

    #[inline]
    fn cmp(&self, other: &MapKey) -> Ordering {
        let order = self.order.as_slice();
        match compare_tables(order, other.order.as_slice()) {
            Ordering::Equal => compare_points(
                order,
                self.end,
                self.values.as_slice(),
                other.end,
                other.values.as_slice(),
            ),
            decided => decided,
        }
    }
}
