//! Cuts between the rows of a partition, and the slices between two cuts.

ghost use Rattle.std.specs.Prelude.{◌≡◌, IfOk};
ghost use Rattle.cas_bounds.specs.Cuts.{is_past, is_inside, prefixes_cmp, cut_cmp};

use crate::order::{Ordered, compare_first, compare_values, later};
use crate::row_order::RowOrder;
use crate::values::Values;
use cas_types::Bytes;
use std::alloc::AllocError;
use std::cmp::Ordering;

/// Where a row stands in its partition: the values of its clustering columns.
#[derive(Drop)]
pub struct Clustering {
    pub values: Values,
    pub order: RowOrder,
}

impl Clustering {
    /// A copy of the clustering.
    pub fn copied(&self) -> Result<Self, AllocError>
        ensures { IfOk result (λ c. c ≡ self.now) }
    {
        Ok(Clustering {
            values: self.values.clone()?,
            order: self.order.clone()?,
        })
    }
}

/// A place between rows. It stands before, or after, every clustering that begins with the prefix;
/// with the empty prefix it is one of the partition's two ends.
#[derive(Drop)]
pub struct Cut {
    pub prefix: Values,
    pub after: bool,
    pub order: RowOrder,
}

impl Cut {
    /// A copy of the cut.
    pub fn copied(&self) -> Result<Self, AllocError>
        ensures { IfOk result (λ c. c ≡ self.now) }
    {
        Ok(Cut {
            prefix: self.prefix.clone()?,
            after: self.after,
            order: self.order.clone()?,
        })
    }
}

/// What lies between two cuts, as a SELECT or a range DELETE names it.
#[derive(Drop)]
pub struct Slice {
    pub lo: Cut,
    pub hi: Cut,
}

impl Slice {
    /// A copy of the slice.
    pub fn copied(&self) -> Result<Self, AllocError>
        ensures { IfOk result (λ s. s ≡ self.now) }
    {
        Ok(Slice {
            lo: self.lo.copied()?,
            hi: self.hi.copied()?,
        })
    }
}

/// The order of two cuts of one partition.
pub fn cmp_cut(a: &Cut, b: &Cut) -> Ordering
    requires { a.now.order ≡ b.now.order }
    ensures { result ≡ cut_cmp a.now b.now }
{
    compare_prefixes(
        a.order.as_slice(),
        a.prefix.as_slice(),
        a.after,
        b.prefix.as_slice(),
        b.after,
    )
}

fn compare_prefixes(
    order: &[Ordered],
    a: &[Bytes],
    a_after: bool,
    b: &[Bytes],
    b_after: bool,
) -> Ordering
    ensures { result ≡ prefixes_cmp order.now a.now a_after b.now b_after }
{
    match (a, b) {
        ([], []) => a_after.cmp(&b_after),
        ([], [_y, _ys @ ..]) => {
            if a_after {
                Ordering::Greater
            } else {
                Ordering::Less
            }
        }
        ([_x, _xs @ ..], []) => {
            if b_after {
                Ordering::Less
            } else {
                Ordering::Greater
            }
        }
        ([x, xs @ ..], [y, ys @ ..]) => {
            match compare_first(order, x.as_slice(), y.as_slice()) {
                Ordering::Equal => compare_prefixes(later(order), xs, a_after, ys, b_after),
                decided => decided,
            }
        }
    }
}

/// Whether the row lies in the slice: past its low cut, and not past its high one.
pub fn inside(c: &Clustering, s: &Slice) -> bool
    ensures { result ≡ is_inside s.now.lo s.now.hi c.now.values }
{
    between(&s.lo, &s.hi, c.values.as_slice())
}

/// Whether a row of these values lies between the cuts: past the low one, and not past the high
/// one.
pub fn between(lo: &Cut, hi: &Cut, values: &[Bytes]) -> bool
    ensures { result ≡ is_inside lo.now hi.now values.now }
{
    is_past(lo, values) && !is_past(hi, values)
}

// Whether the row stands past the cut.
fn is_past(cut: &Cut, values: &[Bytes]) -> bool
    ensures { result ≡ is_past cut.now values.now }
{
    let prefix = cut.prefix.as_slice();
    let front = &values[..prefix.len().min(values.len())];
    let order = compare_values(cut.order.as_slice(), front, prefix);
    if cut.after {
        order == Ordering::Greater
    } else {
        order != Ordering::Less
    }
}
