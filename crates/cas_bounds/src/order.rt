//! How clustering columns order the rows of a partition.

ghost use Rattle.std.specs.Prelude.{◌≡◌, ◌++◌, drop, IfOk, IfSome};
ghost use Rattle.std.specs.List.{filter_map};
ghost use Rattle.cas_bounds.specs.Orders.{column_cmp, first_cmp, values_cmp};
ghost use Rattle.cas_bounds.specs.ClusteringOrder.{ordered_by, clustering_order};

use crate::row_order::{Few, RowOrder};
use cas_types::{Bytes, Column, TypeTag, compare, compare_bytes};
use std::alloc::{AllocError, Global};
use std::cmp::Ordering;

/// How one clustering column is ordered: by its type, and from the greatest value down where the
/// CLUSTERING ORDER says DESC.
#[derive(Clone, Copy)]
pub struct Ordered {
    pub tag: TypeTag,
    pub descending: bool,
}

impl Ordered {
    /// The order of two values of the column.
    #[inline(always)]
    pub fn compare(&self, a: &[u8], b: &[u8]) -> Ordering
        ensures { result ≡ column_cmp self.now a.now b.now }
    {
        if self.descending {
            compare(self.tag, b, a)
        } else {
            compare(self.tag, a, b)
        }
    }
}

// How a clustering column orders rows.
fn ordered_by(column: &Column) -> Option<Ordered>
    ensures { result ≡ ordered_by column.now }
{
    column.kind.is_clustering().then_some(Ordered {
        tag: column.tag,
        descending: column.kind.is_descending(),
    })
}

// The orders of these clustering columns, after those so far, where they are few.
fn few_orders(columns: &[Column], so_far: Few) -> Option<Few>
    ensures { IfSome result (λ few. few ≡ so_far ++ filter_map ordered_by columns.now) }
{
    match columns {
        [] => Some(so_far),
        [first, others @ ..] => match ordered_by(first) {
            Some(ordered) => few_orders(others, so_far.with(ordered)?),
            None => few_orders(others, so_far),
        },
    }
}

fn orders(alloc: Global, columns: &[Column]) -> Result<Vec<Ordered>, AllocError>
    ensures { IfOk result (λ v. v.items ≡ filter_map ordered_by columns.now) }
{
    columns.iter().filter_map(|c| ordered_by(c)).collect(alloc)
}

/// How the table of these columns orders its rows.
#[tactic(auto, unfolding(crate::specs::ClusteringOrder::clustering_order))]
pub fn clustering_order(alloc: Global, columns: &[Column]) -> Result<RowOrder, AllocError>
    ensures { IfOk result (λ l. l ≡ clustering_order columns.now) }
{
    match few_orders(columns, Few::none()) {
        Some(few) => Ok(RowOrder::of_few(few)),
        None => Ok(RowOrder::from_vec(orders(alloc, columns)?)),
    }
}

/// The order of two values of the first column.
#[inline]
pub(crate) fn compare_first(order: &[Ordered], a: &[u8], b: &[u8]) -> Ordering
    ensures { result ≡ first_cmp order.now a.now b.now }
{
    match order {
        [] => compare_bytes(a, b),
        [o, _os @ ..] => o.compare(a, b),
    }
}

/// The columns after the first one.
#[inline]
pub(crate) fn later(order: &[Ordered]) -> &[Ordered]
    ensures { result.now ≡ drop 1 order.now }
{
    match order {
        [] => order,
        [_o, os @ ..] => os,
    }
}

/// The order of two clusterings, column by column. A DESC column is reversed.
pub fn compare_values(order: &[Ordered], a: &[Bytes], b: &[Bytes]) -> Ordering
    ensures { result ≡ values_cmp order.now a.now b.now }
{
    match (a, b) {
        ([], []) => Ordering::Equal,
        ([], [_y, _ys @ ..]) => Ordering::Less,
        ([_x, _xs @ ..], []) => Ordering::Greater,
        ([x, xs @ ..], [y, ys @ ..]) => {
            match compare_first(order, x.as_slice(), y.as_slice()) {
                Ordering::Equal => compare_values(later(order), xs, ys),
                decided => decided,
            }
        }
    }
}
