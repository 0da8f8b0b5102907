//! The order of rows and cuts, and what lies between two cuts, by hand.

use cas_bounds::{
    Clustering, Cut, MapKey, Ordered, RowOrder, Slice, Values, cmp_cut, compare_values, cut_orders,
    cuts_divide_rows, inside, own_places, row_orders,
};
use cas_types::{Bytes, TypeTag};
use std::alloc::Global;
use std::cmp::Ordering;

// Rows and cuts in their order. The first clustering column is ascending and the second descending, both of
// type int; what comes behind them is ordered by its bytes.
const PLACES: &str = "\
before
row -4 4
row 0 7
before 1
row 1
row 1 7
row 1 6
before 1 5
row 1 5
after 1 5
before 1 4
row 1 4
row 1 2
row 1 2 1
row 1 2 -1
after 1
row 2 7
row 2 1
before 9
after 9
after";

fn order(alloc: Global) -> Option<RowOrder> {
    let mut order = Vec::new(alloc);
    for descending in [false, true] {
        let tag = TypeTag::Int;
        order.push(Ordered { tag, descending }).ok()?;
    }
    Some(RowOrder::from_vec(order))
}

fn values(alloc: Global, line: &str) -> Option<Values> {
    let mut values = Vec::new(alloc);
    for word in line.split(' ').skip(1) {
        let number: i32 = word.parse().ok()?;
        let value = Bytes::copy_of(alloc, &number.to_be_bytes()).ok()?;
        values.push(value).ok()?;
    }
    Some(Values::from_vec(values))
}

fn cut(alloc: Global, line: &str) -> Option<Cut> {
    Some(Cut {
        prefix: values(alloc, line)?,
        after: line.starts_with("after"),
        order: order(alloc)?,
    })
}

fn row(alloc: Global, line: &str) -> Option<Clustering> {
    Some(Clustering {
        values: values(alloc, line)?,
        order: order(alloc)?,
    })
}

fn is_row(line: &str) -> bool {
    line.starts_with("row")
}

fn key(alloc: Global, line: &str) -> Option<MapKey> {
    if is_row(line) {
        Some(MapKey::of_row(row(alloc, line)?))
    } else {
        Some(MapKey::of_cut(cut(alloc, line)?))
    }
}

fn order_of_cuts(alloc: Global, a: &str, b: &str) -> Option<Ordering> {
    let a = cut(alloc, a)?;
    let mut b = cut(alloc, b)?;
    b.order = a.order.clone().ok()?;
    Some(cmp_cut(&a, &b))
}

fn order_of_rows(alloc: Global, a: &str, b: &str) -> Option<Ordering> {
    let order = order(alloc)?;
    let a = values(alloc, a)?;
    let b = values(alloc, b)?;
    Some(compare_values(order.as_slice(), a.as_slice(), b.as_slice()))
}

// One of the partition's ends.
fn end(alloc: Global, after: bool) -> Cut {
    Cut {
        prefix: Values::from_vec(Vec::new(alloc)),
        after,
        order: RowOrder::from_vec(Vec::new(alloc)),
    }
}

fn slice_from(alloc: Global, line: &str) -> Option<Slice> {
    let lo = cut(alloc, line)?;
    let hi = end(alloc, true);
    Some(Slice { lo, hi })
}

fn slice_to(alloc: Global, line: &str) -> Option<Slice> {
    let hi = cut(alloc, line)?;
    let lo = end(alloc, false);
    Some(Slice { lo, hi })
}

fn is_inside(alloc: Global, line: &str, slice: Option<Slice>) -> Option<bool> {
    let row = row(alloc, line)?;
    Some(inside(&row, &slice?))
}

// Whether two places stand so, by what rows and cuts say.
fn stand(alloc: Global, a: &str, b: &str, order: Ordering) -> bool {
    match (is_row(a), is_row(b)) {
        (true, true) => order_of_rows(alloc, a, b) == Some(order),
        (false, false) => order_of_cuts(alloc, a, b) == Some(order),
        (true, false) => is_inside(alloc, a, slice_to(alloc, b)) == Some(order.is_lt()),
        (false, true) => is_inside(alloc, b, slice_from(alloc, a)) == Some(order.is_lt()),
    }
}

// Whether their keys stand so.
fn keys_stand(alloc: Global, a: &str, b: &str, order: Ordering) -> Option<bool> {
    let a = key(alloc, a)?;
    let b = key(alloc, b)?;
    Some(a.cmp(&b) == order)
}

#[test]
fn rows_and_cuts_stand_in_their_order(rt: HostRuntime) {
    for (i, a) in PLACES.lines().enumerate() {
        for (j, b) in PLACES.lines().enumerate() {
            let order = i.cmp(&j);
            assert!(rt; stand(rt.alloc(), a, b, order));
            assert!(rt; keys_stand(rt.alloc(), a, b, order) == Some(true));
        }
    }
}

// Laws have no body: they are called, and nothing is run.
#[test]
fn laws_of_places(rt: HostRuntime) {
    row_orders();
    cut_orders();
    cuts_divide_rows();
    own_places();
}
