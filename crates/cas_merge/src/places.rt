//! Which of two fragments comes first.

ghost use Rattle.std.specs.Prelude.{◌≡◌};
ghost use Rattle.cas_bounds.specs.Points.{side};
ghost use Rattle.cas_streams.specs.Joined.{fragment_cmp};

use cas_bounds::{Cut, End, compare_points};
use cas_streams::Fragment;
use std::cmp::Ordering;

fn end_of(cut: &Cut) -> End
    ensures { result ≡ side cut.now.after }
{
    if cut.after { End::After } else { End::Before }
}

/// The order of the places of two fragments of one table.
pub fn compare_fragments(f: &Fragment, g: &Fragment) -> Ordering
    ensures { result ≡ fragment_cmp f.now g.now }
{
    match (f, g) {
        (Fragment::Static(_), Fragment::Static(_)) => Ordering::Equal,
        (Fragment::Static(_), Fragment::Row(_)) => Ordering::Less,
        (Fragment::Static(_), Fragment::Marker(_, _)) => Ordering::Less,
        (Fragment::Row(_), Fragment::Static(_)) => Ordering::Greater,
        (Fragment::Marker(_, _), Fragment::Static(_)) => Ordering::Greater,
        (Fragment::Row(r), Fragment::Row(s)) => compare_points(
            r.clustering.order.as_slice(),
            End::Row,
            r.clustering.values.as_slice(),
            End::Row,
            s.clustering.values.as_slice(),
        ),
        (Fragment::Row(r), Fragment::Marker(cut, _)) => compare_points(
            r.clustering.order.as_slice(),
            End::Row,
            r.clustering.values.as_slice(),
            end_of(cut),
            cut.prefix.as_slice(),
        ),
        (Fragment::Marker(cut, _), Fragment::Row(s)) => compare_points(
            cut.order.as_slice(),
            end_of(cut),
            cut.prefix.as_slice(),
            End::Row,
            s.clustering.values.as_slice(),
        ),
        (Fragment::Marker(cut, _), Fragment::Marker(other, _)) => compare_points(
            cut.order.as_slice(),
            end_of(cut),
            cut.prefix.as_slice(),
            end_of(other),
            other.prefix.as_slice(),
        ),
    }
}
