//! Where fragments stand beside the cuts of a slice.

ghost use Rattle.std.specs.Prelude.{◌≡◌, IfOk};
ghost use Rattle.std.specs.Option.{option_to_list};
ghost use Rattle.cas_bounds.specs.Points.{side};
ghost use Rattle.cas_streams.specs.Joined.{opened};
ghost use Rattle.cas_streams.specs.Slices.{opened_at, closed_at};
ghost use Rattle.cas_blocks.specs.Cutting.{is_behind, is_before};

use cas_bounds::{Cut, End, RowOrder, compare_points};
use cas_cell::Deletion;
use cas_streams::Fragment;
use std::alloc::AllocError;

// The end of a cut.
fn end_of(cut: &Cut) -> End
    ensures { result ≡ side cut.now.after }
{
    if cut.after { End::After } else { End::Before }
}

/// Whether a fragment stands behind a cut.
pub fn is_behind(order: &RowOrder, cut: &Cut, fragment: &Fragment) -> bool
    ensures { result ≡ is_behind order.now cut.now fragment.now }
{
    let end = end_of(cut);
    match fragment {
        Fragment::Static(_) => false,
        Fragment::Row(row) => {
            let values = row.clustering.values.as_slice();
            compare_points(
                order.as_slice(),
                end,
                cut.prefix.as_slice(),
                End::Row,
                values,
            )
            .is_lt()
        }
        Fragment::Marker(k, _) => {
            let values = k.prefix.as_slice();
            compare_points(
                order.as_slice(),
                end,
                cut.prefix.as_slice(),
                end_of(k),
                values,
            )
            .is_lt()
        }
    }
}

/// Whether a fragment stands before a cut.
pub fn is_before(order: &RowOrder, cut: &Cut, fragment: &Fragment) -> bool
    ensures { result ≡ is_before order.now cut.now fragment.now }
{
    let end = end_of(cut);
    match fragment {
        Fragment::Static(_) => true,
        Fragment::Row(row) => {
            let values = row.clustering.values.as_slice();
            compare_points(
                order.as_slice(),
                End::Row,
                values,
                end,
                cut.prefix.as_slice(),
            )
            .is_lt()
        }
        Fragment::Marker(k, _) => {
            let values = k.prefix.as_slice();
            compare_points(
                order.as_slice(),
                end_of(k),
                values,
                end,
                cut.prefix.as_slice(),
            )
            .is_lt()
        }
    }
}

/// The range deletion in force behind a fragment.
pub fn opened(force: Option<Deletion>, fragment: &Fragment) -> Option<Deletion>
    ensures { result ≡ opened force fragment.now }
{
    match fragment {
        Fragment::Marker(_, deletion) => *deletion,
        Fragment::Static(_) => force,
        Fragment::Row(_) => force,
    }
}

/// The marker from which on a deletion is in force, where one is.
pub fn opening(cut: &Cut, force: Option<Deletion>) -> Result<Option<Fragment>, AllocError>
    ensures { IfOk result (λ f. option_to_list f ≡ opened_at cut.now force) }
{
    match force {
        Some(_) => Ok(Some(Fragment::Marker(cut.copied()?, force))),
        None => Ok(None),
    }
}

/// The marker from which on it isn't in force any more.
pub fn closing(cut: &Cut, force: Option<Deletion>) -> Result<Option<Fragment>, AllocError>
    ensures { IfOk result (λ f. option_to_list f ≡ closed_at cut.now force) }
{
    match force {
        Some(_) => Ok(Some(Fragment::Marker(cut.copied()?, None))),
        None => Ok(None),
    }
}
