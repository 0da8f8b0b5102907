//! The way of a read into a slice and through it.

ghost use Rattle.std.specs.Prelude.{◌≡◌, ◌+◌, ◌≤◌, List as ListOf, Option, Some, None, [], ◌++◌, length, IfOk, IsErrOf};
ghost use Rattle.std.specs.Option.{option_to_list};
ghost use Rattle.cas_disk.specs.Counts.{Counted};
ghost use Rattle.cas_streams.specs.Sources.{TakesFirst, Shrinks};
ghost use Rattle.cas_streams.specs.declared.fragment.Fragment.{Fragment};
ghost use Rattle.cas_blocks.specs.Inner.Pieces.{left_of, room_of, IsBadBlock, FindsNoMore, IfBad};
ghost use Rattle.cas_blocks.specs.Inner.Windows.{Begun, Comes, GoesOn};

use crate::cutting::{is_before, is_behind, opened};
use crate::fault::TableFault;
use crate::file::TableFile;
use crate::origin::Origin;
use crate::pieces::Pieces;
use cas_bounds::Slice;
use cas_cell::Deletion;
use cas_disk::Sealed;
use cas_streams::Fragment;

// The next fragment behind those of the block at hand that don't stand behind the slice's low cut,
// which are passed over.
fn next_beyond<'a, F: Sealed, O: Origin<F>>(
    file: &TableFile<'a, F>,
    pieces: &mut Pieces<'a>,
    slice: &Slice,
    force: &mut Option<Deletion>,
    state: &mut O::State,
) -> Result<Option<Fragment>, TableFault>
    requires fits { O.fits (F.contents file.now.sealed.now) file.now.end state.old }
    ensures told { (fs : ListOf Fragment) → left_of file.now.order.now file.now.columns.now file.now.end (F.contents file.now.sealed.now) pieces.old ≡ Some fs
        → IfOk result (λ next. Comes file.now.order.now slice.now force.old force.new fs next
        (left_of file.now.order.now file.now.columns.now file.now.end (F.contents file.now.sealed.now) pieces.new)) }
    ensures sound { (fs : ListOf Fragment) → left_of file.now.order.now file.now.columns.now file.now.end (F.contents file.now.sealed.now) pieces.old ≡ Some fs
        → IfBad (λ n at. ⊥) result }
    ensures ends { Shrinks (room_of file.now.end pieces.old) (room_of file.now.end pieces.new) result }
    ensures count { Counted (O.faults state.old) (O.faults state.new) (IsErrOf result TableFault.Read) }
    ensures fits { O.fits (F.contents file.now.sealed.now) file.now.end state.new }
    ensures leads { O.leads state.old state.new }
    ensures bad { IfBad (IsBadBlock file.now.order.now file.now.columns.now file.now.number file.now.end (F.contents file.now.sealed.now)
        pieces.new.onward) result }
    ensures narrows { FindsNoMore file.now.order.now file.now.columns.now file.now.number file.now.end (F.contents file.now.sealed.now)
        pieces.old.onward pieces.new.onward }
{
    let now = pieces.rest.skip(file.alloc, file.order, &slice.lo, *force)?;
    *force = now;
    pieces.next::<F, O>(file, Some(&slice.lo), state)
}

// Goes up to the first fragment behind the slice's low cut; none where the partition ends before.
pub(crate) fn seek<'a, F: Sealed, O: Origin<F>>(
    file: &TableFile<'a, F>,
    pieces: &mut Pieces<'a>,
    slice: &Slice,
    force: &mut Option<Deletion>,
    state: &mut O::State,
) -> Result<Option<Fragment>, TableFault>
    requires fits { O.fits (F.contents file.now.sealed.now) file.now.end state.old }
    ensures told { (fs : ListOf Fragment) → left_of file.now.order.now file.now.columns.now file.now.end (F.contents file.now.sealed.now) pieces.old ≡ Some fs
        → IfOk result (λ ahead. Begun file.now.order.now slice.now force.old force.new fs ahead
        (left_of file.now.order.now file.now.columns.now file.now.end (F.contents file.now.sealed.now) pieces.new)) }
    ensures sound { (fs : ListOf Fragment) → left_of file.now.order.now file.now.columns.now file.now.end (F.contents file.now.sealed.now) pieces.old ≡ Some fs
        → IfBad (λ n at. ⊥) result }
    ensures room { IfOk result (λ ahead. length (option_to_list ahead) + room_of file.now.end pieces.new ≤ room_of file.now.end pieces.old) }
    ensures count { Counted (O.faults state.old) (O.faults state.new) (IsErrOf result TableFault.Read) }
    ensures fits { O.fits (F.contents file.now.sealed.now) file.now.end state.new }
    ensures leads { O.leads state.old state.new }
    ensures bad { IfBad (IsBadBlock file.now.order.now file.now.columns.now file.now.number file.now.end (F.contents file.now.sealed.now)
        pieces.new.onward) result }
    ensures narrows { FindsNoMore file.now.order.now file.now.columns.now file.now.number file.now.end (F.contents file.now.sealed.now)
        pieces.old.onward pieces.new.onward }
{
    while let Some(fragment) = next_beyond::<F, O>(file, pieces, slice, force, state)? {
        if is_behind(file.order, &slice.lo, &fragment) {
            return Ok(Some(fragment));
        }
        *force = opened(*force, &fragment);
        drop(fragment);
    }
    Ok(None)
}

// The next fragment, of which one may have been read ahead.
fn draw<'a, F: Sealed, O: Origin<F>>(
    file: &TableFile<'a, F>,
    pieces: &mut Pieces<'a>,
    ahead: Option<Fragment>,
    state: &mut O::State,
) -> Result<Option<Fragment>, TableFault>
    requires fits { O.fits (F.contents file.now.sealed.now) file.now.end state.old }
    ensures first { (fs : ListOf Fragment) → left_of file.now.order.now file.now.columns.now file.now.end (F.contents file.now.sealed.now) pieces.old ≡ Some fs
        → TakesFirst (option_to_list ahead ++ fs)
        (left_of file.now.order.now file.now.columns.now file.now.end (F.contents file.now.sealed.now) pieces.new) result }
    ensures sound { (fs : ListOf Fragment) → left_of file.now.order.now file.now.columns.now file.now.end (F.contents file.now.sealed.now) pieces.old ≡ Some fs
        → IfBad (λ n at. ⊥) result }
    ensures ends { Shrinks (length (option_to_list ahead) + room_of file.now.end pieces.old) (room_of file.now.end pieces.new) result }
    ensures count { Counted (O.faults state.old) (O.faults state.new) (IsErrOf result TableFault.Read) }
    ensures fits { O.fits (F.contents file.now.sealed.now) file.now.end state.new }
    ensures leads { O.leads state.old state.new }
    ensures bad { IfBad (IsBadBlock file.now.order.now file.now.columns.now file.now.number file.now.end (F.contents file.now.sealed.now)
        pieces.new.onward) result }
    ensures narrows { FindsNoMore file.now.order.now file.now.columns.now file.now.number file.now.end (F.contents file.now.sealed.now)
        pieces.old.onward pieces.new.onward }
{
    match ahead {
        Some(fragment) => Ok(Some(fragment)),
        None => pieces.next::<F, O>(file, None, state),
    }
}

// The next fragment before the slice's high cut; none where there is none.
pub(crate) fn next_inside<'a, F: Sealed, O: Origin<F>>(
    file: &TableFile<'a, F>,
    pieces: &mut Pieces<'a>,
    slice: &Slice,
    force: &mut Option<Deletion>,
    ahead: Option<Fragment>,
    state: &mut O::State,
) -> Result<Option<Fragment>, TableFault>
    requires fits { O.fits (F.contents file.now.sealed.now) file.now.end state.old }
    ensures told { (fs : ListOf Fragment) → left_of file.now.order.now file.now.columns.now file.now.end (F.contents file.now.sealed.now) pieces.old ≡ Some fs
        → IfOk result (λ next. GoesOn file.now.order.now slice.now force.old force.new (option_to_list ahead ++ fs) next
        (left_of file.now.order.now file.now.columns.now file.now.end (F.contents file.now.sealed.now) pieces.new)) }
    ensures sound { (fs : ListOf Fragment) → left_of file.now.order.now file.now.columns.now file.now.end (F.contents file.now.sealed.now) pieces.old ≡ Some fs
        → IfBad (λ n at. ⊥) result }
    ensures room { IfOk result (λ next. length (option_to_list next) + room_of file.now.end pieces.new
        ≤ length (option_to_list ahead) + room_of file.now.end pieces.old) }
    ensures count { Counted (O.faults state.old) (O.faults state.new) (IsErrOf result TableFault.Read) }
    ensures fits { O.fits (F.contents file.now.sealed.now) file.now.end state.new }
    ensures leads { O.leads state.old state.new }
    ensures bad { IfBad (IsBadBlock file.now.order.now file.now.columns.now file.now.number file.now.end (F.contents file.now.sealed.now)
        pieces.new.onward) result }
    ensures narrows { FindsNoMore file.now.order.now file.now.columns.now file.now.number file.now.end (F.contents file.now.sealed.now)
        pieces.old.onward pieces.new.onward }
{
    let Some(fragment) = draw::<F, O>(file, pieces, ahead, state)? else {
        return Ok(None);
    };
    if is_before(file.order, &slice.hi, &fragment) {
        *force = opened(*force, &fragment);
        return Ok(Some(fragment));
    }
    drop(fragment);
    Ok(None)
}
