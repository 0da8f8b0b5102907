//! A slice on the way through a partition's fragments.

ghost use Rattle.std.specs.Prelude.{◌≡◌, ◌+◌, ◌≤◌, List, Some, length, IfOk, IsErrOf};
ghost use Rattle.std.specs.Option.{option_to_list};
ghost use Rattle.cas_disk.specs.Counts.{Counted};
ghost use Rattle.cas_streams.specs.Sources.{TakesFirst, Shrinks};
ghost use Rattle.cas_streams.specs.declared.fragment.Fragment.{Fragment};
ghost use Rattle.cas_blocks.specs.Inner.Pieces.{IsBadBlock, FindsNoMore, IfBad};
ghost use Rattle.cas_blocks.specs.Inner.Windows.{slice_left, slice_room, Enters};

use crate::cutting::{closing, opening};
use crate::fault::TableFault;
use crate::file::TableFile;
use crate::origin::Origin;
use crate::pieces::Pieces;
use crate::seeking::{next_inside, seek};
use cas_bounds::Slice;
use cas_cell::Deletion;
use cas_disk::Sealed;
use cas_streams::Fragment;

/// Where a read stands: before the slice's low cut, behind it, or behind the high one.
#[derive(Clone, Copy)]
pub enum Phase {
    Before,
    Inside,
    Over,
}

/// A slice, how far a read of it came, the range deletion in force there, a fragment that was read
/// ahead, and what is to be read behind that.
#[derive(Drop)]
pub struct Window<'a> {
    pub slice: Slice,
    pub phase: Phase,
    pub force: Option<Deletion>,
    pub ahead: Option<Fragment>,
    pub pieces: Pieces<'a>,
}

impl<'a> Window<'a> {
    // Goes into the slice, where the read is before it: gives the marker with which it begins, if
    // something is in force there.
    fn enter<F: Sealed, O: Origin<F>>(
        &mut self,
        file: &TableFile<'a, F>,
        state: &mut O::State,
    ) -> Result<Option<Fragment>, TableFault>
        requires fits { O.fits (F.contents file.now.sealed.now) file.now.end state.old }
        ensures entered { IfOk result (λ m. self.new.phase ≡ Phase.Before → ⊥) }
        ensures told { (fs : List Fragment) →
            slice_left file.now.order.now file.now.columns.now file.now.end (F.contents file.now.sealed.now) self.old ≡ Some fs
            → IfOk result (λ m. Enters fs m (slice_left file.now.order.now file.now.columns.now file.now.end (F.contents file.now.sealed.now) self.new)) }
        ensures sound { (fs : List Fragment) →
            slice_left file.now.order.now file.now.columns.now file.now.end (F.contents file.now.sealed.now) self.old ≡ Some fs
            → IfBad (λ n at. ⊥) result }
        ensures room { IfOk result (λ m. length (option_to_list m) + slice_room file.now.end self.new ≤ slice_room file.now.end self.old) }
        ensures count { Counted (O.faults state.old) (O.faults state.new) (IsErrOf result TableFault.Read) }
        ensures fits { O.fits (F.contents file.now.sealed.now) file.now.end state.new }
        ensures leads { O.leads state.old state.new }
        ensures bad { IfBad (IsBadBlock file.now.order.now file.now.columns.now file.now.number file.now.end (F.contents file.now.sealed.now)
            self.new.pieces.onward) result }
        ensures narrows { FindsNoMore file.now.order.now file.now.columns.now file.now.number file.now.end (F.contents file.now.sealed.now)
            self.old.pieces.onward self.new.pieces.onward }
    {
        if let Phase::Before = self.phase {
            let ahead = seek::<F, O>(file, &mut self.pieces, &self.slice, &mut self.force, state)?;
            self.ahead = ahead;
            self.phase = Phase::Inside;
            return Ok(opening(&self.slice.lo, self.force)?);
        }
        Ok(None)
    }

    /// The next fragment of the slice; none behind the last one.
    pub fn next<F: Sealed, O: Origin<F>>(
        &mut self,
        file: &TableFile<'a, F>,
        state: &mut O::State,
    ) -> Result<Option<Fragment>, TableFault>
        requires fits { O.fits (F.contents file.now.sealed.now) file.now.end state.old }
        ensures first { (fs : List Fragment) →
            slice_left file.now.order.now file.now.columns.now file.now.end (F.contents file.now.sealed.now) self.old ≡ Some fs
            → TakesFirst fs (slice_left file.now.order.now file.now.columns.now file.now.end (F.contents file.now.sealed.now) self.new) result }
        ensures sound { (fs : List Fragment) →
            slice_left file.now.order.now file.now.columns.now file.now.end (F.contents file.now.sealed.now) self.old ≡ Some fs
            → IfBad (λ n at. ⊥) result }
        ensures ends { Shrinks (slice_room file.now.end self.old) (slice_room file.now.end self.new) result }
        ensures count { Counted (O.faults state.old) (O.faults state.new) (IsErrOf result TableFault.Read) }
        ensures fits { O.fits (F.contents file.now.sealed.now) file.now.end state.new }
        ensures leads { O.leads state.old state.new }
        ensures bad { IfBad (IsBadBlock file.now.order.now file.now.columns.now file.now.number file.now.end (F.contents file.now.sealed.now)
            self.new.pieces.onward) result }
        ensures narrows { FindsNoMore file.now.order.now file.now.columns.now file.now.number file.now.end (F.contents file.now.sealed.now)
            self.old.pieces.onward self.new.pieces.onward }
    {
        if let Some(marker) = self.enter::<F, O>(file, state)? {
            return Ok(Some(marker));
        }
        if let Phase::Over = self.phase {
            return Ok(None);
        }
        let ahead = self.ahead.take();
        match next_inside::<F, O>(
            file,
            &mut self.pieces,
            &self.slice,
            &mut self.force,
            ahead,
            state,
        )? {
            Some(fragment) => Ok(Some(fragment)),
            None => {
                self.phase = Phase::Over;
                Ok(closing(&self.slice.hi, self.force)?)
            }
        }
    }
}
