//! The fragments of a partition's blocks, of which one is held at a time.

ghost use Rattle.std.specs.Prelude.{◌≡◌, List as ListOf, Some, [], IsErrOf};
ghost use Rattle.cas_disk.specs.Counts.{Counted};
ghost use Rattle.cas_streams.specs.Sources.{TakesFirst, Shrinks};
ghost use Rattle.cas_streams.specs.declared.fragment.Fragment.{Fragment};
ghost use Rattle.cas_blocks.specs.Inner.Pieces.{left_of, room_of, told_on, IsBadBlock, FindsNoMore, IfBad};

use crate::fault::TableFault;
use crate::file::TableFile;
use crate::origin::Origin;
use crate::steps::{Onward, next_block};
use cas_bounds::Cut;
use cas_disk::Sealed;
use cas_skips::Spelled;
use cas_streams::Fragment;
use std::mem;
use std::mem::drop;

/// What is to be read of a partition: the rest of the block at hand, and how it goes on behind that.
#[derive(Drop)]
pub struct Pieces<'a> {
    pub onward: Option<Onward>,
    pub rest: Spelled<'a>,
}

impl<'a> Pieces<'a> {
    // The next block's first fragment, where nothing is left of the one at hand.
    fn next_in_block<F: Sealed, O: Origin<F>>(
        &mut self,
        file: &TableFile<'a, F>,
        low: Option<&Cut>,
        state: &mut O::State,
    ) -> Result<Option<Fragment>, TableFault>
        requires behind { self.old.rest ≡ [] }
        requires fits { O.fits (F.contents file.now.sealed.now) file.now.end state.old }
        ensures first { (fs : ListOf Fragment) →
            left_of file.now.order.now file.now.columns.now file.now.end (F.contents file.now.sealed.now) self.old ≡ Some fs
            → TakesFirst fs (left_of file.now.order.now file.now.columns.now file.now.end (F.contents file.now.sealed.now) self.new) result }
        ensures sound { (fs : ListOf Fragment) →
            left_of file.now.order.now file.now.columns.now file.now.end (F.contents file.now.sealed.now) self.old ≡ Some fs
            → IfBad (λ n at. ⊥) result }
        ensures ends { Shrinks (room_of file.now.end self.old) (room_of file.now.end self.new) result }
        ensures count { Counted (O.faults state.old) (O.faults state.new) (IsErrOf result TableFault.Read) }
        ensures fits { O.fits (F.contents file.now.sealed.now) file.now.end state.new }
        ensures leads { O.leads state.old state.new }
        ensures bad { IfBad (IsBadBlock file.now.order.now file.now.columns.now file.now.number file.now.end (F.contents file.now.sealed.now)
            self.new.onward) result }
        ensures narrows { FindsNoMore file.now.order.now file.now.columns.now file.now.number file.now.end (F.contents file.now.sealed.now)
            self.old.onward self.new.onward }
    {
        let Some(at) = &self.onward else {
            return Ok(None);
        };
        match next_block::<F, O>(file, at, low, state) {
            Ok(None) => {
                drop(mem::replace(&mut self.onward, None));
                Ok(None)
            }
            Ok(Some(step)) => {
                drop(mem::replace(&mut self.onward, Some(step.onward)));
                drop(mem::replace(&mut self.rest, step.fragments));
                Ok(self.rest.next(file.alloc)?)
            }
            Err(fault) => Err(fault),
        }
    }

    /// The next fragment; none at the partition's end. Where those behind a cut are looked for next,
    /// that is told.
    pub fn next<F: Sealed, O: Origin<F>>(
        &mut self,
        file: &TableFile<'a, F>,
        low: Option<&Cut>,
        state: &mut O::State,
    ) -> Result<Option<Fragment>, TableFault>
        requires fits { O.fits (F.contents file.now.sealed.now) file.now.end state.old }
        ensures first { (fs : ListOf Fragment) →
            left_of file.now.order.now file.now.columns.now file.now.end (F.contents file.now.sealed.now) self.old ≡ Some fs
            → TakesFirst fs (left_of file.now.order.now file.now.columns.now file.now.end (F.contents file.now.sealed.now) self.new) result }
        ensures sound { (fs : ListOf Fragment) →
            left_of file.now.order.now file.now.columns.now file.now.end (F.contents file.now.sealed.now) self.old ≡ Some fs
            → IfBad (λ n at. ⊥) result }
        ensures ends { Shrinks (room_of file.now.end self.old) (room_of file.now.end self.new) result }
        ensures count { Counted (O.faults state.old) (O.faults state.new) (IsErrOf result TableFault.Read) }
        ensures fits { O.fits (F.contents file.now.sealed.now) file.now.end state.new }
        ensures leads { O.leads state.old state.new }
        ensures bad { IfBad (IsBadBlock file.now.order.now file.now.columns.now file.now.number file.now.end (F.contents file.now.sealed.now)
            self.new.onward) result }
        ensures narrows { FindsNoMore file.now.order.now file.now.columns.now file.now.number file.now.end (F.contents file.now.sealed.now)
            self.old.onward self.new.onward }
    {
        match self.rest.next(file.alloc)? {
            Some(fragment) => Ok(Some(fragment)),
            None => self.next_in_block::<F, O>(file, low, state),
        }
    }
}
