//! A slice of a partition in a table's file, as a stream.

ghost use Rattle.std.specs.Prelude.{◌≡◌, ℕ, ◌+◌, List as ListOf, Some, None, true, false, length, IsErrOf, IsSome};
ghost use Rattle.cas_disk.specs.Counts.{Counted};
ghost use Rattle.cas_streams.specs.Sources.{TakesFirst, Shrinks, KeepsFault};
ghost use Rattle.cas_streams.specs.declared.fragment.Fragment.{Fragment};
ghost use Rattle.cas_fragments.specs.Laws.{static_of};
ghost use Rattle.cas_blocks.specs.Reading.{slice_of, IsBadBehind};
ghost use Rattle.cas_blocks.specs.Inner.Pieces.{IsBadBlock, MayBeBad, FindsNoMore, IfBad};
ghost use Rattle.cas_blocks.specs.Inner.Windows.{slice_left, slice_room, static_part, behind_static};

use crate::fault::TableFault;
use crate::file::TableFile;
use crate::origin::{FromFile, Origin};
use crate::pieces::Pieces;
use crate::steps::Onward;
use crate::window::{Phase, Window};
use cas_atoms::RowColumn;
use cas_bounds::Slice;
use cas_cell::Deletion;
use cas_disk::Sealed;
use cas_index::BlockAt;
use cas_skips::Spelled;
use cas_streams::{Fragment, FragmentSource};
use cas_types::List;
use std::mem::drop;

/// What a table's file has of one partition, block by block, as a stream cut to a slice.
#[derive(Drop)]
pub struct Blocks<'a, F: Sealed> {
    top: Option<Deletion>,
    // Where something is still to be given of the static row.
    statics: Option<List<RowColumn>>,
    window: Window<'a>,
    fault: Option<TableFault>,
    file: TableFile<'a, F>,
    tally: F::Tally,
}

// Static columns, where there are some.
fn some_columns(columns: List<RowColumn>) -> Option<List<RowColumn>>
    ensures { static_part result ≡ static_of columns }
{
    match columns.as_slice() {
        [] => None,
        [_first, _others @ ..] => Some(columns),
    }
}

// Before the block, of which only the range deletion in force there is known.
fn onward_from(block: BlockAt) -> Onward
    ensures { result ≡ record { place = block.place; ends = false; goes_on = true; last = None; force = block.in_force } }
{
    Onward {
        place: block.place,
        ends: false,
        goes_on: true,
        last: None,
        force: block.in_force,
    }
}

// The next fragment of a slice that isn't broken: its static columns, and then those behind them.
fn advance<'a, F: Sealed, O: Origin<F>>(
    file: &TableFile<'a, F>,
    statics: &mut Option<List<RowColumn>>,
    window: &mut Window<'a>,
    state: &mut O::State,
) -> Result<Option<Fragment>, TableFault>
    requires fits { O.fits (F.contents file.now.sealed.now) file.now.end state.old }
    ensures first { (fs : ListOf Fragment) → behind_static statics.old
        (slice_left file.now.order.now file.now.columns.now file.now.end (F.contents file.now.sealed.now) window.old) ≡ Some fs
        → TakesFirst fs (behind_static statics.new
        (slice_left file.now.order.now file.now.columns.now file.now.end (F.contents file.now.sealed.now) window.new)) result }
    ensures sound { (fs : ListOf Fragment) → behind_static statics.old
        (slice_left file.now.order.now file.now.columns.now file.now.end (F.contents file.now.sealed.now) window.old) ≡ Some fs
        → IfBad (λ n at. ⊥) result }
    ensures ends { Shrinks (length (static_part statics.old) + slice_room file.now.end window.old)
        (length (static_part statics.new) + slice_room file.now.end window.new) result }
    ensures count { Counted (O.faults state.old) (O.faults state.new) (IsErrOf result TableFault.Read) }
    ensures fits { O.fits (F.contents file.now.sealed.now) file.now.end state.new }
    ensures leads { O.leads state.old state.new }
    ensures bad { IfBad (IsBadBlock file.now.order.now file.now.columns.now file.now.number file.now.end (F.contents file.now.sealed.now)
        window.new.pieces.onward) result }
    ensures narrows { FindsNoMore file.now.order.now file.now.columns.now file.now.number file.now.end (F.contents file.now.sealed.now)
        window.old.pieces.onward window.new.pieces.onward }
    ensures tells { IfBad (MayBeBad file.now.order.now file.now.columns.now file.now.number file.now.end (F.contents file.now.sealed.now)
        window.old.pieces.onward) result }
{
    match statics.take() {
        Some(columns) => Ok(Some(Fragment::Static(columns))),
        None => window.next::<F, O>(file, state),
    }
}

// The next fragment of a slice, which may be broken; where it isn't, a fault breaks it.
fn answer<'a, F: Sealed, O: Origin<F>>(
    file: &TableFile<'a, F>,
    statics: &mut Option<List<RowColumn>>,
    window: &mut Window<'a>,
    fault: &mut Option<TableFault>,
    state: &mut O::State,
) -> Result<Option<Fragment>, TableFault>
    requires fits { O.fits (F.contents file.now.sealed.now) file.now.end state.old }
    ensures first { (fs : ListOf Fragment) → behind_static statics.old
        (slice_left file.now.order.now file.now.columns.now file.now.end (F.contents file.now.sealed.now) window.old) ≡ Some fs
        → TakesFirst fs (behind_static statics.new
        (slice_left file.now.order.now file.now.columns.now file.now.end (F.contents file.now.sealed.now) window.new)) result }
    ensures sound { fault.old ≡ None → (fs : ListOf Fragment) → behind_static statics.old
        (slice_left file.now.order.now file.now.columns.now file.now.end (F.contents file.now.sealed.now) window.old) ≡ Some fs
        → IfBad (λ n at. ⊥) result }
    ensures ends { Shrinks (length (static_part statics.old) + slice_room file.now.end window.old)
        (length (static_part statics.new) + slice_room file.now.end window.new) result }
    ensures faults { KeepsFault fault.old fault.new result }
    ensures count { Counted (O.faults state.old) (O.faults state.new) ((fault.old ≡ None) × IsErrOf result TableFault.Read) }
    ensures fits { O.fits (F.contents file.now.sealed.now) file.now.end state.new }
    ensures leads { O.leads state.old state.new }
    ensures broken { IsSome fault.old → state.new ≡ state.old }
    ensures bad { fault.old ≡ None → IfBad (IsBadBlock file.now.order.now file.now.columns.now file.now.number file.now.end
        (F.contents file.now.sealed.now) window.new.pieces.onward) result }
    ensures narrows { FindsNoMore file.now.order.now file.now.columns.now file.now.number file.now.end (F.contents file.now.sealed.now)
        window.old.pieces.onward window.new.pieces.onward }
    ensures tells { fault.old ≡ None → IfBad (MayBeBad file.now.order.now file.now.columns.now file.now.number file.now.end
        (F.contents file.now.sealed.now) window.old.pieces.onward) result }
{
    if let Some(why) = *fault {
        return Err(why);
    }
    match advance::<F, O>(file, statics, window, state) {
        Ok(fragment) => Ok(fragment),
        Err(why) => {
            *fault = Some(why);
            Err(why)
        }
    }
}

impl<'a, F: Sealed> Blocks<'a, F> {
    /// The slice of a partition whose head tells this deletion of the whole and these static
    /// columns, from the block on that the index finds for the slice, or without rows where it finds
    /// none.
    pub fn new(
        file: TableFile<'a, F>,
        top: Option<Deletion>,
        statics: List<RowColumn>,
        slice: Slice,
        block: Option<BlockAt>,
        tally: F::Tally,
    ) -> Self
        ensures fragments { ⟦<Blocks<'a, F> as FragmentSource>⟧.to_come result ≡ slice_of file.entry.order.now file.entry.columns.now
            (F.contents file.entry.sealed.now) file.entry.end statics slice block }
        ensures top { ⟦<Blocks<'a, F> as FragmentSource>⟧.over_all result ≡ top }
        ensures sound { ⟦<Blocks<'a, F> as FragmentSource>⟧.broken_by result ≡ None }
        ensures tally { result.tally ≡ tally }
        ensures file { (F.contents result.file.sealed.now ≡ F.contents file.entry.sealed.now) × (result.file.end ≡ file.entry.end) }
        ensures narrows { (n at : ℕ) → MayBeBad result.file.order.now result.file.columns.now result.file.number result.file.end
            (F.contents result.file.sealed.now) result.window.pieces.onward n at → IsBadBehind file.entry.order.now file.entry.columns.now
            file.entry.number file.entry.end (F.contents file.entry.sealed.now) block n at }
    {
        let rest = Spelled::none(file.alloc, file.order, file.columns);
        let statics = some_columns(statics);
        let (phase, force, onward) = match block {
            Some(block) => (Phase::Before, block.in_force, Some(onward_from(block))),
            None => (Phase::Over, None, None),
        };
        Blocks {
            top,
            statics,
            window: Window {
                slice,
                phase,
                force,
                ahead: None,
                pieces: Pieces { onward, rest },
            },
            fault: None,
            file,
            tally,
        }
    }

    /// The next fragment, where the blocks come from another origin: the same fragments as those of `next`.
    /// The faults are counted there, and the tally that was handed in stays as it is.
    pub fn next_by<O: Origin<F>>(
        &mut self,
        state: &mut O::State,
    ) -> Result<Option<Fragment>, TableFault>
        requires fits { O.fits (F.contents self.old.file.sealed.now) self.old.file.end state.old }
        ensures same_top { ⟦<Blocks<'a, F> as FragmentSource>⟧.over_all self.new ≡ ⟦<Blocks<'a, F> as FragmentSource>⟧.over_all self.old }
        ensures first { (fs : ListOf Fragment) → ⟦<Blocks<'a, F> as FragmentSource>⟧.to_come self.old ≡ Some fs
            → TakesFirst fs (⟦<Blocks<'a, F> as FragmentSource>⟧.to_come self.new) result }
        ensures ends { Shrinks (⟦<Blocks<'a, F> as FragmentSource>⟧.at_most self.old) (⟦<Blocks<'a, F> as FragmentSource>⟧.at_most self.new) result }
        ensures faults { KeepsFault (⟦<Blocks<'a, F> as FragmentSource>⟧.broken_by self.old) (⟦<Blocks<'a, F> as FragmentSource>⟧.broken_by self.new) result }
        ensures sound { self.old.fault ≡ None → (fs : ListOf Fragment) → ⟦<Blocks<'a, F> as FragmentSource>⟧.to_come self.old ≡ Some fs
            → IfBad (λ n at. ⊥) result }
        ensures file { (F.contents self.new.file.sealed.now ≡ F.contents self.old.file.sealed.now) × (self.new.file.end ≡ self.old.file.end) }
        ensures tally { self.new.tally ≡ self.old.tally }
        ensures fits { O.fits (F.contents self.old.file.sealed.now) self.old.file.end state.new }
        ensures leads { O.leads state.old state.new }
        ensures broken { IsSome self.old.fault → state.new ≡ state.old }
        ensures count { Counted (O.faults state.old) (O.faults state.new) ((self.old.fault ≡ None) × IsErrOf result TableFault.Read) }
        ensures bad { self.old.fault ≡ None → IfBad (IsBadBlock self.old.file.order.now self.old.file.columns.now self.old.file.number
            self.old.file.end (F.contents self.old.file.sealed.now) self.new.window.pieces.onward) result }
        ensures narrows { (n at : ℕ) → MayBeBad self.new.file.order.now self.new.file.columns.now self.new.file.number self.new.file.end
            (F.contents self.new.file.sealed.now) self.new.window.pieces.onward n at → MayBeBad self.old.file.order.now self.old.file.columns.now
            self.old.file.number self.old.file.end (F.contents self.old.file.sealed.now) self.old.window.pieces.onward n at }
        ensures tells { self.old.fault ≡ None → IfBad (MayBeBad self.old.file.order.now self.old.file.columns.now self.old.file.number
            self.old.file.end (F.contents self.old.file.sealed.now) self.old.window.pieces.onward) result }
    {
        answer::<F, O>(
            &self.file,
            &mut self.statics,
            &mut self.window,
            &mut self.fault,
            state,
        )
    }

    /// The tally that was handed in, with the faults of the reads.
    pub fn end(self) -> F::Tally
        ensures { result ≡ self.entry.tally }
    {
        drop(self.statics);
        drop(self.window);
        self.tally
    }
}

impl<'a, F: Sealed> FragmentSource for Blocks<'a, F> {
    ghost use Rattle.std.specs.Prelude.{◌+◌, length};
    ghost use Rattle.cas_blocks.specs.Inner.Windows.{slice_left, slice_room, static_part, behind_static};

    type Fault = TableFault;

    ghost to_come = { λ b. behind_static b.statics (slice_left b.file.order.now b.file.columns.now b.file.end (F.contents b.file.sealed.now) b.window) };

    ghost over_all = { λ b. b.top };

    ghost at_most = { λ b. length (static_part b.statics) + slice_room b.file.end b.window };

    ghost broken_by = { λ b. b.fault };

    fn top(&self) -> Option<Deletion> {
        self.top
    }

    /// The next fragment. A block is bad only where the file has no such partition there, and a read fails
    /// only where the tally rose.
    fn next(&mut self) -> Result<Option<Fragment>, TableFault>
        ensures same_top { ⟦<Blocks<'a, F> as FragmentSource>⟧.over_all self.new ≡ ⟦<Blocks<'a, F> as FragmentSource>⟧.over_all self.old }
        ensures first { (fs : ListOf Fragment) → ⟦<Blocks<'a, F> as FragmentSource>⟧.to_come self.old ≡ Some fs
            → TakesFirst fs (⟦<Blocks<'a, F> as FragmentSource>⟧.to_come self.new) result }
        ensures ends { Shrinks (⟦<Blocks<'a, F> as FragmentSource>⟧.at_most self.old) (⟦<Blocks<'a, F> as FragmentSource>⟧.at_most self.new) result }
        ensures faults { KeepsFault (⟦<Blocks<'a, F> as FragmentSource>⟧.broken_by self.old) (⟦<Blocks<'a, F> as FragmentSource>⟧.broken_by self.new) result }
        ensures sound { self.old.fault ≡ None → (fs : ListOf Fragment) → ⟦<Blocks<'a, F> as FragmentSource>⟧.to_come self.old ≡ Some fs
            → IfBad (λ n at. ⊥) result }
        ensures count { Counted (F.Tally.number self.old.tally) (F.Tally.number self.new.tally)
            ((self.old.fault ≡ None) × IsErrOf result TableFault.Read) }
        ensures bad { self.old.fault ≡ None → IfBad (IsBadBlock self.old.file.order.now self.old.file.columns.now self.old.file.number
            self.old.file.end (F.contents self.old.file.sealed.now) self.new.window.pieces.onward) result }
        ensures narrows { (n at : ℕ) → MayBeBad self.new.file.order.now self.new.file.columns.now self.new.file.number self.new.file.end
            (F.contents self.new.file.sealed.now) self.new.window.pieces.onward n at → MayBeBad self.old.file.order.now self.old.file.columns.now
            self.old.file.number self.old.file.end (F.contents self.old.file.sealed.now) self.old.window.pieces.onward n at }
        ensures tells { self.old.fault ≡ None → IfBad (MayBeBad self.old.file.order.now self.old.file.columns.now self.old.file.number
            self.old.file.end (F.contents self.old.file.sealed.now) self.old.window.pieces.onward) result }
    {
        answer::<F, FromFile>(
            &self.file,
            &mut self.statics,
            &mut self.window,
            &mut self.fault,
            &mut self.tally,
        )
    }
}
