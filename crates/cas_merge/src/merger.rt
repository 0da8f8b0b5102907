//! The merge of sources, itself a source.

ghost use Rattle.std.specs.Prelude.{◌≡◌, ◌⊎◌, List, [], ◌++◌, Option, None, Some, IfOk, OnOk, IfErr, IfSome, alloc_error};
ghost use Rattle.std.specs.Option.{option_to_list};
ghost use Rattle.cas_cell.specs.Deletions.{deletion_cmp};
ghost use Rattle.cas_atoms.specs.Greatest.{greatest};
ghost use Rattle.cas_streams.specs.Joined.{Stream};
ghost use Rattle.cas_streams.specs.Merged.{draw, joined_all, merged};
ghost use Rattle.cas_merge.specs.Told.{streams_told, HasGiven, IsBrokenBy};
ghost use Rattle.cas_merge.specs.Inner.Brackets.{coming, room};
ghost use Rattle.cas_merge.specs.Inner.Mergers.{rooms, merger_to_come, merger_room};
ghost use Rattle.cas_streams.specs.Sources.{TakesFirst, Shrinks, KeepsFault};
ghost use Rattle.cas_streams.specs.declared.fragment.Fragment.{Fragment};

use crate::bracket::Bracket;
use crate::joining::first_of;
use cas_atoms::greater_deletion;
use cas_cell::Deletion;
use cas_streams::{Fragment, FragmentSource};
use std::alloc::{AllocError, Global};
use std::mem;
use std::mem::drop;

// The greatest of the sources' deletions of the whole partition.
fn greatest_top<I: FragmentSource>(sources: &[I]) -> Option<Deletion>
    ensures { result ≡ greatest deletion_cmp I.over_all sources.now }
{
    match sources {
        [] => None,
        [source, rest @ ..] => greater_deletion(source.top(), greatest_top(rest)),
    }
}

// The sources in pairs.
#[inline(never)]
fn bracket_of<I: FragmentSource>(alloc: Global, sources: Vec<I>) -> Result<Bracket<I>, AllocError>
    ensures told { IfOk result (λ b. (ss : List Stream) → streams_told I.to_come I.over_all sources.items ≡ Some ss
        → coming I.to_come b ≡ Some (joined_all (draw ss)).fragments) }
    ensures room { IfOk result (λ b. room I.at_most b ≡ rooms I.at_most sources.items) }
{
    let mut bracket = Bracket::Nobody;
    let mut rest = sources.into_iter();
    while let Some(source) = first_of(&mut rest) {
        match bracket.enter(alloc, source) {
            Ok(()) => {}
            Err(fault) => {
                drop(bracket);
                return Err(fault);
            }
        }
    }
    Ok(bracket)
}

/// The merge of sources of one partition.
#[derive(Drop)]
pub struct Merger<I: FragmentSource> {
    top: Option<Deletion>,
    in_force: Option<Deletion>,
    waiting: Vec<I>,
    bracket: Bracket<I>,
    broken: Option<I::Fault>,
    ghost caused: { ∥ IfSome broken (λ e. IsBrokenBy I.broken_by e bracket ⊎ I.Fault.from_gives alloc_error e) ∥₁ },
}

impl<I: FragmentSource> Merger<I> {
    /// The merge of these sources. It takes no memory before the first fragment is asked for.
    pub fn new(sources: Vec<I>) -> Self
        ensures fragments { (ss : List Stream) → streams_told I.to_come I.over_all sources.items ≡ Some ss
            → ⟦<Merger<I> as FragmentSource>⟧.to_come result ≡ Some (merged ss).fragments }
        ensures top { (ss : List Stream) → streams_told I.to_come I.over_all sources.items ≡ Some ss
            → ⟦<Merger<I> as FragmentSource>⟧.over_all result ≡ (merged ss).top }
        ensures begins { (ss : List Stream) → streams_told I.to_come I.over_all sources.items ≡ Some ss
            → HasGiven ss [] (⟦<Merger<I> as FragmentSource>⟧.to_come result) }
        ensures sound { ⟦<Merger<I> as FragmentSource>⟧.broken_by result ≡ None }
    {
        Merger {
            top: greatest_top(&sources),
            in_force: None,
            waiting: sources,
            bracket: Bracket::Nobody,
            broken: None,
        }
    }

    /// The sources that were asked, in their pairs and at the places that were reached, also after a
    /// fault. A fault is one that broke one of them, or want of memory.
    pub fn end(self) -> Bracket<I>
        ensures bracket { result ≡ self.bracket }
        ensures causes { ∥ IfSome (⟦<Merger<I> as FragmentSource>⟧.broken_by self) (λ e. IsBrokenBy I.broken_by e result ⊎ I.Fault.from_gives alloc_error e) ∥₁ }
    {
        self.bracket
    }

    // Lets the sources that wait enter the pairs.
    #[inline(never)]
    fn begin(&mut self) -> Result<(), I::Fault>
        requires { self.old.broken ≡ None }
        ensures top { self.new.top ≡ self.old.top }
        ensures broken { self.new.broken ≡ self.old.broken }
        ensures begun { OnOk result ((self.new.waiting.items ≡ []) × (self.new.in_force ≡ None)) }
        ensures told { OnOk result ((ss : List Stream) → streams_told I.to_come I.over_all self.old.waiting.items ≡ Some ss
            → coming I.to_come self.new.bracket ≡ Some (joined_all (draw ss)).fragments) }
        ensures room { OnOk result (room I.at_most self.new.bracket ≡ rooms I.at_most self.old.waiting.items) }
        ensures causes { IfErr result (λ e. I.Fault.from_gives alloc_error e) }
    {
        let alloc = *self.waiting.allocator();
        let sources = mem::replace(&mut self.waiting, Vec::new(alloc));
        let bracket = bracket_of(alloc, sources)?;
        self.bracket.put(bracket);
        self.in_force = None;
        Ok(())
    }

    // The same, where any wait. A fault breaks the merger.
    #[inline]
    fn start(&mut self) -> Result<(), I::Fault>
        requires { self.old.broken ≡ None }
        ensures top { self.new.top ≡ self.old.top }
        ensures begun { OnOk result (self.new.waiting.items ≡ []) }
        ensures told { OnOk result ((fs : List Fragment) → merger_to_come I.to_come I.over_all self.old.top self.old.in_force self.old.waiting.items
            self.old.bracket ≡ Some fs → merger_to_come I.to_come I.over_all self.new.top self.new.in_force self.new.waiting.items
            self.new.bracket ≡ Some fs) }
        ensures room { OnOk result (merger_room I.at_most self.new.waiting.items self.new.bracket
            ≡ merger_room I.at_most self.old.waiting.items self.old.bracket) }
        ensures sound { OnOk result (self.new.broken ≡ None) }
        ensures broken { IfErr result (λ e. self.new.broken ≡ Some e) }
    {
        if self.waiting.is_empty() {
            return Ok(());
        }
        match self.begin() {
            Ok(()) => Ok(()),
            Err(fault) => {
                self.broken = Some(fault);
                Err(fault)
            }
        }
    }

    // The next fragment, of a merger that isn't broken and of which no source waits.
    #[inline]
    fn advance(&mut self) -> Result<Option<Fragment>, I::Fault>
        requires sound { self.old.broken ≡ None }
        requires begun { self.old.waiting.items ≡ [] }
        ensures top { self.new.top ≡ self.old.top }
        ensures broken { self.new.broken ≡ self.old.broken }
        ensures first { (fs : List Fragment) → merger_to_come I.to_come I.over_all self.old.top self.old.in_force self.old.waiting.items
            self.old.bracket ≡ Some fs → TakesFirst fs (merger_to_come I.to_come I.over_all self.new.top self.new.in_force self.new.waiting.items
            self.new.bracket) result }
        ensures ends { Shrinks (merger_room I.at_most self.old.waiting.items self.old.bracket)
            (merger_room I.at_most self.new.waiting.items self.new.bracket) result }
        ensures causes { IfErr result (λ e. IsBrokenBy I.broken_by e self.new.bracket ⊎ I.Fault.from_gives alloc_error e) }
    {
        let alloc = *self.waiting.allocator();
        self.bracket.next_left(alloc, self.top, &mut self.in_force)
    }
}

impl<I: FragmentSource> FragmentSource for Merger<I> {
    ghost use Rattle.cas_merge.specs.Inner.Mergers.{merger_to_come, merger_room};

    type Fault = I::Fault;

    ghost to_come = { λ m. merger_to_come I.to_come I.over_all m.top m.in_force m.waiting.items m.bracket };

    ghost over_all = { λ m. m.top };

    ghost at_most = { λ m. merger_room I.at_most m.waiting.items m.bracket };

    ghost broken_by = { λ m. m.broken };

    fn top(&self) -> Option<Deletion> {
        self.top
    }

    /// At each call of a merger that tells its fragments, those given so far and those to come are the
    /// merge, which is the join by places.
    #[inline]
    fn next(&mut self) -> Result<Option<Fragment>, I::Fault>
        ensures same_top { self.new.top ≡ self.old.top }
        ensures first { (fs : List Fragment) → merger_to_come I.to_come I.over_all self.old.top self.old.in_force self.old.waiting.items
            self.old.bracket ≡ Some fs → TakesFirst fs (merger_to_come I.to_come I.over_all self.new.top self.new.in_force self.new.waiting.items
            self.new.bracket) result }
        ensures ends { Shrinks (merger_room I.at_most self.old.waiting.items self.old.bracket)
            (merger_room I.at_most self.new.waiting.items self.new.bracket) result }
        ensures faults { KeepsFault self.old.broken self.new.broken result }
        ensures goes_on { IfOk result (λ f. (ss : List Stream) (given : List Fragment)
            → HasGiven ss given (merger_to_come I.to_come I.over_all self.old.top self.old.in_force self.old.waiting.items self.old.bracket)
            → HasGiven ss (given ++ option_to_list f) (merger_to_come I.to_come I.over_all self.new.top self.new.in_force self.new.waiting.items
            self.new.bracket)) }
    {
        if let Some(fault) = self.broken {
            return Err(fault);
        }
        if let Err(fault) = self.start() {
            return Err(fault);
        }
        let answer = self.advance();
        if let Err(fault) = &answer {
            self.broken = Some(*fault);
            return answer;
        }
        answer
    }
}
