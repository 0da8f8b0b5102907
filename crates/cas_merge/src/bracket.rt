//! Sources joined in pairs, and pairs in pairs.

ghost use Rattle.std.specs.Prelude.{◌≡◌, ◌⊎◌, List, Option, Some, OnOk, IfErr, alloc_error, ◌≤◌, ◌+◌, ◌∷◌, ℕ};
ghost use Rattle.cas_streams.specs.Sources.{TakesFirst, Shrinks};
ghost use Rattle.cas_streams.specs.Merged.{Draw, entered};
ghost use Rattle.cas_streams.specs.Joined.{Stream};
ghost use Rattle.cas_streams.specs.declared.fragment.Fragment.{Fragment};
ghost use Rattle.cas_streams.specs.Joined.{raised, opened};
ghost use Rattle.cas_streams.specs.Settled.{settled_from};
ghost use Rattle.cas_merge.specs.Told.{IsBrokenBy};
ghost use Rattle.cas_merge.specs.Inner.Brackets.{coming, room, with_next, side_room, ahead_of, IsAsked, Steps, Lessens, fresh, left_to_come, IsFresh, Tells};
ghost use Rattle.cas_merge.specs.Inner.Said.{opened_by};

use crate::joining::{joined_fragment, opened, opened_by, raised};
use crate::places::compare_fragments;
use crate::settling::{goes_whole, left_of};
use cas_cell::Deletion;
use cas_streams::{Fragment, FragmentSource};
use std::alloc::{AllocError, Global};
use std::cmp::Ordering;
use std::mem;
use std::mem::drop;

/// What was asked of a side, and not yet given on.
#[derive(Drop)]
pub enum Ahead {
    Unasked,
    Next(Fragment),
    Ended,
}

/// One side of a pair: its next fragment, and the range deletion in force after those given on.
#[derive(Drop)]
pub struct Side {
    pub ahead: Ahead,
    pub in_force: Option<Deletion>,
}

/// Sources joined in pairs, and pairs in pairs, so that a fragment passes as many pairs as the
/// logarithm of their number.
#[derive(Drop)]
pub enum Bracket<I> {
    Nobody,
    Source(I),
    Pair(Box<Bracket<I>>, Side, Box<Bracket<I>>, Side),
}

impl Side {
    /// A side that was asked for nothing yet.
    pub fn new() -> Self
        ensures { result ≡ fresh }
    {
        Side {
            ahead: Ahead::Unasked,
            in_force: None,
        }
    }

    // What comes next of the side, in place of what came of it.
    fn put(&mut self, ahead: Ahead)
        ensures ahead { self.new.ahead ≡ ahead }
        ensures force { self.new.in_force ≡ self.old.in_force }
    {
        drop(mem::replace(&mut self.ahead, ahead));
    }

    // The side's fragment goes on alone, where in the other side that is in force.
    fn pass(&mut self, other: Option<Deletion>, f: Fragment) -> Fragment
        ensures given { result ≡ raised other f }
        ensures force { self.new.in_force ≡ opened self.old.in_force f }
        ensures ahead { self.new.ahead ≡ self.old.ahead }
    {
        self.in_force = opened(self.in_force, &f);
        raised(other, f)
    }
}

// What comes first of the two sides.
fn step(alloc: Global, left: &mut Side, right: &mut Side) -> Result<Option<Fragment>, AllocError>
    requires { IsAsked left.now.ahead × IsAsked right.now.ahead }
    ensures first { Steps left.old right.old left.new right.new result }
    ensures ends { Lessens left.old right.old left.new right.new result }
{
    let first = mem::replace(&mut left.ahead, Ahead::Unasked);
    let second = mem::replace(&mut right.ahead, Ahead::Unasked);
    match (first, second) {
        (Ahead::Next(f), Ahead::Next(g)) => match compare_fragments(&f, &g) {
            Ordering::Less => {
                right.put(Ahead::Next(g));
                Ok(Some(left.pass(right.in_force, f)))
            }
            Ordering::Equal => {
                left.in_force = opened(left.in_force, &f);
                right.in_force = opened(right.in_force, &g);
                Ok(Some(joined_fragment(alloc, f, g)?))
            }
            Ordering::Greater => {
                left.put(Ahead::Next(f));
                Ok(Some(right.pass(left.in_force, g)))
            }
        },
        (Ahead::Next(f), _) => {
            right.put(Ahead::Ended);
            Ok(Some(left.pass(right.in_force, f)))
        }
        (_, Ahead::Next(g)) => {
            left.put(Ahead::Ended);
            Ok(Some(right.pass(left.in_force, g)))
        }
        (_, _) => {
            left.put(Ahead::Ended);
            right.put(Ahead::Ended);
            Ok(None)
        }
    }
}

fn ahead_of(next: Option<Fragment>) -> Ahead
    ensures { result ≡ ahead_of next }
{
    match next {
        Some(f) => Ahead::Next(f),
        None => Ahead::Ended,
    }
}

impl<I: FragmentSource> Bracket<I> {
    /// The next fragment of all sources, with nothing left out.
    #[inline(never)]
    #[cycle(asking)]
    pub fn next(&mut self, alloc: Global) -> Result<Option<Fragment>, I::Fault>
        ensures first { (fs : List Fragment) → coming I.to_come self.old ≡ Some fs → TakesFirst fs (coming I.to_come self.new) result }
        ensures ends { Shrinks (room I.at_most self.old) (room I.at_most self.new) result }
        ensures causes { IfErr result (λ e. IsBrokenBy I.broken_by e self.new ⊎ I.Fault.from_gives alloc_error e) }
    {
        match self {
            Bracket::Nobody => Ok(None),
            Bracket::Source(source) => source.next(),
            Bracket::Pair(left, one, right, other) => {
                left.ask(alloc, one)?;
                right.ask(alloc, other)?;
                Ok(step(alloc, one, other)?)
            }
        }
    }

    // The same, with no way through the pairs where there is one source alone.
    #[inline]
    fn first(&mut self, alloc: Global) -> Result<Option<Fragment>, I::Fault>
        ensures first { (fs : List Fragment) → coming I.to_come self.old ≡ Some fs → TakesFirst fs (coming I.to_come self.new) result }
        ensures ends { Shrinks (room I.at_most self.old) (room I.at_most self.new) result }
        ensures causes { IfErr result (λ e. IsBrokenBy I.broken_by e self.new ⊎ I.Fault.from_gives alloc_error e) }
    {
        match self {
            Bracket::Source(source) => source.next(),
            _ => self.next(alloc),
        }
    }

    // Those sources, in place of what it had.
    #[inline(never)]
    pub(crate) fn put(&mut self, sources: Self)
        ensures { self.new ≡ sources }
    {
        drop(mem::replace(self, sources));
    }

    /// One more source, on the side that has fewer. Nothing was asked yet.
    pub fn enter(&mut self, alloc: Global, source: I) -> Result<(), AllocError>
        requires { IsFresh self.now }
        ensures fresh { OnOk result (IsFresh self.new) }
        ensures told { OnOk result ((d : Draw) (s : Stream) → Tells I.to_come I.over_all self.old d → I.to_come source ≡ Some s.fragments
            → I.over_all source ≡ s.top → Tells I.to_come I.over_all self.new (entered d s)) }
        ensures room { OnOk result (room I.at_most self.new ≡ room I.at_most self.old + I.at_most source) }
    {
        match self {
            Bracket::Nobody => {
                self.put(Bracket::Source(source));
            }
            Bracket::Source(_) => {
                let first = mem::replace(self, Bracket::Nobody);
                let first = Box::new(alloc, first)?;
                let second = Box::new(alloc, Bracket::Source(source))?;
                self.put(Bracket::Pair(first, Side::new(), second, Side::new()));
            }
            Bracket::Pair(left, _, right, _) => {
                right.enter(alloc, source)?;
                mem::swap(left, right);
            }
        }
        Ok(())
    }

    // The next fragment of which, under the top and what is in force, something is left.
    #[inline(never)]
    fn search_left(
        &mut self,
        alloc: Global,
        top: Option<Deletion>,
        now: &mut Option<Deletion>,
    ) -> Result<Option<Fragment>, I::Fault>
        ensures first { (fs : List Fragment) → left_to_come top now.old (coming I.to_come self.old) ≡ Some fs
            → TakesFirst fs (left_to_come top now.new (coming I.to_come self.new)) result }
        ensures ends { Shrinks (room I.at_most self.old) (room I.at_most self.new) result }
        ensures causes { IfErr result (λ e. IsBrokenBy I.broken_by e self.new ⊎ I.Fault.from_gives alloc_error e) }
    {
        while let Some(f) = self.next(alloc)? {
            let before = *now;
            *now = opened(before, &f);
            if let Some(g) = left_of(alloc, top, before, f)? {
                return Ok(Some(g));
            }
        }
        Ok(None)
    }

    // What is left of the fragment that came next, where that was in force before it, or else the next one of
    // which something is.
    #[inline(never)]
    fn left_from(
        &mut self,
        alloc: Global,
        top: Option<Deletion>,
        before: Option<Deletion>,
        f: Fragment,
        now: &mut Option<Deletion>,
    ) -> Result<Option<Fragment>, I::Fault>
        requires { now.old ≡ opened before f }
        ensures first { (fs : List Fragment) → coming I.to_come self.old ≡ Some fs
            → TakesFirst (settled_from top before (f ∷ fs)) (left_to_come top now.new (coming I.to_come self.new)) result }
        ensures ends { Shrinks (room I.at_most self.old + 1) (room I.at_most self.new) result }
        ensures causes { IfErr result (λ e. IsBrokenBy I.broken_by e self.new ⊎ I.Fault.from_gives alloc_error e) }
    {
        if let Some(g) = left_of(alloc, top, before, f)? {
            return Ok(Some(g));
        }
        self.search_left(alloc, top, now)
    }

    // What is left of what came next, in its place: of a fragment, or else of the next one of which something is.
    #[inline(never)]
    fn leave(
        &mut self,
        alloc: Global,
        top: Option<Deletion>,
        before: Option<Deletion>,
        next: &mut Result<Option<Fragment>, I::Fault>,
        now: &mut Option<Deletion>,
    )
        requires { now.old ≡ opened_by before next.old }
        ensures first { (told : Option (List Fragment)) → ((gs : List Fragment) → told ≡ Some gs → TakesFirst gs (coming I.to_come self.old) next.old)
            → (fs : List Fragment) → left_to_come top before told ≡ Some fs → TakesFirst fs (left_to_come top now.new (coming I.to_come self.new)) next.new }
        ensures ends { (n : ℕ) → Shrinks n (room I.at_most self.old) next.old → Shrinks n (room I.at_most self.new) next.new }
        ensures causes { IfErr next.old (λ e. IsBrokenBy I.broken_by e self.old ⊎ I.Fault.from_gives alloc_error e)
            → IfErr next.new (λ e. IsBrokenBy I.broken_by e self.new ⊎ I.Fault.from_gives alloc_error e) }
    {
        match mem::replace(next, Ok(None)) {
            Ok(Some(f)) => {
                let found = self.left_from(alloc, top, before, f, now);
                drop(mem::replace(next, found));
            }
            Ok(None) => {}
            Err(fault) => drop(mem::replace(next, Err(fault))),
        }
    }

    // The same, where what goes on as it is stays where it stands.
    #[inline]
    fn settle(
        &mut self,
        alloc: Global,
        top: Option<Deletion>,
        before: Option<Deletion>,
        next: &mut Result<Option<Fragment>, I::Fault>,
        now: &mut Option<Deletion>,
    )
        requires { now.old ≡ opened_by before next.old }
        ensures first { (told : Option (List Fragment)) → ((gs : List Fragment) → told ≡ Some gs → TakesFirst gs (coming I.to_come self.old) next.old)
            → (fs : List Fragment) → left_to_come top before told ≡ Some fs → TakesFirst fs (left_to_come top now.new (coming I.to_come self.new)) next.new }
        ensures ends { (n : ℕ) → Shrinks n (room I.at_most self.old) next.old → Shrinks n (room I.at_most self.new) next.new }
        ensures causes { IfErr next.old (λ e. IsBrokenBy I.broken_by e self.old ⊎ I.Fault.from_gives alloc_error e)
            → IfErr next.new (λ e. IsBrokenBy I.broken_by e self.new ⊎ I.Fault.from_gives alloc_error e) }
    {
        if goes_whole(top, before, next) {
            return;
        }
        self.leave(alloc, top, before, next, now);
    }

    /// The next fragment of the merge: the next of which, under the top and what is in force, something
    /// is left.
    #[inline]
    pub fn next_left(
        &mut self,
        alloc: Global,
        top: Option<Deletion>,
        now: &mut Option<Deletion>,
    ) -> Result<Option<Fragment>, I::Fault>
        ensures first { (fs : List Fragment) → left_to_come top now.old (coming I.to_come self.old) ≡ Some fs
            → TakesFirst fs (left_to_come top now.new (coming I.to_come self.new)) result }
        ensures ends { Shrinks (room I.at_most self.old) (room I.at_most self.new) result }
        ensures causes { IfErr result (λ e. IsBrokenBy I.broken_by e self.new ⊎ I.Fault.from_gives alloc_error e) }
    {
        let mut next = self.first(alloc);
        let before = *now;
        *now = opened_by(before, &next);
        self.settle(alloc, top, before, &mut next, now);
        next
    }

    // Asks for the side's next fragment, if it wasn't asked for.
    #[cycle(asking)]
    fn ask(&mut self, alloc: Global, side: &mut Side) -> Result<(), I::Fault>
        ensures same { OnOk result ((fs : List Fragment) → with_next side.old.ahead (coming I.to_come self.old) ≡ Some fs
            → with_next side.new.ahead (coming I.to_come self.new) ≡ Some fs) }
        ensures ends { OnOk result (side_room side.new.ahead (room I.at_most self.new) ≤ side_room side.old.ahead (room I.at_most self.old)) }
        ensures force { side.new.in_force ≡ side.old.in_force }
        ensures asked { OnOk result (IsAsked side.new.ahead) }
        ensures causes { IfErr result (λ e. IsBrokenBy I.broken_by e self.new ⊎ I.Fault.from_gives alloc_error e) }
    {
        match &side.ahead {
            Ahead::Unasked => {}
            _ => return Ok(()),
        }
        let next = self.next(alloc)?;
        side.put(ahead_of(next));
        Ok(())
    }
}
