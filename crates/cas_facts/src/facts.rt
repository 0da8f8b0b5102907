//! The facts of atoms, and who gathers them.

ghost use Rattle.std.specs.Prelude.{◌≡◌, None, List, [], ◌++◌};
ghost use Rattle.cas_atoms.specs.declared.atom.Atom.{Atom};
ghost use Rattle.cas_facts.specs.Facts.{AreFactsSoFar};
ghost use Rattle.cas_facts.specs.Told.{top_told, told};

use crate::gathering::{with_deletion, with_fragment};
use cas_cell::Deletion;
use cas_streams::Fragment;

/// What is told of atoms: the least and the greatest of their timestamps, in microseconds; and where
/// each of them is deleted or expires, the last second at which one was deleted or expires.
#[derive(Clone, Copy, Debug)]
pub struct Facts {
    pub least: i64,
    pub greatest: i64,
    pub dead: Option<i64>,
}

/// The facts of the atoms that were seen so far, if any were.
#[derive(Clone, Copy, Debug)]
pub struct Tally {
    pub facts: Option<Facts>,
}

impl Tally {
    /// Of no atoms.
    pub fn new() -> Self
        ensures { AreFactsSoFar [] result.facts }
    {
        Tally { facts: None }
    }

    /// With the deletion of a partition as a whole, if it has one.
    pub fn see_top(&mut self, top: Option<Deletion>)
        ensures { (A : List Atom) → AreFactsSoFar A self.old.facts → AreFactsSoFar (A ++ top_told top) self.new.facts }
    {
        self.facts = with_deletion(self.facts, top);
    }

    /// With a fragment of a partition, each of which is to be seen once.
    pub fn see(&mut self, f: &Fragment)
        ensures { (A : List Atom) → AreFactsSoFar A self.old.facts → AreFactsSoFar (A ++ told f.now) self.new.facts }
    {
        self.facts = with_fragment(self.facts, f);
    }
}
