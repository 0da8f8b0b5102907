//! What is noted of the segments that are listed: of each the greatest numbers of its mutations.

ghost use Rattle.std.specs.Prelude.{◌≡◌, ℕ, List, ◌∷◌, [], ◌++◌, length, drop, IfOk, OnOk, IfSome};
ghost use Rattle.cas_atoms.specs.declared.atom.Mutation.{Mutation as MutationOf};
ghost use Rattle.cas_replay.specs.Tops.{AreNotesOf};
ghost use Rattle.cas_log.specs.Segment.{joined};
ghost use Rattle.cas_journal.specs.Stores.{Found, found_in};
ghost use Rattle.cas_journal.specs.Notes.{Know, HasPlace, HasSpace};
ghost use Rattle.cas_journal.specs.Inner.Noting.{HasNext, IsFirstCovered, IsFirstAbove};

use cas_atoms::Mutation;
use cas_replay::{Tops, place_in};
use cas_types::Mem;
use std::alloc::Global;
use std::mem;

/// A segment, and of each table in each shard the greatest number of its mutations.
#[derive(Drop)]
pub struct Note {
    pub(crate) segment: u64,
    pub(crate) tops: Tops,
}

/// What is noted of the segments that are listed, in their order.
#[derive(Drop)]
pub struct Notes {
    pub(crate) shards: u8,
    pub(crate) list: Vec<Note>,
    /// Where the next segment's mutations will be noted.
    pub(crate) next: Tops,
}

impl Notes {
    /// Those of no segments, in a store of so many shards.
    pub fn none(alloc: Global, shards: u8) -> Notes
        ensures shards { result.shards ≡ shards }
        ensures know { (found : Found) → Know result found [] [] }
    {
        Notes {
            shards,
            list: Vec::new(alloc),
            next: Tops::none(alloc),
        }
    }

    /// Those of segments whose mutations are noted together, with room for one segment more.
    pub fn of(alloc: Global, shards: u8, segments: &[u64], tops: &Tops) -> Result<Notes, Mem>
        ensures shards { IfOk result (λ notes. notes.shards ≡ shards) }
        ensures space { IfOk result HasSpace }
        ensures know { (parts : List (List MutationOf)) → length parts ≡ length segments.now → AreNotesOf shards tops.now (joined parts)
            → IfOk result (λ notes. Know notes (found_in segments.now (joined parts)) segments.now parts) }
    {
        let mut notes = Notes::none(alloc, shards);
        for segment in segments {
            notes.list.push(Note {
                segment: *segment,
                tops: tops.copy()?,
            })?;
        }
        notes.list.reserve(1)?;
        Ok(notes)
    }

    /// Makes room to note a mutation in the last segment, where there is one.
    pub(crate) fn reserve(&mut self, mutation: &Mutation) -> Result<(), Mem>
        ensures place { OnOk result (HasPlace self.new mutation.now) }
        ensures know { (found : Found) (ns : List ℕ) (parts : List (List MutationOf)) → Know self.old found ns parts → Know self.new found ns parts }
        ensures shards { self.new.shards ≡ self.old.shards }
    {
        let place = place_in(self.shards, mutation);
        match self.list.last_mut() {
            Some(note) => note.tops.reserve(place),
            None => Ok(()),
        }
    }

    /// Makes room for the next segment, and to note a mutation in it.
    pub(crate) fn reserve_next(&mut self, mutation: &Mutation) -> Result<(), Mem>
        ensures next { OnOk result (HasNext self.new mutation.now) }
        ensures know { (found : Found) (ns : List ℕ) (parts : List (List MutationOf)) → Know self.old found ns parts → Know self.new found ns parts }
        ensures shards { self.new.shards ≡ self.old.shards }
    {
        self.list.reserve(1)?;
        self.next.reserve(place_in(self.shards, mutation))
    }

    /// Begins the next segment, for which room was made, without mutations.
    pub fn begin(&mut self, alloc: Global, segment: u64)
        requires { HasSpace self.old }
        ensures know { (found : Found) (ns : List ℕ) (parts : List (List MutationOf)) → Know self.old found ns parts
            → Know self.new found (ns ++ segment ∷ []) (parts ++ [] ∷ []) }
        ensures place { (m : MutationOf) → HasNext self.old m → HasPlace self.new m }
        ensures shards { self.new.shards ≡ self.old.shards }
    {
        let tops = mem::replace(&mut self.next, Tops::none(alloc));
        self.list.push_reserved(Note { segment, tops });
    }

    /// Notes a mutation of the last segment, for which room was made.
    pub(crate) fn note(&mut self, mutation: &Mutation)
        requires { HasPlace self.old mutation.now }
        ensures know { (found : Found) (ns : List ℕ) (parts : List (List MutationOf)) (ms : List MutationOf) → Know self.old found ns (parts ++ ms ∷ [])
            → Know self.new found ns (parts ++ (ms ++ mutation.now ∷ []) ∷ []) }
        ensures shards { self.new.shards ≡ self.old.shards }
    {
        let place = place_in(self.shards, mutation);
        if let Some(note) = self.list.last_mut() {
            note.tops.note(place, mutation.number);
        }
    }

    /// The first segment, where all that is noted of it is at or below these frontiers, and it isn't the last.
    pub(crate) fn first_covered(&self, frontiers: &[u64]) -> Option<u64>
        ensures covered { IfSome result (λ number. IsFirstCovered self.now.list.items frontiers.now number) }
        ensures stays { result ≡ None → IsFirstAbove self.now.list.items frontiers.now }
    {
        if self.list.len() < 2 {
            return None;
        }
        let first = &self.list[0];
        if first.tops.are_covered(frontiers) {
            return Some(first.segment);
        }
        None
    }

    /// Lets go of the first segment, where there is one.
    pub(crate) fn drop_first(&mut self)
        ensures list { self.new.list.items ≡ drop 1 self.old.list.items }
        ensures next { self.new.next ≡ self.old.next }
        ensures shards { self.new.shards ≡ self.old.shards }
    {
        if !self.list.is_empty() {
            let _first = self.list.remove(0);
        }
    }
}
