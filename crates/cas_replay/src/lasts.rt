//! What has to be known of the mutations that were read.

ghost use Rattle.std.specs.Prelude.{◌≡◌, ◌<◌, ℕ, List, [], ◌∷◌, ◌++◌, length, OnOk};
ghost use Rattle.cas_atoms.specs.declared.atom.Mutation.{Mutation as MutationOf};
ghost use Rattle.cas_replay.specs.Reading.{follows};
ghost use Rattle.cas_replay.specs.Tops.{place_in, top_at, AreNotesOf};
ghost use Rattle.cas_replay.specs.Inner.Progress.{AreLast};

use crate::tops::Tops;
use cas_atoms::Mutation;
use cas_types::Mem;
use std::alloc::Global;

/// So many shards can a record name.
const SHARDS: usize = 256;

/// Of the mutations that were read, the number of the last one of each shard, and of each table in each shard the greatest.
#[derive(Drop)]
pub(crate) struct Lasts {
    numbers: [Option<u64>; SHARDS],
    /// What is noted of them.
    pub(crate) tops: Tops,
}

impl Lasts {
    /// Those of no mutations.
    pub(crate) fn none(alloc: Global) -> Self
        ensures last { AreLast result.numbers [] }
        ensures tops { (place : ℕ) → top_at result.tops place ≡ 0 }
    {
        Lasts {
            numbers: [None; SHARDS],
            tops: Tops::none(alloc),
        }
    }

    /// Whether a mutation may stand behind those that were read.
    #[tactic(auto, unfolding(crate::specs::Reading::follows))]
    pub(crate) fn allow(&self, mutation: &Mutation) -> bool
        ensures { (read : List MutationOf) → AreLast self.now.numbers read → result ≡ follows read mutation.now }
    {
        match self.numbers[mutation.shard as usize] {
            Some(last) => last < mutation.number && mutation.number - last == 1,
            None => true,
        }
    }

    /// Makes room to note a mutation at its place.
    pub(crate) fn reserve(&mut self, place: usize) -> Result<(), Mem>
        ensures place { OnOk result (place < length self.new.tops.numbers.items) }
        ensures notes { (shards : ℕ) (read : List MutationOf) → AreNotesOf shards self.old.tops read → AreNotesOf shards self.new.tops read }
        ensures numbers { self.new.numbers ≡ self.old.numbers }
    {
        self.tops.reserve(place)
    }

    /// The mutation of this shard and number was read behind them. It is noted at its place, where room was made.
    pub(crate) fn put(&mut self, shard: u8, number: u64, place: usize)
        requires { place < length self.old.tops.numbers.items }
        ensures last { (read : List MutationOf) (m : MutationOf) → AreLast self.old.numbers read → m.shard ≡ shard → m.number ≡ number
            → AreLast self.new.numbers (read ++ m ∷ []) }
        ensures notes { (shards : ℕ) (read : List MutationOf) (m : MutationOf) → AreNotesOf shards self.old.tops read → place ≡ place_in shards m
            → m.number ≡ number → AreNotesOf shards self.new.tops (read ++ m ∷ []) }
    {
        self.numbers[shard as usize] = Some(number);
        self.tops.note(place, number);
    }
}
