//! What is noted of mutations: of each table in each shard the greatest number.

ghost use Rattle.std.specs.Prelude.{◌≡◌, ◌<◌, ◌≤◌, ℕ, max, if◌then◌else◌, ◌==◌, true, false, List, ◌∷◌, [], ◌++◌, length, OnOk, IfOk};
ghost use Rattle.cas_atoms.specs.declared.atom.Mutation.{Mutation as MutationOf};
ghost use Rattle.cas_replay.specs.Tops.{place_in, number_at, top_at, AreNoted, IsCovered};

use cas_atoms::Mutation;
use cas_types::Mem;
use std::alloc::Global;

/// Of each table in each shard the greatest number of a mutation, table by table, 0 where none is noted: 8 bytes
/// for each, up to the last that is noted, so that 64 tables in 16 shards take 8 KiB.
#[derive(Drop)]
pub struct Tops {
    pub(crate) numbers: Vec<u64>,
}

/// The place of a mutation's table and shard, in a store of so many shards.
pub fn place_in(shards: u8, mutation: &Mutation) -> usize
    ensures { result ≡ place_in shards mutation.now }
{
    mutation.table as usize * shards as usize + mutation.shard as usize
}

impl Tops {
    /// Those of no mutations.
    pub fn none(alloc: Global) -> Tops
        ensures { (place : ℕ) → top_at result place ≡ 0 }
    {
        Tops {
            numbers: Vec::new(alloc),
        }
    }

    /// Makes room at a place.
    pub fn reserve(&mut self, place: usize) -> Result<(), Mem>
        ensures place { OnOk result (place < length self.new.numbers.items) }
        ensures tops { (at : ℕ) → top_at self.new at ≡ top_at self.old at }
    {
        if place < self.numbers.len() {
            return Ok(());
        }
        if place == usize::MAX {
            return Err(Mem);
        }
        self.numbers.resize(place + 1, 0)?;
        Ok(())
    }

    /// Notes the number of a mutation at its place, where room was made.
    pub fn note(&mut self, place: usize, number: u64)
        requires { place < length self.old.numbers.items }
        ensures tops { (at : ℕ) → top_at self.new at ≡ (if at == place then max (top_at self.old at) number else top_at self.old at) }
        ensures length { length self.new.numbers.items ≡ length self.old.numbers.items }
    {
        self.numbers[place] = self.numbers[place].max(number);
    }

    /// Whether all that is noted is at or below these frontiers, which are those of each table in each shard,
    /// table by table.
    pub fn are_covered(&self, frontiers: &[u64]) -> bool
        ensures covered { result ≡ true → IsCovered self.now frontiers.now }
        ensures above { result ≡ false → (place : ℕ) × (number_at frontiers.now place < top_at self.now place) }
    {
        for place in 0..self.numbers.len() {
            let frontier = match frontiers.get(place) {
                Some(frontier) => *frontier,
                None => 0,
            };
            if frontier < self.numbers[place] {
                return false;
            }
        }
        true
    }

    /// The same once more.
    pub fn copy(&self) -> Result<Tops, Mem>
        ensures { IfOk result (λ tops. (place : ℕ) → top_at tops place ≡ top_at self.now place) }
    {
        Ok(Tops {
            numbers: self.numbers.clone()?,
        })
    }
}
