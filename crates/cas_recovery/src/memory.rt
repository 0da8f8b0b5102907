//! What a store has in memory: its tables, its shards with what the log has of them, and its journal.

ghost use Rattle.std.specs.Prelude.{◌≡◌, List, [], ◌∷◌, ◌++◌, length, IfOk, OnOk};
ghost use Rattle.cas_types.specs.declared.schema.TableSchema.{TableSchema as Schema};
ghost use Rattle.cas_atoms.specs.declared.atom.Mutation.{Mutation as MutationOf};
ghost use Rattle.cas_replay.specs.Grammar.{IsWithinLimits};
ghost use Rattle.cas_recovery.specs.Restored.{AreFilledBy, RememberAll, greatest_of};
ghost use Rattle.cas_recovery.specs.Inner.Restoring.{AreRestored, HaveNoFiles, HaveRestored, HasRestored};

use crate::all_shards::{AllShards, Restoring};
use cas_atoms::Mutation;
use cas_bind::Limits;
use cas_disk::Sealed;
use cas_journal::Journal;
use cas_replay::TakesMutations;
use cas_shard::Shard;
use cas_types::{Mem, TableSchema};
use std::alloc::Global;

/// So many shards can a mutation name.
const SHARDS: usize = 256;

/// The last drawn timestamp of a shard that drew none.
pub(crate) const NONE_DRAWN: i64 = -2;

/// A store that was opened: its limits, tables and shards in memory, the frontiers of each table in each shard, table by
/// table, the greatest number that the manifest ever listed a table file under, 0 before the first, how many it lists,
/// and its journal.
#[derive(Drop)]
pub struct Started<S: Sealed> {
    pub limits: Limits,
    pub tables: Vec<TableSchema>,
    pub shards: Vec<Shard<S>>,
    pub frontiers: Vec<u64>,
    pub last_file: u64,
    pub live: u64,
    pub journal: Journal,
}

// So many shards without a mutation.
fn new_shards<S: Sealed>(alloc: Global, count: usize) -> Result<Vec<Shard<S>>, Mem>
    ensures count { IfOk result (λ v. length v.items ≡ count) }
    ensures no_files { IfOk result (λ v. HaveNoFiles v.items) }
    ensures new { IfOk result (λ v. (tables : List Schema) → AreRestored tables [] v.items) }
    ensures memory { IfOk result (λ v. (tables : List Schema) → RememberAll tables [] v.items) }
    ensures filled { IfOk result (λ v. AreFilledBy [] v.items) }
{
    let mut shards = Vec::new(alloc);
    for _shard in 0..count {
        shards.push(Shard::new(alloc))?;
    }
    Ok(shards)
}

impl<S: Sealed> AllShards<S> {
    // Those without a mutation.
    pub(crate) fn new(alloc: Global) -> Result<AllShards<S>, Mem>
        ensures { IfOk result (λ all. HaveRestored [] all) }
    {
        match new_shards(alloc, SHARDS) {
            Ok(shards) => Ok(AllShards { shards }),
            Err(Mem) => Err(Mem),
        }
    }

    // Enters a mutation above those that were restored before it.
    fn restore(&mut self, alloc: Global, mutation: Mutation) -> Result<(), Mem>
        requires { IsWithinLimits mutation }
        ensures { (before : List MutationOf) → HaveRestored before self.old
            → OnOk result (HaveRestored (before ++ mutation ∷ []) self.new) }
    {
        let place = mutation.shard as usize;
        self.shards[place].restore(alloc, mutation)?;
        Ok(())
    }
}

impl<S: Sealed> TakesMutations for Restoring<S> {
    ghost has_taken = { λ mutations r. HasRestored mutations r.shards };

    fn take(&mut self, mutation: Mutation) -> Result<(), Mem> {
        let Some(mut shards) = self.shards.take() else {
            return Err(Mem);
        };
        match shards.restore(self.alloc, mutation) {
            Ok(()) => {
                self.shards = Some(shards);
                Ok(())
            }
            Err(Mem) => Err(Mem),
        }
    }
}

// The first shards, so many, with what was restored of each.
pub(crate) fn restored<S: Sealed>(restoring: Restoring<S>, count: u8) -> Result<Vec<Shard<S>>, Mem>
    ensures count { IfOk result (λ v. length v.items ≡ count) }
    ensures restored { (mutations : List MutationOf) → HasRestored mutations restoring.shards → IfOk result (λ v. HaveRestored mutations v.items) }
{
    let Some(all) = restoring.shards else {
        return Err(Mem);
    };
    let mut shards = all.shards;
    shards.truncate(count as usize);
    Ok(shards)
}

fn add_copy(copies: &mut Vec<TableSchema>, table: &TableSchema) -> Result<(), Mem>
    ensures { OnOk result (copies.new.items ≡ copies.old.items ++ table.now ∷ []) }
{
    copies.push(table.clone()?)?;
    Ok(())
}

pub(crate) fn copied(alloc: Global, tables: &[TableSchema]) -> Result<Vec<TableSchema>, Mem>
    ensures { IfOk result (λ v. v.items ≡ tables.now) }
{
    let mut copies = Vec::new(alloc);
    for table in tables {
        add_copy(&mut copies, table)?;
    }
    Ok(copies)
}

// The limits that were given, with so many shards.
pub(crate) fn with_shards(limits: &Limits, count: u8) -> Limits
    ensures { result ≡ record limits.now { shards = count } }
{
    Limits {
        shards: count,
        segment: limits.segment,
        memtable: limits.memtable,
        compactors: limits.compactors,
    }
}

// The greatest of the numbers, 0 where there is none.
pub(crate) fn greatest_of(numbers: &[u64]) -> u64
    ensures { result ≡ greatest_of numbers.now }
{
    let mut greatest = 0;
    for number in numbers {
        greatest = greatest.max(*number);
    }
    greatest
}
