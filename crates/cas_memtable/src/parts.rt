//! The memtables of a table in a shard.

ghost use Rattle.std.specs.Prelude.{◌≡◌, None, map};
ghost use Rattle.std.specs.Arc.{arc_value};
ghost use Rattle.cas_memtable.specs.Inner.Least.{earlier_of, least_in};

use crate::MemPart;
use crate::sources::gathered;
use cas_atoms::Mutation;
use cas_bounds::Slice;
use cas_partition::PartitionStream;
use cas_streams::FragmentSource;
use cas_types::{Bytes, Mem};
use std::alloc::{AllocError, Global};
use std::mem;
use std::sync::Arc;

/// The memtables of a table: the one that is written to, and before it those that are frozen, the
/// oldest first. A frozen one doesn't change, so that it can be read and written to a file at once.
#[derive(Drop)]
pub struct Parts {
    pub(crate) frozen: Vec<Arc<MemPart, Global>>,
    pub(crate) active: MemPart,
}

// The earlier of two timestamps, of which there may be none.
fn earlier(a: Option<i64>, b: Option<i64>) -> Option<i64>
    ensures { result ≡ earlier_of a b }
{
    match (a, b) {
        (Some(a), Some(b)) => if b < a { Some(b) } else { Some(a) },
        (Some(a), None) => Some(a),
        (None, b) => b,
    }
}

// The least timestamp of frozen memtables under a key.
fn least_frozen(frozen: &[Arc<MemPart, Global>], key: &Bytes) -> Option<i64>
    ensures { result ≡ least_in key.now (map arc_value frozen.now) }
{
    let mut least = None;
    for memtable in frozen {
        least = earlier(least, memtable.least(key));
    }
    least
}

impl Parts {
    ghost use Rattle.std.specs.Prelude.{◌≡◌, ◌++◌, ◌∷◌, ◌≤◌, [], List as ListOf, None, IfOk, OnOk, OnErr, is_ok, ◌&&◌, not, ◌==◌, if◌then◌else◌, length, drop};
    ghost use Rattle.cas_bounds.specs.declared.order.Ordered.{Ordered as Order};
    ghost use Rattle.cas_atoms.specs.declared.atom.Mutation.{Mutation as Wrote};
    ghost use Rattle.cas_memtable.specs.Memtables.{HasPlaces, bytes_with, least_with};
    ghost use Rattle.cas_partition.specs.Partitions.{AllFit, AreAtomsOf};
    ghost use Rattle.cas_types.specs.declared.schema.Column.{Column as ColumnOf};
    ghost use Rattle.cas_memtable.specs.Kept.{IsOfTable, Keeps, ShowPartition, all_of, atoms_under, begun, memtables_of, with_one};

    /// One memtable, which holds nothing.
    pub fn new(alloc: Global) -> Self
        ensures keeps { (order : ListOf Order) → Keeps order result ([] ∷ []) }
        ensures columns { (columns : ListOf ColumnOf) → IsOfTable columns result }
        ensures bytes { result.active.bytes ≡ 0 }
    {
        Parts {
            frozen: Vec::new(alloc),
            active: MemPart::new(alloc),
        }
    }

    /// Makes place for a mutation, which `apply` then takes without memory.
    pub fn reserve(&mut self, mutation: &Mutation) -> Result<(), AllocError>
        ensures places { OnOk result (HasPlaces self.new.active mutation.now) }
        ensures keeps { (order : ListOf Order) (wss : ListOf (ListOf Wrote)) → Keeps order self.old wss → AreAtomsOf order mutation.now.atoms
            → Keeps order self.new wss }
        ensures columns { (columns : ListOf ColumnOf) → IsOfTable columns self.old → AllFit columns mutation.now.atoms → IsOfTable columns self.new }
        ensures bytes { self.new.active.bytes ≡ self.old.active.bytes }
    {
        self.active.reserve(mutation)
    }

    /// Joins a mutation for which place was made.
    pub fn apply(&mut self, mutation: Mutation)
        requires { HasPlaces self.old.active mutation }
        ensures keeps { (order : ListOf Order) (wss : ListOf (ListOf Wrote)) → Keeps order self.old wss → AreAtomsOf order mutation.atoms
            → Keeps order self.new (with_one mutation wss) }
        ensures columns { (columns : ListOf ColumnOf) → IsOfTable columns self.old → AllFit columns mutation.atoms → IsOfTable columns self.new }
        ensures bytes { self.new.active.bytes ≡ bytes_with self.old.active.bytes mutation }
    {
        self.active.apply(mutation);
    }

    /// Makes place for a mutation and joins it. After an error all is as before.
    pub fn insert(&mut self, mutation: Mutation) -> Result<(), AllocError>
        ensures keeps { (order : ListOf Order) (wss : ListOf (ListOf Wrote)) → Keeps order self.old wss → AreAtomsOf order mutation.atoms
            → Keeps order self.new (if is_ok result then with_one mutation wss else wss) }
        ensures columns { (columns : ListOf ColumnOf) → IsOfTable columns self.old → AllFit columns mutation.atoms → IsOfTable columns self.new }
        ensures bytes { self.new.active.bytes ≡ (if is_ok result then bytes_with self.old.active.bytes mutation else self.old.active.bytes) }
    {
        self.active.insert(mutation)
    }

    /// The sources of a partition in a slice, one of each memtable that has something under the key.
    /// Their merge is the partition.
    pub fn sources<'a>(
        &'a self,
        alloc: Global,
        key: &Bytes,
        slice: &Slice,
    ) -> Result<Vec<PartitionStream<'a>>, AllocError>
        ensures { IfOk result (λ v. (order : ListOf Order) (wss : ListOf (ListOf Wrote)) → Keeps order self.now wss
            → slice.now.lo.order ≡ order → slice.now.hi.order ≡ order
            → ShowPartition ⟦<PartitionStream<'a> as FragmentSource>⟧.to_come ⟦<PartitionStream<'a> as FragmentSource>⟧.over_all
            order slice.now key.now (memtables_of self.now) (all_of wss) v.items) }
    {
        gathered(alloc, &self.frozen, &self.active, key, slice)
    }

    /// The least timestamp of all that was written under the key; none where nothing was.
    pub fn least(&self, key: &Bytes) -> Option<i64>
        ensures { (order : ListOf Order) (wss : ListOf (ListOf Wrote)) → Keeps order self.now wss
            → result ≡ least_with None (atoms_under key.now (all_of wss)) }
    {
        earlier(least_frozen(&self.frozen, key), self.active.least(key))
    }

    /// The bytes of the memtable that is written to, by which it is frozen: the sum of the lengths of
    /// the records that have atoms, and 2^64-1 where it is greater.
    pub fn bytes(&self) -> u64
        ensures { result ≡ self.now.active.bytes }
    {
        self.active.bytes()
    }

    /// The frozen memtables, the oldest first.
    pub fn frozen(&self) -> &[Arc<MemPart, Global>]
        ensures { result.now ≡ self.now.frozen.items }
    {
        &self.frozen
    }

    /// Freezes the memtable that is written to, and begins another one. One whose records have no
    /// bytes stays. Where memory runs out all is as before.
    pub fn freeze(&mut self, alloc: Global) -> Result<(), Mem>
        ensures keeps { (order : ListOf Order) (wss : ListOf (ListOf Wrote)) → Keeps order self.old wss
            → Keeps order self.new (if is_ok result && not (self.old.active.bytes == 0) then begun wss else wss) }
        ensures columns { (columns : ListOf ColumnOf) → IsOfTable columns self.old → IsOfTable columns self.new }
        ensures begun { OnOk result (self.new.active.bytes ≡ 0) }
        ensures stays { OnErr result (self.new.active.bytes ≡ self.old.active.bytes) }
    {
        if self.active.bytes() == 0 {
            return Ok(());
        }
        self.frozen.reserve(1)?;
        let active = mem::replace(&mut self.active, MemPart::new(alloc));
        match Arc::new(alloc, active) {
            Ok(memtable) => {
                self.frozen.push_reserved(memtable);
                Ok(())
            }
            Err(refused) => {
                self.active = refused.value;
                Err(Mem)
            }
        }
    }

    /// Lets go of the oldest frozen memtables, which stand in a file now.
    pub fn forget(&mut self, count: usize)
        requires { count ≤ length self.old.frozen.items }
        ensures keeps { (order : ListOf Order) (wss : ListOf (ListOf Wrote)) → Keeps order self.old wss → Keeps order self.new (drop count wss) }
        ensures columns { (columns : ListOf ColumnOf) → IsOfTable columns self.old → IsOfTable columns self.new }
        ensures frozen { self.new.frozen.items ≡ drop count self.old.frozen.items }
        ensures active { self.new.active ≡ self.old.active }
    {
        let mut gone = 0;
        while gone < count {
            let _oldest = self.frozen.remove(0);
            gone += 1;
        }
    }
}
