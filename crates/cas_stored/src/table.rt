//! What a table has stored in a shard.

ghost use Rattle.std.specs.Prelude.{◌≡◌, ℕ, ◌++◌, ◌∷◌, [], ◌≤◌, length, drop, List as ListOf};
ghost use Rattle.std.specs.Prelude.{IfOk, IfErr, IsErrOf, OnOk, OnErr, is_ok, ◌&&◌, not, ◌==◌, if◌then◌else◌};
ghost use Rattle.std.specs.Arc.{arc_value};
ghost use Rattle.std.specs.List.{AllByRecursion};
ghost use Rattle.cas_bounds.specs.declared.order.Ordered.{Ordered as Order};
ghost use Rattle.cas_types.specs.declared.schema.Column.{Column as ColumnOf};
ghost use Rattle.cas_atoms.specs.declared.atom.Mutation.{Mutation as Wrote};
ghost use Rattle.cas_disk.specs.Counts.{Counted};
ghost use Rattle.cas_partition.specs.Partitions.{AllFit, AreAtomsOf};
ghost use Rattle.cas_memtable.specs.Memtables.{HasPlaces, bytes_with};
ghost use Rattle.cas_memtable.specs.Kept.{HoldJust, MayHold, all_of, begun, memtables_of, with_one};
ghost use Rattle.cas_sstread.specs.Loading.{Held};
ghost use Rattle.cas_view.specs.Views.{File, file_of};
ghost use Rattle.cas_stored.specs.Stored.{HoldEach, HoldsEach, IsFileOf, IsStoredOf, ShowStored, StandInFile, flushed};
ghost use Rattle.cas_stored.specs.Reading.{AreReadIn, IsBadFile, IsWhyNot};

use crate::files::{file_sources, with_memory};
use crate::places::BadPlaces;
use crate::source::Source;
use cas_atoms::Mutation;
use cas_blocks::TableFault;
use cas_bounds::Slice;
use cas_disk::{Count, Sealed};
use cas_memtable::Parts;
use cas_sstread::Table;
use cas_streams::FragmentSource;
use cas_types::{Bytes, Mem};
use cas_view::{OpenFile, View};
use std::alloc::{AllocError, Global};
use std::marker::Model;
use std::sync::Arc;

/// What a table has stored in a shard: its memtables, and a view of its files. Who reads shares the
/// view, and goes on with it when the table has another one.
#[derive(Drop)]
pub struct TableStore<S: Sealed> {
    pub(crate) parts: Parts,
    pub(crate) view: Arc<View<Table<S>>, Global>,
}

impl<S: Sealed> Model for TableStore<S> {
    ghost use Rattle.std.specs.Coded.{codes};
    ghost use Rattle.cas_memtable.specs.contracts.parts.Parts as p;
    ghost use Rattle.std.specs.Arc.{arc_value};
    ghost use Rattle.cas_stored.specs.Stored.{StoredTable};

    ghost Value = { StoredTable };

    ghost coded = { Prim.hlevel (codes, p.the_row.coded) };

    ghost view = { λ t. record { files = arc_value t.view; parts = t.parts } };
}

impl<S: Sealed> TableStore<S> {
    /// One memtable, which holds nothing, and no file.
    pub fn new(alloc: Global) -> Result<Self, Mem>
        ensures holds { IfOk result (λ t. (order : ListOf Order) → HoldsEach order t ([] ∷ [])) }
        ensures files { IfOk result (λ t. t.files ≡ []) }
        ensures columns { IfOk result (λ t. (columns : ListOf ColumnOf) → IsStoredOf columns t) }
        ensures memory { IfOk result (λ t. (columns : ListOf ColumnOf) → HoldJust columns (memtables_of t.parts) []) }
        ensures bytes { IfOk result (λ t. t.parts.active.bytes ≡ 0) }
    {
        Ok(TableStore {
            parts: Parts::new(alloc),
            view: Arc::new(alloc, View::new(alloc))?,
        })
    }

    /// Its memtables.
    pub fn parts(&self) -> &Parts
        ensures { result.now ≡ self.now.parts }
    {
        &self.parts
    }

    /// Its files.
    pub fn view(&self) -> &Arc<View<Table<S>>, Global>
        ensures { arc_value result.now ≡ self.now.files }
    {
        &self.view
    }

    /// Makes place for a mutation, which `apply` then takes without memory.
    pub fn reserve(&mut self, mutation: &Mutation) -> Result<(), AllocError>
        ensures places { OnOk result (HasPlaces self.new.parts.active mutation.now) }
        ensures holds { (order : ListOf Order) (wss : ListOf (ListOf Wrote)) → HoldsEach order self.old wss → AreAtomsOf order mutation.now.atoms
            → HoldsEach order self.new wss }
        ensures columns { (columns : ListOf ColumnOf) → IsStoredOf columns self.old → AllFit columns mutation.now.atoms → IsStoredOf columns self.new }
        ensures memory { (columns : ListOf ColumnOf) (ws : ListOf Wrote) → HoldJust columns (memtables_of self.old.parts) ws → MayHold columns mutation.now
            → HoldJust columns (memtables_of self.new.parts) ws }
        ensures files { self.new.files ≡ self.old.files }
        ensures bytes { self.new.parts.active.bytes ≡ self.old.parts.active.bytes }
    {
        self.parts.reserve(mutation)
    }

    /// Joins a mutation for which place was made.
    pub fn apply(&mut self, mutation: Mutation)
        requires { HasPlaces self.old.parts.active mutation }
        ensures holds { (order : ListOf Order) (wss : ListOf (ListOf Wrote)) → HoldsEach order self.old wss → AreAtomsOf order mutation.atoms
            → HoldsEach order self.new (with_one mutation wss) × (all_of (with_one mutation wss) ≡ all_of wss ++ mutation ∷ []) }
        ensures columns { (columns : ListOf ColumnOf) → IsStoredOf columns self.old → AllFit columns mutation.atoms → IsStoredOf columns self.new }
        ensures memory { (columns : ListOf ColumnOf) (ws : ListOf Wrote) → HoldJust columns (memtables_of self.old.parts) ws → MayHold columns mutation
            → HoldJust columns (memtables_of self.new.parts) (ws ++ mutation ∷ []) }
        ensures files { self.new.files ≡ self.old.files }
        ensures bytes { self.new.parts.active.bytes ≡ bytes_with self.old.parts.active.bytes mutation }
    {
        self.parts.apply(mutation);
    }

    /// Makes place for a mutation and joins it. After an error it holds what it held.
    pub fn insert(&mut self, mutation: Mutation) -> Result<(), AllocError>
        ensures holds { (order : ListOf Order) (wss : ListOf (ListOf Wrote)) → HoldsEach order self.old wss → AreAtomsOf order mutation.atoms
            → HoldsEach order self.new (if is_ok result then with_one mutation wss else wss)
            × (all_of (if is_ok result then with_one mutation wss else wss) ≡ (if is_ok result then all_of wss ++ mutation ∷ [] else all_of wss)) }
        ensures columns { (columns : ListOf ColumnOf) → IsStoredOf columns self.old → AllFit columns mutation.atoms → IsStoredOf columns self.new }
        ensures memory { (columns : ListOf ColumnOf) (ws : ListOf Wrote) → HoldJust columns (memtables_of self.old.parts) ws → MayHold columns mutation
            → HoldJust columns (memtables_of self.new.parts) (if is_ok result then ws ++ mutation ∷ [] else ws) }
        ensures files { self.new.files ≡ self.old.files }
        ensures bytes { self.new.parts.active.bytes
            ≡ (if is_ok result then bytes_with self.old.parts.active.bytes mutation else self.old.parts.active.bytes) }
    {
        self.parts.insert(mutation)
    }

    /// Freezes the memtable that is written to, and begins another one. One whose records have no
    /// bytes stays. Where memory runs out all is as before.
    pub fn freeze(&mut self, alloc: Global) -> Result<(), Mem>
        ensures holds { (order : ListOf Order) (wss : ListOf (ListOf Wrote)) → HoldsEach order self.old wss
            → HoldsEach order self.new (if is_ok result && not (self.old.parts.active.bytes == 0) then begun wss else wss) }
        ensures columns { (columns : ListOf ColumnOf) → IsStoredOf columns self.old → IsStoredOf columns self.new }
        ensures memory { (columns : ListOf ColumnOf) (ws : ListOf Wrote) → HoldJust columns (memtables_of self.old.parts) ws
            → HoldJust columns (memtables_of self.new.parts) ws }
        ensures begun { OnOk result (self.new.parts.active.bytes ≡ 0) }
        ensures files { self.new.files ≡ self.old.files }
        ensures stays { OnErr result (self.new.parts.active.bytes ≡ self.old.parts.active.bytes) }
    {
        self.parts.freeze(alloc)
    }

    /// The sources of a partition in a slice: one of each file that has the key, and one of each
    /// memtable in which something was written under it. Their merge is the partition. What they tell bad
    /// is one of B's places.
    pub fn sources<'a, B: BadPlaces>(
        &'a self,
        alloc: Global,
        key: &Bytes,
        slice: &Slice,
        tally: &mut S::Tally,
    ) -> Result<Vec<Source<'a, S, B>>, TableFault>
        requires reads { AreReadIn slice.now self.now.files }
        requires told { (n at : ℕ) → IsBadFile self.now.files key.now slice.now n at → B.told n at }
        ensures shows { IfOk result (λ v. (order : ListOf Order) (wss : ListOf (ListOf Wrote))
            → HoldsEach order self.now wss → slice.now.lo.order ≡ order → slice.now.hi.order ≡ order
            → ShowStored ⟦<Source<'a, S, B> as FragmentSource>⟧.to_come ⟦<Source<'a, S, B> as FragmentSource>⟧.over_all order slice.now key.now
            self.now.files (memtables_of self.now.parts) (all_of wss) v.items) }
        ensures why { IfErr result (IsWhyNot self.now.files key.now) }
        ensures count { Counted (S.Tally.number tally.old) (S.Tally.number tally.new) (IsErrOf result TableFault.Read) }
    {
        let memory = self.parts.sources(alloc, key, slice)?;
        let files = file_sources(alloc, self.view.files(), key.as_slice(), slice, tally)?;
        Ok(with_memory(files, memory)?)
    }

    /// A view of one file more, behind those that it has.
    pub fn view_with(
        &self,
        alloc: Global,
        file: OpenFile<Table<S>>,
    ) -> Result<Arc<View<Table<S>>, Global>, Mem>
        ensures { IfOk result (λ v. arc_value v ≡ self.now.files ++ file_of file ∷ []) }
    {
        let mut added = Vec::new(alloc);
        added.push(file)?;
        let view = self.view.with(added)?;
        Ok(Arc::new(alloc, view)?)
    }

    /// At an opening: takes the files that the store has of the table. The memtables hold what stands in none of them.
    pub fn adopt(&mut self, view: Arc<View<Table<S>>, Global>)
        ensures holds { (order : ListOf Order) (vss wss : ListOf (ListOf Wrote)) → self.old.files ≡ [] → HoldsEach order self.old wss
            → HoldEach order (arc_value view) [] vss → HoldsEach order self.new (vss ++ wss) }
        ensures columns { (columns : ListOf ColumnOf) → IsStoredOf columns self.old → AllByRecursion (IsFileOf columns) (arc_value view)
            → IsStoredOf columns self.new }
        ensures parts { self.new.parts ≡ self.old.parts }
        ensures files { self.new.files ≡ arc_value view }
    {
        self.view = view;
    }

    /// After a flush: takes a view with one file more, in the place of the oldest frozen memtables, so many, and lets go of
    /// these. Which mutations stand in the file may be others that say the same.
    pub fn swap(&mut self, view: Arc<View<Table<S>>, Global>, count: usize)
        requires { count ≤ length self.old.parts.frozen.items }
        ensures holds { (order : ListOf Order) (wss : ListOf (ListOf Wrote)) (ws : ListOf Wrote) (f : File Held) → arc_value view ≡ self.old.files ++ f ∷ []
            → HoldsEach order self.old wss → StandInFile order f ws → HoldsEach order self.new (flushed (length self.old.files) count ws wss) }
        ensures columns { (columns : ListOf ColumnOf) (f : File Held) → arc_value view ≡ self.old.files ++ f ∷ []
            → IsStoredOf columns self.old → IsFileOf columns f → IsStoredOf columns self.new }
        ensures memory { memtables_of self.new.parts ≡ drop count (memtables_of self.old.parts) }
        ensures files { self.new.files ≡ arc_value view }
        ensures bytes { self.new.parts.active.bytes ≡ self.old.parts.active.bytes }
    {
        self.view = view;
        self.parts.forget(count);
    }
}
