//! One shard: what it has stored, and what a write and a SELECT do in it.

ghost use Rattle.std.specs.Prelude.{◌≡◌, ◌≤◌, ◌≤ℤ◌, if◌then◌else◌};
ghost use Rattle.cas_types.specs.Limits.{IsMoment};
ghost use Rattle.cas_types.specs.declared.limits.TheConstants.{LAST_DRAWN, MUTATION_LIMIT};
ghost use Rattle.cas_shard.specs.Shards.{drawn_with, take_refusal};

use crate::answers::{Look, TakeFault};
use crate::rows::rows_of;
use crate::stores::{adopt, bytes, files, freeze, frozen, insert, join, reserve, swap, view_with};
use cas_atoms::{Mutation, Query, length};
use cas_blocks::TableFault;
use cas_disk::{Count, Sealed};
use cas_effects::{BoundWrite, TOO_LARGE, TOO_MANY, atoms_of};
use cas_memtable::MemPart;
use cas_sstread::Table;
use cas_stored::TableStore;
use cas_types::{LAST_DRAWN, LEAST_TIMESTAMP, List, MUTATION_LIMIT, Mem};
use cas_view::{OpenFile, View};
use std::alloc::Global;
use std::marker::Model;
use std::sync::Arc;

/// One shard: what it has stored of each table, at the tables' numbers, the number of its last mutation, the
/// last timestamp that it drew, and its last moment in seconds.
#[derive(Drop)]
pub struct Shard<S: Sealed> {
    pub(crate) stores: Vec<TableStore<S>>,
    pub(crate) number: u64,
    pub(crate) drawn: i64,
    pub(crate) moment: i64,
}

impl<S: Sealed> Model for Shard<S> {
    ghost use Rattle.std.specs.Prelude.{◌≤◌, ◌≤ℤ◌};
    ghost use Rattle.cas_types.specs.Limits.{IsMoment};
    ghost use Rattle.cas_types.specs.declared.limits.TheConstants.{LAST_DRAWN, MUTATION_LIMIT};
    ghost use Rattle.std.specs.Coded.{codes};
    ghost use Rattle.cas_memtable.specs.contracts.parts.Parts as p;
    ghost use Rattle.cas_shard.specs.Stands.{ShardState};

    ghost Value = { ShardState };

    ghost coded = { Prim.hlevel (codes, p.the_row.coded) };

    ghost view = { λ s. record { stores = s.stores.items; number = s.number; drawn = s.drawn; moment = s.moment } };

    ghost invariant = { λ s. (s.number ≤ MUTATION_LIMIT) × (s.drawn ≤ℤ LAST_DRAWN) × IsMoment s.moment };
}

// Why the shard doesn't take the mutation.
#[tactic(auto, unfolding(crate::specs::Shards::take_refusal))]
fn take_refusal(segment: u64, mutation: &Mutation) -> Option<u8>
    ensures { result ≡ take_refusal segment mutation.now }
{
    if length(mutation) > segment / 2 {
        Some(TOO_LARGE)
    } else if mutation.number > MUTATION_LIMIT || (mutation.drawn && mutation.at > LAST_DRAWN) {
        Some(TOO_MANY)
    } else {
        None
    }
}

// The last timestamp that was drawn once the mutation is entered, which is the next.
fn drawn_after(drawn: i64, mutation: &Mutation) -> i64
    ensures { result ≡ (if mutation.now.drawn then mutation.now.at else drawn) }
{
    if mutation.drawn { mutation.at } else { drawn }
}

// The last timestamp that was drawn once the mutation is restored.
fn drawn_with(drawn: i64, mutation: &Mutation) -> i64
    ensures { result ≡ drawn_with drawn mutation.now }
{
    if mutation.drawn {
        drawn.max(mutation.at)
    } else {
        drawn
    }
}

impl<S: Sealed> Shard<S> {
    ghost use Rattle.std.specs.Prelude.{◌≡◌, ◌+◌, ◌^◌, ◌<◌, ◌≤◌, ◌≤ℤ◌, ◌∷◌, ◌++◌, [], true, ℕ, if◌then◌else◌};
    ghost use Rattle.std.specs.Prelude.{drop, map, max, take, length, slice_get, List as ListOf};
    ghost use Rattle.std.specs.Arc.{arc_value};
    ghost use Rattle.std.specs.Prelude.{IfOk, IfErr, IsErrOf, IfSome, OnOk, OnErr, is_ok};
    ghost use Rattle.std.specs.Int.{int_max};
    ghost use Rattle.cas_types.specs.Limits.{IsMoment, IsNarrow};
    ghost use Rattle.cas_types.specs.declared.limits.TheConstants.{LAST_DRAWN, LEAST_TIMESTAMP, MUTATION_LIMIT};
    ghost use Rattle.cas_types.specs.declared.schema.TableSchema.{TableSchema as Schema};
    ghost use Rattle.cas_effects.specs.AtomsOf.{mutation_of};
    ghost use Rattle.cas_shard.specs.Entries.{last_number};
    ghost use Rattle.cas_shard.specs.declared.entry.Entry.TheVariants.{Wrote};
    ghost use Rattle.cas_shard.specs.declared.entry.ShardOpening.{ShardOpening as Opening};
    ghost use Rattle.cas_shard.specs.Shards.{IsTime, Prepares, ShardHistory, Shows, after_restore, empty_shard, entered, found_shard};
    ghost use Rattle.cas_shard.specs.Shards.{later_drawn, later_moment, mutation_at, number_of, raised, take_refusal, told_shard};
    ghost use Rattle.cas_shard.specs.Stands.{AreShown, Asks, Belongs, HasNoFiles, HasRoom, IsPrepared, IsReady, KeepsFiles, Stands, Suits};
    ghost use Rattle.cas_shard.specs.Stands.{TakesFiles, files_at, order_at};
    ghost use Rattle.cas_shard.specs.Flushing.{HasInMemory, KeepsBytes, SaysWhatTheyDo, bytes_at, frozen_at, memtables_at, one_of};
    ghost use Rattle.cas_atoms.specs.declared.atom.Mutation.{Mutation as MutationOf};
    ghost use Rattle.cas_memtable.specs.Kept.{bytes_of};
    ghost use Rattle.cas_sstread.specs.Loading.{Held};
    ghost use Rattle.cas_view.specs.Views.{File, file_of, files_of};
    ghost use Rattle.cas_shard.specs.Inner.Stores.{MakesRoom};
    ghost use Rattle.cas_shard.specs.Inner.Turns.{Answered, Took};
    ghost use Rattle.cas_blocks.specs.declared.fault.TableFault.TheVariants as table_fault;
    ghost use Rattle.cas_disk.specs.Counts.{Counted};
    ghost use Rattle.cas_stored.specs.Reading.{AreReadIn, IsWhyNotShown};

    /// A shard without a mutation.
    pub fn new(alloc: Global) -> Self
        ensures stands { (tables : ListOf Schema) → Stands tables (found_shard empty_shard) result }
        ensures files { HasNoFiles result }
        ensures memory { (tables : ListOf Schema) (n : ℕ) → HasInMemory tables n [] result }
        ensures bytes { (n : ℕ) → bytes_at (slice_get result.stores n) ≡ 0 }
    {
        Self::open(alloc, 0, -2, 0)
    }

    /// A shard of a store that is opened, before a mutation is restored: what the store tells of it
    /// is the number of its last mutation, the last timestamp that it drew and its last moment.
    pub fn open(alloc: Global, number: u64, drawn: i64, moment: i64) -> Self
        requires few { number ≤ MUTATION_LIMIT }
        requires low { drawn ≤ℤ LAST_DRAWN }
        requires begun { IsMoment moment }
        ensures stands { (tables : ListOf Schema) → Stands tables (found_shard (told_shard number drawn moment)) result }
        ensures number { result.number ≡ number }
        ensures files { HasNoFiles result }
        ensures memory { (tables : ListOf Schema) (n : ℕ) → HasInMemory tables n [] result }
        ensures bytes { (n : ℕ) → bytes_at (slice_get result.stores n) ≡ 0 }
    {
        Shard {
            stores: Vec::new(alloc),
            number,
            drawn,
            moment,
        }
    }

    /// Enters a mutation that was read back from the log, above those that were restored before it.
    /// Where memory runs out nothing is restored.
    pub fn restore(&mut self, alloc: Global, mutation: Mutation) -> Result<(), Mem>
        requires few { mutation.number ≤ MUTATION_LIMIT }
        requires low { mutation.drawn ≡ true → mutation.at ≤ℤ LAST_DRAWN }
        requires begun { IsMoment mutation.moment }
        ensures stands { (tables : ListOf Schema) (shards : ℕ) (found : Opening) → Stands tables (found_shard found) self.old → Belongs tables shards mutation
            → last_number 0 found.entries < mutation.number → Stands tables (found_shard (after_restore result mutation found)) self.new }
        ensures number { OnOk result (self.new.number ≡ max self.old.number mutation.number) }
        ensures files { KeepsFiles self.old self.new }
        ensures memory { (tables : ListOf Schema) (shards n : ℕ) (ws : ListOf MutationOf) → Belongs tables shards mutation → HasInMemory tables n ws self.old
            → HasInMemory tables n (if is_ok result then ws ++ one_of n mutation else ws) self.new }
        ensures bytes { (n : ℕ) → bytes_at (slice_get self.new.stores n)
            ≡ bytes_of (bytes_at (slice_get self.old.stores n)) (if is_ok result then one_of n mutation else []) }
    {
        let number = self.number.max(mutation.number);
        let drawn = drawn_with(self.drawn, &mutation);
        let moment = self.moment.max(mutation.moment);
        insert(&mut self.stores, alloc, mutation)?;
        self.number = number;
        self.drawn = drawn;
        self.moment = moment;
        Ok(())
    }

    /// At an opening: the number of a mutation that stands in a table file, which counts where it is greater.
    pub fn tell_number(&mut self, number: u64)
        requires { number ≤ MUTATION_LIMIT }
        ensures number { self.new.number ≡ max self.old.number number }
        ensures stores { self.new.stores ≡ self.old.stores }
        ensures drawn { self.new.drawn ≡ self.old.drawn }
        ensures moment { self.new.moment ≡ self.old.moment }
    {
        self.number = self.number.max(number);
    }

    /// At an opening: the last drawn timestamp and the last moment that the store tells of the shard, which count
    /// where they are greater.
    pub fn tell_times(&mut self, drawn: i64, moment: i64)
        requires low { drawn ≤ℤ LAST_DRAWN }
        requires begun { IsMoment moment }
        ensures drawn { self.new.drawn ≡ int_max self.old.drawn drawn }
        ensures moment { self.new.moment ≡ int_max self.old.moment moment }
        ensures stores { self.new.stores ≡ self.old.stores }
        ensures number { self.new.number ≡ self.old.number }
    {
        self.drawn = self.drawn.max(drawn);
        self.moment = self.moment.max(moment);
    }

    /// At an opening: gives a table the files that the store has of it in this shard. Its memtables hold what
    /// stands in none of them. Where memory runs out the shard stands for what it stood for.
    pub fn adopt(&mut self, alloc: Global, table: u16, view: View<Table<S>>) -> Result<(), Mem>
        ensures taken { OnOk result (TakesFiles table view self.old.stores self.new.stores) }
        ensures stands { OnErr result ((tables : ListOf Schema) (s : ShardHistory) → Stands tables s self.old → table < length tables
            → Stands tables s self.new) }
        ensures files { OnErr result (KeepsFiles self.old self.new) }
        ensures memory { (tables : ListOf Schema) (n : ℕ) (ws : ListOf MutationOf) → HasInMemory tables n ws self.old → HasInMemory tables n ws self.new }
        ensures number { self.new.number ≡ self.old.number }
        ensures drawn { self.new.drawn ≡ self.old.drawn }
        ensures moment { self.new.moment ≡ self.old.moment }
        ensures bytes { KeepsBytes self.old self.new }
    {
        adopt(&mut self.stores, alloc, table, view)
    }

    /// The number of its last mutation; before the first it is 0.
    pub fn number(&self) -> u64
        ensures value { result ≡ self.now.number }
        ensures stands { (tables : ListOf Schema) (s : ShardHistory) → Stands tables s self.now → result ≡ number_of s }
        ensures few { result ≤ MUTATION_LIMIT }
    {
        self.number
    }

    /// The last timestamp that it drew; before the first it is -2.
    pub fn drawn(&self) -> i64
        ensures value { result ≡ self.now.drawn }
        ensures low { result ≤ℤ LAST_DRAWN }
    {
        self.drawn
    }

    /// Its last moment in seconds.
    pub fn moment(&self) -> i64
        ensures value { result ≡ self.now.moment }
        ensures begun { IsMoment result }
    {
        self.moment
    }

    // The greater of the reading's whole seconds and the last moment.
    fn moment_at(&self, reading: i64) -> i64
        requires { IsTime reading }
        ensures value { result ≡ later_moment reading self.now.moment }
        ensures moment { IsMoment result }
    {
        (reading / 1_000_000).max(self.moment)
    }

    fn next_number(&self) -> u64
        ensures value { result ≡ self.now.number + 1 }
        ensures few { result ≤ 2 ^ 62 }
    {
        self.number + 1
    }

    fn drawn_at(&self, reading: i64) -> i64
        requires { IsTime reading }
        ensures { result ≡ later_drawn reading self.now.drawn }
    {
        reading.max(self.drawn + 2)
    }

    // The mutation that a write makes.
    fn mutation_at(&self, alloc: Global, reading: i64, write: BoundWrite) -> Result<Mutation, Mem>
        requires time { IsTime reading }
        requires stated { IfSome write.timestamp (λ at. LEAST_TIMESTAMP ≤ℤ at) }
        ensures { IfOk result (λ m. m ≡ mutation_of write (later_drawn reading self.now.drawn) (later_moment reading self.now.moment)
            (self.now.number + 1)) }
    {
        let drawn = self.drawn_at(reading);
        let moment = self.moment_at(reading);
        atoms_of(alloc, write, drawn, moment, self.next_number())
    }

    // Raises the moment, where the reading's is greater.
    fn raise(&mut self, reading: i64)
        requires { IsTime reading }
        ensures stands { (tables : ListOf Schema) (s : ShardHistory) → Stands tables s self.old → Stands tables (raised reading s) self.new }
        ensures stores { self.new.stores ≡ self.old.stores }
        ensures number { self.new.number ≡ self.old.number }
        ensures drawn { self.new.drawn ≡ self.old.drawn }
        ensures moment { self.new.moment ≡ later_moment reading self.old.moment }
        ensures begun { IsMoment self.new.moment }
    {
        self.moment = self.moment_at(reading);
    }

    // Makes the places of a mutation, or tells why it can't be entered.
    fn place(
        &mut self,
        alloc: Global,
        segment: u64,
        mutation: Mutation,
    ) -> Result<Mutation, TakeFault>
        ensures answered { Answered segment mutation result }
        ensures room { IfOk result (λ m. HasRoom m self.new.stores) }
        ensures makes { MakesRoom mutation self.old.stores self.new.stores }
        ensures refused { IfSome (take_refusal segment mutation) (λ why. self.new.stores ≡ self.old.stores) }
        ensures number { self.new.number ≡ self.old.number }
        ensures drawn { self.new.drawn ≡ self.old.drawn }
        ensures moment { self.new.moment ≡ self.old.moment }
    {
        if let Some(refused) = take_refusal(segment, &mutation) {
            return Err(TakeFault::Refused(refused));
        }
        match reserve(&mut self.stores, alloc, &mutation) {
            Ok(()) => Ok(mutation),
            Err(Mem) => Err(TakeFault::Mem),
        }
    }

    /// Makes the mutation of a write and its places, so that it can be entered, or refuses it. The
    /// moment rises, also where it is refused and where memory runs out; all else that the shard says
    /// stays. It takes the time of the write's atoms, and for each the logarithm of what its partition
    /// holds.
    pub fn prepare(
        &mut self,
        alloc: Global,
        segment: u64,
        reading: i64,
        write: BoundWrite,
    ) -> Result<Mutation, TakeFault>
        requires time { IsTime reading }
        requires stated { IfSome write.timestamp (λ at. LEAST_TIMESTAMP ≤ℤ at) }
        ensures answered { (tables : ListOf Schema) (s : ShardHistory) → Stands tables s self.old → Prepares segment s reading write result }
        ensures stands { (tables : ListOf Schema) (shards : ℕ) (s : ShardHistory) → Stands tables s self.old → Suits tables shards write
            → Stands tables (raised reading s) self.new }
        ensures prepared { IfOk result (λ m. IsPrepared self.new m) }
        ensures ready { IfOk result (λ m. IsReady segment write m) }
        ensures number { self.new.number ≡ self.old.number }
        ensures files { KeepsFiles self.old self.new }
        ensures memory { (tables : ListOf Schema) (shards n : ℕ) (ws : ListOf MutationOf) → Suits tables shards write → HasInMemory tables n ws self.old
            → HasInMemory tables n ws self.new }
        ensures bytes { KeepsBytes self.old self.new }
    {
        let mutation = self.mutation_at(alloc, reading, write);
        self.raise(reading);
        match mutation {
            Ok(mutation) => self.place(alloc, segment, mutation),
            Err(Mem) => Err(TakeFault::Mem),
        }
    }

    /// Enters the mutation that it is prepared for, at the end. It takes no memory.
    pub fn enter(&mut self, mutation: Mutation)
        requires { IsPrepared self.old mutation }
        ensures stands { (tables : ListOf Schema) (shards : ℕ) (s : ShardHistory) (session call : ℕ) → Stands tables s self.old
            → Belongs tables shards mutation → Stands tables (entered (Wrote session call mutation ∷ []) s) self.new }
        ensures number { self.new.number ≡ mutation.number }
        ensures files { KeepsFiles self.old self.new }
        ensures memory { (tables : ListOf Schema) (shards n : ℕ) (ws : ListOf MutationOf) → Belongs tables shards mutation → HasInMemory tables n ws self.old
            → HasInMemory tables n (ws ++ one_of n mutation) self.new }
        ensures bytes { (n : ℕ) → bytes_at (slice_get self.new.stores n) ≡ bytes_of (bytes_at (slice_get self.old.stores n)) (one_of n mutation) }
    {
        self.number = mutation.number;
        self.drawn = drawn_after(self.drawn, &mutation);
        join(&mut self.stores, mutation);
    }

    /// Prepares a write and enters its mutation at once, where nothing comes between.
    pub fn take(
        &mut self,
        alloc: Global,
        segment: u64,
        reading: i64,
        write: BoundWrite,
    ) -> Result<u64, TakeFault>
        requires time { IsTime reading }
        requires stated { IfSome write.timestamp (λ at. LEAST_TIMESTAMP ≤ℤ at) }
        ensures took { (tables : ListOf Schema) (shards : ℕ) (s : ShardHistory) (session call : ℕ) → Stands tables s self.old → Suits tables shards write
            → Took tables segment s reading session call write result self.new }
        ensures files { KeepsFiles self.old self.new }
        ensures memory { (tables : ListOf Schema) (shards n : ℕ) (s : ShardHistory) (ws : ListOf MutationOf) → Stands tables s self.old
            → Suits tables shards write → HasInMemory tables n ws self.old
            → HasInMemory tables n (if is_ok result then ws ++ one_of n (mutation_at reading s write) else ws) self.new }
        ensures bytes { (tables : ListOf Schema) (n : ℕ) (s : ShardHistory) → Stands tables s self.old → bytes_at (slice_get self.new.stores n)
            ≡ bytes_of (bytes_at (slice_get self.old.stores n)) (if is_ok result then one_of n (mutation_at reading s write) else []) }
    {
        let mutation = self.prepare(alloc, segment, reading, write)?;
        let number = mutation.number;
        self.enter(mutation);
        Ok(number)
    }

    /// Freezes the memtable of a table that is written to, and begins another one, so that it can be
    /// written to a file. One without an atom stays. Where memory runs out all is as before.
    pub fn freeze(&mut self, alloc: Global, table: u16) -> Result<(), Mem>
        ensures stands { (tables : ListOf Schema) (s : ShardHistory) → Stands tables s self.old → Stands tables s self.new }
        ensures number { self.new.number ≡ self.old.number }
        ensures files { KeepsFiles self.old self.new }
        ensures memory { (tables : ListOf Schema) (n : ℕ) (ws : ListOf MutationOf) → HasInMemory tables n ws self.old → HasInMemory tables n ws self.new }
        ensures begun { OnOk result (bytes_at (slice_get self.new.stores table) ≡ 0) }
        ensures others { (n : ℕ) → (n ≡ table → ⊥) → slice_get self.new.stores n ≡ slice_get self.old.stores n }
        ensures stays { OnErr result (KeepsBytes self.old self.new) }
    {
        freeze(&mut self.stores, alloc, table)
    }

    /// The frozen memtables of a table, the oldest first, to be written to a file.
    pub fn frozen(&self, table: u16) -> &[Arc<MemPart, Global>]
        ensures { map arc_value result.now ≡ frozen_at (slice_get self.now.stores table) }
    {
        frozen(&self.stores, table)
    }

    /// The bytes of the memtable of a table that is written to: the sum of the lengths of the records that have
    /// atoms, and 2^64-1 where it is greater.
    pub fn bytes(&self, table: u16) -> u64
        ensures { result ≡ bytes_at (slice_get self.now.stores table) }
    {
        bytes(&self.stores, table)
    }

    /// The files that a table has, in the order in which they were listed.
    pub fn files(&self, table: u16) -> &[OpenFile<Table<S>>]
        ensures { files_of result.now ≡ files_at (slice_get self.now.stores table) }
    {
        files(&self.stores, table)
    }

    /// A view of the files that a table has, and of one more behind them.
    pub fn view_with(
        &self,
        alloc: Global,
        table: u16,
        file: OpenFile<Table<S>>,
    ) -> Result<Arc<View<Table<S>>, Global>, Mem>
        ensures { IfOk result (λ v. arc_value v ≡ files_at (slice_get self.now.stores table) ++ file_of file ∷ []) }
    {
        view_with(&self.stores, alloc, table, file)
    }

    /// After a flush: a table takes a view with one file more, in the place of so many of its frozen memtables,
    /// the oldest ones, and lets go of these. It takes no memory.
    pub fn swap(&mut self, table: u16, view: Arc<View<Table<S>>, Global>, count: usize)
        requires some { 1 ≤ count }
        requires there { count ≤ length (frozen_at (slice_get self.old.stores table)) }
        ensures stands { (tables : ListOf Schema) (s : ShardHistory) (f : File Held) → arc_value view ≡ files_at (slice_get self.old.stores table) ++ f ∷ []
            → SaysWhatTheyDo (order_at tables table) (take count (frozen_at (slice_get self.old.stores table))) f
            → Stands tables s self.old → Stands tables s self.new }
        ensures files { files_at (slice_get self.new.stores table) ≡ arc_value view }
        ensures memory { memtables_at (slice_get self.new.stores table) ≡ drop count (memtables_at (slice_get self.old.stores table)) }
        ensures emptied { (tables : ListOf Schema) (ws : ListOf MutationOf) → count ≡ length (frozen_at (slice_get self.old.stores table))
            → bytes_at (slice_get self.old.stores table) ≡ 0 → HasInMemory tables table ws self.old → HasInMemory tables table [] self.new }
        ensures others { (n : ℕ) → (n ≡ table → ⊥) → slice_get self.new.stores n ≡ slice_get self.old.stores n }
        ensures number { self.new.number ≡ self.old.number }
        ensures drawn { self.new.drawn ≡ self.old.drawn }
        ensures moment { self.new.moment ≡ self.old.moment }
        ensures bytes { KeepsBytes self.old self.new }
    {
        swap(&mut self.stores, table, view, count);
    }

    /// Shows the rows of a SELECT. The moment rises also where the disk fails or memory runs out. It reads
    /// what the query's slice needs of its partition alone.
    pub fn look(
        &mut self,
        alloc: Global,
        reading: i64,
        query: Query,
        tally: &mut S::Tally,
    ) -> Result<Look, TableFault>
        requires time { IsTime reading }
        requires columns { IsNarrow query.columns }
        requires reads { AreReadIn query.slice (files_at (slice_get self.old.stores query.table)) }
        ensures shows { (tables : ListOf Schema) (s : ShardHistory) → Stands tables s self.old → Asks tables query → Shows s reading query result }
        ensures stands { (tables : ListOf Schema) (s : ShardHistory) → Stands tables s self.old → Stands tables (raised reading s) self.new }
        ensures number { self.new.number ≡ self.old.number }
        ensures files { KeepsFiles self.old self.new }
        ensures stores { self.new.stores ≡ self.old.stores }
        ensures count { Counted (S.Tally.number tally.old) (S.Tally.number tally.new) (IsErrOf result TableFault.Read) }
        ensures why { IfErr result (IsWhyNotShown (files_at (slice_get self.old.stores query.table)) query.key query.slice) }
        ensures memory { length (files_at (slice_get self.old.stores query.table)) ≡ 0 → IfErr result (λ e. e ≡ table_fault.Mem) }
    {
        self.raise(reading);
        let rows = rows_of(alloc, &self.stores, query, self.moment, tally)?;
        Ok(Look {
            rows: List::from_vec(rows),
            front: self.number,
            now: self.moment,
        })
    }

    /// A look shows all mutations of its partition that the shard stands for.
    pub fn all_are_shown(&self)
        ensures { (tables : ListOf Schema) (s : ShardHistory) → Stands tables s self.now → AreShown s }
    {}
}
