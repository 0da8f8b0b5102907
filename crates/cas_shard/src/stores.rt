//! What a shard has stored of each table, at the tables' numbers.

ghost use Rattle.std.specs.Prelude.{◌≡◌, ◌<◌, ◌≤◌, ◌++◌, ◌∷◌, [], length, map, slice_get, IfOk, OnOk, OnErr};
ghost use Rattle.std.specs.Arc.{arc_value};
ghost use Rattle.cas_view.specs.Views.{file_of, files_of};
ghost use Rattle.cas_shard.specs.Flushing.{bytes_at, frozen_at};
ghost use Rattle.cas_shard.specs.Stands.{HasRoom, TakesFiles, files_at};
ghost use Rattle.cas_shard.specs.Inner.Stores.{AllStay, InsertsRoom, JoinsRoom, KeepBytes, KeepFiles, MakesRoom, MemoryStays, OthersStay, StayFew, Swaps};

use cas_atoms::Mutation;
use cas_disk::Sealed;
use cas_memtable::MemPart;
use cas_sstread::Table;
use cas_stored::TableStore;
use cas_types::Mem;
use cas_view::{OpenFile, View};
use std::alloc::Global;
use std::sync::Arc;

// Places for tables up to this one, in which nothing is stored yet.
fn reach<S: Sealed>(stores: &mut Vec<TableStore<S>>, alloc: Global, table: u16) -> Result<(), Mem>
    ensures there { OnOk result (table < length stores.new.items) }
    ensures kept { AllStay stores.old.items stores.new.items }
    ensures few { StayFew table stores.old.items stores.new.items }
    ensures files { KeepFiles stores.old.items stores.new.items }
    ensures memory { MemoryStays stores.old.items stores.new.items }
    ensures bytes { KeepBytes stores.old.items stores.new.items }
{
    while stores.len() <= table as usize {
        stores.push(TableStore::new(alloc)?)?;
    }
    Ok(())
}

/// Makes place for a mutation, which `join` then takes without memory.
pub(crate) fn reserve<S: Sealed>(
    stores: &mut Vec<TableStore<S>>,
    alloc: Global,
    mutation: &Mutation,
) -> Result<(), Mem>
    ensures room { OnOk result (HasRoom mutation.now stores.new.items) }
    ensures makes { MakesRoom mutation.now stores.old.items stores.new.items }
{
    reach(stores, alloc, mutation.table)?;
    let store = &mut stores[mutation.table as usize];
    Ok(store.reserve(mutation)?)
}

/// Joins a mutation for which place was made.
pub(crate) fn join<S: Sealed>(stores: &mut Vec<TableStore<S>>, mutation: Mutation)
    requires { HasRoom mutation stores.old.items }
    ensures { JoinsRoom mutation stores.old.items stores.new.items }
{
    let store = &mut stores[mutation.table as usize];
    store.apply(mutation);
}

/// Makes place for a mutation and joins it.
pub(crate) fn insert<S: Sealed>(
    stores: &mut Vec<TableStore<S>>,
    alloc: Global,
    mutation: Mutation,
) -> Result<(), Mem>
    ensures { InsertsRoom result mutation stores.old.items stores.new.items }
{
    let table = mutation.table;
    reach(stores, alloc, table)?;
    let store = &mut stores[table as usize];
    Ok(store.insert(mutation)?)
}

/// Freezes what a table has in memory.
pub(crate) fn freeze<S: Sealed>(
    stores: &mut Vec<TableStore<S>>,
    alloc: Global,
    table: u16,
) -> Result<(), Mem>
    ensures kept { AllStay stores.old.items stores.new.items }
    ensures count { length stores.new.items ≡ length stores.old.items }
    ensures files { KeepFiles stores.old.items stores.new.items }
    ensures memory { MemoryStays stores.old.items stores.new.items }
    ensures begun { OnOk result (bytes_at (slice_get stores.new.items table) ≡ 0) }
    ensures others { OthersStay table stores.old.items stores.new.items }
    ensures stays { OnErr result (KeepBytes stores.old.items stores.new.items) }
{
    if stores.len() <= table as usize {
        return Ok(());
    }
    let store = &mut stores[table as usize];
    store.freeze(alloc)
}

/// Gives a table the files of this view.
pub(crate) fn adopt<S: Sealed>(
    stores: &mut Vec<TableStore<S>>,
    alloc: Global,
    table: u16,
    view: View<Table<S>>,
) -> Result<(), Mem>
    ensures taken { OnOk result (TakesFiles table view stores.old.items stores.new.items) }
    ensures kept { OnErr result (AllStay stores.old.items stores.new.items) }
    ensures few { StayFew table stores.old.items stores.new.items }
    ensures files { OnErr result (KeepFiles stores.old.items stores.new.items) }
    ensures memory { MemoryStays stores.old.items stores.new.items }
    ensures bytes { KeepBytes stores.old.items stores.new.items }
{
    let view = Arc::new(alloc, view)?;
    reach(stores, alloc, table)?;
    let store = &mut stores[table as usize];
    store.adopt(view);
    Ok(())
}

/// The frozen memtables of a table, the oldest first.
pub(crate) fn frozen<S: Sealed>(stores: &[TableStore<S>], table: u16) -> &[Arc<MemPart, Global>]
    ensures { map arc_value result.now ≡ frozen_at (slice_get stores.now table) }
{
    match stores.get(table as usize) {
        None => &[],
        Some(store) => store.parts().frozen(),
    }
}

/// The bytes of a table's memtable that is written to.
pub(crate) fn bytes<S: Sealed>(stores: &[TableStore<S>], table: u16) -> u64
    ensures { result ≡ bytes_at (slice_get stores.now table) }
{
    match stores.get(table as usize) {
        None => 0,
        Some(store) => store.parts().bytes(),
    }
}

/// A table's files, in the order in which they were listed.
pub(crate) fn files<S: Sealed>(stores: &[TableStore<S>], table: u16) -> &[OpenFile<Table<S>>]
    ensures { files_of result.now ≡ files_at (slice_get stores.now table) }
{
    match stores.get(table as usize) {
        None => &[],
        Some(store) => store.view().files(),
    }
}

/// A view of a table's files, and of one more behind them.
pub(crate) fn view_with<S: Sealed>(
    stores: &[TableStore<S>],
    alloc: Global,
    table: u16,
    file: OpenFile<Table<S>>,
) -> Result<Arc<View<Table<S>>, Global>, Mem>
    ensures { IfOk result (λ v. arc_value v ≡ files_at (slice_get stores.now table) ++ file_of file ∷ []) }
{
    match stores.get(table as usize) {
        None => TableStore::new(alloc)?.view_with(alloc, file),
        Some(store) => store.view_with(alloc, file),
    }
}

/// Gives a table this view of its files, and lets go of so many of its oldest frozen memtables.
pub(crate) fn swap<S: Sealed>(
    stores: &mut Vec<TableStore<S>>,
    table: u16,
    view: Arc<View<Table<S>>, Global>,
    count: usize,
)
    requires some { 1 ≤ count }
    requires there { count ≤ length (frozen_at (slice_get stores.old.items table)) }
    ensures { Swaps table count (arc_value view) stores.old.items stores.new.items }
{
    let store = &mut stores[table as usize];
    store.swap(view, count);
}
