//! Loads the listed files of a table in a shard, one after another.

ghost use Rattle.std.specs.Prelude.{◌≡◌, ◌↔◌, ◌≤◌, ℕ, List, [], Some, Ok, map, IfOk, IsErrOf, IsTrue};
ghost use Rattle.std.specs.List.{AllByRecursion};
ghost use Rattle.cas_bounds.specs.ClusteringOrder.{clustering_order};
ghost use Rattle.cas_disk.specs.Counts.{Counted};
ghost use Rattle.cas_disk.specs.Disk.{Image, During, Follows, Same, bytes_of};
ghost use Rattle.cas_disk.specs.declared.name.Name.TheVariants.{Table as table_name};
ghost use Rattle.cas_info.specs.declared.info.TheConstants.{FILE_LIMIT};
ghost use Rattle.cas_sstread.specs.Reading.{loaded_at};
ghost use Rattle.cas_sstread.specs.Loading.{Held, IsBadAt};
ghost use Rattle.cas_view.specs.Views.{file_of, files_of};
ghost use Rattle.cas_stored.specs.Stored.{IsFileOf};
ghost use Rattle.cas_listed.specs.Listed.{AreLoaded, IsBadFile, IsBadListed, IsLoaded};

use crate::fault::ListedFault;
use cas_disk::{Count, Folder, FolderFault, Name, Sealed};
use cas_info::TableInfo;
use cas_sstread::{Table, TableFault};
use cas_types::{Mem, TableSchema};
use cas_view::{OpenFile, View};
use std::alloc::{AllocError, Global};
use std::sync::Arc;

// The table as an open file, with what is listed of it.
fn opened<S: Sealed>(
    alloc: Global,
    table: Table<S>,
    info: &TableInfo,
) -> Result<OpenFile<Table<S>>, AllocError>
    ensures { IfOk result (λ f. file_of f ≡ record { table = table; info = info.now }) }
{
    Ok(OpenFile {
        table: Arc::new(alloc, table)?,
        info: info.clone()?,
    })
}

// Loads a table's file, which is open.
fn load<S: Sealed>(
    alloc: Global,
    file: S,
    table: &TableSchema,
    shard: u8,
    info: &TableInfo,
    tally: &mut S::Tally,
) -> Result<OpenFile<Table<S>>, ListedFault>
    requires { info.now.bytes ≤ FILE_LIMIT }
    ensures loaded { IfOk result (λ f. (b : List ℕ) → S.contents file ≡ Some b
        → loaded_at (clustering_order table.now.columns) table.now.number shard info.now b ≡ Ok (file_of {T = Held} f).table.kept) }
    ensures bad { (number at : ℕ) → IsErrOf result (ListedFault.Bad number at) → (b : List ℕ) → S.contents file ≡ Some b
        → (number ≡ info.now.number) × IsBadAt (loaded_at (clustering_order table.now.columns) table.now.number shard info.now b) at }
    ensures contents { IfOk result (λ f. (file_of f).table.contents ≡ S.contents file) }
    ensures columns { IfOk result (λ f. IsFileOf table.now.columns (file_of f)) }
    ensures infos { IfOk result (λ f. (f.info ≡ info.now) × ((file_of f).table.info ≡ info.now)) }
    ensures failed { IsErrOf result ListedFault.Failed → ⊥ }
    ensures read { Counted (S.Tally.number tally.old) (S.Tally.number tally.new) (IsErrOf result ListedFault.Read) }
{
    match Table::load(alloc, file, table, shard, info, tally) {
        Ok(loaded) => Ok(opened(alloc, loaded, info)?),
        Err(TableFault::ReadFault) => Err(ListedFault::Read),
        Err(TableFault::BadBlock { number, at }) => Err(ListedFault::Bad { number, at }),
        Err(TableFault::Mem) => Err(ListedFault::Mem),
    }
}

// Whether a table's file has no byte, as one that isn't there.
fn is_empty<F: Folder>(folder: &mut F, number: u64) -> Result<bool, FolderFault>
    ensures empty { IfOk result (λ none. (c : Image) → (F.disk folder.old).reads c → (IsTrue none ↔ (bytes_of (c (table_name number)) ≡ []))) }
    ensures reads { Follows Same (F.disk folder.old).reads (F.disk folder.new).reads }
    ensures during { During Same (F.disk folder.old) (F.disk folder.new) }
    ensures count { Counted (F.faults_of folder.old) (F.faults_of folder.new) (IsErrOf result FolderFault.Failed) }
{
    let mut byte = [0u8; 1];
    match folder.read_at(Name::Table(number), 0, &mut byte) {
        Ok(given) => Ok(given == 0),
        Err(fault) => Err(FolderFault::from(fault)),
    }
}

// Opens a table's file that is listed; one without bytes is bad at its beginning.
fn open_listed<F: Folder>(folder: &mut F, number: u64) -> Result<F::Sealed, ListedFault>
    ensures holds { IfOk result (λ file. (c : Image) → (F.disk folder.old).reads c
        → (b : List ℕ) × (F.Sealed.contents file ≡ Some b) × (c (table_name number) ≡ Some b)) }
    ensures bad { (n at : ℕ) → IsErrOf result (ListedFault.Bad n at) → (n ≡ number) × (at ≡ 0)
        × ((c : Image) → (F.disk folder.old).reads c → bytes_of (c (table_name number)) ≡ []) }
    ensures reads { Follows Same (F.disk folder.old).reads (F.disk folder.new).reads }
    ensures during { During Same (F.disk folder.old) (F.disk folder.new) }
    ensures count { Counted (F.faults_of folder.old) (F.faults_of folder.new) (IsErrOf result ListedFault.Failed) }
    ensures read { IsErrOf result ListedFault.Read → ⊥ }
{
    match is_empty(folder, number) {
        Ok(true) => Err(ListedFault::Bad { number, at: 0 }),
        Ok(false) => match folder.sealed(number) {
            Ok(file) => Ok(file),
            Err(FolderFault::Failed) => Err(ListedFault::Failed),
            Err(FolderFault::Mem) => Err(ListedFault::Mem),
        },
        Err(FolderFault::Failed) => Err(ListedFault::Failed),
        Err(FolderFault::Mem) => Err(ListedFault::Mem),
    }
}

// Loads the file of that table and that shard of which this is listed.
fn load_file<F: Folder>(
    alloc: Global,
    folder: &mut F,
    table: &TableSchema,
    shard: u8,
    info: &TableInfo,
    tally: &mut F::Tally,
) -> Result<OpenFile<Table<F::Sealed>>, ListedFault>
    requires { info.now.bytes ≤ FILE_LIMIT }
    ensures loaded { IfOk result (λ f. (c : Image) → (F.disk folder.old).reads c → IsLoaded table.now shard c info.now (file_of f)) }
    ensures columns { IfOk result (λ f. IsFileOf table.now.columns (file_of f)) }
    ensures infos { IfOk result (λ f. (f.info ≡ info.now) × ((file_of f).table.info ≡ info.now)) }
    ensures bad { (number at : ℕ) → IsErrOf result (ListedFault.Bad number at) → (c : Image) → (F.disk folder.old).reads c
        → IsBadListed table.now shard c info.now number at }
    ensures reads { Follows Same (F.disk folder.old).reads (F.disk folder.new).reads }
    ensures during { During Same (F.disk folder.old) (F.disk folder.new) }
    ensures count { Counted (F.faults_of folder.old) (F.faults_of folder.new) (IsErrOf result ListedFault.Failed) }
    ensures read { Counted (F.Tally.number tally.old) (F.Tally.number tally.new) (IsErrOf result ListedFault.Read) }
{
    match open_listed(folder, info.number) {
        Ok(file) => match load(alloc, file, table, shard, info, tally) {
            Ok(file) => Ok(file),
            Err(fault) => Err(fault),
        },
        Err(fault) => Err(fault),
    }
}

// Each of the listed files, in their order.
fn load_each<F: Folder>(
    alloc: Global,
    folder: &mut F,
    table: &TableSchema,
    shard: u8,
    listed: &[TableInfo],
    tally: &mut F::Tally,
) -> Result<Vec<OpenFile<Table<F::Sealed>>>, ListedFault>
    requires { AllByRecursion (λ i. i.bytes ≤ FILE_LIMIT) listed.now }
    ensures loaded { IfOk result (λ v. (c : Image) → (F.disk folder.old).reads c → AreLoaded table.now shard c listed.now (files_of v.items)) }
    ensures columns { IfOk result (λ v. AllByRecursion (IsFileOf table.now.columns) (files_of v.items)) }
    ensures infos { IfOk result (λ v. (map (λ f. f.info) (files_of v.items) ≡ listed.now) × (map (λ f. f.table.info) (files_of v.items) ≡ listed.now)) }
    ensures bad { (number at : ℕ) → IsErrOf result (ListedFault.Bad number at) → (c : Image) → (F.disk folder.old).reads c
        → IsBadFile table.now shard c listed.now number at }
    ensures reads { Follows Same (F.disk folder.old).reads (F.disk folder.new).reads }
    ensures during { During Same (F.disk folder.old) (F.disk folder.new) }
    ensures count { Counted (F.faults_of folder.old) (F.faults_of folder.new) (IsErrOf result ListedFault.Failed) }
    ensures read { Counted (F.Tally.number tally.old) (F.Tally.number tally.new) (IsErrOf result ListedFault.Read) }
{
    let mut files = Vec::new(alloc);
    for info in listed {
        let file = match load_file(alloc, folder, table, shard, info, tally) {
            Ok(file) => file,
            Err(fault) => return Err(fault),
        };
        files.push(file)?;
    }
    Ok(files)
}

/// Loads the files of that table and that shard of which these are listed, in their order.
pub fn load_listed<F: Folder>(
    alloc: Global,
    folder: &mut F,
    table: &TableSchema,
    shard: u8,
    listed: &[TableInfo],
    tally: &mut F::Tally,
) -> Result<View<Table<F::Sealed>>, ListedFault>
    requires { AllByRecursion (λ i. i.bytes ≤ FILE_LIMIT) listed.now }
    ensures loaded { IfOk result (λ v. (c : Image) → (F.disk folder.old).reads c → AreLoaded table.now shard c listed.now v) }
    ensures columns { IfOk result (λ v. AllByRecursion (IsFileOf table.now.columns) v) }
    ensures infos { IfOk result (λ v. (map (λ f. f.info) v ≡ listed.now) × (map (λ f. f.table.info) v ≡ listed.now)) }
    ensures bad { (number at : ℕ) → IsErrOf result (ListedFault.Bad number at) → (c : Image) → (F.disk folder.old).reads c
        → IsBadFile table.now shard c listed.now number at }
    ensures reads { Follows Same (F.disk folder.old).reads (F.disk folder.new).reads }
    ensures during { During Same (F.disk folder.old) (F.disk folder.new) }
    ensures count { Counted (F.faults_of folder.old) (F.faults_of folder.new) (IsErrOf result ListedFault.Failed) }
    ensures read { Counted (F.Tally.number tally.old) (F.Tally.number tally.new) (IsErrOf result ListedFault.Read) }
{
    match load_each(alloc, folder, table, shard, listed, tally) {
        Ok(files) => match View::new(alloc).with(files) {
            Ok(view) => Ok(view),
            Err(Mem) => Err(ListedFault::Mem),
        },
        Err(fault) => Err(fault),
    }
}
