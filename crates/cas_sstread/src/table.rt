//! A table file that is loaded.

ghost use Rattle.std.specs.Prelude.{◌≡◌, ◌+◌, ◌<◌, ◌≤◌, ◌^◌, ℕ, List, Some, true, take, drop, vec_len, IfOk, IfErr, IsErrOf};
ghost use Rattle.cas_disk.specs.Counts.{Counted};
ghost use Rattle.cas_bounds.specs.ClusteringOrder.{clustering_order};
ghost use Rattle.cas_info.specs.declared.info.TheConstants.{FILE_LIMIT};
ghost use Rattle.cas_sstread.specs.Reading.{stand_before, loaded_at};
ghost use Rattle.cas_sstread.specs.Loading.{Held, Answers, IsNoBlock};

use crate::fault::TableFault;
use crate::loading::{Parts, load_parts};
use crate::parts::read_part;
use cas_bounds::{RowOrder, clustering_order};
use cas_disk::Sealed;
use cas_fragments::Version;
use cas_info::TableInfo;
use cas_types::{Column, List, TableSchema};
use std::alloc::{AllocError, Global};
use std::marker::Model;

/// A table file that is loaded: its index, its filter and what is told of it are in memory, its
/// partitions stay in the file. Contracts see what is kept of it, and the bytes of the file where it
/// tells them. Its partitions end before what stands behind them, which ends in the file.
#[derive(Drop)]
pub struct Table<F: Sealed> {
    file: F,
    columns: List<Column>,
    order: RowOrder,
    info: TableInfo,
    pub(crate) parts: Parts,
}

impl<F: Sealed> Model for Table<F> {
    ghost use Rattle.std.specs.Prelude.{◌≡◌, ◌≤◌, true};
    ghost use Rattle.cas_bounds.specs.ClusteringOrder.{clustering_order};
    ghost use Rattle.cas_info.specs.declared.info.TheConstants.{FILE_LIMIT};
    ghost use Rattle.cas_sstread.specs.Reading.{stand_before};
    ghost use Rattle.cas_sstread.specs.Loading.{Held};
    ghost use Rattle.cas_sstread.specs.Inner.Parts.{kept_of};

    ghost Value = { Held };

    ghost view = { λ t. record { contents = F.contents t.file; columns = t.columns; info = t.info; kept = kept_of t.parts } };

    ghost invariant = { λ t. (t.order ≡ clustering_order t.columns) × (t.parts.index.order ≡ t.order)
        × (stand_before t.parts.end t.parts.index.partitions ≡ true) × (t.parts.end ≤ FILE_LIMIT) };
}

fn copy_columns(columns: &List<Column>) -> Result<List<Column>, AllocError>
    ensures { IfOk result (λ c. c ≡ columns.now) }
{
    columns.clone()
}

fn copy_info(info: &TableInfo) -> Result<TableInfo, AllocError>
    ensures { IfOk result (λ i. i ≡ info.now) }
{
    info.clone()
}

impl<F: Sealed> Table<F> {
    /// Loads the file of that table and that shard of which this is listed: header and footer, then
    /// index, filter and what the file tells of itself, each by one extent; no partition is read.
    pub fn load(
        alloc: Global,
        file: F,
        table: &TableSchema,
        shard: u8,
        info: &TableInfo,
        tally: &mut F::Tally,
    ) -> Result<Table<F>, TableFault>
        requires { info.now.bytes ≤ FILE_LIMIT }
        ensures loaded { (b : List ℕ) → F.contents file ≡ Some b
            → Answers (λ t. t.kept) info.now.number result (loaded_at (clustering_order table.now.columns) table.now.number shard info.now b) }
        ensures held { IfOk result (λ t. (t.contents ≡ F.contents file) × (t.columns ≡ table.now.columns) × (t.info ≡ info.now)) }
        ensures count { Counted (F.Tally.number tally.old) (F.Tally.number tally.new) (IsErrOf result TableFault.ReadFault) }
    {
        let columns = copy_columns(&table.columns)?;
        let order = clustering_order(alloc, columns.as_slice())?;
        let listed = copy_info(info)?;
        let parts = load_parts(alloc, &file, &order, table.number, shard, info, tally)?;
        Ok(Table {
            file,
            columns,
            order,
            info: listed,
            parts,
        })
    }

    /// What is listed of the file.
    pub fn info(&self) -> &TableInfo
        ensures { result.now ≡ self.now.info }
    {
        &self.info
    }

    /// The file.
    pub fn file(&self) -> &F
        ensures { F.contents result.now ≡ self.now.contents }
    {
        &self.file
    }

    /// So many bytes of the file from a place on, or all that it has from there on.
    pub fn read(
        &self,
        alloc: Global,
        at: u64,
        count: usize,
        tally: &mut F::Tally,
    ) -> Result<Vec<u8>, TableFault>
        requires { at + count < 2 ^ 63 }
        ensures bytes { IfOk result (λ v. (b : List ℕ) → self.now.contents ≡ Some b → v.items ≡ take count (drop at b)) }
        ensures long { IfOk result (λ v. vec_len v ≤ count) }
        ensures count { Counted (F.Tally.number tally.old) (F.Tally.number tally.new) (IsErrOf result TableFault.ReadFault) }
        ensures why { IfErr result IsNoBlock }
    {
        read_part(alloc, &self.file, at, count, tally)
    }

    /// The columns of the table.
    pub fn columns(&self) -> &[Column]
        ensures { result.now ≡ self.now.columns }
    {
        self.columns.as_slice()
    }

    /// How the table orders its rows.
    pub fn order(&self) -> &RowOrder
        ensures { result.now ≡ clustering_order self.now.columns }
    {
        &self.order
    }

    /// The version of the format that the file has.
    pub fn version(&self) -> Version
        ensures { result ≡ self.now.kept.version }
    {
        self.parts.version
    }

    /// The place where the partitions end.
    pub fn end(&self) -> u64
        ensures end { result ≡ self.now.kept.end }
        ensures within { result ≤ FILE_LIMIT }
    {
        self.parts.end
    }
}
