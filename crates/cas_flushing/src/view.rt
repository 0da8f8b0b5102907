//! The view that a table has with the file of a flush.

ghost use Rattle.std.specs.Prelude.{◌≡◌, ◌≤◌, ◌++◌, ◌∷◌, [], slice_get, IfOk, IfErr, IsErrOf};
ghost use Rattle.std.specs.Arc.{arc_value};
ghost use Rattle.cas_disk.specs.Counts.{Counted};
ghost use Rattle.cas_info.specs.declared.info.TheConstants.{FILE_LIMIT};
ghost use Rattle.cas_sstread.specs.Loading.{Held};
ghost use Rattle.cas_view.specs.Views.{File, file_of};
ghost use Rattle.cas_shard.specs.Stands.{files_at};
ghost use Rattle.cas_flushing.specs.Flushed.{IsOpened, WhyUnopened};

use cas_disk::Sealed;
use cas_info::TableInfo;
use cas_shard::Shard;
use cas_sstread::{Table, TableFault};
use cas_types::{Mem, TableSchema};
use cas_view::{OpenFile, View};
use std::alloc::{AllocError, Global};
use std::sync::Arc;

// The table as an open file, with what is told of it.
fn opened<S: Sealed>(
    alloc: Global,
    table: Table<S>,
    info: &TableInfo,
) -> Result<OpenFile<Table<S>>, AllocError>
    ensures { IfOk result (λ f. file_of f ≡ record { table = table; info = info.now }) }
{
    Ok(OpenFile {
        table: Arc::new(alloc, table)?,
        info: info.clone()?,
    })
}

/// Opens the file of a flush, of which this is told: of that table, in the shard at this index of the store. Gives
/// a view of the files that the table has in the shard, and of this one behind them. The shard stays as it is.
pub fn view_of_flush<S: Sealed>(
    alloc: Global,
    shard: &Shard<S>,
    table: &TableSchema,
    index: u8,
    info: &TableInfo,
    file: S,
    tally: &mut S::Tally,
) -> Result<Arc<View<Table<S>>, Global>, TableFault>
    requires { info.now.bytes ≤ FILE_LIMIT }
    ensures view { IfOk result (λ v. (f : File Held) × (arc_value v ≡ files_at (slice_get shard.now.stores table.now.number) ++ f ∷ [])
        × IsOpened table.now index info.now (S.contents file) f) }
    ensures why { IfErr result (WhyUnopened table.now index info.now (S.contents file)) }
    ensures count { Counted (S.Tally.number tally.old) (S.Tally.number tally.new) (IsErrOf result TableFault.ReadFault) }
{
    let loaded = Table::load(alloc, file, table, index, info, tally)?;
    let file = opened(alloc, loaded, info)?;
    match shard.view_with(alloc, table.number, file) {
        Ok(view) => Ok(view),
        Err(Mem) => Err(TableFault::Mem),
    }
}
