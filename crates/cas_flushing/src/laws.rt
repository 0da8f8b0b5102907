//! What holds of a shard's memory and of its files when a table is flushed, or gets columns, or is new.

ghost use Rattle.cas_flushing.specs.Laws.{AddedColumnsStay, FlushStands, NewTablesHoldNothing};

use cas_disk::Draft;

/// The file of a flush says what the memtables did that it was written of: as it stands in an image of the disk, and
/// as it is opened. None of it is bad.
pub fn flush_stands<D: Draft>()
    ensures { FlushStands D.number D.written }
{}

/// What a shard has in memory of a table, it has of the table with columns more.
pub fn added_columns_stay()
    ensures { AddedColumnsStay }
{}

/// With tables more, a shard has of the others in memory what it had, and of the new ones nothing.
pub fn new_tables_hold_nothing()
    ensures { NewTablesHoldNothing }
{}
