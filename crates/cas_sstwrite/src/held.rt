//! What somebody who writes a table file holds of it.

ghost use Rattle.std.specs.Prelude.{◌≤◌, vec_len};
ghost use Rattle.std.specs.List.{All};
ghost use Rattle.cas_info.specs.declared.info.TheConstants.{FILE_LIMIT, PARTITION_LIMIT};
ghost use Rattle.cas_index.specs.Allowed.{HasRoom, HasRooms};
ghost use Rattle.cas_sstwrite.specs.Inner.Props.{room_props};

use crate::fault::PartitionFault;
use cas_cell::Deletion;
use cas_facts::Tally;
use cas_index::{BlockEntry, PartitionEntry};
use cas_tables::Header;
use std::alloc::Global;

/// A table's draft, and how many bytes it has taken.
#[derive(Drop)]
pub struct Sink<D> {
    pub draft: D,
    pub place: u64,
    ghost short: { place ≤ FILE_LIMIT },
}

/// What waits of a partition: the block that was begun, behind room for its length; what the index
/// is to tell of its blocks; what is in force behind its last fragment; and what was seen.
#[derive(Drop)]
pub struct Part {
    pub buffer: Vec<u8>,
    pub entries: Vec<BlockEntry>,
    pub force: Option<Deletion>,
    pub seen: Tally,
    ghost rooms: { All HasRoom entries.items } by { Prim.hlevel room_props },
}

/// Writes a table file into a draft, partition by partition. It holds no partition: a block is
/// written as soon as it is full. After a fault it answers that fault again.
#[derive(Drop)]
pub struct TableWriter<D, E> {
    pub(crate) alloc: Global,
    pub(crate) sink: Sink<D>,
    pub(crate) header: Header,
    pub(crate) level: u8,
    pub(crate) entries: Vec<PartitionEntry>,
    pub(crate) seen: Tally,
    pub(crate) broken: Option<PartitionFault<E>>,
    ghost rooms: { All HasRooms entries.items } by { Prim.hlevel room_props },
    ghost few: { vec_len entries ≤ PARTITION_LIMIT },
}
