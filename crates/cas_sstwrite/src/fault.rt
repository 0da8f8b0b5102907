//! Why a table file isn't written.

ghost use Rattle.std.specs.Prelude.{◌≡◌};
ghost use Rattle.cas_sstwrite.specs.declared.fault.WriteFault.TheVariants as write_fault;
ghost use Rattle.cas_sstwrite.specs.declared.fault.PartitionFault.TheVariants as partition_fault;

use cas_io::Failed;
use cas_types::Mem;
use std::alloc::{AllocError, AllocFailed};

/// What a table file may have so much of, and no more.
#[derive(Clone, Copy)]
pub enum Measure {
    FileBytes,
    BlockBytes,
    Partitions,
}

/// Why something wasn't written.
#[derive(Clone, Copy)]
pub enum WriteFault {
    /// The disk failed, and the tally that was handed in has counted it.
    Failed,
    /// The key doesn't stand above that of the partition before.
    Order,
    /// With it there were more than so many.
    TooMany { what: Measure, limit: u64 },
    /// No table's partition is so: a number or a length has no room in its field, or static columns
    /// stand behind another fragment.
    Unfit,
    /// Out of memory.
    Mem,
}

/// Why a partition wasn't written.
#[derive(Clone, Copy)]
pub enum PartitionFault<E> {
    Write(WriteFault),
    /// The source's own fault.
    Source(E),
}

/// The most bytes of a block.
pub const BLOCK_LIMIT: u64 = (1 << 32) - 1;

impl From<Failed> for WriteFault {
    ghost from_gives = { λ _ fault. fault ≡ write_fault.Failed };

    fn from(_: Failed) -> Self {
        WriteFault::Failed
    }
}

impl From<Mem> for WriteFault {
    ghost from_gives = { λ _ fault. fault ≡ write_fault.Mem };

    fn from(_: Mem) -> Self {
        WriteFault::Mem
    }
}

impl From<AllocError> for WriteFault {
    ghost from_gives = { λ _ fault. fault ≡ write_fault.Mem };

    fn from(_: AllocError) -> Self {
        WriteFault::Mem
    }
}

impl<T: Drop> From<AllocFailed<T>> for WriteFault {
    ghost from_gives = { λ _ fault. fault ≡ write_fault.Mem };

    fn from(_: AllocFailed<T>) -> Self {
        WriteFault::Mem
    }
}

impl<E> From<WriteFault> for PartitionFault<E> {
    ghost from_gives = { λ fault other. other ≡ partition_fault.Write fault };

    fn from(fault: WriteFault) -> Self {
        PartitionFault::Write(fault)
    }
}
