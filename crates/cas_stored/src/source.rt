//! A source of a partition, of what is in memory or of what stands in a file.

ghost use Rattle.std.specs.Prelude.{◌≡◌, ℕ, Some};
ghost use Rattle.cas_blocks.specs.declared.fault.TableFault.TheVariants as table_fault;
ghost use Rattle.cas_disk.specs.Counts.{Counted};
ghost use Rattle.cas_stored.specs.Inner.Either.{of_either, fault_of, file_in};

use crate::file::FileSource;
use crate::places::BadPlaces;
use cas_blocks::TableFault;
use cas_cell::Deletion;
use cas_disk::{Count, Sealed};
use cas_partition::PartitionStream;
use cas_streams::{Fragment, FragmentSource};
use std::alloc::AllocError;

/// One source of a partition: of a memtable, or of a table's file.
#[derive(Drop)]
pub enum StoredSource<M, F> {
    Memory(M),
    File(F),
}

/// What a table has stored of a partition in one place; in its files places of B may be told bad.
pub type Source<'a, S, B> = StoredSource<PartitionStream<'a>, FileSource<'a, S, B>>;

impl<M: Drop, F> StoredSource<M, F> {
    // That of a file, where it is one.
    fn into_file(self) -> Option<F>
        ensures { result ≡ file_in self }
    {
        match self {
            StoredSource::Memory(_) => None,
            StoredSource::File(file) => Some(file),
        }
    }
}

/// Adds the tally of a source; where it was broken by a read that failed, the sum rises.
pub(crate) fn add_tally<'a, S: Sealed, B: BadPlaces>(source: Source<'a, S, B>, tally: &mut S::Tally)
    ensures count { Counted (S.Tally.number tally.old) (S.Tally.number tally.new)
        (⟦<Source<'a, S, B> as FragmentSource>⟧.broken_by source.entry ≡ Some table_fault.Read) }
    ensures found { (n at : ℕ) → ⟦<Source<'a, S, B> as FragmentSource>⟧.broken_by source.entry ≡ Some (table_fault.BadBlock n at) → ∥ B.told n at ∥₁ }
{
    if let Some(file) = source.into_file() {
        // So it is known to be at most the greatest u64, and doesn't fall.
        let _before: u64 = tally.faults();
        tally.add(file.end());
    }
}

impl<M: FragmentSource<Fault = AllocError>, F: FragmentSource<Fault = TableFault>> FragmentSource
    for StoredSource<M, F> {
    ghost use Rattle.cas_stored.specs.Inner.Either.{of_either, fault_of};

    type Fault = TableFault;

    ghost to_come = { λ s. of_either M.to_come F.to_come s };

    ghost over_all = { λ s. of_either M.over_all F.over_all s };

    ghost at_most = { λ s. of_either M.at_most F.at_most s };

    ghost broken_by = { λ s. fault_of M.broken_by F.broken_by s };

    fn top(&self) -> Option<Deletion> {
        match self {
            StoredSource::Memory(memory) => memory.top(),
            StoredSource::File(file) => file.top(),
        }
    }

    /// The next fragment; where memory runs out, `Mem`.
    fn next(&mut self) -> Result<Option<Fragment>, TableFault> {
        match self {
            StoredSource::Memory(memory) => Ok(memory.next()?),
            StoredSource::File(file) => file.next(),
        }
    }
}
