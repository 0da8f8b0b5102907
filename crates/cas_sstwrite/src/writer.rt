//! Writes a table file, partition by partition.

ghost use Rattle.std.specs.Prelude.{◌≡◌, ◌↔◌, ◌⊎◌, ◌+◌, ◌≤◌, ◌<◌, ◌^◌, ◌++◌, ◌∷◌, ℕ, [], List as ListOf};
ghost use Rattle.std.specs.Prelude.{length, true, false, Option, None, Some, Err, vec_len, IfOk, OnOk, IfErr, IsErrOf};
ghost use Rattle.std.specs.List.{All, last_or};
ghost use Rattle.std.specs.Option.{option_copied};
ghost use Rattle.cas_types.specs.declared.schema.Column.{Column as ColumnOf};
ghost use Rattle.cas_streams.specs.declared.fragment.Fragment.{Fragment as FragmentOf};
ghost use Rattle.cas_disk.specs.Counts.{Counted};
ghost use Rattle.cas_info.specs.declared.info.TheConstants.{LAST_LEVEL, PARTITION_LIMIT};
ghost use Rattle.cas_index.specs.Entries.{is_next_key};
ghost use Rattle.cas_index.specs.Allowed.{HasRoom, HasRooms};
ghost use Rattle.cas_tables.specs.Allowed.{FitsHeader};
ghost use Rattle.cas_tables.specs.Contents.{Partition as PartitionOf};
ghost use Rattle.cas_fragments.specs.declared.heads.Version.TheVariants.{Second};
ghost use Rattle.cas_sstwrite.specs.Writers.{Writes, FitsStream, partition_of, fault_of, entries_of, place_of, Repeats};
ghost use Rattle.cas_sstwrite.specs.Rooms.{AreHeld};
ghost use Rattle.cas_sstwrite.specs.Causes.{WhyNot, IsOwn};
ghost use Rattle.cas_sstwrite.specs.Inner.Parts.{Says};
ghost use Rattle.cas_sstwrite.specs.Inner.Adding.{is_nothing, AddsFirst, AddsTold, WrittenFault};

use crate::fault::{Measure, PartitionFault, WriteFault};
use crate::held::{Sink, TableWriter};
use crate::partition::write_partition;
use crate::rows::next_of;
use cas_cell::Deletion;
use cas_disk::Draft;
use cas_facts::Tally;
use cas_index::{BlockEntry, PartitionEntry};
use cas_info::PARTITION_LIMIT;
use cas_streams::{Fragment, FragmentSource};
use cas_tables::{Header, put_header};
use cas_types::{Bytes, List, compare_bytes};
use std::alloc::Global;
use std::mem::drop;

// The last of them, if there is one.
fn last(entries: &[PartitionEntry]) -> Option<&PartitionEntry>
    ensures { option_copied result ≡ last_or None entries.now }
{
    entries.last()
}

// Whether the key stands above that of the last of these partitions.
fn is_next(entries: &[PartitionEntry], key: &[u8]) -> bool
    ensures { result ≡ is_next_key (last_or None entries.now) key.now }
{
    match last(entries) {
        Some(before) => compare_bytes(before.key.as_slice(), key).is_lt(),
        None => true,
    }
}

// Whether nothing is said of a partition with that deletion and that first fragment.
fn is_nothing(top: Option<Deletion>, first: &Option<Fragment>) -> bool
    ensures { result ≡ is_nothing top first.now }
{
    top.is_none() && first.is_none()
}

// Adds what the index is to tell of a partition.
fn keep(
    alloc: Global,
    entries: &mut Vec<PartitionEntry>,
    key: &[u8],
    place: u64,
    blocks: Vec<BlockEntry>,
) -> Result<(), WriteFault>
    requires short { length key.now < 2 ^ 16 }
    requires few { length blocks.items < 2 ^ 32 }
    requires rooms { All HasRoom blocks.items }
    requires kept { All HasRooms entries.old.items }
    ensures added { OnOk result (entries.new.items ≡ entries.old.items ++ (record { key = key.now; place = place; blocks = blocks.items }) ∷ []) }
    ensures rooms { All HasRooms entries.new.items }
    ensures long { vec_len entries.new ≤ vec_len entries.old + 1 }
    ensures why { IfErr result (λ e. e ≡ WriteFault.Mem) }
{
    let key = Bytes::copy_of(alloc, key)?;
    let blocks = List::from_vec(blocks);
    entries.push(PartitionEntry { key, place, blocks })?;
    Ok(())
}

impl<D: Draft, E: Copy> TableWriter<D, E> {
    /// Begins a table's file in a draft that has taken nothing, and has the number of the header.
    pub fn begin(
        alloc: Global,
        draft: D,
        header: Header,
        level: u8,
        tally: &mut D::Tally,
    ) -> Result<Self, WriteFault>
        requires header { FitsHeader header }
        requires version { header.version ≡ Second }
        requires level { level ≤ LAST_LEVEL }
        ensures begun { IfOk result (λ w. D.number draft ≡ header.number → ((bytes : ListOf ℕ) → D.written draft bytes → bytes ≡ [])
            → (columns : ListOf ColumnOf) → Writes D.number D.written columns w []) }
        ensures header { IfOk result (λ w. (w.header ≡ header) × (w.level ≡ level)) }
        ensures sound { IfOk result (λ w. fault_of w ≡ None) }
        ensures count { Counted (D.Tally.number tally.old) (D.Tally.number tally.new) (IsErrOf result WriteFault.Failed) }
        ensures why { IfErr result (λ e. (e ≡ WriteFault.Failed) ⊎ (e ≡ WriteFault.Mem)) }
    {
        let mut start = Vec::new(alloc);
        put_header(&mut start, &header)?;
        let mut sink = Sink::new(draft);
        sink.append(&start, tally)?;
        Ok(TableWriter {
            alloc,
            sink,
            header,
            level,
            entries: Vec::new(alloc),
            seen: Tally::new(),
            broken: None,
        })
    }

    // Writes a partition behind those that were written. Its first fragment was given, or it has none.
    fn write<S: FragmentSource<Fault = E>>(
        &mut self,
        key: &[u8],
        top: Option<Deletion>,
        first: Option<Fragment>,
        source: &mut S,
        tally: &mut D::Tally,
    ) -> Result<(), PartitionFault<E>>
        ensures added { OnOk result (AddsFirst D.number D.written key.now top first self.old self.new (S.to_come source.old)) }
        ensures broken { self.new.broken ≡ self.old.broken }
        ensures count { Counted (D.Tally.number tally.old) (D.Tally.number tally.new) (IsErrOf result (PartitionFault.Write WriteFault.Failed)) }
        ensures kind { IfErr result (λ e. e ≡ PartitionFault.Write WriteFault.Order → ⊥) }
        ensures why { IfErr result (λ e. (fs : ListOf FragmentOf) → Says first (S.to_come source.old) fs
            → WrittenFault (length self.old.entries.items) self.old.sink.place key.now top fs e) }
        ensures own { IfErr result (λ e. IsOwn e (S.broken_by source.new)) }
    {
        if self.entries.len() >= PARTITION_LIMIT as usize {
            drop(first);
            return Err(PartitionFault::Write(WriteFault::TooMany {
                what: Measure::Partitions,
                limit: PARTITION_LIMIT as u64,
            }));
        }
        let place = self.sink.place;
        let part = write_partition(
            self.alloc,
            &mut self.sink,
            self.seen,
            key,
            top,
            first,
            source,
            tally,
        )?;
        self.seen = part.seen;
        Ok(keep(self.alloc, &mut self.entries, key, place, part.entries)?)
    }

    // The same of a key that stands above those before, of a source of which nothing was asked.
    fn advance<S: FragmentSource<Fault = E>>(
        &mut self,
        key: &[u8],
        source: &mut S,
        tally: &mut D::Tally,
    ) -> Result<(), PartitionFault<E>>
        ensures added { OnOk result (AddsTold D.number D.written key.now (S.over_all source.old) self.old self.new (S.to_come source.old)) }
        ensures broken { self.new.broken ≡ self.old.broken }
        ensures count { Counted (D.Tally.number tally.old) (D.Tally.number tally.new) (IsErrOf result (PartitionFault.Write WriteFault.Failed)) }
        ensures kind { IfErr result (λ e. e ≡ PartitionFault.Write WriteFault.Order → ⊥) }
        ensures why { IfErr result (λ e. (fs : ListOf FragmentOf) → S.to_come source.old ≡ Some fs
            → WrittenFault (length self.old.entries.items) self.old.sink.place key.now (S.over_all source.old) fs e) }
        ensures own { IfErr result (λ e. IsOwn e (S.broken_by source.new)) }
    {
        let top = source.top();
        let first = next_of(source)?;
        if is_nothing(top, &first) {
            drop(first);
            return Ok(());
        }
        self.write(key, top, first, source, tally)
    }

    // The same of a writer that isn't broken.
    fn add<S: FragmentSource<Fault = E>>(
        &mut self,
        key: &[u8],
        source: &mut S,
        tally: &mut D::Tally,
    ) -> Result<(), PartitionFault<E>>
        ensures above { OnOk result (is_next_key (last_or None self.old.entries.items) key.now ≡ true) }
        ensures added { OnOk result (AddsTold D.number D.written key.now (S.over_all source.old) self.old self.new (S.to_come source.old)) }
        ensures broken { self.new.broken ≡ self.old.broken }
        ensures count { Counted (D.Tally.number tally.old) (D.Tally.number tally.new) (IsErrOf result (PartitionFault.Write WriteFault.Failed)) }
        ensures why { IfErr result (λ e. (fs : ListOf FragmentOf) → S.to_come source.old ≡ Some fs
            → WhyNot self.old.entries.items self.old.sink.place key.now (S.over_all source.old) fs e) }
        ensures own { IfErr result (λ e. IsOwn e (S.broken_by source.new)) }
        ensures order { (result ≡ Err (PartitionFault.Write WriteFault.Order)) ↔ (is_next_key (last_or None self.old.entries.items) key.now ≡ false) }
    {
        if !is_next(&self.entries, key) {
            return Err(PartitionFault::Write(WriteFault::Order));
        }
        self.advance(key, source, tally)
    }

    /// Writes a partition under a key: what the source says of it. Where nothing is said, none is
    /// written. After a fault the writer is broken, and answers that fault again.
    pub fn partition<S: FragmentSource<Fault = E>>(
        &mut self,
        key: &[u8],
        source: &mut S,
        tally: &mut D::Tally,
    ) -> Result<(), PartitionFault<E>>
        ensures written { OnOk result ((columns : ListOf ColumnOf) (ps : ListOf PartitionOf) (fs : ListOf FragmentOf)
            → Writes D.number D.written columns self.old ps → S.to_come source.old ≡ Some fs → FitsStream columns key.now (S.over_all source.old) fs
            → Writes D.number D.written columns self.new (ps ++ partition_of key.now (S.over_all source.old) fs)) }
        ensures kept { OnOk result ((self.new.header ≡ self.old.header) × (self.new.level ≡ self.old.level)) }
        ensures held { OnOk result ((fs : ListOf FragmentOf) → S.to_come source.old ≡ Some fs → AreHeld fs) }
        ensures why { IfErr result (λ e. fault_of self.old ≡ None → (fs : ListOf FragmentOf) → S.to_come source.old ≡ Some fs
            → WhyNot (entries_of self.old) (place_of self.old) key.now (S.over_all source.old) fs e) }
        ensures own { IfErr result (λ e. fault_of self.old ≡ None → IsOwn e (S.broken_by source.new)) }
        ensures order { fault_of self.old ≡ None → ((result ≡ Err (PartitionFault.Write WriteFault.Order))
            ↔ (is_next_key (last_or None (entries_of self.old)) key.now ≡ false)) }
        ensures repeats { Repeats (fault_of self.old) (fault_of self.new) result }
        ensures count { Counted (D.Tally.number tally.old) (D.Tally.number tally.new)
            ((fault_of self.old ≡ None) × IsErrOf result (PartitionFault.Write WriteFault.Failed)) }
    {
        if let Some(fault) = self.broken {
            return Err(fault);
        }
        match self.add(key, source, tally) {
            Ok(()) => Ok(()),
            Err(fault) => {
                self.broken = Some(fault);
                Err(fault)
            }
        }
    }
}
