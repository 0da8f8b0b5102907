//! The end of a table file: its index, its filter, what is told of it, and its footer.

ghost use Rattle.std.specs.Prelude.{◌≡◌, ◌+◌, ◌≤◌, ◌<◌, ◌^◌, [], List as ListOf, length, map, Option};
ghost use Rattle.std.specs.Prelude.{None, Some, Err, IfOk, IfSome, IfNone, OnSome, OnOk, IfErr, IsErrOf};
ghost use Rattle.std.specs.List.{All, last_or};
ghost use Rattle.cas_types.specs.declared.schema.Column.{Column as ColumnOf};
ghost use Rattle.cas_disk.specs.Counts.{Counted};
ghost use Rattle.cas_info.specs.declared.info.TheConstants.{PARTITION_LIMIT};
ghost use Rattle.cas_filter.specs.Filters.{bits_for, filter_of};
ghost use Rattle.cas_index.specs.Allowed.{HasRooms};
ghost use Rattle.cas_tables.specs.Contents.{Partition as PartitionOf};
ghost use Rattle.cas_sstwrite.specs.Inner.Sinks.{Took};
ghost use Rattle.cas_sstwrite.specs.Inner.Ends.{footer_at, body_at, tail_at, info_at, with_bytes, filter_at, TailFault, IsTold, AreEnds, Ended, EndFault};
ghost use Rattle.cas_sstwrite.specs.Writers.{Writes, contents_of, fault_of};
ghost use Rattle.cas_sstwrite.specs.Finished.{Finishes, FinishFault};
ghost use Rattle.cas_sstwrite.specs.declared.fault.PartitionFault.{PartitionFault as FaultOf};

use crate::fault::{PartitionFault, WriteFault};
use crate::held::{Sink, TableWriter};
use cas_disk::Draft;
use cas_facts::Facts;
use cas_filter::{Filter, put_filter};
use cas_index::{FOOTER_LENGTH, Footer, PartitionEntry, put_entries, put_footer};
use cas_info::{TableInfo, put_info};
use cas_tables::Header;
use cas_types::Mem;
use std::alloc::Global;

// The filter of the keys of these partitions.
fn filter_of(alloc: Global, entries: &[PartitionEntry]) -> Result<Filter, Mem>
    requires { length entries.now ≤ PARTITION_LIMIT }
    ensures { IfOk result (λ f. f ≡ filter_of (bits_for (length entries.now)) (map (λ e. e.key) entries.now)) }
{
    let mut filter = Filter::new(alloc, entries.len() as u32)?;
    for entry in entries {
        filter.add(entry.key.as_slice());
    }
    Ok(filter)
}

// What is told of a file of these partitions, of which the first and the last are these, but for
// its length.
fn info_of(
    header: &Header,
    level: u8,
    keys: u32,
    first: &PartitionEntry,
    last: &PartitionEntry,
    facts: Facts,
) -> Result<TableInfo, WriteFault>
    ensures info { IfOk result (λ i. i ≡ info_at header.now.number level keys first.now.key last.now.key facts 0) }
    ensures why { IfErr result (λ e. e ≡ WriteFault.Mem) }
{
    Ok(TableInfo {
        number: header.number,
        bytes: 0,
        first: first.key.clone()?,
        last: last.key.clone()?,
        least: facts.least,
        greatest: facts.greatest,
        dead: facts.dead,
        level,
        keys,
    })
}

// Index and filter, behind so many bytes, and where they stand.
fn put_body(
    out: &mut Vec<u8>,
    place: u64,
    entries: &[PartitionEntry],
    filter: &Filter,
) -> Result<Footer, Mem>
    requires few { length entries.now < 2 ^ 32 }
    requires rooms { All HasRooms entries.now }
    requires fresh { out.old.items ≡ [] }
    requires place { place ≤ 2 ^ 40 }
    ensures written { OnOk result (out.new.items ≡ body_at entries.now filter.now) }
    ensures footer { IfOk result (λ f. f ≡ footer_at place entries.now filter.now) }
{
    put_entries(out, entries)?;
    let behind = place + out.len() as u64;
    put_filter(out, filter)?;
    Ok(Footer {
        index: place,
        filter: behind,
        info: place + out.len() as u64,
    })
}

// What stands behind the partitions, which have so many bytes with their header; and what is told
// of the file, of which that was given but for the length.
fn put_tail(
    out: &mut Vec<u8>,
    place: u64,
    entries: &[PartitionEntry],
    filter: &Filter,
    info: TableInfo,
) -> Result<TableInfo, WriteFault>
    requires few { length entries.now < 2 ^ 32 }
    requires rooms { All HasRooms entries.now }
    requires fresh { out.old.items ≡ [] }
    requires place { place ≤ 2 ^ 40 }
    requires first { length info.first < 2 ^ 16 }
    requires last { length info.last < 2 ^ 16 }
    ensures info { IfOk result (λ i. i ≡ with_bytes info (place + length (tail_at place entries.now filter.now info))) }
    ensures written { IfOk result (λ i. out.new.items ≡ tail_at place entries.now filter.now i) }
    ensures why { IfErr result (λ e. e ≡ WriteFault.Mem) }
{
    let footer = put_body(out, place, entries, filter)?;
    let start = out.len();
    put_info(out, &info)?;
    let bytes = place + out.len() as u64 + FOOTER_LENGTH;
    out.truncate(start);
    let mut info = info;
    info.bytes = bytes;
    put_info(out, &info)?;
    put_footer(out, &footer)?;
    Ok(info)
}

// Writes what stands behind the partitions, and makes the file last.
fn write_tail<D: Draft>(
    alloc: Global,
    sink: &mut Sink<D>,
    entries: &[PartitionEntry],
    info: TableInfo,
    tally: &mut D::Tally,
) -> Result<TableInfo, WriteFault>
    requires few { length entries.now ≤ PARTITION_LIMIT }
    requires rooms { All HasRooms entries.now }
    requires first { length info.first < 2 ^ 16 }
    requires last { length info.last < 2 ^ 16 }
    ensures info { IfOk result (λ i. i ≡ with_bytes info (sink.old.place + length (tail_at sink.old.place entries.now (filter_at entries.now) info))) }
    ensures took { IfOk result (λ i. Took D.number D.written (tail_at sink.old.place entries.now (filter_at entries.now) i) sink.old sink.new) }
    ensures synced { OnOk result (D.is_synced sink.new.draft) }
    ensures count { Counted (D.Tally.number tally.old) (D.Tally.number tally.new) (IsErrOf result WriteFault.Failed) }
    ensures why { IfErr result (λ e. TailFault sink.old.place entries.now info e) }
{
    let filter = filter_of(alloc, entries)?;
    let mut tail = Vec::new(alloc);
    let info = put_tail(&mut tail, sink.place, entries, &filter, info)?;
    sink.append(&tail, tally)?;
    sink.sync(tally)?;
    Ok(info)
}

// The last of these partitions.
fn last_from<'a>(first: &'a PartitionEntry, rest: &'a [PartitionEntry]) -> &'a PartitionEntry
    ensures { last_or (Some first.now) rest.now ≡ Some result.now }
{
    match rest.last() {
        Some(last) => last,
        None => first,
    }
}

// The first and the last of these partitions; nothing where there are none.
fn ends(entries: &[PartitionEntry]) -> Option<(&PartitionEntry, &PartitionEntry)>
    requires { All HasRooms entries.now }
    ensures none { IfNone result (entries.now ≡ []) }
    ensures some { IfSome result (λ p. AreEnds entries.now p.0.now.key p.1.now.key) }
{
    match entries {
        [] => None,
        [first, rest @ ..] => Some((first, last_from(first, rest))),
    }
}

impl<D: Draft, E: Copy> TableWriter<D, E> {
    // What is told of the file but for its length; nothing where nothing was written.
    fn told(&self) -> Result<Option<TableInfo>, WriteFault>
        ensures told { IfOk result (λ r. IsTold self.now.header.number self.now.level self.now.entries.items self.now.seen.facts r) }
        ensures short { IfOk result (λ r. IfSome r (λ i. (length i.first < 2 ^ 16) × (length i.last < 2 ^ 16))) }
        ensures why { IfErr result (λ e. e ≡ WriteFault.Mem) }
    {
        let Some(facts) = self.seen.facts else {
            return Ok(None);
        };
        let Some((first, last)) = ends(&self.entries) else {
            return Ok(None);
        };
        let keys = self.entries.len() as u32;
        let info = info_of(&self.header, self.level, keys, first, last, facts)?;
        Ok(Some(info))
    }

    // Writes what stands behind the partitions, if there are any.
    fn end(&mut self, tally: &mut D::Tally) -> Result<Option<TableInfo>, WriteFault>
        ensures ended { IfOk result (λ r. (columns : ListOf ColumnOf) (ps : ListOf PartitionOf) → Writes D.number D.written columns self.old ps
            → Ended D.number D.written columns (contents_of self.old ps) self.new.sink.draft r) }
        ensures synced { IfOk result (λ r. OnSome r (D.is_synced self.new.sink.draft)) }
        ensures count { Counted (D.Tally.number tally.old) (D.Tally.number tally.new) (IsErrOf result WriteFault.Failed) }
        ensures why { IfErr result (λ e. (columns : ListOf ColumnOf) (ps : ListOf PartitionOf) → Writes D.number D.written columns self.old ps
            → EndFault (contents_of self.old ps) e) }
    {
        let Some(info) = self.told()? else {
            return Ok(None);
        };
        let info = write_tail(self.alloc, &mut self.sink, &self.entries, info, tally)?;
        Ok(Some(info))
    }

    /// Writes what stands behind the partitions, and makes the file last: gives what is told of it, and
    /// the draft. None where no partition was written.
    pub fn finish(self, tally: &mut D::Tally) -> Result<Option<(TableInfo, D)>, PartitionFault<E>>
        ensures finished { IfOk result (λ r. (columns : ListOf ColumnOf) (ps : ListOf PartitionOf) → Writes D.number D.written columns self ps
            → Finishes D.number D.written columns (contents_of self ps) r) }
        ensures synced { IfOk result (λ r. IfSome r (λ p. D.is_synced p.1)) }
        ensures broken { (e : FaultOf _) → fault_of self ≡ Some e → result ≡ Err e }
        ensures why { IfErr result (λ e. fault_of self ≡ None → (columns : ListOf ColumnOf) (ps : ListOf PartitionOf)
            → Writes D.number D.written columns self ps → FinishFault (contents_of self ps) e) }
        ensures count { Counted (D.Tally.number tally.old) (D.Tally.number tally.new)
            ((fault_of self ≡ None) × IsErrOf result (PartitionFault.Write WriteFault.Failed)) }
    {
        let mut writer = self;
        if let Some(fault) = writer.broken {
            return Err(fault);
        }
        match writer.end(tally) {
            Ok(Some(info)) => Ok(Some((info, writer.sink.draft))),
            Ok(None) => Ok(None),
            Err(fault) => Err(PartitionFault::Write(fault)),
        }
    }
}
