//! Takes entries, one after another, into what they say together.

ghost use Rattle.std.specs.Prelude.{◌≡◌, ◌==◌, [], ◌∷◌, ◌++◌, map, filter, not, replicate, slice_get, slice_set, unwrap_or, OnOk, IfOk};
ghost use Rattle.cas_changes.specs.Saying.{no_part, no_times, part_after, times_after, is_listed, with_columns, nothing, change_after, after};
ghost use Rattle.cas_changes.specs.Allowed.{IsListable};
ghost use Rattle.cas_changes.specs.declared.entry.Entry.TheVariants as entries;

use crate::entry::{Change, Entry};
use crate::numbers::Numbers;
use crate::said::{FIRST_DRAWN, Part, Said, ShardTimes, is_listed};
use cas_info::TableInfo;
use cas_types::{Column, List, Mem, TableSchema};
use std::alloc::Global;
use std::mem;

// ---- changes of table files

// Adds copies of infos.
fn add_infos(into: &mut Vec<TableInfo>, infos: &[TableInfo]) -> Result<(), Mem>
    ensures { OnOk result (into.new.items ≡ into.old.items ++ infos.now) }
{
    for info in infos {
        into.push(info.clone()?)?;
    }
    Ok(())
}

// Adds the numbers of infos.
fn add_numbers(into: &mut Numbers, infos: &[TableInfo]) -> Result<(), Mem>
    ensures { OnOk result (into.new.list.items ≡ into.old.list.items ++ map (λ i. i.number) infos.now) }
{
    for info in infos {
        into.add(info.number)?;
    }
    Ok(())
}

fn stays(removed: &[u64], info: &TableInfo) -> bool
    ensures { result ≡ not (is_listed removed.now info.now.number) }
{
    !is_listed(removed, info.number)
}

// Takes away the files that are removed.
fn remove_infos(infos: &mut Vec<TableInfo>, removed: &[u64])
    ensures { infos.new.items ≡ filter (λ i. not (is_listed removed.now i.number)) infos.old.items }
{
    infos.retain(|info| stays(removed, info));
}

fn change_part(alloc: Global, part: &mut Part, change: &Change) -> Result<(), Mem>
    ensures { OnOk result (part.new ≡ part_after part.old change.now) }
{
    let mut listed = mem::replace(&mut part.listed, List::from_vec(Vec::new(alloc))).into_vec();
    remove_infos(&mut listed, change.removed.as_slice());
    add_infos(&mut listed, change.added.as_slice())?;
    part.listed = List::from_vec(listed);
    part.frontier = change.frontier;
    Ok(())
}

// Changes the part at a place.
#[tactic(auto, using(crate::proofs::Places::set_past, crate::proofs::Places::get_within))]
fn change_parts(alloc: Global, parts: &mut [Part], place: usize, change: &Change) -> Result<(), Mem>
    ensures { OnOk result (parts.new ≡ slice_set parts.old place (part_after (unwrap_or (slice_get parts.old place) no_part) change.now)) }
{
    if place >= parts.len() {
        return Ok(());
    }
    change_part(alloc, &mut parts[place], change)
}

fn later(times: &mut ShardTimes, change: &Change)
    ensures { times.new ≡ times_after times.old change.now }
{
    times.moment = times.moment.max(change.moment);
    times.drawn = times.drawn.max(change.drawn);
}

// Raises the times of a shard to those of a change.
#[tactic(auto, using(crate::proofs::Places::set_past, crate::proofs::Places::get_within))]
fn change_times(times: &mut [ShardTimes], change: &Change)
    ensures { times.new ≡ slice_set times.old change.now.shard (times_after (unwrap_or (slice_get times.old change.now.shard) no_times) change.now) }
{
    let shard = change.shard as usize;
    if shard >= times.len() {
        return;
    }
    later(&mut times[shard], change);
}

// ---- tables, shards and segments

// Takes away a number.
fn remove_number(numbers: &mut Vec<u64>, number: u64)
    ensures { numbers.new.items ≡ filter (λ m. not (m == number)) numbers.old.items }
{
    numbers.retain(|one| *one != number);
}

// A part without files, for each shard.
fn add_parts(alloc: Global, parts: &mut Vec<Part>, shards: u8) -> Result<(), Mem>
    ensures { OnOk result (parts.new.items ≡ parts.old.items ++ replicate shards no_part) }
{
    for _shard in 0..shards {
        parts.push(Part {
            frontier: 0,
            listed: List::from_vec(Vec::new(alloc)),
        })?;
    }
    Ok(())
}

// The times of so many shards in which nothing was written.
fn first_times(alloc: Global, shards: u8) -> Result<Vec<ShardTimes>, Mem>
    ensures { IfOk result (λ v. v.items ≡ replicate shards no_times) }
{
    let mut times = Vec::new(alloc);
    for _shard in 0..shards {
        times.push(ShardTimes {
            moment: 0,
            drawn: FIRST_DRAWN,
        })?;
    }
    Ok(times)
}

// Adds copies of columns.
fn add_columns(into: &mut Vec<Column>, columns: &[Column]) -> Result<(), Mem>
    ensures { OnOk result (into.new.items ≡ into.old.items ++ columns.now) }
{
    for column in columns {
        into.push(column.clone()?)?;
    }
    Ok(())
}

// Adds columns to a table that has the number.
fn widen(alloc: Global, table: &mut TableSchema, number: u16, columns: &[Column]) -> Result<(), Mem>
    ensures { OnOk result (table.new ≡ with_columns number columns.now table.old) }
{
    if table.number != number {
        return Ok(());
    }
    let mut all = mem::replace(&mut table.columns, List::from_vec(Vec::new(alloc))).into_vec();
    add_columns(&mut all, columns)?;
    table.columns = List::from_vec(all);
    Ok(())
}

fn widen_each(
    alloc: Global,
    tables: &mut [TableSchema],
    number: u16,
    columns: &[Column],
) -> Result<(), Mem>
    ensures { OnOk result (tables.new ≡ map (with_columns number columns.now) tables.old) }
{
    for place in 0..tables.len() {
        widen(alloc, &mut tables[place], number, columns)?;
    }
    Ok(())
}

// ---- entries

impl Said {
    /// What is said before the first entry.
    pub fn nothing(alloc: Global) -> Said
        ensures { result ≡ nothing }
    {
        Said {
            shards: 0,
            tables: Vec::new(alloc),
            segments: Vec::new(alloc),
            last_segment: 0,
            numbers: Numbers::new(alloc),
            listed: 0,
            parts: Vec::new(alloc),
            times: Vec::new(alloc),
        }
    }

    fn take_store(&mut self, alloc: Global, shards: u8) -> Result<(), Mem>
        ensures { OnOk result (self.new ≡ record self.old { shards = shards; times = replicate shards no_times }) }
    {
        self.times = first_times(alloc, shards)?;
        self.shards = shards;
        Ok(())
    }

    fn take_schema(&mut self, alloc: Global, table: &TableSchema) -> Result<(), Mem>
        ensures { OnOk result (self.new ≡ record self.old {
          tables = self.old.tables ++ table.now ∷ [];
          parts = self.old.parts
              ++ replicate self.old.shards no_part;
        }) }
    {
        add_parts(alloc, &mut self.parts, self.shards)?;
        self.tables.push(table.clone()?)?;
        Ok(())
    }

    fn take_change(&mut self, alloc: Global, change: &Change) -> Result<(), Mem>
        requires { IsListable self.old (entries.Change change.now) }
        ensures { OnOk result (self.new ≡ change_after self.old change.now) }
    {
        let (removed, added) = (change.removed.len() as u64, change.added.len() as u64);
        let place = self.place_in(change.table, change.shard);
        change_parts(alloc, &mut self.parts, place, change)?;
        change_times(&mut self.times, change);
        add_numbers(&mut self.numbers, change.added.as_slice())?;
        self.listed = self.listed.saturating_sub(removed) + added;
        Ok(())
    }

    /// Takes the next entry, after which at most 4,096 files are listed. Where memory runs out, a part of
    /// it may be taken.
    pub fn take(&mut self, alloc: Global, entry: &Entry) -> Result<(), Mem>
        requires { IsListable self.old entry.now }
        ensures { OnOk result (self.new ≡ after self.old entry.now) }
    {
        match entry {
            Entry::Store { shards } => self.take_store(alloc, *shards),
            Entry::Schema(table) => self.take_schema(alloc, table),
            Entry::NewSegment { number } => {
                self.segments.push(*number)?;
                self.last_segment = *number;
                Ok(())
            }
            Entry::DropSegment { number } => {
                remove_number(&mut self.segments, *number);
                Ok(())
            }
            Entry::Change(change) => self.take_change(alloc, change),
            Entry::AddColumns { table, columns } => {
                widen_each(alloc, &mut self.tables, *table, columns.as_slice())
            }
        }
    }
}
