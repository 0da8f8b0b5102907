//! What the entries of a manifest say together.

ghost use Rattle.std.specs.Prelude.{◌≡◌, ◌≤◌, nat_le, IfOk, None, Some, if◌then◌else◌};
ghost use Rattle.cas_changes.specs.declared.said.TheConstants.{LISTED_LIMIT};
ghost use Rattle.cas_changes.specs.Saying.{place_in, part_of, frontiers_in, is_listed, has_file, listed_after};

use crate::entry::Entry;
use crate::numbers::Numbers;
use cas_info::TableInfo;
use cas_types::{List, Mem, TableSchema};
use std::alloc::Global;
use std::marker::Model;

/// The greatest number of a segment.
pub const SEGMENT_LIMIT: u64 = 1 << 60;

/// The most table files that are listed, over all tables and shards.
pub const LISTED_LIMIT: u64 = 4_096;

/// The most bytes of a manifest.
pub const FILE_LIMIT: u64 = 1 << 40;

/// The last timestamp of a shard that drew none yet.
pub const FIRST_DRAWN: i64 = -2;

/// What is said of a table in a shard: up to which number its mutations stand in table files, and
/// which files are listed.
#[derive(Drop)]
pub struct Part {
    pub frontier: u64,
    pub listed: List<TableInfo>,
}

/// What is said of a shard: its last moment, and the last timestamp that it drew.
#[derive(Clone, Copy)]
pub struct ShardTimes {
    pub moment: i64,
    pub drawn: i64,
}

/// What the entries of a manifest say together. Contracts see it as `Saying`.
#[derive(Drop)]
pub struct Said {
    pub(crate) shards: u8,
    pub(crate) tables: Vec<TableSchema>,
    pub(crate) segments: Vec<u64>,
    pub(crate) last_segment: u64,
    pub(crate) numbers: Numbers,
    pub(crate) listed: u64,
    /// Of each table the parts in each shard, table by table.
    pub(crate) parts: Vec<Part>,
    pub(crate) times: Vec<ShardTimes>,
}

impl Model for Said {
    ghost use Rattle.std.specs.Prelude.{◌≤◌};
    ghost use Rattle.cas_changes.specs.Saying.{Saying};
    ghost use Rattle.cas_changes.specs.declared.said.TheConstants.{LISTED_LIMIT};

    ghost Value = { Saying };

    ghost view = { λ s. record {
      shards = s.shards;
      tables = s.tables.items;
      segments = s.segments.items;
      last_segment = s.last_segment;
      numbers = s.numbers.list.items;
      listed = s.listed;
      parts = s.parts.items;
      times = s.times.items;
    } };

    ghost invariant = { λ s. s.listed ≤ LISTED_LIMIT };
}

// Whether the number is among these.
pub(crate) fn is_listed(numbers: &[u64], number: u64) -> bool
    ensures { result ≡ is_listed numbers.now number }
{
    numbers.iter().any(|one| *one == number)
}

// Whether a file of the number is among these.
pub(crate) fn has_file(infos: &[TableInfo], number: u64) -> bool
    ensures { result ≡ has_file infos.now number }
{
    infos.iter().any(|info| info.number == number)
}

// Whether at most 4,096 files are listed after an entry.
pub(crate) fn is_listable(listed: u64, entry: &Entry) -> bool
    requires { listed ≤ LISTED_LIMIT }
    ensures { result ≡ nat_le (listed_after listed entry.now) LISTED_LIMIT }
{
    match entry {
        Entry::Change(change) => {
            let (removed, added) = (change.removed.len() as u64, change.added.len() as u64);
            added <= LISTED_LIMIT && listed.saturating_sub(removed) + added <= LISTED_LIMIT
        }
        _ => true,
    }
}

/// How many files are listed after an entry, where there are at most 4,096.
pub fn listed_after(listed: u64, entry: &Entry) -> Option<u64>
    requires { listed ≤ LISTED_LIMIT }
    ensures { result ≡ (if nat_le (listed_after listed entry.now) LISTED_LIMIT then Some (listed_after listed entry.now) else None) }
{
    let Entry::Change(change) = entry else {
        return Some(listed);
    };
    let (removed, added) = (change.removed.len() as u64, change.added.len() as u64);
    if added > LISTED_LIMIT || listed.saturating_sub(removed) + added > LISTED_LIMIT {
        return None;
    }
    Some(listed.saturating_sub(removed) + added)
}

impl Said {
    pub(crate) fn place_in(&self, table: u16, shard: u8) -> usize
        ensures { result ≡ place_in self.now table shard }
    {
        table as usize * self.shards as usize + shard as usize
    }

    /// The number of shards; 0 before it is said.
    pub fn shards(&self) -> u8
        ensures { result ≡ self.now.shards }
    {
        self.shards
    }

    /// The tables, each with the columns that it got.
    pub fn tables(&self) -> &[TableSchema]
        ensures { result.now ≡ self.now.tables }
    {
        &self.tables
    }

    /// The numbers of the listed segments, in the order in which they were named.
    pub fn segments(&self) -> &[u64]
        ensures { result.now ≡ self.now.segments }
    {
        &self.segments
    }

    /// The greatest number of a segment that was named; 0 before the first.
    pub fn last_segment(&self) -> u64
        ensures { result ≡ self.now.last_segment }
    {
        self.last_segment
    }

    /// How many files are listed, over all tables and shards.
    pub fn listed_count(&self) -> u64
        ensures number { result ≡ self.now.listed }
        ensures few { result ≤ LISTED_LIMIT }
    {
        self.listed
    }

    /// The numbers of all table files that were ever added.
    pub fn numbers(&self) -> &[u64]
        ensures { result.now ≡ self.now.numbers }
    {
        &self.numbers.list
    }

    /// Of each shard its last moment and the last timestamp that it drew.
    pub fn times(&self) -> &[ShardTimes]
        ensures { result.now ≡ self.now.times }
    {
        &self.times
    }

    /// Up to which number the mutations of a table in a shard stand in table files.
    pub fn frontier(&self, table: u16, shard: u8) -> u64
        ensures { result ≡ (part_of self.now table shard).frontier }
    {
        match self.parts.get(self.place_in(table, shard)) {
            Some(part) => part.frontier,
            None => 0,
        }
    }

    /// The frontiers of each table in each shard, table by table.
    pub fn frontiers(&self, alloc: Global) -> Result<Vec<u64>, Mem>
        ensures { IfOk result (λ v. v.items ≡ frontiers_in self.now) }
    {
        let mut frontiers = Vec::new(alloc);
        for part in &self.parts {
            frontiers.push(part.frontier)?;
        }
        Ok(frontiers)
    }

    /// The listed files of a table in a shard.
    pub fn listed(&self, table: u16, shard: u8) -> &[TableInfo]
        ensures { result.now ≡ (part_of self.now table shard).listed }
    {
        match self.parts.get(self.place_in(table, shard)) {
            Some(part) => part.listed.as_slice(),
            None => &[],
        }
    }
}
