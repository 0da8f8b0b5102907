//! The partitions of a file, one after another; of each, what the index is to tell is kept.

ghost use Rattle.std.specs.Prelude.{◌≡◌, ◌+◌, ◌≤◌, ◌==◌, ℕ, List as ListOf, Some, vec_len, IfOk, OnOk, IsErrOf};
ghost use Rattle.std.specs.List.{All};
ghost use Rattle.std.specs.Option.{option_copied};
ghost use Rattle.cas_types.specs.Limits.{IsNarrow};
ghost use Rattle.cas_bounds.specs.ClusteringOrder.{clustering_order};
ghost use Rattle.cas_disk.specs.Counts.{Counted};
ghost use Rattle.cas_facts.specs.Told.{all_told};
ghost use Rattle.cas_fragments.specs.Blocks.{says_head};
ghost use Rattle.cas_fragments.specs.Inner.Lasts.{last_key};
ghost use Rattle.cas_fragments.specs.Laws.{static_of};
ghost use Rattle.cas_index.specs.Allowed.{HasRooms};
ghost use Rattle.cas_info.specs.declared.info.TheConstants.{FILE_LIMIT, PARTITION_LIMIT};
ghost use Rattle.cas_blocks.specs.Reading.{left_at};
ghost use Rattle.cas_verify.specs.Partitions.{next_partition_at};
ghost use Rattle.cas_verify.specs.Checking.{own_partitions_at};
ghost use Rattle.cas_verify.specs.Inner.Ends.{Ends};
ghost use Rattle.cas_verify.specs.Inner.Walks.{Sees, IsSound, IsBegun};
ghost use Rattle.cas_verify.specs.Inner.Scans.{key_before, Adds, IsSeen};

use crate::blocks::Walk;
use crate::faults::bad;
use crate::heads::read_head_at;
use cas_atoms::RowColumn;
use cas_cell::Deletion;
use cas_disk::Sealed;
use cas_facts::Tally;
use cas_fragments::Head;
use cas_index::PartitionEntry;
use cas_info::PARTITION_LIMIT;
use cas_sstread::{Table, TableFault};
use cas_streams::Fragment;
use cas_tables::HEADER_LENGTH;
use cas_types::List;
use std::alloc::Global;
use std::mem::drop;

/// How far a file was read: the place of its next partition, what the index is to tell of those so far,
/// and what was seen of their atoms.
#[derive(Drop)]
pub(crate) struct Scan {
    pub(crate) place: u64,
    pub(crate) entries: Vec<PartitionEntry>,
    pub(crate) seen: Tally,
}

// The key of the last of them.
fn last_key(entries: &[PartitionEntry]) -> Option<&[u8]>
    ensures { option_copied result ≡ last_key (λ e. e.key) entries.now }
{
    match entries.last() {
        Some(entry) => Some(entry.key.as_slice()),
        None => None,
    }
}

// Sees what the head of a partition tells.
fn see_head(seen: &mut Tally, top: Option<Deletion>, columns: List<RowColumn>)
    ensures { Sees seen.old (all_told top (static_of columns)) seen.new }
{
    seen.see_top(top);
    let row = Fragment::Static(columns);
    seen.see(&row);
}

// Whether the head says something of its partition.
fn says_head(head: &Head) -> bool
    ensures { result ≡ says_head (head.now.key, head.now.top, head.now.columns) }
{
    head.top.is_some() || 0 < head.columns.len()
}

// Before the blocks of a partition, behind its head, which ends at that place.
fn behind_head(alloc: Global, head: &Head, place: u64, seen: Tally) -> Walk
    ensures begun { IsBegun head.now place seen result }
    ensures sound { IsSound result }
{
    Walk {
        place,
        ends: says_head(head),
        goes_on: true,
        last: None,
        force: None,
        entries: Vec::new(alloc),
        seen,
    }
}

impl Scan {
    // Reads the next partition.
    fn read_partition<F: Sealed>(
        &mut self,
        alloc: Global,
        table: &Table<F>,
        tally: &mut F::Tally,
    ) -> Result<(), TableFault>
        requires narrow { IsNarrow table.now.columns }
        requires within { self.old.place ≤ FILE_LIMIT }
        requires rooms { All HasRooms self.old.entries.items }
        ensures told { (b : ListOf ℕ) → table.now.contents ≡ Some b
            → Ends (λ (u : Unit {0}) p. Adds table.now.kept.version table.now.kept.end b self.old self.new p) table.now.info.number result
            (next_partition_at table.now.kept.version (clustering_order table.now.columns) table.now.columns (key_before self.old)
            (left_at b table.now.kept.end self.old.place)) }
        ensures rooms { OnOk result (All HasRooms self.new.entries.items) }
        ensures long { OnOk result (vec_len self.new.entries ≡ vec_len self.old.entries + 1) }
        ensures within { OnOk result (self.new.place ≤ FILE_LIMIT) }
        ensures count { Counted (F.Tally.number tally.old) (F.Tally.number tally.new) (IsErrOf result TableFault.ReadFault) }
    {
        let before = last_key(&self.entries);
        let (head, behind) = read_head_at(alloc, table, self.place, before, tally)?;
        let mut walk = behind_head(alloc, &head, behind, self.seen);
        see_head(&mut walk.seen, head.top, head.columns);
        match walk.read_blocks(alloc, table, tally) {
            Ok(()) => {}
            Err(fault) => {
                drop(walk);
                drop(head.key);
                return Err(fault);
            }
        }
        drop(walk.last);
        self.entries.push(PartitionEntry {
            key: head.key,
            place: self.place,
            blocks: List::from_vec(walk.entries),
        })?;
        self.place = walk.place;
        self.seen = walk.seen;
        Ok(())
    }
}

// Whether the partitions of the file end at a place.
fn end_at<F: Sealed>(table: &Table<F>, place: u64) -> bool
    ensures { result ≡ (place == table.now.kept.end) }
{
    place == table.end()
}

/// Reads all partitions of a file, up to where they end.
pub(crate) fn read_partitions<F: Sealed>(
    alloc: Global,
    table: &Table<F>,
    tally: &mut F::Tally,
) -> Result<Scan, TableFault>
    requires { IsNarrow table.now.columns }
    ensures told { (b : ListOf ℕ) → table.now.contents ≡ Some b
        → Ends (IsSeen table.now.kept.version) table.now.info.number result (own_partitions_at table.now.columns table.now.kept b) }
    ensures rooms { IfOk result (λ s. All HasRooms s.entries.items) }
    ensures few { IfOk result (λ s. vec_len s.entries ≤ PARTITION_LIMIT) }
    ensures count { Counted (F.Tally.number tally.old) (F.Tally.number tally.new) (IsErrOf result TableFault.ReadFault) }
{
    let mut scan = Scan {
        place: HEADER_LENGTH,
        entries: Vec::new(alloc),
        seen: Tally::new(),
    };
    for _done in 0..PARTITION_LIMIT {
        scan.read_partition(alloc, table, tally)?;
        if end_at(table, scan.place) {
            return Ok(scan);
        }
    }
    Err(bad(table, scan.place))
}
