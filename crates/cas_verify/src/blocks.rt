//! The blocks of a partition, one after another; of the one before, the last fragment is kept.

ghost use Rattle.std.specs.Prelude.{◌≡◌, ◌+◌, ◌≤◌, ◌<◌, ◌^◌, [], ◌∷◌, ℕ, List, length, nat_le, Some, true, IfOk, OnOk, IsErrOf};
ghost use Rattle.std.specs.Option.{option_copied};
ghost use Rattle.cas_types.specs.Limits.{IsNarrow};
ghost use Rattle.cas_bounds.specs.ClusteringOrder.{clustering_order};
ghost use Rattle.cas_disk.specs.Counts.{Counted};
ghost use Rattle.cas_facts.specs.Told.{told};
ghost use Rattle.cas_fragments.specs.Blocks.{past_all};
ghost use Rattle.cas_fragments.specs.Laws.{IsBlock};
ghost use Rattle.cas_fragments.specs.Reading.{body_at, next_block_at, blocks_at};
ghost use Rattle.cas_fragments.specs.Spelling.{body_bytes};
ghost use Rattle.std.specs.List.{flat_map};
ghost use Rattle.cas_info.specs.declared.info.TheConstants.{FILE_LIMIT};
ghost use Rattle.cas_index.specs.Allowed.{HasRoom};
ghost use Rattle.cas_tables.specs.Places.{first_cut, block_entries};
ghost use Rattle.cas_blocks.specs.Reading.{left_at};
ghost use Rattle.cas_verify.specs.Inner.Ends.{Ends};
ghost use Rattle.cas_verify.specs.Inner.Walks.{reached, HasCut, IsFirst, Sees, IsSound, Goes, Steps, Went};

use crate::bodies::read_body;
use crate::faults::{bad, fault_in};
use cas_bounds::Cut;
use cas_cell::Deletion;
use cas_codec::Reader;
use cas_disk::Sealed;
use cas_facts::Tally;
use cas_fragments::{BLOCK_LEAST, Block, read_block};
use cas_index::BlockEntry;
use cas_sstread::{Table, TableFault};
use cas_streams::Fragment;
use std::alloc::{AllocError, Global};

/// How far a partition was read: the place of its next block, or of its end; whether the end may stand
/// there, and whether a block may; the last fragment, and the range deletion in force behind it; what
/// the index is to tell of the blocks so far, and what was seen of their atoms.
#[derive(Drop)]
pub(crate) struct Walk {
    pub(crate) place: u64,
    pub(crate) ends: bool,
    pub(crate) goes_on: bool,
    pub(crate) last: Option<Fragment>,
    pub(crate) force: Option<Deletion>,
    pub(crate) entries: Vec<BlockEntry>,
    pub(crate) seen: Tally,
}

// The cut by which a block begins that begins with the row or marker.
fn first_cut(fragment: &Fragment) -> Result<Cut, AllocError>
    requires { HasCut fragment.now }
    ensures { IfOk result (λ c. c ≡ first_cut fragment.now) }
{
    match fragment {
        Fragment::Static(_) => unreachable!(),
        Fragment::Row(row) => {
            let clustering = row.clustering.copied()?;
            Ok(Cut {
                prefix: clustering.values,
                after: false,
                order: clustering.order,
            })
        }
        Fragment::Marker(cut, _) => cut.copied(),
    }
}

// What the index is to tell of a block of these fragments.
fn entry_of(
    fragments: &[Fragment],
    place: u64,
    force: Option<Deletion>,
) -> Result<BlockEntry, AllocError>
    requires { IsFirst fragments.now }
    ensures room { IfOk result (λ e. HasRoom e) }
    ensures told { IfOk result (λ e. e ∷ [] ≡ block_entries place force (fragments.now ∷ [])) }
{
    match fragments.first() {
        Some(first) => Ok(BlockEntry {
            cut: first_cut(first)?,
            place,
            in_force: force,
        }),
        None => unreachable!(),
    }
}

// Whether a block of so many bytes is full.
fn is_full(long: usize) -> bool
    ensures { result ≡ nat_le BLOCK_LEAST long }
{
    BLOCK_LEAST <= long
}

// Sees what these fragments tell.
fn see_all(seen: &mut Tally, fragments: &[Fragment])
    ensures { Sees seen.old (flat_map told fragments.now) seen.new }
{
    for fragment in fragments {
        seen.see(fragment);
    }
}

// The fragment that stands before the next block.
fn last_of(walk: &Walk) -> Option<&Fragment>
    ensures { option_copied result ≡ walk.now.last }
{
    match &walk.last {
        Some(last) => Some(last),
        None => None,
    }
}

// The block that these bytes are.
fn parse_block<F: Sealed>(
    alloc: Global,
    table: &Table<F>,
    walk: &Walk,
    body: &[u8],
) -> Result<Block, TableFault>
    requires narrow { IsNarrow table.now.columns }
    requires room { walk.now.place + 4 + length body.now < 2 ^ 64 }
    ensures parsed { Ends (λ block p. p.0 ≡ block.fragments.items) table.now.info.number result
        (body_at (clustering_order table.now.columns) table.now.columns (reached walk.now) (record { bytes = body.now; at = walk.now.place + 4 })) }
    ensures block { IfOk result (λ block. IsBlock table.now.columns (reached walk.now) block.fragments.items × (body.now ≡ body_bytes block.fragments.items)) }
    ensures force { IfOk result (λ block. block.force ≡ (past_all (reached walk.now) block.fragments.items).force) }
    ensures no_read { IsErrOf result TableFault.ReadFault → ⊥ }
{
    let mut reader = Reader::new(body, walk.place + 4);
    let last = last_of(walk);
    match read_block(
        alloc,
        &mut reader,
        table.order(),
        table.columns(),
        last,
        walk.force,
    ) {
        Ok(block) => Ok(block),
        Err(fault) => Err(fault_in(table, fault)),
    }
}

impl Walk {
    // Goes past a block of so many bytes.
    fn pass(&mut self, block: Block, long: usize) -> Result<(), AllocError>
        requires sound { IsSound self.old }
        requires may { self.old.goes_on ≡ true }
        requires first { IsFirst block.fragments.items }
        requires force { block.force ≡ (past_all (reached self.old) block.fragments.items).force }
        requires long { long ≡ length (body_bytes block.fragments.items) }
        requires room { self.old.place + 4 + long < 2 ^ 64 }
        ensures goes { OnOk result (Goes self.old self.new block.fragments.items) }
        ensures sound { OnOk result (IsSound self.new) }
    {
        let mut block = block;
        let entry = entry_of(&block.fragments, self.place, self.force)?;
        self.entries.push(entry)?;
        see_all(&mut self.seen, &block.fragments);
        self.last = block.fragments.pop();
        self.place = self.place + 4 + long as u64;
        self.ends = block.force.is_none();
        self.goes_on = is_full(long);
        self.force = block.force;
        Ok(())
    }

    // Reads the next block; no at the partition's end.
    fn step<F: Sealed>(
        &mut self,
        alloc: Global,
        table: &Table<F>,
        tally: &mut F::Tally,
    ) -> Result<bool, TableFault>
        requires narrow { IsNarrow table.now.columns }
        requires sound { IsSound self.old }
        ensures told { (b : List ℕ) → table.now.contents ≡ Some b → Ends (Steps table.now.kept.end b self.old self.new) table.now.info.number result
            (next_block_at (clustering_order table.now.columns) table.now.columns self.old.ends self.old.goes_on (reached self.old)
            (left_at b table.now.kept.end self.old.place)) }
        ensures sound { OnOk result (IsSound self.new) }
        ensures within { OnOk result ((self.old.place < self.new.place) × (self.new.place ≤ table.now.kept.end) × (self.new.place ≤ FILE_LIMIT)) }
        ensures count { Counted (F.Tally.number tally.old) (F.Tally.number tally.new) (IsErrOf result TableFault.ReadFault) }
    {
        let body = read_body(alloc, table, self.place, tally)?;
        if body.is_empty() {
            if !self.ends {
                return Err(bad(table, self.place));
            }
            self.place += 4;
            return Ok(false);
        }
        if !self.goes_on {
            return Err(bad(table, self.place));
        }
        let block = parse_block(alloc, table, self, &body)?;
        self.pass(block, body.len())?;
        Ok(true)
    }

    /// Reads the blocks that are left, and the partition's end.
    pub(crate) fn read_blocks<F: Sealed>(
        &mut self,
        alloc: Global,
        table: &Table<F>,
        tally: &mut F::Tally,
    ) -> Result<(), TableFault>
        requires narrow { IsNarrow table.now.columns }
        requires sound { IsSound self.old }
        ensures told { (b : List ℕ) → table.now.contents ≡ Some b → (n : ℕ) → length (left_at b table.now.kept.end self.old.place).bytes ≤ n
            → Ends (λ (u : Unit {0}). Went table.now.kept.end b self.old self.new) table.now.info.number result
            (blocks_at (clustering_order table.now.columns) table.now.columns n self.old.ends self.old.goes_on (reached self.old)
            (left_at b table.now.kept.end self.old.place)) }
        ensures sound { OnOk result (IsSound self.new) }
        ensures within { OnOk result (self.new.place ≤ FILE_LIMIT) }
        ensures count { Counted (F.Tally.number tally.old) (F.Tally.number tally.new) (IsErrOf result TableFault.ReadFault) }
    {
        'turns: loop {
            match self.step(alloc, table, tally) {
                Ok(true) => {}
                Ok(false) => return Ok(()),
                Err(fault) => return Err(fault),
            }
        }
    }
}
