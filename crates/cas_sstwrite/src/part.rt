//! A partition while it is written: of its rows and markers no more than a block is held.

ghost use Rattle.std.specs.Prelude.{◌≡◌, ◌≤◌, ◌<◌, ◌+◌, ◌++◌, ◌∷◌, [], ◌^◌, ℕ, List, length, drop, vec_len, Option, IfOk, OnOk, IfErr, IsErrOf};
ghost use Rattle.cas_codec.specs.Fields.{u32};
ghost use Rattle.cas_cell.specs.declared.deletion.Deletion.{Deletion as DeletionOf};
ghost use Rattle.cas_streams.specs.declared.fragment.Fragment.{Fragment as FragmentOf};
ghost use Rattle.cas_facts.specs.declared.facts.Facts.{Facts as FactsOf};
ghost use Rattle.cas_fragments.specs.Blocks.{behind_statics};
ghost use Rattle.cas_disk.specs.Counts.{Counted};
ghost use Rattle.cas_streams.specs.Joined.{opened};
ghost use Rattle.cas_tables.specs.Places.{first_cut};
ghost use Rattle.cas_sstwrite.specs.Rooms.{IsHeld};
ghost use Rattle.cas_sstwrite.specs.Inner.Parts.{Taken, Closes, SealFault, BlockFault, Goes, Ends};
ghost use Rattle.cas_sstwrite.specs.Inner.Parts.{Hinders, IsOfPart, Added, AddFault, with_block, with_entry, entry_of, ended};
ghost use Rattle.cas_sstwrite.specs.declared.fault.TheConstants.{BLOCK_LIMIT};

use crate::fault::{BLOCK_LIMIT, Measure, WriteFault};
use crate::held::{Part, Sink};
use crate::rooms::has_room;
use cas_bounds::Cut;
use cas_cell::Deletion;
use cas_codec::put_u32;
use cas_disk::Draft;
use cas_fragments::{BLOCK_LEAST, put_fragment};
use cas_index::BlockEntry;
use cas_streams::Fragment;
use std::alloc::AllocError;

// Before a block stands its length.
const BEFORE_BLOCK: usize = 4;

// Puts the length of a block into its place.
#[tactic(auto, unfolding(cas_codec::specs::Fields::u32))]
fn set_length(block: &mut [u8], long: u32)
    requires { 4 ≤ length block.old }
    ensures { block.new ≡ u32 long ++ drop 4 block.old }
{
    block[..4].copy_from_slice(&long.to_be_bytes());
}

// The cut by which a block begins that begins with the row or marker.
fn first_cut(fragment: &Fragment) -> Result<Cut, AllocError>
    requires { IsHeld fragment.now }
    ensures { IfOk result (λ c. c ≡ first_cut fragment.now) }
{
    match fragment {
        Fragment::Static(_) => unreachable!(),
        Fragment::Row(row) => {
            let clustering = row.clustering.copied()?;
            Ok(Cut {
                prefix: clustering.values,
                after: false,
                order: clustering.order,
            })
        }
        Fragment::Marker(cut, _) => cut.copied(),
    }
}

// What is in force behind a fragment.
fn opened(force: Option<Deletion>, fragment: &Fragment) -> Option<Deletion>
    ensures { result ≡ opened force fragment.now }
{
    match fragment {
        Fragment::Marker(_, deletion) => *deletion,
        Fragment::Static(_) => force,
        Fragment::Row(_) => force,
    }
}

impl Part {
    // Begins a block at that place with the fragment, if none was begun.
    fn open_block(&mut self, place: u64, fragment: &Fragment) -> Result<(), WriteFault>
        requires { IsHeld fragment.now }
        ensures buffer { OnOk result (self.new.buffer.items ≡ with_block self.old.buffer.items) }
        ensures entries { OnOk result (self.new.entries.items
            ≡ with_entry self.old.buffer.items self.old.entries.items (entry_of fragment.now place self.old.force)) }
        ensures force { self.new.force ≡ self.old.force }
        ensures seen { self.new.seen ≡ self.old.seen }
        ensures why { IfErr result (λ e. e ≡ WriteFault.Mem) }
    {
        if !self.buffer.is_empty() {
            return Ok(());
        }
        let cut = first_cut(fragment)?;
        self.entries.push(BlockEntry {
            cut,
            place,
            in_force: self.force,
        })?;
        Ok(put_u32(&mut self.buffer, 0)?)
    }

    // Puts the fragment behind those that wait; where none does, it begins a block at that place.
    fn add(&mut self, place: u64, fragment: &Fragment) -> Result<(), WriteFault>
        ensures added { OnOk result (Added fragment.now place self.old self.new) }
        ensures why { IfErr result (λ e. AddFault fragment.now e) }
    {
        if !has_room(fragment) {
            return Err(WriteFault::Unfit);
        }
        self.open_block(place, fragment)?;
        put_fragment(&mut self.buffer, fragment)?;
        self.force = opened(self.force, fragment);
        self.seen.see(fragment);
        Ok(())
    }

    // Puts the length into the place before the fragments that wait, if there is room for it.
    fn seal(&mut self) -> Result<(), WriteFault>
        requires { 4 ≤ vec_len self.old.buffer }
        ensures sealed { OnOk result ((length (drop 4 self.old.buffer.items) < 2 ^ 32)
            × (self.new.buffer.items ≡ u32 (length (drop 4 self.old.buffer.items)) ++ drop 4 self.old.buffer.items)) }
        ensures entries { self.new.entries.items ≡ self.old.entries.items }
        ensures force { self.new.force ≡ self.old.force }
        ensures seen { self.new.seen ≡ self.old.seen }
        ensures why { IfErr result (λ e. (e ≡ WriteFault.TooMany Measure.BlockBytes BLOCK_LIMIT) × (2 ^ 32 ≤ length (drop 4 self.old.buffer.items))) }
    {
        let long = (self.buffer.len() - 4) as u64;
        if long > BLOCK_LIMIT {
            return Err(WriteFault::TooMany {
                what: Measure::BlockBytes,
                limit: BLOCK_LIMIT,
            });
        }
        set_length(&mut self.buffer, long as u32);
        Ok(())
    }

    // Writes the block that waits.
    #[tactic(auto, unfolding(cas_codec::specs::Fields::bytes32))]
    fn write_block<D: Draft>(
        &mut self,
        sink: &mut Sink<D>,
        tally: &mut D::Tally,
    ) -> Result<(), WriteFault>
        requires { 4 ≤ vec_len self.old.buffer }
        ensures closed { OnOk result (Closes D.number D.written (drop 4 self.old.buffer.items) sink.old sink.new self.old self.new) }
        ensures count { Counted (D.Tally.number tally.old) (D.Tally.number tally.new) (IsErrOf result WriteFault.Failed) }
        ensures why { IfErr result (λ e. BlockFault sink.old.place (length (drop 4 self.old.buffer.items)) e) }
    {
        self.seal()?;
        sink.append(&self.buffer, tally)?;
        self.buffer.clear();
        Ok(())
    }

    /// Takes a fragment; a block that it makes full is written.
    pub fn take<D: Draft>(
        &mut self,
        sink: &mut Sink<D>,
        fragment: &Fragment,
        tally: &mut D::Tally,
    ) -> Result<(), WriteFault>
        ensures taken { OnOk result ((start : ℕ) (before : Option FactsOf) (top : Option DeletionOf) (gs : List FragmentOf) (text : List ℕ)
            → Taken start before top gs self.old text → sink.old.place ≡ start + length text
            → Goes D.number D.written start before top (gs ++ fragment.now ∷ []) sink.old sink.new self.new text) }
        ensures count { Counted (D.Tally.number tally.old) (D.Tally.number tally.new) (IsErrOf result WriteFault.Failed) }
        ensures kind { IfErr result (λ e. IsOfPart e) }
        ensures why { IfErr result (λ e. (start : ℕ) (before : Option FactsOf) (top : Option DeletionOf) (gs : List FragmentOf) (text : List ℕ)
            → Taken start before top gs self.old text → sink.old.place ≡ start + length text
            → (rest : List FragmentOf) → Hinders start (behind_statics gs ++ fragment.now ∷ rest) e) }
    {
        self.add(sink.place, fragment)?;
        if self.buffer.len() < BEFORE_BLOCK + BLOCK_LEAST {
            return Ok(());
        }
        self.write_block(sink, tally)
    }

    /// Takes the first fragment of a partition, which may be the static row: of that nothing is to
    /// be written behind the partition's head.
    pub fn take_first<D: Draft>(
        &mut self,
        sink: &mut Sink<D>,
        fragment: &Fragment,
        tally: &mut D::Tally,
    ) -> Result<(), WriteFault>
        ensures taken { OnOk result ((start : ℕ) (before : Option FactsOf) (top : Option DeletionOf) (text : List ℕ)
            → Taken start before top [] self.old text → sink.old.place ≡ start + length text
            → Goes D.number D.written start before top (fragment.now ∷ []) sink.old sink.new self.new text) }
        ensures count { Counted (D.Tally.number tally.old) (D.Tally.number tally.new) (IsErrOf result WriteFault.Failed) }
        ensures kind { IfErr result (λ e. IsOfPart e) }
        ensures why { IfErr result (λ e. (start : ℕ) (before : Option FactsOf) (top : Option DeletionOf) (text : List ℕ)
            → Taken start before top [] self.old text → sink.old.place ≡ start + length text
            → (rest : List FragmentOf) → Hinders start (behind_statics (fragment.now ∷ rest)) e) }
    {
        match fragment {
            Fragment::Static(_) => {
                self.seen.see(fragment);
                Ok(())
            }
            Fragment::Row(_) => self.take(sink, fragment, tally),
            Fragment::Marker(_, _) => self.take(sink, fragment, tally),
        }
    }

    // Puts its length before what waits, if anything does, and the partition's end behind it.
    #[tactic(auto, unfolding(cas_codec::specs::Fields::bytes32))]
    fn seal_end(&mut self) -> Result<(), WriteFault>
        ensures sealed { OnOk result (self.new.buffer.items ≡ ended self.old.buffer.items) }
        ensures entries { self.new.entries.items ≡ self.old.entries.items }
        ensures seen { self.new.seen ≡ self.old.seen }
        ensures why { IfErr result (λ e. SealFault (length (drop 4 self.old.buffer.items)) e) }
    {
        if self.buffer.len() >= BEFORE_BLOCK {
            self.seal()?;
        }
        Ok(put_u32(&mut self.buffer, 0)?)
    }

    /// Writes what waits, and the partition's end.
    pub fn end<D: Draft>(
        &mut self,
        sink: &mut Sink<D>,
        tally: &mut D::Tally,
    ) -> Result<(), WriteFault>
        ensures ended { OnOk result ((start : ℕ) (before : Option FactsOf) (top : Option DeletionOf) (gs : List FragmentOf) (text : List ℕ)
            → Taken start before top gs self.old text → sink.old.place ≡ start + length text
            → Ends D.number D.written start before top gs sink.old sink.new self.new text) }
        ensures count { Counted (D.Tally.number tally.old) (D.Tally.number tally.new) (IsErrOf result WriteFault.Failed) }
        ensures kind { IfErr result (λ e. IsOfPart e) }
        ensures why { IfErr result (λ e. (start : ℕ) (before : Option FactsOf) (top : Option DeletionOf) (gs : List FragmentOf) (text : List ℕ)
            → Taken start before top gs self.old text → sink.old.place ≡ start + length text → Hinders start (behind_statics gs) e) }
    {
        self.seal_end()?;
        sink.append(&self.buffer, tally)
    }
}
