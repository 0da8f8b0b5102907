//! A table file that is read in one slice after another.

ghost use Rattle.std.specs.Prelude.{◌≡◌, ◌≤◌, ℕ, List as ListOf, [], Some, None, Ok, false, Contains, IfOk, IfErr, IsErrOf};
ghost use Rattle.cas_types.specs.Limits.{IsNarrow};
ghost use Rattle.cas_bounds.specs.ClusteringOrder.{clustering_order};
ghost use Rattle.cas_disk.specs.Counts.{Counted};
ghost use Rattle.cas_index.specs.Searches.{IsSliceOf};
ghost use Rattle.cas_streams.specs.Sources.{TakesFirst, Shrinks, KeepsFault};
ghost use Rattle.cas_streams.specs.declared.fragment.Fragment.{Fragment};
ghost use Rattle.cas_blocks.specs.Inner.Pieces.{MayBeBad, IfBad};
ghost use Rattle.lru.specs.LruCache.{lru_cache};
ghost use Rattle.cas_reading.specs.Caching.{IsFileBlock, LeadsTo, kept_of};
ghost use Rattle.cas_reading.specs.Slices.{Answers};
ghost use Rattle.cas_reading.specs.declared.sought.Sought.TheVariants as found;
ghost use Rattle.cas_reading.specs.Inner.Parts.{given, IsBadSlice};
ghost use Rattle.cas_reading.specs.Inner.Seeking.{fragments_in, top_in, room_in, fault_in, bad_in};

use crate::cache::{Cache, FromCache};
use crate::slices::find_slice;
use crate::sought::Sought;
use cas_blocks::{Blocks, TableFault};
use cas_bounds::Slice;
use cas_cell::Deletion;
use cas_disk::{Count, Sealed};
use cas_sstread::Table;
use cas_streams::{Fragment, FragmentSource};
use lru::LruCache;
use std::alloc::{AllocError, Global};
use std::mem::drop;
use std::num::NonZeroUsize;

/// A table file and the slice of it that was sought last, which it gives fragment by fragment. The raw
/// blocks that were read are kept, so many, for this slice and those that are sought later.
#[derive(Drop)]
pub struct Reading<'a, F: Sealed> {
    table: &'a Table<F>,
    sought: Sought<Blocks<'a, F>>,
    cache: Cache<F::Tally>,
    ghost narrow: { IsNarrow table.now.columns },
    ghost true_blocks: { (e : _) → Contains cache.blocks.entries e → IsFileBlock table.now.contents table.now.kept.end e.0 e.1.items },
    ghost own: { (b : _) → sought ≡ found.Slice b → (F.contents b.file.sealed.now ≡ table.now.contents) × (b.file.end ≡ table.now.kept.end) },
}

// An empty cache of so many blocks.
fn empty_cache<T: Count>(alloc: Global, most: usize) -> Result<Cache<T>, AllocError>
    requires { 1 ≤ most }
    ensures blocks { IfOk result (λ c. c.blocks ≡ lru_cache [] most) }
    ensures reads { IfOk result (λ c. c.reads ≡ 0) }
    ensures tally { IfOk result (λ c. T.number c.tally ≡ 0) }
{
    let most = NonZeroUsize::new(most).unwrap_or(NonZeroUsize::MIN);
    Ok(Cache {
        alloc,
        blocks: LruCache::new(alloc, most)?,
        reads: 0,
        tally: T::fresh(),
    })
}

impl<'a, F: Sealed> Reading<'a, F> {
    /// A reading of the table, which keeps at most so many blocks. Nothing is sought, and nothing was read.
    pub fn new(alloc: Global, table: &'a Table<F>, blocks: usize) -> Result<Self, AllocError>
        requires some { 1 ≤ blocks }
        requires narrow { IsNarrow table.now.columns }
        ensures table { IfOk result (λ r. r.table.now ≡ table.now) }
        ensures nothing { IfOk result (λ r. ⟦<Reading<'a, F> as FragmentSource>⟧.to_come r ≡ Some []) }
        ensures top { IfOk result (λ r. ⟦<Reading<'a, F> as FragmentSource>⟧.over_all r ≡ None) }
        ensures sound { IfOk result (λ r. ⟦<Reading<'a, F> as FragmentSource>⟧.broken_by r ≡ None) }
        ensures blocks { IfOk result (λ r. r.cache.blocks ≡ lru_cache [] blocks) }
        ensures reads { IfOk result (λ r. r.cache.reads ≡ 0) }
        ensures tally { IfOk result (λ r. F.Tally.number r.cache.tally ≡ 0) }
    {
        let cache = empty_cache(alloc, blocks)?;
        Ok(Reading {
            table,
            sought: Sought::Nothing,
            cache,
        })
    }

    /// Seeks the slice of the key's partition, which is what it gives from here on: whether there is one.
    /// The filter is asked first, then the index; the head is read here, and no block.
    pub fn seek(&mut self, key: &[u8], slice: &Slice) -> Result<bool, TableFault>
        requires one { IsSliceOf (clustering_order self.old.table.now.columns) slice.now }
        ensures table { self.new.table.now ≡ self.old.table.now }
        ensures told { Answers self.old.table.now key.now slice.now ⟦<Reading<'a, F> as FragmentSource>⟧.over_all
            ⟦<Reading<'a, F> as FragmentSource>⟧.to_come (given self.new result) }
        ensures none { result ≡ Ok false → (⟦<Reading<'a, F> as FragmentSource>⟧.to_come self.new ≡ Some [])
            × (⟦<Reading<'a, F> as FragmentSource>⟧.over_all self.new ≡ None) }
        ensures sound { IfOk result (λ is. ⟦<Reading<'a, F> as FragmentSource>⟧.broken_by self.new ≡ None) }
        ensures broken { IfErr result (λ fault. ⟦<Reading<'a, F> as FragmentSource>⟧.broken_by self.new ≡ Some fault) }
        ensures finds { IfOk result (λ is. (n at : ℕ) → bad_in (λ b. MayBeBad b.file.order.now b.file.columns.now b.file.number
            b.file.end (F.contents b.file.sealed.now) b.window.pieces.onward) self.new.sought n at
            → IsBadSlice self.old.table.now key.now slice.now n at) }
        ensures blocks { self.new.cache.blocks ≡ self.old.cache.blocks }
        ensures reads { self.new.cache.reads ≡ self.old.cache.reads }
        ensures count { Counted (F.Tally.number self.old.cache.tally) (F.Tally.number self.new.cache.tally) (IsErrOf result TableFault.Read) }
    {
        self.sought = Sought::Nothing;
        match find_slice(
            self.cache.alloc,
            self.table,
            key,
            slice,
            &mut self.cache.tally,
        ) {
            Ok(Some(blocks)) => {
                self.sought = Sought::Slice(blocks);
                Ok(true)
            }
            Ok(None) => Ok(false),
            Err(fault) => {
                self.sought = Sought::Broken(fault);
                Err(fault)
            }
        }
    }

    /// How often a block was asked for that wasn't kept.
    pub fn reads(&self) -> u64
        ensures { result ≡ self.now.cache.reads }
    {
        self.cache.reads
    }

    /// The tally of all that was read.
    pub fn end(self) -> F::Tally
        ensures { result ≡ self.entry.cache.tally }
    {
        drop(self.sought);
        self.cache.tally
    }
}

impl<'a, F: Sealed> FragmentSource for Reading<'a, F> {
    ghost use Rattle.cas_reading.specs.Inner.Seeking.{fragments_in, top_in, room_in, fault_in};

    type Fault = TableFault;

    ghost to_come = { λ r. fragments_in ⟦<Blocks<'a, F> as FragmentSource>⟧.to_come r.sought };

    ghost over_all = { λ r. top_in ⟦<Blocks<'a, F> as FragmentSource>⟧.over_all r.sought };

    ghost at_most = { λ r. room_in ⟦<Blocks<'a, F> as FragmentSource>⟧.at_most r.sought };

    ghost broken_by = { λ r. fault_in ⟦<Blocks<'a, F> as FragmentSource>⟧.broken_by r.sought };

    fn top(&self) -> Option<Deletion> {
        match &self.sought {
            Sought::Nothing => None,
            Sought::Slice(blocks) => blocks.top(),
            Sought::Broken(_) => None,
        }
    }

    /// The next fragment of the slice that was sought last; none where none was found.
    fn next(&mut self) -> Result<Option<Fragment>, TableFault>
        ensures same_top { ⟦<Reading<'a, F> as FragmentSource>⟧.over_all self.new ≡ ⟦<Reading<'a, F> as FragmentSource>⟧.over_all self.old }
        ensures first { (fs : ListOf Fragment) → ⟦<Reading<'a, F> as FragmentSource>⟧.to_come self.old ≡ Some fs
            → TakesFirst fs (⟦<Reading<'a, F> as FragmentSource>⟧.to_come self.new) result }
        ensures ends { Shrinks (⟦<Reading<'a, F> as FragmentSource>⟧.at_most self.old) (⟦<Reading<'a, F> as FragmentSource>⟧.at_most self.new) result }
        ensures faults { KeepsFault (⟦<Reading<'a, F> as FragmentSource>⟧.broken_by self.old) (⟦<Reading<'a, F> as FragmentSource>⟧.broken_by self.new)
            result }
        ensures sound { ⟦<Reading<'a, F> as FragmentSource>⟧.broken_by self.old ≡ None → (fs : ListOf Fragment)
            → ⟦<Reading<'a, F> as FragmentSource>⟧.to_come self.old ≡ Some fs → IfBad (λ n at. ⊥) result }
        ensures narrows { (n at : ℕ) → bad_in (λ b. MayBeBad b.file.order.now b.file.columns.now b.file.number
            b.file.end (F.contents b.file.sealed.now) b.window.pieces.onward) self.new.sought n at
            → bad_in (λ b. MayBeBad b.file.order.now b.file.columns.now b.file.number
            b.file.end (F.contents b.file.sealed.now) b.window.pieces.onward) self.old.sought n at }
        ensures tells { ⟦<Reading<'a, F> as FragmentSource>⟧.broken_by self.old ≡ None
            → IfBad (bad_in (λ b. MayBeBad b.file.order.now b.file.columns.now b.file.number
            b.file.end (F.contents b.file.sealed.now) b.window.pieces.onward) self.old.sought) result }
        ensures table { self.new.table.now ≡ self.old.table.now }
        ensures asks { LeadsTo (kept_of self.old.cache.blocks self.old.cache.reads) (kept_of self.new.cache.blocks self.new.cache.reads) }
        ensures count { Counted (F.Tally.number self.old.cache.tally) (F.Tally.number self.new.cache.tally)
            ((⟦<Reading<'a, F> as FragmentSource>⟧.broken_by self.old ≡ None) × IsErrOf result TableFault.Read) }
    {
        match &mut self.sought {
            Sought::Nothing => Ok(None),
            Sought::Slice(blocks) => blocks.next_by::<FromCache>(&mut self.cache),
            Sought::Broken(fault) => Err(*fault),
        }
    }
}
