//! Raw blocks of a table's file, kept by their places.

ghost use Rattle.std.specs.Prelude.{◌≡◌, None, Some, nat_eq, MatchOption, IfOk, OnOk, OnErr};
ghost use Rattle.std.specs.Map.{lookup};
ghost use Rattle.lru.specs.LruCache.{lru_cache, promoted, put_entries};

use cas_blocks::{FromFile, Origin, TableFile};
use cas_disk::{FolderFault, Sealed};
use lru::LruCache;
use std::alloc::{AllocError, Global};

/// Raw blocks of a file by their places, the one used last first; how often a block was asked for that wasn't kept; and the
/// tally of the reads.
#[derive(Drop)]
pub struct Cache<T> {
    pub alloc: Global,
    pub blocks: LruCache<u64, Vec<u8>>,
    pub reads: u64,
    pub tally: T,
}

// A copy of the block that is kept of a place, which is the one used last from now on; none where
// none is kept.
fn find(
    alloc: Global,
    blocks: &mut LruCache<u64, Vec<u8>>,
    place: u64,
) -> Option<Result<Vec<u8>, AllocError>>
    ensures blocks { MatchOption result (blocks.new ≡ blocks.old)
        (λ r. blocks.new ≡ lru_cache (promoted (nat_eq place) blocks.old.entries) blocks.old.cap) }
    ensures found { MatchOption result (lookup (nat_eq place) blocks.old.entries ≡ None)
        (λ r. (block : _) × (lookup (nat_eq place) blocks.old.entries ≡ Some block) × IfOk r (λ copy. copy.items ≡ block.items)) }
{
    let Some(block) = blocks.peek(&place) else {
        return None;
    };
    let copy = Vec::from_slice(alloc, block);
    blocks.promote(&place);
    Some(copy)
}

// Keeps a copy of a block, if there is memory for it.
fn keep(
    alloc: Global,
    blocks: &mut LruCache<u64, Vec<u8>>,
    place: u64,
    block: &[u8],
) -> Result<(), AllocError>
    ensures kept { OnOk result ((copy : _) × (copy.items ≡ block.now)
        × (blocks.new ≡ lru_cache (put_entries nat_eq blocks.old place copy) blocks.old.cap)) }
    ensures same { OnErr result (blocks.new ≡ blocks.old) }
{
    let copy = Vec::from_slice(alloc, block)?;
    match blocks.put(place, copy) {
        Ok(_) => Ok(()),
        Err(_) => Err(AllocError),
    }
}

/// A block that is kept is copied; any other is read from the file, and kept where there is memory for it.
pub struct FromCache;

impl<F: Sealed> Origin<F> for FromCache {
    ghost use Rattle.std.specs.Prelude.{Contains};
    ghost use Rattle.cas_reading.specs.Caching.{IsFileBlock, LeadsTo, kept_of};
    ghost use Rattle.cas_reading.specs.Inner.Leading.{no_block, one_behind_another};

    type State = Cache<F::Tally>;

    ghost faults = { λ cache. F.Tally.number cache.tally };

    ghost fits = { λ contents end cache. (e : _) → Contains cache.blocks.entries e → IsFileBlock contents end e.0 e.1.items };

    ghost leads = { λ s t. LeadsTo (kept_of s.blocks s.reads) (kept_of t.blocks t.reads) };

    fn body(
        file: &TableFile<'_, F>,
        place: u64,
        cache: &mut Cache<F::Tally>,
    ) -> Result<Option<Vec<u8>>, FolderFault> {
        if let Some(found) = find(cache.alloc, &mut cache.blocks, place) {
            return Ok(Some(found?));
        }
        cache.reads = cache.reads.saturating_add(1);
        let body = <FromFile as Origin<F>>::body(file, place, &mut cache.tally)?;
        if let Some(block) = &body {
            let _ = keep(cache.alloc, &mut cache.blocks, place, block);
        }
        Ok(body)
    }

    ghost stays = { λ s. no_block (kept_of s.blocks s.reads) };

    ghost goes_on = { λ s t u. one_behind_another (kept_of s.blocks s.reads) (kept_of t.blocks t.reads) (kept_of u.blocks u.reads) };
}
