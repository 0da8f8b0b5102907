//! The slice that is read of a key's partition in a table file that is loaded.

ghost use Rattle.std.specs.Prelude.{◌≡◌, ℕ, IfOk, IfSome, IsErrOf};
ghost use Rattle.cas_types.specs.Limits.{IsNarrow};
ghost use Rattle.cas_bounds.specs.ClusteringOrder.{clustering_order};
ghost use Rattle.cas_disk.specs.Counts.{Counted};
ghost use Rattle.cas_facts.specs.declared.facts.Facts.{Facts};
ghost use Rattle.cas_index.specs.Searches.{IsSliceOf};
ghost use Rattle.cas_tables.specs.Contents.{Contents};
ghost use Rattle.cas_blocks.specs.Inner.Pieces.{MayBeBad};
ghost use Rattle.cas_reading.specs.Slices.{Answers};
ghost use Rattle.cas_reading.specs.Inner.Parts.{IsBadSlice};
ghost use Rattle.cas_stored.specs.Contents.{IsOf, AnswersOf};

use cas_blocks::{Blocks, TableFault};
use cas_bounds::Slice;
use cas_disk::{Count, Sealed};
use cas_reading::find_slice;
use cas_sstread::Table;
use cas_streams::FragmentSource;
use std::alloc::Global;

/// The slice of the key's partition, as a source that reads it block by block; none where the filter
/// or the index has no such key. The head is read here, and the tally counts that; the source's own
/// tally, which `end` gives, counts its reads.
pub fn read_slice<'a, F: Sealed>(
    alloc: Global,
    table: &'a Table<F>,
    key: &[u8],
    slice: &Slice,
    tally: &mut F::Tally,
) -> Result<Option<Blocks<'a, F>>, TableFault>
    requires narrow { IsNarrow table.now.columns }
    requires one { IsSliceOf (clustering_order table.now.columns) slice.now }
    ensures told { Answers table.now key.now slice.now ⟦<Blocks<'a, F> as FragmentSource>⟧.over_all ⟦<Blocks<'a, F> as FragmentSource>⟧.to_come result }
    ensures contents { (c : Contents) (f : Facts) → IsOf table.now c f
        → AnswersOf c key.now slice.now ⟦<Blocks<'a, F> as FragmentSource>⟧.over_all ⟦<Blocks<'a, F> as FragmentSource>⟧.to_come result }
    ensures sound { IfOk result (λ o. IfSome o (λ b. ⟦<Blocks<'a, F> as FragmentSource>⟧.broken_by b ≡ None)) }
    ensures finds { IfOk result (λ o. IfSome o (λ b. (n at : ℕ)
        → MayBeBad b.file.order.now b.file.columns.now b.file.number b.file.end (F.contents b.file.sealed.now) b.window.pieces.onward n at
        → IsBadSlice table.now key.now slice.now n at)) }
    ensures fresh { IfOk result (λ o. IfSome o (λ b. F.Tally.number b.tally ≡ 0)) }
    ensures count { Counted (F.Tally.number tally.old) (F.Tally.number tally.new) (IsErrOf result TableFault.Read) }
{
    find_slice(alloc, table, key, slice, tally)
}
