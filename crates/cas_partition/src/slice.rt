//! A partition in memory as a stream, or a slice of it.

ghost use Rattle.std.specs.Prelude.{◌≡◌, List as ListOf, Some, IfOk, map};
ghost use Rattle.cas_streams.specs.declared.fragment.Fragment.{Fragment};
ghost use Rattle.cas_partition.specs.Slices.{Shows};
ghost use Rattle.cas_partition.specs.Partitions.{marker};
ghost use Rattle.cas_partition.specs.Ranges.{clipped, key_of};
ghost use Rattle.cas_partition.specs.Inner.Passing.{own_marker};

use crate::cut_key::CutKey;
use crate::partition::Partition;
use crate::passing::{Change, changes};
use crate::row_key::RowKey;
use crate::stream::PartitionStream;
use cas_bounds::{Cut, MapKey, Slice};
use cas_streams::{Fragment, FragmentSource};
use std::alloc::{AllocError, Global};
use std::mem::drop;

// The key of a cut's copy among rows.
fn edge(cut: &Cut) -> Result<RowKey, AllocError>
    ensures { IfOk result (λ k. k ≡ Some (key_of cut.now)) }
{
    Ok(RowKey::of(Some(MapKey::of_cut(cut.copied()?))))
}

impl Partition {
    /// The partition as a stream, in the slice and of the static row. What is covered is left out.
    pub fn slice<'a>(
        &'a self,
        alloc: Global,
        slice: &Slice,
    ) -> Result<PartitionStream<'a>, AllocError>
        ensures { IfOk result (λ m. (fs : ListOf Fragment) × (⟦<PartitionStream<'a> as FragmentSource>⟧.to_come m ≡ Some fs)
            × Shows slice.now self.now (⟦<PartitionStream<'a> as FragmentSource>⟧.over_all m) fs) }
    {
        let marks = self.marks_in(alloc, slice)?;
        let low = edge(&slice.lo)?;
        let high = edge(&slice.hi)?;
        let rows = self.spots.lend(&low, &high);
        drop(low);
        drop(high);
        Ok(PartitionStream::new(alloc, self.top, rows, marks))
    }

    // The marks of the slice.
    fn marks_in(&self, alloc: Global, slice: &Slice) -> Result<Vec<Change>, AllocError>
        ensures { IfOk result (λ v. map own_marker v.items ≡ map marker (clipped slice.now self.now.ranges)) }
    {
        let low = CutKey::of(slice.lo.copied()?);
        let high = CutKey::of(slice.hi.copied()?);
        let marks = self.ranges.marks(alloc, &low, &high)?;
        changes(alloc, &marks)
    }
}
