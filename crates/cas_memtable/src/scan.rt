//! The partitions of several memtables, one after another.

ghost use Rattle.std.specs.Prelude.{◌≡◌, IfOk, List as ListOf, map};
ghost use Rattle.std.specs.Option.{option_copied};
ghost use Rattle.std.specs.Arc.{arc_value};
ghost use Rattle.cas_bounds.specs.declared.order.Ordered.{Ordered as Order};
ghost use Rattle.cas_atoms.specs.declared.atom.Mutation.{Mutation as Wrote};
ghost use Rattle.cas_memtable.specs.Kept.{IsNextKey, ShowPartition, StandInEach, all_of};
ghost use Rattle.cas_memtable.specs.Inner.Next.{first_of};

use crate::MemPart;
use crate::sources::gathered_of;
use cas_bounds::Slice;
use cas_partition::PartitionStream;
use cas_streams::FragmentSource;
use cas_types::{Bytes, compare_bytes};
use std::alloc::{AllocError, Global};
use std::sync::Arc;

// The lesser of two keys, of which there may be none.
fn first_of<'a>(a: Option<&'a Bytes>, b: Option<&'a Bytes>) -> Option<&'a Bytes>
    ensures { option_copied result ≡ first_of (option_copied a.entry) (option_copied b.entry) }
{
    match (a, b) {
        (Some(k), Some(q)) => {
            if compare_bytes(q.as_slice(), k.as_slice()).is_lt() {
                Some(q)
            } else {
                Some(k)
            }
        }
        (Some(k), None) => Some(k),
        (None, b) => b,
    }
}

/// The least key above that one, or of all, under which one of the memtables has atoms; none where
/// there is none.
pub fn next_key<'a>(
    memtables: &'a [Arc<MemPart, Global>],
    after: Option<&Bytes>,
) -> Option<&'a Bytes>
    ensures { IsNextKey (map arc_value memtables.now) (option_copied after.entry) (option_copied result) }
{
    match memtables {
        [] => None,
        [memtable, others @ ..] => first_of(memtable.next_key(after), next_key(others, after)),
    }
}

/// The sources of a partition in a slice, one of each memtable that has something under the key.
/// Their merge is the partition.
pub fn sources_of<'a>(
    alloc: Global,
    memtables: &'a [Arc<MemPart, Global>],
    key: &Bytes,
    slice: &Slice,
) -> Result<Vec<PartitionStream<'a>>, AllocError>
    ensures { IfOk result (λ v. (order : ListOf Order) (wss : ListOf (ListOf Wrote)) → StandInEach order (map arc_value memtables.now) wss
        → slice.now.lo.order ≡ order → slice.now.hi.order ≡ order
        → ShowPartition ⟦<PartitionStream<'a> as FragmentSource>⟧.to_come ⟦<PartitionStream<'a> as FragmentSource>⟧.over_all
        order slice.now key.now (map arc_value memtables.now) (all_of wss) v.items) }
{
    gathered_of(alloc, memtables, key, slice)
}
