//! The streams of a partition, one of each memtable.

ghost use Rattle.std.specs.Prelude.{◌≡◌, ◌++◌, ◌∷◌, [], OnOk, IfOk, map, Option};
ghost use Rattle.std.specs.Option.{option_to_list};
ghost use Rattle.std.specs.Arc.{arc_value};
ghost use Rattle.cas_memtable.specs.Memtables.{held_at, GivesPart};
ghost use Rattle.cas_memtable.specs.Inner.Gathered.{Gathers, GathersBehind};

use crate::MemPart;
use cas_bounds::Slice;
use cas_partition::PartitionStream;
use cas_streams::FragmentSource;
use cas_types::Bytes;
use std::alloc::{AllocError, Global};
use std::sync::Arc;

// Puts a source behind the others, if there is one.
fn put<'a>(
    sources: &mut Vec<PartitionStream<'a>>,
    source: Option<PartitionStream<'a>>,
) -> Result<(), AllocError>
    ensures { OnOk result (sources.new.items ≡ sources.old.items ++ option_to_list source.entry) }
{
    if let Some(source) = source {
        sources.push(source)?;
    }
    Ok(())
}

// Puts the sources of frozen memtables behind the others.
fn put_frozen<'a>(
    sources: &mut Vec<PartitionStream<'a>>,
    frozen: &'a [Arc<MemPart, Global>],
    key: &Bytes,
    slice: &Slice,
) -> Result<(), AllocError>
    ensures { OnOk result (GathersBehind ⟦<PartitionStream<'a> as FragmentSource>⟧.to_come ⟦<PartitionStream<'a> as FragmentSource>⟧.over_all
        slice.now key.now (map arc_value frozen.now) sources.old.items sources.new.items) }
{
    match frozen {
        [] => Ok(()),
        [memtable, others @ ..] => {
            put(sources, memtable.part(key, slice)?)?;
            put_frozen(sources, others, key, slice)
        }
    }
}

/// The sources of these memtables.
pub(crate) fn gathered_of<'a>(
    alloc: Global,
    memtables: &'a [Arc<MemPart, Global>],
    key: &Bytes,
    slice: &Slice,
) -> Result<Vec<PartitionStream<'a>>, AllocError>
    ensures { IfOk result (λ v. Gathers ⟦<PartitionStream<'a> as FragmentSource>⟧.to_come ⟦<PartitionStream<'a> as FragmentSource>⟧.over_all
        slice.now key.now (map arc_value memtables.now) v.items) }
{
    let mut sources = Vec::new(alloc);
    put_frozen(&mut sources, memtables, key, slice)?;
    Ok(sources)
}

/// The sources of all memtables: the frozen ones, and the one that is written to.
pub(crate) fn gathered<'a>(
    alloc: Global,
    frozen: &'a [Arc<MemPart, Global>],
    active: &'a MemPart,
    key: &Bytes,
    slice: &Slice,
) -> Result<Vec<PartitionStream<'a>>, AllocError>
    ensures { IfOk result (λ v. Gathers ⟦<PartitionStream<'a> as FragmentSource>⟧.to_come ⟦<PartitionStream<'a> as FragmentSource>⟧.over_all
        slice.now key.now (map arc_value frozen.now ++ active.now ∷ []) v.items) }
{
    let mut sources = gathered_of(alloc, frozen, key, slice)?;
    put(&mut sources, active.part(key, slice)?)?;
    Ok(sources)
}
