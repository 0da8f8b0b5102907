//! A partition, written as a source gives it.

ghost use Rattle.std.specs.Prelude.{◌≡◌, ◌<◌, ◌^◌, ℕ, List, [], length, Option, IfOk, OnOk, IfErr, IsErrOf, None};
ghost use Rattle.std.specs.Option.{option_to_list};
ghost use Rattle.cas_streams.specs.declared.fragment.Fragment.{Fragment as FragmentOf};
ghost use Rattle.cas_disk.specs.Counts.{Counted};
ghost use Rattle.cas_fragments.specs.Allowed.{HaveRoom};
ghost use Rattle.cas_fragments.specs.Blocks.{head_bytes, statics_in};
ghost use Rattle.cas_fragments.specs.declared.heads.Version.TheVariants.{Second};
ghost use Rattle.cas_sstwrite.specs.Inner.Sinks.{Took};
ghost use Rattle.cas_sstwrite.specs.Causes.{IsOwn};
ghost use Rattle.cas_sstwrite.specs.Inner.Parts.{IsOfRows, Taken, Says};
ghost use Rattle.cas_sstwrite.specs.Inner.Whole.{HeadFault, WrotePartition, PartFault};

use crate::fault::{PartitionFault, WriteFault};
use crate::held::{Part, Sink};
use crate::rooms::have_room;
use crate::rows::write_rows;
use cas_atoms::RowColumn;
use cas_cell::Deletion;
use cas_disk::Draft;
use cas_facts::Tally;
use cas_fragments::put_head;
use cas_streams::{Fragment, FragmentSource};
use std::alloc::Global;

// Fewer bytes than two bytes can count.
const KEY_ROOM: usize = 1 << 16;

// The static columns of a partition that begins so.
fn statics_of(first: &Option<Fragment>) -> &[RowColumn]
    ensures { result.now ≡ statics_in (option_to_list first.now) }
{
    match first {
        Some(Fragment::Static(columns)) => columns.as_slice(),
        _ => &[],
    }
}

// Writes the head of a partition.
fn write_head<D: Draft>(
    alloc: Global,
    sink: &mut Sink<D>,
    key: &[u8],
    top: Option<Deletion>,
    columns: &[RowColumn],
    tally: &mut D::Tally,
) -> Result<(), WriteFault>
    ensures took { OnOk result (Took D.number D.written (head_bytes Second key.now top columns.now) sink.old sink.new) }
    ensures key { OnOk result (length key.now < 2 ^ 16) }
    ensures room { OnOk result (HaveRoom columns.now) }
    ensures count { Counted (D.Tally.number tally.old) (D.Tally.number tally.new) (IsErrOf result WriteFault.Failed) }
    ensures why { IfErr result (λ e. HeadFault sink.old.place key.now top columns.now e) }
{
    if key.len() >= KEY_ROOM || !have_room(columns) {
        return Err(WriteFault::Unfit);
    }
    let mut head = Vec::new(alloc);
    put_head(&mut head, key, top, columns)?;
    sink.append(&head, tally)
}

// A partition of which nothing was taken, with the deletion of the whole.
fn begun(alloc: Global, seen: Tally, top: Option<Deletion>) -> Part
    ensures { (start : ℕ) → Taken start seen.facts top [] result [] }
{
    let mut seen = seen;
    seen.see_top(top);
    Part {
        buffer: Vec::new(alloc),
        entries: Vec::new(alloc),
        force: None,
        seen,
    }
}

/// Writes a partition of which the first fragment was given, or which has none: its head, its rows
/// and markers, and its end.
pub(crate) fn write_partition<D: Draft, S: FragmentSource>(
    alloc: Global,
    sink: &mut Sink<D>,
    seen: Tally,
    key: &[u8],
    top: Option<Deletion>,
    first: Option<Fragment>,
    source: &mut S,
    tally: &mut D::Tally,
) -> Result<Part, PartitionFault<S::Fault>>
    ensures wrote { IfOk result (λ part. WrotePartition D.number D.written key.now top first seen.facts sink.old sink.new part (S.to_come source.old)) }
    ensures count { Counted (D.Tally.number tally.old) (D.Tally.number tally.new) (IsErrOf result (PartitionFault.Write WriteFault.Failed)) }
    ensures kind { IfErr result (λ e. IsOfRows e) }
    ensures why { IfErr result (λ e. (fs : List FragmentOf) → Says first (S.to_come source.old) fs → PartFault sink.old.place key.now top fs e) }
    ensures own { IfErr result (λ e. IsOwn e (S.broken_by source.new)) }
{
    write_head(alloc, sink, key, top, statics_of(&first), tally)?;
    let mut part = begun(alloc, seen, top);
    write_rows(&mut part, sink, first, source, tally)?;
    Ok(part)
}
