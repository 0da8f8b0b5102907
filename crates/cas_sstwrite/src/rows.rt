//! The rows and markers of a partition, as a source gives them.

ghost use Rattle.std.specs.Prelude.{◌≡◌, ◌+◌, ◌++◌, ◌∷◌, [], ℕ, List, length, Option, Some, OnOk, IfErr, IsErrOf};
ghost use Rattle.cas_cell.specs.declared.deletion.Deletion.{Deletion as DeletionOf};
ghost use Rattle.cas_streams.specs.declared.fragment.Fragment.{Fragment as FragmentOf};
ghost use Rattle.cas_streams.specs.Sources.{TakesFirst, Shrinks};
ghost use Rattle.cas_facts.specs.declared.facts.Facts.{Facts as FactsOf};
ghost use Rattle.cas_disk.specs.Counts.{Counted};
ghost use Rattle.cas_streams.specs.Streams.{IsThere};
ghost use Rattle.cas_fragments.specs.Blocks.{behind_statics};
ghost use Rattle.cas_sstwrite.specs.Causes.{IsOwn};
ghost use Rattle.cas_sstwrite.specs.Inner.Parts.{IsOfRows, Taken, IsOfSource, RowsFault, GoesOn, WroteRows, Says};

use crate::fault::{PartitionFault, WriteFault};
use crate::held::{Part, Sink};
use cas_disk::Draft;
use cas_streams::{Fragment, FragmentSource};
use std::mem::drop;

/// The next fragment; the source's fault is told as its own.
pub(crate) fn next_of<S: FragmentSource>(
    source: &mut S,
) -> Result<Option<Fragment>, PartitionFault<S::Fault>>
    ensures first { (fs : List FragmentOf) → S.to_come source.old ≡ Some fs → TakesFirst fs (S.to_come source.new) result }
    ensures ends { Shrinks (S.at_most source.old) (S.at_most source.new) result }
    ensures why { IfErr result (λ e. IsOfSource e (S.broken_by source.new)) }
{
    match source.next() {
        Ok(next) => Ok(next),
        Err(fault) => Err(PartitionFault::Source(fault)),
    }
}

// Takes the fragments that are still to come behind others.
fn take_rest<D: Draft, S: FragmentSource>(
    part: &mut Part,
    sink: &mut Sink<D>,
    source: &mut S,
    tally: &mut D::Tally,
) -> Result<(), PartitionFault<S::Fault>>
    ensures taken { OnOk result ((start : ℕ) (before : Option FactsOf) (top : Option DeletionOf) (gs : List FragmentOf) (text : List ℕ)
        → Taken start before top gs part.old text → sink.old.place ≡ start + length text
        → GoesOn D.number D.written start before top gs sink.old sink.new part.new text (S.to_come source.old)) }
    ensures count { Counted (D.Tally.number tally.old) (D.Tally.number tally.new) (IsErrOf result (PartitionFault.Write WriteFault.Failed)) }
    ensures kind { IfErr result (λ e. IsOfRows e) }
    ensures why { IfErr result (λ e. (start : ℕ) (before : Option FactsOf) (top : Option DeletionOf) (gs : List FragmentOf) (text : List ℕ)
        → IsThere gs → Taken start before top gs part.old text → sink.old.place ≡ start + length text
        → (fs : List FragmentOf) → S.to_come source.old ≡ Some fs → RowsFault start (behind_statics (gs ++ fs)) e) }
    ensures own { IfErr result (λ e. IsOwn e (S.broken_by source.new)) }
{
    while let Some(fragment) = next_of(source)? {
        let taken = part.take(sink, &fragment, tally);
        drop(fragment);
        taken?;
    }
    Ok(())
}

// Takes the fragments of a partition, of which the first one was given.
fn take_all<D: Draft, S: FragmentSource>(
    part: &mut Part,
    sink: &mut Sink<D>,
    first: Fragment,
    source: &mut S,
    tally: &mut D::Tally,
) -> Result<(), PartitionFault<S::Fault>>
    ensures taken { OnOk result ((start : ℕ) (before : Option FactsOf) (top : Option DeletionOf) (text : List ℕ)
        → Taken start before top [] part.old text → sink.old.place ≡ start + length text
        → GoesOn D.number D.written start before top (first ∷ []) sink.old sink.new part.new text (S.to_come source.old)) }
    ensures count { Counted (D.Tally.number tally.old) (D.Tally.number tally.new) (IsErrOf result (PartitionFault.Write WriteFault.Failed)) }
    ensures kind { IfErr result (λ e. IsOfRows e) }
    ensures why { IfErr result (λ e. (start : ℕ) (before : Option FactsOf) (top : Option DeletionOf) (text : List ℕ)
        → Taken start before top [] part.old text → sink.old.place ≡ start + length text
        → (fs : List FragmentOf) → S.to_come source.old ≡ Some fs → RowsFault start (behind_statics (first ∷ fs)) e) }
    ensures own { IfErr result (λ e. IsOwn e (S.broken_by source.new)) }
{
    let taken = part.take_first(sink, &first, tally);
    drop(first);
    taken?;
    take_rest(part, sink, source, tally)
}

/// Writes the rows and markers of a partition and its end. The first fragment of the partition was
/// given, or it has none.
pub(crate) fn write_rows<D: Draft, S: FragmentSource>(
    part: &mut Part,
    sink: &mut Sink<D>,
    first: Option<Fragment>,
    source: &mut S,
    tally: &mut D::Tally,
) -> Result<(), PartitionFault<S::Fault>>
    ensures wrote { OnOk result ((start : ℕ) (before : Option FactsOf) (top : Option DeletionOf) (text : List ℕ)
        → Taken start before top [] part.old text → sink.old.place ≡ start + length text
        → WroteRows D.number D.written start before top first sink.old sink.new part.new text (S.to_come source.old)) }
    ensures count { Counted (D.Tally.number tally.old) (D.Tally.number tally.new) (IsErrOf result (PartitionFault.Write WriteFault.Failed)) }
    ensures kind { IfErr result (λ e. IsOfRows e) }
    ensures why { IfErr result (λ e. (start : ℕ) (before : Option FactsOf) (top : Option DeletionOf) (text : List ℕ)
        → Taken start before top [] part.old text → sink.old.place ≡ start + length text
        → (fs : List FragmentOf) → Says first (S.to_come source.old) fs → RowsFault start (behind_statics fs) e) }
    ensures own { IfErr result (λ e. IsOwn e (S.broken_by source.new)) }
{
    let Some(first) = first else {
        return Ok(part.end(sink, tally)?);
    };
    take_all(part, sink, first, source, tally)?;
    Ok(part.end(sink, tally)?)
}
