//! A slice of a partition in a table's file, which knows that each read that failed was counted, and which
//! of its places may be told bad.

ghost use Rattle.std.specs.Prelude.{◌≡◌, ◌≤◌, ℕ, List as ListOf, Some, None, IsErrOf};
ghost use Rattle.cas_disk.specs.Counts.{Counted};
ghost use Rattle.cas_streams.specs.Sources.{TakesFirst, Shrinks, KeepsFault};
ghost use Rattle.cas_streams.specs.declared.fragment.Fragment.{Fragment as Piece};
ghost use Rattle.cas_blocks.specs.Inner.Pieces.{MayBeBad};
ghost use Rattle.cas_blocks.specs.declared.fault.TableFault.TheVariants as table_fault;

use crate::places::BadPlaces;
use cas_blocks::{Blocks, TableFault};
use cas_cell::Deletion;
use cas_disk::{Count, Sealed};
use cas_streams::{Fragment, FragmentSource};
use std::marker::PhantomData;

/// What a table's file has of a partition in a slice. Where a read failed its tally tells it; what it
/// tells bad is one of B's places.
#[derive(Drop)]
pub struct FileSource<'a, S: Sealed, B: BadPlaces> {
    blocks: Blocks<'a, S>,
    of: PhantomData<B>,
    ghost counted: { blocks.fault ≡ Some table_fault.Read → 1 ≤ S.Tally.number blocks.tally },
    ghost finds: { (n at : ℕ) → MayBeBad blocks.file.order.now blocks.file.columns.now blocks.file.number blocks.file.end
        (S.contents blocks.file.sealed.now) blocks.window.pieces.onward n at → ∥ B.told n at ∥₁ },
    ghost found: { (n at : ℕ) → blocks.fault ≡ Some (table_fault.BadBlock n at) → ∥ B.told n at ∥₁ },
}

impl<'a, S: Sealed, B: BadPlaces> FileSource<'a, S, B> {
    /// These blocks, of which no read has failed yet, and in which only places of B are to be found bad.
    pub fn new(blocks: Blocks<'a, S>) -> Self
        requires sound { ⟦<Blocks<'a, S> as FragmentSource>⟧.broken_by blocks ≡ None }
        requires finds { (n at : ℕ) → MayBeBad blocks.file.order.now blocks.file.columns.now blocks.file.number blocks.file.end
            (S.contents blocks.file.sealed.now) blocks.window.pieces.onward n at → ∥ B.told n at ∥₁ }
        ensures top { ⟦<FileSource<'a, S, B> as FragmentSource>⟧.over_all result ≡ ⟦<Blocks<'a, S> as FragmentSource>⟧.over_all blocks.entry }
        ensures fragments { ⟦<FileSource<'a, S, B> as FragmentSource>⟧.to_come result ≡ ⟦<Blocks<'a, S> as FragmentSource>⟧.to_come blocks.entry }
        ensures sound { ⟦<FileSource<'a, S, B> as FragmentSource>⟧.broken_by result ≡ None }
    {
        FileSource {
            blocks,
            of: PhantomData,
        }
    }

    /// The tally of its reads, also after a fault.
    pub fn end(self) -> S::Tally
        ensures count { ⟦<FileSource<'a, S, B> as FragmentSource>⟧.broken_by self.entry ≡ Some table_fault.Read → 1 ≤ S.Tally.number result }
        ensures found { (n at : ℕ) → ⟦<FileSource<'a, S, B> as FragmentSource>⟧.broken_by self.entry ≡ Some (table_fault.BadBlock n at)
            → ∥ B.told n at ∥₁ }
    {
        let blocks = self.blocks;
        blocks.end()
    }
}

impl<'a, S: Sealed, B: BadPlaces> FragmentSource for FileSource<'a, S, B> {
    type Fault = TableFault;

    ghost to_come = { λ f. ⟦<Blocks<'a, S> as FragmentSource>⟧.to_come f.blocks };

    ghost over_all = { λ f. ⟦<Blocks<'a, S> as FragmentSource>⟧.over_all f.blocks };

    ghost at_most = { λ f. ⟦<Blocks<'a, S> as FragmentSource>⟧.at_most f.blocks };

    ghost broken_by = { λ f. ⟦<Blocks<'a, S> as FragmentSource>⟧.broken_by f.blocks };

    fn top(&self) -> Option<Deletion> {
        self.blocks.top()
    }

    fn next(&mut self) -> Result<Option<Fragment>, TableFault> {
        self.blocks.next()
    }
}
