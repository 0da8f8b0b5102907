//! The rows that a query shows of all that a table has stored.

ghost use Rattle.std.specs.Prelude.{◌≡◌, ℕ, ◌≤◌, ◌≤ℤ◌, pos, length, [], IfOk, IfErr, IsErrOf};
ghost use Rattle.cas_types.specs.Limits.{IsNarrow};
ghost use Rattle.cas_disk.specs.Counts.{Counted};
ghost use Rattle.cas_memtable.specs.Kept.{memtables_of};
ghost use Rattle.cas_merge.specs.Told.{IsBrokenBy};
ghost use Rattle.cas_blocks.specs.declared.fault.TableFault.TheVariants as table_fault;
ghost use Rattle.cas_stored.specs.Reading.{AreReadIn, IsBadFile, IsFaultOf, IsWhyNotShown};
ghost use Rattle.cas_stored.specs.Rows.{AreRowsOf};

use crate::places::BadPlaces;
use crate::source::{Source, add_tally};
use crate::table::TableStore;
use cas_atoms::{LiveRow, Query};
use cas_blocks::TableFault;
use cas_disk::{Count, Sealed};
use cas_live::{all_rows_and_source, all_rows_of};
use cas_memtable::Parts;
use cas_merge::{Bracket, Merger};
use cas_streams::FragmentSource;
use std::alloc::{AllocError, Global};
use std::marker::Brand;
use std::mem::drop;

// What a query shows of memtables alone.
fn rows_in_memory(
    alloc: Global,
    parts: &Parts,
    query: Query,
    now: i64,
) -> Result<Vec<LiveRow>, AllocError>
    requires begun { pos 0 ≤ℤ now }
    requires columns { IsNarrow query.columns }
    ensures { IfOk result (λ v. AreRowsOf [] (memtables_of parts.now) query now v.items) }
{
    match parts.sources(alloc, &query.key, &query.slice) {
        Ok(sources) => all_rows_of(alloc, Merger::new(sources), query, now),
        Err(fault) => {
            drop(query);
            Err(fault)
        }
    }
}

// Adds the tallies of all sources; where one was broken by a read that failed, the sum rises.
fn add_tallies<'a, S: Sealed, B: BadPlaces>(
    bracket: Bracket<Source<'a, S, B>>,
    tally: &mut S::Tally,
)
    ensures count { Counted (S.Tally.number tally.old) (S.Tally.number tally.new)
        (IsBrokenBy ⟦<Source<'a, S, B> as FragmentSource>⟧.broken_by table_fault.Read bracket.entry) }
    ensures found { (n at : ℕ) → IsBrokenBy ⟦<Source<'a, S, B> as FragmentSource>⟧.broken_by (table_fault.BadBlock n at) bracket.entry
        → ∥ B.told n at ∥₁ }
{
    match bracket {
        Bracket::Nobody => {}
        Bracket::Source(source) => add_tally(source, tally),
        Bracket::Pair(left, one, right, other) => {
            drop(one);
            drop(other);
            add_tallies(Box::into_inner(left), tally);
            add_tallies(Box::into_inner(right), tally);
        }
    }
}

// What a query shows of memtables and files, of which B's places may be told bad.
fn rows_in_files<S: Sealed, B: BadPlaces>(
    alloc: Global,
    store: &TableStore<S>,
    query: Query,
    now: i64,
    tally: &mut S::Tally,
) -> Result<Vec<LiveRow>, TableFault>
    requires begun { pos 0 ≤ℤ now }
    requires columns { IsNarrow query.columns }
    requires reads { AreReadIn query.slice store.now.files }
    requires told { (n at : ℕ) → IsBadFile store.now.files query.key query.slice n at → B.told n at }
    ensures rows { IfOk result (λ v. AreRowsOf store.now.files (memtables_of store.now.parts) query now v.items) }
    ensures count { Counted (S.Tally.number tally.old) (S.Tally.number tally.new) (IsErrOf result TableFault.Read) }
    ensures why { IfErr result (IsFaultOf (λ n at. ∥ B.told n at ∥₁)) }
{
    match store.sources::<B>(alloc, &query.key, &query.slice, tally) {
        Ok(sources) => {
            let merger = Merger::new(sources);
            let (shown, merger) = all_rows_and_source(alloc, merger, query, now);
            add_tallies(merger.end(), tally);
            shown
        }
        Err(fault) => {
            drop(query);
            Err(fault)
        }
    }
}

impl<S: Sealed> TableStore<S> {
    /// The rows that a query shows of the table at a moment, in memory and in files.
    pub fn rows_of(
        &self,
        alloc: Global,
        query: Query,
        now: i64,
        tally: &mut S::Tally,
    ) -> Result<Vec<LiveRow>, TableFault>
        requires begun { pos 0 ≤ℤ now }
        requires columns { IsNarrow query.columns }
        requires reads { AreReadIn query.slice self.now.files }
        ensures rows { IfOk result (λ v. AreRowsOf self.now.files (memtables_of self.now.parts) query now v.items) }
        ensures count { Counted (S.Tally.number tally.old) (S.Tally.number tally.new) (IsErrOf result TableFault.Read) }
        ensures why { IfErr result (IsWhyNotShown self.now.files query.key query.slice) }
        ensures memory { length self.now.files ≡ 0 → IfErr result (λ e. e ≡ table_fault.Mem) }
    {
        if self.view.files().is_empty() {
            return Ok(rows_in_memory(alloc, &self.parts, query, now)?);
        }
        rows_in_files::<S, Brand>(alloc, self, query, now, tally)
    }
}
