//! A check of a table: each of its files is read to its end.

ghost use Rattle.std.specs.Prelude.{◌≡◌, ◌≤◌, ◌++◌, ◌∷◌, ℕ, ℤ, [], Err, Some, length, slice_get, IfOk, IfErr, OnOk};
ghost use Rattle.cas_types.specs.Limits.{IsNarrow};
ghost use Rattle.cas_disk.specs.Disk.{During};
ghost use Rattle.cas_journal.specs.Stores.{SameTables};
ghost use Rattle.cas_view.specs.Views.{files_of};
ghost use Rattle.cas_sessions.specs.Calls.{IsTrueOf};
ghost use Rattle.cas_lasting.specs.Listing.{KeepsListing};
ghost use Rattle.cas_lasting.specs.Numbering.{NumbersOn};
ghost use Rattle.cas_lasting.specs.Nodes.{KeepsAll, Moves, State, files_in};
ghost use Rattle.cas_sessions.specs.Verifying.{AreVerdicts, EndsVerified, IsFoundSo, IsWhyUnread, Verifies, table_files};
ghost use Rattle.cas_sessions.specs.Inner.Verifying.{AddVerdicts, AreNarrow, AreNarrowIn};

use crate::answer::Fault;
use crate::node::{Node, Stored};
use cas_disk::{Count, Folder, Sealed};
use cas_effects::Refusal;
use cas_history::Store;
use cas_info::FILE_LIMIT;
use cas_render::Verdict;
use cas_shard::Shard;
use cas_sstread::{Table, TableFault};
use cas_terms::table_named;
use cas_types::{List, Mem};
use cas_verify::check;
use cas_view::OpenFile;
use cql_parse::TableName;
use std::alloc::Global;

// The place of the first thing in a file that isn't as it must be, if there is one.
fn first_bad<S: Sealed>(
    alloc: Global,
    table: &Table<S>,
    tally: &mut S::Tally,
) -> Result<Option<u64>, Fault>
    requires narrow { IsNarrow table.now.columns }
    ensures found { IfOk result (IsFoundSo table.now) }
    ensures why { IfErr result (IsWhyUnread (S.Tally.number tally.old) (S.Tally.number tally.new)) }
    ensures count { S.Tally.number tally.old ≤ S.Tally.number tally.new }
{
    if table.info().bytes > FILE_LIMIT {
        return Ok(Some(0));
    }
    match check(alloc, table, tally) {
        Ok(()) => Ok(None),
        Err(TableFault::BadBlock { number: _, at }) => Ok(Some(at)),
        Err(TableFault::ReadFault) => Err(Fault::Read),
        Err(TableFault::Mem) => Err(Fault::Mem),
    }
}

fn put(verdicts: &mut Vec<Verdict>, verdict: Verdict) -> Result<(), Mem>
    ensures { OnOk result (verdicts.new.items ≡ verdicts.old.items ++ verdict ∷ []) }
{
    Ok(verdicts.push(verdict)?)
}

// Reads files one after another, and puts what is said of each behind what was said of others.
fn check_files<S: Sealed>(
    alloc: Global,
    verdicts: &mut Vec<Verdict>,
    files: &[OpenFile<Table<S>>],
    tally: &mut S::Tally,
) -> Result<(), Fault>
    requires narrow { AreNarrow (files_of files.now) }
    ensures checked { OnOk result (AddVerdicts (files_of files.now) verdicts.old.items verdicts.new.items) }
    ensures why { IfErr result (IsWhyUnread (S.Tally.number tally.old) (S.Tally.number tally.new)) }
    ensures count { S.Tally.number tally.old ≤ S.Tally.number tally.new }
{
    for file in files {
        let bad = match first_bad(alloc, &file.table, tally) {
            Ok(bad) => bad,
            Err(fault) => return Err(fault),
        };
        let number = file.info.number;
        match put(verdicts, Verdict { number, bad }) {
            Ok(()) => {}
            Err(Mem) => return Err(Fault::Mem),
        }
    }
    Ok(())
}

// Reads the files that a table has in each shard.
fn check_shards<S: Sealed>(
    alloc: Global,
    shards: &[Shard<S>],
    table: u16,
    tally: &mut S::Tally,
) -> Result<Vec<Verdict>, Fault>
    requires narrow { AreNarrowIn table shards.now }
    ensures checked { IfOk result (λ v. AreVerdicts (table_files (files_in shards.now) (length shards.now) table) v.items) }
    ensures why { IfErr result (IsWhyUnread (S.Tally.number tally.old) (S.Tally.number tally.new)) }
    ensures count { S.Tally.number tally.old ≤ S.Tally.number tally.new }
{
    let mut verdicts = Vec::new(alloc);
    for place in 0..shards.len() {
        let files = shards[place].files(table);
        match check_files(alloc, &mut verdicts, files, tally) {
            Ok(()) => {}
            Err(fault) => return Err(fault),
        }
    }
    Ok(verdicts)
}

impl<F: Folder, J: Store> Node<F, J> {
    /// Reads each file of a table to its end, shard by shard, and says of each whether it is as it must be, or the place
    /// of the first thing in it that isn't. Nothing is written. It takes the time of all the table's files.
    pub fn verify(&mut self, alloc: Global, name: &TableName) -> Result<List<Verdict>, Fault>
        ensures verifies { (session calls : ℕ) (clock : ℤ) → Moves (λ h after. Verifies h name.now result after)
            (⟦<Node<F, J> as Stored>⟧.state self.old session calls clock) (⟦<Node<F, J> as Stored>⟧.state self.new session calls clock)
            (⟦<Node<F, J> as Stored>⟧.disk self.old) (⟦<Node<F, J> as Stored>⟧.disk self.new) }
        ensures crash { (session calls : ℕ) (clock : ℤ) → KeepsAll (⟦<Node<F, J> as Stored>⟧.state self.old session calls clock)
            (⟦<Node<F, J> as Stored>⟧.state self.new session calls clock)
            (⟦<Node<F, J> as Stored>⟧.disk self.old) (⟦<Node<F, J> as Stored>⟧.disk self.new) }
        ensures tables { During SameTables (⟦<Node<F, J> as Stored>⟧.disk self.old) (⟦<Node<F, J> as Stored>⟧.disk self.new) }
        ensures lists { (session calls : ℕ) (clock : ℤ) → KeepsListing (⟦<Node<F, J> as Stored>⟧.state self.old session calls clock)
            (⟦<Node<F, J> as Stored>⟧.disk self.old) (⟦<Node<F, J> as Stored>⟧.disk self.new) }
        ensures numbers { (session calls : ℕ) (clock : ℤ) → NumbersOn (⟦<Node<F, J> as Stored>⟧.state self.old session calls clock)
            (⟦<Node<F, J> as Stored>⟧.state self.new session calls clock) }
        ensures told { IfErr result (λ f. (s t : State) → IsTrueOf (Err f) s t) }
        ensures room { self.new.room ≡ self.old.room }
        ensures limits { self.new.limits ≡ self.old.limits }
        ensures sessions { ⟦<Node<F, J> as Stored>⟧.sessions self.new ≡ ⟦<Node<F, J> as Stored>⟧.sessions self.old }
    {
        let table = match table_named(&self.tables, name) {
            Some(table) => table.number,
            None => return Err(Fault::Refused(Refusal::NoTable.number())),
        };
        match check_shards(alloc, &self.shards, table, &mut self.tally) {
            Ok(verdicts) => Ok(List::from_vec(verdicts)),
            Err(fault) => Err(fault),
        }
    }
}
