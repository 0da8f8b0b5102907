//! CREATE TABLE and ALTER TABLE: the manifest tells of the definition, and then it counts.

ghost use Rattle.std.specs.Prelude.{◌≡◌, ◌+◌, ◌++◌, ◌<◌, ◌≤◌, ℤ, pos, replicate, vec_capacity, vec_len, IfOk, OnOk};
ghost use Rattle.cas_disk.specs.Disk.{During};
ghost use Rattle.cas_changes.specs.declared.entry.Entry.TheVariants.{Schema, AddColumns};
ghost use Rattle.cas_journal.specs.Stores.{SameTables};
ghost use Rattle.define_laws.specs.Entries.{IsThere};
ghost use Rattle.cas_bind.specs.declared.bound.Bound.TheVariants as bounds;
ghost use Rattle.cas_lasting.specs.History.{Changes};
ghost use Rattle.cas_lasting.specs.Inner.Definitions.{MayBeTold};
ghost use Rattle.cas_sessions.specs.Inner.Faults.{IsOther};
ghost use Rattle.cas_sessions.specs.Calls.{IsTrueOf, reply_of};
ghost use Rattle.cas_lasting.specs.Listing.{KeepsListing};
ghost use Rattle.cas_lasting.specs.Numbering.{NumbersOn};
ghost use Rattle.cas_lasting.specs.Nodes.{Moves, CountsOn, KeepsAll};

use crate::answer::{Answer, Fault};
use crate::node::{Node, Session, Stored};
use crate::writing::fault_for;
use cas_changes::Entry;
use cas_define::Addition;
use cas_disk::Folder;
use cas_history::Store;
use cas_types::{Column, List, Mem, TableSchema};
use std::alloc::{AllocError, Global};

// The columns of a table with others behind them.
fn widened(columns: &List<Column>, added: &List<Column>) -> Result<List<Column>, Mem>
    ensures { IfOk result (λ all. all ≡ columns.now ++ added.now) }
{
    let mut all = columns.clone()?.into_vec();
    all.append(&mut added.clone()?.into_vec())?;
    Ok(List::from_vec(all))
}

// The table that an entry defines.
fn table_of(entry: Entry) -> TableSchema
    requires { (table : _) × (entry ≡ Schema table) }
    ensures { entry ≡ Schema result }
{
    match entry {
        Entry::Schema(table) => table,
        _ => unreachable!(),
    }
}

// Makes place for one table more, and for its frontiers in so many shards.
fn make_place(
    tables: &mut Vec<TableSchema>,
    frontiers: &mut Vec<u64>,
    shards: u8,
) -> Result<(), AllocError>
    ensures same { (tables.new.items ≡ tables.old.items) × (frontiers.new.items ≡ frontiers.old.items) }
    ensures place { OnOk result ((vec_len tables.new < vec_capacity tables.new) × (vec_len frontiers.new + shards ≤ vec_capacity frontiers.new)) }
{
    tables.reserve(1)?;
    frontiers.reserve(shards as usize)
}

// The frontiers of a new table in each of so many shards, for which there is place.
fn begin_frontiers(frontiers: &mut Vec<u64>, shards: u8)
    requires { vec_len frontiers.old + shards ≤ vec_capacity frontiers.old }
    ensures { frontiers.new.items ≡ frontiers.old.items ++ replicate shards 0 }
{
    for _shard in 0..shards {
        frontiers.push_reserved(0);
    }
}

impl<F: Folder, J: Store> Node<F, J> {
    /// Makes a table: it is there once its entry is in the manifest.
    pub(crate) fn create(
        &mut self,
        alloc: Global,
        session: &mut Session<J>,
        table: TableSchema,
    ) -> Result<Answer, Fault>
        requires told { MayBeTold self.old.tables.items (bounds.Create table) (Schema table) }
        ensures changes { (clock : ℤ) → Moves (λ h after. Changes h (Schema table) (bounds.Create table) (reply_of result) after)
            (⟦<Node<F, J> as Stored>⟧.state self.old session.old.seat.list session.old.seat.calls clock)
            (⟦<Node<F, J> as Stored>⟧.state self.new session.new.seat.list session.new.seat.calls clock)
            (⟦<Node<F, J> as Stored>⟧.disk self.old) (⟦<Node<F, J> as Stored>⟧.disk self.new) }
        ensures crash { (clock : ℤ) → KeepsAll (⟦<Node<F, J> as Stored>⟧.state self.old session.old.seat.list session.old.seat.calls clock)
            (⟦<Node<F, J> as Stored>⟧.state self.new session.new.seat.list session.new.seat.calls clock)
            (⟦<Node<F, J> as Stored>⟧.disk self.old) (⟦<Node<F, J> as Stored>⟧.disk self.new) }
        ensures tables { During SameTables (⟦<Node<F, J> as Stored>⟧.disk self.old) (⟦<Node<F, J> as Stored>⟧.disk self.new) }
        ensures lists { (clock : ℤ) → KeepsListing (⟦<Node<F, J> as Stored>⟧.state self.old session.old.seat.list session.old.seat.calls clock)
            (⟦<Node<F, J> as Stored>⟧.disk self.old) (⟦<Node<F, J> as Stored>⟧.disk self.new) }
        ensures numbers { (clock : ℤ) → NumbersOn (⟦<Node<F, J> as Stored>⟧.state self.old session.old.seat.list session.old.seat.calls clock)
            (⟦<Node<F, J> as Stored>⟧.state self.new session.new.seat.list session.new.seat.calls clock) }
        ensures told { IsTrueOf result (⟦<Node<F, J> as Stored>⟧.state self.old session.old.seat.list session.old.seat.calls (pos 0))
            (⟦<Node<F, J> as Stored>⟧.state self.new session.new.seat.list session.new.seat.calls (pos 0)) }
        ensures other { IfOk result IsOther }
        ensures counts { CountsOn (⟦<Node<F, J> as Stored>⟧.state self.old session.old.seat.list session.old.seat.calls (pos 0))
            (⟦<Node<F, J> as Stored>⟧.state self.new session.new.seat.list session.new.seat.calls (pos 0)) }
        ensures limits { self.new.limits ≡ self.old.limits }
        ensures sessions { ⟦<Node<F, J> as Stored>⟧.sessions self.new ≡ ⟦<Node<F, J> as Stored>⟧.sessions self.old }
    {
        let shards = self.limits.shards;
        if let Err(AllocError) = make_place(&mut self.tables, &mut self.frontiers, shards) {
            return Err(Fault::Mem);
        }
        let entry = Entry::Schema(table);
        if let Err(fault) = self.room.define(alloc, &mut session.seat, &entry) {
            return Err(fault_for(fault));
        }
        self.tables.push_reserved(table_of(entry));
        begin_frontiers(&mut self.frontiers, shards);
        Ok(Answer::Done)
    }

    /// Adds columns to a table: they are there once their entry is in the manifest.
    pub(crate) fn alter(
        &mut self,
        alloc: Global,
        session: &mut Session<J>,
        addition: Addition,
    ) -> Result<Answer, Fault>
        requires there { IsThere self.old.tables.items addition.table }
        requires told { MayBeTold self.old.tables.items (bounds.Alter addition) (AddColumns addition.table addition.columns) }
        ensures changes { (clock : ℤ)
            → Moves (λ h after. Changes h (AddColumns addition.table addition.columns) (bounds.Alter addition) (reply_of result) after)
            (⟦<Node<F, J> as Stored>⟧.state self.old session.old.seat.list session.old.seat.calls clock)
            (⟦<Node<F, J> as Stored>⟧.state self.new session.new.seat.list session.new.seat.calls clock)
            (⟦<Node<F, J> as Stored>⟧.disk self.old) (⟦<Node<F, J> as Stored>⟧.disk self.new) }
        ensures crash { (clock : ℤ) → KeepsAll (⟦<Node<F, J> as Stored>⟧.state self.old session.old.seat.list session.old.seat.calls clock)
            (⟦<Node<F, J> as Stored>⟧.state self.new session.new.seat.list session.new.seat.calls clock)
            (⟦<Node<F, J> as Stored>⟧.disk self.old) (⟦<Node<F, J> as Stored>⟧.disk self.new) }
        ensures tables { During SameTables (⟦<Node<F, J> as Stored>⟧.disk self.old) (⟦<Node<F, J> as Stored>⟧.disk self.new) }
        ensures lists { (clock : ℤ) → KeepsListing (⟦<Node<F, J> as Stored>⟧.state self.old session.old.seat.list session.old.seat.calls clock)
            (⟦<Node<F, J> as Stored>⟧.disk self.old) (⟦<Node<F, J> as Stored>⟧.disk self.new) }
        ensures numbers { (clock : ℤ) → NumbersOn (⟦<Node<F, J> as Stored>⟧.state self.old session.old.seat.list session.old.seat.calls clock)
            (⟦<Node<F, J> as Stored>⟧.state self.new session.new.seat.list session.new.seat.calls clock) }
        ensures told { IsTrueOf result (⟦<Node<F, J> as Stored>⟧.state self.old session.old.seat.list session.old.seat.calls (pos 0))
            (⟦<Node<F, J> as Stored>⟧.state self.new session.new.seat.list session.new.seat.calls (pos 0)) }
        ensures other { IfOk result IsOther }
        ensures counts { CountsOn (⟦<Node<F, J> as Stored>⟧.state self.old session.old.seat.list session.old.seat.calls (pos 0))
            (⟦<Node<F, J> as Stored>⟧.state self.new session.new.seat.list session.new.seat.calls (pos 0)) }
        ensures limits { self.new.limits ≡ self.old.limits }
        ensures sessions { ⟦<Node<F, J> as Stored>⟧.sessions self.new ≡ ⟦<Node<F, J> as Stored>⟧.sessions self.old }
    {
        let Addition { table, columns } = addition;
        let place = table as usize;
        let widened = match widened(&self.tables[place].columns, &columns) {
            Ok(columns) => columns,
            Err(Mem) => return Err(Fault::Mem),
        };
        let entry = Entry::AddColumns { table, columns };
        if let Err(fault) = self.room.define(alloc, &mut session.seat, &entry) {
            return Err(fault_for(fault));
        }
        self.tables[place].columns = widened;
        Ok(Answer::Done)
    }
}
