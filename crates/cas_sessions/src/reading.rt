//! SELECTs: a shard's rows at a moment.

ghost use Rattle.std.specs.Prelude.{◌≡◌, ℕ, ℤ, IfOk};
ghost use Rattle.cas_disk.specs.Disk.{During};
ghost use Rattle.cas_bind.specs.Fitting.{BoundFits};
ghost use Rattle.cas_bind.specs.Tables.{IsWithin};
ghost use Rattle.cas_bind.specs.declared.bound.Bound.TheVariants as bounds;
ghost use Rattle.cas_journal.specs.Stores.{SameTables};
ghost use Rattle.cas_shard.specs.Shards.{IsTime};
ghost use Rattle.cas_lasting.specs.History.{ReadsAt};
ghost use Rattle.cas_sessions.specs.Calls.{IsTrueOf, reply_of};
ghost use Rattle.cas_lasting.specs.Listing.{KeepsListing};
ghost use Rattle.cas_lasting.specs.Numbering.{NumbersOn};
ghost use Rattle.cas_lasting.specs.Nodes.{Moves, State};
ghost use Rattle.cas_sessions.specs.Inner.Faults.{IsOther, fault_of_table};

use crate::answer::{Answer, Fault};
use crate::node::{Node, Stored};
use cas_bind::BoundRead;
use cas_blocks::TableFault;
use cas_disk::Folder;
use cas_history::Store;
use std::alloc::Global;

// Why nothing of a SELECT is shown.
fn fault_of_table(fault: TableFault) -> Fault
    ensures { result ≡ fault_of_table fault }
{
    match fault {
        TableFault::Read => Fault::Read,
        TableFault::BadBlock { number, at } => Fault::BadBlock { number, at },
        TableFault::Mem => Fault::Mem,
    }
}

impl<F: Folder, J: Store> Node<F, J> {
    /// Shows the rows of a SELECT. The shard's moment rises also where a read of a table file fails, a file isn't as it
    /// must be, or memory runs out. It reads what the slice needs of its partition, whatever else the shard holds.
    pub(crate) fn read(
        &mut self,
        alloc: Global,
        reading: i64,
        read: BoundRead,
    ) -> Result<Answer, Fault>
        requires time { IsTime reading }
        requires within { IsWithin self.old.limits.shards (bounds.Read read) }
        requires fits { BoundFits self.old.limits.shards self.old.tables.items (bounds.Read read) }
        ensures other { IfOk result IsOther }
        ensures shows { (session calls : ℕ) (clock : ℤ) → Moves (λ h after. ReadsAt h reading read (reply_of result) after)
            (⟦<Node<F, J> as Stored>⟧.state self.old session calls clock) (⟦<Node<F, J> as Stored>⟧.state self.new session calls clock)
            (⟦<Node<F, J> as Stored>⟧.disk self.old) (⟦<Node<F, J> as Stored>⟧.disk self.new) }
        ensures tables { During SameTables (⟦<Node<F, J> as Stored>⟧.disk self.old) (⟦<Node<F, J> as Stored>⟧.disk self.new) }
        ensures lists { (session calls : ℕ) (clock : ℤ) → KeepsListing (⟦<Node<F, J> as Stored>⟧.state self.old session calls clock)
            (⟦<Node<F, J> as Stored>⟧.disk self.old) (⟦<Node<F, J> as Stored>⟧.disk self.new) }
        ensures numbers { (session calls : ℕ) (clock : ℤ) → NumbersOn (⟦<Node<F, J> as Stored>⟧.state self.old session calls clock)
            (⟦<Node<F, J> as Stored>⟧.state self.new session calls clock) }
        ensures told { (s t : State) → IsTrueOf result s t }
        ensures room { self.new.room ≡ self.old.room }
        ensures limits { self.new.limits ≡ self.old.limits }
        ensures sessions { ⟦<Node<F, J> as Stored>⟧.sessions self.new ≡ ⟦<Node<F, J> as Stored>⟧.sessions self.old }
    {
        let BoundRead { shard, query } = read;
        match self.shards[shard as usize].look(alloc, reading, query, &mut self.tally) {
            Ok(look) => Ok(Answer::Rows {
                rows: look.rows,
                shard,
                front: look.front,
                now: look.now,
            }),
            Err(fault) => Err(fault_of_table(fault)),
        }
    }
}
