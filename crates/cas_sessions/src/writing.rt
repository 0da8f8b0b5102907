//! Writes: a mutation is prepared in its shard, accepted by the room, entered, and committed.

ghost use Rattle.std.specs.Prelude.{◌≡◌, ℤ, pos, IfOk, Ok as OkOf};
ghost use Rattle.cas_disk.specs.Disk.{During};
ghost use Rattle.cas_bind.specs.Fitting.{BoundFits};
ghost use Rattle.cas_bind.specs.Tables.{IsWithin};
ghost use Rattle.cas_bind.specs.declared.bound.Bound.TheVariants as bounds;
ghost use Rattle.cas_journal.specs.Stores.{SameTables};
ghost use Rattle.cas_shard.specs.Shards.{IsTime};
ghost use Rattle.cas_lasting.specs.History.{WritesAt};
ghost use Rattle.cas_sessions.specs.Calls.{IsTrueOf, TellsPlace, reply_of};
ghost use Rattle.cas_lasting.specs.Listing.{KeepsListing};
ghost use Rattle.cas_lasting.specs.Numbering.{NumbersOn};
ghost use Rattle.cas_lasting.specs.Nodes.{Moves, IsFew, CountsOn, KeepsAll};
ghost use Rattle.cas_sessions.specs.Inner.Faults.{fault_for};

use crate::answer::{Answer, Fault};
use crate::node::{Node, Session, Stored};
use cas_atoms::Mutation;
use cas_disk::Folder;
use cas_effects::{BoundWrite, TOO_LARGE, TOO_MANY};
use cas_history::Store;
use cas_journal::JournalFault;
use cas_shard::TakeFault;
use std::alloc::Global;

/// What a fault of the room answers a write or a definition with.
pub(crate) fn fault_for(fault: JournalFault) -> Fault
    ensures { result ≡ fault_for fault }
{
    match fault {
        JournalFault::TooLarge { .. } => Fault::Refused(TOO_LARGE),
        JournalFault::TooMany { .. } => Fault::Refused(TOO_MANY),
        JournalFault::Stopped(first) => Fault::Stopped(first),
        JournalFault::Failed => Fault::Disk { number: None },
        JournalFault::Mem => Fault::Mem,
    }
}

impl<F: Folder, J: Store> Node<F, J> {
    /// Takes the mutation of a write, or refuses it: it answers Ok once it is committed. The shard's moment rises also
    /// where it is refused and where memory runs out; all else then stays. It takes the time of the
    /// write's atoms, for each the logarithm of what its partition holds, and four calls of the folder.
    pub(crate) fn write(
        &mut self,
        alloc: Global,
        session: &mut Session<J>,
        reading: i64,
        write: BoundWrite,
    ) -> Result<Answer, Fault>
        requires time { IsTime reading }
        requires few { IsFew (⟦<Node<F, J> as Stored>⟧.state self.old session.old.seat.list session.old.seat.calls (pos 0)) }
        requires within { IsWithin self.old.limits.shards (bounds.Write write) }
        requires fits { BoundFits self.old.limits.shards self.old.tables.items (bounds.Write write) }
        ensures writes { (clock : ℤ) → Moves (λ h after. WritesAt h reading write (reply_of result) after)
            (⟦<Node<F, J> as Stored>⟧.state self.old session.old.seat.list session.old.seat.calls clock)
            (⟦<Node<F, J> as Stored>⟧.state self.new session.new.seat.list session.new.seat.calls clock)
            (⟦<Node<F, J> as Stored>⟧.disk self.old) (⟦<Node<F, J> as Stored>⟧.disk self.new) }
        ensures crash { (clock : ℤ) → KeepsAll (⟦<Node<F, J> as Stored>⟧.state self.old session.old.seat.list session.old.seat.calls clock)
            (⟦<Node<F, J> as Stored>⟧.state self.new session.new.seat.list session.new.seat.calls clock)
            (⟦<Node<F, J> as Stored>⟧.disk self.old) (⟦<Node<F, J> as Stored>⟧.disk self.new) }
        ensures tables { During SameTables (⟦<Node<F, J> as Stored>⟧.disk self.old) (⟦<Node<F, J> as Stored>⟧.disk self.new) }
        ensures lists { (clock : ℤ) → KeepsListing (⟦<Node<F, J> as Stored>⟧.state self.old session.old.seat.list session.old.seat.calls clock)
            (⟦<Node<F, J> as Stored>⟧.disk self.old) (⟦<Node<F, J> as Stored>⟧.disk self.new) }
        ensures numbers { (clock : ℤ) → NumbersOn (⟦<Node<F, J> as Stored>⟧.state self.old session.old.seat.list session.old.seat.calls clock)
            (⟦<Node<F, J> as Stored>⟧.state self.new session.new.seat.list session.new.seat.calls clock) }
        ensures told { IsTrueOf result (⟦<Node<F, J> as Stored>⟧.state self.old session.old.seat.list session.old.seat.calls (pos 0))
            (⟦<Node<F, J> as Stored>⟧.state self.new session.new.seat.list session.new.seat.calls (pos 0)) }
        ensures place { IfOk result (λ a. TellsPlace a (OkOf (bounds.Write write))) }
        ensures counts { CountsOn (⟦<Node<F, J> as Stored>⟧.state self.old session.old.seat.list session.old.seat.calls (pos 0))
            (⟦<Node<F, J> as Stored>⟧.state self.new session.new.seat.list session.new.seat.calls (pos 0)) }
        ensures limits { self.new.limits ≡ self.old.limits }
        ensures sessions { ⟦<Node<F, J> as Stored>⟧.sessions self.new ≡ ⟦<Node<F, J> as Stored>⟧.sessions self.old }
    {
        let table = write.table;
        let shard = write.shard;
        let place = shard as usize;
        let segment = self.limits.segment;
        let mutation = match self.shards[place].prepare(alloc, segment, reading, write) {
            Ok(mutation) => mutation,
            Err(TakeFault::Refused(refused)) => return Err(Fault::Refused(refused)),
            Err(TakeFault::Mem) => return Err(Fault::Mem),
        };
        let front = &mut self.fronts[place];
        let number = match self.room.accept(alloc, &mut session.seat, front, &mutation) {
            Ok(number) => number,
            Err(fault) => return Err(fault_for(fault)),
        };
        self.shards[place].enter(mutation);
        match self.room.commit(&mut session.seat) {
            Ok(()) => Ok(Answer::Wrote {
                number,
                table,
                shard,
            }),
            Err(_) => Err(Fault::Disk {
                number: Some(number),
            }),
        }
    }
}
