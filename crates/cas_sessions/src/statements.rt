//! What a statement does with an open store.

ghost use Rattle.std.specs.Prelude.{◌≡◌, ℤ, pos, true, false, IfOk, Ok as OkOf};
ghost use Rattle.cas_types.specs.Limits.{IsMoment};
ghost use Rattle.cas_disk.specs.Disk.{During};
ghost use Rattle.cas_bind.specs.Fitting.{BoundFits};
ghost use Rattle.cas_bind.specs.Meaning.{meaning};
ghost use Rattle.cas_bind.specs.Tables.{IsWithin};
ghost use Rattle.cas_journal.specs.Stores.{SameTables};
ghost use Rattle.cas_shard.specs.Shards.{IsTime};
ghost use Rattle.cas_words.specs.declared.words.ClockKind.TheVariants as clocks;
ghost use Rattle.cas_sessions.specs.Calls.{IsSpelled, IsTrueOf, Performs, StandsAt, TellsPlace, reply_of};
ghost use Rattle.cas_lasting.specs.History.{Does, IsReading, clamped};
ghost use Rattle.cas_lasting.specs.Listing.{KeepsListing};
ghost use Rattle.cas_lasting.specs.Numbering.{NumbersOn};
ghost use Rattle.cas_lasting.specs.Nodes.{CountsOn, IsFew, KeepsAll, Moves, OrWant};
ghost use Rattle.cas_lasting.specs.Inner.Definitions.{IsTold};

use crate::answer::{Answer, Fault};
use crate::node::{Node, Session, Stored};
use crate::texts::statement_of;
use cas_bind::{Bound, bind};
use cas_disk::Folder;
use cas_effects::BindFault;
use cas_history::Store;
use cas_io::{Clock, ManualClock};
use cas_types::LAST_MICROSECOND;
use cas_words::ClockKind;
use cql_parse::Statement;
use std::alloc::Global;

/// What a store is asked through: which clock it has, and where it reads the system's.
#[derive(Drop)]
pub struct Ask<'a, C> {
    pub kind: ClockKind,
    pub clock: &'a C,
}

fn clamped(raw: i64) -> i64
    ensures value { result ≡ clamped raw }
    ensures time { IsTime result }
{
    raw.max(0).min(LAST_MICROSECOND)
}

// A reading of the clock, where the manual one was set to so many seconds.
fn reading<C: Clock>(ask: &Ask<'_, C>, seconds: i64) -> i64
    requires { IsMoment seconds }
    ensures given { IsReading ask.now.kind (C.may_give ask.now.clock.now) seconds result }
    ensures time { IsTime result }
{
    match ask.kind {
        ClockKind::Manual => seconds * 1_000_000,
        ClockKind::System => clamped(ask.clock.read()),
    }
}

impl<F: Folder, J: Store> Node<F, J> {
    fn perform<C: Clock>(
        &mut self,
        alloc: Global,
        session: &mut Session<J>,
        ask: &Ask<'_, C>,
        seconds: i64,
        bound: Bound,
    ) -> Result<Answer, Fault>
        requires moment { IsMoment seconds }
        requires few { IsFew (⟦<Node<F, J> as Stored>⟧.state self.old session.old.seat.list session.old.seat.calls (pos 0)) }
        requires within { IsWithin self.old.limits.shards bound }
        requires fits { BoundFits self.old.limits.shards self.old.tables.items bound }
        requires told { IsTold self.old.tables.items bound }
        ensures does { (at : ℤ) → StandsAt ask.now.kind seconds at
            → Moves (λ h after. Does ask.now.kind (C.may_give ask.now.clock.now) h (OkOf bound) (reply_of result) after)
            (⟦<Node<F, J> as Stored>⟧.state self.old session.old.seat.list session.old.seat.calls at)
            (⟦<Node<F, J> as Stored>⟧.state self.new session.new.seat.list session.new.seat.calls at)
            (⟦<Node<F, J> as Stored>⟧.disk self.old) (⟦<Node<F, J> as Stored>⟧.disk self.new) }
        ensures crash { (at : ℤ) → KeepsAll (⟦<Node<F, J> as Stored>⟧.state self.old session.old.seat.list session.old.seat.calls at)
            (⟦<Node<F, J> as Stored>⟧.state self.new session.new.seat.list session.new.seat.calls at)
            (⟦<Node<F, J> as Stored>⟧.disk self.old) (⟦<Node<F, J> as Stored>⟧.disk self.new) }
        ensures tables { During SameTables (⟦<Node<F, J> as Stored>⟧.disk self.old) (⟦<Node<F, J> as Stored>⟧.disk self.new) }
        ensures lists { (at : ℤ) → KeepsListing (⟦<Node<F, J> as Stored>⟧.state self.old session.old.seat.list session.old.seat.calls at)
            (⟦<Node<F, J> as Stored>⟧.disk self.old) (⟦<Node<F, J> as Stored>⟧.disk self.new) }
        ensures numbers { (at : ℤ) → NumbersOn (⟦<Node<F, J> as Stored>⟧.state self.old session.old.seat.list session.old.seat.calls at)
            (⟦<Node<F, J> as Stored>⟧.state self.new session.new.seat.list session.new.seat.calls at) }
        ensures told { IsTrueOf result (⟦<Node<F, J> as Stored>⟧.state self.old session.old.seat.list session.old.seat.calls (pos 0))
            (⟦<Node<F, J> as Stored>⟧.state self.new session.new.seat.list session.new.seat.calls (pos 0)) }
        ensures place { IfOk result (λ a. TellsPlace a (OkOf bound)) }
        ensures counts { CountsOn (⟦<Node<F, J> as Stored>⟧.state self.old session.old.seat.list session.old.seat.calls (pos 0))
            (⟦<Node<F, J> as Stored>⟧.state self.new session.new.seat.list session.new.seat.calls (pos 0)) }
        ensures limits { self.new.limits ≡ self.old.limits }
        ensures sessions { ⟦<Node<F, J> as Stored>⟧.sessions self.new ≡ ⟦<Node<F, J> as Stored>⟧.sessions self.old }
    {
        match bound {
            Bound::Create(table) => self.create(alloc, session, table),
            Bound::Alter(addition) => self.alter(alloc, session, addition),
            Bound::Write(write) => {
                let reading = reading(ask, seconds);
                self.write(alloc, session, reading, write)
            }
            Bound::Read(read) => {
                let reading = reading(ask, seconds);
                self.read(alloc, reading, read)
            }
        }
    }

    /// Performs a statement, where the manual clock was set to so many seconds.
    pub fn answer<C: Clock>(
        &mut self,
        alloc: Global,
        session: &mut Session<J>,
        ask: &Ask<'_, C>,
        seconds: i64,
        statement: &Statement,
    ) -> Result<Answer, Fault>
        requires moment { IsMoment seconds }
        requires few { IsFew (⟦<Node<F, J> as Stored>⟧.state self.old session.old.seat.list session.old.seat.calls (pos 0)) }
        requires spelled { IsSpelled statement.now }
        ensures does { (at : ℤ) → StandsAt ask.now.kind seconds at
            → Moves (λ h after. OrWant (reply_of result) (λ h after. Does ask.now.kind (C.may_give ask.now.clock.now) h
            (meaning self.old.limits.shards self.old.tables.items statement.now) (reply_of result) after) h after)
            (⟦<Node<F, J> as Stored>⟧.state self.old session.old.seat.list session.old.seat.calls at)
            (⟦<Node<F, J> as Stored>⟧.state self.new session.new.seat.list session.new.seat.calls at)
            (⟦<Node<F, J> as Stored>⟧.disk self.old) (⟦<Node<F, J> as Stored>⟧.disk self.new) }
        ensures crash { (at : ℤ) → KeepsAll (⟦<Node<F, J> as Stored>⟧.state self.old session.old.seat.list session.old.seat.calls at)
            (⟦<Node<F, J> as Stored>⟧.state self.new session.new.seat.list session.new.seat.calls at)
            (⟦<Node<F, J> as Stored>⟧.disk self.old) (⟦<Node<F, J> as Stored>⟧.disk self.new) }
        ensures tables { During SameTables (⟦<Node<F, J> as Stored>⟧.disk self.old) (⟦<Node<F, J> as Stored>⟧.disk self.new) }
        ensures lists { (at : ℤ) → KeepsListing (⟦<Node<F, J> as Stored>⟧.state self.old session.old.seat.list session.old.seat.calls at)
            (⟦<Node<F, J> as Stored>⟧.disk self.old) (⟦<Node<F, J> as Stored>⟧.disk self.new) }
        ensures numbers { (at : ℤ) → NumbersOn (⟦<Node<F, J> as Stored>⟧.state self.old session.old.seat.list session.old.seat.calls at)
            (⟦<Node<F, J> as Stored>⟧.state self.new session.new.seat.list session.new.seat.calls at) }
        ensures told { IsTrueOf result (⟦<Node<F, J> as Stored>⟧.state self.old session.old.seat.list session.old.seat.calls (pos 0))
            (⟦<Node<F, J> as Stored>⟧.state self.new session.new.seat.list session.new.seat.calls (pos 0)) }
        ensures place { IfOk result (λ a. TellsPlace a (meaning self.old.limits.shards self.old.tables.items statement.now)) }
        ensures counts { CountsOn (⟦<Node<F, J> as Stored>⟧.state self.old session.old.seat.list session.old.seat.calls (pos 0))
            (⟦<Node<F, J> as Stored>⟧.state self.new session.new.seat.list session.new.seat.calls (pos 0)) }
        ensures limits { self.new.limits ≡ self.old.limits }
        ensures sessions { ⟦<Node<F, J> as Stored>⟧.sessions self.new ≡ ⟦<Node<F, J> as Stored>⟧.sessions self.old }
    {
        match bind(alloc, &self.tables, statement, &self.limits) {
            Ok(bound) => self.perform(alloc, session, ask, seconds, bound),
            Err(BindFault::Refused(refusal)) => Err(Fault::Refused(refusal.number())),
            Err(BindFault::Mem) => Err(Fault::Mem),
        }
    }

    // Performs a text, where it is a statement of that kind.
    fn answer_text<C: Clock>(
        &mut self,
        alloc: Global,
        session: &mut Session<J>,
        clock: &C,
        text: &str,
        defines: bool,
    ) -> Result<Answer, Fault>
        requires few { IsFew (⟦<Node<F, J> as Stored>⟧.state self.old session.old.seat.list session.old.seat.calls (pos 0)) }
        ensures performs { (at : ℤ) → Moves (Performs defines (C.may_give clock.now) text.now (reply_of result))
            (⟦<Node<F, J> as Stored>⟧.state self.old session.old.seat.list session.old.seat.calls at)
            (⟦<Node<F, J> as Stored>⟧.state self.new session.new.seat.list session.new.seat.calls at)
            (⟦<Node<F, J> as Stored>⟧.disk self.old) (⟦<Node<F, J> as Stored>⟧.disk self.new) }
        ensures crash { (at : ℤ) → KeepsAll (⟦<Node<F, J> as Stored>⟧.state self.old session.old.seat.list session.old.seat.calls at)
            (⟦<Node<F, J> as Stored>⟧.state self.new session.new.seat.list session.new.seat.calls at)
            (⟦<Node<F, J> as Stored>⟧.disk self.old) (⟦<Node<F, J> as Stored>⟧.disk self.new) }
        ensures tables { During SameTables (⟦<Node<F, J> as Stored>⟧.disk self.old) (⟦<Node<F, J> as Stored>⟧.disk self.new) }
        ensures lists { (at : ℤ) → KeepsListing (⟦<Node<F, J> as Stored>⟧.state self.old session.old.seat.list session.old.seat.calls at)
            (⟦<Node<F, J> as Stored>⟧.disk self.old) (⟦<Node<F, J> as Stored>⟧.disk self.new) }
        ensures numbers { (at : ℤ) → NumbersOn (⟦<Node<F, J> as Stored>⟧.state self.old session.old.seat.list session.old.seat.calls at)
            (⟦<Node<F, J> as Stored>⟧.state self.new session.new.seat.list session.new.seat.calls at) }
        ensures told { IsTrueOf result (⟦<Node<F, J> as Stored>⟧.state self.old session.old.seat.list session.old.seat.calls (pos 0))
            (⟦<Node<F, J> as Stored>⟧.state self.new session.new.seat.list session.new.seat.calls (pos 0)) }
        ensures counts { CountsOn (⟦<Node<F, J> as Stored>⟧.state self.old session.old.seat.list session.old.seat.calls (pos 0))
            (⟦<Node<F, J> as Stored>⟧.state self.new session.new.seat.list session.new.seat.calls (pos 0)) }
        ensures limits { self.new.limits ≡ self.old.limits }
        ensures sessions { ⟦<Node<F, J> as Stored>⟧.sessions self.new ≡ ⟦<Node<F, J> as Stored>⟧.sessions self.old }
    {
        match statement_of(alloc, text, defines) {
            Ok(statement) => {
                let ask = Ask {
                    kind: ClockKind::System,
                    clock,
                };
                self.answer(alloc, session, &ask, 0, &statement)
            }
            Err(fault) => Err(fault),
        }
    }

    /// Performs an INSERT, UPDATE, DELETE or SELECT. The clock is read once, for a mutation or the moment of a
    /// SELECT.
    pub fn execute<C: Clock>(
        &mut self,
        alloc: Global,
        session: &mut Session<J>,
        clock: &C,
        text: &str,
    ) -> Result<Answer, Fault>
        requires few { IsFew (⟦<Node<F, J> as Stored>⟧.state self.old session.old.seat.list session.old.seat.calls (pos 0)) }
        ensures performs { (at : ℤ) → Moves (Performs false (C.may_give clock.now) text.now (reply_of result))
            (⟦<Node<F, J> as Stored>⟧.state self.old session.old.seat.list session.old.seat.calls at)
            (⟦<Node<F, J> as Stored>⟧.state self.new session.new.seat.list session.new.seat.calls at)
            (⟦<Node<F, J> as Stored>⟧.disk self.old) (⟦<Node<F, J> as Stored>⟧.disk self.new) }
        ensures crash { (at : ℤ) → KeepsAll (⟦<Node<F, J> as Stored>⟧.state self.old session.old.seat.list session.old.seat.calls at)
            (⟦<Node<F, J> as Stored>⟧.state self.new session.new.seat.list session.new.seat.calls at)
            (⟦<Node<F, J> as Stored>⟧.disk self.old) (⟦<Node<F, J> as Stored>⟧.disk self.new) }
        ensures tables { During SameTables (⟦<Node<F, J> as Stored>⟧.disk self.old) (⟦<Node<F, J> as Stored>⟧.disk self.new) }
        ensures lists { (at : ℤ) → KeepsListing (⟦<Node<F, J> as Stored>⟧.state self.old session.old.seat.list session.old.seat.calls at)
            (⟦<Node<F, J> as Stored>⟧.disk self.old) (⟦<Node<F, J> as Stored>⟧.disk self.new) }
        ensures numbers { (at : ℤ) → NumbersOn (⟦<Node<F, J> as Stored>⟧.state self.old session.old.seat.list session.old.seat.calls at)
            (⟦<Node<F, J> as Stored>⟧.state self.new session.new.seat.list session.new.seat.calls at) }
        ensures told { IsTrueOf result (⟦<Node<F, J> as Stored>⟧.state self.old session.old.seat.list session.old.seat.calls (pos 0))
            (⟦<Node<F, J> as Stored>⟧.state self.new session.new.seat.list session.new.seat.calls (pos 0)) }
        ensures counts { CountsOn (⟦<Node<F, J> as Stored>⟧.state self.old session.old.seat.list session.old.seat.calls (pos 0))
            (⟦<Node<F, J> as Stored>⟧.state self.new session.new.seat.list session.new.seat.calls (pos 0)) }
        ensures sessions { ⟦<Node<F, J> as Stored>⟧.sessions self.new ≡ ⟦<Node<F, J> as Stored>⟧.sessions self.old }
    {
        self.answer_text(alloc, session, clock, text, false)
    }

    /// Performs a CREATE TABLE or an ALTER TABLE.
    pub fn define(
        &mut self,
        alloc: Global,
        session: &mut Session<J>,
        text: &str,
    ) -> Result<Answer, Fault>
        requires few { IsFew (⟦<Node<F, J> as Stored>⟧.state self.old session.old.seat.list session.old.seat.calls (pos 0)) }
        ensures performs { (at : ℤ) → Moves (Performs true (λ reading. reading ≡ pos 0) text.now (reply_of result))
            (⟦<Node<F, J> as Stored>⟧.state self.old session.old.seat.list session.old.seat.calls at)
            (⟦<Node<F, J> as Stored>⟧.state self.new session.new.seat.list session.new.seat.calls at)
            (⟦<Node<F, J> as Stored>⟧.disk self.old) (⟦<Node<F, J> as Stored>⟧.disk self.new) }
        ensures crash { (at : ℤ) → KeepsAll (⟦<Node<F, J> as Stored>⟧.state self.old session.old.seat.list session.old.seat.calls at)
            (⟦<Node<F, J> as Stored>⟧.state self.new session.new.seat.list session.new.seat.calls at)
            (⟦<Node<F, J> as Stored>⟧.disk self.old) (⟦<Node<F, J> as Stored>⟧.disk self.new) }
        ensures tables { During SameTables (⟦<Node<F, J> as Stored>⟧.disk self.old) (⟦<Node<F, J> as Stored>⟧.disk self.new) }
        ensures lists { (at : ℤ) → KeepsListing (⟦<Node<F, J> as Stored>⟧.state self.old session.old.seat.list session.old.seat.calls at)
            (⟦<Node<F, J> as Stored>⟧.disk self.old) (⟦<Node<F, J> as Stored>⟧.disk self.new) }
        ensures numbers { (at : ℤ) → NumbersOn (⟦<Node<F, J> as Stored>⟧.state self.old session.old.seat.list session.old.seat.calls at)
            (⟦<Node<F, J> as Stored>⟧.state self.new session.new.seat.list session.new.seat.calls at) }
        ensures told { IsTrueOf result (⟦<Node<F, J> as Stored>⟧.state self.old session.old.seat.list session.old.seat.calls (pos 0))
            (⟦<Node<F, J> as Stored>⟧.state self.new session.new.seat.list session.new.seat.calls (pos 0)) }
        ensures counts { CountsOn (⟦<Node<F, J> as Stored>⟧.state self.old session.old.seat.list session.old.seat.calls (pos 0))
            (⟦<Node<F, J> as Stored>⟧.state self.new session.new.seat.list session.new.seat.calls (pos 0)) }
        ensures sessions { ⟦<Node<F, J> as Stored>⟧.sessions self.new ≡ ⟦<Node<F, J> as Stored>⟧.sessions self.old }
    {
        self.answer_text(alloc, session, &ManualClock { reading: 0 }, text, true)
    }
}
