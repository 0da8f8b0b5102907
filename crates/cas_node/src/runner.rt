//! What each line of a script does with an open store.

ghost use Rattle.std.specs.Prelude.{◌≡◌, ◌⊎◌, ◌<◌, ◌||◌, IfSome, false, length, List as ListOf, Ok as OkOf, Result as ResultOf};
ghost use Rattle.cas_types.specs.Limits.{IsMoment};
ghost use Rattle.cas_disk.specs.Disk.{Disk, During};
ghost use Rattle.cas_lines.specs.Lines.{Says};
ghost use Rattle.cas_node.specs.Inner.Serving.{HasRoomFor, KeepsCounts, Knows, ListsIf, MovesIf, PerformsRoomily, PerformsSo, SettledFor, place_of};
ghost use Rattle.cas_node.specs.Lines.{Answers, DropsBehind, FlushesAndDrops, FlushesNone, SetsClock, is_want, lists_any, lists_one, reply_of_verify};
ghost use Rattle.cas_sessions.specs.Calls.{IsSpelled};
ghost use Rattle.cas_sessions.specs.declared.answer.Fault.{Fault as FaultOf};
ghost use Rattle.cas_lasting.specs.Listing.{KeepsListing, SameUpTo};
ghost use Rattle.cas_lasting.specs.Nodes.{CountsOn, IsFew, Moves, OrWant, StandsFor, State};
ghost use Rattle.cas_lasting.specs.Status.{status};
ghost use Rattle.cas_sessions.specs.Verifying.{Verifies};
ghost use Rattle.cas_lasting.specs.History.{History};
ghost use Rattle.cas_render.specs.declared.reply.Reply.TheVariants as replies;
ghost use Rattle.cas_render.specs.declared.reply.Verdict.{Verdict};

use crate::upshot::{Upshot, replied};
use cas_disk::Folder;
use cas_effects::{NOT_HERE, SYNTAX};
use cas_history::Store;
use cas_io::Clock;
use cas_lines::{Line, read_line};
use cas_render::{Failure, Reply};
use cas_sessions::{Answer, Ask, Fault, Node, Session, Stored, reply_of};
use cas_types::{List, Mem};
use cas_words::ClockKind;
use cql_parse::{Statement, TableName};
use std::alloc::Global;

// The table and the shard of a mutation that was accepted.
fn place_of(answer: &Result<Answer, Fault>) -> Option<(u16, u8)>
    ensures { result ≡ place_of answer.now }
{
    match answer {
        Ok(Answer::Wrote { table, shard, .. }) => Some((*table, *shard)),
        _ => None,
    }
}

// Whether memory ran out for a call.
fn is_want<T>(told: &Result<T, Fault>) -> bool
    ensures { result ≡ is_want told.now }
{
    match told {
        Err(Fault::Mem) => true,
        _ => false,
    }
}

// Whether a flush of a memtable listed a file.
fn lists_one(told: &Result<Option<u64>, Fault>) -> bool
    ensures { result ≡ lists_one told.now }
{
    match told {
        Ok(Some(_)) => true,
        _ => false,
    }
}

// Whether a flush of a table that gave these numbers listed a file.
#[tactic(auto, using(crate::proofs::Answered::listed_any))]
fn lists_any(numbers: &[u64]) -> bool
    ensures { result ≡ lists_any (OkOf numbers.now) }
{
    !numbers.is_empty()
}

// Whether memory ran out for one of the two.
fn either(one: bool, other: bool) -> bool
    ensures { result ≡ one || other }
{
    one || other
}

/// What contracts see of a runner.
pub(crate) trait Running {
    // The store that it runs lines in, as its session has it.
    ghost state: { Self → State };

    // What is known of the store's folder.
    ghost disk: { Self → Disk };
}

/// What runs the lines of a script: the store, its session there, and the seconds that the last `\clock` set.
pub(crate) struct Runner<F: Folder, J: Store> {
    pub node: Node<F, J>,
    pub session: Session<J>,
    pub seconds: i64,
    ghost moment: { IsMoment seconds },
}

impl<F: Folder, J: Store> Running for Runner<F, J> {
    ghost state = { λ r. ⟦<Node<F, J> as Stored>⟧.state r.node r.session.seat.list r.session.seat.calls r.seconds };

    ghost disk = { λ r. ⟦<Node<F, J> as Stored>⟧.disk r.node };
}

impl<F: Folder, J: Store> Runner<F, J> {
    fn set_clock(&mut self, kind: ClockKind, seconds: i64) -> Reply
        requires moment { IsMoment seconds }
        ensures sets { Moves (λ h after. SetsClock kind h seconds result after)
            (⟦<Runner<F, J> as Running>⟧.state self.old) (⟦<Runner<F, J> as Running>⟧.state self.new)
            (⟦<Runner<F, J> as Running>⟧.disk self.old) (⟦<Runner<F, J> as Running>⟧.disk self.new) }
        ensures tables { During (SameUpTo (⟦<Runner<F, J> as Running>⟧.state self.old).last_file)
            (⟦<Runner<F, J> as Running>⟧.disk self.old) (⟦<Runner<F, J> as Running>⟧.disk self.new) }
        ensures lists { KeepsListing (⟦<Runner<F, J> as Running>⟧.state self.old)
            (⟦<Runner<F, J> as Running>⟧.disk self.old) (⟦<Runner<F, J> as Running>⟧.disk self.new) }
        ensures counts { CountsOn (⟦<Runner<F, J> as Running>⟧.state self.old) (⟦<Runner<F, J> as Running>⟧.state self.new) }
    {
        match kind {
            ClockKind::Manual => {
                self.seconds = seconds;
                Reply::Done
            }
            ClockKind::System => Reply::Refused(NOT_HERE),
        }
    }

    // Drops segments behind a flush that listed a file, and says whether memory ran out for that.
    fn drop_behind(&mut self, alloc: Global, listed: bool) -> bool
        ensures drops { Moves (λ h after. DropsBehind listed result h after)
            (⟦<Runner<F, J> as Running>⟧.state self.old) (⟦<Runner<F, J> as Running>⟧.state self.new)
            (⟦<Runner<F, J> as Running>⟧.disk self.old) (⟦<Runner<F, J> as Running>⟧.disk self.new) }
        ensures idle { listed ≡ false → self.new ≡ self.old }
        ensures tables { During (SameUpTo (⟦<Runner<F, J> as Running>⟧.state self.old).last_file)
            (⟦<Runner<F, J> as Running>⟧.disk self.old) (⟦<Runner<F, J> as Running>⟧.disk self.new) }
        ensures counts { KeepsCounts (⟦<Runner<F, J> as Running>⟧.state self.old) (⟦<Runner<F, J> as Running>⟧.state self.new) }
    {
        if !listed {
            return false;
        }
        let told = self.node.drop_segments(alloc, &mut self.session);
        is_want(&told)
    }

    // Flushes a table, says which files that made, and drops segments behind them.
    fn flush(&mut self, alloc: Global, name: &TableName) -> Upshot
        ensures flushes { Knows (⟦<Runner<F, J> as Running>⟧.state self.old) (⟦<Runner<F, J> as Running>⟧.disk self.old)
            → Moves (λ h after. FlushesAndDrops h name.now result after)
            (⟦<Runner<F, J> as Running>⟧.state self.old) (⟦<Runner<F, J> as Running>⟧.state self.new)
            (⟦<Runner<F, J> as Running>⟧.disk self.old) (⟦<Runner<F, J> as Running>⟧.disk self.new) }
        ensures tables { During (SameUpTo (⟦<Runner<F, J> as Running>⟧.state self.old).last_file)
            (⟦<Runner<F, J> as Running>⟧.disk self.old) (⟦<Runner<F, J> as Running>⟧.disk self.new) }
        ensures counts { CountsOn (⟦<Runner<F, J> as Running>⟧.state self.old) (⟦<Runner<F, J> as Running>⟧.state self.new) }
    {
        match self.node.flush(alloc, &mut self.session, name) {
            Ok(numbers) => {
                let want = self.drop_behind(alloc, lists_any(&numbers));
                Upshot {
                    reply: Some(Reply::Flushed {
                        files: List::from_vec(numbers),
                    }),
                    want,
                }
            }
            Err(fault) => replied(Some(reply_of(Err(fault)))),
        }
    }

    // Reads the files of a table, and says of each what was found.
    fn verify(&mut self, alloc: Global, name: &TableName) -> Reply
        ensures verifies { Moves (λ h after. (told : ResultOf (ListOf Verdict) FaultOf) × (result ≡ reply_of_verify told) × Verifies h name.now told after)
            (⟦<Runner<F, J> as Running>⟧.state self.old) (⟦<Runner<F, J> as Running>⟧.state self.new)
            (⟦<Runner<F, J> as Running>⟧.disk self.old) (⟦<Runner<F, J> as Running>⟧.disk self.new) }
        ensures tables { During (SameUpTo (⟦<Runner<F, J> as Running>⟧.state self.old).last_file)
            (⟦<Runner<F, J> as Running>⟧.disk self.old) (⟦<Runner<F, J> as Running>⟧.disk self.new) }
        ensures lists { KeepsListing (⟦<Runner<F, J> as Running>⟧.state self.old)
            (⟦<Runner<F, J> as Running>⟧.disk self.old) (⟦<Runner<F, J> as Running>⟧.disk self.new) }
        ensures counts { CountsOn (⟦<Runner<F, J> as Running>⟧.state self.old) (⟦<Runner<F, J> as Running>⟧.state self.new) }
    {
        match self.node.verify(alloc, name) {
            Ok(files) => Reply::Verified { files },
            Err(fault) => reply_of(Err(fault)),
        }
    }

    // Lists the table files, and changes nothing.
    fn status(&self, alloc: Global) -> Reply
        ensures { (h : History) → StandsFor h (⟦<Runner<F, J> as Running>⟧.state self.now)
            → OrWant result (λ k after. (result ≡ replies.Status (status k)) × (after ≡ k)) h h }
    {
        match self.node.status(alloc) {
            Ok(tables) => Reply::Status { tables },
            Err(Mem) => Reply::Failed(Failure::Memory),
        }
    }

    // Flushes the memtable of a table in a shard that a mutation was written to, if there was one and it is full now, and drops
    // segments behind that: says whether memory ran out for one of the two.
    fn settle(&mut self, alloc: Global, place: Option<(u16, u8)>) -> bool
        requires within { IfSome place (λ p. (p.0 < length (⟦<Runner<F, J> as Running>⟧.state self.old).tables)
            × (p.1 < (⟦<Runner<F, J> as Running>⟧.state self.old).limits.shards)) }
        ensures settles { MovesIf (λ h. Knows (⟦<Runner<F, J> as Running>⟧.state self.old) (⟦<Runner<F, J> as Running>⟧.disk self.old)
            ⊎ HasRoomFor place h) (λ h after. SettledFor place result h after)
            (⟦<Runner<F, J> as Running>⟧.state self.old) (⟦<Runner<F, J> as Running>⟧.state self.new)
            (⟦<Runner<F, J> as Running>⟧.disk self.old) (⟦<Runner<F, J> as Running>⟧.disk self.new) }
        ensures tables { During (SameUpTo (⟦<Runner<F, J> as Running>⟧.state self.old).last_file)
            (⟦<Runner<F, J> as Running>⟧.disk self.old) (⟦<Runner<F, J> as Running>⟧.disk self.new) }
        ensures lists { ListsIf (HasRoomFor place) (⟦<Runner<F, J> as Running>⟧.state self.old)
            (⟦<Runner<F, J> as Running>⟧.disk self.old) (⟦<Runner<F, J> as Running>⟧.disk self.new) }
        ensures counts { KeepsCounts (⟦<Runner<F, J> as Running>⟧.state self.old) (⟦<Runner<F, J> as Running>⟧.state self.new) }
    {
        match place {
            Some((table, shard)) => {
                let told = self.node.flush_full(alloc, &mut self.session, table, shard);
                let starved = self.drop_behind(alloc, lists_one(&told));
                either(is_want(&told), starved)
            }
            None => false,
        }
    }

    // Performs a statement, and flushes the memtable that it made full.
    fn perform<C: Clock>(
        &mut self,
        alloc: Global,
        ask: &Ask<'_, C>,
        statement: &Statement,
    ) -> Upshot
        requires few { IsFew (⟦<Runner<F, J> as Running>⟧.state self.old) }
        requires spelled { IsSpelled statement.now }
        ensures performs { MovesIf (λ h. Knows (⟦<Runner<F, J> as Running>⟧.state self.old) (⟦<Runner<F, J> as Running>⟧.disk self.old)
            ⊎ PerformsRoomily ask.now.kind (C.may_give ask.now.clock.now) statement.now h)
            (λ h after. PerformsSo ask.now.kind (C.may_give ask.now.clock.now) statement.now result h after)
            (⟦<Runner<F, J> as Running>⟧.state self.old) (⟦<Runner<F, J> as Running>⟧.state self.new)
            (⟦<Runner<F, J> as Running>⟧.disk self.old) (⟦<Runner<F, J> as Running>⟧.disk self.new) }
        ensures tables { During (SameUpTo (⟦<Runner<F, J> as Running>⟧.state self.old).last_file)
            (⟦<Runner<F, J> as Running>⟧.disk self.old) (⟦<Runner<F, J> as Running>⟧.disk self.new) }
        ensures lists { ListsIf (PerformsRoomily ask.now.kind (C.may_give ask.now.clock.now) statement.now)
            (⟦<Runner<F, J> as Running>⟧.state self.old)
            (⟦<Runner<F, J> as Running>⟧.disk self.old) (⟦<Runner<F, J> as Running>⟧.disk self.new) }
        ensures counts { CountsOn (⟦<Runner<F, J> as Running>⟧.state self.old) (⟦<Runner<F, J> as Running>⟧.state self.new) }
    {
        let answer = self
            .node
            .answer(alloc, &mut self.session, ask, self.seconds, statement);
        let want = self.settle(alloc, place_of(&answer));
        Upshot {
            reply: Some(reply_of(answer)),
            want,
        }
    }

    fn answer_known<C: Clock>(
        &mut self,
        alloc: Global,
        ask: &Ask<'_, C>,
        text: &[u8],
        line: Line,
    ) -> Upshot
        requires few { IsFew (⟦<Runner<F, J> as Running>⟧.state self.old) }
        requires says { Says text.now line }
        ensures answers { MovesIf (λ h. Knows (⟦<Runner<F, J> as Running>⟧.state self.old) (⟦<Runner<F, J> as Running>⟧.disk self.old)
            ⊎ FlushesNone ask.now.kind (C.may_give ask.now.clock.now) h text.now)
            (λ h after. Answers ask.now.kind (C.may_give ask.now.clock.now) h text.now result after)
            (⟦<Runner<F, J> as Running>⟧.state self.old) (⟦<Runner<F, J> as Running>⟧.state self.new)
            (⟦<Runner<F, J> as Running>⟧.disk self.old) (⟦<Runner<F, J> as Running>⟧.disk self.new) }
        ensures tables { During (SameUpTo (⟦<Runner<F, J> as Running>⟧.state self.old).last_file)
            (⟦<Runner<F, J> as Running>⟧.disk self.old) (⟦<Runner<F, J> as Running>⟧.disk self.new) }
        ensures lists { ListsIf (λ h. FlushesNone ask.now.kind (C.may_give ask.now.clock.now) h text.now)
            (⟦<Runner<F, J> as Running>⟧.state self.old)
            (⟦<Runner<F, J> as Running>⟧.disk self.old) (⟦<Runner<F, J> as Running>⟧.disk self.new) }
        ensures counts { CountsOn (⟦<Runner<F, J> as Running>⟧.state self.old) (⟦<Runner<F, J> as Running>⟧.state self.new) }
    {
        match line {
            Line::Blank => replied(None),
            Line::Syntax => replied(Some(Reply::Refused(SYNTAX))),
            Line::Clock(seconds) => replied(Some(self.set_clock(ask.kind, seconds))),
            Line::Flush(name) => self.flush(alloc, &name),
            Line::Verify(name) => replied(Some(self.verify(alloc, &name))),
            Line::Status => replied(Some(self.status(alloc))),
            Line::Statement(statement) => self.perform(alloc, ask, &statement),
        }
    }

    /// Answers one line; one that says nothing isn't answered.
    pub fn answer_line<C: Clock>(&mut self, alloc: Global, ask: &Ask<'_, C>, line: &[u8]) -> Upshot
        requires few { IsFew (⟦<Runner<F, J> as Running>⟧.state self.old) }
        ensures answers { MovesIf (λ h. Knows (⟦<Runner<F, J> as Running>⟧.state self.old) (⟦<Runner<F, J> as Running>⟧.disk self.old)
            ⊎ FlushesNone ask.now.kind (C.may_give ask.now.clock.now) h line.now)
            (λ h after. Answers ask.now.kind (C.may_give ask.now.clock.now) h line.now result after)
            (⟦<Runner<F, J> as Running>⟧.state self.old) (⟦<Runner<F, J> as Running>⟧.state self.new)
            (⟦<Runner<F, J> as Running>⟧.disk self.old) (⟦<Runner<F, J> as Running>⟧.disk self.new) }
        ensures tables { During (SameUpTo (⟦<Runner<F, J> as Running>⟧.state self.old).last_file)
            (⟦<Runner<F, J> as Running>⟧.disk self.old) (⟦<Runner<F, J> as Running>⟧.disk self.new) }
        ensures lists { ListsIf (λ h. FlushesNone ask.now.kind (C.may_give ask.now.clock.now) h line.now)
            (⟦<Runner<F, J> as Running>⟧.state self.old)
            (⟦<Runner<F, J> as Running>⟧.disk self.old) (⟦<Runner<F, J> as Running>⟧.disk self.new) }
        ensures counts { CountsOn (⟦<Runner<F, J> as Running>⟧.state self.old) (⟦<Runner<F, J> as Running>⟧.state self.new) }
    {
        match read_line(alloc, line) {
            Ok(said) => self.answer_known(alloc, ask, line, said),
            Err(Mem) => replied(Some(Reply::Failed(Failure::Memory))),
        }
    }
}
