//! Runs the lines of a script one after another, and writes what they answer.

ghost use Rattle.std.specs.Prelude.{◌≡◌, ◌≤◌, ◌⊎◌, Some};
ghost use Rattle.std.specs.Str.Lines.{lines};
ghost use Rattle.cas_io.specs.Causes.{Rose};
ghost use Rattle.cas_disk.specs.Disk.{During};
ghost use Rattle.cas_render.specs.Text.{reply_text};
ghost use Rattle.cas_lasting.specs.Listing.{SameUpTo};
ghost use Rattle.cas_lasting.specs.Nodes.{CountsOn, IsFew};
ghost use Rattle.cas_node.specs.Lines.{FlushesNone, NoneFlushes};
ghost use Rattle.cas_node.specs.Inner.Serving.{IsKnownIn, Knows, ListsIf, MovesIf};
ghost use Rattle.cas_node.specs.Inner.Turns.{IsEnd, IsToldSo, Printed, PrintedReply, StopsFor, Turned};
ghost use Rattle.cas_node.specs.Ran.{RanFrom, reply_cause, upshot_cause, verdicts_cause, weight, worse};

use crate::cause::Cause;
use crate::runner::{Runner, Running};
use crate::upshot::Upshot;
use cas_disk::{Folder, Name};
use cas_history::Store;
use cas_io::{Clock, Sink, write_all};
use cas_lines::next_line;
use cas_render::{Failure, Reply, Verdict, render};
use cas_sessions::Ask;
use cas_types::Mem;
use std::alloc::Global;

/// Why a reply wasn't written.
#[derive(Clone, Copy, Debug, PartialEq, Eq)]
pub(crate) enum PrintFault {
    Mem,
    Write,
}

// What is said of table files: of the first that is bad.
fn verdicts_cause(verdicts: &[Verdict]) -> Cause
    ensures cause { result ≡ verdicts_cause verdicts.now }
    ensures told { IsToldSo result }
{
    for verdict in verdicts {
        if let Some(at) = verdict.bad {
            return Cause::Bad {
                name: Name::Table(verdict.number),
                at,
            };
        }
    }
    Cause::Good
}

fn reply_cause(reply: &Option<Reply>) -> Cause
    ensures cause { result ≡ reply_cause reply.now }
    ensures told { IsToldSo result }
{
    match reply {
        Some(Reply::Refused(_)) => Cause::Refused,
        Some(Reply::Failed(Failure::Memory)) => Cause::Mem,
        Some(Reply::Failed(Failure::Block { number, at })) => Cause::Bad {
            name: Name::Table(*number),
            at: *at,
        },
        Some(Reply::Verified { files }) => verdicts_cause(files.as_slice()),
        _ => Cause::Good,
    }
}

fn write_text<K: Sink>(sink: &mut K, reply: &Reply, text: &[u8]) -> Option<PrintFault>
    requires { text.now ≡ reply_text reply.now }
    ensures printed { PrintedReply result reply.now (K.took sink.old) (K.took sink.new) }
    ensures faults { K.faults sink.old ≤ K.faults sink.new }
    ensures stalls { K.stalls sink.old ≤ K.stalls sink.new }
    ensures write { result ≡ Some PrintFault.Write
        → Rose (K.faults sink.old) (K.faults sink.new) ⊎ Rose (K.stalls sink.old) (K.stalls sink.new) }
{
    match write_all(sink, text) {
        Ok(()) => None,
        Err(_) => Some(PrintFault::Write),
    }
}

// Writes the reply. `failed memory` is written without taking memory.
#[tactic(auto, using(crate::proofs::SessionLemmas::want_text))]
fn print_reply<K: Sink>(
    alloc: Global,
    reply: &Reply,
    text: &mut Vec<u8>,
    sink: &mut K,
) -> Option<PrintFault>
    ensures printed { PrintedReply result reply.now (K.took sink.old) (K.took sink.new) }
    ensures faults { K.faults sink.old ≤ K.faults sink.new }
    ensures stalls { K.stalls sink.old ≤ K.stalls sink.new }
    ensures write { result ≡ Some PrintFault.Write
        → Rose (K.faults sink.old) (K.faults sink.new) ⊎ Rose (K.stalls sink.old) (K.stalls sink.new) }
{
    if let Reply::Failed(Failure::Memory) = reply {
        return write_text(sink, reply, b"failed memory\n");
    }
    text.clear();
    match render(alloc, reply, text) {
        Ok(()) => write_text(sink, reply, text),
        Err(Mem) => Some(PrintFault::Mem),
    }
}

fn print<K: Sink>(
    alloc: Global,
    reply: &Option<Reply>,
    text: &mut Vec<u8>,
    sink: &mut K,
) -> Option<PrintFault>
    ensures printed { Printed result reply.now (K.took sink.old) (K.took sink.new) }
    ensures faults { K.faults sink.old ≤ K.faults sink.new }
    ensures stalls { K.stalls sink.old ≤ K.stalls sink.new }
    ensures write { result ≡ Some PrintFault.Write
        → Rose (K.faults sink.old) (K.faults sink.new) ⊎ Rose (K.stalls sink.old) (K.stalls sink.new) }
{
    match reply {
        Some(reply) => print_reply(alloc, reply, text, sink),
        None => None,
    }
}

fn weight(cause: Cause) -> u8
    ensures { result ≡ weight cause }
{
    match cause {
        Cause::Good => 0,
        Cause::Refused => 1,
        Cause::Write => 2,
        Cause::Disk => 3,
        Cause::Bad { .. } => 4,
        Cause::TooLong { .. } => 5,
        Cause::Read => 6,
        Cause::Mem => 7,
        Cause::Words => 8,
    }
}

/// Of two causes the one that is told.
pub(crate) fn worse(a: Cause, b: Cause) -> Cause
    ensures { result ≡ worse a b }
{
    if weight(a) < weight(b) { b } else { a }
}

// What is said of the run's end by what came of a line.
fn upshot_cause(upshot: &Upshot) -> Cause
    ensures cause { result ≡ upshot_cause upshot.now }
    ensures told { IsToldSo result }
{
    let said = reply_cause(&upshot.reply);
    if upshot.want {
        worse(said, Cause::Mem)
    } else {
        said
    }
}

/// What one line came to.
#[derive(Clone, Copy)]
struct Turn {
    cause: Cause,
    fault: Option<PrintFault>,
}

fn take_turn<K: Sink, F: Folder, J: Store, C: Clock>(
    alloc: Global,
    ask: &Ask<'_, C>,
    runner: &mut Runner<F, J>,
    text: &mut Vec<u8>,
    sink: &mut K,
    line: &[u8],
) -> Turn
    requires few { IsFew (⟦<Runner<F, J> as Running>⟧.state runner.old) }
    ensures turned { MovesIf (λ h. Knows (⟦<Runner<F, J> as Running>⟧.state runner.old) (⟦<Runner<F, J> as Running>⟧.disk runner.old)
        ⊎ FlushesNone ask.now.kind (C.may_give ask.now.clock.now) h line.now) (λ h after. Turned ask.now.kind (C.may_give ask.now.clock.now) h line.now after
        (K.took sink.old) (K.took sink.new) result.cause result.fault)
        (⟦<Runner<F, J> as Running>⟧.state runner.old) (⟦<Runner<F, J> as Running>⟧.state runner.new)
        (⟦<Runner<F, J> as Running>⟧.disk runner.old) (⟦<Runner<F, J> as Running>⟧.disk runner.new) }
    ensures tables { During (SameUpTo (⟦<Runner<F, J> as Running>⟧.state runner.old).last_file)
        (⟦<Runner<F, J> as Running>⟧.disk runner.old) (⟦<Runner<F, J> as Running>⟧.disk runner.new) }
    ensures lists { ListsIf (λ h. FlushesNone ask.now.kind (C.may_give ask.now.clock.now) h line.now)
        (⟦<Runner<F, J> as Running>⟧.state runner.old)
        (⟦<Runner<F, J> as Running>⟧.disk runner.old) (⟦<Runner<F, J> as Running>⟧.disk runner.new) }
    ensures counts { CountsOn (⟦<Runner<F, J> as Running>⟧.state runner.old) (⟦<Runner<F, J> as Running>⟧.state runner.new) }
    ensures faults { K.faults sink.old ≤ K.faults sink.new }
    ensures stalls { K.stalls sink.old ≤ K.stalls sink.new }
    ensures write { result.fault ≡ Some PrintFault.Write
        → Rose (K.faults sink.old) (K.faults sink.new) ⊎ Rose (K.stalls sink.old) (K.stalls sink.new) }
    ensures told { IsToldSo result.cause }
{
    let upshot = runner.answer_line(alloc, ask, line);
    let fault = print(alloc, &upshot.reply, text, sink);
    Turn {
        cause: upshot_cause(&upshot),
        fault,
    }
}

// Why a run ends where a reply wasn't written.
fn cut_short(fault: PrintFault, cause: Cause) -> Cause
    ensures cause { StopsFor fault cause result }
    ensures write { result ≡ Cause.Write → fault ≡ PrintFault.Write }
{
    match fault {
        PrintFault::Write => worse(cause, Cause::Write),
        PrintFault::Mem => Cause::Mem,
    }
}

/// Runs the lines of a script one after another in a store just opened, and writes what they
/// answer.
pub(crate) fn run_lines<K: Sink, F: Folder, J: Store, C: Clock>(
    alloc: Global,
    ask: &Ask<'_, C>,
    runner: &mut Runner<F, J>,
    script: &[u8],
    sink: &mut K,
) -> Cause
    requires begun { ((⟦<Runner<F, J> as Running>⟧.state runner.old).calls ≡ 0) × ((⟦<Runner<F, J> as Running>⟧.state runner.old).accepted ≡ 0) }
    ensures ran { MovesIf (IsKnownIn ask.now.kind (C.may_give ask.now.clock.now) (⟦<Runner<F, J> as Running>⟧.state runner.old)
        (⟦<Runner<F, J> as Running>⟧.disk runner.old) script.now) (λ h after. RanFrom h ask.now.kind (C.may_give ask.now.clock.now) script.now
        (K.took sink.old) (K.took sink.new) after result)
        (⟦<Runner<F, J> as Running>⟧.state runner.old) (⟦<Runner<F, J> as Running>⟧.state runner.new)
        (⟦<Runner<F, J> as Running>⟧.disk runner.old) (⟦<Runner<F, J> as Running>⟧.disk runner.new) }
    ensures tables { During (SameUpTo (⟦<Runner<F, J> as Running>⟧.state runner.old).last_file)
        (⟦<Runner<F, J> as Running>⟧.disk runner.old) (⟦<Runner<F, J> as Running>⟧.disk runner.new) }
    ensures lists { ListsIf (λ h. NoneFlushes ask.now.kind (C.may_give ask.now.clock.now) h (lines script.now))
        (⟦<Runner<F, J> as Running>⟧.state runner.old)
        (⟦<Runner<F, J> as Running>⟧.disk runner.old) (⟦<Runner<F, J> as Running>⟧.disk runner.new) }
    ensures faults { K.faults sink.old ≤ K.faults sink.new }
    ensures stalls { K.stalls sink.old ≤ K.stalls sink.new }
    ensures write { result ≡ Cause.Write
        → Rose (K.faults sink.old) (K.faults sink.new) ⊎ Rose (K.stalls sink.old) (K.stalls sink.new) }
    ensures ends { IsEnd result }
{
    let mut rest = script;
    let mut cause = Cause::Good;
    let mut text = Vec::new(alloc);
    while !rest.is_empty() {
        let (line, after) = next_line(rest);
        let turn = take_turn(alloc, ask, runner, &mut text, sink, line);
        cause = worse(cause, turn.cause);
        if let Some(fault) = turn.fault {
            return cut_short(fault, cause);
        }
        rest = after;
    }
    cause
}
