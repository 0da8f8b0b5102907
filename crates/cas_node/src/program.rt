//! The program: its words, its script, its output and how it ends.

ghost use Rattle.std.specs.Prelude.{◌≡◌, ◌<◌, ◌⊎◌, ◌+◌, List, map, IsTrue, IfSome, string_bytes, Some, None, nat_le};
ghost use Rattle.cas_io.specs.Causes.{Rose};
ghost use Rattle.cas_io.specs.Streams.{TookCount};
ghost use Rattle.cas_disk.specs.Disk.{Image, During};
ghost use Rattle.cas_words.specs.Words.{command_of};
ghost use Rattle.cas_words.specs.declared.words.Command.{Command};
ghost use Rattle.cas_atoms.specs.declared.atom.Mutation.{Mutation as MutationOf};
ghost use Rattle.cas_changes.specs.declared.entry.Entry.{Entry as EntryOf};
ghost use Rattle.cas_journal.specs.Stores.{IsStore};
ghost use Rattle.cas_opening.specs.Opening.{IsOfBytes, MayBeOpened};
ghost use Rattle.cas_recovery.specs.Recovered.{IsUnreadable};
ghost use Rattle.cas_node.specs.Ran.{RanAll, IfBad, IfTooLong, IfUnread, AllWell, GoodOrMem, count_taken, has_risen, is_too_long, outside, status_of};
ghost use Rattle.cas_node.specs.Ran.{weight, with_faults};
ghost use Rattle.cas_lasting.specs.Listing.{SameUpTo};
ghost use Rattle.cas_node.specs.Inner.Serving.{EndsServed, Serves};
ghost use Rattle.cas_node.specs.Inner.Turns.{cause_of_fault, cause_of_opening};

use crate::cause::Cause;
use crate::runner::Runner;
use crate::script::{run_lines, worse};
use cas_disk::{Count, Folder};
use cas_history::Store;
use cas_io::{Clock, Gate, ScriptFault, Sink, Source, read_script};
use cas_recovery::RecoveryFault;
use cas_sessions::{Ask, Closed, Opened, Pass, start};
use cas_words::{Command, read_words};
use std::alloc::{AllocError, Global};
use std::marker::Brand;

/// The most bytes that a script may have: 64 MiB.
pub const SCRIPT_LIMIT: u64 = 67_108_864;

/// What a run came to: the exit status and its cause, the folder handed back, the history (none
/// where no line was run), and the count of the faults of what was read in the folder.
pub struct Outcome<F: Folder> {
    pub status: u8,
    pub cause: Cause,
    pub folder: F,
    pub pass: Option<Pass>,
    pub tally: F::Tally,
}

fn unread(fault: ScriptFault) -> Cause
    ensures { result ≡ cause_of_fault fault }
{
    match fault {
        ScriptFault::Read => Cause::Read,
        ScriptFault::TooLong { taken } => Cause::TooLong { taken },
        ScriptFault::Mem => Cause::Mem,
    }
}

// What a run comes to in which no line was run.
fn not_run<F: Folder>(cause: Cause, folder: F, tally: F::Tally) -> Outcome<F>
    ensures status { result.status ≡ status_of cause }
    ensures cause { result.cause ≡ cause }
    ensures folder { result.folder ≡ folder }
    ensures pass { result.pass ≡ None }
    ensures tally { result.tally ≡ tally }
{
    Outcome {
        status: cause.status(),
        cause,
        folder,
        pass: None,
        tally,
    }
}

// What a run comes to whose store was closed, or wasn't opened, before a line was run.
fn closed_unrun<F: Folder>(cause: Cause, closed: Closed<F>) -> Outcome<F>
    ensures status { result.status ≡ status_of cause }
    ensures cause { result.cause ≡ cause }
    ensures folder { result.folder ≡ closed.folder }
    ensures pass { result.pass ≡ None }
    ensures tally { result.tally ≡ closed.tally }
{
    let Closed {
        folder,
        pass: _pass,
        tally,
        first: _first,
    } = closed;
    not_run(cause, folder, tally)
}

// Whether a count of faults rose between these two, or stood at its end already.
fn has_risen(before: u64, now: u64) -> bool
    ensures { result ≡ has_risen before now }
{
    before.saturating_add(1) <= now
}

// Why a run ended, with the faults of its folder and of the reads of table files.
fn with_faults(before: u64, now: u64, reads: u64, why: Cause) -> Cause
    ensures { result ≡ with_faults before now reads why }
{
    if has_risen(before, now) || has_risen(0, reads) {
        return worse(why, Cause::Disk);
    }
    why
}

// Why an opening ends the run.
fn cause_of_opening(fault: RecoveryFault) -> Cause
    ensures { result ≡ cause_of_opening fault }
{
    match fault {
        RecoveryFault::Bad { name, at } => Cause::Bad { name, at },
        RecoveryFault::Failed | RecoveryFault::Read => Cause::Disk,
        RecoveryFault::Mem => Cause::Mem,
    }
}

// Ends a run: the folder is handed back, and the history.
fn finished<F: Folder>(closed: Closed<F>, told: Cause, faults: u64) -> Outcome<F>
    ensures status { result.status ≡ status_of result.cause }
    ensures cause { result.cause ≡ with_faults faults (F.faults_of result.folder) (⟦<F::Tally as Count>⟧.number result.tally) told }
    ensures folder { result.folder ≡ closed.folder }
    ensures pass { result.pass ≡ closed.pass }
    ensures tally { result.tally ≡ closed.tally }
{
    let Closed {
        folder,
        pass,
        tally,
        first: _first,
    } = closed;
    let cause = with_faults(faults, folder.faults(), tally.faults(), told);
    Outcome {
        status: cause.status(),
        cause,
        folder,
        pass,
        tally,
    }
}

// Runs a script in a store that was opened, in a new history.
fn serve<K: Sink, F: Folder, J: Store, C: Clock>(
    alloc: Global,
    ask: &Ask<'_, C>,
    opened: Opened<F>,
    script: &[u8],
    sink: &mut K,
    faults: u64,
) -> Outcome<F>
    requires table { opened.table.seat.table_id ≡ J.table }
    ensures served { Serves ask.now.kind (C.may_give ask.now.clock.now) script.now (K.took sink.old) (K.took sink.new)
        opened.started.limits opened.started.tables.items opened.started.shards.items opened.started.frontiers.items opened.started.last_file
        opened.started.live opened.started.journal (F.disk opened.folder) (F.faults_of opened.folder) faults (F.disk result.folder)
        (F.faults_of result.folder) (⟦<F::Tally as Count>⟧.number result.tally) result.pass result.cause }
    ensures tables { During (SameUpTo opened.started.last_file) (F.disk opened.folder) (F.disk result.folder) }
    ensures status { result.status ≡ status_of result.cause }
    ensures unwritten { result.pass ≡ None → sink.new ≡ sink.old }
    ensures kept { result.pass ≡ None → result.folder ≡ opened.folder }
    ensures unrun { result.pass ≡ None → result.cause ≡ Cause.Mem }
    ensures write { result.cause ≡ Cause.Write
        → Rose (K.faults sink.old) (K.faults sink.new) ⊎ Rose (K.stalls sink.old) (K.stalls sink.new) }
    ensures ends { EndsServed faults (F.faults_of result.folder) (⟦<F::Tally as Count>⟧.number result.tally) result.cause }
{
    let mut node = match opened.named::<J>(alloc) {
        Ok(node) => node,
        Err(closed) => return closed_unrun(Cause::Mem, closed),
    };
    let session = match node.session() {
        Ok(session) => session,
        Err(_) => return closed_unrun(Cause::Mem, node.close()),
    };
    let mut runner = Runner {
        node,
        session,
        seconds: 0,
    };
    let told = run_lines(alloc, ask, &mut runner, script, sink);
    let Runner {
        mut node,
        session,
        seconds: _seconds,
    } = runner;
    node.end(session);
    finished(node.close(), told, faults)
}

/// Runs the program `cassnode`: `words` are those after its name, the script comes from the source,
/// and what its lines answer goes to the sink. The folder's store is opened, or one made where it has
/// none, and what is answered `ok` lasts there. Each line runs alone, so that the gate isn't called.
/// With `--clock manual` the clock isn't read.
pub fn run<S: Source, K: Sink, F: Folder, C: Clock, G: Gate>(
    alloc: Global,
    words: &[String],
    source: &mut S,
    sink: &mut K,
    folder: F,
    clock: &C,
    _gate: &G,
) -> Outcome<F>
    // The script ran: its lines' replies are the definition's, each slice the live view at its moment
    // of all mutations up to its front, those that the folder had and those of the run, whatever is flushed
    // between, where the folder tells what is read of it; what was written
    // is the replies' text up to where the run ended; whatever a crash leaves of the folder has all that
    // was answered `ok`. Or no line was run.
    ensures headline { RanAll (map string_bytes words.now) (C.may_give clock.now)
        (outside (S.left source.old) (S.faults source.old) (K.took sink.old) (K.faults sink.old) (K.stalls sink.old)
        (F.disk folder) (F.faults_of folder))
        (outside (S.left source.new) (S.faults source.new) (K.took sink.new) (K.faults sink.new) (K.stalls sink.new)
        (F.disk result.folder) (F.faults_of result.folder))
        (⟦<F::Tally as Count>⟧.number result.tally) result.pass result.cause }
    ensures status { result.status ≡ status_of result.cause }
    ensures words { result.cause ≡ Cause.Words → command_of (map string_bytes words.now) ≡ None }
    ensures no_words { command_of (map string_bytes words.now) ≡ None → (result.cause ≡ Cause.Words) ⊎ (result.cause ≡ Cause.Mem) }
    ensures untaken { command_of (map string_bytes words.now) ≡ None → (source.new ≡ source.old) × (result.folder ≡ folder) }
    ensures unwritten { result.pass ≡ None → sink.new ≡ sink.old }
    ensures read { result.cause ≡ Cause.Read → Rose (S.faults source.old) (S.faults source.new) }
    ensures write { result.cause ≡ Cause.Write
        → Rose (K.faults sink.old) (K.faults sink.new) ⊎ Rose (K.stalls sink.old) (K.stalls sink.new) }
    ensures disk { result.cause ≡ Cause.Disk
        → Rose (F.faults_of folder) (F.faults_of result.folder) ⊎ Rose 0 (⟦<F::Tally as Count>⟧.number result.tally) }
    ensures not_disk { Rose (F.faults_of folder) (F.faults_of result.folder) ⊎ Rose 0 (⟦<F::Tally as Count>⟧.number result.tally)
        → IsTrue (nat_le (weight Cause.Disk) (weight result.cause)) }
    // A store is never refused whose bytes are as they must be. Where lines were run, the headline tells of the table file.
    ensures bad { result.pass ≡ None → IfBad result.cause (λ name at. (c : Command) → command_of (map string_bytes words.now) ≡ Some c
        → (d : Image) → (F.disk folder).reads d → IsOfBytes d → IsUnreadable c.limits.shards (F.disk folder) name at d) }
    // Where no line was run, a crash leaves what was there before, or the store that was there.
    ensures stays { result.pass ≡ None → (d : Image) → (F.disk folder).reads d → IsOfBytes d → (entries : List EntryOf) (mutations : List MutationOf)
        → IsStore entries mutations d → During (MayBeOpened entries mutations) (F.disk folder) (F.disk result.folder) }
    ensures too_long { IfTooLong result.cause
        (λ taken. (taken ≡ SCRIPT_LIMIT + 1) × TookCount (S.left source.old) (S.left source.new) taken) }
    ensures not_too_long { IfSome (count_taken (S.left source.old) (S.left source.new))
        (λ taken. SCRIPT_LIMIT < taken → IsTrue (is_too_long result.cause)) }
    ensures complete { AllWell (map string_bytes words.now) (C.may_give clock.now)
        (outside (S.left source.old) (S.faults source.old) (K.took sink.old) (K.faults sink.old) (K.stalls sink.old)
        (F.disk folder) (F.faults_of folder))
        (outside (S.left source.new) (S.faults source.new) (K.took sink.new) (K.faults sink.new) (K.stalls sink.new)
        (F.disk result.folder) (F.faults_of result.folder))
        (⟦<F::Tally as Count>⟧.number result.tally) → GoodOrMem result.cause }
    ensures unread { IfUnread result.cause (⟦<F::Tally as Count>⟧.number result.tally ≡ 0) }
{
    let Command {
        limits,
        clock: kind,
        ..
    } = match read_words(alloc, words) {
        Ok(Some(command)) => command,
        Ok(None) => return not_run(Cause::Words, folder, F::Tally::fresh()),
        Err(AllocError) => return not_run(Cause::Mem, folder, F::Tally::fresh()),
    };
    let script = match read_script(alloc, source, SCRIPT_LIMIT) {
        Ok(script) => script,
        Err(fault) => return not_run(unread(fault), folder, F::Tally::fresh()),
    };
    let faults = folder.faults();
    let opened = match start(alloc, folder, &limits) {
        Ok(opened) => opened,
        Err((fault, closed)) => return closed_unrun(cause_of_opening(fault), closed),
    };
    let ask = Ask { kind, clock };
    serve::<K, F, Brand, C>(alloc, &ask, opened, &script, sink, faults)
}
