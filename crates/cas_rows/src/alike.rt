//! Answers runs by the program and by the slow reference, and tells where the two differ.

ghost use Rattle.std.specs.Prelude.{IfOk, IfSome};
ghost use Rattle.cas_types.specs.Limits.{IsShardCount};

use crate::clock::ListedClock;
use crate::gate::CountedGate;
use crate::lines::is_feed;
use crate::row::{RowFault, Trial, trials};
use crate::running::run_script;
use cas_chance::generated;
use cas_disk::{FaultPlan, MemFolder};
use cas_lines::next_line;
use cas_reference::Reference;
use cas_render::{Reply, render};
use cas_types::Mem;
use cas_words::{Command, read_words};
use std::alloc::{AllocError, Global};
use std::{fs, io};

// What the reference answers to a flush: it writes no files that it could number.
const FLUSHED: &[u8] = b"flushed\n";

// What it answers to a check: it has no files that could be read.
const NOTHING: &[u8] = b"nothing\n";

/// What a comparison came to.
#[derive(Drop)]
pub(crate) enum Compared {
    /// So many lines are answered alike.
    Alike(u64),
    /// The store failed at a line, or memory ran out: what it has from then on isn't told.
    Failed,
    /// Something differs, which this says.
    Differs(String),
}

// The first lines of two texts that aren't the same.
fn first_apart<'a>(a: &'a [u8], b: &'a [u8]) -> (&'a [u8], &'a [u8]) {
    for (x, y) in a.split(|b| *b == b'\n').zip(b.split(|b| *b == b'\n')) {
        if x != y {
            return (x, y);
        }
    }
    (&[], &[])
}

// Tells how the line of this number is answered by the program, and how by the reference.
fn difference(
    alloc: Global,
    number: u64,
    line: &[u8],
    output: &[u8],
    reply: &[u8],
) -> Result<Compared, AllocError> {
    let (found, wanted) = first_apart(output, reply);
    let line = String::from_utf8_lossy(alloc, line)?;
    let found = String::from_utf8_lossy(alloc, found)?;
    let wanted = String::from_utf8_lossy(alloc, wanted)?;
    Ok(Compared::Differs(format!(in alloc;
        "line {number} of the script, {line}: the program answers {found}, and the list of all atoms {wanted}"
    )?))
}

// The reply to a line as text; none where it isn't answered. Gives whether it lists tables.
fn put_reply(
    alloc: Global,
    reference: &mut Reference,
    clock: &ListedClock<'_>,
    line: &[u8],
    text: &mut Vec<u8>,
) -> Result<bool, Mem> {
    text.clear();
    match reference.answer_line(alloc, clock, line)? {
        Some(reply) => {
            render(alloc, &reply, text)?;
            Ok(matches!(reply, Reply::Status { .. }))
        }
        None => Ok(false),
    }
}

// Whether the line answers a flush, with the numbers of files or without.
fn is_flushed(line: &[u8]) -> bool {
    line == FLUSHED || line.starts_with(b"flushed ".as_slice())
}

// The output behind what answers a flush; none where it begins with something else.
fn behind_flush(output: &[u8]) -> Option<&[u8]> {
    match output.split_inclusive(is_feed).next() {
        Some(line) if is_flushed(line) => output.strip_prefix(line),
        _ => None,
    }
}

// Whether the line answers a check: a table file is good, or there is none.
fn is_checked(line: &[u8]) -> bool {
    line == NOTHING || line.ends_with(b" good\n".as_slice())
}

// The output behind what answers checks, as many as there are.
fn behind_checks(output: &[u8]) -> &[u8] {
    let mut rest = output;
    for line in output.split_inclusive(is_feed) {
        match rest.strip_prefix(line) {
            Some(more) if is_checked(line) => rest = more,
            _ => break,
        }
    }
    rest
}

// Whether the line lists the table and the shard that the other does, with the numbers of files or without.
fn lists_same(line: &[u8], listed: &[u8]) -> bool {
    let Some(bare) = listed.strip_suffix(b"\n".as_slice()) else {
        return false;
    };
    match line.strip_prefix(bare) {
        Some(files) => files == b"\n".as_slice() || files.starts_with(b" ".as_slice()),
        None => false,
    }
}

// The output behind what lists tables as the reply does; none where it begins with something else.
fn behind_status<'a>(output: &'a [u8], reply: &[u8]) -> Option<&'a [u8]> {
    let mut rest = output;
    for listed in reply.split_inclusive(is_feed) {
        match rest.split_inclusive(is_feed).next() {
            Some(line) if lists_same(line, listed) => rest = rest.strip_prefix(line)?,
            _ => return None,
        }
    }
    Some(rest)
}

// The output behind the reply; none where it begins with something else. Of a flush, and of what lists tables, the
// numbers of files may stand there; what answers checks is passed over.
fn behind<'a>(output: &'a [u8], reply: &[u8], lists: bool) -> Option<&'a [u8]> {
    let output = behind_checks(output);
    if reply == NOTHING {
        Some(output)
    } else if lists {
        behind_status(output, reply)
    } else if reply == FLUSHED {
        behind_flush(output)
    } else {
        output.strip_prefix(reply)
    }
}

// Compares a run, of which this is the output.
fn compare_run(
    alloc: Global,
    reference: &mut Reference,
    trial: &Trial,
    output: &[u8],
) -> Result<Compared, Mem> {
    let clock = ListedClock::new(&trial.readings);
    let mut reply = Vec::new(alloc);
    let mut number: u64 = 0;
    let mut rest = trial.script.as_slice();
    let mut output = output;
    while !rest.is_empty() {
        let (line, after) = next_line(rest);
        number = number.saturating_add(1);
        if output.starts_with(b"failed ".as_slice()) {
            return Ok(Compared::Failed);
        }
        let lists = put_reply(alloc, reference, &clock, line, &mut reply)?;
        match behind(output, &reply, lists) {
            Some(more) => output = more,
            None => return Ok(difference(alloc, number, line, output, &reply)?),
        }
        rest = after;
    }
    Ok(Compared::Alike(number))
}

// Compares a run; of one whose words aren't the command's no line is run.
fn compare_trial(
    alloc: Global,
    reference: &mut Reference,
    trial: &Trial,
    output: &[u8],
) -> Result<Compared, Mem> {
    match read_words(alloc, &trial.words)? {
        Some(command) => {
            reference.begin(alloc, &command)?;
            compare_run(alloc, reference, trial, output)
        }
        None => Ok(Compared::Alike(0)),
    }
}

// The command of the first run that has one, which makes the store.
fn first_command(alloc: Global, trials: &[Trial]) -> Result<Option<Command>, Mem>
    ensures { IfOk result (λ o. IfSome o (λ c. IsShardCount c.limits.shards)) }
{
    for trial in trials {
        if let Some(command) = read_words(alloc, &trial.words)? {
            return Ok(Some(command));
        }
    }
    Ok(None)
}

// What the runs print one after another on one folder, whose calls don't fail.
fn outputs(alloc: Global, trials: &[Trial]) -> Result<Vec<Vec<u8>>, AllocError> {
    let mut all = Vec::new(alloc);
    let mut folder = MemFolder::new(alloc, FaultPlan::none(alloc));
    for trial in trials {
        let clock = ListedClock::new(&trial.readings);
        let script = trial.script.as_slice().to_vec(alloc)?;
        let gate = CountedGate::new();
        let (ended, after) = run_script(alloc, &trial.words, script, folder, &clock, &gate)?;
        all.push(ended.output)?;
        folder = after;
    }
    Ok(all)
}

// Compares runs on one folder, up to the first that differs or fails.
fn compare_trials(alloc: Global, trials: &[Trial]) -> Result<Compared, Mem> {
    let Some(command) = first_command(alloc, trials)? else {
        return Ok(Compared::Alike(0));
    };
    let mut reference = Reference::new(alloc, &command)?;
    let mut lines: u64 = 0;
    for (i, (trial, output)) in trials.iter().zip(&outputs(alloc, trials)?).enumerate() {
        match compare_trial(alloc, &mut reference, trial, output)? {
            Compared::Alike(count) => lines = lines.saturating_add(count),
            Compared::Failed => break,
            Compared::Differs(what) => {
                let run = i.saturating_add(1);
                let what = format!(in alloc; "run {run}, {what}")?;
                return Ok(Compared::Differs(what));
            }
        }
    }
    Ok(Compared::Alike(lines))
}

// Compares the runs that the text says; none where a line of it isn't one of the format.
fn compare(alloc: Global, text: &[u8]) -> Result<Compared, Mem> {
    match trials(alloc, text) {
        Ok(trials) => compare_trials(alloc, &trials),
        Err(RowFault::Line(_)) => Ok(Compared::Alike(0)),
        Err(RowFault::Mem(_)) => Err(Mem),
    }
}

// The rows of a file; those of rules are made by chance.
fn rows(rt: &HostRuntime, path: &str) -> io::Result<Vec<u8>> {
    let text = fs::read(rt, path)?;
    if is_of_rules(path) {
        Ok(generated(rt.alloc(), &text)?)
    } else {
        Ok(text)
    }
}

/// Whether the file has rules, by which its rows are made.
pub(crate) fn is_of_rules(path: &str) -> bool {
    path.ends_with(".rules")
}

/// Whether the runs of a file are answered alike; what differs is printed, and of generated runs how many lines
/// they have.
pub(crate) fn is_alike(rt: &HostRuntime, path: &str) -> io::Result<bool> {
    match compare(rt.alloc(), &rows(rt, path)?) {
        Ok(Compared::Differs(what)) => {
            println!(rt; "{path}, {what}")?;
            Ok(false)
        }
        Ok(Compared::Alike(lines)) if is_of_rules(path) => {
            println!(rt; "{lines} generated lines are answered alike")?;
            Ok(true)
        }
        Ok(_) => Ok(true),
        Err(Mem) => Err(io::Error::from(AllocError)),
    }
}
