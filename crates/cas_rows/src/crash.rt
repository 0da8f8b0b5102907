//! A run that is stopped after each of its calls, and what the next run finds there after a crash.

use crate::compare::difference;
use crate::lines::{count_lines, is_feed};
use crate::past::{CHOICES, Past, run_lines, run_trial};
use crate::row::Trial;
use crate::running::Ended;
use crate::seen::Seen;
use cas_disk::{Choice, MemFolder};
use std::alloc::{AllocError, Global};

// What is printed of the write or definition for which the disk fails, and of those after it.
const FAILED: &[u8] = b"failed disk\n";

const STOPPED: &[u8] = b"failed stopped\n";

// The exit status of a run for which the disk fails.
const DISK: u8 = 5;

// How many lines are run after the one for which the disk fails.
const AFTER: usize = 1;

// The first lines of a run as they go without a stop.
#[derive(Drop)]
struct Front {
    // How many calls of the folder they make.
    calls: u64,
    // What the next run comes to then.
    read: Ended,
}

// Whether the line answers a flush that wrote files.
fn is_of_flush(line: &[u8]) -> bool {
    line.starts_with(b"flushed ".as_slice())
}

// Whether the line tells that the disk was written to.
fn is_of_disk(line: &[u8]) -> bool {
    line.starts_with(b"ok".as_slice()) || is_of_flush(line)
}

// A run and the next one, and the folder that they begin with.
#[derive(Clone, Copy)]
struct Pair<'a> {
    folder: &'a MemFolder,
    trial: &'a Trial,
    next: &'a Trial,
}

impl Pair<'_> {
    // Another folder like theirs, on which no call was made.
    fn copy(&self) -> Result<MemFolder, AllocError> {
        self.folder.image(Choice::New)
    }

    // The fronts of no line, of one, and so on to all.
    fn fronts(&self, alloc: Global) -> Result<Vec<Front>, AllocError> {
        let mut fronts = Vec::new(alloc);
        for count in 0..=count_lines(&self.trial.script) {
            let (_ended, folder) = run_lines(alloc, self.trial, count, self.copy()?)?;
            let calls = folder.calls();
            let (read, _folder) = run_trial(alloc, self.next, folder)?;
            fronts.push(Front { calls, read })?;
        }
        Ok(fronts)
    }

    // The first lines on a folder that stops after so many calls.
    fn stopped(
        &self,
        alloc: Global,
        calls: u64,
        lines: usize,
    ) -> Result<(Ended, MemFolder), AllocError> {
        let mut folder = self.copy()?;
        folder.stop_after(calls);
        run_lines(alloc, self.trial, lines, folder)
    }

    // The folder of a crash after so many calls; where the file is wrong on purpose, after others.
    fn crashed(
        &self,
        alloc: Global,
        calls: u64,
        lines: usize,
        folder: MemFolder,
    ) -> Result<MemFolder, AllocError> {
        if self.trial.shift == 0 {
            return Ok(folder);
        }
        let calls = i128::from(calls).saturating_add(i128::from(self.trial.shift));
        let (_ended, folder) = self.stopped(alloc, u64::try_from(calls).unwrap_or(0), lines)?;
        Ok(folder)
    }

    // What differs in what the next run finds in an image, where so many lines were answered, if something does.
    fn difference_of_read(
        &self,
        alloc: Global,
        image: MemFolder,
        fronts: &[Front],
        answered: usize,
    ) -> Result<Option<String>, AllocError> {
        let (read, _folder) = run_trial(alloc, self.next, image)?;
        if let Some(next) = fronts.get(answered.saturating_add(1)) {
            if next.read == read {
                return Ok(None);
            }
        }
        match fronts.get(answered) {
            Some(front) => difference(alloc, &front.read, &read),
            None => Ok(Some(String::from_str(alloc, "a line prints several")?)),
        }
    }

    // What the first lines are to print where the disk fails for the one after so many, and so many were passed whole. A line
    // that names a table or column of a lost definition may be refused; behind a flush that got no file nothing is stopped, so
    // that the disk fails anew; and a flush behind an answer, of a memtable that is full, may have stopped the store.
    fn cut_short(
        &self,
        alloc: Global,
        lines: usize,
        found: &[u8],
        passed: usize,
    ) -> Result<Vec<u8>, AllocError> {
        let answered = count_answered(found);
        let is_behind = answered >= passed;
        let mut wanted = Vec::new(alloc);
        let mut is_undefined = false;
        let mut is_unflushed = false;
        let mut answers = found.split_inclusive(is_feed);
        let whole = self.trial.ended.output.split_inclusive(is_feed);
        for (i, line) in whole.take(lines).enumerate() {
            let answer = answers.next().unwrap_or(&[]);
            let is_lost = i >= answered && is_of_disk(line);
            wanted.extend_from_slice(if !is_lost {
                line
            } else if is_undefined && answer.starts_with(b"refused S".as_slice()) {
                answer
            } else if is_behind && answer == STOPPED {
                STOPPED
            } else if i == answered || (is_unflushed && answer == FAILED) {
                FAILED
            } else {
                STOPPED
            })?;
            is_undefined = is_undefined || (is_lost && line == b"ok\n".as_slice());
            is_unflushed = is_unflushed || (is_lost && is_of_flush(line));
        }
        Ok(wanted)
    }

    // What differs in what a stopped run prints, and in its status, if something does. No line is run before the store is
    // opened.
    fn difference_of_answers(
        &self,
        alloc: Global,
        ended: &Ended,
        passed: usize,
        fronts: &[Front],
    ) -> Result<Option<String>, AllocError> {
        let lines = if passed == 0 {
            0
        } else {
            passed.saturating_add(AFTER)
        };
        let wanted = Ended {
            output: self.cut_short(alloc, lines, &ended.output, passed)?,
            status: if passed < fronts.len() {
                DISK
            } else {
                self.trial.ended.status
            },
        };
        difference(alloc, &wanted, ended)
    }

    // What differs where the run is stopped after so many calls, if something does.
    fn difference_of_stop(
        &self,
        alloc: Global,
        calls: u64,
        fronts: &[Front],
        seen: &mut Seen,
    ) -> Result<Option<String>, AllocError> {
        let passed = fronts.iter().filter(|front| front.calls <= calls).count();
        let lines = passed.saturating_add(AFTER);
        let (ended, folder) = self.stopped(alloc, calls, lines)?;
        if let Some(found) = self.difference_of_answers(alloc, &ended, passed, fronts)? {
            return Ok(Some(found));
        }
        let answered = count_answered(&ended.output);
        let folder = self.crashed(alloc, calls, lines, folder)?;
        for (name, choice) in CHOICES {
            let mut image = folder.image(choice)?;
            if !seen.is_new(alloc, answered, &mut image)? {
                continue;
            }
            if let Some(found) = self.difference_of_read(alloc, image, fronts, answered)? {
                return Ok(Some(format!(in alloc; "what isn't synced is {name}: {found}")?));
            }
        }
        Ok(None)
    }
}

// How many lines were answered before one was for which the disk fails, or which it stopped.
fn count_answered(output: &[u8]) -> usize {
    output
        .split_inclusive(is_feed)
        .take_while(|line| *line != FAILED && *line != STOPPED)
        .count()
}

/// What differs where the run is stopped after each of its calls, if something does. The next run, made on what a crash
/// leaves then, is to find the lines that were answered, or one more.
pub(crate) fn difference_of_crashes(
    alloc: Global,
    past: Past,
    trial: &Trial,
    next: Option<&Trial>,
) -> Result<Option<String>, AllocError> {
    let Some(next) = next else {
        return Ok(Some(String::from_str(alloc, "no run follows")?));
    };
    // A folder of which each copy costs the copying of its files, and not all that was done to it.
    let folder = past.folder(alloc)?.image(Choice::New)?;
    let pair = Pair {
        folder: &folder,
        trial,
        next,
    };
    let fronts = pair.fronts(alloc)?;
    let all = fronts.last().map_or(0, |front| front.calls);
    let mut seen = Seen::new(alloc);
    for calls in 0..=all {
        if let Some(difference) = pair.difference_of_stop(alloc, calls, &fronts, &mut seen)? {
            return Ok(Some(format!(in alloc; "stopped after {calls} calls: {difference}")?));
        }
    }
    Ok(None)
}
