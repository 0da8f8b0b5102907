//! What a file of rows says: runs of the program, each with its script and what is to come of it.

use crate::lines::{count_lines, is_feed};
use crate::running::Ended;
use std::alloc::{AllocError, Global};
use std::str::from_utf8;

/// When the machine crashes, and takes with it what isn't synced.
#[derive(Clone, Copy, Debug, PartialEq, Eq)]
pub(crate) enum Crash {
    Never,
    /// After the run.
    AtTheEnd,
    /// After each call of the folder: the run is tried so besides.
    AtEveryCall,
}

/// A run of the program, and what is to come of it.
#[derive(Drop)]
pub(crate) struct Trial {
    pub words: Vec<String>,
    /// What the clock reads, one call after another.
    pub readings: Vec<i64>,
    pub script: Vec<u8>,
    pub ended: Ended,
    /// How often the clock is to be read, where the file says.
    pub reads: Option<i64>,
    /// The calls of the folder that fail, counted from 1 once so many lines of the script were run.
    pub fails: Vec<u64>,
    pub fails_after: usize,
    pub crash: Crash,
    /// How many calls later the disk is read than the run was stopped.
    pub shift: i64,
    /// Whether the script is cut into several runs besides.
    pub is_cut: bool,
}

/// Why a file can't be read as rows.
#[derive(Debug, Drop)]
pub(crate) enum RowFault {
    /// The line of this number, counted from 1, isn't one of the format.
    Line(usize),
    Mem(AllocError),
}

impl From<AllocError> for RowFault {
    fn from(error: AllocError) -> Self {
        RowFault::Mem(error)
    }
}

fn is_blank(byte: &u8) -> bool {
    *byte == b' '
}

fn number(text: &[u8]) -> Option<i64> {
    match from_utf8(text) {
        Ok(text) => text.parse().ok(),
        Err(_) => None,
    }
}

// The words between blanks; none where they aren't UTF-8.
fn words(alloc: Global, text: &[u8]) -> Result<Option<Vec<String>>, AllocError> {
    let mut words = Vec::new(alloc);
    for word in text.split(is_blank) {
        match from_utf8(word) {
            Ok("") => {}
            Ok(word) => words.push(String::from_str(alloc, word)?)?,
            Err(_) => return Ok(None),
        }
    }
    Ok(Some(words))
}

fn readings(alloc: Global, text: &[u8]) -> Result<Option<Vec<i64>>, AllocError> {
    let mut readings = Vec::new(alloc);
    for word in text.split(is_blank) {
        match number(word) {
            Some(reading) => readings.push(reading)?,
            None if word.is_empty() => {}
            None => return Ok(None),
        }
    }
    Ok(Some(readings))
}

// The numbers of calls, none of them below 1.
fn calls(alloc: Global, text: &[u8]) -> Result<Option<Vec<u64>>, AllocError> {
    let Some(numbers) = readings(alloc, text)? else {
        return Ok(None);
    };
    let mut calls = Vec::new(alloc);
    for number in &numbers {
        match u64::try_from(*number) {
            Ok(call) if call > 0 => calls.push(call)?,
            _ => return Ok(None),
        }
    }
    Ok(Some(calls))
}

fn status(text: &[u8]) -> Option<u8> {
    match text {
        [b' ', digit] if digit.is_ascii_digit() => Some(*digit - b'0'),
        _ => None,
    }
}

fn when_crashed(text: &[u8]) -> Option<Crash> {
    if text == b"at the end".as_slice() {
        Some(Crash::AtTheEnd)
    } else if text == b"at every call".as_slice() {
        Some(Crash::AtEveryCall)
    } else {
        None
    }
}

fn push_line(text: &mut Vec<u8>, line: &[u8]) -> Result<(), AllocError> {
    text.extend_from_slice(line)?;
    text.push(b'\n')?;
    Ok(())
}

// Puts what was found in its place; false where nothing was.
fn set<T: Copy>(place: &mut T, found: Option<T>) -> bool {
    match found {
        Some(found) => {
            *place = found;
            true
        }
        None => false,
    }
}

impl Trial {
    fn new(alloc: Global, words: Vec<String>) -> Self {
        Trial {
            words,
            readings: Vec::new(alloc),
            script: Vec::new(alloc),
            ended: Ended {
                output: Vec::new(alloc),
                status: 0,
            },
            reads: None,
            fails: Vec::new(alloc),
            fails_after: 0,
            crash: Crash::Never,
            shift: 0,
            is_cut: false,
        }
    }

    // Takes a line of the file; false where it isn't one of the format.
    fn take(&mut self, alloc: Global, line: &[u8]) -> Result<bool, AllocError> {
        if let Some(text) = line.strip_prefix(b"> ".as_slice()) {
            push_line(&mut self.script, text)?;
        } else if line == b">".as_slice() {
            push_line(&mut self.script, &[])?;
        } else if let Some(text) = line.strip_prefix(b"clock:".as_slice()) {
            return self.set_readings(alloc, text);
        } else if let Some(text) = line.strip_prefix(b"fails:".as_slice()) {
            return self.set_fails(alloc, text);
        } else if let Some(is_taken) = self.take_word(line) {
            return Ok(is_taken);
        } else {
            push_line(&mut self.ended.output, line)?;
        }
        Ok(true)
    }

    // Takes a line that says one thing of the run, where it is one; false where it isn't of the format.
    fn take_word(&mut self, line: &[u8]) -> Option<bool> {
        if let Some(text) = line.strip_prefix(b"reads: ".as_slice()) {
            self.reads = number(text);
            Some(self.reads.is_some())
        } else if let Some(text) = line.strip_prefix(b"status:".as_slice()) {
            Some(set(&mut self.ended.status, status(text)))
        } else if let Some(text) = line.strip_prefix(b"crash: ".as_slice()) {
            Some(set(&mut self.crash, when_crashed(text)))
        } else if let Some(text) = line.strip_prefix(b"shift: ".as_slice()) {
            Some(set(&mut self.shift, number(text)))
        } else if let Some(text) = line.strip_prefix(b"cut: ".as_slice()) {
            self.is_cut = text == b"in four ways".as_slice();
            Some(self.is_cut)
        } else {
            None
        }
    }

    fn set_readings(&mut self, alloc: Global, text: &[u8]) -> Result<bool, AllocError> {
        let Some(found) = readings(alloc, text)? else {
            return Ok(false);
        };
        self.readings = found;
        Ok(true)
    }

    // The calls count from the lines that stand above. A run says this once.
    fn set_fails(&mut self, alloc: Global, text: &[u8]) -> Result<bool, AllocError> {
        let Some(found) = calls(alloc, text)? else {
            return Ok(false);
        };
        let is_first = self.fails.is_empty();
        self.fails = found;
        self.fails_after = count_lines(&self.script);
        Ok(is_first)
    }
}

// Whether a call is said to fail on a folder that a crash left: only a new folder has a plan.
fn fails_after_a_crash(trials: &[Trial], line: &[u8]) -> bool {
    match trials.split_last() {
        Some((_trial, before)) if line.starts_with(b"fails:".as_slice()) => {
            before.iter().any(|trial| trial.crash == Crash::AtTheEnd)
        }
        _ => false,
    }
}

// Takes a line of the file; false where it isn't one of the format.
fn take_line(alloc: Global, trials: &mut Vec<Trial>, line: &[u8]) -> Result<bool, AllocError> {
    if line.is_empty() || line.starts_with(b"#".as_slice()) {
        return Ok(true);
    }
    if let Some(text) = line.strip_prefix(b"words:".as_slice()) {
        let Some(words) = words(alloc, text)? else {
            return Ok(false);
        };
        trials.push(Trial::new(alloc, words))?;
        return Ok(true);
    }
    if fails_after_a_crash(trials, line) {
        return Ok(false);
    }
    match trials.last_mut() {
        Some(trial) => trial.take(alloc, line),
        None => Ok(false),
    }
}

/// The runs that a file says.
pub(crate) fn trials(alloc: Global, text: &[u8]) -> Result<Vec<Trial>, RowFault> {
    let mut trials = Vec::new(alloc);
    for (i, line) in text.split(is_feed).enumerate() {
        if !take_line(alloc, &mut trials, line)? {
            return Err(RowFault::Line(i.saturating_add(1)));
        }
    }
    Ok(trials)
}
