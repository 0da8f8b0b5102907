//! Tells where what a run came to differs from what stands in its file.

use crate::lines::is_feed;
use crate::row::Trial;
use crate::running::Ended;
use crate::trial::Found;
use std::alloc::{AllocError, Global};

// A line for people to read; `nothing` where there is none.
fn shown(alloc: Global, line: Option<&[u8]>) -> Result<String, AllocError> {
    match line {
        Some(line) => String::from_utf8_lossy(alloc, line),
        None => String::from_str(alloc, "nothing"),
    }
}

// The first line that differs, where one does: what it is to be, and what was found.
fn first_difference(
    alloc: Global,
    wanted: &[u8],
    found: &[u8],
) -> Result<Option<String>, AllocError> {
    let mut wanted = wanted.split(is_feed);
    let mut found = found.split(is_feed);
    for number in 1..u64::MAX {
        let (a, b) = (wanted.next(), found.next());
        if a.is_none() && b.is_none() {
            break;
        }
        if a != b {
            let (a, b) = (shown(alloc, a)?, shown(alloc, b)?);
            return Ok(Some(format!(in alloc;
                "line {number} of the output is {b}, and should be {a}"
            )?));
        }
    }
    Ok(None)
}

// What differs in how often the clock was read and the gate called, where something does.
fn difference_of_calls(
    alloc: Global,
    trial: &Trial,
    found: &Found,
) -> Result<Option<String>, AllocError> {
    let reads = found.reads;
    if let Some(wanted) = trial.reads {
        if i128::from(wanted) != reads as i128 {
            return Ok(Some(format!(in alloc;
                "the clock was read {reads} times, and should be {wanted} times"
            )?));
        }
    }
    if found.gate_calls > 0 {
        return Ok(Some(String::from_str(alloc, "the gate was called")?));
    }
    Ok(None)
}

/// What differs in what a run prints, or in its status, if something does.
pub(crate) fn difference(
    alloc: Global,
    wanted: &Ended,
    found: &Ended,
) -> Result<Option<String>, AllocError> {
    if let Some(difference) = first_difference(alloc, &wanted.output, &found.output)? {
        return Ok(Some(difference));
    }
    let (wanted, found) = (wanted.status, found.status);
    if wanted != found {
        return Ok(Some(format!(in alloc; "the status is {found}, and should be {wanted}")?));
    }
    Ok(None)
}

/// What differs between the runs of a file and what the file says, a line each.
pub(crate) fn report(
    alloc: Global,
    path: &str,
    trials: &[Trial],
    found: &[Found],
) -> Result<Vec<String>, AllocError> {
    let mut lines = Vec::new(alloc);
    for (i, (trial, found)) in trials.iter().zip(found).enumerate() {
        let run = i.saturating_add(1);
        if let Some(difference) = difference(alloc, &trial.ended, &found.ended)? {
            lines.push(format!(in alloc; "{path}, run {run}: {difference}")?)?;
        }
        if let Some(difference) = difference_of_calls(alloc, trial, found)? {
            lines.push(format!(in alloc; "{path}, run {run}: {difference}")?)?;
        }
        if let Some(difference) = &found.beside {
            lines.push(format!(in alloc; "{path}, run {run}: {difference}")?)?;
        }
    }
    Ok(lines)
}
