//! Runs the trials of a file one after another on one folder.

use crate::clock::ListedClock;
use crate::crash::difference_of_crashes;
use crate::cut::difference_of_cuts;
use crate::gate::CountedGate;
use crate::past::{Past, run_lines};
use crate::row::{Crash, Trial};
use crate::running::{Ended, run_script};
use cas_disk::Choice;
use std::alloc::{AllocError, Global};

/// What a run came to.
#[derive(Drop)]
pub(crate) struct Found {
    pub ended: Ended,
    /// How often the clock was read.
    pub reads: usize,
    /// How often the gate was called.
    pub gate_calls: usize,
    /// What differs where the run is crashed at every call, or cut, if something does.
    pub beside: Option<String>,
    /// How many calls its folder has had by then.
    pub calls: u64,
}

// The calls of the folder that fail, counted from its first: those of the runs before, and of this one.
fn planned(alloc: Global, past: Past, trial: &Trial) -> Result<Vec<u64>, AllocError> {
    let mut planned = past.fails.to_vec(alloc)?;
    if trial.fails.is_empty() {
        return Ok(planned);
    }
    let mut folder = past.folder(alloc)?;
    if trial.fails_after > 0 {
        let (_ended, after) = run_lines(alloc, trial, trial.fails_after, folder)?;
        folder = after;
    }
    for number in &trial.fails {
        planned.push(folder.calls().saturating_add(*number))?;
    }
    Ok(planned)
}

fn beside(
    alloc: Global,
    past: Past,
    trial: &Trial,
    next: Option<&Trial>,
) -> Result<Option<String>, AllocError> {
    if trial.is_cut {
        return difference_of_cuts(alloc, past, trial);
    }
    match trial.crash {
        Crash::AtEveryCall => difference_of_crashes(alloc, past, trial, next),
        Crash::Never | Crash::AtTheEnd => Ok(None),
    }
}

// What the trial comes to behind these runs.
fn run_behind(
    alloc: Global,
    past: Past,
    trial: &Trial,
    next: Option<&Trial>,
) -> Result<Found, AllocError> {
    let clock = ListedClock::new(&trial.readings);
    let gate = CountedGate::new();
    let script = trial.script.as_slice().to_vec(alloc)?;
    let folder = past.folder(alloc)?;
    let (ended, folder) = run_script(alloc, &trial.words, script, folder, &clock, &gate)?;
    Ok(Found {
        ended,
        reads: clock.given(),
        gate_calls: gate.calls(),
        beside: beside(alloc, past, trial, next)?,
        calls: folder.calls(),
    })
}

/// Runs the trials one after another, each on the folder that those before it leave, where each crash leaves
/// what is chosen.
pub(crate) fn run_each(
    alloc: Global,
    trials: &[Trial],
    choice: Choice,
) -> Result<Vec<Found>, AllocError> {
    let mut all = Vec::new(alloc);
    let mut fails = Vec::new(alloc);
    for (i, trial) in trials.iter().enumerate() {
        let before = Past {
            trials: trials.get(..i).unwrap_or(trials),
            fails: &fails,
            choice,
        };
        let mut planned = planned(alloc, before, trial)?;
        let past = Past {
            fails: &planned,
            ..before
        };
        let found = run_behind(alloc, past, trial, trials.get(i.saturating_add(1)))?;
        if !trial.fails.is_empty() {
            planned.retain(|call| *call <= found.calls);
        }
        all.push(found)?;
        fails = planned;
    }
    Ok(all)
}
