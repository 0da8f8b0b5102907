//! A script that is cut into several runs on one folder, which together print what it prints in one.

use crate::clock::ListedClock;
use crate::compare::difference;
use crate::gate::CountedGate;
use crate::lines::is_feed;
use crate::past::Past;
use crate::row::Trial;
use crate::running::{Ended, run_script};
use cas_disk::MemFolder;
use std::alloc::{AllocError, Global};

// A number in which those two are mixed.
fn mixed(seed: u64, line: u64) -> u64 {
    let product = seed
        .wrapping_mul(0x9e37_79b9_7f4a_7c15)
        .wrapping_add(line)
        .wrapping_mul(0xbf58_476d_1ce4_e5b9);
    product >> 32
}

// Whether the script is cut before this line, where about so many quarters of its lines begin a run.
fn is_cut(quarters: u64, line: usize) -> bool {
    mixed(quarters, line as u64) % 4 < quarters
}

// The runs that a script is cut into, one after another.
#[derive(Drop)]
struct Runs<'a> {
    trial: &'a Trial,
    past: Past<'a>,
    // It goes on from run to run.
    clock: ListedClock<'a>,
    folder: MemFolder,
    ended: Ended,
}

impl<'a> Runs<'a> {
    fn new(alloc: Global, past: Past<'a>, trial: &'a Trial) -> Result<Self, AllocError> {
        Ok(Runs {
            trial,
            past,
            clock: ListedClock::new(&trial.readings),
            folder: past.folder(alloc)?,
            ended: Ended {
                output: Vec::new(alloc),
                status: 0,
            },
        })
    }

    // With one run more.
    fn with(self, alloc: Global, script: Vec<u8>) -> Result<Self, AllocError> {
        let Runs {
            trial,
            past,
            clock,
            folder,
            mut ended,
        } = self;
        let gate = CountedGate::new();
        let (run, folder) = run_script(alloc, &trial.words, script, folder, &clock, &gate)?;
        ended.output.extend_from_slice(&run.output)?;
        ended.status = ended.status.max(run.status);
        let folder = past.after(trial, folder)?;
        Ok(Runs {
            trial,
            past,
            clock,
            folder,
            ended,
        })
    }
}

// What the script comes to where about so many quarters of its lines begin a run.
fn run_cut(alloc: Global, past: Past, trial: &Trial, quarters: u64) -> Result<Ended, AllocError> {
    let mut runs = Runs::new(alloc, past, trial)?;
    let mut script = Vec::new(alloc);
    for (i, line) in trial.script.split_inclusive(is_feed).enumerate() {
        if is_cut(quarters, i) {
            runs = runs.with(alloc, script)?;
            script = Vec::new(alloc);
        }
        script.extend_from_slice(line)?;
    }
    let Runs { ended, .. } = runs.with(alloc, script)?;
    Ok(ended)
}

/// What differs where the script is cut into several runs, if something does: before about a quarter of its lines, before
/// half, three quarters and all of them.
pub(crate) fn difference_of_cuts(
    alloc: Global,
    past: Past,
    trial: &Trial,
) -> Result<Option<String>, AllocError> {
    for quarters in 1..=4 {
        let found = run_cut(alloc, past, trial, quarters)?;
        if let Some(difference) = difference(alloc, &trial.ended, &found)? {
            return Ok(Some(format!(in alloc; "cut before {quarters} of 4 lines: {difference}")?));
        }
    }
    Ok(None)
}
