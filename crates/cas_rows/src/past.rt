//! The runs before another one, and the folder that they leave.

use crate::clock::ListedClock;
use crate::gate::CountedGate;
use crate::lines::first_lines;
use crate::row::{Crash, Trial};
use crate::running::{Ended, run_script};
use cas_disk::{Choice, FaultPlan, MemFolder};
use std::alloc::{AllocError, Global};

/// What a crash may leave of what isn't synced, with names for people to read.
pub(crate) const CHOICES: [(&str, Choice); 5] = [
    ("as before", Choice::Old),
    ("as written", Choice::New),
    ("filled with 0", Choice::Fill(0)),
    ("filled with 1", Choice::Fill(1)),
    ("filled with 255", Choice::Fill(255)),
];

/// The runs before another one on one folder, the numbers of its calls that fail, and what each crash leaves.
#[derive(Clone, Copy)]
pub(crate) struct Past<'a> {
    pub trials: &'a [Trial],
    pub fails: &'a [u64],
    pub choice: Choice,
}

impl Past<'_> {
    /// A folder as these runs leave it.
    pub fn folder(&self, alloc: Global) -> Result<MemFolder, AllocError> {
        let plan = FaultPlan {
            calls: self.fails.to_vec(alloc)?,
            drafts: Vec::new(alloc),
            reads: Vec::new(alloc),
        };
        let mut folder = MemFolder::new(alloc, plan);
        for trial in self.trials {
            let (_ended, after) = run_trial(alloc, trial, folder)?;
            folder = self.after(trial, after)?;
        }
        Ok(folder)
    }

    /// The folder that a run of the trial leaves: a crash's, where it ends by one.
    pub fn after(&self, trial: &Trial, folder: MemFolder) -> Result<MemFolder, AllocError> {
        match trial.crash {
            Crash::AtTheEnd => folder.image(self.choice),
            Crash::Never | Crash::AtEveryCall => Ok(folder),
        }
    }
}

/// Runs the first so many lines of a trial.
pub(crate) fn run_lines(
    alloc: Global,
    trial: &Trial,
    count: usize,
    folder: MemFolder,
) -> Result<(Ended, MemFolder), AllocError> {
    let script = first_lines(alloc, &trial.script, count)?;
    let clock = ListedClock::new(&trial.readings);
    let gate = CountedGate::new();
    run_script(alloc, &trial.words, script, folder, &clock, &gate)
}

/// Runs a trial.
pub(crate) fn run_trial(
    alloc: Global,
    trial: &Trial,
    folder: MemFolder,
) -> Result<(Ended, MemFolder), AllocError> {
    run_lines(alloc, trial, usize::MAX, folder)
}
