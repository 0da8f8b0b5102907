//! One run of the program over a folder in memory.

use crate::clock::ListedClock;
use crate::gate::CountedGate;
use cas_disk::MemFolder;
use cas_io::{MemSink, MemSource};
use cas_node::{Outcome, run};
use std::alloc::{AllocError, Global};

/// What a run prints, and its exit status.
#[derive(Drop, PartialEq, Eq)]
pub(crate) struct Ended {
    pub output: Vec<u8>,
    pub status: u8,
}

/// Runs the script over the folder, and gives the folder that it leaves.
pub(crate) fn run_script(
    alloc: Global,
    words: &[String],
    script: Vec<u8>,
    folder: MemFolder,
    clock: &ListedClock,
    gate: &CountedGate,
) -> Result<(Ended, MemFolder), AllocError> {
    let mut source = MemSource::new(script);
    let mut sink = MemSink::new(alloc);
    let Outcome {
        status,
        folder,
        cause: _cause,
        pass: _pass,
        tally: _tally,
    } = run(alloc, words, &mut source, &mut sink, folder, clock, gate);
    let output = sink.taken().to_vec(alloc)?;
    Ok((Ended { output, status }, folder))
}
