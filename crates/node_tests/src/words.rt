//! The words of the command with what they set; words that are none stand in `cas_rows`.

use crate::runs::words_of;
use cas_words::{ClockKind, Command, path_of, read_words};
use std::alloc::Global;
use std::process::Abort;

/// Limits as numbers: shards, the bytes of a segment and of a memtable, compactors.
const USUAL: (u8, u64, u64, u8) = (4, 33_554_432, 4_194_304, 1);

const LEAST: (u8, u64, u64, u8) = (1, 4_096, 4_096, 0);

const MOST: (u8, u64, u64, u8) = (16, 33_554_432, 1_073_741_824, 4);

fn numbers_of(command: &Command) -> (u8, u64, u64, u8) {
    let limits = &command.limits;
    (
        limits.shards,
        limits.segment,
        limits.memtable,
        limits.compactors,
    )
}

fn is_read(
    rt: &impl Abort,
    alloc: Global,
    words: &[String],
    limits: (u8, u64, u64, u8),
    clock: ClockKind,
    folder: &str,
) -> bool {
    match read_words(alloc, words).expect(rt, "memory") {
        Some(command) => {
            numbers_of(&command) == limits && command.clock == clock && command.folder.is(folder)
        }
        None => false,
    }
}

fn has_path(rt: &impl Abort, alloc: Global, words: &[String], folder: &str) -> bool {
    match path_of(alloc, words).expect(rt, "memory") {
        Some(path) => path.as_str() == folder,
        None => false,
    }
}

// What the words of the text set.
fn sets(
    rt: &impl Abort,
    alloc: Global,
    text: &str,
    limits: (u8, u64, u64, u8),
    clock: ClockKind,
    folder: &str,
) {
    let words = words_of(rt, alloc, text);
    assert!(rt;
        is_read(rt, alloc, &words, limits, clock, folder) && has_path(rt, alloc, &words, folder),
        "{text}"
    );
}

#[test]
fn words_of_the_command(rt: HostRuntime) {
    let alloc = rt.alloc();
    let system = ClockKind::System;
    let manual = ClockKind::Manual;
    sets(&rt, alloc, "store", USUAL, system, "store");
    sets(&rt, alloc, "--clock manual a/b", USUAL, manual, "a/b");
    sets(&rt, alloc, "store --clock=system", USUAL, system, "store");
    let least = "--shards 1 --segment 4096 --memtable 4096 --compactors 0 s";
    sets(&rt, alloc, least, LEAST, system, "s");
    let most =
        "--memtable=1073741824 s --compactors 4 --clock manual --shards=16 --segment 33554432";
    sets(&rt, alloc, most, MOST, manual, "s");
    sets(&rt, alloc, "shards=4", USUAL, system, "shards=4");
    sets(&rt, alloc, "help", USUAL, system, "help");
    sets(&rt, alloc, "+", USUAL, system, "+");
}
