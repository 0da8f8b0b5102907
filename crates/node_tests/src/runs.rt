use cas_disk::{FaultPlan, MemFolder};
use cas_io::{Failed, FreeGate, ManualClock, MemSink, MemSource, Source};
use cas_node::{Cause, Outcome, SCRIPT_LIMIT, run};
use std::alloc::Global;
use std::fmt::Write;
use std::process::Abort;

const CREATE: &str = "CREATE TABLE t (k int, c int, v text, PRIMARY KEY (k, c));\n";

const INSERT: &str = "INSERT INTO t (k, c, v) VALUES (1, 1, 'a');\n";

/// What a run came to: how it ended, what it wrote, and whether lines were run.
#[derive(Drop)]
pub(crate) struct Ended {
    pub(crate) status: u8,
    pub(crate) cause: Cause,
    pub(crate) output: Vec<u8>,
    has_run: bool,
}

/// The words that the text has between its blanks.
pub(crate) fn words_of(rt: &impl Abort, alloc: Global, text: &str) -> Vec<String> {
    let mut list = Vec::new(alloc);
    for word in text.split(' ') {
        let word = String::from_str(alloc, word).expect(rt, "memory");
        list.push(word).expect(rt, "memory");
    }
    list
}

/// Runs over a folder with the manual clock, and one shard where the store is made. Hands the folder back.
pub(crate) fn run_on<S: Source>(
    rt: &impl Abort,
    alloc: Global,
    source: &mut S,
    mut sink: MemSink,
    folder: MemFolder,
) -> (Ended, MemFolder) {
    let words = words_of(rt, alloc, "--clock manual --shards 1 d");
    let clock = ManualClock { reading: 7 };
    let Outcome {
        status,
        cause,
        pass,
        folder,
        tally: _tally,
    } = run(alloc, &words, source, &mut sink, folder, &clock, &FreeGate);
    let ended = Ended {
        status,
        cause,
        output: sink.taken().to_vec(alloc).expect(rt, "memory"),
        has_run: pass.is_some(),
    };
    (ended, folder)
}

/// The same without the folder.
pub(crate) fn run_in<S: Source>(
    rt: &impl Abort,
    alloc: Global,
    source: &mut S,
    sink: MemSink,
    folder: MemFolder,
) -> Ended {
    let (ended, _folder) = run_on(rt, alloc, source, sink, folder);
    ended
}

// The same over an empty folder.
fn run_over<S: Source>(rt: &impl Abort, alloc: Global, source: &mut S, sink: MemSink) -> Ended {
    let folder = MemFolder::new(alloc, FaultPlan::none(alloc));
    run_in(rt, alloc, source, sink, folder)
}

/// The text as a source.
pub(crate) fn source_of(rt: &impl Abort, alloc: Global, text: &str) -> MemSource {
    MemSource::new(text.as_bytes().to_vec(alloc).expect(rt, "memory"))
}

fn script(rt: &impl Abort, alloc: Global) -> String {
    format!(in alloc; "{CREATE}{INSERT}{INSERT}").expect(rt, "memory")
}

// Runs that script.
fn run_script(rt: &impl Abort, alloc: Global, sink: MemSink) -> Ended {
    let script = script(rt, alloc);
    run_over(rt, alloc, &mut source_of(rt, alloc, &script), sink)
}

// Out of memory is an answer that needs no cause, so that a body which always gives it is refused by
// a run alone.
#[test]
fn a_run_ends_well_and_hands_back_its_history(rt: HostRuntime) {
    let ended = run_script(&rt, rt.alloc(), MemSink::new(rt.alloc()));
    assert!(rt;
        ended.cause == Cause::Good
            && ended.output.as_slice() == b"ok\nok 1\nok 2\n".as_slice()
            && ended.has_run
    );
}

// The source fails after ten bytes.
#[test]
fn a_source_that_fails_is_not_run(rt: HostRuntime) {
    let bytes = CREATE.as_bytes().to_vec(rt.alloc()).expect(&rt, "memory");
    let mut source = MemSource::with_plan(bytes, Some(10), 7);
    let ended = run_over(&rt, rt.alloc(), &mut source, MemSink::new(rt.alloc()));
    assert!(rt; ended.status == 3 && ended.output.is_empty() && !ended.has_run);
}

// The second write fails; or each takes nothing.
#[test]
fn a_sink_that_fails_or_takes_nothing_ends_the_run(rt: HostRuntime) {
    let alloc = rt.alloc();
    let failing = MemSink::with_plan(alloc, vec![in alloc; 2].expect(&rt, "memory"), 9);
    let failed = run_script(&rt, alloc, failing);
    assert!(rt; failed.status == 4 && failed.output.as_slice() == b"ok\n".as_slice());
    let stalled = run_script(&rt, alloc, MemSink::with_plan(alloc, Vec::new(alloc), 0));
    assert!(rt; stalled.status == 4 && stalled.output.is_empty());
}

// A source that makes so many line feeds.
#[derive(Drop)]
struct Feeds {
    left: u64,
}

impl Source for Feeds {
    ghost use Rattle.std.specs.Prelude.{None};

    ghost left = { λ _. None };

    ghost faults = { λ _. 0 };

    fn read(&mut self, into: &mut [u8]) -> Result<usize, Failed> {
        let count = self.left.min(into.len() as u64) as usize;
        into[..count].fill(b'\n');
        self.left -= count as u64;
        Ok(count)
    }
}

// Runs so many line feeds.
fn run_feeds(rt: &impl Abort, alloc: Global, left: u64) -> Ended {
    run_over(rt, alloc, &mut Feeds { left }, MemSink::new(alloc))
}

#[test]
fn the_longest_script_of_empty_lines_is_run(rt: HostRuntime) {
    let ended = run_feeds(&rt, rt.alloc(), SCRIPT_LIMIT);
    assert!(rt; ended.status == 0 && ended.output.is_empty());
}

#[test]
fn a_script_above_the_limit_is_not_run(rt: HostRuntime) {
    let ended = run_feeds(&rt, rt.alloc(), SCRIPT_LIMIT + 1);
    assert!(rt; ended.cause == Cause::TooLong { taken: 67_108_865 } && !ended.has_run);
}

// Statements over 8 partitions, every 100th of them a SELECT.
fn many_statements(rt: &impl Abort, script: &mut String, count: u32) {
    for i in 1..=count {
        let key = i % 8;
        let written = if i % 100 == 0 {
            writeln!(script, "SELECT * FROM t WHERE k = {key}")
        } else {
            writeln!(script, "INSERT INTO t (k, c, v) VALUES ({key}, {i}, 'a')")
        };
        written.expect(rt, "memory");
    }
}

// The last SELECT shows partition 0: of its 1,250 statements 50 are SELECTs.
#[test]
fn ten_thousand_statements_end(rt: HostRuntime) {
    let alloc = rt.alloc();
    let mut script = String::from_str(alloc, CREATE).expect(&rt, "memory");
    many_statements(&rt, &mut script, 10_000);
    let mut source = source_of(&rt, alloc, &script);
    let ended = run_over(&rt, alloc, &mut source, MemSink::new(alloc));
    assert!(rt; ended.status == 0);
    let last = b"\n0 | 9992 | 'a'\n-- 1200 rows, shard 0, front 9900, now 0\n".as_slice();
    assert!(rt; ended.output.ends_with(last));
}
