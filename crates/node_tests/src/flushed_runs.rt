//! What a run prints over a folder with a table file, and how it ends.

use crate::flushed::{failing, found};
use crate::runs::{run_in, run_on, source_of};
use cas_disk::{FaultPlan, Folder, MemFolder, Name};
use cas_io::MemSink;
use cas_node::Cause;
use std::alloc::Global;
use std::process::Abort;

// Two rows of the file, and one that is written.
const SCRIPT: &str = "SELECT c, v FROM t WHERE k = 1
INSERT INTO t (k, c, v) VALUES (1, 4, 40)
SELECT c, v FROM t WHERE k = 1
";

const ROWS: &str = "3 | 30
5 | 50
-- 2 rows, shard 1, front 5, now 77
ok 6
3 | 30
4 | 40
5 | 50
-- 3 rows, shard 1, front 6, now 77
";

// The first SELECT comes to nothing.
const UNREAD: &str = "failed read
ok 6
3 | 30
4 | 40
5 | 50
-- 3 rows, shard 1, front 6, now 77
";

// Each SELECT comes to nothing.
const BLOCKED: &str = "failed block
ok 6
failed block
";

// A table file is made of one row.
const MADE: &str = "CREATE TABLE t (k int, c int, v text, PRIMARY KEY (k, c))
INSERT INTO t (k, c, v) VALUES (1, 1, 'a')
\\flush t
\\verify t
";

const GOOD: &str = "ok
ok 1
flushed 1
1 good
";

// It is checked, and read.
const CHECK: &str = "\\verify t
SELECT * FROM t WHERE k = 1
";

// How the run of a script over the folder ended, and whether it printed this.
fn ended_of(
    rt: &impl Abort,
    alloc: Global,
    script: &str,
    folder: MemFolder,
    output: &str,
) -> (u8, Cause, bool) {
    let mut source = source_of(rt, alloc, script);
    let ended = run_in(rt, alloc, &mut source, MemSink::new(alloc), folder);
    let is_printed = ended.output.as_slice() == output.as_bytes();
    (ended.status, ended.cause, is_printed)
}

fn ended(rt: &impl Abort, alloc: Global, folder: MemFolder, output: &str) -> (u8, Cause, bool) {
    ended_of(rt, alloc, SCRIPT, folder, output)
}

// Whether the rows of the file are shown, with the one that is written.
fn are_shown(rt: &impl Abort, alloc: Global) -> bool {
    ended(rt, alloc, found(rt, alloc), ROWS) == (0, Cause::Good, true)
}

// Whether a run prints this and ends so, where the read of this number fails.
fn is_unread(rt: &impl Abort, alloc: Global, read: u64, output: &str) -> bool {
    ended(rt, alloc, failing(rt, alloc, read), output) == (5, Cause::Disk, true)
}

// The folder, where another byte stands at that place of its table file.
fn altered(rt: &impl Abort, alloc: Global, place: u64, byte: u8) -> MemFolder {
    let mut folder = found(rt, alloc);
    assert!(rt; folder.write_at(Name::Table(1), place, &[byte]).is_ok());
    folder
}

fn is_of_file(ended: (u8, Cause, bool)) -> bool {
    match ended {
        (6, Cause::Bad { name, .. }, printed) => printed && name == Name::Table(1),
        _ => false,
    }
}

// Whether a run prints this and ends for the file, where another byte stands at that place of it.
fn is_bad(rt: &impl Abort, alloc: Global, place: u64, byte: u8, output: &str) -> bool {
    is_of_file(ended(rt, alloc, altered(rt, alloc, place, byte), output))
}

// The folder in which a run made a table file, where another byte stands at that place of it.
fn made(rt: &impl Abort, alloc: Global, place: u64, byte: u8) -> MemFolder {
    let empty = MemFolder::new(alloc, FaultPlan::none(alloc));
    let mut source = source_of(rt, alloc, MADE);
    let (ended, mut folder) = run_on(rt, alloc, &mut source, MemSink::new(alloc), empty);
    assert!(rt; ended.output.as_slice() == GOOD.as_bytes());
    assert!(rt; folder.write_at(Name::Table(1), place, &[byte]).is_ok());
    folder
}

#[test]
fn a_run_begins_with_the_flushed_file(rt: HostRuntime) {
    assert!(rt; are_shown(&rt, rt.alloc()));
}

// The sixth read is the last of the opening, the seventh the first of the SELECT.
#[test]
fn a_failed_read_is_told_by_a_run(rt: HostRuntime) {
    assert!(rt; is_unread(&rt, rt.alloc(), 6, ""));
    assert!(rt; is_unread(&rt, rt.alloc(), 7, UNREAD));
}

// No such version stands at 9; at 31 no fragment, in a partition.
#[test]
fn a_bad_file_is_told_by_a_run(rt: HostRuntime) {
    assert!(rt; is_bad(&rt, rt.alloc(), 9, 3, ""));
    assert!(rt; is_bad(&rt, rt.alloc(), 31, 3, BLOCKED));
}

// Behind the head of 21 bytes, the key of 6, no deletion, no static column and the length of the block stands the first fragment, at 34; none begins with 9.
#[test]
fn a_check_tells_the_place(rt: HostRuntime) {
    let alloc = rt.alloc();
    let bad = Cause::Bad {
        name: Name::Table(1),
        at: 34,
    };
    let folder = made(&rt, alloc, 34, 9);
    let ended = ended_of(&rt, alloc, CHECK, folder, "1 bad at 34\nfailed block\n");
    assert!(rt; ended == (6, bad, true));
}

// The seventh read is the first of the check.
#[test]
fn a_failed_read_is_told_by_a_check(rt: HostRuntime) {
    let alloc = rt.alloc();
    let folder = failing(&rt, alloc, 7);
    let ended = ended_of(&rt, alloc, "\\verify t\n", folder, "failed read\n");
    assert!(rt; ended == (5, Cause::Disk, true));
}
