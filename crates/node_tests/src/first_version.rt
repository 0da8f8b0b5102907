//! A run over the folder of `flushed.rt`, whose table file is one of the format's first version, by hand.

use crate::flushed::listing;
use crate::runs::{run_in, source_of};
use cas_io::MemSink;
use cas_node::Cause;
use std::alloc::Global;
use std::process::Abort;

// The partition 1 with two rows, in whose head nothing stands for static columns.
const FIRST: [u8; 236] = [
    0x43, 0x41, 0x53, 0x53, 0x54, 0x41, 0x42, 0x31, // CASSTAB1
    0, 1, 0, 0, 1, // version 1, table 0, shard 1
    0, 0, 0, 0, 0, 0, 0, 1, // file 1
    0, 1, 1, 0, // 21: the partition 01, not deleted
    0, 0, 0, 0x52, // 25: a block of 82 bytes
    1, 1, 0, 1, 3, 0, // the row 3, not deleted
    1, 0, 0, 0, 0, 0, 0, 0, 0, 10, // inserted at 10
    0, 1, 0, 2, 0, // one column, v, not deleted
    0, 0, 0, 1, 0, 0, // one cell, without a path
    0, 0, 0, 0, 0, 0, 0, 0, 10, 0, 0, 0, 1, 30, // 30 at 10
    1, 1, 0, 1, 5, 0, // the row 5, not deleted
    1, 0, 0, 0, 0, 0, 0, 0, 0, 20, // inserted at 20
    0, 1, 0, 2, 0, // one column, v, not deleted
    0, 0, 0, 1, 0, 0, // one cell, without a path
    0, 0, 0, 0, 0, 0, 0, 0, 20, 0, 0, 0, 1, 50, // 50 at 20
    0, 0, 0, 0, // no more blocks
    0, 0, 0, 1, // 115, the index: one partition
    0, 1, 1, // 01
    0, 0, 0, 0, 0, 0, 0, 0x15, // stands at 21
    0, 0, 0, 1, // and has one block
    0, 1, 0, 1, 3, // which begins before the row 3
    0, 0, 0, 0, 0, 0, 0, 0x19, // stands at 25
    0, // and no range deletion is in force there
    0, 0, 0, 0x40, // 148, the filter: 64 bits
    1, 0x10, 8, 4, 0x40, 0x20, 0, 2, // of the key
    0, 0, 0, 0, 0, 0, 0, 1, // 160, the info: file 1
    0, 0, 0, 0, 0, 0, 0, 236, // 236 bytes
    0, 1, 1, 0, 1, 1, // from 01 to 01
    0, 0, 0, 0, 0, 0, 0, 10, // from 10
    0, 0, 0, 0, 0, 0, 0, 20, // to 20
    0, 0, // not all is dead, level 0
    0, 0, 0, 1, // one key
    0, 0, 0, 0, 0, 0, 0, 0x73, // 204, the footer: the index
    0, 0, 0, 0, 0, 0, 0, 0x94, // the filter
    0, 0, 0, 0, 0, 0, 0, 0xa0, // the info
    0x43, 0x41, 0x53, 0x53, 0x45, 0x4e, 0x44, 0x31, // CASSEND1
];

// The rows of the file are read and it is checked; a row is written and flushed to another file.
const SCRIPT: &str = "SELECT c, v FROM t WHERE k = 1
\\verify t
INSERT INTO t (k, c, v) VALUES (1, 4, 40)
\\flush t
\\verify t
SELECT c, v FROM t WHERE k = 1
";

const OUTPUT: &str = "3 | 30
5 | 50
-- 2 rows, shard 1, front 5, now 77
1 good
ok 6
flushed 2
1 good
2 good
3 | 30
4 | 40
5 | 50
-- 3 rows, shard 1, front 6, now 77
";

// How a run over the folder with such a file ended, and whether it printed this.
fn ended(rt: &impl Abort, alloc: Global) -> (u8, Cause, bool) {
    let folder = listing(rt, alloc, &FIRST, 236);
    let mut source = source_of(rt, alloc, SCRIPT);
    let ended = run_in(rt, alloc, &mut source, MemSink::new(alloc), folder);
    let is_printed = ended.output.as_slice() == OUTPUT.as_bytes();
    (ended.status, ended.cause, is_printed)
}

#[test]
fn a_run_begins_with_a_file_of_the_first_version(rt: HostRuntime) {
    assert!(rt; ended(&rt, rt.alloc()) == (0, Cause::Good, true));
}
