//! A manifest, written by hand, and what its altered bytes answer.

use crate::answers::altered_of;
use cas_manifest::{ManifestFault, read_manifest};
use std::alloc::Global;

// The manifest of a store of one shard with the table t, a segment that came and went, and a table file.
const MANIFEST: [u8; 233] = [
    1, 0x43, 0x41, 0x53, 0x53, 0x4d, 0x41, 0x4e, 0x31, // its gate is open, CASSMAN1
    1, 0, 0, 0, 2, 0, 0, 0, 1, // an open gate, and the lengths of a block
    1, 1, // one shard
    1, 0, 0, 0, 62, 0, 0, 0, 1, //
    2, 0, 0, 0, 1, 0x74, // table 0 is t
    0, 3, // three columns
    0, 1, 0x6b, 0, 0, 5, // k int, of the partition key
    0, 1, 0x63, 1, 0, 5, // c int, a clustering column
    0, 1, 0x76, 3, 0, 7, // v text
    0, 0x0d, 0x2f, 0, 0, 0, 0, 0, 0, // ten days, no TTL, size-tiered
    0, 4, 0, 32, 0, 0, 0, 50, 0, 0, 0, 150, // the thresholds and bounds
    0, 0, 0, 0, 3, 0x20, 0, 0, 0, 160, 0, 10, // the sizes
    2, 0, 1, // windows of one day
    1, 0, 0, 0, 9, 0, 0, 0, 1, //
    3, 0, 0, 0, 0, 0, 0, 0, 1, // segment 1 is listed
    1, 0, 0, 0, 76, 0, 0, 0, 1, //
    5, 0, 0, 0, // table 0 in shard 0
    0, 0, 0, 0, 0, 0, 0, 0, // the moment
    0, 0, 0, 0, 0, 0, 0, 1, // the frontier
    0xff, 0xff, 0xff, 0xff, 0xff, 0xff, 0xff, 0xfe, // no timestamp was drawn
    0, 0, 0, 1, // none is removed, one added
    0, 0, 0, 0, 0, 0, 0, 1, 0, 0, 0, 0, 0, 0, 2, 0, // table file 1 of 512 bytes
    0, 1, 1, 0, 1, 2, // its keys
    0, 0, 0, 0, 0, 0, 0, 3, 0, 0, 0, 0, 0, 0, 0, 4, 0, // its timestamps, nothing dead
    0, 0, 0, 0, 2, // level 0, two keys
    1, 0, 0, 0, 11, 0, 0, 0, 1, //
    6, 0, 0, 0, 1, 0, 1, 0x6e, 3, 0, 5, // t gets n int
    1, 0, 0, 0, 9, 0, 0, 0, 1, //
    4, 0, 0, 0, 0, 0, 0, 0, 1, // segment 1 isn't listed any more
    0, // the next gate is closed
];

// How many entries are read of the bytes with another byte at a place, or where they are refused; 999 where memory
// runs out.
fn count_altered(alloc: Global, bytes: &mut [u8], place: usize, byte: u8) -> Result<usize, u64> {
    if let Some(at) = bytes.get_mut(place) {
        *at = byte;
    }
    match read_manifest(alloc, bytes) {
        Ok((_said, entries, _end)) => Ok(entries.len()),
        Err(ManifestFault::Bad { at }) => Err(at),
        Err(_) => Err(999),
    }
}

// Another byte at each place from one to another: how many entries are read, or after `!` where the manifest is refused; and why.
const ALTERED: &str = "\
0 0 1 6 as it is
0 0 0 !0 it isn't made
8 8 50 !1 another word
9 9 0 0 the first gate is closed
13 13 3 !20 a byte is left over
13 13 1 !19 and one too few
17 17 2 !14 a block has one entry
18 18 99 !18 no such kind
18 18 3 !18 the shards come first
19 19 0 !19 a store has a shard
29 29 1 !29 its shards are said once
31 31 1 !30 tables are numbered from 0
34 34 32 !32 no letter
40 40 3 !40 the key's columns come first
45 45 107 !43 a name stands twice
47 47 1 !47 no collection is a key
54 54 13 !54 no such type
65 65 33 !66 more at least than at most
108 108 0 !101 segments are numbered from 1
120 120 1 !119 no such table
121 121 1 !121 no such shard
145 145 253 !138 below -2
147 147 1 !148 a removed file that isn't listed
157 157 0 !150 files are numbered from 1
205 205 1 !204 no such table
207 207 0 !206 no column
210 210 118 !208 there is a v
211 211 1 !211 no column of the key is added
231 231 2 !224 a segment that isn't listed
232 232 1 !233 open, and no block behind it
232 232 9 6 any other byte counts as closed";

// Whether each place of the line is answered as it says.
fn is_told(alloc: Global, line: &str) -> bool {
    let Some((first, last, byte, answer)) = altered_of(line) else {
        return false;
    };
    for place in first..=last {
        let mut bytes = MANIFEST;
        if count_altered(alloc, &mut bytes, place, byte) != answer {
            return false;
        }
    }
    true
}

#[test]
fn a_manifest_by_hand(rt: HostRuntime) {
    for line in ALTERED.lines() {
        assert!(rt; is_told(rt.alloc(), line), "{line}");
    }
}
