//! Segments of one INSERT each, by hand: read back, and what their altered bytes answer.

use crate::answers::altered_of;
use crate::insert::{RECORD, tables};
use cas_disk::{FaultPlan, Folder, MemFolder, Name};
use cas_replay::{ReplayFault, replay};
use std::alloc::Global;

// What stands before the record: the segment's header, the open gate and the block's lengths.
const BEFORE: [u8; 33] = [
    0x43, 0x41, 0x53, 0x53, 0x4c, 0x4f, 0x47, 0x31, // CASSLOG1
    0, 0, 0, 0, 0, 0, 0, 1, // the segment's number
    0, 0, 0, 0, 0, 0, 0x10, 0, // its size
    1, // the gate is open
    0, 0, 0, 85, 0, 0, 0, 1, // one record of 85 bytes
];

// The segment of this number with the mutation of this number, and the next gate closed.
fn segment(number: u8) -> [u8; 119] {
    let mut whole = [0; 119];
    whole[..33].copy_from_slice(&BEFORE);
    whole[33..118].copy_from_slice(&RECORD);
    whole[15] = number;
    whole[47] = number;
    whole
}

// Whether these bytes become a segment's, in a folder in which it isn't there.
fn put(folder: &mut MemFolder, number: u64, bytes: &[u8]) -> bool {
    let name = Name::Log(number);
    !folder.has(name) && folder.create(name).is_ok() && folder.write_at(name, 0, bytes).is_ok()
}

fn empty(alloc: Global) -> MemFolder {
    MemFolder::new(alloc, FaultPlan::none(alloc))
}

// How many mutations are read of the segments, or the segment and the place that is refused.
fn count<F: Folder>(
    alloc: Global,
    folder: &mut F,
    segments: &[u64],
    frontier: u64,
) -> Result<usize, (u64, u64)> {
    let Ok(tables) = tables(alloc) else {
        return Err((0, 0));
    };
    match replay(alloc, folder, segments, &tables, 1, &[frontier]) {
        Ok(mutations) => Ok(mutations.len()),
        Err(ReplayFault::Bad { segment, at }) => Err((segment, at)),
        Err(ReplayFault::Failed | ReplayFault::Mem) => Err((0, 0)),
    }
}

// How many mutations are read of the segment 1, cut to so many bytes, with another byte at a place, or where it is refused.
fn count_altered(alloc: Global, long: usize, place: usize, byte: u8) -> Result<usize, u64> {
    let mut bytes = segment(1);
    if let Some(at) = bytes.get_mut(place) {
        *at = byte;
    }
    let mut folder = empty(alloc);
    if !put(&mut folder, 1, &bytes[..long.min(119)]) {
        return Err(0);
    }
    count(alloc, &mut folder, &[1], 0).map_err(|(_segment, at)| at)
}

// Another byte at each place from one to another: how many mutations are read of the whole segment, or after `!` where it
// is refused; and why.
const EACH: &str = "\
0 0 67 1 as it is
0 7 0 !0 another word
8 14 1 !8 another number
15 15 2 !8
16 19 1 !16 above 33,554,432
20 20 3 !16
21 21 1 1 another size
22 22 0 !16 below 4,096
23 23 1 1
24 24 2 0 the gate is closed
25 27 1 !25 more than there is
28 28 87 !25 more than there is
28 28 86 !118 a byte is left over
28 28 84 !33 the record runs past the body
29 31 1 !118 records too many
32 32 0 !33 and one too few
33 35 1 !33 the record runs past the body
36 36 82 !33
36 36 80 !113 the value runs past the record
37 38 1 !37 no such table
39 39 1 !39 no such shard
40 40 16 !40 above 2^60
41 46 1 1 another number, as the first one may have
47 47 0 !40 mutations are numbered from 1
48 48 2 !48 neither yes nor no
49 49 65 !49 above 2^62
50 56 1 1 another timestamp
57 59 1 !57 past the year 9999
60 64 1 1 another moment
65 65 1 !65 the key runs past the record
66 66 0 !65 a key has a byte
67 70 7 1 another key
71 73 1 !118 atoms too many
74 74 3 !118
74 74 1 !92 and one too few
75 75 9 !75 no such kind
76 76 2 !76 a row has one value
77 77 1 !77 that runs past the record
78 78 5 !77 an int has four bytes
79 82 7 1 another row
83 83 2 !83 neither yes nor no
84 91 1 1 another timestamp
92 92 0 !92 no such kind
93 93 0 !93 a row has one value
94 94 1 !94 that runs past the record
95 95 3 !94 an int has four bytes
96 99 7 1 another row
100 100 1 !100 no such column
101 101 1 !100 a column of the key
102 103 1 !102 a text has no path
104 104 3 !104 neither plain, expiring nor deleted
105 112 1 1 another timestamp
113 115 1 !113 the value runs past the record
116 116 0 !117 a byte is left over
117 117 98 1 'b'
117 117 255 !113 no text
118 118 1 !119 open, and no block behind it
118 118 2 1 any other byte counts as closed";

// Whether each place of the line is answered as it says.
fn is_told(alloc: Global, line: &str) -> bool {
    let Some((first, last, byte, answer)) = altered_of(line) else {
        return false;
    };
    for place in first..=last {
        if count_altered(alloc, 119, place, byte) != answer {
            return false;
        }
    }
    true
}

#[test]
fn each_byte_of_a_segment(rt: HostRuntime) {
    for line in EACH.lines() {
        assert!(rt; is_told(rt.alloc(), line), "{line}");
    }
}

// Whether so many segments of one mutation each are put into the folder.
fn put_segments(folder: &mut MemFolder, count: u8) -> bool {
    for number in 1..=count {
        if !put(folder, number as u64, &segment(number)) {
            return false;
        }
    }
    true
}

const LISTED: [u64; 20] = [
    1, 2, 3, 4, 5, 6, 7, 8, 9, 10, 11, 12, 13, 14, 15, 16, 17, 18, 19, 20,
];

// Of the segments 1 to 20.
fn are_counted(alloc: Global, folder: &mut MemFolder) -> bool {
    count(alloc, folder, &LISTED, 0) == Ok(20)
        && count(alloc, folder, &LISTED, 12) == Ok(8) // up to the frontier they are in table files
        && count(alloc, folder, &LISTED, 20) == Ok(0)
        && count(alloc, folder, &LISTED[..6], 3) == Ok(3)
        && count(alloc, folder, &LISTED[7..], 0) == Ok(13) // the first of a shard may have any number
        && count(alloc, folder, &[3, 5], 0) == Err((5, 33)) // 4 is skipped
        && count(alloc, folder, &[1, 2, 21], 0) == Err((21, 0)) // it isn't there
}

#[test]
fn a_log_of_20_segments(rt: HostRuntime) {
    let mut folder = empty(rt.alloc());
    assert!(rt; put_segments(&mut folder, 20) && are_counted(rt.alloc(), &mut folder));
    assert!(rt; count_altered(rt.alloc(), 4, 0, 0x43) == Err(0)); // cut within its first word
    assert!(rt; count_altered(rt.alloc(), 24, 0, 0x43) == Err(24)); // cut behind its header
}
