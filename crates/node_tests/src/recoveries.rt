//! What an opening answers of a store with a table file, and of the same one with files that aren't as they must be.

use crate::flushed::{failing, found, put};
use cas_bind::Limits;
use cas_disk::{Count, FaultCount, Folder, MemFolder, MemSealed, Name};
use cas_recovery::{RecoveryFault, Started, recover};
use std::alloc::Global;
use std::process::Abort;

// A new store would have four shards.
const LIMITS: Limits = Limits {
    shards: 4,
    segment: 4_096,
    memtable: 0,
    compactors: 0,
};

/// What is answered: how many tables there are, and the number of each shard's last mutation, or a fault; then how often
/// the folder failed, and how often a read of a table file did.
type Answer = (Result<(usize, u64, u64), RecoveryFault>, u64, u64);

// That of the folder as it is.
const FOUND: Answer = (Ok((1, 0, 5)), 0, 0);

fn numbers(started: &Started<MemSealed>) -> (usize, u64, u64) {
    match started.shards.as_slice() {
        [first, second] => (started.tables.len(), first.number(), second.number()),
        _ => (0, 0, 0),
    }
}

fn answer(alloc: Global, folder: &mut MemFolder) -> Answer {
    let mut tally = FaultCount::fresh();
    let found = match recover(alloc, folder, &LIMITS, &mut tally) {
        Ok(started) => Ok(numbers(&started)),
        Err(fault) => Err(fault),
    };
    (found, folder.faults(), tally.faults())
}

// A block of the commit log by hand: of shard 1 the mutation up to which the table file has them, and the next one.
const BLOCK: [u8; 116] = [
    1, 0, 0, 0, 106, 0, 0, 0, 2, // an open gate, the bytes of the records, and how many they are
    0, 0, 0, 49, 0, 0, 1, // of table 0 in shard 1
    0, 0, 0, 0, 0, 0, 0, 5, // its number
    0, 0, 0, 0, 0, 0, 0, 0, 20, // its timestamp, not drawn
    0, 0, 0, 0, 0, 0, 0, 77, // its moment
    0, 1, 1, 0, 0, 0, 1, // its key, and one atom
    5, 1, 0, 1, 5, 0, 0, 0, 0, 0, 0, 0, 0, 20, // the row is there
    0, 0, 0, 49, 0, 0, 1, //
    0, 0, 0, 0, 0, 0, 0, 6, //
    0, 0, 0, 0, 0, 0, 0, 0, 30, //
    0, 0, 0, 0, 0, 0, 0, 78, //
    0, 1, 2, 0, 0, 0, 1, //
    5, 1, 0, 1, 8, 0, 0, 0, 0, 0, 0, 0, 0, 30, //
    0, // the next gate is closed
];

// Whether the folder is opened as it is; once more, where the manifest lists the segment that was begun; and once a block
// stands in that.
fn is_found(alloc: Global, folder: &mut MemFolder) -> bool {
    answer(alloc, folder) == FOUND
        && answer(alloc, folder) == FOUND
        && folder.write_at(Name::Log(1), 24, &BLOCK).is_ok()
        && answer(alloc, folder) == (Ok((1, 0, 6)), 0, 0)
}

// Whether a table file that isn't listed goes, and the listed one stays.
fn is_swept(alloc: Global, folder: &mut MemFolder) -> bool {
    put(folder, Name::Table(9), b"")
        && answer(alloc, folder) == FOUND
        && !folder.has(Name::Table(9))
        && folder.has(Name::Table(1))
}

#[test]
fn a_flushed_file_is_found_by_an_opening(rt: HostRuntime) {
    let alloc = rt.alloc();
    assert!(rt; is_found(alloc, &mut found(&rt, alloc)));
    assert!(rt; is_swept(alloc, &mut found(&rt, alloc)));
}

fn expected(refused: Option<u64>) -> Answer {
    let name = Name::Table(1);
    match refused {
        Some(at) => (Err(RecoveryFault::Bad { name, at }), 0, 0),
        None => FOUND,
    }
}

// The folder is answered so where this byte stands at a place of the table file.
fn tells(rt: &impl Abort, alloc: Global, place: u64, byte: u8, refused: Option<u64>) {
    let mut folder = found(rt, alloc);
    assert!(rt;
        folder.write_at(Name::Table(1), place, &[byte]).is_ok()
            && answer(alloc, &mut folder) == expected(refused),
        "{place}"
    );
}

// Another byte at a place of the table file, and where that is refused.
#[test]
fn another_byte_is_found(rt: HostRuntime) {
    let alloc = rt.alloc();
    tells(&rt, alloc, 9, 2, None); // as it is
    tells(&rt, alloc, 9, 1, None); // of the first version
    tells(&rt, alloc, 7, 0x32, Some(0)); // another word
    tells(&rt, alloc, 9, 3, Some(8)); // no such version
    tells(&rt, alloc, 11, 1, Some(10)); // of another table
    tells(&rt, alloc, 12, 0, Some(12)); // of another shard
    tells(&rt, alloc, 20, 2, Some(13)); // of another number
    tells(&rt, alloc, 31, 3, None); // no fragment, in a partition, which isn't read
    tells(&rt, alloc, 122, 0, Some(121)); // an empty key in the index
    tells(&rt, alloc, 199, 21, Some(192)); // a timestamp that isn't listed so
    tells(&rt, alloc, 237, 0x32, Some(230)); // another word at the end
}

// Whether a listed file that isn't there is bad at its beginning.
fn is_missed(alloc: Global, folder: &mut MemFolder) -> bool {
    folder.remove(Name::Table(1)).is_ok() && answer(alloc, folder) == expected(Some(0))
}

// Whether the folder is answered so where the read of this number fails.
fn is_answered(rt: &impl Abort, alloc: Global, read: u64, expected: Answer) -> bool {
    answer(alloc, &mut failing(rt, alloc, read)) == expected
}

// Loading takes six reads: each of them that fails is told and counted, and one behind them isn't done.
#[test]
fn what_fails_is_told(rt: HostRuntime) {
    let alloc = rt.alloc();
    assert!(rt; is_missed(alloc, &mut found(&rt, alloc)));
    for read in 1..=6 {
        let told = (Err(RecoveryFault::Read), 0, 1);
        assert!(rt; is_answered(&rt, alloc, read, told), "{read}");
    }
    assert!(rt; is_answered(&rt, alloc, 7, FOUND));
}
