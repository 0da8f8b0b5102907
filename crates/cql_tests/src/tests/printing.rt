//! What is printed that no script shows: bytes that are no value of their type, and each failure.

use cas_atoms::{Datum, LiveRow};
use cas_render::{Failure, Reply, render};
use cas_types::{Bytes, List, Mem, TypeTag};
use cql_lex::blob_of;
use std::alloc::Global;

const TYPES: [TypeTag; 11] = [
    TypeTag::Ascii,
    TypeTag::BigInt,
    TypeTag::Boolean,
    TypeTag::Date,
    TypeTag::Int,
    TypeTag::SmallInt,
    TypeTag::Text,
    TypeTag::Time,
    TypeTag::TimeUuid,
    TypeTag::TinyInt,
    TypeTag::Uuid,
];

// For each of the types bytes that are no value of it, as they are printed.
const BYTES: &str = "\
0x6180
0x00000001
0x02
0x800000
0x
0x01
0xff
0x00004e94914f0000
0x550e8400e29b41d4a716446655440000
0x
0x550e";

// What is printed behind the row.
const BEHIND: &str = "\n-- 1 rows, shard 15, front 18446744073709551615, now 253402300799\n";

const FAILURES: [Failure; 5] = [
    Failure::Memory,
    Failure::Stopped,
    Failure::Disk,
    Failure::Read,
    Failure::Block { number: 1, at: 32 },
];

const FAILED: &str = "\
failed memory
failed stopped
failed disk
failed read
failed block
";

// A reply of one row with this value.
fn row(alloc: Global, tag: TypeTag, bytes: Bytes) -> Result<Reply, Mem> {
    let values = vec![in alloc; Datum::One(tag, bytes)]?;
    let row = LiveRow {
        values: List::from_vec(values),
    };
    Ok(Reply::Rows {
        rows: List::from_vec(vec![in alloc; row]?),
        shard: 15,
        front: 18_446_744_073_709_551_615,
        now: 253_402_300_799,
    })
}

fn is_row(all: &[u8], text: &str) -> bool {
    let (front, behind) = all.split_at(text.len().min(all.len()));
    front == text.as_bytes() && behind == BEHIND.as_bytes()
}

fn is_printed(alloc: Global, tag: TypeTag, text: &str) -> Option<bool> {
    let bytes = blob_of(alloc, text.as_bytes()).ok()??;
    let reply = row(alloc, tag, bytes).ok()?;
    let mut all = Vec::new(alloc);
    render(alloc, &reply, &mut all).ok()?;
    Some(is_row(&all, text))
}

fn are_failures_printed(alloc: Global) -> bool {
    let mut all = Vec::new(alloc);
    for failure in FAILURES {
        if render(alloc, &Reply::Failed(failure), &mut all).is_err() {
            return false;
        }
    }
    all.as_slice() == FAILED.as_bytes()
}

#[test]
fn what_no_script_shows_is_printed(rt: HostRuntime) {
    let mut lines = BYTES.lines();
    for tag in TYPES {
        let Some(text) = lines.next() else {
            panic!(rt; "a line too few");
        };
        assert!(rt; is_printed(rt.alloc(), tag, text) == Some(true), "{text}");
    }
    assert!(rt; are_failures_printed(rt.alloc()));
}
