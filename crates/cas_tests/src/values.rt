//! Which bytes are values and how values are ordered, by hand; keys; copies.

use cas_types::{
    Bytes, KeyBuilder, KeyFault, List, Text, TypeTag, check, compare, shard_of, value_orders,
};
use std::alloc::Global;
use std::cmp::Ordering;

const TYPES: [TypeTag; 13] = [
    TypeTag::Ascii,
    TypeTag::BigInt,
    TypeTag::Blob,
    TypeTag::Boolean,
    TypeTag::Date,
    TypeTag::Int,
    TypeTag::SmallInt,
    TypeTag::Text,
    TypeTag::Time,
    TypeTag::Timestamp,
    TypeTag::TimeUuid,
    TypeTag::TinyInt,
    TypeTag::Uuid,
];

// A line for each of the types: its values in their order, and after `not` bytes that are none. Of the time of
// a version 1 uuid bytes 0 to 3 count least, then bytes 4 and 5, then bytes 6 and 7.
const VALUES: &str = "\
ascii 0x 0x5a 0x61 0x617f not 0x6180
bigint 0x8000000000000000 0xffffffffffffffff 0x0000000000000000 not 0x00000000000000 0x000000000000000000
blob 0x 0x01 0x0100 0x7f 0x80 0xff00
boolean 0x00 0x01 not 0x02 0x 0x0000
date 0x00000000 0x7fffffff 0x80000000 0xffffffff not 0x000000 0x0000000000
int 0x80000000 0xffffffff 0x00000000 not 0x000000 0x0000000000
smallint 0x8000 0xffff 0x0000 not 0x00 0x000000
text 0x 0x61007f 0x7a 0xc280dfbf 0xc3a9 0xe0a080ed9fbfee8080efbfbf 0xf0908080f48fbfbf \
not 0x80 0xc3 0xc1bf 0xe09fbf 0xeda080 0xf08fbfbf 0xf4908080 0xff
time 0x0000000000000000 0x0000000000000100 0x0000000000000101 0x00004e94914effff \
not 0x00004e94914f0000 0xffffffffffffffff 0x00000000000000
timestamp 0x8000000000000000 0x7f00000000000000 not 0x00000000000000
timeuuid 0x0100000000001000ff00000000000000 0x02000000000010000000000000000000 \
0xffffffff000010000000000000000000 0x00000000000110000000000000000000 \
0xffffffffffff10000000000000000000 0x00000000000010010000000000000000 \
0x0000000000001f000000000000000000 \
not 0x00000000000040000000000000000000 0x00000000000001000000000000000000 0x000000000000100000000000000000
tinyint 0x80 0xff 0x7f not 0x 0x0000
uuid 0x00000000000010008000000000000000 0x00000000000010008000000000000001 \
0xffffffffffff1fffbfffffffffffffff 0x00000000000040008000000000000000 \
0x00ffffffffff4fffffffffffffffffff 0x01000000000040008000000000000000 \
0xff000000000040008000000000000000 0x00000000000050008000000000000000 \
not 0x000000000000400000000000000000 0x0000000000004000000000000000000000";

// Whether the value stands behind the one before it.
fn is_behind(tag: TypeTag, last: &Option<Vec<u8>>, value: &[u8]) -> bool {
    match last {
        Some(last) => {
            compare(tag, last, value) == Ordering::Less
                && compare(tag, value, last) == Ordering::Greater
                && compare(tag, value, value) == Ordering::Equal
        }
        None => true,
    }
}

// Whether the type has the line's values alone, and in their order.
fn is_told(alloc: Global, tag: TypeTag, line: &str) -> bool {
    let mut is_value = true;
    let mut last = None;
    for word in line.split(' ') {
        if word == "not" {
            is_value = false;
        } else if let Some(digits) = word.strip_prefix("0x") {
            let Ok(bytes) = hex::decode(alloc, digits) else {
                return false;
            };
            let is_in_order = !is_value || is_behind(tag, &last, &bytes);
            if check(tag, &bytes).is_ok() != is_value || !is_in_order {
                return false;
            }
            last = Some(bytes);
        }
    }
    true
}

#[test]
fn each_type_has_its_values_in_their_order(rt: HostRuntime) {
    let mut lines = VALUES.lines();
    for tag in TYPES {
        let Some(line) = lines.next() else {
            panic!(rt; "a line too few");
        };
        assert!(rt; is_told(rt.alloc(), tag, line), "{line}");
    }
    value_orders();
}

fn key_of(alloc: Global, first: &[u8], second: &[u8]) -> Result<Vec<u8>, KeyFault> {
    let mut key = KeyBuilder::new(alloc, 2);
    if key.push(first).is_err() || key.push(second).is_err() {
        return Err(KeyFault::Mem);
    }
    key.finish()
}

fn key_of_one(alloc: Global, value: &[u8]) -> Result<Vec<u8>, KeyFault> {
    let mut key = KeyBuilder::new(alloc, 1);
    if key.push(value).is_err() {
        return Err(KeyFault::Mem);
    }
    key.finish()
}

const KEY: [u8; 11] = *b"\0\x04\0\0\0\x01\0\0\x01\x78\0";

#[test]
fn a_key_has_the_bytes_of_its_columns(rt: HostRuntime) {
    let key = key_of(rt.alloc(), b"\0\0\0\x01", b"x").unwrap_or(Vec::new(rt.alloc()));
    assert!(rt; key.as_slice() == KEY.as_slice());
    assert_eq!(rt; shard_of(&key, 4), 2);
}

#[test]
fn a_key_has_1_to_65535_bytes(rt: HostRuntime) {
    let longest = [0; 65_535];
    assert!(rt; key_of_one(rt.alloc(), &longest).is_ok());
    assert!(rt; matches!(key_of_one(rt.alloc(), b""), Err(KeyFault::Empty)));
    assert!(rt;
        matches!(
            key_of(rt.alloc(), &longest, b""),
            Err(KeyFault::TooLong { length: 65_541 })
        )
    );
}

fn are_bytes_copied(alloc: Global) -> bool {
    match Bytes::copy_of(alloc, b"ab") {
        Ok(bytes) => bytes.clone().is_ok(),
        Err(_) => false,
    }
}

// That a copy is equal is proved.
#[test]
fn bytes_lists_and_texts_are_copied(rt: HostRuntime) {
    assert!(rt; are_bytes_copied(rt.alloc()));
    let list: List<u8> = List::from_vec(Vec::new(rt.alloc()));
    assert!(rt; list.clone().is_ok());
    let text = Text::from_string(String::new(rt.alloc()));
    assert!(rt; text.clone().is_ok());
}
