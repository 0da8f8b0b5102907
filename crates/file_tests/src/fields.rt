//! Fields, written by hand, and how they are refused. What is written is what is read: that is proved.

use cas_codec::{ReadFault, Reader, fields_are_exact};
use std::alloc::Global;

// One field of each kind, written by hand.
const FIELDS: [u8; 50] = [
    7, // a byte
    1, 2, // 258
    0, 1, 0, 0, // 65,536
    0, 0, 0, 1, 0, 0, 0, 0, // 2^32
    0xff, 0xff, 0xff, 0xff, 0xff, 0xff, 0xff, 0xfe, // -2
    1, // yes
    0, 2, 0x68, 0x69, // "hi"
    0, 0, 0, 1, 0x21, // "!"
    0, // no number
    1, 0x80, 0, 0, 0, 0, 0, 0, 0, // -2^63
    0, 0, // no bytes
    0, 0, 0, 0, 9, // after the last field
];

fn numbers(reader: &mut Reader<'_>) -> Result<(u8, u16, u32, u64, i64), ReadFault> {
    Ok((
        reader.u8()?,
        reader.u16()?,
        reader.u32()?,
        reader.u64()?,
        reader.i64()?,
    ))
}

fn is_read(bytes: Result<&[u8], ReadFault>, wanted: &[u8]) -> bool {
    match bytes {
        Ok(bytes) => bytes == wanted,
        Err(_) => false,
    }
}

fn is_copied(alloc: Global, reader: &mut Reader<'_>, wanted: &[u8]) -> bool {
    match reader.copy16(alloc) {
        Ok(bytes) => bytes.as_slice() == wanted,
        Err(_) => false,
    }
}

fn are_read(alloc: Global, reader: &mut Reader<'_>) -> bool {
    numbers(reader) == Ok((7, 258, 65_536, 1 << 32, -2))
        && reader.flag() == Ok(true)
        && is_copied(alloc, reader, b"hi")
        && is_read(reader.bytes32(), b"!")
        && reader.maybe_i64() == Ok(None)
        && reader.maybe_i64() == Ok(Some(i64::MIN))
        && is_read(reader.bytes16(), b"")
}

// Whether the reader stands before the last five bytes, and reads them.
fn is_left(reader: &mut Reader<'_>) -> bool {
    if reader.at() != 1045 || reader.left().len() != 5 {
        return false;
    }
    let is_empty = match reader.part(4) {
        Ok(mut part) => is_read(part.bytes32(), b"") && part.is_empty(),
        Err(_) => false,
    };
    is_empty && reader.u8() == Ok(9) && reader.u8() == Err(ReadFault::Short { at: 1050 })
}

#[test]
fn fields_are_read_as_by_hand(rt: HostRuntime) {
    fields_are_exact();
    let mut reader = Reader::new(&FIELDS, 1000);
    assert!(rt; are_read(rt.alloc(), &mut reader) && is_left(&mut reader));
}

// How so many zeros behind a first byte are refused as a number that may be absent.
fn fault(first: u8, zeros: usize) -> Option<ReadFault> {
    let mut bytes = [0; 16];
    bytes[0] = first;
    Reader::new(&bytes[..zeros.min(14) + 1], 8)
        .maybe_i64()
        .err()
}

const SHORT: Option<ReadFault> = Some(ReadFault::Short { at: 8 });

const BAD: Option<ReadFault> = Some(ReadFault::Bad { at: 8 });

fn are_refused() -> bool {
    fault(2, 0) == BAD
        && fault(2, 8) == BAD
        && fault(0xff, 0) == BAD
        && fault(1, 0) == Some(ReadFault::Short { at: 9 })
        && fault(1, 7) == Some(ReadFault::Short { at: 9 })
        && Reader::new(b"", 8).maybe_i64().err() == SHORT
        && Reader::new(b"\0\x03hi", 8).bytes16().err() == SHORT
        && Reader::new(b"\0\0\0\x02!", 8).bytes32().err() == SHORT
        && Reader::new(b"\x09", 8).u8_within(0, 8).err() == BAD
        && Reader::new(b"\x08", 8).u8_within(0, 8) == Ok(8)
}

#[test]
fn a_refusal_names_the_first_byte_of_the_field(rt: HostRuntime) {
    assert!(rt; are_refused());
}
