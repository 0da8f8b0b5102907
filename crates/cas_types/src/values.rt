//! Which bytes are a value of a native type, and the order of two values.

ghost use Rattle.std.specs.Prelude.{◌≡◌, is_ok};
ghost use Rattle.std.specs.Int.{w8, w16, w32, w64};
ghost use Rattle.cas_types.specs.Values.{is_value, value_cmp, signed_number, day_number, is_ascii_text, is_time};
ghost use Rattle.std.specs.Str.{is_utf8};

use crate::bytes::compare_bytes;
use crate::limits::LAST_NANOSECOND;
use crate::tag::TypeTag;
use crate::uuid_order::{compare_uuids, uuid_version};
use std::cmp::Ordering;

/// The bytes are no value of the type.
#[derive(Clone, Copy)]
pub struct BadValue;

/// Whether the bytes are a value of the type.
pub fn check(tag: TypeTag, bytes: &[u8]) -> Result<(), BadValue>
    ensures { is_ok result ≡ is_value tag bytes.now }
{
    if is_value(tag, bytes) {
        Ok(())
    } else {
        Err(BadValue)
    }
}

fn is_value(tag: TypeTag, bytes: &[u8]) -> bool
    ensures { result ≡ is_value tag bytes.now }
{
    match tag {
        TypeTag::Ascii => is_ascii(bytes),
        TypeTag::Blob => true,
        TypeTag::Boolean => matches!(bytes, [0] | [1]),
        TypeTag::TinyInt => bytes.len() == 1,
        TypeTag::SmallInt => bytes.len() == 2,
        TypeTag::Date | TypeTag::Int => bytes.len() == 4,
        TypeTag::BigInt | TypeTag::Timestamp => bytes.len() == 8,
        TypeTag::Time => is_time(bytes),
        TypeTag::Text => is_text(bytes),
        TypeTag::TimeUuid => uuid_version(bytes) == Some(1),
        TypeTag::Uuid => bytes.len() == 16,
    }
}

/// The order of two values of the type. Bytes that are no value of it have their place too, so
/// that the order is total on all bytes.
pub fn compare(tag: TypeTag, a: &[u8], b: &[u8]) -> Ordering
    ensures { result ≡ value_cmp tag a.now b.now }
{
    match tag {
        TypeTag::Ascii | TypeTag::Blob | TypeTag::Boolean | TypeTag::Text => compare_bytes(a, b),
        TypeTag::TinyInt => tinyint_value(a)
            .cmp(&tinyint_value(b))
            .then_with(|| compare_bytes(a, b)),
        TypeTag::SmallInt => smallint_value(a)
            .cmp(&smallint_value(b))
            .then_with(|| compare_bytes(a, b)),
        TypeTag::Int => int_value(a)
            .cmp(&int_value(b))
            .then_with(|| compare_bytes(a, b)),
        TypeTag::BigInt | TypeTag::Time | TypeTag::Timestamp => {
            bigint_value(a)
                .cmp(&bigint_value(b))
                .then_with(|| compare_bytes(a, b))
        }
        TypeTag::Date => date_value(a)
            .cmp(&date_value(b))
            .then_with(|| compare_bytes(a, b)),
        TypeTag::TimeUuid | TypeTag::Uuid => compare_uuids(a, b),
    }
}

fn is_ascii(bytes: &[u8]) -> bool
    ensures { result ≡ is_ascii_text bytes.now }
{
    bytes.is_ascii()
}

// Most texts are ASCII, which is tested eight bytes at a time.
fn is_text(bytes: &[u8]) -> bool
    ensures { result ≡ is_utf8 bytes.now }
{
    bytes.is_ascii() || is_utf8(bytes)
}

fn is_utf8(bytes: &[u8]) -> bool
    ensures { result ≡ is_utf8 bytes.now }
{
    std::str::from_utf8(bytes).is_ok()
}

fn is_time(bytes: &[u8]) -> bool
    ensures { result ≡ is_time bytes.now }
{
    match bytes {
        [a, b, c, d, e, f, g, h] => {
            u64::from_be_bytes([*a, *b, *c, *d, *e, *f, *g, *h]) <= LAST_NANOSECOND
        }
        _ => false,
    }
}

/// The number that a `tinyint`'s one byte is.
pub fn tinyint_value(bytes: &[u8]) -> Option<i8>
    ensures { result ≡ signed_number w8 bytes.now }
{
    match bytes {
        [a] => Some(i8::from_be_bytes([*a])),
        _ => None,
    }
}

/// The number that a `smallint`'s two bytes are, most significant first.
pub fn smallint_value(bytes: &[u8]) -> Option<i16>
    ensures { result ≡ signed_number w16 bytes.now }
{
    match bytes {
        [a, b] => Some(i16::from_be_bytes([*a, *b])),
        _ => None,
    }
}

/// The number that an `int`'s four bytes are, most significant first.
#[inline]
pub fn int_value(bytes: &[u8]) -> Option<i32>
    ensures { result ≡ signed_number w32 bytes.now }
{
    match <&[u8; 4]>::try_from(bytes) {
        Ok(number) => Some(i32::from_be_bytes(*number)),
        Err(_) => None,
    }
}

/// The number that the eight bytes of a `bigint`, a `time` or a `timestamp` are, most significant
/// first.
#[inline]
pub fn bigint_value(bytes: &[u8]) -> Option<i64>
    ensures { result ≡ signed_number w64 bytes.now }
{
    match <&[u8; 8]>::try_from(bytes) {
        Ok(number) => Some(i64::from_be_bytes(*number)),
        Err(_) => None,
    }
}

/// The number of the day that a `date`'s four bytes are, most significant first; 2^31 is 1970-01-01.
#[inline]
pub fn date_value(bytes: &[u8]) -> Option<u32>
    ensures { result ≡ day_number bytes.now }
{
    match <&[u8; 4]>::try_from(bytes) {
        Ok(number) => Some(u32::from_be_bytes(*number)),
        Err(_) => None,
    }
}
