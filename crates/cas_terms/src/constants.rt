//! The bytes that constants are as values of types.

ghost use Rattle.std.specs.Prelude.{◌≡◌, ◌^◌, ◌-◌, length, is_some, option_map, IfOk};
ghost use Rattle.std.specs.Bool.{then_some};
ghost use Rattle.std.specs.Int.{w8, w16, w32, w64};
ghost use Rattle.cas_types.specs.declared.limits.TheConstants.{LAST_NANOSECOND};
ghost use Rattle.cas_terms.specs.Constants.{is_in_range, signed_bytes, unsigned_bytes, text_bytes, number_bytes, blob_bytes, uuid_bytes, boolean_bytes};
ghost use Rattle.cas_terms.specs.Constants.{constant_bytes};
ghost use Rattle.cas_terms.specs.Inner.SpelledBytes.{spelled_bytes};

use cas_types::{Bytes, LAST_NANOSECOND, TypeTag, check};
use cql_parse::Constant;
use std::alloc::{AllocError, Global};

/// The bytes of a value, without memory of their own: those of a text, a blob or a uuid where the
/// constant has them, those of a number in the width of its type.
#[derive(Clone, Copy)]
pub enum Spelled<'a> {
    Borrowed(&'a [u8]),
    One([u8; 1]),
    Two([u8; 2]),
    Four([u8; 4]),
    Eight([u8; 8]),
}

impl<'a> Spelled<'a> {
    pub fn as_slice(&self) -> &[u8]
        ensures { result.now ≡ spelled_bytes self.now }
    {
        match self {
            Spelled::Borrowed(bytes) => bytes,
            Spelled::One(bytes) => bytes,
            Spelled::Two(bytes) => bytes,
            Spelled::Four(bytes) => bytes,
            Spelled::Eight(bytes) => bytes,
        }
    }
}

/// Whether the number is neither below the least nor above the greatest.
pub fn is_in_range(least: i128, greatest: i128, number: i128) -> bool
    ensures { result ≡ is_in_range least greatest number }
{
    least <= number && number <= greatest
}

fn spelled_where<'a>(holds: bool, bytes: &'a [u8]) -> Option<Spelled<'a>>
    ensures { option_map spelled_bytes result ≡ then_some holds bytes.now }
{
    if holds {
        Some(Spelled::Borrowed(bytes))
    } else {
        None
    }
}

fn tiny<'a>(number: i128) -> Option<Spelled<'a>>
    ensures { option_map spelled_bytes result ≡ signed_bytes w8 (2 ^ 7) number }
{
    if is_in_range(-(1 << 7), (1 << 7) - 1, number) {
        Some(Spelled::One((number as i8).to_be_bytes()))
    } else {
        None
    }
}

fn small<'a>(number: i128) -> Option<Spelled<'a>>
    ensures { option_map spelled_bytes result ≡ signed_bytes w16 (2 ^ 15) number }
{
    if is_in_range(-(1 << 15), (1 << 15) - 1, number) {
        Some(Spelled::Two((number as i16).to_be_bytes()))
    } else {
        None
    }
}

fn int<'a>(number: i128) -> Option<Spelled<'a>>
    ensures { option_map spelled_bytes result ≡ signed_bytes w32 (2 ^ 31) number }
{
    if is_in_range(-(1 << 31), (1 << 31) - 1, number) {
        Some(Spelled::Four((number as i32).to_be_bytes()))
    } else {
        None
    }
}

fn big<'a>(number: i128) -> Option<Spelled<'a>>
    ensures { option_map spelled_bytes result ≡ signed_bytes w64 (2 ^ 63) number }
{
    if is_in_range(-(1 << 63), (1 << 63) - 1, number) {
        Some(Spelled::Eight((number as i64).to_be_bytes()))
    } else {
        None
    }
}

fn day<'a>(number: i128) -> Option<Spelled<'a>>
    ensures { option_map spelled_bytes result ≡ unsigned_bytes w32 (2 ^ 32 - 1) number }
{
    if is_in_range(0, (1 << 32) - 1, number) {
        Some(Spelled::Four((number as u32).to_be_bytes()))
    } else {
        None
    }
}

fn nanosecond<'a>(number: i128) -> Option<Spelled<'a>>
    ensures { option_map spelled_bytes result ≡ unsigned_bytes w64 LAST_NANOSECOND number }
{
    if is_in_range(0, i128::from(LAST_NANOSECOND), number) {
        Some(Spelled::Eight((number as u64).to_be_bytes()))
    } else {
        None
    }
}

#[tactic(auto, unfolding(crate::specs::Constants::text_bytes))]
fn spelled_text<'a>(tag: TypeTag, text: &'a str) -> Option<Spelled<'a>>
    ensures { option_map spelled_bytes result ≡ text_bytes tag text.now }
{
    let bytes = text.as_bytes();
    match tag {
        TypeTag::Ascii => spelled_where(check(TypeTag::Ascii, bytes).is_ok(), bytes),
        TypeTag::Text => Some(Spelled::Borrowed(bytes)),
        _ => None,
    }
}

#[tactic(auto, unfolding(crate::specs::Constants::number_bytes))]
fn spelled_number<'a>(tag: TypeTag, number: i128) -> Option<Spelled<'a>>
    ensures { option_map spelled_bytes result ≡ number_bytes tag number }
{
    match tag {
        TypeTag::TinyInt => tiny(number),
        TypeTag::SmallInt => small(number),
        TypeTag::Int => int(number),
        TypeTag::BigInt => big(number),
        TypeTag::Timestamp => big(number),
        TypeTag::Date => day(number),
        TypeTag::Time => nanosecond(number),
        _ => None,
    }
}

#[tactic(auto, unfolding(crate::specs::Constants::blob_bytes))]
fn spelled_blob<'a>(tag: TypeTag, bytes: &'a [u8]) -> Option<Spelled<'a>>
    ensures { option_map spelled_bytes result ≡ blob_bytes tag bytes.now }
{
    match tag {
        TypeTag::Blob => Some(Spelled::Borrowed(bytes)),
        _ => None,
    }
}

#[tactic(auto, unfolding(crate::specs::Constants::uuid_bytes))]
fn spelled_uuid<'a>(tag: TypeTag, uuid: &'a [u8]) -> Option<Spelled<'a>>
    requires { length uuid.now ≡ 16 }
    ensures { option_map spelled_bytes result ≡ uuid_bytes tag uuid.now }
{
    match tag {
        TypeTag::Uuid => Some(Spelled::Borrowed(uuid)),
        TypeTag::TimeUuid => spelled_where(check(TypeTag::TimeUuid, uuid).is_ok(), uuid),
        _ => None,
    }
}

#[tactic(auto, unfolding(crate::specs::Constants::boolean_bytes))]
fn spelled_boolean<'a>(tag: TypeTag, truth: bool) -> Option<Spelled<'a>>
    ensures { option_map spelled_bytes result ≡ boolean_bytes tag truth }
{
    match tag {
        TypeTag::Boolean => {
            let byte: u8 = if truth { 1 } else { 0 };
            Some(Spelled::One([byte]))
        }
        _ => None,
    }
}

/// The bytes of the constant as a value of the type, where it is one.
#[tactic(auto, unfolding(crate::specs::Constants::constant_bytes))]
pub fn spell<'a>(tag: TypeTag, constant: &'a Constant) -> Option<Spelled<'a>>
    ensures { option_map spelled_bytes result ≡ constant_bytes tag constant.now }
{
    match constant {
        Constant::Text(text) => spelled_text(tag, text.as_str()),
        Constant::Number(number) => spelled_number(tag, *number),
        Constant::Blob(bytes) => spelled_blob(tag, bytes.as_slice()),
        Constant::Uuid(uuid) => spelled_uuid(tag, uuid),
        Constant::Boolean(truth) => spelled_boolean(tag, *truth),
    }
}

/// The value in memory of its own.
pub(crate) fn copied(alloc: Global, value: Option<Spelled<'_>>) -> Result<Option<Bytes>, AllocError>
    ensures { IfOk result (λ v. v ≡ option_map spelled_bytes value.entry) }
{
    match value {
        Some(value) => Ok(Some(Bytes::copy_of(alloc, value.as_slice())?)),
        None => Ok(None),
    }
}

/// The bytes of the constant as a value of the type, where it is one, in memory of their own.
pub fn constant_bytes(
    alloc: Global,
    tag: TypeTag,
    constant: &Constant,
) -> Result<Option<Bytes>, AllocError>
    ensures { IfOk result (λ v. v ≡ constant_bytes tag constant.now) }
{
    copied(alloc, spell(tag, constant))
}

/// Whether the constant is a value of the type.
pub fn fits(tag: TypeTag, constant: &Constant) -> bool
    ensures { result ≡ is_some (constant_bytes tag constant.now) }
{
    spell(tag, constant).is_some()
}
