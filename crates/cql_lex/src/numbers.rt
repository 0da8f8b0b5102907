//! Whole numbers and ratios.

ghost use Rattle.std.specs.Prelude.{◌≡◌, ◌-◌, ◌^◌, ◌++◌, ℕ, List, min};
ghost use Rattle.cql_lex.specs.Numbers.{is_negative, unsigned, decimal_value, signed, is_digits, number_value, nearest, ratio_value, hundredths};

use crate::characters::{all_digits, digits_size};

/// A number up to this one has room for a digit more in 64 bits.
const SMALL: u64 = 1_000_000_000_000_000_000;

pub(crate) fn is_negative(text: &[u8]) -> bool
    ensures { result ≡ is_negative text.now }
{
    match text {
        [byte, _rest @ ..] => *byte == b'-',
        _ => false,
    }
}

/// What follows the `-`, where there is one.
pub(crate) fn unsigned(text: &[u8]) -> &[u8]
    ensures { result.now ≡ unsigned text.now }
{
    match text {
        [b'-', rest @ ..] => rest,
        _ => text,
    }
}

/// The number that digits write; 2^128 - 1 stands for all that is greater.
fn long_magnitude(digits: &[u8]) -> u128
    ensures { result ≡ min (decimal_value digits.now) (2 ^ 128 - 1) }
{
    let mut total = 0u128;
    for byte in digits {
        total = total
            .saturating_mul(10)
            .saturating_add(u128::from(byte.saturating_sub(b'0')));
    }
    total
}

/// The number that digits write; 2^128 - 1 stands for all that is greater. Most numbers are small.
#[inline(always)]
fn magnitude(digits: &[u8]) -> u128
    ensures { result ≡ min (decimal_value digits.now) (2 ^ 128 - 1) }
{
    let mut total = 0u64;
    for byte in digits {
        if total > SMALL {
            return long_magnitude(digits);
        }
        total = total * 10 + u64::from(byte.saturating_sub(b'0'));
    }
    u128::from(total)
}

#[inline(always)]
fn signed(negative: bool, magnitude: u128) -> Option<i128>
    ensures { result ≡ signed negative magnitude }
{
    if negative {
        if magnitude < 1 << 127 {
            Some(-(magnitude as i128))
        } else if magnitude == 1 << 127 {
            Some(i128::MIN)
        } else {
            None
        }
    } else if magnitude < 1 << 127 {
        Some(magnitude as i128)
    } else {
        None
    }
}

#[inline(always)]
fn is_digits(text: &[u8]) -> bool
    ensures { result ≡ is_digits text.now }
{
    !text.is_empty() && all_digits(text)
}

/// The whole number that a token's text writes, where it is one of at most 128 bits: of `-12` it
/// is -12. The text is the bytes of the token's span.
#[inline(always)]
pub fn number_of(text: &[u8]) -> Option<i128>
    ensures { result ≡ number_value text.now }
{
    let digits = unsigned(text);
    if is_digits(digits) {
        signed(is_negative(text), magnitude(digits))
    } else {
        None
    }
}

/// The two digits after the point, where the text is a point and one or two digits.
fn hundredths(text: &[u8]) -> Option<[u8; 2]>
    ensures { result ≡ hundredths text.now }
{
    match text {
        [b'.', d] if d.is_ascii_digit() => Some([*d, b'0']),
        [b'.', d, e] if d.is_ascii_digit() && e.is_ascii_digit() => Some([*d, *e]),
        _ => None,
    }
}

/// The number that the digits of `front` and these two after them write, as `magnitude` tells it.
fn with_hundredths(front: u128, two: [u8; 2]) -> u128
    ensures { (digits : List ℕ) → front ≡ min (decimal_value digits) (2 ^ 128 - 1) → result ≡ min (decimal_value (digits ++ two)) (2 ^ 128 - 1) }
{
    let [tens, ones] = two;
    front
        .saturating_mul(10)
        .saturating_add(u128::from(tens.saturating_sub(b'0')))
        .saturating_mul(10)
        .saturating_add(u128::from(ones.saturating_sub(b'0')))
}

/// The number with its sign, or the nearest to it that fits.
fn nearest(negative: bool, magnitude: u128) -> i128
    ensures { (n : ℕ) → magnitude ≡ min n (2 ^ 128 - 1) → result ≡ nearest negative n }
{
    if negative {
        if magnitude < 1 << 127 {
            -(magnitude as i128)
        } else {
            i128::MIN
        }
    } else if magnitude < 1 << 127 {
        magnitude as i128
    } else {
        i128::MAX
    }
}

/// What a token's text writes with a point and one or two digits after it, in whole hundredths: of
/// `-1.5` it is -150. One that is wider than 128 bits is the nearest that isn't. The text is the
/// bytes of the token's span.
pub fn ratio_of(text: &[u8]) -> Option<i128>
    ensures { result ≡ ratio_value text.now }
{
    let digits = unsigned(text);
    let whole = digits_size(digits);
    if whole == 0 {
        return None;
    }
    let (front, after) = digits.split_at(whole);
    match hundredths(after) {
        Some(two) => Some(nearest(is_negative(text), with_hundredths(magnitude(front), two))),
        None => None,
    }
}
