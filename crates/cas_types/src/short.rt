//! Byte strings that are so short that they stand in place.

ghost use Rattle.std.specs.Prelude.{◌≡◌, ◌≤◌, length, nat_eq};
ghost use Rattle.std.specs.Cmp.Lexicographic.{pointwise};
ghost use Rattle.cas_types.specs.Values.{bytes_cmp};
ghost use Rattle.cas_types.specs.declared.short.TheConstants.{IN_PLACE};

use std::cmp::Ordering;
use std::marker::Model;

/// So many bytes stand in place: with their number they take no more room than a `Vec`, and whole
/// words, which are moved faster than odd bytes.
pub(crate) const IN_PLACE: usize = 16;

/// A byte string in place, which contracts see as the list of its bytes. The places behind it are
/// zeros, so that two of them compare as one number each.
#[derive(Drop)]
pub(crate) struct Short {
    len: usize,
    bytes: [u8; IN_PLACE],
}

impl Model for Short {
    ghost use Rattle.std.specs.Prelude.{List, ℕ, ◌≡◌, ◌≤◌, take};
    ghost use Rattle.cas_types.specs.Inner.Padded.{padded};
    ghost use Rattle.cas_types.specs.declared.short.TheConstants.{IN_PLACE};

    ghost Value = { List ℕ };

    ghost view = { λ s. take s.len s.bytes };

    ghost invariant = { λ s. (s.len ≤ IN_PLACE) × (s.bytes ≡ padded IN_PLACE (take s.len s.bytes)) };
}

impl Short {
    /// These bytes.
    #[inline]
    pub(crate) fn of(bytes: &[u8]) -> Self
        requires { length bytes.now ≤ IN_PLACE }
        ensures { result ≡ bytes.now }
    {
        let mut places = [0; IN_PLACE];
        places[..bytes.len()].copy_from_slice(bytes);
        Short {
            len: bytes.len(),
            bytes: places,
        }
    }

    #[inline]
    pub(crate) fn as_slice(&self) -> &[u8]
        ensures { result.now ≡ self.now }
    {
        &self.bytes[..self.len]
    }

    #[inline]
    pub(crate) fn copied(&self) -> Self
        ensures { result ≡ self.now }
    {
        Short {
            len: self.len,
            bytes: self.bytes,
        }
    }

    /// The order by unsigned bytes. Where one is a front of the other and only zeros follow it
    /// there, the places tie, and the lengths decide.
    #[inline]
    pub(crate) fn compare(&self, other: &Short) -> Ordering
        ensures { result ≡ bytes_cmp self.now other.now }
    {
        compare_places(&self.bytes, &other.bytes).then(self.len.cmp(&other.len))
    }

    #[inline]
    pub(crate) fn is_same(&self, other: &Short) -> bool
        ensures { result ≡ pointwise nat_eq self.now other.now }
    {
        are_same_places(&self.bytes, &other.bytes) && self.len == other.len
    }
}

/// The order of the bytes in all places, which are compared as one number each.
#[inline]
fn compare_places(a: &[u8; IN_PLACE], b: &[u8; IN_PLACE]) -> Ordering
    ensures { result ≡ bytes_cmp a.now b.now }
{
    u128::from_be_bytes(*a).cmp(&u128::from_be_bytes(*b))
}

/// Whether the bytes in all places are the same, compared as one number each.
#[inline]
fn are_same_places(a: &[u8; IN_PLACE], b: &[u8; IN_PLACE]) -> bool
    ensures { result ≡ pointwise nat_eq a.now b.now }
{
    u128::from_be_bytes(*a) == u128::from_be_bytes(*b)
}
