//! A Bloom filter of keys.

ghost use Rattle.std.specs.Prelude.{◌≡◌, ◌==◌, ◌||◌, ◌+◌, ◌*◌, ◌<◌, ◌^◌, ◌++◌, ℕ, List, [], ◌∷◌, length, IfOk};
ghost use Rattle.std.specs.List.{All};
ghost use Rattle.cas_filter.specs.Filters.{is_set, may_hold, is_probe, bits_for, filter_of};
ghost use Rattle.cas_filter.specs.Allowed.{FitsFilter};

use crate::hashing::{PROBES, hash, probe};
use cas_types::Mem;
use std::alloc::Global;
use std::marker::Model;

/// The bits of a filter for each key.
pub const KEY_BITS: u64 = 10;

/// The least bits of a filter.
pub const LEAST_BITS: u64 = 64;

/// A filter, which contracts see as the list of its bytes. The bits of a byte count from its
/// lowest.
#[derive(Drop)]
pub struct Filter {
    bytes: Vec<u8>,
}

impl Model for Filter {
    ghost use Rattle.std.specs.Prelude.{List, ℕ};
    ghost use Rattle.cas_filter.specs.Allowed.{FitsFilter};

    ghost Value = { List ℕ };

    ghost view = { λ f. f.bytes.items };

    ghost invariant = { λ f. FitsFilter f.bytes.items };
}

// That bytes are below 256, so that a filter is known from its bits.
fn know_bytes(bytes: &[u8])
    ensures { All (λ b. b < 256) bytes.now }
{
    let _bytes = bytes;
}

// The bits of a filter for so many keys.
fn bits_for(keys: u32) -> u64
    ensures { result ≡ bits_for keys }
{
    ((KEY_BITS * keys as u64 + 7) / 8 * 8).max(LEAST_BITS)
}

impl Filter {
    /// The filter of no keys, with room for so many.
    pub fn new(alloc: Global, keys: u32) -> Result<Self, Mem>
        requires { bits_for keys < 2 ^ 32 }
        ensures { IfOk result (λ f. f ≡ filter_of (bits_for keys) []) }
    {
        let bytes = bits_for(keys) / 8;
        Ok(Filter {
            bytes: vec![in alloc; 0; bytes as usize]?,
        })
    }

    // The filter of these bytes.
    pub(crate) fn of(bytes: Vec<u8>) -> Self
        requires { FitsFilter bytes.items }
        ensures { result ≡ bytes.items }
    {
        Filter { bytes }
    }

    /// The bytes of the filter.
    pub fn as_slice(&self) -> &[u8]
        ensures bytes { result.now ≡ self.now }
        ensures fits { FitsFilter self.now }
    {
        &self.bytes
    }

    /// The number of its bits.
    pub fn bits(&self) -> u32
        ensures bits { result ≡ 8 * length self.now }
        ensures fits { FitsFilter self.now }
    {
        self.bytes.len() as u32 * 8
    }

    // Whether the bit is set.
    #[tactic(auto, unfolding(crate::specs::Filters::is_set))]
    fn is_set(&self, bit: u64) -> bool
        requires { bit < 8 * length self.now }
        ensures { result ≡ is_set self.now bit }
    {
        self.bytes[(bit / 8) as usize] >> (bit % 8) & 1 == 1
    }

    // Sets the bit.
    fn set(&mut self, bit: u64)
        requires { bit < 8 * length self.old }
        ensures bits { (p : ℕ) → is_set self.new p ≡ (is_set self.old p || (bit == p)) }
        ensures length { length self.new ≡ length self.old }
    {
        self.bytes[(bit / 8) as usize] |= 1 << (bit % 8);
    }

    /// Adds a key: the bits that it probes are set, and no others change.
    pub fn add(&mut self, key: &[u8])
        ensures bits { (p : ℕ) → is_set self.new p ≡ (is_set self.old p || is_probe (8 * length self.old) key.now p) }
        ensures length { length self.new ≡ length self.old }
        ensures added { (keys : List (List ℕ)) → self.old ≡ filter_of (8 * length self.old) keys
            → self.new ≡ filter_of (8 * length self.old) (keys ++ key.now ∷ []) }
    {
        let hash = hash(key);
        let bits = self.bits() as u64;
        for number in 0..PROBES {
            self.set(probe(bits, hash, number));
        }
        know_bytes(&self.bytes);
    }

    /// Whether the filter doesn't say no: each bit is set that the key probes.
    #[tactic(auto, unfolding(crate::specs::Filters::may_hold, crate::specs::Hashing::probes))]
    pub fn may_hold(&self, key: &[u8]) -> bool
        ensures { result ≡ may_hold self.now key.now }
    {
        let hash = hash(key);
        let bits = self.bits() as u64;
        for number in 0..PROBES {
            if !self.is_set(probe(bits, hash, number)) {
                return false;
            }
        }
        true
    }
}
