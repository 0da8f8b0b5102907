//! The hash of a partition key, and the bits of a filter that it probes.

ghost use Rattle.std.specs.Prelude.{◌≡◌, ◌<◌};
ghost use Rattle.cas_filter.specs.Hashing.{hash_step, hash, probe};
ghost use Rattle.cas_filter.specs.declared.hashing.TheConstants.{PROBES};

/// The hash of no bytes.
const FNV_START: u64 = 0xcbf2_9ce4_8422_2325;

/// What each byte multiplies the hash by.
const FNV_PRIME: u64 = 1_099_511_628_211;

/// How many bits of a filter a key probes.
pub const PROBES: u64 = 7;

// The hash of one byte more.
#[tactic(auto, unfolding(crate::specs::Hashing::hash_step))]
fn hash_step(hash: u64, byte: u8) -> u64
    ensures { result ≡ hash_step hash byte }
{
    (hash ^ byte as u64).wrapping_mul(FNV_PRIME)
}

/// The hash of a key: FNV-1a of 64 bits.
#[tactic(auto, unfolding(crate::specs::Hashing::hash))]
pub fn hash(key: &[u8]) -> u64
    ensures { result ≡ hash key.now }
{
    let mut hash = FNV_START;
    for byte in key {
        hash = hash_step(hash, *byte);
    }
    hash
}

/// The bit that a hash probes, of so many, at each of its probes, which count from 0.
#[tactic(auto, unfolding(crate::specs::Hashing::probe))]
pub fn probe(bits: u64, hash: u64, number: u64) -> u64
    requires some { 0 < bits }
    requires within { number < PROBES }
    ensures value { result ≡ probe bits hash number }
    ensures within { result < bits }
{
    let upper = hash >> 32;
    let lower = hash & 0xffff_ffff | 1;
    (upper + number * lower) % bits
}
