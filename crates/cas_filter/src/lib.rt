//! The Bloom filter of a table file: which keys it surely doesn't have. The hash of a key and the
//! bits that it probes, the filter in memory, and its bytes.
#![tactic(auto)]

mod fields;
mod filter;
mod hashing;
mod laws;

pub use fields::{put_filter, read_filter};
pub use filter::{Filter, KEY_BITS, LEAST_BITS};
pub use hashing::{PROBES, hash, probe};
pub use laws::{filters_are_exact, filters_by_hand, filters_hold_their_keys};
