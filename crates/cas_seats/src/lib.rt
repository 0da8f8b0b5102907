//! The seats of a store in its one history: of its room and its shards, and the right to make more.
#![tactic(auto)]

mod seats;

pub use seats::{Seats, make_seats};
