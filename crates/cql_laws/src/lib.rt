//! What the program prints of a value, read as a term of CQL, is the same value.
#![tactic(auto)]

mod laws;

pub use laws::reads_back;
