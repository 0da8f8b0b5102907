//! What an open store stands for, and what lasts of it.
#![tactic(auto)]

mod laws;

pub use laws::{left_explains, little_is_never_too_much, nothing_is_too_much, sessions_share};
