//! The fields that files are made of: how their values are spelled, a reader that gives them or
//! the place of the first that isn't there, and a writer of each.
#![tactic(auto)]

mod fault;
mod laws;
mod reader;
mod writing;

pub use fault::ReadFault;
pub use laws::fields_are_exact;
pub use reader::Reader;
pub use writing::{
    put_bytes16, put_bytes32, put_flag, put_i64, put_maybe_i64, put_u8, put_u16, put_u32, put_u64,
};
