//! Atoms and the records of the commit log, as bytes: how they are spelled, a reader of each, which
//! is told the tables, and a writer.
#![tactic(auto)]

mod atoms;
mod laws;
mod mutations;
mod records;
mod writing;

pub use atoms::read_atom;
pub use laws::{atoms_are_exact, records_are_exact};
pub use mutations::read_record;
pub use records::put_record;
pub use writing::put_atom;
