//! Tests of a flush as a whole: in the file that it makes of what statements wrote nothing wrong is found, and another byte
//! in it is. They stand apart since a crate with tests is proved twice.
#![tactic(auto)]

#[cfg(test)]
mod files;
#[cfg(test)]
mod flushes;
#[cfg(test)]
mod writes;
