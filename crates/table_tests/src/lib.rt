//! Tests of table files: one of each version worked out by hand, what is found in them, and where they are refused when a byte is
//! another. They stand apart since a crate with tests is proved twice.
#![tactic(auto)]

#[cfg(test)]
mod by_hand;
#[cfg(test)]
mod first_version;
#[cfg(test)]
mod readings;
#[cfg(test)]
mod reads;
