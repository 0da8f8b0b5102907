//! Tests of the ground: values and keys, cells, places of rows. They stand apart since a crate with tests
//! is proved twice.
#![tactic(auto)]

#[cfg(test)]
mod cells;
#[cfg(test)]
mod places;
#[cfg(test)]
mod values;
