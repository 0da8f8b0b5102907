//! Tests of what statements come to, of which scripts show too little: atoms at a worked timestamp, the
//! bytes of constants. They stand apart since a crate with tests is proved twice.
#![tactic(auto)]

#[cfg(test)]
mod effects;
#[cfg(test)]
mod terms;
