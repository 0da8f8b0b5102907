//! Tests that no script shows: which tokens a line has, what texts mean, brackets at great depth, tokens
//! of another source, the options of tables, and bytes that are no value. They stand apart since a
//! crate with tests is proved twice.
#![tactic(auto)]

#[cfg(test)]
mod tests;
