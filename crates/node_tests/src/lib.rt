//! Tests of whole runs, of what no script can show: faults of the source and the sink, the longest script, many
//! statements; of an open store, and of its tables that are flushed; of a store whose table file a flush made, or which
//! stands by hand in the format's first version, that is read back and run over; and of the words that the command takes.
//! They stand apart since a crate with tests is proved twice.
#![tactic(auto)]

#[cfg(test)]
mod first_version;
#[cfg(test)]
mod flushed;
#[cfg(test)]
mod flushed_runs;
#[cfg(test)]
mod nodes;
#[cfg(test)]
mod recoveries;
#[cfg(test)]
mod runs;
#[cfg(test)]
mod words;
