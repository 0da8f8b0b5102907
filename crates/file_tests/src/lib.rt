//! Tests of bytes and the disk: fields, records, segments of the commit log and manifests as bytes worked out by
//! hand, and the streams and folders that hold them. They stand apart since a crate with tests is proved twice.
#![tactic(auto)]

#[cfg(test)]
mod answers;
#[cfg(test)]
mod crashes;
#[cfg(test)]
mod fields;
#[cfg(test)]
mod host;
#[cfg(test)]
mod insert;
#[cfg(test)]
mod manifests;
#[cfg(test)]
mod mutations;
#[cfg(test)]
mod openings;
#[cfg(test)]
mod segments;
#[cfg(test)]
mod stores;
#[cfg(test)]
mod streams;
