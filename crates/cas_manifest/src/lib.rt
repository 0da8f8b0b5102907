//! The manifest: the file that says which tables are defined, and which segments and table files are
//! listed. Its entries are written one by one, so that after each it stands in every image of the disk.
#![tactic(auto)]

mod blocks;
mod fault;
mod finding;
mod laws;
mod loading;
mod making;
mod manifest;
mod reading;
mod writing;

pub use fault::{Limit, ManifestFault};
pub use laws::manifests_are_exact;
pub use manifest::Manifest;
pub use reading::read_manifest;
