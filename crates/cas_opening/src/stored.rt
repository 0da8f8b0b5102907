//! What was read of a store.

use cas_changes::{Entry, Said};
use cas_journal::Notes;
use cas_manifest::Manifest;

/// What was read of a store: its manifest, to which entries may be appended, what these say together,
/// the entries, and what is noted of the segments.
#[derive(Drop)]
pub(crate) struct Stored {
    pub(crate) manifest: Manifest,
    pub(crate) said: Said,
    pub(crate) entries: Vec<Entry>,
    /// What is noted of the segments that are listed.
    pub(crate) notes: Notes,
}
