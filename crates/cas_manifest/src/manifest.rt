//! The manifest that is written.

ghost use Rattle.std.specs.Prelude.{◌+◌, ◌≤◌};
ghost use Rattle.cas_changes.specs.declared.said.TheConstants.{FILE_LIMIT, LISTED_LIMIT};

/// The manifest of a store.
#[derive(Drop)]
pub struct Manifest {
    /// The place of the closed gate, the last byte of the file.
    pub(crate) end: u64,
    /// How many table files are listed.
    pub(crate) listed: u64,
    ghost within: { end + 1 ≤ FILE_LIMIT },
    ghost few: { listed ≤ LISTED_LIMIT },
}
