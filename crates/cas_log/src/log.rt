//! The segment that is written.

ghost use Rattle.std.specs.Prelude.{◌+◌, ◌*◌, ◌≤◌, ◌<◌, vec_len};
ghost use Rattle.cas_log.specs.Segment.{IsSize};

/// The segment that mutations are written to.
#[derive(Drop)]
pub struct Log {
    pub(crate) number: u64,
    pub(crate) size: u64,
    /// The place of the closed gate, the last byte of the file.
    pub(crate) end: u64,
    /// How many mutations are pushed.
    pub(crate) count: u32,
    /// What the next commit writes behind that gate: the block of the pushed mutations, and the gate after it.
    pub(crate) block: Vec<u8>,
    ghost sized: { IsSize size },
    ghost within: { end + 1 ≤ size },
    ghost counted: { 4 * count + 9 ≤ vec_len block },
    // The block ends within the segment, with the gate after it.
    ghost room: { 0 < count → end + vec_len block + 1 ≤ size },
}
