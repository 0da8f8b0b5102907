//! A folder in memory: it keeps what it began with and all that is done to it, and fails by a plan.
ghost use Rattle.std.specs.Prelude.{◌≡◌};
ghost use Rattle.cas_disk.specs.Inner.Past.{image_of, now};

use crate::event::{Event, Stored};
use crate::plan::Course;
use std::alloc::Global;
use std::collections::VecDeque;
use std::sync::atomic::AtomicU64;

/// A folder in memory.
#[derive(Drop)]
pub struct MemFolder {
    pub(crate) alloc: Global,
    /// The files that it began with, all of them on the disk.
    pub(crate) start: Vec<Stored>,
    /// What was done since, the latest first.
    pub(crate) past: VecDeque<Event>,
    /// The files as its calls read them.
    pub(crate) files: Vec<Stored>,
    pub(crate) course: Course,
    ghost reads: { image_of files.items ≡ now (image_of start.items) past.items },
}

/// A table's file that is being written in memory.
#[derive(Drop)]
pub struct MemDraft {
    pub(crate) number: u64,
    pub(crate) bytes: Vec<u8>,
    pub(crate) is_synced: bool,
    pub(crate) calls: u64,
    /// The numbers of its calls that fail.
    pub(crate) failing: Vec<u64>,
}

/// A file in memory that doesn't change.
#[derive(Drop)]
pub struct MemSealed {
    pub(crate) bytes: Vec<u8>,
    pub(crate) reads: AtomicU64,
    /// The numbers of its reads that fail.
    pub(crate) failing: Vec<u64>,
}
