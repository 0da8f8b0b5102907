//! What a crash leaves of a folder in memory, by choice.
ghost use Rattle.std.specs.Prelude.{◌≡◌, ◌≤◌, IfOk, OnOk, is_some, filter};
ghost use Rattle.cas_disk.specs.Disk.{Image};
ghost use Rattle.cas_disk.specs.Inner.Past.{image_of, with_file, after, changed, settled, mixed, lasts, chosen};

use crate::event::{Choice, Event, Stored};
use crate::files::{find, set_file, take_file, write_file};
use crate::folder::Folder;
use crate::memory::MemFolder;
use crate::name::Name;
use crate::plan::{Course, FaultPlan};
use std::alloc::{AllocError, Global};
use std::collections::VecDeque;

// A copy of the files.
fn copied(alloc: Global, files: &[Stored]) -> Result<Vec<Stored>, AllocError>
    ensures { IfOk result (λ copy. image_of copy.items ≡ image_of files.now) }
{
    let mut copy = Vec::new(alloc);
    for file in files {
        let bytes = Vec::from_slice(alloc, &file.bytes)?;
        copy.push(Stored {
            name: file.name,
            bytes,
        })?;
    }
    Ok(copy)
}

// Does an event again.
fn redo(alloc: Global, files: &mut Vec<Stored>, event: &Event) -> Result<(), AllocError>
    ensures { OnOk result (image_of files.new.items ≡ after event.now (image_of files.old.items)) }
{
    match event {
        Event::Create(n) => set_file(files, *n, Vec::new(alloc)),
        Event::Write(n, at, bytes) => write_file(alloc, files, *n, *at, bytes),
        Event::Remove(n) => {
            take_file(files, *n);
            Ok(())
        }
        Event::Admit(number, bytes) => {
            let bytes = Vec::from_slice(alloc, bytes)?;
            set_file(files, Name::Table(*number), bytes)
        }
        Event::Sync(_) => Ok(()),
        Event::Draft(_) => Ok(()),
    }
}

// An event of which nothing lasts until a sync.
fn redo_old(alloc: Global, kept: &mut Vec<Stored>, event: &Event) -> Result<(), AllocError>
    ensures { OnOk result (image_of kept.new.items ≡ changed Choice.Old event.now (image_of kept.old.items)) }
{
    match event {
        Event::Create(n) => {
            take_file(kept, *n);
            Ok(())
        }
        Event::Admit(number, bytes) => {
            let bytes = Vec::from_slice(alloc, bytes)?;
            set_file(kept, Name::Table(*number), bytes)
        }
        _ => Ok(()),
    }
}

// An event whose written range is filled with this byte.
fn redo_filled(
    alloc: Global,
    kept: &mut Vec<Stored>,
    byte: u8,
    event: &Event,
) -> Result<(), AllocError>
    ensures { OnOk result (image_of kept.new.items ≡ changed (Choice.Fill byte) event.now (image_of kept.old.items)) }
{
    match event {
        Event::Write(n, at, bytes) => {
            let filled = vec![in alloc; byte; bytes.len()]?;
            write_file(alloc, kept, *n, *at, &filled)
        }
        Event::Draft(number) => set_file(kept, Name::Table(*number), vec![in alloc; byte]?),
        _ => redo(alloc, kept, event),
    }
}

// Whether the file is there.
fn is_there(files: &[Stored], n: Name) -> bool
    ensures { result ≡ is_some (image_of files.now n) }
{
    match find(files, n) {
        Some(_) => true,
        None => false,
    }
}

// Takes away the files that aren't there in `read`.
fn drop_missing(kept: &mut Vec<Stored>, read: &[Stored])
    ensures { kept.new.items ≡ filter (λ file. is_some (image_of read.now file.name)) kept.old.items }
{
    kept.retain(|file| is_there(read, file.name));
}

// Puts the file as it is read in the place of what was kept of it.
fn copy_file(
    alloc: Global,
    kept: &mut Vec<Stored>,
    read: &[Stored],
    n: Name,
) -> Result<(), AllocError>
    ensures { OnOk result (image_of kept.new.items ≡ with_file n (image_of read.now n) (image_of kept.old.items)) }
{
    match find(read, n) {
        Some(bytes) => set_file(kept, n, Vec::from_slice(alloc, bytes)?),
        None => {
            take_file(kept, n);
            Ok(())
        }
    }
}

// What a sync makes last is as it is read.
fn settle(alloc: Global, kept: &mut Vec<Stored>, read: &[Stored], n: Name) -> Result<(), AllocError>
    ensures { OnOk result (image_of kept.new.items ≡ mixed (lasts n (image_of read.now)) (image_of read.now) (image_of kept.old.items)) }
{
    match n {
        Name::Manifest => {
            drop_missing(kept, read);
            copy_file(alloc, kept, read, Name::Manifest)
        }
        _ => copy_file(alloc, kept, read, n),
    }
}

// One event more.
fn keep(
    alloc: Global,
    choice: Choice,
    kept: &mut Vec<Stored>,
    read: &[Stored],
    event: &Event,
) -> Result<(), AllocError>
    ensures { OnOk result (image_of kept.new.items ≡ settled event.now (image_of read.now) (changed choice event.now (image_of kept.old.items))) }
{
    match choice {
        Choice::Old => redo_old(alloc, kept, event)?,
        Choice::New => redo(alloc, kept, event)?,
        Choice::Fill(byte) => redo_filled(alloc, kept, byte, event)?,
    }
    match event {
        Event::Sync(n) => settle(alloc, kept, read, *n),
        _ => Ok(()),
    }
}

// What a crash leaves by this choice.
fn replayed(
    alloc: Global,
    choice: Choice,
    start: &[Stored],
    past: &VecDeque<Event>,
) -> Result<Vec<Stored>, AllocError>
    ensures { IfOk result (λ kept. image_of kept.items ≡ chosen choice (image_of start.now) past.now.items) }
{
    let mut read = copied(alloc, start)?;
    let mut kept = copied(alloc, start)?;
    let mut left = past.len();
    while left > 0 {
        left -= 1;
        let event = &past[left];
        keep(alloc, choice, &mut kept, &read, event)?;
        redo(alloc, &mut read, event)?;
    }
    Ok(kept)
}

impl MemFolder {
    ghost use Rattle.cas_disk.specs.Inner.Shown.{start_of, past_of, course_of};
    ghost use Rattle.cas_disk.specs.Inner.Plans.{LetsAllPass, begun};

    /// The folder that a crash leaves, by choice for each change that isn't synced. No call of it is
    /// planned to fail.
    pub fn image(&self, choice: Choice) -> Result<MemFolder, AllocError>
        ensures reads { IfOk result (λ m. (⟦<MemFolder as Folder>⟧.disk m).reads (chosen choice (start_of self.now) (past_of self.now))) }
        // An image, and one whose images are images too.
        ensures image { IfOk result (λ m. (c : Image) → (⟦<MemFolder as Folder>⟧.disk m).may_leave c
            → (⟦<MemFolder as Folder>⟧.disk self.now).may_leave c) }
        ensures course { IfOk result (λ m. course_of m ≡ begun (course_of m).plan) }
        ensures passes { IfOk result (λ m. LetsAllPass (course_of m).plan) }
    {
        let start = replayed(self.alloc, choice, &self.start, &self.past)?;
        let files = copied(self.alloc, &start)?;
        Ok(MemFolder {
            alloc: self.alloc,
            start,
            past: VecDeque::new(self.alloc),
            files,
            course: Course::new(FaultPlan::none(self.alloc)),
        })
    }
}
