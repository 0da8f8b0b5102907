//! The calls of the system, and the count of those that fail.
ghost use Rattle.std.specs.Prelude.{◌≡◌, ◌≤◌, Ok, length, IfOk, IsErr};
ghost use Rattle.cas_disk.specs.Counts.{Counted};

use crate::names::name_of;
use cas_disk::{Count, Entry, FaultCount};
use cas_io::Failed;
use std::alloc::Global;
use std::fs::{File, OpenFile, OpenOptions};
use std::os::unix::fs::FileExt;
use std::path::Path;
use std::rt::Files;
use std::{fs, io};

/// Counts what failed.
pub fn counted<T: Drop>(faults: &mut FaultCount, done: io::Result<T>) -> Result<T, Failed>
    ensures value { IfOk result (λ value. done ≡ Ok value) }
    ensures count { Counted (⟦<FaultCount as Count>⟧.number faults.old) (⟦<FaultCount as Count>⟧.number faults.new) (IsErr result) }
{
    match done {
        Ok(value) => Ok(value),
        Err(_) => {
            faults.fault();
            Err(Failed)
        }
    }
}

/// A file that is there, to be read and written.
pub fn try_open(files: &impl Files<File = File>, path: &str) -> io::Result<File> {
    OpenOptions::new().read(true).write(true).open(files, path)
}

/// Makes the names in a folder last. A folder opens as a file that is only read.
pub fn sync_folder(files: &impl Files<File = File>, folder: &str) -> io::Result<()> {
    fs::open(files, folder)?.sync_all()
}

/// Makes the folder where it isn't there, and makes that last.
pub fn try_make_folder(files: &impl Files<File = File>, folder: &str) -> io::Result<()> {
    fs::create_dir_all(files, folder)?;
    match Path::new(folder).parent() {
        Some(parent) if !parent.as_str().is_empty() => sync_folder(files, parent.as_str()),
        _ => sync_folder(files, "."),
    }
}

/// Makes a file that isn't there, and makes its name last.
pub fn try_create(files: &impl Files<File = File>, folder: &str, path: &str) -> io::Result<File> {
    let file = File::create_new(files, path)?;
    sync_folder(files, folder)?;
    Ok(file)
}

/// Reads until the buffer is full or the file ends.
pub fn try_read(file: &File, at: u64, into: &mut [u8]) -> io::Result<usize>
    ensures { IfOk result (λ count. count ≤ length into.new) }
{
    let room = into.len();
    let mut done = 0;
    for _ in 0..u64::MAX {
        if done >= into.len() {
            break;
        }
        match file.read_at(&mut into[done..], at.wrapping_add(done as u64)) {
            Ok(0) => break,
            Ok(count) => done = done.saturating_add(count),
            Err(e) if e.kind() == io::ErrorKind::Interrupted => {}
            Err(e) => return Err(e),
        }
    }
    Ok(done.min(room))
}

/// The files of a folder that have names of ours. Others are left alone.
pub fn try_list<R: Files + Alloc<A = Global> + Clone + Drop>(
    rt: &R,
    alloc: Global,
    folder: &str,
) -> io::Result<Vec<Entry>> {
    let mut entries = Vec::new(alloc);
    for entry in fs::read_dir(rt, folder)? {
        let entry = entry?;
        if let Some(name) = name_of(entry.file_name()) {
            let size = entry.metadata()?.len();
            entries.push(Entry { name, size })?;
        }
    }
    Ok(entries)
}
