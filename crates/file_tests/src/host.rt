//! The calls over a real folder.

use cas_disk::{Count, Draft, Entry, FaultCount, Folder, FolderFault, Name, Sealed, same_name};
use cas_hostdisk::{HostFolder, HostSealed};
use std::fs;

const LOG: Name = Name::Log(255);

// Which calls are answered, on files that are there or not.
fn answered(folder: &mut HostFolder<'_, HostRuntime>) -> [bool; 8] {
    [
        folder.create(Name::Manifest).is_ok(),
        folder.create(LOG).is_ok(),
        folder.create(LOG).is_ok(),
        folder.write_at(LOG, 0, b"abcd").is_ok(),
        folder.write_at(LOG, 2, b"xyz").is_ok(),
        folder.write_at(Name::Log(256), 0, b"a").is_ok(),
        folder.sync(LOG).is_ok(),
        folder.sync(Name::Manifest).is_ok(),
    ]
}

fn reads(folder: &mut HostFolder<'_, HostRuntime>, name: Name, at: u64, wanted: &[u8]) -> bool {
    let mut into = [0; 4];
    match folder.read_at(name, at, &mut into) {
        Ok(count) => &into[..count] == wanted,
        Err(_) => false,
    }
}

fn has(entries: &[Entry], name: Name, size: u64) -> bool {
    entries
        .iter()
        .any(|entry| same_name(entry.name, name) && entry.size == size)
}

fn lists(folder: &mut HostFolder<'_, HostRuntime>) -> bool {
    match folder.list() {
        Ok(entries) => {
            entries.len() == 3
                && has(&entries, Name::Manifest, 0)
                && has(&entries, LOG, 5)
                && has(&entries, Name::Import(10), 3)
        }
        Err(_) => false,
    }
}

/// The folder of this path, as it is.
pub(crate) fn opened<'a>(rt: &'a HostRuntime, path: &str) -> Option<HostFolder<'a, HostRuntime>> {
    let path = String::from_str(rt.alloc(), path).ok()?;
    Some(HostFolder::new(rt, rt.alloc(), path))
}

/// The folder of this path, which isn't there.
pub(crate) fn folder_at<'a>(
    rt: &'a HostRuntime,
    path: &str,
) -> Option<HostFolder<'a, HostRuntime>> {
    let _ = fs::remove_dir_all(rt, path);
    opened(rt, path)
}

/// Whether the file has these bytes.
pub(crate) fn is_written(rt: &HostRuntime, path: &str, wanted: &[u8]) -> bool {
    match fs::read(rt, path) {
        Ok(bytes) => bytes.as_slice() == wanted,
        Err(_) => false,
    }
}

// Whether each call does its work on a folder that isn't there yet.
fn is_kept(rt: &HostRuntime, folder: &mut HostFolder<'_, HostRuntime>) -> bool {
    answered(folder) == [true, true, false, true, true, false, true, true]
        && is_written(rt, "a_folder/log-00000000000000ff", b"abxyz")
        && fs::write(rt, "a_folder/log-00000000000000FE", "not ours").is_ok()
        && fs::write(rt, "a_folder/import-000000000000000a", "abc").is_ok()
        && lists(folder)
        && reads(folder, LOG, 1, b"bxyz")
        && reads(folder, LOG, 3, b"yz")
        && reads(folder, LOG, 5, b"")
        && reads(folder, Name::Log(256), 0, b"")
        && folder.remove(LOG).is_ok()
        && folder.remove(LOG).is_err()
        && folder.faults() == 3
}

#[test]
fn files_of_a_real_folder(rt: HostRuntime) {
    let Some(mut folder) = folder_at(&rt, "a_folder") else {
        panic!(rt; "no memory");
    };
    assert!(rt; is_kept(&rt, &mut folder) && fs::remove_dir_all(&rt, "a_folder").is_ok());
}

// Table 1 with "abcd".
fn table(
    folder: &mut HostFolder<'_, HostRuntime>,
    tally: &mut FaultCount,
) -> Result<HostSealed, FolderFault> {
    let mut draft = folder.draft(1)?;
    if draft.append(b"ab", tally).is_err() || draft.append(b"cd", tally).is_err() {
        return Err(FolderFault::Failed);
    }
    draft.sync(tally)?;
    folder.admit(draft)
}

fn holds(file: &HostSealed, at: u64, wanted: &[u8]) -> bool {
    let mut into = [0; 4];
    match file.read_at(at, &mut into, &mut FaultCount::fresh()) {
        Ok(count) => &into[..count] == wanted,
        Err(_) => false,
    }
}

// Whether a table that was admitted is read back, and one that isn't there is refused and counted.
fn is_sealed(folder: &mut HostFolder<'_, HostRuntime>) -> bool {
    let mut tally = FaultCount::fresh();
    let is_held = match table(folder, &mut tally) {
        Ok(table) => holds(&table, 1, b"bcd"),
        Err(_) => false,
    };
    is_held
        && tally.faults() == 0
        && folder.sealed(1).is_ok()
        && folder.sealed(2).is_err()
        && folder.faults() == 1
}

// Whether a file that was put into the folder is imported.
fn is_imported(rt: &HostRuntime, folder: &mut HostFolder<'_, HostRuntime>) -> bool {
    if fs::write(rt, "b_folder/import-0000000000000001", "abc").is_err() {
        return false;
    }
    match folder.import(1) {
        Ok(import) => holds(&import, 0, b"abc"),
        Err(_) => false,
    }
}

#[test]
fn tables_of_a_real_folder(rt: HostRuntime) {
    let Some(mut folder) = folder_at(&rt, "b_folder") else {
        panic!(rt; "no memory");
    };
    assert!(rt; is_sealed(&mut folder) && is_imported(&rt, &mut folder));
    assert!(rt; fs::remove_dir_all(&rt, "b_folder").is_ok());
}

#[test]
fn a_folder_that_cannot_be_made(rt: HostRuntime) {
    let is_there = fs::write(&rt, "no_folder", "").is_ok();
    let Some(mut folder) = folder_at(&rt, "no_folder/a") else {
        panic!(rt; "no memory");
    };
    assert!(rt; is_there && folder.list().is_err() && folder.faults() == 1);
    assert!(rt; fs::remove_file(&rt, "no_folder").is_ok());
}
