//! The manifest of a store: made and loaded in a folder in memory, and appended to in a real one.

use crate::answers::answer_of;
use crate::host::{folder_at, is_written, opened};
use cas_changes::Entry;
use cas_disk::{FaultPlan, Folder, MemFolder, Name};
use cas_manifest::{Manifest, ManifestFault};
use std::alloc::Global;
use std::fs;

// How many entries the store of a folder has, which is made where none is, or where its manifest is bad; 99 where
// the folder fails, and 100 for any other fault.
fn count<F: Folder>(alloc: Global, folder: &mut F) -> Result<usize, u64> {
    match Manifest::load(alloc, folder, 1) {
        Ok((_manifest, _said, entries)) => Ok(entries.len()),
        Err(ManifestFault::Bad { at }) => Err(at),
        Err(ManifestFault::Failed) => Err(99),
        Err(_) => Err(100),
    }
}

fn empty(alloc: Global) -> MemFolder {
    MemFolder::new(alloc, FaultPlan::none(alloc))
}

// The store of a folder lists a segment more.
fn add_segment<F: Folder>(alloc: Global, folder: &mut F, number: u64) -> Result<(), ManifestFault> {
    let mut first = None;
    let (mut manifest, _said, _entries) = Manifest::load(alloc, folder, 1)?;
    manifest.append(alloc, folder, &mut first, &Entry::NewSegment { number })
}

// How many entries are loaded, or after `!` where the manifest is bad; another file of the folder; the manifest.
const FOLDERS: &str = "\
1 - -
1 import -
!0 log -
!0 table -
1 - 0x
!0 log 0x
1 - 0x01
!0 table 0x01
1 - 0x00434153534d414e3100ffff
!0 log 0x02434153534d414e3100
1 - 0x01434153534d414e3100
1 log 0x01434153534d414e3102
!9 - 0x01434153534d414e31
!1 - 0x01434153534d414e3200
1 log 0x01434153534d414e31010000000200000001010100
!18 - 0x01434153534d414e31010000000200000001630100
!19 - 0x01434153534d414e31010000000200000001010000
!19 - 0x01434153534d414e31010000000200000001011100
!10 - 0x01434153534d414e31010100000200000001010100
!20 - 0x01434153534d414e31010000000300000001010100
!14 - 0x01434153534d414e31010000000201000001010100
!14 - 0x01434153534d414e31010000000200000000010100
!18 - 0x01434153534d414e31010000000200000001020100
!21 - 0x01434153534d414e31010000000200000001010101";

fn put(folder: &mut MemFolder, name: Name, bytes: &[u8]) -> bool {
    !folder.has(name) && folder.create(name).is_ok() && folder.write_at(name, 0, bytes).is_ok()
}

fn folder_of(alloc: Global, other: &str, manifest: &str) -> Option<MemFolder> {
    let mut folder = empty(alloc);
    let mut is_filled = true;
    if let Some(digits) = manifest.strip_prefix("0x") {
        let bytes = hex::decode(alloc, digits).ok()?;
        is_filled = put(&mut folder, Name::Manifest, &bytes);
    }
    let is_put = match other {
        "log" => put(&mut folder, Name::Log(1), b""),
        "table" => put(&mut folder, Name::Table(1), b""),
        "import" => put(&mut folder, Name::Import(1), b""),
        _ => true,
    };
    (is_filled && is_put).then_some(folder)
}

// Whether the line's folder is loaded as it says.
fn is_told(alloc: Global, line: &str) -> Option<bool> {
    let mut words = line.split(' ');
    let answer = answer_of(words.next()?)?;
    let mut folder = folder_of(alloc, words.next()?, words.next()?)?;
    Some(count(alloc, &mut folder) == answer)
}

#[test]
fn folders_are_loaded(rt: HostRuntime) {
    for line in FOLDERS.lines() {
        assert!(rt; is_told(rt.alloc(), line) == Some(true), "{line}");
    }
}

// Whether the store of a real folder is made and lists a segment.
fn is_added(rt: &HostRuntime) -> bool {
    match folder_at(rt, "d_folder") {
        Some(mut folder) => {
            add_segment(rt.alloc(), &mut folder, 1).is_ok() && folder.faults() == 0
        }
        None => false,
    }
}

fn is_loaded(rt: &HostRuntime) -> bool {
    match opened(rt, "d_folder") {
        Some(mut folder) => count(rt.alloc(), &mut folder) == Ok(2) && folder.faults() == 0,
        None => false,
    }
}

// The manifest of a store of one shard that lists segment 1.
const LISTING: [u8; 39] =
    *b"\x01CASSMAN1\x01\0\0\0\x02\0\0\0\x01\x01\x01\x01\0\0\0\x09\0\0\0\x01\x03\0\0\0\0\0\0\0\x01\0";

#[test]
fn a_store_in_a_real_folder(rt: HostRuntime) {
    assert!(rt;
        is_added(&rt)
            && is_loaded(&rt)
            && is_written(&rt, "d_folder/manifest", &LISTING)
            && fs::remove_dir_all(&rt, "d_folder").is_ok()
    );
}
