//! An opening of a store in a folder in memory, among files that it doesn't list.

use cas_disk::{FaultPlan, Folder, MemFolder, Name};
use cas_opening::open;
use std::alloc::Global;

// The greatest number of a segment that the store of a folder names once it is opened.
fn last_segment(alloc: Global, folder: &mut MemFolder) -> Option<u64> {
    match open(alloc, folder, 2, 4_096) {
        Ok(opened) => Some(opened.said.last_segment()),
        Err(_) => None,
    }
}

// Whether a file is made where none was.
fn make(folder: &mut MemFolder, n: Name) -> bool {
    !folder.has(n) && folder.create(n).is_ok()
}

// Whether files are made that the store doesn't list.
fn litter(folder: &mut MemFolder) -> bool {
    make(folder, Name::Log(2))
        && make(folder, Name::Log(7))
        && make(folder, Name::Table(5))
        && make(folder, Name::Import(3))
}

// Whether only what is listed is left, and what may be imported.
fn is_clean(folder: &MemFolder) -> bool {
    folder.has(Name::Log(1))
        && folder.has(Name::Log(2))
        && !folder.has(Name::Log(7))
        && !folder.has(Name::Table(5))
        && folder.has(Name::Import(3))
}

// The opening begins segment 2 where a file of that number was.
#[test]
fn what_is_not_listed_goes(rt: HostRuntime) {
    let mut folder = MemFolder::new(rt.alloc(), FaultPlan::none(rt.alloc()));
    assert!(rt;
        last_segment(rt.alloc(), &mut folder) == Some(1)
            && litter(&mut folder)
            && last_segment(rt.alloc(), &mut folder) == Some(2)
            && is_clean(&folder)
    );
}
