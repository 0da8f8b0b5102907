//! A folder in memory: crashes by choice, faults by plan, and counts.

use cas_disk::{
    Choice, Count, Draft, FaultCount, FaultPlan, Folder, FolderFault, MemFolder, MemSealed, Name,
    Sealed,
};
use std::alloc::Global;

const LOG: Name = Name::Log(1);

// Whether a file is made where none was.
fn make(folder: &mut MemFolder, n: Name) -> bool {
    !folder.has(n) && folder.create(n).is_ok()
}

// A manifest that isn't synced, and a segment whose last bytes aren't.
fn write(folder: &mut MemFolder) -> bool {
    make(folder, Name::Manifest)
        && make(folder, LOG)
        && folder.write_at(LOG, 0, b"abcd").is_ok()
        && folder.sync(LOG).is_ok()
        && folder.write_at(LOG, 2, b"xyz").is_ok()
}

// Whether a crash leaves these bytes of the segment, and whether it leaves a manifest.
fn leaves(folder: &MemFolder, choice: Choice, bytes: &[u8], has_manifest: bool) -> bool {
    let Ok(mut left) = folder.image(choice) else {
        return false;
    };
    let mut into = [0; 8];
    let is_read = match left.read_at(LOG, 0, &mut into) {
        Ok(count) => &into[..count] == bytes,
        Err(_) => false,
    };
    is_read && left.has(Name::Manifest) == has_manifest
}

#[test]
fn a_crash_leaves_what_is_synced_and_any_bytes_of_the_rest(rt: HostRuntime) {
    let mut folder = MemFolder::new(rt.alloc(), FaultPlan::none(rt.alloc()));
    assert!(rt;
        write(&mut folder)
            && leaves(&folder, Choice::Old, b"abcd", false)
            && leaves(&folder, Choice::New, b"abxyz", true)
            && leaves(&folder, Choice::Fill(b'-'), b"ab---", true)
    );
}

fn is_left(folder: &MemFolder, choice: Choice) -> bool {
    match folder.image(choice) {
        Ok(left) => left.has(LOG),
        Err(_) => false,
    }
}

#[test]
fn a_removal_lasts_once_the_manifest_is_synced(rt: HostRuntime) {
    let mut folder = MemFolder::new(rt.alloc(), FaultPlan::none(rt.alloc()));
    assert!(rt;
        write(&mut folder)
            && folder.remove(LOG).is_ok()
            && is_left(&folder, Choice::Old)
            && !is_left(&folder, Choice::New)
            && folder.sync(Name::Manifest).is_ok()
            && !is_left(&folder, Choice::Old)
            && folder.calls() == 7
    );
}

fn plan(alloc: Global) -> Option<FaultPlan> {
    Some(FaultPlan {
        calls: [2].to_vec(alloc).ok()?,
        drafts: [(1, 2)].to_vec(alloc).ok()?,
        reads: [(7, 1)].to_vec(alloc).ok()?,
    })
}

// Table 7 with "abcd", which its draft takes in four calls, the second of them planned to fail.
fn table(folder: &mut MemFolder, tally: &mut FaultCount) -> Result<Option<MemSealed>, FolderFault> {
    if folder.has(Name::Table(7)) {
        return Ok(None);
    }
    let mut draft = folder.draft(7)?;
    let taken = [
        draft.append(b"ab", tally).is_ok(),
        draft.append(b"--", tally).is_ok(),
        draft.append(b"cd", tally).is_ok(),
    ];
    draft.sync(tally)?;
    if taken != [true, false, true] || folder.has(Name::Table(7)) {
        return Ok(None);
    }
    Ok(Some(folder.admit(draft)?))
}

// How many bytes each of two calls reads, where it is answered.
fn counts_read(file: &MemSealed, tally: &mut FaultCount) -> [Option<usize>; 2] {
    let mut into = [0; 8];
    [
        file.read_at(1, &mut into, tally).ok(),
        file.read_at(1, &mut into, tally).ok(),
    ]
}

// Whether the calls of the folder fail that are planned to, and no others, until it stops.
fn are_by_plan(folder: &mut MemFolder) -> bool {
    let mut tally = FaultCount::fresh();
    let is_made = make(folder, Name::Manifest)
        && folder.sync(Name::Manifest).is_err()
        && folder.sync(Name::Manifest).is_ok();
    let is_read = match table(folder, &mut tally) {
        Ok(Some(table)) => counts_read(&table, &mut tally) == [None, Some(3)],
        _ => false,
    };
    folder.stop_after(folder.calls());
    is_made
        && is_read
        && tally.faults() == 2
        && folder.sync(Name::Manifest).is_err()
        && folder.faults() == 2
}

#[test]
fn calls_fail_by_plan_and_are_counted(rt: HostRuntime) {
    let Some(plan) = plan(rt.alloc()) else {
        panic!(rt; "no memory");
    };
    assert!(rt; are_by_plan(&mut MemFolder::new(rt.alloc(), plan)));
}
