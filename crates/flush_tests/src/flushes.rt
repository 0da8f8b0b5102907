//! A memtable that is flushed, and what is found in its file.

use crate::files::{checked, written};
use crate::writes::{Statement, mutation};
use cas_disk::{FaultPlan, Folder, MemFolder, MemSealed, Name};
use cas_stored::TableStore;
use std::alloc::{AllocError, Global};

// What goes into the file: a partition, a statement on it, and its timestamp.
const FIRST: [(u8, Statement, u8); 10] = [
    (1, Statement::Insert(3, 30), 10),
    (1, Statement::Insert(5, 50), 20),
    (1, Statement::Update(3, 31), 8), // older than the INSERT
    (1, Statement::Insert(7, 70), 11),
    (1, Statement::DeleteRow(7), 12),
    (1, Statement::DeleteRows(4, 6), 15), // older than the row 5
    (1, Statement::UpdateStatic(9), 9),
    (2, Statement::Insert(1, 10), 30),
    (2, Statement::Insert(2, 20), 31),
    (3, Statement::DeleteRow(1), 5),
];

fn join(
    alloc: Global,
    store: &mut TableStore<MemSealed>,
    k: u8,
    statement: Statement,
    at: u8,
) -> Result<(), AllocError> {
    let mutation = mutation(alloc, k, statement, at)?;
    store.reserve(&mutation)?;
    store.apply(mutation);
    Ok(())
}

// Whether the store took these.
fn takes(
    alloc: Global,
    store: &mut TableStore<MemSealed>,
    statements: &[(u8, Statement, u8)],
) -> bool {
    for (k, statement, at) in statements {
        if join(alloc, store, *k, *statement, *at).is_err() {
            return false;
        }
    }
    true
}

// A store whose one frozen memtable has taken the first statements.
fn frozen(alloc: Global) -> Option<TableStore<MemSealed>> {
    let Ok(mut store) = TableStore::new(alloc) else {
        return None;
    };
    if takes(alloc, &mut store, &FIRST) && store.freeze(alloc).is_ok() {
        Some(store)
    } else {
        None
    }
}

// Where the file is refused in which this byte stands at a place.
fn altered(alloc: Global, store: &TableStore<MemSealed>, place: u64, byte: u8) -> Result<(), u64> {
    let mut folder = MemFolder::new(alloc, FaultPlan::none(alloc));
    let Some((info, _)) = written(alloc, &mut folder, store) else {
        return Err(1000);
    };
    if folder.write_at(Name::Table(255), place, &[byte]).is_err() {
        return Err(1000);
    }
    let Ok(file) = folder.sealed(255) else {
        return Err(1000);
    };
    checked(alloc, &info, file)
}

// Another byte at a place, and where the check refuses the file. The partitions stand at 21, 195 and 291, the index at
// 330, the filter's bytes at 425 and the info at 433.
fn are_refused(alloc: Global, store: &TableStore<MemSealed>) -> bool {
    altered(alloc, store, 23, 1) == Ok(()) // as it is
        && altered(alloc, store, 23, 2) == Err(195) // the second key isn't above the first
        && altered(alloc, store, 54, 3) == Err(54) // neither a row nor a marker
        && altered(alloc, store, 94, 31) == Ok(()) // another value
        && altered(alloc, store, 261, 32) == Err(463) // a liveness above the greatest timestamp of the info
        && altered(alloc, store, 353, 4) == Err(349) // the index has another cut of the first block
        && altered(alloc, store, 425, 0) == Err(425) // the filter hasn't got the key 1
}

#[test]
fn a_flushed_file_is_found_right_and_another_byte_refused(rt: HostRuntime) {
    let store = frozen(rt.alloc()).expect(&rt, "memory");
    assert!(rt; are_refused(rt.alloc(), &store));
}
