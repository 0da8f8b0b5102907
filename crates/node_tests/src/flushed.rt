//! A folder with a store of two shards and the table `k tinyint, c tinyint, v tinyint, PRIMARY KEY (k, c)`, of which a flush
//! wrote a file.

use cas_atoms::{Atom, ColumnRef, Mutation};
use cas_bounds::{Clustering, Ordered, RowOrder, Values};
use cas_cell::{Cell, Liveness};
use cas_disk::{Count, Draft, FaultCount, FaultPlan, Folder, MemDraft, MemFolder, MemSealed, Name};
use cas_flush::flush_parts;
use cas_fragments::Version;
use cas_stored::TableStore;
use cas_tables::Header;
use cas_types::{Bytes, Column, Kind, List, Shape, Text, TypeTag};
use std::alloc::Global;
use std::process::Abort;

// The manifest by hand. The file has 238 bytes: 21 of the header, 96 of the one partition with two rows of 41, 33 of the
// index, 12 of the filter, 44 of what is told of it, and 32 of the footer.
const MANIFEST: [u8; 177] = [
    1, 0x43, 0x41, 0x53, 0x53, 0x4d, 0x41, 0x4e, 0x31, // its gate is open, CASSMAN1
    1, 0, 0, 0, 2, 0, 0, 0, 1, // an open gate, and the lengths of a block
    1, 2, // two shards
    1, 0, 0, 0, 62, 0, 0, 0, 1, //
    2, 0, 0, 0, 1, 0x74, // table 0 is t
    0, 3, // three columns
    0, 1, 0x6b, 0, 0, 11, // k tinyint, of the partition key
    0, 1, 0x63, 1, 0, 11, // c tinyint, a clustering column
    0, 1, 0x76, 3, 0, 11, // v tinyint
    0, 0x0d, 0x2f, 0, 0, 0, 0, 0, 0, // ten days, no TTL, size-tiered
    0, 4, 0, 32, 0, 0, 0, 50, 0, 0, 0, 150, // the thresholds and bounds
    0, 0, 0, 0, 3, 0x20, 0, 0, 0, 160, 0, 10, // the sizes
    2, 0, 1, // windows of one day
    1, 0, 0, 0, 76, 0, 0, 0, 1, //
    5, 0, 0, 1, // table 0 in shard 1
    0, 0, 0, 0, 0, 0, 0, 77, // the moment
    0, 0, 0, 0, 0, 0, 0, 5, // the frontier
    0, 0, 0, 0, 0, 0, 0, 40, // the last drawn timestamp
    0, 0, 0, 1, // none is removed, one added
    0, 0, 0, 0, 0, 0, 0, 1, 0, 0, 0, 0, 0, 0, 0, 238, // table file 1 of 238 bytes
    0, 1, 1, 0, 1, 1, // its keys
    0, 0, 0, 0, 0, 0, 0, 10, 0, 0, 0, 0, 0, 0, 0, 20, 0, // its timestamps, nothing dead
    0, 0, 0, 0, 1, // level 0, one key
    0, // the next gate is closed
];

const HEADER: Header = Header {
    version: Version::Second,
    table: 0,
    shard: 1,
    number: 1,
};

fn column(alloc: Global, kind: Kind) -> Column {
    Column {
        name: Text::from_string(String::new(alloc)),
        kind,
        shape: Shape::One,
        tag: TypeTag::TinyInt,
        second: None,
    }
}

fn columns(rt: &impl Abort, alloc: Global) -> Vec<Column> {
    let columns = vec![in alloc;
        column(alloc, Kind::Partition),
        column(alloc, Kind::Ascending),
        column(alloc, Kind::Regular),
    ];
    columns.expect(rt, "memory")
}

fn bytes_of(rt: &impl Abort, alloc: Global, bytes: &[u8]) -> Bytes {
    Bytes::copy_of(alloc, bytes).expect(rt, "memory")
}

fn order(rt: &impl Abort, alloc: Global) -> RowOrder {
    let order = Ordered {
        tag: TypeTag::TinyInt,
        descending: false,
    };
    RowOrder::from_vec(vec![in alloc; order].expect(rt, "memory"))
}

fn place(rt: &impl Abort, alloc: Global, c: u8) -> Clustering {
    Clustering {
        values: Values::one(bytes_of(rt, alloc, &[c])),
        order: order(rt, alloc),
    }
}

fn live(rt: &impl Abort, alloc: Global, c: u8, at: u8) -> Atom {
    Atom::Live(place(rt, alloc, c), Liveness::Plain { at: i64::from(at) })
}

fn written(rt: &impl Abort, alloc: Global, c: u8, v: u8, at: u8) -> Atom {
    let cell = Cell::Plain {
        at: i64::from(at),
        value: bytes_of(rt, alloc, &[v]),
    };
    let column = ColumnRef {
        number: 2,
        path: None,
    };
    Atom::Write(place(rt, alloc, c), column, bytes_of(rt, alloc, &[]), cell)
}

fn atoms(rt: &impl Abort, alloc: Global, c: u8, v: u8, at: u8) -> List<Atom> {
    let atoms = vec![in alloc; live(rt, alloc, c, at), written(rt, alloc, c, v, at)];
    List::from_vec(atoms.expect(rt, "memory"))
}

// INSERT INTO t (k, c, v) VALUES (1, c, v) USING TIMESTAMP at
fn insert(rt: &impl Abort, alloc: Global, number: u64, c: u8, v: u8, at: u8) -> Mutation {
    Mutation {
        table: 0,
        shard: 1,
        number,
        drawn: false,
        at: i64::from(at),
        moment: 77,
        key: bytes_of(rt, alloc, &[1]),
        atoms: atoms(rt, alloc, c, v, at),
    }
}

fn join(rt: &impl Abort, store: &mut TableStore<MemSealed>, mutation: Mutation) {
    match store.reserve(&mutation) {
        Ok(()) => store.apply(mutation),
        Err(_) => panic!(rt; "memory"),
    }
}

// A store whose one frozen memtable has two rows of a partition.
fn frozen(rt: &impl Abort, alloc: Global) -> TableStore<MemSealed> {
    let mut store = TableStore::new(alloc).expect(rt, "memory");
    join(rt, &mut store, insert(rt, alloc, 4, 3, 30, 10));
    join(rt, &mut store, insert(rt, alloc, 5, 5, 50, 20));
    store.freeze(alloc).expect(rt, "memory");
    store
}

fn is_admitted(folder: &mut MemFolder, draft: MemDraft) -> bool
    requires { ⟦<MemDraft as Draft>⟧.is_synced draft }
{
    folder.admit(draft).is_ok()
}

// Whether a flush of these memtables wrote the table file 1.
fn is_flushed(
    alloc: Global,
    folder: &mut MemFolder,
    store: &TableStore<MemSealed>,
    columns: &[Column],
) -> bool {
    let Ok(draft) = folder.draft(1) else {
        return false;
    };
    let memtables = store.parts().frozen();
    match flush_parts(
        alloc,
        memtables,
        columns,
        HEADER,
        draft,
        &mut FaultCount::fresh(),
    ) {
        Ok(Some((_info, draft))) => is_admitted(folder, draft),
        _ => false,
    }
}

/// Whether a file of these bytes is made where none was.
pub(crate) fn put(folder: &mut MemFolder, name: Name, bytes: &[u8]) -> bool {
    !folder.has(name) && folder.create(name).is_ok() && folder.write_at(name, 0, bytes).is_ok()
}

// The folder, whose calls fail by this plan.
fn flushed(rt: &impl Abort, alloc: Global, plan: FaultPlan) -> MemFolder {
    let mut folder = MemFolder::new(alloc, plan);
    assert!(rt; put(&mut folder, Name::Manifest, &MANIFEST));
    let store = frozen(rt, alloc);
    let columns = columns(rt, alloc);
    assert!(rt; is_flushed(alloc, &mut folder, &store, &columns));
    folder
}

// Where the manifest tells the length of the table file, in its last byte.
const LENGTH_PLACE: u64 = 147;

/// The folder with a table file of these bytes, which is listed with so many.
pub(crate) fn listing(rt: &impl Abort, alloc: Global, bytes: &[u8], long: u8) -> MemFolder {
    let mut folder = MemFolder::new(alloc, FaultPlan::none(alloc));
    assert!(rt; put(&mut folder, Name::Manifest, &MANIFEST));
    assert!(rt;
        folder
            .write_at(Name::Manifest, LENGTH_PLACE, &[long])
            .is_ok()
    );
    assert!(rt; put(&mut folder, Name::Table(1), bytes));
    folder
}

/// The folder, whose table file fails at the read of this number.
pub(crate) fn failing(rt: &impl Abort, alloc: Global, read: u64) -> MemFolder {
    let plan = FaultPlan {
        calls: Vec::new(alloc),
        drafts: Vec::new(alloc),
        reads: vec![in alloc; (1, read)].expect(rt, "memory"),
    };
    flushed(rt, alloc, plan)
}

/// The same without such a read.
pub(crate) fn found(rt: &impl Abort, alloc: Global) -> MemFolder {
    flushed(rt, alloc, FaultPlan::none(alloc))
}
