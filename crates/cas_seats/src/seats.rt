//! The seats of a store in its one history: of its room and its shards, and the right to make more.

ghost use Rattle.std.specs.Prelude.{◌≡◌, ◌+◌, ◌≤◌, ◌<◌, ℕ, [], length, map, None, IfOk};
ghost use Rattle.cas_history.specs.Items.{listed, log_list};
ghost use Rattle.cas_history.specs.Hands.{numbers};
ghost use Rattle.cas_refs.specs.Counts.{at};

use cas_disk::Sealed;
use cas_history::{Faults, Files, Front, Item, Log, Numbers, Opened as Table, Store};
use cas_lifecycle::{Book, Changes, Maker, RoomCopy};
use cas_refs::RefBook;
use cas_room::Event;
use cas_shard::Shard;
use cas_types::Mem;
use std::alloc::Global;

/// The seats of a store, before anything was accepted.
#[derive(Drop)]
pub struct Seats<J: Store> {
    pub log: Log<Event, J>,
    pub faults: Faults<Event, J>,
    pub numbers: Numbers<Event, J>,
    pub fronts: Vec<Front<Event, J>>,
    pub changes: Vec<Changes<Event, J>>,
    pub copies: Vec<RoomCopy<Event, J>>,
    pub book: Book<Event, J>,
    pub files: Files<Event, J>,
    pub maker: Maker<Event, J>,
}

// The seat of the shard of this number, whose last mutation has that one.
fn front<J: Store>(
    maker: &mut Maker<Event, J>,
    place: u64,
    number: u64,
) -> Result<Front<Event, J>, Mem>
    requires next { maker.old.next ≤ 16 + place }
    requires few { place < 16 }
    ensures seat { IfOk result (λ f. (f.shard ≡ place) × (f.number ≡ number)) }
    ensures next { maker.new.next ≤ 17 + place }
    ensures out { maker.new.out ≡ maker.old.out }
{
    let fresh = maker.fresh(16 + place)?;
    Ok(Front::new(fresh, place, number))
}

// A seat for each shard, with its last number.
fn fronts<J: Store, S: Sealed>(
    alloc: Global,
    maker: &mut Maker<Event, J>,
    shards: &[Shard<S>],
) -> Result<Vec<Front<Event, J>>, Mem>
    requires next { maker.old.next ≤ 16 }
    requires few { length shards.now ≤ 16 }
    ensures places { IfOk result (λ v. map (λ f. f.shard) v.items ≡ numbers 0 (length shards.now)) }
    ensures numbers { IfOk result (λ v. map (λ f. f.number) v.items ≡ map (λ x. x.number) shards.now) }
    ensures next { maker.new.next ≤ 32 }
    ensures out { maker.new.out ≡ maker.old.out }
{
    let mut fronts = Vec::new(alloc);
    for place in 0..shards.len() as u64 {
        let number = shards[place as usize].number();
        fronts.push(front(maker, place, number)?)?;
    }
    Ok(fronts)
}

// The seat of the shard of this number for its changes of table files.
fn change<J: Store>(maker: &mut Maker<Event, J>, place: u64) -> Result<Changes<Event, J>, Mem>
    requires next { maker.old.next ≤ 48 + place }
    requires few { place < 16 }
    ensures seat { IfOk result (λ c. c.shard ≡ place) }
    ensures next { maker.new.next ≤ 49 + place }
    ensures out { maker.new.out ≡ maker.old.out }
{
    let fresh = maker.fresh(48 + place)?;
    Ok(Changes::new(fresh, place))
}

// The room's seat for the same.
fn copy<J: Store>(maker: &mut Maker<Event, J>, place: u64) -> Result<RoomCopy<Event, J>, Mem>
    requires next { maker.old.next ≤ 64 + place }
    requires few { place < 16 }
    ensures seat { IfOk result (λ c. c.shard ≡ place) }
    ensures next { maker.new.next ≤ 65 + place }
    ensures out { maker.new.out ≡ maker.old.out }
{
    let fresh = maker.fresh(64 + place)?;
    Ok(RoomCopy::new(fresh, place))
}

// The shards' seats for their changes of table files, so many.
fn changes<J: Store>(
    alloc: Global,
    maker: &mut Maker<Event, J>,
    count: u64,
) -> Result<Vec<Changes<Event, J>>, Mem>
    requires next { maker.old.next ≤ 48 }
    requires few { count ≤ 16 }
    ensures places { IfOk result (λ v. map (λ c. c.shard) v.items ≡ numbers 0 count) }
    ensures next { maker.new.next ≤ 64 }
    ensures out { maker.new.out ≡ maker.old.out }
{
    let mut changes = Vec::new(alloc);
    for place in 0..count {
        changes.push(change(maker, place)?)?;
    }
    Ok(changes)
}

// The room's seats for these.
fn copies<J: Store>(
    alloc: Global,
    maker: &mut Maker<Event, J>,
    count: u64,
) -> Result<Vec<RoomCopy<Event, J>>, Mem>
    requires next { maker.old.next ≤ 64 }
    requires few { count ≤ 16 }
    ensures places { IfOk result (λ v. map (λ c. c.shard) v.items ≡ numbers 0 count) }
    ensures next { maker.new.next ≤ 80 }
    ensures out { maker.new.out ≡ maker.old.out }
{
    let mut copies = Vec::new(alloc);
    for place in 0..count {
        copies.push(copy(maker, place)?)?;
    }
    Ok(copies)
}

/// The seats of a store with these shards, where this is the last number of a table file so far.
pub fn make_seats<J: Store, S: Sealed>(
    alloc: Global,
    table: Table<Item<Event>>,
    shards: &[Shard<S>],
    last_file: u64,
) -> Result<Seats<J>, Mem>
    requires table { table.seat.table_id ≡ J.table }
    requires few { length shards.now ≤ 16 }
    ensures log { IfOk result (λ s. listed log_list s.log.pass.saw ≡ []) }
    ensures faults { IfOk result (λ s. (s.faults.number ≡ 0) × (s.faults.committed ≡ 0) × (s.faults.first ≡ 0)) }
    ensures places { IfOk result (λ s. map (λ f. f.shard) s.fronts.items ≡ numbers 0 (length shards.now)) }
    ensures numbers { IfOk result (λ s. map (λ f. f.number) s.fronts.items ≡ map (λ x. x.number) shards.now) }
    ensures changes { IfOk result (λ s. map (λ c. c.shard) s.changes.items ≡ numbers 0 (length shards.now)) }
    ensures copies { IfOk result (λ s. map (λ c. c.shard) s.copies.items ≡ numbers 0 (length shards.now)) }
    ensures last { IfOk result (λ s. s.numbers.last ≡ last_file) }
    ensures book { IfOk result (λ s. (k : ℕ) → at s.book.refs k ≡ None) }
    ensures out { IfOk result (λ s. s.maker.out ≡ 0) }
{
    let mut maker = Maker::first(table);
    let log = Log::new(maker.fresh(0)?);
    let faults = Faults::new(maker.fresh(1)?);
    let numbers = Numbers::new(maker.fresh(2)?, last_file);
    let fronts = fronts(alloc, &mut maker, shards)?;
    let changes = changes(alloc, &mut maker, shards.len() as u64)?;
    let copies = copies(alloc, &mut maker, shards.len() as u64)?;
    let book = maker.book(RefBook::new(alloc))?;
    let files = maker.files()?;
    Ok(Seats {
        log,
        faults,
        numbers,
        fronts,
        changes,
        copies,
        book,
        files,
        maker,
    })
}
