// Each call of the history once, on one line: writes and readings; a compaction that decides a purge; a
// flush that fails after it drew a number; a reader of a file that the opening found and a compaction removes.
ghost use Rattle.std.specs.Prelude.{◌≡◌, ◌<◌, ◌≤◌};
ghost use Rattle.cas_history.specs.Items.{listed, changes_list};
ghost use Rattle.cas_history.specs.Last.{frontier_of, files_of};
ghost use Rattle.cas_history.specs.Log.{Has};

use crate::two::Value;
use cas_history::{
    Faults, Files, Front, Item, Log, Moments, Numbers, Opened, Store, held_once, history_stands,
    session_stands, shard_stands, show, write,
};
use cas_lifecycle::{
    Book, Change, Changes, Maker, RoomCopy, Standing, begin_alone, book_stands, files_apart,
    files_stand, frontiers_stand, held_is_unlisted, install, list_found, room_stands,
};
use cas_refs::{RefBook, Removal};
use std::alloc::Global;
use std::marker::Brand;
use std::process::Abort;
use std::test::*;

/// A write's number, the number shown, the number of the session's write, and the moments of two readings.
fn writes<J: Store>(rt: &impl Abort, opened: Opened<Item<u64>>) -> (u64, u64, u64, u64, u64)
    requires { opened.seat.table_id ≡ J.table }
{
    let mut maker = Maker::<u64, J>::first(opened);
    let mut log = Log::new(maker.fresh(0).expect(rt, "memory"));
    let mut front = Front::new(maker.fresh(16).expect(rt, "memory"), 0, 41);
    let mut moments = Moments::new(maker.fresh(32).expect(rt, "memory"), 0, 100);
    let mut session = maker.session().expect(rt, "memory");
    let number = write(&mut log, &mut front, &mut session, &Value(5));
    let shown = show(&mut front, &mut session);
    session.read(200_000_001);
    let first = moments.raise(&mut session, 200_000_001);
    session.read(99_000_000);
    let later = moments.raise(&mut session, 99_000_000);
    session_stands(&mut log, &mut session);
    shard_stands(&mut log, &mut front);
    history_stands(&log);
    (number, shown, session.calls(), first, later)
}

/// After a compaction: whether another begins, whether a third begins while it runs, and the sessions that
/// are out.
fn compaction<J: Store>(rt: &impl Abort, opened: Opened<Item<u64>>) -> (bool, bool, u64)
    requires { opened.seat.table_id ≡ J.table }
{
    let mut maker = Maker::<u64, J>::first(opened);
    let mut front = Front::new(maker.fresh(16).expect(rt, "memory"), 0, 41);
    let mut session = maker.session().expect(rt, "memory");
    let mut works = maker.works().expect(rt, "memory");
    begin_alone(&mut works, &mut maker, &mut session, &Value(1));
    works.decide(&mut front, &mut session, &Value(2));
    works.end(&mut session);
    let next = works.begin(&mut session, &Value(3));
    let third = works.begin(&mut session, &Value(4));
    (next, third, maker.out())
}

/// The number of a file that failed, the count of faults, and the number of the next file.
fn failed_flush<J: Store>(rt: &impl Abort, opened: Opened<Item<u64>>) -> (u64, u64, u64)
    requires { opened.seat.table_id ≡ J.table }
{
    let mut maker = Maker::<u64, J>::first(opened);
    let mut faults = Faults::new(maker.fresh(1).expect(rt, "memory"));
    let mut numbers = Numbers::new(maker.fresh(2).expect(rt, "memory"), 7);
    let mut session = maker.session().expect(rt, "memory");
    let mut files = maker.files().expect(rt, "memory");
    let failed = numbers.draw(&mut files);
    faults.say(1, 1, 0);
    faults.tell(&mut session);
    let told = faults.tell_files(&mut files);
    let file = numbers.draw(&mut files);
    files.meet(&mut session);
    numbers.stand();
    (failed, told, file)
}

/// The laws of a number that is held, and of two shards.
fn held<J: Store>(rt: &impl Abort, opened: Opened<Item<u64>>) -> u64
    requires { opened.seat.table_id ≡ J.table }
{
    let mut maker = Maker::<u64, J>::first(opened);
    let mut numbers = Numbers::new(maker.fresh(2).expect(rt, "memory"), 7);
    let mut one = Changes::new(maker.fresh(48).expect(rt, "memory"), 0);
    let mut two = Changes::new(maker.fresh(49).expect(rt, "memory"), 1);
    let mut files = maker.files().expect(rt, "memory");
    let mut others = maker.files().expect(rt, "memory");
    let file = numbers.draw(&mut files);
    held_is_unlisted(&mut one, &mut files, file);
    held_once(&mut files, &mut others, file);
    files_apart(&mut one, &mut two);
    file
}

// A compaction while a reader has file 3, which the compaction removes. Its file's number, what retiring file
// 3 gives, and what the reader's release gives then.
fn compact<J: Store>(
    rt: &impl Abort,
    numbers: &mut Numbers<u64, J>,
    changes: &mut Changes<u64, J>,
    room: &mut RoomCopy<u64, J>,
    book: &mut Book<u64, J>,
    files: &mut Files<u64, J>,
    front: &mut Front<u64, J>,
) -> (u64, Option<u64>, Option<u64>)
    requires last { (7 ≤ numbers.old.last) × (numbers.old.last < 1000) }
    requires shard { (room.old.shard ≡ changes.old.shard) × (front.old.shard ≡ changes.old.shard) }
    requires frontier { (frontier_of 1 (listed (changes_list changes.old.shard) changes.old.pass.saw) ≤ 42) × (42 ≤ front.old.number) }
    requires has { Has (files_of (listed (changes_list changes.old.shard) changes.old.pass.saw)) 3 }
    ensures shard { (changes.new.shard ≡ changes.old.shard) × (room.new.shard ≡ changes.old.shard) × (front.new.shard ≡ changes.old.shard) }
{
    let file = numbers.draw(files);
    if book.count(file).is_some() {
        return (0, None, None);
    }
    book.add(file).expect(rt, "memory");
    let pin = book.pin(changes, 3).ok().expect(rt, "room for a pin");
    let change = Change {
        table: 1,
        frontier: 42,
        removed: &[3],
        added: &[file],
        what: &Value(6),
    };
    install(changes, room, book, files, front, change);
    let early = book.retire(3).map(Removal::into_id);
    let last = book.release(pin).map(Removal::into_id);
    (file, early, last)
}

/// A compaction of a file that the opening found, and the laws after it.
fn found<J: Store>(
    rt: &impl Abort,
    alloc: Global,
    opened: Opened<Item<u64>>,
) -> (u64, Option<u64>, Option<u64>)
    requires { opened.seat.table_id ≡ J.table }
{
    let mut maker = Maker::<u64, J>::first(opened);
    let mut numbers = Numbers::new(maker.fresh(2).expect(rt, "memory"), 7);
    let mut front = Front::new(maker.fresh(16).expect(rt, "memory"), 0, 42);
    let mut changes = Changes::new(maker.fresh(48).expect(rt, "memory"), 0);
    let mut room = RoomCopy::new(maker.fresh(64).expect(rt, "memory"), 0);
    let mut book = maker.book(RefBook::new(alloc)).expect(rt, "memory");
    let mut files = maker.files().expect(rt, "memory");
    book.add(3).expect(rt, "memory");
    let stood = Standing {
        table: 1,
        frontier: 41,
        files: &[3],
        what: &Value(7),
    };
    list_found(
        &mut numbers,
        &mut changes,
        &mut room,
        &mut book,
        &mut front,
        stood,
    );
    let compacted = compact(
        rt,
        &mut numbers,
        &mut changes,
        &mut room,
        &mut book,
        &mut files,
        &mut front,
    );
    room_stands(&mut changes, &mut room);
    book_stands(&mut changes, &mut book);
    files_stand(&mut numbers, &mut changes);
    frontiers_stand(&mut changes, &mut front);
    compacted
}

#[test]
fn each_call_once(rt: HostRuntime) {
    let opened = Opened::<Item<u64>>::new(rt.alloc()).expect(&rt, "memory");
    let answers = writes::<Brand>(&rt, opened);
    assert!(rt; answers == (42, 42, 1, 200, 200));
    let opened = Opened::<Item<u64>>::new(rt.alloc()).expect(&rt, "memory");
    let works = compaction::<Brand>(&rt, opened);
    assert!(rt; works == (true, false, 1));
    let opened = Opened::<Item<u64>>::new(rt.alloc()).expect(&rt, "memory");
    let failed = failed_flush::<Brand>(&rt, opened);
    assert!(rt; failed == (8, 1, 9));
    let opened = Opened::<Item<u64>>::new(rt.alloc()).expect(&rt, "memory");
    let number = held::<Brand>(&rt, opened);
    assert!(rt; number == 8);
    let opened = Opened::<Item<u64>>::new(rt.alloc()).expect(&rt, "memory");
    let compacted = found::<Brand>(&rt, rt.alloc(), opened);
    assert!(rt; compacted == (8, None, Some(3)));
}
