//! What holds of seats that meet, whatever ran before, in whichever thread; a line alone; the end of a run.
ghost use Rattle.std.specs.Prelude.{◌≡◌, ℕ, ◌%◌, ◌≤◌, [], ◌∷◌, ◌++◌, true, None, Some};
ghost use mathlib.Core.List.{IsPrefix};
ghost use Rattle.cas_history.specs.Items.{listed, log_list, front_list, changes_list, room_changes, book_changes, first_diary};
ghost use Rattle.cas_history.specs.Hands.{Owns};
ghost use Rattle.cas_history.specs.Last.{turn, Idle};
ghost use Rattle.cas_history.specs.Laws.{Stands};
ghost use Rattle.cas_history.specs.declared.item.Item.TheVariants.{Began};

use crate::book::Book;
use crate::changes::{Changes, RoomCopy};
use crate::maker::Maker;
use crate::works::Works;
use cas_history::{Item, Kept, Log, Session, Store, Tells, join, look, look_three};

/// The room's copy of a shard's changes is the shard's list.
pub fn room_stands<E, J: Store>(changes: &mut Changes<E, J>, room: &mut RoomCopy<E, J>)
    requires { room.old.shard ≡ changes.old.shard }
    ensures law { listed (changes_list changes.old.shard) changes.old.pass.saw ≡ listed (room_changes changes.old.shard) room.old.pass.saw }
    ensures same { (changes.new.shard ≡ changes.old.shard) × (room.new.shard ≡ room.old.shard)
        × (listed (changes_list changes.old.shard) changes.new.pass.saw ≡ listed (changes_list changes.old.shard) changes.old.pass.saw)
        × (listed (room_changes room.old.shard) room.new.pass.saw ≡ listed (room_changes room.old.shard) room.old.pass.saw) }
{
    look(&mut changes.pass, &mut room.pass, 0);
}

/// The book's copy of a shard's changes is the shard's list.
pub fn book_stands<E, J: Store>(changes: &mut Changes<E, J>, book: &mut Book<E, J>)
    ensures law { listed (changes_list changes.old.shard) changes.old.pass.saw ≡ listed (book_changes changes.old.shard) book.old.pass.saw }
    ensures same { (changes.new.shard ≡ changes.old.shard) × (book.new.refs ≡ book.old.refs)
        × (listed (changes_list changes.old.shard) changes.new.pass.saw ≡ listed (changes_list changes.old.shard) changes.old.pass.saw) }
{
    look(&mut changes.pass, &mut book.pass, 0);
}

/// In a lone line nothing runs: where all other sessions have ended, and this one has no turn.
pub fn nothing_runs<E, J: Store>(
    works: &mut Works<E, J>,
    maker: &mut Maker<E, J>,
    session: &mut Session<E, J>,
)
    requires lone { maker.old.out ≡ 1 }
    requires idle { Idle (listed session.old.list session.old.pass.saw) }
    ensures none { works.old.running ≡ None }
    ensures works { (works.new.running ≡ works.old.running) × (works.new.list ≡ works.old.list)
        × (listed works.old.list works.new.pass.saw ≡ listed works.old.list works.old.pass.saw) }
    ensures maker { (maker.new.next ≡ maker.old.next) × (maker.new.out ≡ maker.old.out) }
    ensures session { (session.new.list ≡ session.old.list) × (session.new.calls ≡ session.old.calls)
        × (listed session.old.list session.new.pass.saw ≡ listed session.old.list session.old.pass.saw) }
    ensures seen { (session.new.pass.saw ≡ works.new.pass.saw) × IsPrefix works.old.pass.saw works.new.pass.saw
        × IsPrefix session.old.pass.saw works.new.pass.saw }
{
    look_three(&mut works.pass, &mut maker.pass, &mut session.pass);
}

/// In a lone line a flush or a compaction begins, and nothing is ever in its way: whoever has the right to
/// make passes has it while no other session is out.
pub fn begin_alone<E, J: Store, T: Tells<E>>(
    works: &mut Works<E, J>,
    maker: &mut Maker<E, J>,
    session: &mut Session<E, J>,
    what: &T,
)
    requires lone { maker.old.out ≡ 1 }
    requires idle { Idle (listed session.old.list session.old.pass.saw) }
    ensures runs { (works.old.running ≡ None) × (works.new.running ≡ Some session.old.list) × (works.new.list ≡ works.old.list) }
    ensures list { listed works.old.list works.new.pass.saw ≡ listed works.old.list works.old.pass.saw
        ++ Began works.old.list session.old.list (T.entry what.now) ∷ [] }
    ensures diary { listed session.old.list session.new.pass.saw ≡ listed session.old.list session.old.pass.saw
        ++ Began works.old.list session.old.list (T.entry what.now) ∷ [] }
    ensures turn { turn works.old.list (listed session.old.list session.new.pass.saw) ≡ true }
    ensures same { (session.new.list ≡ session.old.list) × (session.new.calls ≡ session.old.calls)
        × (maker.new.next ≡ maker.old.next) × (maker.new.out ≡ maker.old.out) }
{
    nothing_runs(works, maker, session);
    let began = works.begin(session, what);
    prove!(began);
}

/// A run has ended: its one history, in which the room's list and the diaries of all sessions that have
/// ended are as they were, and each list goes on from what any of them was shown of it.
pub fn conclude<E, J: Store>(maker: Maker<E, J>, log: Log<E, J>) -> Kept<Item<E>>
    ensures room { listed log_list result.saw ≡ listed log_list log.pass.saw }
    ensures holds { (list : ℕ) → IsPrefix (listed list maker.pass.saw) (listed list result.saw) }
    ensures diaries { (p : ℕ) → Owns maker.pass p → listed p result.saw ≡ listed p maker.pass.saw }
    ensures law { Stands (listed log_list result.saw) (λ shard. listed (front_list shard) result.saw) (λ session. listed session result.saw) }
    ensures all { maker.out ≡ 0 → (p : ℕ) → first_diary ≤ p → p % 2 ≡ 0 → Idle (listed p result.saw) }
{
    let mut pass = maker.pass;
    join(&mut pass, log.pass);
    pass.kept()
}
