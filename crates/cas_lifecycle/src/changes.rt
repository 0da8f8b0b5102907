//! Changes of a shard's table files, and the copies of them that the room and the book have.
ghost use Rattle.std.specs.Prelude.{◌≡◌, ◌≢◌, ℕ, ◌<◌, ◌≤◌, true, [], ◌∷◌, ◌++◌};
ghost use mathlib.Core.List.{IsPrefix};
ghost use Rattle.cas_history.specs.Log.{Each, Has};
ghost use Rattle.cas_history.specs.Hands.{Owns};
ghost use Rattle.cas_history.specs.Items.{listed, front_list, changes_list, room_changes, book_changes, numbers_list, Distinct};
ghost use Rattle.cas_history.specs.Last.{holds, used, all_added, files_of, frontier_of};
ghost use Rattle.cas_lifecycle.specs.Books.{is_live};
ghost use Rattle.cas_refs.specs.Counts.{at};
ghost use Rattle.cas_history.specs.declared.item.Item.TheVariants.{Changed, Stood};

use crate::book::Book;
use cas_history::{Files, Fresh, Front, Item, Numbers, Pass, Store, Tells, accept_five, look};
use std::marker::PhantomData;

/// The shard's seat for its changes.
#[derive(Drop)]
pub struct Changes<E, J: Store> {
    pub(crate) pass: Pass<Item<E>, J>,
    pub(crate) shard: u64,
    ghost owns: { (shard < 16) × Owns pass (changes_list shard) },
}

/// The room's seat for a shard's changes.
#[derive(Drop)]
pub struct RoomCopy<E, J: Store> {
    pub(crate) pass: Pass<Item<E>, J>,
    pub(crate) shard: u64,
    ghost owns: { (shard < 16) × Owns pass (room_changes shard) },
}

/// What the opening found of a table in a shard.
#[derive(Drop)]
pub struct Standing<'a, T> {
    pub table: u64,
    pub frontier: u64,
    pub files: &'a [u64],
    pub what: &'a T,
}

/// A change of a table's files in a shard: of a flush or a compaction.
#[derive(Drop)]
pub struct Change<'a, T> {
    pub table: u64,
    /// The number of the shard's last mutation that the table's files hold.
    pub frontier: u64,
    pub removed: &'a [u64],
    pub added: &'a [u64],
    pub what: &'a T,
}

#[derive(Drop)]
struct Listing<'a, E, T> {
    shard: u64,
    found: Standing<'a, T>,
    of: PhantomData<E>,
}

impl<'a, E, T: Tells<E>> Tells<Item<E>> for Listing<'a, E, T> {
    ghost use Rattle.cas_history.specs.declared.item.Item.TheVariants.{Stood};

    ghost entry = { λ i. Stood i.shard i.found.table i.found.frontier i.found.files.now (T.entry i.found.what.now) };
}

#[derive(Drop)]
struct Installing<'a, E, T> {
    shard: u64,
    pass: u64,
    change: Change<'a, T>,
    of: PhantomData<E>,
}

impl<'a, E, T: Tells<E>> Tells<Item<E>> for Installing<'a, E, T> {
    ghost use Rattle.cas_history.specs.declared.item.Item.TheVariants.{Changed};

    ghost entry = { λ i. Changed i.shard i.pass i.change.table i.change.frontier i.change.removed.now i.change.added.now (T.entry i.change.what.now) };
}

impl<E, J: Store> Changes<E, J> {
    pub fn new(fresh: Fresh<E, J>, shard: u64) -> Changes<E, J>
        requires { (shard < 16) × (fresh.list ≡ changes_list shard) }
        ensures { (result.shard ≡ shard) × (listed (changes_list shard) result.pass.saw ≡ []) }
    {
        Changes {
            pass: fresh.pass,
            shard,
        }
    }
}

impl<E, J: Store> RoomCopy<E, J> {
    pub fn new(fresh: Fresh<E, J>, shard: u64) -> RoomCopy<E, J>
        requires { (shard < 16) × (fresh.list ≡ room_changes shard) }
        ensures { (result.shard ≡ shard) × (listed (room_changes shard) result.pass.saw ≡ []) }
    {
        RoomCopy {
            pass: fresh.pass,
            shard,
        }
    }
}

/// What the opening found of a table comes into the history, before a file number is drawn or a change made.
pub fn list_found<E, J: Store, T: Tells<E>>(
    numbers: &mut Numbers<E, J>,
    changes: &mut Changes<E, J>,
    room: &mut RoomCopy<E, J>,
    book: &mut Book<E, J>,
    front: &mut Front<E, J>,
    found: Standing<'_, T>,
)
    requires shard { (room.old.shard ≡ changes.old.shard) × (front.old.shard ≡ changes.old.shard) }
    requires files { Distinct found.files.now
        × Each (λ k. (k ≤ numbers.old.last) × (Has (used (listed numbers_list numbers.old.pass.saw)) k → ⊥)) found.files.now }
    requires live { Each (λ k. is_live (at book.old.refs k) ≡ true) found.files.now }
    requires frontier { (frontier_of found.table (listed (changes_list changes.old.shard) changes.old.pass.saw) ≤ found.frontier)
        × (found.frontier ≤ front.old.number) }
    ensures numbers { (numbers.new.last ≡ numbers.old.last) × (listed numbers_list numbers.new.pass.saw ≡ listed numbers_list numbers.old.pass.saw
        ++ Stood changes.old.shard found.entry.table found.entry.frontier
        found.entry.files.now (T.entry found.entry.what.now) ∷ []) }
    ensures changes { (changes.new.shard ≡ changes.old.shard) × (listed (changes_list changes.old.shard) changes.new.pass.saw
        ≡ listed (changes_list changes.old.shard) changes.old.pass.saw ++ Stood changes.old.shard found.entry.table found.entry.frontier
        found.entry.files.now (T.entry found.entry.what.now) ∷ []) }
    ensures room { (room.new.shard ≡ changes.old.shard) × (listed (room_changes changes.old.shard) room.new.pass.saw ≡ listed
        (room_changes changes.old.shard) room.old.pass.saw ++ Stood changes.old.shard found.entry.table found.entry.frontier
        found.entry.files.now (T.entry found.entry.what.now) ∷ []) }
    ensures book { (book.new.refs ≡ book.old.refs) × (listed (book_changes changes.old.shard) book.new.pass.saw ≡ listed
        (book_changes changes.old.shard) book.old.pass.saw ++ Stood changes.old.shard found.entry.table found.entry.frontier
        found.entry.files.now (T.entry found.entry.what.now) ∷ []) }
    ensures front { (front.new.number ≡ front.old.number) × (front.new.shard ≡ changes.old.shard)
        × (listed (front_list changes.old.shard) front.new.pass.saw ≡ listed (front_list changes.old.shard) front.old.pass.saw
        ++ Stood changes.old.shard found.entry.table found.entry.frontier found.entry.files.now (T.entry found.entry.what.now) ∷ []) }
{
    let listing = Listing {
        shard: changes.shard,
        found,
        of: PhantomData,
    };
    accept_five(
        &mut numbers.pass,
        &mut changes.pass,
        &mut room.pass,
        &mut book.pass,
        &mut front.pass,
        0,
        &listing,
    );
}

/// A change comes into the history: into the shard's lists, the room's and the book's, and into the list of
/// who drew the numbers of the files that it adds, which holds them no longer. No shard has the removed
/// files any longer, so the book may retire them.
pub fn install<E, J: Store, T: Tells<E>>(
    changes: &mut Changes<E, J>,
    room: &mut RoomCopy<E, J>,
    book: &mut Book<E, J>,
    files: &mut Files<E, J>,
    front: &mut Front<E, J>,
    change: Change<'_, T>,
)
    requires shard { (room.old.shard ≡ changes.old.shard) × (front.old.shard ≡ changes.old.shard) }
    requires added { Distinct change.added.now × Each (λ k. holds k (listed files.old.list files.old.pass.saw) ≡ true) change.added.now }
    requires live { Each (λ k. is_live (at book.old.refs k) ≡ true) change.added.now }
    requires removed { Each (λ k. Has (files_of (listed (changes_list changes.old.shard) changes.old.pass.saw)) k) change.removed.now }
    requires frontier { (frontier_of change.table (listed (changes_list changes.old.shard) changes.old.pass.saw) ≤ change.frontier)
        × (change.frontier ≤ front.old.number) }
    ensures changes { (changes.new.shard ≡ changes.old.shard) × (listed (changes_list changes.old.shard) changes.new.pass.saw
        ≡ listed (changes_list changes.old.shard) changes.old.pass.saw
        ++ Changed changes.old.shard files.old.list change.entry.table change.entry.frontier change.entry.removed.now
        change.entry.added.now (T.entry change.entry.what.now) ∷ []) }
    ensures room { (room.new.shard ≡ changes.old.shard) × (listed (room_changes changes.old.shard) room.new.pass.saw
        ≡ listed (room_changes changes.old.shard) room.old.pass.saw
        ++ Changed changes.old.shard files.old.list change.entry.table change.entry.frontier change.entry.removed.now
        change.entry.added.now (T.entry change.entry.what.now) ∷ []) }
    ensures book { (book.new.refs ≡ book.old.refs) × (listed (book_changes changes.old.shard) book.new.pass.saw
        ≡ listed (book_changes changes.old.shard) book.old.pass.saw
        ++ Changed changes.old.shard files.old.list change.entry.table change.entry.frontier change.entry.removed.now
        change.entry.added.now (T.entry change.entry.what.now) ∷ []) }
    ensures files { (files.new.list ≡ files.old.list) × (listed files.old.list files.new.pass.saw ≡ listed files.old.list files.old.pass.saw
        ++ Changed changes.old.shard files.old.list change.entry.table change.entry.frontier change.entry.removed.now
        change.entry.added.now (T.entry change.entry.what.now) ∷ []) }
    ensures front { (front.new.number ≡ front.old.number) × (front.new.shard ≡ changes.old.shard)
        × (listed (front_list changes.old.shard) front.new.pass.saw ≡ listed (front_list changes.old.shard) front.old.pass.saw
        ++ Changed changes.old.shard files.old.list change.entry.table change.entry.frontier change.entry.removed.now
        change.entry.added.now (T.entry change.entry.what.now) ∷ []) }
    ensures gone { (k : ℕ) → Has change.entry.removed.now k → Has (files_of (listed (changes_list changes.old.shard) changes.new.pass.saw)) k → ⊥ }
    ensures retires { (s k : ℕ) → s < 16 → Has change.entry.removed.now k → Has (files_of (listed (book_changes s) book.new.pass.saw)) k → ⊥ }
    ensures seen { (room.new.pass.saw ≡ changes.new.pass.saw) × (book.new.pass.saw ≡ changes.new.pass.saw)
        × (files.new.pass.saw ≡ changes.new.pass.saw) × (front.new.pass.saw ≡ changes.new.pass.saw)
        × IsPrefix changes.old.pass.saw changes.new.pass.saw × IsPrefix files.old.pass.saw changes.new.pass.saw
        × IsPrefix front.old.pass.saw changes.new.pass.saw }
{
    let installing = Installing {
        shard: changes.shard,
        pass: files.list,
        change,
        of: PhantomData,
    };
    accept_five(
        &mut changes.pass,
        &mut room.pass,
        &mut book.pass,
        &mut files.pass,
        &mut front.pass,
        18 + changes.shard as usize,
        &installing,
    );
}

/// A file number that is held is in no change of any shard, nor did the opening find it.
pub fn held_is_unlisted<E, J: Store>(
    changes: &mut Changes<E, J>,
    files: &mut Files<E, J>,
    file: u64,
)
    requires { holds file (listed files.old.list files.old.pass.saw) ≡ true }
    ensures law { Has (all_added (listed (changes_list changes.old.shard) changes.old.pass.saw)) file → ⊥ }
    ensures same { (changes.new.shard ≡ changes.old.shard) × (files.new.list ≡ files.old.list)
        × (listed (changes_list changes.old.shard) changes.new.pass.saw ≡ listed (changes_list changes.old.shard) changes.old.pass.saw)
        × (listed files.old.list files.new.pass.saw ≡ listed files.old.list files.old.pass.saw) }
{
    let _file = file;
    look(&mut changes.pass, &mut files.pass, 0);
}

/// No file is of two shards, nor ever was.
pub fn files_apart<E, J: Store>(one: &mut Changes<E, J>, two: &mut Changes<E, J>)
    requires { one.old.shard ≢ two.old.shard }
    ensures law { (k : ℕ) → Has (all_added (listed (changes_list one.old.shard) one.old.pass.saw)) k
        → Has (all_added (listed (changes_list two.old.shard) two.old.pass.saw)) k → ⊥ }
    ensures same { (one.new.shard ≡ one.old.shard) × (two.new.shard ≡ two.old.shard)
        × (listed (changes_list one.old.shard) one.new.pass.saw ≡ listed (changes_list one.old.shard) one.old.pass.saw)
        × (listed (changes_list two.old.shard) two.new.pass.saw ≡ listed (changes_list two.old.shard) two.old.pass.saw) }
{
    look(&mut one.pass, &mut two.pass, 0);
}

/// Each file of a shard was listed once, and its number was found or drawn.
pub fn files_stand<E, J: Store>(numbers: &mut Numbers<E, J>, changes: &mut Changes<E, J>)
    ensures once { Distinct (all_added (listed (changes_list changes.old.shard) changes.old.pass.saw)) }
    ensures used { Each (λ k. Has (used (listed numbers_list numbers.old.pass.saw)) k)
        (all_added (listed (changes_list changes.old.shard) changes.old.pass.saw)) }
    ensures same { (changes.new.shard ≡ changes.old.shard) × (numbers.new.last ≡ numbers.old.last)
        × (listed numbers_list numbers.new.pass.saw ≡ listed numbers_list numbers.old.pass.saw)
        × (listed (changes_list changes.old.shard) changes.new.pass.saw ≡ listed (changes_list changes.old.shard) changes.old.pass.saw) }
{
    look(&mut numbers.pass, &mut changes.pass, 0);
}

/// The frontier of each of a shard's tables is no greater than the number of the shard's last mutation.
pub fn frontiers_stand<E, J: Store>(changes: &mut Changes<E, J>, front: &mut Front<E, J>)
    requires { front.old.shard ≡ changes.old.shard }
    ensures law { (table : ℕ) → frontier_of table (listed (changes_list changes.old.shard) changes.old.pass.saw) ≤ front.old.number }
    ensures same { (changes.new.shard ≡ changes.old.shard) × (front.new.shard ≡ front.old.shard) × (front.new.number ≡ front.old.number)
        × (listed (changes_list changes.old.shard) changes.new.pass.saw ≡ listed (changes_list changes.old.shard) changes.old.pass.saw)
        × (listed (front_list front.old.shard) front.new.pass.saw ≡ listed (front_list front.old.shard) front.old.pass.saw) }
{
    look(&mut changes.pass, &mut front.pass, 0);
}
