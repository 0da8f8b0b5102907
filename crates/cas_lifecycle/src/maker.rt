//! Who makes passes.
ghost use Rattle.std.specs.Prelude.{◌≡◌, ℕ, ◌+◌, ◌%◌, ◌<◌, ◌≤◌, max, [], ◌∷◌, None, IfOk, OnOk, OnErr};
ghost use mathlib.Core.List.{IsPrefix};
ghost use Rattle.cas_history.specs.Hands.{Owns};
ghost use Rattle.cas_history.specs.Items.{listed, first_diary, book_changes};
ghost use Rattle.cas_history.specs.Last.{Idle};
ghost use Rattle.cas_lifecycle.specs.Inner.Homes.{Homely};

use crate::book::Book;
use crate::works::Works;
use cas_history::{Files, Fresh, Item, Opened, Pass, Session, Store, deal, join};
use cas_refs::RefBook;
use std::alloc::AllocError;

/// Whoever has it has the right to make passes: it owns each list from `next` on, and those are empty. It
/// has the diaries of all sessions that have ended, and `out` are out.
#[derive(Drop)]
pub struct Maker<E, J: Store> {
    pub(crate) pass: Pass<Item<E>, J>,
    next: u64,
    out: u64,
    ghost home: { Homely next out pass },
}

// The next number of a diary.
fn next_diary(next: u64) -> u64
    requires { next < 4294967000 }
    ensures { (next ≤ result) × (first_diary ≤ result) × (result ≤ max next 96 + 1) × (result % 2 ≡ 0) }
{
    let least = next.max(96);
    least + least % 2
}

// The next number of a list that is no diary.
fn next_other(next: u64) -> u64
    requires { next < 4294967000 }
    ensures { (next ≤ result) × (first_diary ≤ result) × (result ≤ max next 96 + 1) × (result % 2 ≡ 1) }
{
    let least = next.max(96);
    least + 1 - least % 2
}

impl<E, J: Store> Maker<E, J> {
    /// The maker of a new history.
    pub fn first(opened: Opened<Item<E>>) -> Maker<E, J>
        requires { opened.seat.table_id ≡ J.table }
        ensures { (result.next ≡ 0) × (result.out ≡ 0) }
    {
        Maker {
            pass: opened.named::<J>(),
            next: 0,
            out: 0,
        }
    }

    /// How many numbers of lists were given away.
    pub fn next(&self) -> u64
        ensures { result ≡ self.now.next }
    {
        self.next
    }

    /// How many sessions are out.
    pub fn out(&self) -> u64
        ensures { result ≡ self.now.out }
    {
        self.out
    }

    // The numbers below this one are the maker's own from now on.
    fn reach(&mut self, list: u64) -> Result<(), AllocError>
        requires next { (self.old.next ≤ list) × (list < 4294967296) }
        ensures ok { OnOk result (self.new.next ≡ list) }
        ensures err { OnErr result (self.new.next ≡ self.old.next) }
        ensures out { self.new.out ≡ self.old.out }
    {
        if self.next == list {
            return Ok(());
        }
        let spare = deal(&mut self.pass, (list - self.next) as usize)?;
        join(&mut self.pass, spare);
        self.next = list;
        Ok(())
    }

    // A pass whose list, which is no diary, has this number.
    fn list(&mut self, list: u64) -> Result<Fresh<E, J>, AllocError>
        requires next { (self.old.next ≤ list) × (list < 4294967296) × (first_diary ≤ list → list % 2 ≡ 1) }
        ensures ok { IfOk result (λ f. (f.list ≡ list) × (self.new.next ≡ list + 1)) }
        ensures next { (self.old.next ≤ self.new.next) × (self.new.next ≤ list + 1) }
        ensures out { self.new.out ≡ self.old.out }
    {
        self.reach(list)?;
        let pass = deal(&mut self.pass, 1)?;
        self.next = list + 1;
        Ok(Fresh { pass, list })
    }

    /// A pass whose list has this number, for the room, a shard or the book.
    pub fn fresh(&mut self, list: u64) -> Result<Fresh<E, J>, AllocError>
        requires next { (self.old.next ≤ list) × (list < 96) }
        ensures ok { IfOk result (λ f. (f.list ≡ list) × (self.new.next ≡ list + 1)) }
        ensures next { (self.old.next ≤ self.new.next) × (self.new.next ≤ list + 1) }
        ensures out { self.new.out ≡ self.old.out }
    {
        self.list(list)
    }

    /// The seat of a new book, with the book's list of each shard.
    pub fn book(&mut self, refs: RefBook) -> Result<Book<E, J>, AllocError>
        requires next { self.old.next ≤ 80 }
        ensures ok { IfOk result (λ b. (b.refs ≡ refs) × (self.new.next ≡ 96) × ((s : ℕ) → s < 16 → listed (book_changes s) b.pass.saw ≡ [])) }
        ensures next { (self.old.next ≤ self.new.next) × (self.new.next ≤ 96) }
        ensures out { self.new.out ≡ self.old.out }
    {
        self.reach(80)?;
        let pass = deal(&mut self.pass, 16)?;
        self.next = 96;
        Ok(Book { refs, pass })
    }

    /// A session, or a worker, with an empty diary.
    pub fn session(&mut self) -> Result<Session<E, J>, AllocError>
        requires next { self.old.next < 4294967000 }
        requires out { self.old.out + 1 < 18446744073709551616 }
        ensures ok { IfOk result (λ s. (s.calls ≡ 0) × (listed s.list s.pass.saw ≡ []) × (self.new.out ≡ self.old.out + 1)) }
        ensures err { OnErr result (self.new.out ≡ self.old.out) }
        ensures next { (self.old.next ≤ self.new.next) × (self.new.next ≤ max self.old.next 96 + 2) }
    {
        let list = next_diary(self.next);
        self.reach(list)?;
        let pass = deal(&mut self.pass, 1)?;
        self.next = list + 1;
        self.out += 1;
        Ok(Session::new(Fresh { pass, list }))
    }

    /// Where a session or worker keeps the file numbers that it draws.
    pub fn files(&mut self) -> Result<Files<E, J>, AllocError>
        requires next { self.old.next < 4294967000 }
        ensures ok { IfOk result (λ f. listed f.list f.pass.saw ≡ []) }
        ensures next { (self.old.next ≤ self.new.next) × (self.new.next ≤ max self.old.next 96 + 2) }
        ensures out { self.new.out ≡ self.old.out }
    {
        let fresh = self.list(next_other(self.next))?;
        Ok(Files::new(fresh))
    }

    /// A shard's seat for the flushes of a table, or for its compactions.
    pub fn works(&mut self) -> Result<Works<E, J>, AllocError>
        requires next { self.old.next < 4294967000 }
        ensures ok { IfOk result (λ w. w.running ≡ None) }
        ensures next { (self.old.next ≤ self.new.next) × (self.new.next ≤ max self.old.next 96 + 2) }
        ensures out { self.new.out ≡ self.old.out }
    {
        let fresh = self.list(next_other(self.next))?;
        Ok(Works::new(fresh))
    }

    /// A session has ended, without a turn: its diary is the maker's from now on, and stays as it was. What
    /// the session was shown the maker holds.
    pub fn keep(&mut self, session: Session<E, J>)
        requires idle { Idle (listed session.list session.pass.saw) }
        ensures out { self.new.out + 1 ≡ self.old.out }
        ensures next { self.new.next ≡ self.old.next }
        ensures owns { Owns self.new.pass session.list }
        ensures list { listed session.list self.new.pass.saw ≡ listed session.list session.pass.saw }
        ensures seen { IsPrefix self.old.pass.saw self.new.pass.saw × IsPrefix session.pass.saw self.new.pass.saw }
        ensures holds { (list : ℕ) → IsPrefix (listed list session.pass.saw) (listed list self.new.pass.saw) }
    {
        join(&mut self.pass, session.pass);
        self.out -= 1;
    }
}
