//! Numbers for new table files.
ghost use Rattle.std.specs.Prelude.{◌≡◌, ◌+◌, ◌%◌, ◌<◌, ◌≤◌, true, [], ◌∷◌, ◌++◌};
ghost use mathlib.Core.List.{IsPrefix};
ghost use Rattle.cas_history.specs.Log.{Has};
ghost use Rattle.cas_history.specs.Hands.{Owns};
ghost use Rattle.cas_history.specs.Items.{listed, numbers_list, first_diary, Distinct};
ghost use Rattle.cas_history.specs.Last.{last_file, holds, used};
ghost use Rattle.cas_history.specs.declared.item.Item.TheVariants.{Found, Drew};

use crate::fresh::Fresh;
use crate::front::{Finding, Session};
use crate::item::Item;
use crate::{Pass, Store, Tells, accept_alone, accept_two, look};
use std::marker::PhantomData;

/// The room's seat for file numbers. It has the last one.
#[derive(Drop)]
pub struct Numbers<E, J: Store> {
    pub pass: Pass<Item<E>, J>,
    last: u64,
    pub ghost owns: { Owns pass numbers_list },
    pub ghost is_last: { last ≡ last_file (listed numbers_list pass.saw) },
}

/// Where a session or worker keeps the file numbers that it drew. It is a seat of its own, so that whoever
/// writes files can have it while others have the session.
#[derive(Drop)]
pub struct Files<E, J: Store> {
    pub pass: Pass<Item<E>, J>,
    pub list: u64,
    pub ghost owns: { (first_diary ≤ list) × Owns pass list },
    pub ghost odd: { list % 2 ≡ 1 },
}

#[derive(Drop)]
struct Drawing<E> {
    pass: u64,
    file: u64,
    of: PhantomData<E>,
}

impl<E> Tells<Item<E>> for Drawing<E> {
    ghost use Rattle.cas_history.specs.declared.item.Item.TheVariants.{Drew};

    ghost entry = { λ d. Drew d.pass d.file };
}

impl<E, J: Store> Files<E, J> {
    pub fn new(fresh: Fresh<E, J>) -> Files<E, J>
        requires { (first_diary ≤ fresh.list) × (fresh.list % 2 ≡ 1) }
        ensures { (result.list ≡ fresh.list) × (listed fresh.list result.pass.saw ≡ []) }
    {
        Files {
            pass: fresh.pass,
            list: fresh.list,
        }
    }

    /// The session gets to know what its files' seat has seen, and the other way round.
    pub fn meet(&mut self, session: &mut Session<E, J>)
        ensures files { (self.new.list ≡ self.old.list) × (listed self.old.list self.new.pass.saw ≡ listed self.old.list self.old.pass.saw) }
        ensures session { (session.new.list ≡ session.old.list) × (session.new.calls ≡ session.old.calls)
            × (listed session.old.list session.new.pass.saw ≡ listed session.old.list session.old.pass.saw) }
        ensures seen { (session.new.pass.saw ≡ self.new.pass.saw) × IsPrefix self.old.pass.saw self.new.pass.saw
            × IsPrefix session.old.pass.saw self.new.pass.saw }
    {
        look(&mut self.pass, &mut session.pass, 0);
    }
}

impl<E, J: Store> Numbers<E, J> {
    /// The seat, with the greatest file number that the opening found.
    pub fn new(fresh: Fresh<E, J>, last: u64) -> Numbers<E, J>
        requires { fresh.list ≡ numbers_list }
        ensures { (result.last ≡ last) × (listed numbers_list result.pass.saw ≡ Found numbers_list last ∷ []) }
    {
        let list = fresh.list;
        let mut pass = fresh.pass;
        let found = Finding {
            list,
            number: last,
            of: PhantomData,
        };
        accept_alone(&mut pass, 0, &found);
        Numbers { pass, last }
    }

    /// The last number that was found or drawn.
    pub fn last(&self) -> u64
        ensures { (result ≡ self.now.last) × (result ≡ last_file (listed numbers_list self.now.pass.saw)) }
    {
        self.last
    }

    /// The next number, which no file has had so far. The session or worker holds it from now on.
    pub fn draw(&mut self, files: &mut Files<E, J>) -> u64
        requires room { self.old.last + 1 < 18446744073709551616 }
        ensures next { (result ≡ self.old.last + 1) × (self.new.last ≡ result) }
        ensures unused { Has (used (listed numbers_list self.old.pass.saw)) result → ⊥ }
        ensures list { listed numbers_list self.new.pass.saw ≡ listed numbers_list self.old.pass.saw ++ Drew files.old.list result ∷ [] }
        ensures files { (files.new.list ≡ files.old.list)
            × (listed files.old.list files.new.pass.saw ≡ listed files.old.list files.old.pass.saw ++ Drew files.old.list result ∷ []) }
        ensures held { holds result (listed files.old.list files.new.pass.saw) ≡ true }
        ensures seen { (files.new.pass.saw ≡ self.new.pass.saw) × IsPrefix self.old.pass.saw self.new.pass.saw
            × IsPrefix files.old.pass.saw self.new.pass.saw }
    {
        self.pass.stands();
        let file = self.last + 1;
        let drawing = Drawing {
            pass: files.list,
            file,
            of: PhantomData,
        };
        accept_two(&mut self.pass, &mut files.pass, 0, &drawing);
        self.last = file;
        file
    }

    /// No number was handed out twice, nor one that the opening found.
    pub fn stand(&self)
        ensures law { Distinct (used (listed numbers_list self.now.pass.saw)) }
    {
        self.pass.stands();
    }
}

/// A number is held by one alone, however many passes there are.
pub fn held_once<E, J: Store>(one: &mut Files<E, J>, two: &mut Files<E, J>, file: u64)
    ensures law { holds file (listed one.old.list one.old.pass.saw) ≡ true → holds file (listed two.old.list two.old.pass.saw) ≡ true → ⊥ }
    ensures same { (one.new.list ≡ one.old.list) × (listed one.old.list one.new.pass.saw ≡ listed one.old.list one.old.pass.saw)
        × (two.new.list ≡ two.old.list) × (listed two.old.list two.new.pass.saw ≡ listed two.old.list two.old.pass.saw) }
{
    let _file = file;
    look(&mut one.pass, &mut two.pass, 0);
}
