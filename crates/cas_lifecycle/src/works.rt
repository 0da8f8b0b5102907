//! Flushes and compactions: what runs, and whose turn it is to end it.
ghost use Rattle.std.specs.Prelude.{◌≡◌, ◌≢◌, ◌≤◌, ◌%◌, Bool, true, false, None, Some, [], ◌∷◌, ◌++◌, OnErr, IfSome, IfNone};
ghost use mathlib.Core.List.{IsPrefix};
ghost use Rattle.cas_history.specs.Hands.{Owns};
ghost use Rattle.cas_history.specs.Items.{listed, first_diary, front_list};
ghost use Rattle.cas_history.specs.Last.{runs, turn, decided};
ghost use Rattle.cas_history.specs.declared.item.Item.TheVariants.{Began, Ended, Purged};

use cas_history::{
    Fresh, Front, Item, Pass, Session, Store, Tells, accept_three, accept_two, look,
};
use std::marker::PhantomData;

/// A shard's seat for the flushes of one table, or for its compactions. It has the diary of who flushes or
/// compacts, where that runs.
#[derive(Drop)]
pub struct Works<E, J: Store> {
    pub(crate) pass: Pass<Item<E>, J>,
    pub(crate) list: u64,
    running: Option<u64>,
    ghost owns: { (first_diary ≤ list) × Owns pass list },
    ghost odd: { list % 2 ≡ 1 },
    ghost is_last: { running ≡ runs list (listed list pass.saw) },
}

#[derive(Drop)]
struct Beginning<'a, E, T> {
    works: u64,
    pass: u64,
    what: &'a T,
    of: PhantomData<E>,
}

impl<'a, E, T: Tells<E>> Tells<Item<E>> for Beginning<'a, E, T> {
    ghost use Rattle.cas_history.specs.declared.item.Item.TheVariants.{Began};

    ghost entry = { λ b. Began b.works b.pass (T.entry b.what.now) };
}

#[derive(Drop)]
struct Purging<'a, E, T> {
    shard: u64,
    works: u64,
    pass: u64,
    what: &'a T,
    of: PhantomData<E>,
}

impl<'a, E, T: Tells<E>> Tells<Item<E>> for Purging<'a, E, T> {
    ghost use Rattle.cas_history.specs.declared.item.Item.TheVariants.{Purged};

    ghost entry = { λ p. Purged p.shard p.works p.pass (T.entry p.what.now) };
}

#[derive(Drop)]
struct Ending<E> {
    works: u64,
    pass: u64,
    of: PhantomData<E>,
}

impl<E> Tells<Item<E>> for Ending<E> {
    ghost use Rattle.cas_history.specs.declared.item.Item.TheVariants.{Ended};

    ghost entry = { λ e. Ended e.works e.pass };
}

impl<E, J: Store> Works<E, J> {
    pub(crate) fn new(fresh: Fresh<E, J>) -> Works<E, J>
        requires { (first_diary ≤ fresh.list) × (fresh.list % 2 ≡ 1) }
        ensures { (result.list ≡ fresh.list) × (result.running ≡ None) }
    {
        Works {
            pass: fresh.pass,
            list: fresh.list,
            running: None,
        }
    }

    /// Begins one. False exactly where one runs, and then nothing began.
    pub fn begin<T: Tells<E>>(&mut self, session: &mut Session<E, J>, what: &T) -> bool
        ensures yes_ { result ≡ true → (self.old.running ≡ None) × (self.new.running ≡ Some session.old.list) }
        ensures list { result ≡ true → listed self.old.list self.new.pass.saw ≡ listed self.old.list self.old.pass.saw
            ++ Began self.old.list session.old.list (T.entry what.now) ∷ [] }
        ensures diary { result ≡ true → listed session.old.list session.new.pass.saw ≡ listed session.old.list session.old.pass.saw
            ++ Began self.old.list session.old.list (T.entry what.now) ∷ [] }
        ensures turn { result ≡ true → turn self.old.list (listed session.old.list session.new.pass.saw) ≡ true }
        ensures busy { result ≡ false → (self.old.running ≢ None) × (self.new.running ≡ self.old.running)
            × (listed session.old.list session.new.pass.saw ≡ listed session.old.list session.old.pass.saw) }
        ensures same { (self.new.list ≡ self.old.list) × (session.new.list ≡ session.old.list) × (session.new.calls ≡ session.old.calls) }
        ensures seen { (session.new.pass.saw ≡ self.new.pass.saw) × IsPrefix self.old.pass.saw self.new.pass.saw
            × IsPrefix session.old.pass.saw self.new.pass.saw }
    {
        if self.running.is_some() {
            look(&mut self.pass, &mut session.pass, 0);
            return false;
        }
        let beginning = Beginning {
            works: self.list,
            pass: session.list,
            what,
            of: PhantomData,
        };
        accept_two(&mut self.pass, &mut session.pass, 0, &beginning);
        self.running = Some(session.list);
        true
    }

    /// Who began it decides a purge, which comes into the shard's list: the turn, which its diary has, is all
    /// that it asks.
    pub fn decide<T: Tells<E>>(
        &mut self,
        front: &mut Front<E, J>,
        session: &mut Session<E, J>,
        what: &T,
    )
        requires turn { turn self.old.list (listed session.old.list session.old.pass.saw) ≡ true }
        ensures runs { (self.old.running ≡ Some session.old.list) × (self.new.running ≡ self.old.running) × (self.new.list ≡ self.old.list) }
        ensures list { listed self.old.list self.new.pass.saw ≡ listed self.old.list self.old.pass.saw
            ++ Purged front.old.shard self.old.list session.old.list (T.entry what.now) ∷ [] }
        ensures decided { decided self.old.list (listed self.old.list self.new.pass.saw)
            ≡ decided self.old.list (listed self.old.list self.old.pass.saw) ++ T.entry what.now ∷ [] }
        ensures front { (front.new.number ≡ front.old.number) × (front.new.shard ≡ front.old.shard)
            × (listed (front_list front.old.shard) front.new.pass.saw ≡ listed (front_list front.old.shard) front.old.pass.saw
            ++ Purged front.old.shard self.old.list session.old.list (T.entry what.now) ∷ []) }
        ensures diary { (session.new.list ≡ session.old.list) × (session.new.calls ≡ session.old.calls)
            × (listed session.old.list session.new.pass.saw ≡ listed session.old.list session.old.pass.saw
            ++ Purged front.old.shard self.old.list session.old.list (T.entry what.now) ∷ []) }
        ensures turn { turn self.old.list (listed session.old.list session.new.pass.saw) ≡ true }
        ensures seen { (session.new.pass.saw ≡ self.new.pass.saw) × (front.new.pass.saw ≡ self.new.pass.saw)
            × IsPrefix self.old.pass.saw self.new.pass.saw × IsPrefix front.old.pass.saw self.new.pass.saw
            × IsPrefix session.old.pass.saw self.new.pass.saw }
    {
        look(&mut self.pass, &mut session.pass, 0);
        let purging = Purging {
            shard: front.shard,
            works: self.list,
            pass: session.list,
            what,
            of: PhantomData,
        };
        accept_three(
            &mut front.pass,
            &mut self.pass,
            &mut session.pass,
            0,
            &purging,
        );
    }

    /// Who began it ends it: the turn, which its diary has, is all that it asks.
    pub fn end(&mut self, session: &mut Session<E, J>)
        requires turn { turn self.old.list (listed session.old.list session.old.pass.saw) ≡ true }
        ensures was { self.old.running ≡ Some session.old.list }
        ensures none { (self.new.running ≡ None) × (self.new.list ≡ self.old.list) }
        ensures list { listed self.old.list self.new.pass.saw ≡ listed self.old.list self.old.pass.saw ++ Ended self.old.list session.old.list ∷ [] }
        ensures diary { listed session.old.list session.new.pass.saw ≡ listed session.old.list session.old.pass.saw
            ++ Ended self.old.list session.old.list ∷ [] }
        ensures turn { (turn self.old.list (listed session.old.list session.new.pass.saw) ≡ false) × (session.new.list ≡ session.old.list)
            × (session.new.calls ≡ session.old.calls) }
        ensures seen { (session.new.pass.saw ≡ self.new.pass.saw) × IsPrefix self.old.pass.saw self.new.pass.saw
            × IsPrefix session.old.pass.saw self.new.pass.saw }
    {
        look(&mut self.pass, &mut session.pass, 0);
        let ending = Ending {
            works: self.list,
            pass: session.list,
            of: PhantomData,
        };
        accept_two(&mut self.pass, &mut session.pass, 0, &ending);
        self.running = None;
    }
}
