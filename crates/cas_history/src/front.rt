//! Mutations: the room's list of all, each shard's list, each session's own.
ghost use Rattle.std.specs.Prelude.{◌≡◌, ℕ, ◌+◌, ◌%◌, ◌<◌, ◌≤◌, [], ◌∷◌, ◌++◌};
ghost use mathlib.Core.List.{IsPrefix};
ghost use Rattle.cas_history.specs.Hands.{Owns};
ghost use Rattle.cas_history.specs.Items.{items, listed, log_list, front_list, first_diary};
ghost use Rattle.cas_history.specs.Last.{last_number, last_call};
ghost use Rattle.cas_history.specs.declared.item.Item.TheVariants.{Found, Wrote};

use crate::fresh::Fresh;
use crate::item::Item;
use crate::{Pass, Store, Tells, accept_alone, accept_three};
use std::marker::PhantomData;

/// The room's seat: it owns the list of all mutations.
#[derive(Drop)]
pub struct Log<E, J: Store> {
    pub pass: Pass<Item<E>, J>,
    pub ghost owns: { Owns pass log_list },
}

/// A shard's seat: it owns the list of the shard, and has the number of the last mutation there.
#[derive(Drop)]
pub struct Front<E, J: Store> {
    pub pass: Pass<Item<E>, J>,
    pub shard: u64,
    pub(crate) number: u64,
    pub ghost owns: { (shard < 16) × Owns pass (front_list shard) },
    pub ghost last: { number ≡ last_number (listed (front_list shard) pass.saw) },
}

/// A session's seat, or a worker's: it owns its diary, and has the number of its last write.
#[derive(Drop)]
pub struct Session<E, J: Store> {
    pub pass: Pass<Item<E>, J>,
    pub list: u64,
    calls: u64,
    pub ghost owns: { (first_diary ≤ list) × Owns pass list },
    pub ghost alone: { pass.lists ≡ list ∷ [] },
    pub ghost even: { list % 2 ≡ 0 },
    pub ghost last: { calls ≡ last_call (listed list pass.saw) },
}

// What the opening found.
#[derive(Drop)]
pub(crate) struct Finding<E> {
    pub(crate) list: u64,
    pub(crate) number: u64,
    pub(crate) of: PhantomData<E>,
}

impl<E> Tells<Item<E>> for Finding<E> {
    ghost use Rattle.cas_history.specs.declared.item.Item.TheVariants.{Found};

    ghost entry = { λ f. Found f.list f.number };
}

#[derive(Drop)]
struct Writing<'a, E, T> {
    shard: u64,
    session: u64,
    call: u64,
    number: u64,
    what: &'a T,
    of: PhantomData<E>,
}

impl<'a, E, T: Tells<E>> Tells<Item<E>> for Writing<'a, E, T> {
    ghost use Rattle.cas_history.specs.declared.item.Item.TheVariants.{Wrote};

    ghost entry = { λ w. Wrote w.shard w.session w.call w.number (T.entry w.what.now) };
}

impl<E, J: Store> Log<E, J> {
    pub fn new(fresh: Fresh<E, J>) -> Log<E, J>
        requires { fresh.list ≡ log_list }
        ensures { listed log_list result.pass.saw ≡ [] }
    {
        Log { pass: fresh.pass }
    }
}

impl<E, J: Store> Front<E, J> {
    /// The shard's seat, with the last number that the opening found.
    pub fn new(fresh: Fresh<E, J>, shard: u64, number: u64) -> Front<E, J>
        requires { (shard < 16) × (fresh.list ≡ front_list shard) }
        ensures { (result.shard ≡ shard) × (result.number ≡ number) × (listed (front_list shard) result.pass.saw ≡ Found fresh.list number ∷ []) }
    {
        let list = fresh.list;
        let mut pass = fresh.pass;
        let found = Finding {
            list,
            number,
            of: PhantomData,
        };
        accept_alone(&mut pass, 0, &found);
        Front {
            pass,
            shard,
            number,
        }
    }

    /// The number of the shard's last mutation.
    pub fn number(&self) -> u64
        ensures { (result ≡ self.now.number) × (result ≡ last_number (listed (front_list self.now.shard) self.now.pass.saw)) }
    {
        self.number
    }
}

impl<E, J: Store> Session<E, J> {
    pub fn new(fresh: Fresh<E, J>) -> Session<E, J>
        requires { (first_diary ≤ fresh.list) × (fresh.list % 2 ≡ 0) }
        ensures { (result.list ≡ fresh.list) × (result.calls ≡ 0) × (listed fresh.list result.pass.saw ≡ []) }
    {
        Session {
            pass: fresh.pass,
            list: fresh.list,
            calls: 0,
        }
    }

    /// The number of the session's last write, which is how many it made.
    pub fn calls(&self) -> u64
        ensures { (result ≡ self.now.calls) × (result ≡ last_call (listed self.now.list self.now.pass.saw)) }
    {
        self.calls
    }
}

/// A session's mutation comes into the history: into the room's list, the shard's and the session's own, in
/// one step. The answer is its number.
pub fn write<E, J: Store, T: Tells<E>>(
    log: &mut Log<E, J>,
    front: &mut Front<E, J>,
    session: &mut Session<E, J>,
    what: &T,
) -> u64
    requires numbers { (front.old.number + 1 < 18446744073709551616) × (session.old.calls + 1 < 18446744073709551616) }
    ensures number { (result ≡ front.old.number + 1) × (front.new.number ≡ result) × (front.new.shard ≡ front.old.shard) }
    ensures call { (session.new.calls ≡ session.old.calls + 1) × (session.new.list ≡ session.old.list) }
    ensures log { listed log_list log.new.pass.saw ≡ listed log_list log.old.pass.saw
        ++ Wrote front.old.shard session.old.list session.new.calls result (T.entry what.now) ∷ [] }
    ensures front { listed (front_list front.old.shard) front.new.pass.saw ≡ listed (front_list front.old.shard) front.old.pass.saw
        ++ Wrote front.old.shard session.old.list session.new.calls result (T.entry what.now) ∷ [] }
    ensures session { listed session.old.list session.new.pass.saw ≡ listed session.old.list session.old.pass.saw
        ++ Wrote front.old.shard session.old.list session.new.calls result (T.entry what.now) ∷ [] }
    ensures seen { (front.new.pass.saw ≡ log.new.pass.saw) × (session.new.pass.saw ≡ log.new.pass.saw) × IsPrefix log.old.pass.saw log.new.pass.saw
        × IsPrefix front.old.pass.saw log.new.pass.saw × IsPrefix session.old.pass.saw log.new.pass.saw }
{
    let writing = Writing {
        shard: front.shard,
        session: session.list,
        call: session.calls + 1,
        number: front.number + 1,
        what,
        of: PhantomData,
    };
    accept_three(
        &mut log.pass,
        &mut front.pass,
        &mut session.pass,
        2 + front.shard as usize,
        &writing,
    );
    front.number += 1;
    session.calls += 1;
    front.number
}
