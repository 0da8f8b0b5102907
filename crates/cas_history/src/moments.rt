//! Moments of shards, and the readings that raised them.
ghost use Rattle.std.specs.Prelude.{◌≡◌, ◌/◌, ◌<◌, ◌≤◌, max, [], ◌∷◌, ◌++◌};
ghost use mathlib.Core.List.{IsPrefix};
ghost use Rattle.cas_history.specs.Hands.{Owns};
ghost use Rattle.cas_history.specs.Log.{Has};
ghost use Rattle.cas_history.specs.Items.{listed, moments_list};
ghost use Rattle.cas_history.specs.Last.{last_moment};
ghost use Rattle.cas_history.specs.declared.item.Item.TheVariants.{Found, Read};

use crate::fresh::Fresh;
use crate::front::{Finding, Session};
use crate::item::Item;
use crate::{Pass, Store, Tells, accept_alone, accept_two, look};
use std::marker::PhantomData;

/// A shard's seat for its moment, in seconds since 1970.
#[derive(Drop)]
pub struct Moments<E, J: Store> {
    pass: Pass<Item<E>, J>,
    shard: u64,
    seconds: u64,
    ghost owns: { (shard < 16) × Owns pass (moments_list shard) },
    ghost is_last: { seconds ≡ last_moment (listed (moments_list shard) pass.saw) },
}

#[derive(Drop)]
struct Reading<E> {
    pass: u64,
    micros: u64,
    of: PhantomData<E>,
}

impl<E> Tells<Item<E>> for Reading<E> {
    ghost use Rattle.cas_history.specs.declared.item.Item.TheVariants.{Read};

    ghost entry = { λ r. Read r.pass r.micros };
}

#[derive(Drop)]
struct Rising<E> {
    shard: u64,
    pass: u64,
    micros: u64,
    of: PhantomData<E>,
}

impl<E> Tells<Item<E>> for Rising<E> {
    ghost use Rattle.cas_history.specs.declared.item.Item.TheVariants.{Rose};

    ghost entry = { λ r. Rose r.shard r.pass r.micros };
}

impl<E, J: Store> Session<E, J> {
    /// The session keeps a reading of the clock, in microseconds since 1970.
    pub fn read(&mut self, micros: u64)
        ensures list { listed self.old.list self.new.pass.saw ≡ listed self.old.list self.old.pass.saw ++ Read self.old.list micros ∷ [] }
        ensures same { (self.new.list ≡ self.old.list) × (self.new.calls ≡ self.old.calls) }
        ensures kept { Has self.new.pass.saw (Read self.old.list micros) }
        ensures seen { IsPrefix self.old.pass.saw self.new.pass.saw }
    {
        let reading = Reading {
            pass: self.list,
            micros,
            of: PhantomData,
        };
        accept_alone(&mut self.pass, 0, &reading);
    }
}

impl<E, J: Store> Moments<E, J> {
    /// The shard's seat, with the moment that the opening found.
    pub fn new(fresh: Fresh<E, J>, shard: u64, seconds: u64) -> Moments<E, J>
        requires { (shard < 16) × (fresh.list ≡ moments_list shard) }
        ensures { (result.shard ≡ shard) × (result.seconds ≡ seconds) × (listed (moments_list shard) result.pass.saw ≡ Found fresh.list seconds ∷ []) }
    {
        let list = fresh.list;
        let mut pass = fresh.pass;
        let found = Finding {
            list,
            number: seconds,
            of: PhantomData,
        };
        accept_alone(&mut pass, 0, &found);
        Moments {
            pass,
            shard,
            seconds,
        }
    }

    /// The moment for a reading, which the session has kept: the greater of the reading's whole seconds and
    /// the moment so far. The session was shown no greater one.
    pub fn raise(&mut self, session: &mut Session<E, J>, micros: u64) -> u64
        requires kept { Has session.old.pass.saw (Read session.old.list micros) }
        ensures moment { (result ≡ max self.old.seconds (micros / 1000000)) × (self.new.seconds ≡ result) × (self.new.shard ≡ self.old.shard) }
        ensures shown { last_moment (listed (moments_list self.old.shard) session.old.pass.saw) ≤ result }
        ensures session { (session.new.list ≡ session.old.list) × (session.new.calls ≡ session.old.calls)
            × (listed session.old.list session.new.pass.saw ≡ listed session.old.list session.old.pass.saw) }
        ensures seen { (session.new.pass.saw ≡ self.new.pass.saw) × IsPrefix self.old.pass.saw self.new.pass.saw
            × IsPrefix session.old.pass.saw self.new.pass.saw }
    {
        let seconds = micros / 1_000_000;
        if seconds <= self.seconds {
            look(&mut self.pass, &mut session.pass, 0);
            return self.seconds;
        }
        let rising = Rising {
            shard: self.shard,
            pass: session.list,
            micros,
            of: PhantomData,
        };
        accept_two(&mut self.pass, &mut session.pass, 0, &rising);
        self.seconds = seconds;
        seconds
    }
}
