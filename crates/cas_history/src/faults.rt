//! What the room says of its disk.
ghost use Rattle.std.specs.Prelude.{◌≡◌, ◌≢◌, ◌≤◌, [], ◌∷◌, ◌++◌};
ghost use mathlib.Core.List.{IsPrefix};
ghost use Rattle.cas_history.specs.Hands.{Owns};
ghost use Rattle.cas_history.specs.Items.{listed, faults_list};
ghost use Rattle.cas_history.specs.Last.{last_fault, last_committed, last_first};
ghost use Rattle.cas_history.specs.declared.item.Item.TheVariants.{Faulted};

use crate::fresh::Fresh;
use crate::front::Session;
use crate::item::Item;
use crate::numbers::Files;
use crate::{Pass, Store, Tells, accept_alone, look};
use std::marker::PhantomData;

/// The room's seat for its faults. It has what it said last.
#[derive(Drop)]
pub struct Faults<E, J: Store> {
    pass: Pass<Item<E>, J>,
    number: u64,
    committed: u64,
    first: u64,
    ghost owns: { Owns pass faults_list },
    ghost last: { (number ≡ last_fault (listed faults_list pass.saw)) × (committed ≡ last_committed (listed faults_list pass.saw))
        × (first ≡ last_first (listed faults_list pass.saw)) },
}

#[derive(Drop)]
struct Faulting<E> {
    number: u64,
    committed: u64,
    first: u64,
    of: PhantomData<E>,
}

impl<E> Tells<Item<E>> for Faulting<E> {
    ghost use Rattle.cas_history.specs.declared.item.Item.TheVariants.{Faulted};

    ghost entry = { λ f. Faulted f.number f.committed f.first };
}

impl<E, J: Store> Faults<E, J> {
    pub fn new(fresh: Fresh<E, J>) -> Faults<E, J>
        requires { fresh.list ≡ faults_list }
        ensures { (result.number ≡ 0) × (result.committed ≡ 0) × (result.first ≡ 0) }
    {
        Faults {
            pass: fresh.pass,
            number: 0,
            committed: 0,
            first: 0,
        }
    }

    /// The room says how many faults there were, how many mutations are committed, and which fault stopped
    /// it, 0 where none did.
    pub fn say(&mut self, number: u64, committed: u64, first: u64)
        requires rises { (self.old.number ≤ number) × (self.old.committed ≤ committed) × (self.old.first ≢ 0 → first ≡ self.old.first) }
        ensures said { (self.new.number ≡ number) × (self.new.committed ≡ committed) × (self.new.first ≡ first) }
        ensures list { listed faults_list self.new.pass.saw ≡ listed faults_list self.old.pass.saw ++ Faulted number committed first ∷ [] }
        ensures seen { IsPrefix self.old.pass.saw self.new.pass.saw }
    {
        let said = Faulting {
            number,
            committed,
            first,
            of: PhantomData,
        };
        accept_alone(&mut self.pass, 0, &said);
        self.number = number;
        self.committed = committed;
        self.first = first;
    }

    /// A session gets to know what the room said last. It knew of no more.
    pub fn tell(&mut self, session: &mut Session<E, J>)
        ensures same { (self.new.number ≡ self.old.number) × (self.new.committed ≡ self.old.committed) × (self.new.first ≡ self.old.first)
            × (listed faults_list self.new.pass.saw ≡ listed faults_list self.old.pass.saw) }
        ensures seen { (session.new.pass.saw ≡ self.new.pass.saw) × IsPrefix self.old.pass.saw self.new.pass.saw
            × IsPrefix session.old.pass.saw self.new.pass.saw }
        ensures session { (session.new.list ≡ session.old.list) × (session.new.calls ≡ session.old.calls)
            × (listed session.old.list session.new.pass.saw ≡ listed session.old.list session.old.pass.saw) }
        ensures known { last_fault (listed faults_list session.old.pass.saw) ≤ self.old.number }
        ensures committed { last_committed (listed faults_list session.old.pass.saw) ≤ self.old.committed }
        ensures first { last_first (listed faults_list session.old.pass.saw) ≢ 0 → last_first (listed faults_list session.old.pass.saw) ≡ self.old.first }
    {
        look(&mut self.pass, &mut session.pass, 0);
    }

    /// Who writes files gets to know what the room said last: its count of faults is the answer.
    pub fn tell_files(&mut self, files: &mut Files<E, J>) -> u64
        ensures same { (self.new.number ≡ self.old.number) × (self.new.committed ≡ self.old.committed) × (self.new.first ≡ self.old.first)
            × (listed faults_list self.new.pass.saw ≡ listed faults_list self.old.pass.saw) }
        ensures seen { (files.new.pass.saw ≡ self.new.pass.saw) × IsPrefix self.old.pass.saw self.new.pass.saw
            × IsPrefix files.old.pass.saw self.new.pass.saw }
        ensures files { (files.new.list ≡ files.old.list)
            × (listed files.old.list files.new.pass.saw ≡ listed files.old.list files.old.pass.saw) }
        ensures number { (result ≡ self.old.number) × (result ≡ last_fault (listed faults_list files.new.pass.saw)) }
        ensures known { last_fault (listed faults_list files.old.pass.saw) ≤ result }
    {
        look(&mut self.pass, &mut files.pass, 0);
        self.number
    }
}
