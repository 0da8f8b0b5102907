//! The rule of the table, and how its seats step, part and meet.
ghost use Rattle.std.specs.Prelude.{ℕ, List};
ghost use Rattle.cas_history.specs.declared.hand.Hand.{Hand};

use crate::entries::Entries;
use crate::hand::Hand;
use atomic_table::{Join, Play, Split, Table, TableRule};
use std::alloc::Global;
use std::collections::LinkedList;
use std::marker::{Brand, PhantomData};

pub type Hands<E> = LinkedList<Hand<E>>;

pub struct OneLog<E>(PhantomData<E>);

pub type Words<E> = Table<u8, Hands<E>, (), OneLog<E>, Global>;

impl<E: Entries> TableRule<u8, Hands<E>, ()> for OneLog<E> {
    ghost use Rattle.std.specs.Prelude.{[], ◌∷◌};
    ghost use Rattle.cas_history.specs.Inner.Table.{Stands};
    ghost use Rattle.cas_history.specs.Hands.{founder};

    ghost holds = { λ _ s. Stands E.rules s.words s.views };

    ghost first = { λ _. founder ∷ [] };
}

/// What a step adds to the log. Each call picks it.
pub trait Adds<E> {
    ghost added: { List E };
}

impl<E> Adds<E> for Brand {
    ghost use Rattle.std.specs.Prelude.{[]};

    ghost added = { [] };
}

pub struct Enters<E, G>(PhantomData<(E, G)>);

impl<E: Entries, G: Adds<E>> Play<u8, Hands<E>> for Enters<E, G> {
    ghost use Rattle.std.specs.Prelude.{◌≡◌, []};
    ghost use Rattle.cas_history.specs.Inner.Table.{Grew};

    ghost then = { λ s v found w. Grew E.rules G.added s.word v.0 found w.0 × (w.1 ≡ []) };
}

/// Each hand sees the log.
pub struct Looks<E>(PhantomData<E>);

impl<E: Entries> Play<u8, Hands<E>> for Looks<E> {
    ghost use Rattle.std.specs.Prelude.{◌≡◌, [], map};
    ghost use Rattle.cas_history.specs.Hands.{sees};
    ghost use Rattle.cas_history.specs.Inner.Table.{Looked};

    ghost then = { λ s v found w. Looked E.rules (λ log hands. map (sees log) hands) s.word v.0 found w.0 × (w.1 ≡ []) };
}

/// Two hands become one.
pub struct Merges<E>(PhantomData<E>);

impl<E: Entries> Play<u8, Hands<E>> for Merges<E> {
    ghost use Rattle.std.specs.Prelude.{◌≡◌, []};
    ghost use Rattle.cas_history.specs.Inner.Table.{Looked, merged};

    ghost then = { λ s v found w. Looked E.rules merged s.word v.0 found w.0 × (w.1 ≡ []) };
}

/// All hands of a seat go to another seat, for a while.
pub struct Lends<E>(PhantomData<E>);

impl<E> Split<Hands<E>> for Lends<E> {
    ghost use Rattle.std.specs.Prelude.{map};
    ghost use Rattle.cas_history.specs.Inner.Table.{lent};

    ghost left = { λ v. map lent v };

    ghost right = { λ v. v };
}

/// All hands but the first go to a new seat.
pub struct Parts<E>(PhantomData<E>);

impl<E> Split<Hands<E>> for Parts<E> {
    ghost use Rattle.std.specs.Prelude.{[], ◌∷◌};
    ghost use Rattle.cas_history.specs.Inner.Table.{hand_of, others};

    ghost left = { λ v. hand_of v ∷ [] };

    ghost right = { others };
}

/// How many lists a maker gives away. Each call picks it.
pub trait Many {
    ghost many: { ℕ };
}

impl Many for Brand {
    ghost many = { 1 };
}

/// The next lists go to a new seat.
pub struct Deals<E, M>(PhantomData<(E, M)>);

impl<E, M: Many> Split<Hands<E>> for Deals<E, M> {
    ghost use Rattle.std.specs.Prelude.{map};
    ghost use Rattle.cas_history.specs.Hands.{gave, given};

    ghost left = { λ v. map (gave M.many) v };

    ghost right = { λ v. map (given M.many) v };
}

/// The hands of two seats come together in one.
pub struct Gathers<E>(PhantomData<E>);

impl<E> Join<Hands<E>> for Gathers<E> {
    ghost use Rattle.std.specs.Prelude.{[], ◌++◌};

    ghost both = { λ v w. v ++ w };

    ghost spent = { [] };
}
