//! A new log, which has no name yet, and a pass without one, for types that name no table.
ghost use Rattle.std.specs.Prelude.{◌≡◌, [], ◌∷◌, IfOk};
ghost use Rattle.std.specs.Arc.{arc_value};
ghost use Rattle.cas_history.specs.Hands.{founder};
ghost use Rattle.cas_history.specs.Inner.Table.{hand_of};
ghost use Rattle.cas_history.specs.Log.{Legal};

use crate::entries::Entries;
use crate::pass::{Pass, Store, WORDS};
use crate::steps::{Hands, Words};
use atomic_table::Seat;
use std::alloc::{AllocError, Global};
use std::marker::{Model, PhantomData};
use std::sync::Arc;

/// A log that was just begun. `named` gives its first pass, once the caller has picked the table's name.
pub struct Opened<E: Entries> {
    table: Arc<Words<E>, Global>,
    seat: Seat<u8, Hands<E>>,
    pub ghost fits: { (seat.table_id ≡ (arc_value table).shared.table_id) × (seat.table_id.words ≡ 34) × (seat.me ≡ (founder ∷ [], [])) },
}

impl<E: Entries> Opened<E> {
    pub fn new(alloc: Global) -> Result<Opened<E>, AllocError> {
        let (table, seat) = Words::<E>::of_words(alloc, &[0; WORDS], &())?;
        Ok(Opened {
            table: Arc::new(alloc, table)?,
            seat,
        })
    }

    /// The first pass. It owns each list, and the log is empty.
    pub fn named<J: Store>(self) -> Pass<E, J>
        requires { self.seat.table_id ≡ J.table }
        ensures { result ≡ founder }
    {
        let Opened { table, seat } = self;
        Pass {
            table,
            seat,
            of: PhantomData,
        }
    }
}

/// A pass that doesn't say which table it is of. Contracts see its hand.
#[derive(Drop)]
pub struct Kept<E: Entries> {
    table: Arc<Words<E>, Global>,
    seat: Seat<u8, Hands<E>>,
}

impl<E: Entries> Model for Kept<E> {
    ghost use Rattle.cas_history.specs.declared.hand.Hand.{Hand};
    ghost use Rattle.cas_history.specs.Log.{Legal};
    ghost use Rattle.cas_history.specs.Inner.Table.{hand_of};

    ghost Value = { Hand E };

    ghost view = { λ p. hand_of p.seat.me.0 };

    ghost invariant = { λ p. Legal E.rules (hand_of p.seat.me.0).saw };
}

impl<E: Entries, J: Store> Pass<E, J> {
    pub fn kept(self) -> Kept<E>
        ensures { result ≡ self }
    {
        let Pass { table, seat, of: _ } = self;
        Kept { table, seat }
    }
}
