//! A pass: one hand of the log, and the way to its table.
ghost use Rattle.std.specs.Prelude.{◌≡◌, ℕ, ◌+◌, ◌<◌, ◌^◌, List, [], ◌∷◌, ◌++◌, map, None, IfOk, OnErr};
ghost use Rattle.cas_history.specs.Log.{Legal};
ghost use Rattle.cas_history.specs.Hands.{sees, Ready, given, gave};
ghost use Rattle.cas_history.specs.Inner.Table.{Grew, Looked, lent, hand_of, others, merged};

use crate::entries::{Entries, Tells};
use crate::hand::Hand;
use crate::steps::{Adds, Deals, Enters, Gathers, Hands, Lends, Looks, Many, Merges, Parts, Words};
use atomic_table::Seat;
use std::alloc::{AllocError, Global};
use std::marker::{Brand, Model, PhantomData};
use std::sync::Arc;

/// How many words a table has, whatever its shards.
pub const WORDS: usize = 34;

/// Which table a pass is of. Each call of a program picks it.
pub trait Store {
    ghost use Rattle.atomic_table.specs.Seated.{TableId};

    ghost table: { TableId };
}

impl Store for Brand {
    ghost use Rattle.cas_history.specs.Inner.Table.{no_table};

    ghost table = { no_table };
}

/// A pass of the table that J names. Contracts see its hand.
#[derive(Drop)]
pub struct Pass<E: Entries, J: Store> {
    pub(crate) table: Arc<Words<E>, Global>,
    pub(crate) seat: Seat<u8, Hands<E>>,
    pub(crate) of: PhantomData<J>,
}

impl<E: Entries, J: Store> Model for Pass<E, J> {
    ghost use Rattle.cas_history.specs.declared.hand.Hand.{Hand};
    ghost use Rattle.std.specs.Prelude.{◌≡◌, [], ◌∷◌};
    ghost use Rattle.std.specs.Arc.{arc_value};
    ghost use Rattle.cas_history.specs.Log.{Legal};
    ghost use Rattle.cas_history.specs.Inner.Table.{hand_of};

    ghost Value = { Hand E };

    ghost view = { λ p. hand_of p.seat.me.0 };

    ghost invariant = { λ p. ((arc_value p.table).shared.table_id ≡ J.table) × (p.seat.table_id ≡ J.table)
        × (p.seat.me ≡ (hand_of p.seat.me.0 ∷ [], [])) × (J.table.words ≡ 34) × Legal E.rules (hand_of p.seat.me.0).saw };
}

/// Hands of several passes, together for one step.
#[derive(Drop)]
pub(crate) struct Group<E: Entries, J: Store> {
    pub(crate) seat: Seat<u8, Hands<E>>,
    pub(crate) of: PhantomData<J>,
}

impl<E: Entries, J: Store> Model for Group<E, J> {
    ghost use Rattle.cas_history.specs.declared.hand.Hand.{Hand};
    ghost use Rattle.std.specs.Prelude.{◌≡◌, List, []};

    ghost Value = { List (Hand E) };

    ghost view = { λ g. g.seat.me.0 };

    ghost invariant = { λ g. (g.seat.table_id ≡ J.table) × (g.seat.me.1 ≡ []) };
}

impl<E: Entries, J: Store> Pass<E, J> {
    /// What a pass saw is a log by the rules: each entry may follow those before it.
    pub fn stands(&self)
        ensures { Legal E.rules self.now.saw }
    {
        let _table = &self.table;
    }

    /// All that the pass holds, for a while.
    pub(crate) fn lend(&mut self) -> Group<E, J>
        ensures { (self.new ≡ lent self.old) × (result ≡ self.old ∷ []) }
    {
        Group {
            seat: self.table.shared.split_seat::<Lends<E>>(&mut self.seat),
            of: PhantomData,
        }
    }

    /// All that the pass holds goes to the group, for a while.
    pub(crate) fn lend_to(&mut self, group: Group<E, J>) -> Group<E, J>
        ensures { (self.new ≡ lent self.old) × (result ≡ group ++ self.old ∷ []) }
    {
        let mut group = group;
        let Group { seat, of: _ } = self.lend();
        self.table
            .shared
            .join_seat::<Gathers<E>>(&mut group.seat, seat);
        group
    }

    /// The pass holds the first hand of the group from now on. The answer is the others.
    pub(crate) fn take_first(&mut self, group: Group<E, J>) -> Group<E, J>
        requires { Legal E.rules (hand_of group).saw }
        ensures { (self.new ≡ hand_of group) × (result ≡ others group) }
    {
        let Group { mut seat, of: _ } = group;
        let others = self.table.shared.split_seat::<Parts<E>>(&mut seat);
        self.seat = seat;
        Group {
            seat: others,
            of: PhantomData,
        }
    }

    /// The log gets the entry, and each hand of the group sees it.
    pub(crate) fn enter<T: Tells<E>>(&self, group: &mut Group<E, J>, word: usize, entry: &T) -> u64
        requires word { (E.rules.word (T.entry entry.now) ≡ word) × (word < 34) }
        requires ready { Ready E.rules group.old (T.entry entry.now) }
        ensures { Grew E.rules (T.entry entry.now ∷ []) word group.old result group.new }
    {
        self.enter_picked::<T, Brand>(group, word, entry)
    }

    fn enter_picked<T: Tells<E>, G: Adds<E>>(
        &self,
        group: &mut Group<E, J>,
        word: usize,
        entry: &T,
    ) -> u64
        requires picked { G.added ≡ T.entry entry.now ∷ [] }
        requires word { (E.rules.word (T.entry entry.now) ≡ word) × (word < 34) }
        requires ready { Ready E.rules group.old (T.entry entry.now) }
        ensures { Grew E.rules G.added word group.old result group.new }
    {
        let _entry = entry;
        self.table
            .shared
            .fetch_add::<Enters<E, G>>(&mut group.seat, word, 1)
    }

    /// Each hand of the group sees the log.
    pub(crate) fn show(&self, group: &mut Group<E, J>, word: usize) -> u64
        requires { word < 34 }
        ensures { Looked E.rules (λ log hands. map (sees log) hands) word group.old result group.new }
    {
        self.table.shared.load::<Looks<E>>(&mut group.seat, word)
    }

    /// The first two hands of the group become one.
    pub(crate) fn merge(&self, group: &mut Group<E, J>)
        ensures { (n : ℕ) × Looked E.rules merged 0 group.old n group.new }
    {
        self.table.shared.load::<Merges<E>>(&mut group.seat, 0);
    }

    pub(crate) fn deal_picked<M: Many>(&mut self, lists: usize) -> Result<Pass<E, J>, AllocError>
        ensures ok { IfOk result (λ p. (p ≡ given M.many self.old) × (self.new ≡ gave M.many self.old)) }
        ensures err { OnErr result (self.new ≡ self.old) }
    {
        let _lists = lists;
        let table = Arc::try_clone(&self.table)?;
        Ok(Pass {
            table,
            seat: self.table.shared.split_seat::<Deals<E, M>>(&mut self.seat),
            of: PhantomData,
        })
    }
}
