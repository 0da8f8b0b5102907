//! A pass with a list of its own, of which a seat is made.
ghost use Rattle.std.specs.Prelude.{◌≡◌, [], ◌∷◌};
ghost use Rattle.cas_history.specs.Hands.{Owns};
ghost use Rattle.cas_history.specs.Items.{listed};

use crate::item::Item;
use crate::{Pass, Store};

/// A pass with an empty list of its own.
#[derive(Drop)]
pub struct Fresh<E, J: Store> {
    pub pass: Pass<Item<E>, J>,
    pub list: u64,
    pub ghost owns: { Owns pass list },
    pub ghost alone: { pass.lists ≡ list ∷ [] },
    pub ghost empty: { listed list pass.saw ≡ [] },
}
