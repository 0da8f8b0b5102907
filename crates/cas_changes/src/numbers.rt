//! Numbers in the order in which they came, each found as fast as in a tree.

ghost use Rattle.std.specs.Prelude.{◌≡◌, ℕ, [], ◌∷◌, ◌++◌, OnOk};
ghost use Rattle.std.specs.Ordering.{nat_cmp};
ghost use Rattle.std.specs.BTreeSet.{contains};
ghost use Rattle.cas_changes.specs.Saying.{is_listed};

use cas_types::Mem;
use std::alloc::Global;
use std::collections::BTreeSet;

/// Numbers in the order in which they came.
#[derive(Drop)]
pub(crate) struct Numbers {
    pub(crate) list: Vec<u64>,
    known: BTreeSet<u64>,
    ghost same: { (n : ℕ) → contains nat_cmp known n ≡ is_listed list.items n },
}

impl Numbers {
    /// No numbers.
    pub(crate) fn new(alloc: Global) -> Numbers
        ensures { result.list.items ≡ [] }
    {
        Numbers {
            list: Vec::new(alloc),
            known: BTreeSet::new(alloc),
        }
    }

    /// Whether the number is among them.
    pub(crate) fn has(&self, number: u64) -> bool
        ensures { result ≡ is_listed self.now.list.items number }
    {
        self.known.contains(&number)
    }

    /// Adds a number behind them.
    #[tactic(auto, using(crate::proofs::Known::listed_more))]
    pub(crate) fn add(&mut self, number: u64) -> Result<(), Mem>
        ensures { OnOk result (self.new.list.items ≡ self.old.list.items ++ number ∷ []) }
    {
        self.list.reserve(1)?;
        self.known.insert(number)?;
        self.list.push_reserved(number);
        Ok(())
    }
}
