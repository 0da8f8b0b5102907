//! Who takes the mutations of a log.

ghost use Rattle.std.specs.Prelude.{◌≡◌, ◌++◌, ◌∷◌, [], List, OnOk, OnErr};
ghost use Rattle.cas_atoms.specs.declared.atom.Mutation.{Mutation as MutationOf};
ghost use Rattle.cas_replay.specs.Grammar.{IsWithinLimits};

use cas_atoms::Mutation;
use cas_types::Mem;

/// Takes the mutations of a log, one after another, as they are read.
pub trait TakesMutations {
    /// It has taken these mutations, in order.
    ghost has_taken: { List MutationOf → Self → Type 0 };

    /// Takes a mutation behind those that it has. Where memory runs out it takes nothing.
    fn take(&mut self, mutation: Mutation) -> Result<(), Mem>
        requires { IsWithinLimits mutation }
        ensures taken { (before : List MutationOf) → has_taken before self.old → OnOk result (has_taken (before ++ mutation ∷ []) self.new) }
        ensures kept { (before : List MutationOf) → has_taken before self.old → OnErr result (has_taken before self.new) };
}

impl TakesMutations for Vec<Mutation> {
    ghost has_taken = { λ taken v. v.items ≡ taken };

    fn take(&mut self, mutation: Mutation) -> Result<(), Mem> {
        match self.push(mutation) {
            Ok(()) => Ok(()),
            Err(_) => Err(Mem),
        }
    }
}
