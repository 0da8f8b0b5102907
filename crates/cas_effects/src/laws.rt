//! What holds of the atoms of all writes.

ghost use Rattle.std.specs.Prelude.{ℕ, ℤ};
ghost use Rattle.cas_effects.specs.FitsBound.{MutationsFit};
ghost use Rattle.cas_effects.specs.ListPlaces.{ListPlaces};
ghost use Rattle.cas_effects.specs.WriteLaws.{WriteLaws};
ghost use Rattle.cas_effects.specs.declared.effect.BoundWrite.{BoundWrite};

/// What is appended to a list later stands after, and what is prepended later before.
pub fn list_places()
    ensures { ListPlaces }
{}

/// The atoms of a write are of exactly the columns and rows that it names, and at its timestamp.
pub fn write_laws()
    ensures { (w : BoundWrite) (drawn moment : ℤ) (number : ℕ) → WriteLaws w drawn moment number }
{}

/// The mutation of a write that a table can take is one that the store may hold.
pub fn mutations_fit()
    ensures { MutationsFit }
{}
