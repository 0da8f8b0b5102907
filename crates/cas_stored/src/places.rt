//! Which places of a table's files may be told bad.

use std::marker::Brand;

/// Which places of which files may be told bad, by the file's number and the place in it. Each read
/// picks them; where none does, all may.
pub trait BadPlaces {
    ghost use Rattle.std.specs.Prelude.{ℕ};

    ghost told: { ℕ → ℕ → Type 0 };
}

impl BadPlaces for Brand {
    ghost told = { λ n at. Unit {0} };
}
