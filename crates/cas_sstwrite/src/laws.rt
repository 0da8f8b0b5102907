//! What holds of the faults of a writer.

ghost use Rattle.std.specs.Prelude.{ℕ, List, Option};
ghost use Rattle.cas_cell.specs.declared.deletion.Deletion.{Deletion};
ghost use Rattle.cas_types.specs.declared.schema.Column.{Column};
ghost use Rattle.cas_streams.specs.declared.fragment.Fragment.{Fragment};
ghost use Rattle.cas_sstwrite.specs.Writers.{FitsStream};
ghost use Rattle.cas_sstwrite.specs.Causes.{IsUnfit};

/// No key and stream that a table may have is unfit.
pub fn what_fits_is_written()
    ensures { (columns : List Column) (key : List ℕ) (top : Option Deletion) (fs : List Fragment) → FitsStream columns key top fs → IsUnfit key fs → ⊥ }
{}
