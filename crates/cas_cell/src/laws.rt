//! What holds of the orders of cells, livenesses and deletions.

ghost use Rattle.cas_cell.specs.Laws.{CellLaws, LiveLaws, DeletionLaws};

/// Of any two cells the same one wins whatever the order they come in, only equal ones tie, and the
/// later timestamp wins.
pub fn cell_laws()
    ensures { CellLaws }
{}

/// The same of what keeps rows alive.
pub fn live_laws()
    ensures { LiveLaws }
{}

/// The same of deletions; and the greater deletes all that the lesser one deletes.
pub fn deletion_laws()
    ensures { DeletionLaws }
{}
