//! What holds of all bound statements.

ghost use Rattle.cas_writes.specs.ChangeLaws.{ChangesItsNames};

/// Exactly the columns that a statement names are written or deleted.
pub fn changes_its_names()
    ensures { ChangesItsNames }
{}
