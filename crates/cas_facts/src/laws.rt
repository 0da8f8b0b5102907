//! What holds of the facts of atoms.

ghost use Rattle.cas_facts.specs.Laws.{FactsAreOne, StreamsTellTheirFacts};

/// Each list of atoms has one set of facts.
pub fn facts_are_one()
    ensures { FactsAreOne }
{}

/// The facts of what the fragments of a stream told one by one are those of its atoms.
pub fn streams_tell_their_facts()
    ensures { StreamsTellTheirFacts }
{}
