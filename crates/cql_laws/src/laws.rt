//! The law of printed values.

ghost use Rattle.cql_laws.specs.ReadsBack.{ReadsBack};

/// What is printed of a value is a term of CQL, and a column that is given the term has the value.
pub fn reads_back()
    ensures { ReadsBack }
{}
