//! What holds of the values of all terms.

ghost use Rattle.cas_terms.specs.TermLaws.{TermsHaveTheirTypes};

/// The bytes of a term as a value of a type are bytes of that type.
pub fn terms_have_their_types()
    ensures { TermsHaveTheirTypes }
{}
