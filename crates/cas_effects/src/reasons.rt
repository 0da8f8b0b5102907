//! What a statement is refused for, and which of several reasons counts.

ghost use Rattle.std.specs.Prelude.{◌≡◌};
ghost use Rattle.std.specs.Option.{option_or};
ghost use Rattle.cas_effects.specs.Refusals.{refusal_for};

use crate::refusal::Refusal;

/// What a statement is to be refused for.
#[derive(Clone, Copy)]
pub struct Reasons {
    pub no_table: bool,
    pub table_exists: bool,
    pub bad_definition: bool,
    pub no_column: bool,
    pub bad_option: bool,
    pub wrong_type: bool,
    pub empty_key: bool,
    pub missing_key: bool,
    pub bad_restriction: bool,
    pub ttl_too_large: bool,
    pub too_large: Option<Refusal>,
    pub too_many: Option<Refusal>,
}

impl Reasons {
    /// The refusal for the first of the reasons, in the order in which they stand here.
    pub fn refusal(&self) -> Option<Refusal>
        ensures { result ≡ refusal_for self.now }
    {
        if self.no_table {
            Some(Refusal::NoTable)
        } else if self.table_exists {
            Some(Refusal::TableExists)
        } else if self.bad_definition {
            Some(Refusal::BadDefinition)
        } else if self.no_column {
            Some(Refusal::NoColumn)
        } else if self.bad_option {
            Some(Refusal::BadOption)
        } else if self.wrong_type {
            Some(Refusal::WrongType)
        } else if self.empty_key {
            Some(Refusal::EmptyKey)
        } else if self.missing_key {
            Some(Refusal::MissingKey)
        } else if self.bad_restriction {
            Some(Refusal::BadRestriction)
        } else if self.ttl_too_large {
            Some(Refusal::TtlTooLarge)
        } else {
            either(self.too_large, self.too_many)
        }
    }
}

/// Of two refusals the first one that there is.
pub fn either(first: Option<Refusal>, second: Option<Refusal>) -> Option<Refusal>
    ensures { result ≡ option_or first second }
{
    match first {
        Some(refusal) => Some(refusal),
        None => second,
    }
}
