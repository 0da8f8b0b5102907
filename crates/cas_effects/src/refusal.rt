//! Why a statement isn't done.

ghost use Rattle.std.specs.Prelude.{◌≡◌};
ghost use Rattle.cas_effects.specs.Refusals.{refusal_number};
ghost use Rattle.cas_effects.specs.declared.refusal.BindFault.TheVariants as faults;

use cas_types::Mem;
use std::alloc::{AllocError, AllocFailed};

/// The number of a statement that isn't one of the language.
pub const SYNTAX: u8 = 1;

/// The number of a key, a value or a statement that is too large.
pub const TOO_LARGE: u8 = 10;

/// The number of a statement that can't be done here.
pub const NOT_HERE: u8 = 13;

/// The number of what there is too many of: tables, columns, mutations.
pub const TOO_MANY: u8 = 14;

/// Why a statement isn't done.
#[derive(Clone, Copy)]
pub enum Refusal {
    /// No such table or keyspace.
    NoTable,
    /// A name that isn't a column.
    NoColumn,
    /// A constant that isn't a value of its column, or an operation on a column of another shape.
    WrongType,
    /// A column of the primary key without a value.
    MissingKey,
    /// A WHERE, an ORDER BY or a LIMIT that the statement can't have, or a change of a key column.
    BadRestriction,
    /// An option, or USING TIMESTAMP, that there isn't or that is out of range.
    BadOption,
    /// CREATE of a table that is there.
    TableExists,
    /// A partition key without bytes.
    EmptyKey,
    /// A key, a value of a clustering column or an element with more bytes than the limit.
    TooLarge { length: u64, limit: u64 },
    /// A TTL out of range.
    TtlTooLarge,
    /// A definition that contradicts itself, or something that stands twice.
    BadDefinition,
    /// More tables, or columns of a table, than the limit.
    TooMany { what: Counted, limit: u64 },
}

/// What there can be too many of.
#[derive(Clone, Copy)]
pub enum Counted {
    Tables,
    Columns,
}

impl Refusal {
    /// The number that a refusal is reported with.
    pub fn number(&self) -> u8
        ensures { result ≡ refusal_number self.now }
    {
        match self {
            Refusal::NoTable => 2,
            Refusal::NoColumn => 3,
            Refusal::WrongType => 4,
            Refusal::MissingKey => 5,
            Refusal::BadRestriction => 6,
            Refusal::BadOption => 7,
            Refusal::TableExists => 8,
            Refusal::EmptyKey => 9,
            Refusal::TooLarge { .. } => TOO_LARGE,
            Refusal::TtlTooLarge => 11,
            Refusal::BadDefinition => 12,
            Refusal::TooMany { .. } => TOO_MANY,
        }
    }
}

/// Why a statement wasn't bound.
#[derive(Clone, Copy)]
pub enum BindFault {
    /// It is refused.
    Refused(Refusal),
    /// There wasn't enough memory.
    Mem,
}

impl From<Mem> for BindFault {
    ghost from_gives = { λ _ e. e ≡ faults.Mem };

    fn from(_: Mem) -> Self {
        BindFault::Mem
    }
}

impl From<AllocError> for BindFault {
    ghost from_gives = { λ _ e. e ≡ faults.Mem };

    fn from(_: AllocError) -> Self {
        BindFault::Mem
    }
}

impl<T: Drop> From<AllocFailed<T>> for BindFault {
    ghost from_gives = { λ _ e. e ≡ faults.Mem };

    fn from(_: AllocFailed<T>) -> Self {
        BindFault::Mem
    }
}
