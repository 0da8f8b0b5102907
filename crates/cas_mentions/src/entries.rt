//! Which entries of a map are changed, and whether two are one.

ghost use Rattle.std.specs.Prelude.{◌≡◌};
ghost use Rattle.std.specs.Option.{option_copied};
ghost use Rattle.std.specs.Str.{bytes_eq};
ghost use Rattle.cas_mentions.specs.Inner.Borrowed.{change_in};
ghost use Rattle.cas_mentions.specs.ColumnFaults.{is_same_constant, are_other_entries, entry_key, names_map};

use crate::change::RowChange;
use cas_terms::{column_named, same_name};
use cas_types::Column;
use cql_parse::{Assigned, Constant};

fn same_bytes(a: &[u8], b: &[u8]) -> bool
    ensures { result ≡ bytes_eq a.now b.now }
{
    a == b
}

#[tactic(auto, unfolding(crate::specs::ColumnFaults::is_same_constant))]
fn is_same_constant(a: &Constant, b: &Constant) -> bool
    ensures { result ≡ is_same_constant a.now b.now }
{
    match (a, b) {
        (Constant::Text(a), Constant::Text(b)) => same_name(a.as_str(), b.as_str()),
        (Constant::Number(a), Constant::Number(b)) => *a == *b,
        (Constant::Blob(a), Constant::Blob(b)) => same_bytes(a.as_slice(), b.as_slice()),
        (Constant::Uuid(a), Constant::Uuid(b)) => same_bytes(a, b),
        (Constant::Boolean(a), Constant::Boolean(b)) => { if *a { *b } else { !*b } }
        _ => false,
    }
}

pub(crate) fn are_other_entries(a: Option<&Constant>, b: Option<&Constant>) -> bool
    ensures { result ≡ are_other_entries (option_copied a.entry) (option_copied b.entry) }
{
    match (a, b) {
        (Some(a), Some(b)) => !is_same_constant(a, b),
        (None, _) => false,
        (Some(_), None) => false,
    }
}

pub(crate) fn names_map(columns: &[Column], name: &str) -> bool
    ensures { result ≡ names_map columns.now name.now }
{
    match column_named(columns, name) {
        Some(column) => column.shape.is_map(),
        None => false,
    }
}

#[tactic(auto, unfolding(crate::specs::ColumnFaults::entry_key))]
pub(crate) fn entry_key(change: RowChange<'_>) -> Option<&Constant>
    ensures { option_copied result ≡ entry_key (change_in change.entry) }
{
    match change {
        RowChange::Insert(_) => None,
        RowChange::Assign(value) => match value {
            Assigned::Whole(_) => None,
            Assigned::Append(_, _) => None,
            Assigned::Prepend(_, _) => None,
            Assigned::Remove(_, _) => None,
            Assigned::Entry(key, _) => Some(key),
        },
        RowChange::Delete(key) => key.as_ref(),
    }
}
