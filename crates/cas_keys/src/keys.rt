//! What is wrong with the primary key that a statement gives.

ghost use Rattle.std.specs.Prelude.{◌≡◌, ◌&&◌};
ghost use Rattle.std.specs.Str.{bytes_eq};
ghost use Rattle.cas_terms.specs.Columns.{names_key};
ghost use Rattle.cas_terms.specs.Constants.{gives_no_bytes};
ghost use Rattle.cas_terms.specs.Terms.{term_value};
ghost use Rattle.cas_keys.specs.Inner.Sources.{terms_of};
ghost use Rattle.cas_keys.specs.KeyTerms.{is_equal, value_in};
ghost use Rattle.cas_keys.specs.Keys.{restricts_to_empty, is_null, compares_key_with_null, lacks_partition, lacks_clustering};

use crate::key_terms::{KeyTerms, equals, is_missing, term_of};
use cas_terms::{has_empty_value, names_key};
use cas_types::Column;
use cql_parse::{Relation, Term};

fn is_empty_equal(column: &Column, relation: &Relation) -> bool
    ensures { result ≡ ((bytes_eq relation.now.column column.now.name && is_equal relation.now.operator)
        && gives_no_bytes (term_value column.now.tag relation.now.value)) }
{
    equals(relation, column.name.as_str()) && has_empty_value(column.tag, &relation.value)
}

/// Whether the WHERE says that the column is empty.
#[tactic(auto, unfolding(crate::specs::Keys::restricts_to_empty))]
pub fn restricts_to_empty(relations: &[Relation], column: &Column) -> bool
    ensures { result ≡ restricts_to_empty relations.now column.now }
{
    relations.iter().any(|r| is_empty_equal(column, r))
}

/// Whether the column is given a value without bytes.
pub fn is_given_empty(terms: KeyTerms<'_>, column: &Column) -> bool
    ensures { result ≡ gives_no_bytes (value_in (terms_of terms.entry) column.now) }
{
    match term_of(terms, column.name.as_str()) {
        Some(term) => has_empty_value(column.tag, term),
        None => false,
    }
}

#[tactic(auto, unfolding(crate::specs::Keys::is_null))]
fn is_null(term: &Term) -> bool
    ensures { result ≡ is_null term.now }
{
    matches!(term, Term::Null)
}

fn is_key_with_null(columns: &[Column], relation: &Relation) -> bool
    ensures { result ≡ (names_key columns.now relation.now.column && is_null relation.now.value) }
{
    names_key(columns, relation.column.as_str()) && is_null(&relation.value)
}

/// Whether the WHERE compares a column of the primary key with null.
#[tactic(auto, unfolding(crate::specs::Keys::compares_key_with_null))]
pub fn compares_key_with_null(columns: &[Column], relations: &[Relation]) -> bool
    ensures { result ≡ compares_key_with_null columns.now relations.now }
{
    relations.iter().any(|r| is_key_with_null(columns, r))
}

/// Whether a column of the partition key is given no value.
#[tactic(auto, unfolding(crate::specs::Keys::lacks_partition))]
pub fn lacks_partition(terms: KeyTerms<'_>, columns: &[Column]) -> bool
    ensures { result ≡ lacks_partition (terms_of terms.entry) columns.now }
{
    columns
        .iter()
        .filter(|c| c.kind.is_partition())
        .any(|c| is_missing(terms, c))
}

/// Whether a clustering column is given no value.
#[tactic(auto, unfolding(crate::specs::Keys::lacks_clustering))]
pub fn lacks_clustering(terms: KeyTerms<'_>, columns: &[Column]) -> bool
    ensures { result ≡ lacks_clustering (terms_of terms.entry) columns.now }
{
    columns
        .iter()
        .filter(|c| c.kind.is_clustering())
        .any(|c| is_missing(terms, c))
}
