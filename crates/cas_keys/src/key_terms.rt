//! The terms that a statement gives its columns, and the values that they are of the primary key.

ghost use Rattle.std.specs.Prelude.{◌≡◌, ◌≤◌, ◌&&◌, ◌++◌, ◌∷◌, [], length, is_some, IfOk, OnOk};
ghost use Rattle.std.specs.Option.{option_copied};
ghost use Rattle.std.specs.List.{find, filter_map};
ghost use Rattle.std.specs.Str.{bytes_eq};
ghost use Rattle.cas_types.specs.Keys.{key_of};
ghost use Rattle.cas_terms.specs.Columns.{partition_columns, clustering_columns};
ghost use Rattle.cas_terms.specs.Terms.{term_value};
ghost use Rattle.cas_keys.specs.Inner.Sources.{terms_of, KeyGives, has_bytes};
ghost use Rattle.cas_keys.specs.KeyTerms.{is_equal, term_in_where, term_in_insert, value_of_term, value_in};
ghost use Rattle.cas_keys.specs.Keys.{sole_column};
ghost use Rattle.cas_keys.specs.KeyTerms.{is_missing, first_missing, prefix_values, partition_key};

use cas_effects::{BindFault, Refusal, one_too_large};
use cas_terms::{has_value, same_name, spell_term, term_value};
use cas_types::{Bytes, Column, KEY_LIMIT, KeyBuilder, KeyFault, Mem, Text, TypeTag};
use cql_parse::{Operator, Relation, Term};
use std::alloc::{AllocError, Global};

/// Where a statement gives its columns their terms: in its WHERE, or in an INSERT's names and values.
#[derive(Clone, Copy)]
pub enum KeyTerms<'a> {
    Where(&'a [Relation]),
    Insert(&'a [Text], &'a [Term]),
}

/// Whether the operator is `=`.
#[tactic(auto, unfolding(crate::specs::KeyTerms::is_equal))]
pub fn is_equal(operator: Operator) -> bool
    ensures { result ≡ is_equal operator }
{
    matches!(operator, Operator::Equal)
}

/// Whether the relation is an `=` of the name.
pub(crate) fn equals(relation: &Relation, name: &str) -> bool
    ensures { result ≡ (bytes_eq relation.now.column name.now && is_equal relation.now.operator) }
{
    same_name(relation.column.as_str(), name) && is_equal(relation.operator)
}

fn first_equal<'a>(relations: &'a [Relation], name: &str) -> Option<&'a Relation>
    ensures { option_copied result ≡ find (λ r. bytes_eq r.column name.now && is_equal r.operator) relations.now }
{
    relations.iter().find(|r| equals(r, name))
}

#[tactic(auto, unfolding(crate::specs::KeyTerms::term_in_where))]
fn term_in_where<'a>(relations: &'a [Relation], name: &str) -> Option<&'a Term>
    ensures { option_copied result ≡ term_in_where relations.now name.now }
{
    match first_equal(relations, name) {
        Some(relation) => Some(&relation.value),
        None => None,
    }
}

#[tactic(auto, unfolding(crate::specs::KeyTerms::term_in_insert))]
fn term_in_insert<'a>(names: &[Text], terms: &'a [Term], name: &str) -> Option<&'a Term>
    ensures { option_copied result ≡ term_in_insert names.now terms.now name.now }
{
    match (names, terms) {
        ([other, names @ ..], [term, terms @ ..]) => {
            if same_name(other.as_str(), name) {
                Some(term)
            } else {
                term_in_insert(names, terms, name)
            }
        }
        ([], _) => None,
        ([_other, _names @ ..], []) => None,
    }
}

/// The term that the name is given.
pub(crate) fn term_of<'a>(terms: KeyTerms<'a>, name: &str) -> Option<&'a Term>
    ensures { option_copied result ≡ terms_of terms.entry name.now }
{
    match terms {
        KeyTerms::Where(relations) => term_in_where(relations, name),
        KeyTerms::Insert(names, terms) => term_in_insert(names, terms, name),
    }
}

fn value_of_term(
    alloc: Global,
    column: &Column,
    term: Option<&Term>,
) -> Result<Option<Bytes>, AllocError>
    ensures { IfOk result (λ v. v ≡ value_of_term column.now (option_copied term.entry)) }
{
    match term {
        Some(term) => term_value(alloc, column.tag, term),
        None => Ok(None),
    }
}

/// The value that the column is given, where it is given one of its type.
pub fn value_in(
    alloc: Global,
    terms: KeyTerms<'_>,
    column: &Column,
) -> Result<Option<Bytes>, AllocError>
    ensures { IfOk result (λ v. v ≡ value_in (terms_of terms.entry) column.now) }
{
    value_of_term(alloc, column, term_of(terms, column.name.as_str()))
}

fn term_has_value(column: &Column, term: Option<&Term>) -> bool
    ensures { result ≡ is_some (value_of_term column.now (option_copied term.entry)) }
{
    match term {
        Some(term) => has_value(column.tag, term),
        None => false,
    }
}

fn is_value_with_bytes(tag: TypeTag, term: &Term) -> bool
    ensures { result ≡ has_bytes (term_value tag term.now) }
{
    match spell_term(tag, term) {
        Some(value) => !value.as_slice().is_empty(),
        None => false,
    }
}

/// Whether the column is given a value, and one with bytes.
pub fn is_given_bytes(terms: KeyTerms<'_>, column: &Column) -> bool
    ensures { result ≡ has_bytes (value_in (terms_of terms.entry) column.now) }
{
    match term_of(terms, column.name.as_str()) {
        Some(term) => is_value_with_bytes(column.tag, term),
        None => false,
    }
}

/// Whether the column is given no value.
#[tactic(auto, unfolding(crate::specs::KeyTerms::is_missing))]
pub(crate) fn is_missing(terms: KeyTerms<'_>, column: &Column) -> bool
    ensures { result ≡ is_missing (terms_of terms.entry) column.now }
{
    !term_has_value(column, term_of(terms, column.name.as_str()))
}

/// The first clustering column that is given no value.
#[tactic(auto, unfolding(crate::specs::KeyTerms::first_missing))]
pub fn first_missing<'a>(terms: KeyTerms<'_>, columns: &'a [Column]) -> Option<&'a Column>
    ensures { option_copied result ≡ first_missing (terms_of terms.entry) (clustering_columns columns.now) }
{
    columns
        .iter()
        .filter(|c| c.kind.is_clustering())
        .find(|c| is_missing(terms, c))
}

#[tactic(auto, unfolding(crate::specs::KeyTerms::prefix_values))]
fn push_prefix(
    alloc: Global,
    terms: KeyTerms<'_>,
    columns: &[Column],
    values: &mut Vec<Bytes>,
) -> Result<(), AllocError>
    ensures { OnOk result (values.new.items ≡ values.old.items ++ prefix_values (terms_of terms.entry) (clustering_columns columns.now)) }
{
    match columns {
        [] => Ok(()),
        [column, rest @ ..] => {
            if !column.kind.is_clustering() {
                return push_prefix(alloc, terms, rest, values);
            }
            match value_in(alloc, terms, column)? {
                Some(value) => {
                    values.push(value)?;
                    push_prefix(alloc, terms, rest, values)
                }
                None => Ok(()),
            }
        }
    }
}

/// The clustering column, where there is only one.
#[tactic(auto, unfolding(crate::specs::Keys::sole_column))]
pub fn sole_clustering(columns: &[Column]) -> Option<&Column>
    ensures { option_copied result ≡ sole_column (clustering_columns columns.now) }
{
    match columns {
        [] => None,
        [column, rest @ ..] => {
            if !column.kind.is_clustering() {
                return sole_clustering(rest);
            }
            if clustering_count(rest) == 0 {
                Some(column)
            } else {
                None
            }
        }
    }
}

fn clustering_count(columns: &[Column]) -> usize
    ensures { result ≡ length (clustering_columns columns.now) }
{
    columns.iter().filter(|c| c.kind.is_clustering()).count()
}

/// The values of the clustering columns from the first on, as far as each is given one.
pub fn prefix_values(
    alloc: Global,
    terms: KeyTerms<'_>,
    columns: &[Column],
) -> Result<Vec<Bytes>, AllocError>
    ensures { IfOk result (λ v. v.items ≡ prefix_values (terms_of terms.entry) (clustering_columns columns.now)) }
{
    let mut values = Vec::with_capacity(alloc, clustering_count(columns))?;
    push_prefix(alloc, terms, columns, &mut values)?;
    Ok(values)
}

fn partition_count(columns: &[Column]) -> usize
    ensures { result ≡ length (partition_columns columns.now) }
{
    columns.iter().filter(|c| c.kind.is_partition()).count()
}

/// The column of the partition key, where it has only one.
#[tactic(auto, unfolding(crate::specs::Keys::sole_column))]
pub fn sole_column(columns: &[Column]) -> Option<&Column>
    ensures { option_copied result ≡ sole_column (partition_columns columns.now) }
{
    match columns {
        [] => None,
        [column, rest @ ..] => {
            if !column.kind.is_partition() {
                return sole_column(rest);
            }
            if partition_count(rest) == 0 {
                Some(column)
            } else {
                None
            }
        }
    }
}

fn push_partition(
    alloc: Global,
    terms: KeyTerms<'_>,
    columns: &[Column],
    values: &mut Vec<Bytes>,
) -> Result<(), AllocError>
    ensures { OnOk result (values.new.items ≡ values.old.items ++ filter_map (value_in (terms_of terms.entry)) (partition_columns columns.now)) }
{
    match columns {
        [] => Ok(()),
        [column, rest @ ..] => {
            if !column.kind.is_partition() {
                return push_partition(alloc, terms, rest, values);
            }
            match value_in(alloc, terms, column)? {
                Some(value) => {
                    values.push(value)?;
                    push_partition(alloc, terms, rest, values)
                }
                None => push_partition(alloc, terms, rest, values),
            }
        }
    }
}

fn partition_values(
    alloc: Global,
    terms: KeyTerms<'_>,
    columns: &[Column],
) -> Result<Vec<Bytes>, AllocError>
    ensures { IfOk result (λ v. v.items ≡ filter_map (value_in (terms_of terms.entry)) (partition_columns columns.now)) }
{
    let mut values = Vec::new(alloc);
    push_partition(alloc, terms, columns, &mut values)?;
    Ok(values)
}

fn builder(alloc: Global, values: &[Bytes]) -> Result<KeyBuilder, Mem>
    requires { 1 ≤ length values.now }
    ensures { IfOk result (λ b. (b.parts ≡ length values.now) × (b.values ≡ values.now)) }
{
    let mut builder = KeyBuilder::new(alloc, values.len());
    for value in values {
        builder.push(value.as_slice())?;
    }
    Ok(builder)
}

// The key of several values, which are put together.
fn joined_key(alloc: Global, values: &[Bytes]) -> Result<Bytes, BindFault>
    ensures { KeyGives result (key_of values.now) }
{
    if values.is_empty() {
        return Ok(Bytes::from_vec(Vec::new(alloc)));
    }
    match builder(alloc, values)?.finish() {
        Ok(key) => Ok(Bytes::from_vec(key)),
        Err(KeyFault::Empty) => Ok(Bytes::from_vec(Vec::new(alloc))),
        Err(KeyFault::TooLong { length }) => Err(BindFault::Refused(Refusal::TooLarge {
            length,
            limit: KEY_LIMIT,
        })),
        Err(KeyFault::Mem) => Err(BindFault::Mem),
    }
}

// The key of one value, which is that value.
#[tactic(auto, using(crate::proofs::KeyLemmas::first_too_large))]
fn sole_key(value: Bytes) -> Result<Bytes, BindFault>
    ensures { KeyGives result (key_of (value ∷ [])) }
{
    match one_too_large(value.as_slice()) {
        Some(refusal) => Err(BindFault::Refused(refusal)),
        None => Ok(value),
    }
}

// The key of one column.
fn key_of_column(alloc: Global, terms: KeyTerms<'_>, column: &Column) -> Result<Bytes, BindFault>
    ensures { KeyGives result (key_of (filter_map (value_in (terms_of terms.entry)) (column.now ∷ []))) }
{
    match value_in(alloc, terms, column)? {
        Some(value) => sole_key(value),
        None => Ok(Bytes::from_vec(Vec::new(alloc))),
    }
}

/// The bytes of the partition key.
#[tactic(auto, unfolding(crate::specs::KeyTerms::partition_key))]
pub fn partition_key(
    alloc: Global,
    terms: KeyTerms<'_>,
    columns: &[Column],
) -> Result<Bytes, BindFault>
    ensures { KeyGives result (partition_key (terms_of terms.entry) columns.now) }
{
    match sole_column(columns) {
        Some(column) => key_of_column(alloc, terms, column),
        None => joined_key(alloc, &partition_values(alloc, terms, columns)?),
    }
}
