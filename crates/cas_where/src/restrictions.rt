//! Which restrictions a WHERE may have.

ghost use Rattle.std.specs.Prelude.{◌≡◌, ◌&&◌, nat_le};
ghost use Rattle.std.specs.List.{list_all};
ghost use Rattle.cas_terms.specs.Columns.{partition_columns, clustering_columns, names_key};
ghost use Rattle.cas_keys.specs.KeyTerms.{is_equal};
ghost use Rattle.cas_where.specs.Where.{is_lower, is_upper, count_on, count_all, is_fixed, is_bounded, is_free, makes_slice};
ghost use Rattle.cas_where.specs.Where.{is_clustering_free, is_clustering_fixed, is_of_one_partition, picks_rows, restricts};

use crate::operators::{is_lower, is_upper};
use cas_keys::is_equal;
use cas_terms::{names_key, same_name};
use cas_types::Column;
use cql_parse::Relation;

/// What a statement is of: the static row of a partition, one row, or a slice of its rows.
#[derive(Clone, Copy)]
pub enum Extent {
    StaticRow,
    Row,
    Slice,
}

#[tactic(auto, unfolding(crate::specs::Where::count_on))]
fn equals_on(relations: &[Relation], name: &str) -> usize
    ensures { result ≡ count_on is_equal relations.now name.now }
{
    relations
        .iter()
        .filter(|r| same_name(r.column.as_str(), name) && is_equal(r.operator))
        .count()
}

#[tactic(auto, unfolding(crate::specs::Where::count_on))]
fn lower_on(relations: &[Relation], name: &str) -> usize
    ensures { result ≡ count_on is_lower relations.now name.now }
{
    relations
        .iter()
        .filter(|r| same_name(r.column.as_str(), name) && is_lower(r.operator))
        .count()
}

#[tactic(auto, unfolding(crate::specs::Where::count_on))]
fn upper_on(relations: &[Relation], name: &str) -> usize
    ensures { result ≡ count_on is_upper relations.now name.now }
{
    relations
        .iter()
        .filter(|r| same_name(r.column.as_str(), name) && is_upper(r.operator))
        .count()
}

#[tactic(auto, unfolding(crate::specs::Where::count_all))]
fn count_all(relations: &[Relation], name: &str) -> usize
    ensures { result ≡ count_all relations.now name.now }
{
    relations
        .iter()
        .filter(|r| same_name(r.column.as_str(), name))
        .count()
}

#[tactic(auto, unfolding(crate::specs::Where::is_fixed))]
fn is_fixed(relations: &[Relation], column: &Column) -> bool
    ensures { result ≡ is_fixed relations.now column.now }
{
    let name = column.name.as_str();
    equals_on(relations, name) == 1 && count_all(relations, name) == 1
}

// At most one lower bound, and at most one upper one.
fn at_most_one_each(relations: &[Relation], name: &str) -> bool
    ensures { result ≡ (nat_le (count_on is_lower relations.now name.now) 1 && nat_le (count_on is_upper relations.now name.now) 1) }
{
    lower_on(relations, name) <= 1 && upper_on(relations, name) <= 1
}

#[tactic(auto, unfolding(crate::specs::Where::is_bounded))]
fn is_bounded(relations: &[Relation], column: &Column) -> bool
    ensures { result ≡ is_bounded relations.now column.now }
{
    let name = column.name.as_str();
    equals_on(relations, name) == 0 && at_most_one_each(relations, name)
}

#[tactic(auto, unfolding(crate::specs::Where::is_free))]
fn is_free(relations: &[Relation], column: &Column) -> bool
    ensures { result ≡ is_free relations.now column.now }
{
    count_all(relations, column.name.as_str()) == 0
}

fn are_free(relations: &[Relation], columns: &[Column]) -> bool
    ensures { result ≡ list_all (is_free relations.now) (clustering_columns columns.now) }
{
    columns
        .iter()
        .filter(|c| c.kind.is_clustering())
        .all(|c| is_free(relations, c))
}

#[tactic(auto, unfolding(crate::specs::Where::makes_slice))]
fn makes_slice(relations: &[Relation], columns: &[Column]) -> bool
    ensures { result ≡ makes_slice relations.now (clustering_columns columns.now) }
{
    match columns {
        [] => true,
        [column, rest @ ..] => {
            if !column.kind.is_clustering() {
                return makes_slice(relations, rest);
            }
            if is_fixed(relations, column) {
                return makes_slice(relations, rest);
            }
            is_bounded(relations, column) && are_free(relations, rest)
        }
    }
}

/// Whether no clustering column is restricted.
#[tactic(auto, unfolding(crate::specs::Where::is_clustering_free))]
pub fn is_clustering_free(relations: &[Relation], columns: &[Column]) -> bool
    ensures { result ≡ is_clustering_free relations.now columns.now }
{
    are_free(relations, columns)
}

/// Whether each clustering column is restricted by one `=`.
#[tactic(auto, unfolding(crate::specs::Where::is_clustering_fixed))]
pub fn is_clustering_fixed(relations: &[Relation], columns: &[Column]) -> bool
    ensures { result ≡ is_clustering_fixed relations.now columns.now }
{
    columns
        .iter()
        .filter(|c| c.kind.is_clustering())
        .all(|c| is_fixed(relations, c))
}

fn partition_fixed(relations: &[Relation], columns: &[Column]) -> bool
    ensures { result ≡ list_all (is_fixed relations.now) (partition_columns columns.now) }
{
    columns
        .iter()
        .filter(|c| c.kind.is_partition())
        .all(|c| is_fixed(relations, c))
}

fn keys_alone(columns: &[Column], relations: &[Relation]) -> bool
    ensures { result ≡ list_all (λ r. names_key columns.now r.column) relations.now }
{
    relations
        .iter()
        .all(|r| names_key(columns, r.column.as_str()))
}

#[tactic(auto, unfolding(crate::specs::Where::is_of_one_partition))]
fn is_of_one_partition(columns: &[Column], relations: &[Relation]) -> bool
    ensures { result ≡ is_of_one_partition columns.now relations.now }
{
    keys_alone(columns, relations) && partition_fixed(relations, columns)
}

#[tactic(auto, unfolding(crate::specs::Where::picks_rows))]
fn picks_rows(extent: Extent, columns: &[Column], relations: &[Relation]) -> bool
    ensures { result ≡ picks_rows extent columns.now relations.now }
{
    match extent {
        Extent::StaticRow => is_clustering_free(relations, columns),
        Extent::Row => is_clustering_fixed(relations, columns),
        Extent::Slice => makes_slice(relations, columns),
    }
}

/// Whether the WHERE is one that a statement of that extent may have.
#[tactic(auto, unfolding(crate::specs::Where::restricts))]
pub fn restricts(extent: Extent, columns: &[Column], relations: &[Relation]) -> bool
    ensures { result ≡ restricts extent columns.now relations.now }
{
    is_of_one_partition(columns, relations) && picks_rows(extent, columns, relations)
}
