//! Whether a statement is of the static row, of one row or of a slice of rows.

ghost use Rattle.std.specs.Prelude.{◌≡◌, ◌&&◌, true, if◌then◌else◌};
ghost use Rattle.std.specs.List.{list_all, list_any};
ghost use Rattle.cas_types.specs.Schemas.{is_static};
ghost use Rattle.cas_terms.specs.Columns.{names_static, names_partition};
ghost use Rattle.cas_reasons.specs.Extents.{inserts_static, static_or_row, deletes_in, extent_of};

use cas_terms::{names_partition, names_static};
use cas_types::{Column, Text};
use cas_where::Extent;
use cql_parse::{Assignment, Statement, Target};

fn any_static(columns: &[Column], names: &[Text]) -> bool
    ensures { result ≡ list_any (names_static columns.now) names.now }
{
    names.iter().any(|n| names_static(columns, n.as_str()))
}

fn has_static(columns: &[Column]) -> bool
    ensures { result ≡ list_any (λ c. is_static c.kind) columns.now }
{
    columns.iter().any(|c| c.kind.is_static())
}

fn partition_or_static(columns: &[Column], name: &str) -> bool
    ensures { result ≡ (if names_partition columns.now name.now then true else names_static columns.now name.now) }
{
    if names_partition(columns, name) {
        true
    } else {
        names_static(columns, name)
    }
}

fn all_static(columns: &[Column], names: &[Text]) -> bool
    ensures { result ≡ list_all (λ n. if names_partition columns.now n then true else names_static columns.now n) names.now }
{
    names
        .iter()
        .all(|n| partition_or_static(columns, n.as_str()))
}

/// Whether an INSERT that names these columns is one of the static row.
#[tactic(auto, using(crate::proofs::StaticNames::no_static_row), unfolding(crate::specs::Extents::inserts_static))]
pub fn inserts_static(columns: &[Column], names: &[Text]) -> bool
    ensures { result ≡ inserts_static columns.now names.now }
{
    if has_static(columns) {
        any_static(columns, names) && all_static(columns, names)
    } else {
        false
    }
}

fn static_or_row(is_static: bool) -> Extent
    ensures { result ≡ static_or_row is_static }
{
    if is_static {
        Extent::StaticRow
    } else {
        Extent::Row
    }
}

fn assigns_static(columns: &[Column], assignments: &[Assignment]) -> bool
    ensures { result ≡ list_all (λ a. names_static columns.now a.column) assignments.now }
{
    assignments
        .iter()
        .all(|a| names_static(columns, a.column.as_str()))
}

fn deletes_static(columns: &[Column], targets: &[Target]) -> bool
    ensures { result ≡ list_all (λ t. names_static columns.now t.column) targets.now }
{
    targets
        .iter()
        .all(|t| names_static(columns, t.column.as_str()))
}

fn deletes_in(columns: &[Column], targets: &[Target]) -> Extent
    ensures { result ≡ deletes_in columns.now targets.now }
{
    match targets {
        [] => Extent::Slice,
        [_target, _more @ ..] => static_or_row(deletes_static(columns, targets)),
    }
}

/// What the statement is of.
#[tactic(auto, unfolding(crate::specs::Extents::extent_of))]
pub(crate) fn extent_of(columns: &[Column], statement: &Statement) -> Extent
    ensures { result ≡ extent_of columns.now statement.now }
{
    match statement {
        Statement::Insert(insert) => {
            static_or_row(inserts_static(columns, insert.columns.as_slice()))
        }
        Statement::Update(update) => {
            static_or_row(assigns_static(columns, update.assignments.as_slice()))
        }
        Statement::Delete(delete) => deletes_in(columns, delete.targets.as_slice()),
        Statement::Create(_) | Statement::Alter(_) | Statement::Select(_) => Extent::Slice,
    }
}
