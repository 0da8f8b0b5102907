//! What INSERT, UPDATE, DELETE and SELECT are refused for, what is too large aside.

ghost use Rattle.std.specs.Prelude.{◌≡◌, ◌||◌, None, is_some, IfOk};
ghost use Rattle.std.specs.List.{list_any};
ghost use Rattle.std.specs.Option.{option_copied};
ghost use Rattle.cas_effects.specs.Refusals.{refusal_for};
ghost use Rattle.cas_terms.specs.Columns.{names_key};
ghost use Rattle.cas_where.specs.Where.{restricts};
ghost use Rattle.cas_reasons.specs.Extents.{extent_of};
ghost use Rattle.cas_mentions.specs.ColumnFaults.{changes_twice, has_other_count};
ghost use Rattle.cas_mentions.specs.Mentions.{relations_of, changes_of};
ghost use Rattle.cas_reasons.specs.RowFaults.{uses_twice, gives_empty, gives_empty_key, is_row, lacks_key};
ghost use Rattle.cas_reasons.specs.RowFaults.{is_another, assigns_key_or_other, follows_no_order, reads_outside_limits, has_bad_restriction};
ghost use Rattle.cas_reasons.specs.RowReasons.{row_reasons};
ghost use Rattle.cas_reasons.specs.Statements.{uses_of};

use crate::extents::extent_of;
use crate::statements::{key_terms_of, other_name, uses_unknown};
use crate::using::{has_use_twice, is_outside, stated_timestamp, stated_ttl};
use cas_effects::{Reasons, Refusal};
use cas_mentions::{changes_twice, has_other_count, relations_of, uses_another_type};
use cas_terms::{names_key, same_name};
use cas_types::{Column, GREATEST_TIMESTAMP, LEAST_TIMESTAMP, ROW_LIMIT, TTL_LIMIT, TableSchema};
use cas_where::{
    Extent, compares_key_with_null, follows_order, is_given_empty, lacks_clustering,
    lacks_partition, restricts, restricts_to_empty, sole_column,
};
use cql_parse::{Assignment, ColumnOrder, Relation, Select, Statement, Target};
use std::alloc::{AllocError, Global};

#[tactic(auto, using(crate::proofs::Used::or_true_between))]
fn says_badly(alloc: Global, columns: &[Column], statement: &Statement) -> Result<bool, AllocError>
    ensures { IfOk result (λ b. b ≡ (changes_twice columns.now (changes_of statement.now)
        || (has_other_count statement.now || uses_twice (uses_of statement.now)))) }
{
    if has_other_count(statement) {
        return Ok(true);
    }
    let twice = changes_twice(alloc, columns, statement)?;
    Ok(twice || has_use_twice(statement))
}

#[tactic(auto, unfolding(crate::specs::RowFaults::gives_empty))]
fn gives_empty(statement: &Statement, column: &Column) -> bool
    ensures { result ≡ gives_empty statement.now column.now }
{
    match statement {
        Statement::Insert(_) => is_given_empty(key_terms_of(statement), column),
        Statement::Create(_)
        | Statement::Alter(_)
        | Statement::Update(_)
        | Statement::Delete(_)
        | Statement::Select(_) => restricts_to_empty(relations_of(statement), column),
    }
}

#[tactic(auto, unfolding(crate::specs::RowFaults::gives_empty_key))]
fn gives_empty_key(columns: &[Column], statement: &Statement) -> bool
    ensures { result ≡ gives_empty_key columns.now statement.now }
{
    match sole_column(columns) {
        Some(column) => gives_empty(statement, column),
        None => false,
    }
}

fn is_row(extent: Extent) -> bool
    ensures { result ≡ is_row extent }
{
    matches!(extent, Extent::Row)
}

#[tactic(auto, unfolding(crate::specs::RowFaults::lacks_key))]
fn lacks_key(columns: &[Column], statement: &Statement) -> bool
    ensures { result ≡ lacks_key columns.now statement.now }
{
    let terms = key_terms_of(statement);
    if lacks_partition(terms, columns) {
        return true;
    }
    if compares_key_with_null(columns, relations_of(statement)) {
        return true;
    }
    is_row(extent_of(columns, statement)) && lacks_clustering(terms, columns)
}

fn is_another(name: &str, other: Option<&str>) -> bool
    ensures { result ≡ is_another name.now (option_copied other.entry) }
{
    match other {
        Some(other) => !same_name(other, name),
        None => false,
    }
}

#[tactic(auto, unfolding(crate::specs::RowFaults::assigns_key_or_other))]
fn assigns_key_or_other(columns: &[Column], assignment: &Assignment) -> bool
    ensures { result ≡ assigns_key_or_other columns.now assignment.now }
{
    let name = assignment.column.as_str();
    names_key(columns, name) || is_another(name, other_name(&assignment.value))
}

fn any_assigns_key_or_other(columns: &[Column], assignments: &[Assignment]) -> bool
    ensures { result ≡ list_any (assigns_key_or_other columns.now) assignments.now }
{
    assignments.iter().any(|a| assigns_key_or_other(columns, a))
}

fn any_deletes_key(columns: &[Column], targets: &[Target]) -> bool
    ensures { result ≡ list_any (λ t. names_key columns.now t.column) targets.now }
{
    targets
        .iter()
        .any(|t| names_key(columns, t.column.as_str()))
}

#[tactic(auto, unfolding(crate::specs::RowFaults::follows_no_order))]
fn follows_no_order(columns: &[Column], order: &[ColumnOrder]) -> bool
    ensures { result ≡ follows_no_order columns.now order.now }
{
    !(follows_order(false, columns, order) || follows_order(true, columns, order))
}

fn is_paged(select: &Select) -> bool
    ensures { result ≡ (is_some select.now.after || is_some select.now.page) }
{
    select.after.is_some() || select.page.is_some()
}

#[tactic(auto, unfolding(crate::specs::RowFaults::reads_outside_limits))]
fn reads_outside_limits(columns: &[Column], select: &Select) -> bool
    ensures { result ≡ reads_outside_limits columns.now select.now }
{
    follows_no_order(columns, select.order.as_slice())
        || (is_outside(1, i128::from(ROW_LIMIT), select.limit) || is_paged(select))
}

fn restricts_rows(columns: &[Column], statement: &Statement, relations: &[Relation]) -> bool
    ensures { result ≡ restricts (extent_of columns.now statement.now) columns.now relations.now }
{
    restricts(extent_of(columns, statement), columns, relations)
}

#[tactic(auto, unfolding(crate::specs::RowFaults::has_bad_restriction))]
fn has_bad_restriction(columns: &[Column], statement: &Statement) -> bool
    ensures { result ≡ has_bad_restriction columns.now statement.now }
{
    match statement {
        Statement::Update(update) => {
            any_assigns_key_or_other(columns, update.assignments.as_slice())
                || !restricts_rows(columns, statement, update.relations.as_slice())
        }
        Statement::Delete(delete) => {
            any_deletes_key(columns, delete.targets.as_slice())
                || !restricts_rows(columns, statement, delete.relations.as_slice())
        }
        Statement::Select(select) => {
            !restricts(Extent::Slice, columns, select.relations.as_slice())
                || reads_outside_limits(columns, select)
        }
        Statement::Create(_) | Statement::Alter(_) | Statement::Insert(_) => false,
    }
}

/// What the statement is refused for.
#[tactic(auto, unfolding(crate::specs::RowReasons::row_reasons))]
fn row_reasons(
    alloc: Global,
    table: &TableSchema,
    statement: &Statement,
) -> Result<Reasons, AllocError>
    ensures { IfOk result (λ r. r ≡ row_reasons table.now None statement.now) }
{
    let columns = table.columns.as_slice();
    let timestamp = stated_timestamp(statement);
    Ok(Reasons {
        no_table: false,
        table_exists: false,
        bad_definition: says_badly(alloc, columns, statement)?,
        no_column: uses_unknown(columns, statement),
        bad_option: is_outside(
            i128::from(LEAST_TIMESTAMP),
            i128::from(GREATEST_TIMESTAMP),
            timestamp,
        ),
        wrong_type: uses_another_type(columns, statement),
        empty_key: gives_empty_key(columns, statement),
        missing_key: lacks_key(columns, statement),
        bad_restriction: has_bad_restriction(columns, statement),
        ttl_too_large: is_outside(0, i128::from(TTL_LIMIT), stated_ttl(statement)),
        too_large: None,
        too_many: None,
    })
}

/// Why the statement is refused, what is too large aside.
pub fn row_refusal(
    alloc: Global,
    table: &TableSchema,
    statement: &Statement,
) -> Result<Option<Refusal>, AllocError>
    ensures { IfOk result (λ r. r ≡ refusal_for (row_reasons table.now None statement.now)) }
{
    Ok(row_reasons(alloc, table, statement)?.refusal())
}
