//! What an ALTER TABLE ADD comes to.

ghost use Rattle.std.specs.Prelude.{◌≡◌, ◌+◌, ◌++◌, map, length, IfOk};
ghost use Rattle.std.specs.List.{list_all, list_any};
ghost use Rattle.cas_types.specs.Limits.{IsNarrow};
ghost use Rattle.cas_terms.specs.Columns.{clustering_columns};
ghost use Rattle.cas_define.specs.AlterReasons.{is_new_name, alter_is_malformed, alter_reasons, alter_means};
ghost use Rattle.cas_define.specs.IsTable.{IsTable};
ghost use Rattle.cas_define.specs.Limits.{too_many_columns};
ghost use Rattle.cas_define.specs.Outcomes.{Binds};

use crate::addition::Addition;
use crate::limits::{has_name_length, too_many_columns};
use crate::schemas::addition_of;
use cas_effects::{BindFault, Reasons, Refusal};
use cas_terms::{is_unknown, stands_twice};
use cas_types::{Column, TableSchema, Text};
use cql_parse::{AddedColumn, AlterTable};
use std::alloc::{AllocError, Global};

fn names_added(alloc: Global, added: &[AddedColumn]) -> Result<Vec<Text>, AllocError>
    ensures { IfOk result (λ v. v.items ≡ map (λ c. c.name) added.now) }
{
    let mut names = Vec::new(alloc);
    for column in added {
        names.push(column.name.clone()?)?;
    }
    Ok(names)
}

#[tactic(auto, unfolding(crate::specs::AlterReasons::is_new_name))]
fn is_new_name(columns: &[Column], name: &str) -> bool
    ensures { result ≡ is_new_name columns.now name.now }
{
    is_unknown(columns, name) && has_name_length(name)
}

fn are_new(columns: &[Column], added: &[AddedColumn]) -> bool
    ensures { result ≡ list_all (λ c. is_new_name columns.now c.name) added.now }
{
    added.iter().all(|c| is_new_name(columns, c.name.as_str()))
}

fn adds_static(added: &[AddedColumn]) -> bool
    ensures { result ≡ list_any (λ c. c.is_static) added.now }
{
    added.iter().any(|c| c.is_static)
}

fn clustering_count(columns: &[Column]) -> usize
    ensures { result ≡ length (clustering_columns columns.now) }
{
    columns.iter().filter(|c| c.kind.is_clustering()).count()
}

#[tactic(auto, unfolding(crate::specs::AlterReasons::alter_is_malformed))]
fn alter_is_malformed(
    alloc: Global,
    table: &TableSchema,
    alter: &AlterTable,
) -> Result<bool, AllocError>
    ensures { IfOk result (λ b. b ≡ alter_is_malformed table.now alter.now) }
{
    let columns = table.columns.as_slice();
    let added = alter.added.as_slice();
    let is_twice = stands_twice(names_added(alloc, added)?)?;
    Ok(
        is_twice
            || (!are_new(columns, added) || (adds_static(added) && clustering_count(columns) == 0)),
    )
}

#[tactic(auto, unfolding(crate::specs::Limits::too_many_columns))]
fn too_many_together(columns: usize, added: usize) -> Option<Refusal>
    ensures { result ≡ too_many_columns (columns + added) }
{
    too_many_columns(columns.saturating_add(added))
}

#[tactic(auto, unfolding(crate::specs::AlterReasons::alter_reasons))]
fn alter_reasons(
    alloc: Global,
    table: &TableSchema,
    alter: &AlterTable,
) -> Result<Reasons, AllocError>
    ensures { IfOk result (λ r. r ≡ alter_reasons table.now alter.now) }
{
    Ok(Reasons {
        no_table: false,
        table_exists: false,
        bad_definition: alter_is_malformed(alloc, table, alter)?,
        no_column: false,
        bad_option: false,
        wrong_type: false,
        empty_key: false,
        missing_key: false,
        bad_restriction: false,
        ttl_too_large: false,
        too_large: None,
        too_many: too_many_together(table.columns.len(), alter.added.len()),
    })
}

/// What the ALTER TABLE adds to the table, or why it is refused. With it the table has no more columns
/// than a table may have, and it is again as every table is.
#[tactic(auto, unfolding(crate::specs::AlterReasons::alter_means, crate::specs::Schemas::addition_of), using(crate::proofs::Reasoning::few_together))]
pub fn bind_alter(
    alloc: Global,
    table: &TableSchema,
    alter: &AlterTable,
) -> Result<Addition, BindFault>
    ensures means { Binds result (alter_means table.now alter.now) }
    ensures narrow { IfOk result (λ a. IsNarrow (table.now.columns ++ a.columns)) }
    ensures numbered { IfOk result (λ a. a.table ≡ table.now.number) }
    ensures table { IfOk result (λ a. IsTable table.now → IsTable (record table.now { columns = table.now.columns ++ a.columns })) }
{
    let reasons = alter_reasons(alloc, table, alter)?;
    match reasons.refusal() {
        Some(refusal) => Err(BindFault::Refused(refusal)),
        None => Ok(addition_of(alloc, table, alter)?),
    }
}
