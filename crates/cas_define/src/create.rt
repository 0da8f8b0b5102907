//! What a CREATE TABLE comes to.

ghost use Rattle.std.specs.Prelude.{◌≡◌, ◌≤◌, ◌==◌, ◌&&◌, filter, map, length, IfOk};
ghost use Rattle.std.specs.Str.{bytes_eq};
ghost use Rattle.std.specs.List.{list_all, list_any, zip};
ghost use Rattle.cas_types.specs.Limits.{IsNarrow};
ghost use Rattle.cas_define.specs.Schemas.{columns_defined, columns_of};
ghost use Rattle.cas_define.specs.Limits.{has_name_length};
ghost use Rattle.cas_define.specs.CreateTests.{may_be_key, order_fits, is_order, orders_fit, statics_fit, key_fits_table, one_key_fits};
ghost use Rattle.cas_define.specs.CreateTests.{names_defined, option_name, option_names, create_is_malformed};
ghost use Rattle.cas_define.specs.CreateReasons.{create_reasons, create_means};
ghost use Rattle.cas_define.specs.IsTable.{IsTable};
ghost use Rattle.cas_define.specs.Outcomes.{Binds};

use crate::limits::{has_name_length, is_table_name, too_many_columns, too_many_tables};
use crate::parts::{columns_defined, defined_named, key_names, keys_said};
use crate::schemas::{columns_of, schema_of, shape_of};
use cas_effects::{BindFault, Reasons, either};
use cas_options::options_fit;
use cas_terms::{is_local, push_some, same_name, stands_twice};
use cas_types::{TableSchema, Text};
use cql_parse::{ColumnOrder, CreateTable, DefinedColumn, PrimaryKey, TableOption};
use std::alloc::{AllocError, Global};

#[tactic(auto, unfolding(crate::specs::CreateTests::may_be_key))]
fn may_be_key(columns: &[DefinedColumn], name: &str) -> bool
    ensures { result ≡ may_be_key columns.now name.now }
{
    match defined_named(columns, name) {
        Some(column) => shape_of(column.column_type).is_plain() && !column.is_static,
        None => false,
    }
}

fn all_may_be_key(columns: &[DefinedColumn], names: &[Text]) -> bool
    ensures { result ≡ list_all (may_be_key columns.now) names.now }
{
    names.iter().all(|n| may_be_key(columns, n.as_str()))
}

fn all_same_names(orders: &[ColumnOrder], names: &[Text]) -> bool
    ensures { result ≡ list_all (λ p. bytes_eq p.0.name p.1) (zip orders.now names.now) }
{
    orders
        .iter()
        .zip(names.iter())
        .all(|(o, n)| same_name(o.name.as_str(), n.as_str()))
}

#[tactic(auto, unfolding(crate::specs::CreateTests::order_fits))]
fn order_fits(names: &[Text], option: &TableOption) -> bool
    ensures { result ≡ order_fits names.now option.now }
{
    match option {
        TableOption::Named(_) => true,
        TableOption::ClusteringOrder(orders) => {
            orders.len() == names.len() && all_same_names(orders.as_slice(), names)
        }
    }
}

fn all_orders_fit(names: &[Text], options: &[TableOption]) -> bool
    ensures { result ≡ list_all (order_fits names.now) options.now }
{
    options.iter().all(|o| order_fits(names, o))
}

#[tactic(auto, unfolding(crate::specs::CreateTests::is_order))]
fn is_order(option: &TableOption) -> bool
    ensures { result ≡ is_order option.now }
{
    matches!(option, TableOption::ClusteringOrder(_))
}

fn order_count(options: &[TableOption]) -> usize
    ensures count { result ≡ length (filter is_order options.now) }
    ensures bound { result ≤ length options.now }
{
    match options {
        [] => 0,
        [option, others @ ..] => {
            let count = order_count(others);
            if is_order(option) { count + 1 } else { count }
        }
    }
}

#[tactic(auto, unfolding(crate::specs::CreateTests::orders_fit))]
fn orders_fit(names: &[Text], options: &[TableOption]) -> bool
    ensures { result ≡ orders_fit names.now options.now }
{
    all_orders_fit(names, options) && order_count(options) <= 1
}

fn has_static(columns: &[DefinedColumn]) -> bool
    ensures { result ≡ list_any (λ d. d.is_static) columns.now }
{
    columns.iter().any(|c| c.is_static)
}

#[tactic(auto, unfolding(crate::specs::CreateTests::statics_fit))]
fn statics_fit(names: &[Text], columns: &[DefinedColumn]) -> bool
    ensures { result ≡ statics_fit names.now columns.now }
{
    0 < names.len() || !has_static(columns)
}

#[tactic(auto, unfolding(crate::specs::CreateTests::key_fits_table))]
fn key_fits_table(
    create: &CreateTable,
    columns: &[DefinedColumn],
    key: &PrimaryKey,
) -> Result<bool, AllocError>
    requires { columns.now ≡ columns_defined create.now.items }
    ensures { IfOk result (λ b. b ≡ key_fits_table create.now key.now) }
{
    let names = key_names(key)?;
    let may_be = all_may_be_key(columns, &names);
    let is_twice = stands_twice(names)?;
    let clustering = key.clustering.as_slice();
    let options = create.options.as_slice();
    Ok(
        0 < key.partition.as_slice().len()
            && (may_be
                && (!is_twice
                    && (orders_fit(clustering, options) && statics_fit(clustering, columns)))),
    )
}

#[tactic(auto, unfolding(crate::specs::CreateTests::one_key_fits))]
fn one_key_fits(
    create: &CreateTable,
    columns: &[DefinedColumn],
    keys: &[PrimaryKey],
) -> Result<bool, AllocError>
    requires { columns.now ≡ columns_defined create.now.items }
    ensures { IfOk result (λ b. b ≡ one_key_fits create.now keys.now) }
{
    match keys {
        [] => Ok(false),
        [key] => key_fits_table(create, columns, key),
        [_first, _second, _rest @ ..] => Ok(false),
    }
}

fn names_defined(alloc: Global, columns: &[DefinedColumn]) -> Result<Vec<Text>, AllocError>
    ensures { IfOk result (λ v. v.items ≡ names_defined columns.now) }
{
    let mut names = Vec::new(alloc);
    for column in columns {
        names.push(column.name.clone()?)?;
    }
    Ok(names)
}

#[tactic(auto, unfolding(crate::specs::CreateTests::option_name))]
fn option_name(option: &TableOption) -> Result<Option<Text>, AllocError>
    ensures { IfOk result (λ n. n ≡ option_name option.now) }
{
    match option {
        TableOption::Named(option) => Ok(Some(option.name.clone()?)),
        TableOption::ClusteringOrder(_) => Ok(None),
    }
}

#[tactic(auto, unfolding(crate::specs::CreateTests::option_names))]
fn option_names(alloc: Global, options: &[TableOption]) -> Result<Vec<Text>, AllocError>
    ensures { IfOk result (λ v. v.items ≡ option_names options.now) }
{
    let mut names = Vec::new(alloc);
    for option in options {
        push_some(&mut names, option_name(option)?)?;
    }
    Ok(names)
}

fn have_name_length(names: &[Text]) -> bool
    ensures { result ≡ list_all has_name_length names.now }
{
    names.iter().all(|n| has_name_length(n.as_str()))
}

#[tactic(auto, unfolding(crate::specs::CreateTests::create_is_malformed))]
fn create_is_malformed(alloc: Global, create: &CreateTable) -> Result<bool, AllocError>
    ensures { IfOk result (λ b. b ≡ create_is_malformed create.now) }
{
    let columns = columns_defined(alloc, create.items.as_slice())?;
    let keys = keys_said(alloc, create.items.as_slice())?;
    let key_fits = one_key_fits(create, &columns, &keys)?;
    let names = names_defined(alloc, &columns)?;
    let have_length = have_name_length(&names);
    let is_twice = stands_twice(names)?;
    let option_twice = stands_twice(option_names(alloc, create.options.as_slice())?)?;
    Ok(
        !key_fits
            || (is_twice
                || (option_twice || (!is_table_name(create.table.name.as_str()) || !have_length))),
    )
}

fn table_exists(tables: &[TableSchema], name: &Text) -> bool
    ensures { result ≡ list_any (λ t. bytes_eq t.name name.now) tables.now }
{
    tables
        .iter()
        .any(|t| same_name(t.name.as_str(), name.as_str()))
}

#[tactic(auto, unfolding(crate::specs::CreateReasons::create_reasons))]
fn create_reasons(
    alloc: Global,
    tables: &[TableSchema],
    create: &CreateTable,
    columns: usize,
) -> Result<Reasons, AllocError>
    requires { columns ≡ length (columns_of create.now) }
    ensures { IfOk result (λ r. r ≡ create_reasons tables.now create.now) }
{
    Ok(Reasons {
        no_table: !is_local(&create.table.keyspace),
        table_exists: table_exists(tables, &create.table.name),
        bad_definition: create_is_malformed(alloc, create)?,
        no_column: false,
        bad_option: !options_fit(create.options.as_slice()),
        wrong_type: false,
        empty_key: false,
        missing_key: false,
        bad_restriction: false,
        ttl_too_large: false,
        too_large: None,
        too_many: either(too_many_tables(tables.len()), too_many_columns(columns)),
    })
}

/// The table that the CREATE TABLE makes, or why it is refused. The table stands at its number, it has
/// no more columns than a table may have, and it is as every table is.
#[tactic(auto, unfolding(crate::specs::CreateReasons::create_means), using(crate::proofs::Reasoning::few_tables, crate::proofs::Reasoning::few_columns))]
pub fn bind_create(
    alloc: Global,
    tables: &[TableSchema],
    create: &CreateTable,
) -> Result<TableSchema, BindFault>
    ensures means { Binds result (create_means tables.now create.now) }
    ensures narrow { IfOk result (λ t. IsNarrow t.columns) }
    ensures numbered { IfOk result (λ t. t.number ≡ length tables.now) }
    ensures table { IfOk result (λ t. IsTable t) }
{
    let columns = columns_of(alloc, create)?;
    let reasons = create_reasons(alloc, tables, create, columns.len())?;
    match reasons.refusal() {
        Some(refusal) => Err(BindFault::Refused(refusal)),
        None => Ok(schema_of(tables, create, columns)?),
    }
}
