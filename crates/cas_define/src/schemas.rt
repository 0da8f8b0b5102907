//! The table that a CREATE TABLE makes, and the columns that an ALTER TABLE adds.

ghost use Rattle.std.specs.Prelude.{◌≡◌, ◌<◌, ◌≤◌, ◌^◌, ◌++◌, length, map, slice_get, IfOk};
ghost use Rattle.std.specs.Str.{bytes_eq};
ghost use Rattle.std.specs.List.{filter_map, list_any};
ghost use Rattle.std.specs.Option.{option_map_or};
ghost use Rattle.cas_types.specs.declared.limits.TheConstants.{TTL_LIMIT};
ghost use Rattle.cas_define.specs.Schemas.{shape_of, first_type, second_type, column_of, columns_defined, orders_descending, other_kind, key_kind, key_column};
ghost use Rattle.cas_define.specs.Schemas.{key_names, other_column, columns_with, columns_of, schema_of, added_column, addition_of};

use crate::addition::Addition;
use crate::parts::{columns_defined, defined_named, key_names, keys_said, orders_descending};
use cas_options::options_of;
use cas_terms::{has_name, push_some};
use cas_types::{Column, Kind, List, Shape, TableSchema, Text, TypeTag};
use cql_parse::{
    AddedColumn, AlterTable, ColumnType, CreateTable, DefinedColumn, PrimaryKey, TableOption,
};
use std::alloc::{AllocError, Global};

#[tactic(auto, unfolding(crate::specs::Schemas::shape_of))]
pub(crate) fn shape_of(column_type: ColumnType) -> Shape
    ensures { result ≡ shape_of column_type }
{
    match column_type {
        ColumnType::One(_) => Shape::One,
        ColumnType::SetOf(_) => Shape::Set,
        ColumnType::ListOf(_) => Shape::List,
        ColumnType::MapOf(_, _) => Shape::Map,
    }
}

#[tactic(auto, unfolding(crate::specs::Schemas::first_type))]
fn first_type(column_type: ColumnType) -> TypeTag
    ensures { result ≡ first_type column_type }
{
    match column_type {
        ColumnType::One(tag) | ColumnType::SetOf(tag) | ColumnType::ListOf(tag) => tag,
        ColumnType::MapOf(key, _) => key,
    }
}

#[tactic(auto, unfolding(crate::specs::Schemas::second_type))]
fn second_type(column_type: ColumnType) -> Option<TypeTag>
    ensures { result ≡ second_type column_type }
{
    match column_type {
        ColumnType::MapOf(_, value) => Some(value),
        _ => None,
    }
}

fn column_of(kind: Kind, name: &Text, column_type: ColumnType) -> Result<Column, AllocError>
    ensures { IfOk result (λ c. c ≡ column_of kind name.now column_type) }
{
    Ok(Column {
        name: name.clone()?,
        kind,
        shape: shape_of(column_type),
        tag: first_type(column_type),
        second: second_type(column_type),
    })
}

#[tactic(auto, unfolding(crate::specs::Schemas::other_kind))]
fn other_kind(is_static: bool) -> Kind
    ensures { result ≡ other_kind is_static }
{
    if is_static {
        Kind::Static
    } else {
        Kind::Regular
    }
}

fn is_descending(options: &[TableOption], name: &str) -> bool
    ensures { result ≡ list_any (orders_descending name.now) options.now }
{
    options.iter().any(|o| orders_descending(name, o))
}

#[tactic(auto, unfolding(crate::specs::Schemas::key_kind))]
fn key_kind(options: &[TableOption], key: &PrimaryKey, name: &str) -> Kind
    ensures { result ≡ key_kind options.now key.now name.now }
{
    if has_name(key.partition.as_slice(), name) {
        Kind::Partition
    } else if is_descending(options, name) {
        Kind::Descending
    } else {
        Kind::Ascending
    }
}

#[tactic(auto, unfolding(crate::specs::Schemas::key_column))]
fn key_column(
    options: &[TableOption],
    columns: &[DefinedColumn],
    key: &PrimaryKey,
    name: &Text,
) -> Result<Option<Column>, AllocError>
    ensures { IfOk result (λ c. c ≡ key_column options.now columns.now key.now name.now) }
{
    let kind = key_kind(options, key, name.as_str());
    match defined_named(columns, name.as_str()) {
        Some(d) => Ok(Some(column_of(kind, &d.name, d.column_type)?)),
        None => Ok(None),
    }
}

#[tactic(auto, unfolding(crate::specs::Schemas::other_column))]
fn other_column(
    key: &PrimaryKey,
    names: &[Text],
    column: &DefinedColumn,
) -> Result<Option<Column>, AllocError>
    requires { names.now ≡ key_names key.now }
    ensures { IfOk result (λ c. c ≡ other_column key.now column.now) }
{
    if has_name(names, column.name.as_str()) {
        Ok(None)
    } else {
        let kind = other_kind(column.is_static);
        Ok(Some(column_of(kind, &column.name, column.column_type)?))
    }
}

fn key_columns(
    alloc: Global,
    options: &[TableOption],
    columns: &[DefinedColumn],
    key: &PrimaryKey,
    names: &[Text],
) -> Result<Vec<Column>, AllocError>
    ensures { IfOk result (λ v. v.items ≡ filter_map (key_column options.now columns.now key.now) names.now) }
{
    let mut found = Vec::new(alloc);
    for name in names {
        push_some(&mut found, key_column(options, columns, key, name)?)?;
    }
    Ok(found)
}

fn other_columns(
    alloc: Global,
    columns: &[DefinedColumn],
    key: &PrimaryKey,
    names: &[Text],
) -> Result<Vec<Column>, AllocError>
    requires { names.now ≡ key_names key.now }
    ensures { IfOk result (λ v. v.items ≡ filter_map (other_column key.now) columns.now) }
{
    let mut others = Vec::new(alloc);
    for column in columns {
        push_some(&mut others, other_column(key, names, column)?)?;
    }
    Ok(others)
}

#[tactic(auto, unfolding(crate::specs::Schemas::columns_with))]
fn columns_with(
    alloc: Global,
    options: &[TableOption],
    columns: &[DefinedColumn],
    key: &PrimaryKey,
) -> Result<Vec<Column>, AllocError>
    ensures { IfOk result (λ v. v.items ≡ columns_with options.now columns.now key.now) }
{
    let names = key_names(key)?;
    let mut all = key_columns(alloc, options, columns, key, &names)?;
    let mut others = other_columns(alloc, columns, key, &names)?;
    all.append(&mut others)?;
    Ok(all)
}

/// The columns of the table that a CREATE TABLE makes.
#[tactic(auto, unfolding(crate::specs::Schemas::columns_of))]
pub(crate) fn columns_of(alloc: Global, create: &CreateTable) -> Result<Vec<Column>, AllocError>
    ensures { IfOk result (λ v. v.items ≡ columns_of create.now) }
{
    let keys = keys_said(alloc, create.items.as_slice())?;
    let columns = columns_defined(alloc, create.items.as_slice())?;
    match keys.first() {
        Some(key) => columns_with(alloc, create.options.as_slice(), &columns, key),
        None => Ok(Vec::new(alloc)),
    }
}

/// The table that a CREATE TABLE makes, with its columns.
#[tactic(auto, unfolding(crate::specs::Schemas::schema_of))]
pub(crate) fn schema_of(
    tables: &[TableSchema],
    create: &CreateTable,
    columns: Vec<Column>,
) -> Result<TableSchema, AllocError>
    requires few { length tables.now < 2 ^ 16 }
    requires columns { columns.items ≡ columns_of create.now }
    ensures made { IfOk result (λ t. t ≡ schema_of tables.now create.now) }
    ensures numbered { IfOk result (λ t. t.number ≡ length tables.now) }
    ensures columns { IfOk result (λ t. t.columns ≡ columns_of create.now) }
    ensures lives { IfOk result (λ t. t.options.default_time_to_live ≤ TTL_LIMIT) }
{
    Ok(TableSchema {
        number: tables.len() as u16,
        name: create.table.name.clone()?,
        columns: List::from_vec(columns),
        options: options_of(create.options.as_slice()),
    })
}

// ---- ALTER TABLE ADD

#[tactic(auto, unfolding(crate::specs::Schemas::added_column))]
fn added_column(added: &AddedColumn) -> Result<Column, AllocError>
    ensures { IfOk result (λ c. c ≡ added_column added.now) }
{
    column_of(other_kind(added.is_static), &added.name, added.column_type)
}

fn added_columns(alloc: Global, added: &[AddedColumn]) -> Result<Vec<Column>, AllocError>
    ensures { IfOk result (λ v. v.items ≡ map added_column added.now) }
{
    let mut columns = Vec::new(alloc);
    for column in added {
        columns.push(added_column(column)?)?;
    }
    Ok(columns)
}

/// What an ALTER TABLE adds to the table.
#[tactic(auto, unfolding(crate::specs::Schemas::addition_of))]
pub(crate) fn addition_of(
    alloc: Global,
    table: &TableSchema,
    alter: &AlterTable,
) -> Result<Addition, AllocError>
    ensures { IfOk result (λ a. a ≡ addition_of table.now alter.now) }
{
    Ok(Addition {
        table: table.number,
        columns: List::from_vec(added_columns(alloc, alter.added.as_slice())?),
    })
}
