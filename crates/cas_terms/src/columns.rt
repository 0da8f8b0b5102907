//! Tables and columns, by name.

ghost use Rattle.std.specs.Prelude.{◌≡◌, ◌≤◌, ◌+◌, length, option_map};
ghost use Rattle.std.specs.Str.{bytes_eq};
ghost use Rattle.std.specs.List.{enumerate_from, find};
ghost use Rattle.std.specs.Option.{option_copied};
ghost use Rattle.cas_types.specs.Limits.{IsNarrow};
ghost use Rattle.cas_terms.specs.Columns.{is_local, table_named, column_named, is_unknown, names_static, names_partition, names_key};
ghost use Rattle.cas_terms.specs.Columns.{column_ref, located};

use crate::names::same_name;
use cas_atoms::ColumnRef;
use cas_types::{Column, TableSchema, Text};
use cql_parse::TableName;

/// The one keyspace.
const KEYSPACE: &str = "local";

#[tactic(auto, unfolding(crate::specs::Columns::is_local))]
pub fn is_local(keyspace: &Option<Text>) -> bool
    ensures { result ≡ is_local keyspace.now }
{
    match keyspace {
        Some(name) => same_name(name.as_str(), KEYSPACE),
        None => true,
    }
}

fn find_table<'a>(tables: &'a [TableSchema], name: &str) -> Option<&'a TableSchema>
    ensures { option_copied result ≡ find (λ t. bytes_eq t.name name.now) tables.now }
{
    tables.iter().find(|t| same_name(t.name.as_str(), name))
}

/// The table of that name.
#[tactic(auto, unfolding(crate::specs::Columns::table_named))]
pub fn table_named<'a>(tables: &'a [TableSchema], name: &TableName) -> Option<&'a TableSchema>
    ensures { option_copied result ≡ table_named tables.now name.now }
{
    if is_local(&name.keyspace) {
        find_table(tables, name.name.as_str())
    } else {
        None
    }
}

/// The column of that name.
#[tactic(auto, unfolding(crate::specs::Columns::column_named))]
pub fn column_named<'a>(columns: &'a [Column], name: &str) -> Option<&'a Column>
    ensures { option_copied result ≡ column_named columns.now name.now }
{
    columns.iter().find(|c| same_name(c.name.as_str(), name))
}

/// Whether no column has the name.
#[tactic(auto, unfolding(crate::specs::Columns::is_unknown))]
pub fn is_unknown(columns: &[Column], name: &str) -> bool
    ensures { result ≡ is_unknown columns.now name.now }
{
    column_named(columns, name).is_none()
}

/// Whether the name is that of a static column.
#[tactic(auto, unfolding(crate::specs::Columns::names_static))]
pub fn names_static(columns: &[Column], name: &str) -> bool
    ensures { result ≡ names_static columns.now name.now }
{
    match column_named(columns, name) {
        Some(column) => column.kind.is_static(),
        None => false,
    }
}

/// Whether the name is that of a column of the partition key.
#[tactic(auto, unfolding(crate::specs::Columns::names_partition))]
pub fn names_partition(columns: &[Column], name: &str) -> bool
    ensures { result ≡ names_partition columns.now name.now }
{
    match column_named(columns, name) {
        Some(column) => column.kind.is_partition(),
        None => false,
    }
}

/// Whether the name is that of a column of the primary key.
#[tactic(auto, unfolding(crate::specs::Columns::names_key))]
pub fn names_key(columns: &[Column], name: &str) -> bool
    ensures { result ≡ names_key columns.now name.now }
{
    match column_named(columns, name) {
        Some(column) => column.kind.is_key(),
        None => false,
    }
}

/// The column as atoms name it: its number and the type of its paths.
pub fn column_ref(number: u16, column: &Column) -> ColumnRef
    ensures { result ≡ column_ref number column.now }
{
    ColumnRef {
        number,
        path: column.path_type(),
    }
}

fn located_from<'a>(first: u16, columns: &'a [Column], name: &str) -> Option<(u16, &'a Column)>
    requires { first + length columns.now ≤ 65535 }
    ensures { option_map (λ p. (p.0, p.1.now)) result ≡ find (λ p. bytes_eq p.1.name name.now) (enumerate_from first columns.now) }
{
    let mut number = first;
    let mut rest = columns;
    while let [column, more @ ..] = rest {
        if same_name(column.name.as_str(), name) {
            return Some((number, column));
        }
        number += 1;
        rest = more;
    }
    None
}

/// The column of that name, with its number.
pub fn located<'a>(columns: &'a [Column], name: &str) -> Option<(u16, &'a Column)>
    requires { IsNarrow columns.now }
    ensures { option_map (λ p. (p.0, p.1.now)) result ≡ located columns.now name.now }
{
    located_from(0, columns, name)
}
