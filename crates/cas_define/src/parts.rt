//! What a CREATE TABLE says: its columns, its keys and its clustering order.

ghost use Rattle.std.specs.Prelude.{◌≡◌, ◌&&◌, [], ◌∷◌, map, IfOk};
ghost use Rattle.std.specs.Str.{bytes_eq};
ghost use Rattle.std.specs.List.{list_any};
ghost use Rattle.std.specs.Option.{option_copied};
ghost use Rattle.cas_define.specs.Schemas.{column_item, columns_defined, defined_named, key_item, keys_said, key_names, orders_descending};

use cas_terms::{push_some, same_name};
use cas_types::{List, Text};
use cql_parse::{ColumnOrder, DefinedColumn, Item, PrimaryKey, TableOption};
use std::alloc::{AllocError, Global};

#[tactic(auto, unfolding(crate::specs::Schemas::column_item))]
fn column_item(item: &Item) -> Result<Option<DefinedColumn>, AllocError>
    ensures { IfOk result (λ c. c ≡ column_item item.now) }
{
    match item {
        Item::Column(column) => Ok(Some(DefinedColumn {
            name: column.name.clone()?,
            column_type: column.column_type,
            is_static: column.is_static,
            is_key: column.is_key,
        })),
        Item::PrimaryKey(_) => Ok(None),
    }
}

/// The columns that the items define.
#[tactic(auto, unfolding(crate::specs::Schemas::columns_defined))]
pub(crate) fn columns_defined(
    alloc: Global,
    items: &[Item],
) -> Result<Vec<DefinedColumn>, AllocError>
    ensures { IfOk result (λ v. v.items ≡ columns_defined items.now) }
{
    let mut columns = Vec::new(alloc);
    for item in items {
        push_some(&mut columns, column_item(item)?)?;
    }
    Ok(columns)
}

/// The column that is defined by the name.
#[tactic(auto, unfolding(crate::specs::Schemas::defined_named))]
pub(crate) fn defined_named<'a>(
    columns: &'a [DefinedColumn],
    name: &str,
) -> Option<&'a DefinedColumn>
    ensures { option_copied result ≡ defined_named columns.now name.now }
{
    columns.iter().find(|c| same_name(c.name.as_str(), name))
}

fn sole_key(alloc: Global, name: &Text) -> Result<PrimaryKey, AllocError>
    ensures { IfOk result (λ k. k ≡ record { partition = name.now ∷ []; clustering = [] }) }
{
    let mut partition = Vec::new(alloc);
    partition.push(name.clone()?)?;
    Ok(PrimaryKey {
        partition: List::from_vec(partition),
        clustering: List::from_vec(Vec::new(alloc)),
    })
}

#[tactic(auto, unfolding(crate::specs::Schemas::key_item))]
fn key_item(alloc: Global, item: &Item) -> Result<Option<PrimaryKey>, AllocError>
    ensures { IfOk result (λ k. k ≡ key_item item.now) }
{
    match item {
        Item::Column(column) => {
            if column.is_key {
                Ok(Some(sole_key(alloc, &column.name)?))
            } else {
                Ok(None)
            }
        }
        Item::PrimaryKey(key) => Ok(Some(PrimaryKey {
            partition: key.partition.clone()?,
            clustering: key.clustering.clone()?,
        })),
    }
}

/// The keys that the items say.
#[tactic(auto, unfolding(crate::specs::Schemas::keys_said))]
pub(crate) fn keys_said(alloc: Global, items: &[Item]) -> Result<Vec<PrimaryKey>, AllocError>
    ensures { IfOk result (λ v. v.items ≡ keys_said items.now) }
{
    let mut keys = Vec::new(alloc);
    for item in items {
        push_some(&mut keys, key_item(alloc, item)?)?;
    }
    Ok(keys)
}

/// The columns of the key, in its order.
pub(crate) fn key_names(key: &PrimaryKey) -> Result<Vec<Text>, AllocError>
    ensures { IfOk result (λ v. v.items ≡ key_names key.now) }
{
    let mut names = key.partition.clone()?.into_vec();
    let mut clustering = key.clustering.clone()?.into_vec();
    names.append(&mut clustering)?;
    Ok(names)
}

fn has_descending(orders: &[ColumnOrder], name: &str) -> bool
    ensures { result ≡ list_any (λ o. bytes_eq o.name name.now && o.descending) orders.now }
{
    orders
        .iter()
        .any(|o| same_name(o.name.as_str(), name) && o.descending)
}

/// Whether it is a CLUSTERING ORDER BY that has the column with DESC.
#[tactic(auto, unfolding(crate::specs::Schemas::orders_descending))]
pub(crate) fn orders_descending(name: &str, option: &TableOption) -> bool
    ensures { result ≡ orders_descending name.now option.now }
{
    match option {
        TableOption::Named(_) => false,
        TableOption::ClusteringOrder(orders) => has_descending(orders.as_slice(), name),
    }
}
