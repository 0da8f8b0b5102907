//! The table files that `\status` lists, in their order.

ghost use Rattle.std.specs.Prelude.{◌≡◌, IfOk, OnOk};
ghost use Rattle.std.specs.Ordering.{nat_cmp};
ghost use Rattle.cas_types.specs.Values.{bytes_cmp};
ghost use Rattle.cas_render.specs.Listing.{in_order, listed_cmp, listed_of};

use crate::reply::Listed;
use cas_types::{List, Mem, TableSchema, compare_bytes};
use std::alloc::AllocError;
use std::cmp::Ordering;

fn sort_numbers(numbers: &mut Vec<u64>) -> Result<(), AllocError>
    ensures { OnOk result (numbers.new.items ≡ in_order nat_cmp numbers.old.items) }
{
    numbers.sort()
}

/// What is listed of a table in a shard where its files have these numbers.
pub fn listed_of(table: &TableSchema, shard: u8, mut numbers: Vec<u64>) -> Result<Listed, Mem>
    ensures { IfOk result (λ l. l ≡ listed_of table.now shard numbers.items) }
{
    sort_numbers(&mut numbers)?;
    Ok(Listed {
        table: table.name.clone()?,
        shard,
        files: List::from_vec(numbers),
    })
}

fn cmp_names(a: &Listed, b: &Listed) -> Ordering
    ensures { result ≡ bytes_cmp a.now.table b.now.table }
{
    compare_bytes(a.table.as_str().as_bytes(), b.table.as_str().as_bytes())
}

fn cmp_listed(a: &Listed, b: &Listed) -> Ordering
    ensures { result ≡ listed_cmp a.now b.now }
{
    let names = cmp_names(a, b);
    let files = a.files.as_slice().cmp(b.files.as_slice());
    names.then(a.shard.cmp(&b.shard).then(files))
}

fn sort(listed: &mut Vec<Listed>) -> Result<(), AllocError>
    ensures { OnOk result (listed.new.items ≡ in_order listed_cmp listed.old.items) }
{
    listed.sort_by(|a, b| cmp_listed(a, b))
}

/// The same by the tables' names and then by shard. It takes n log n steps for n of them.
pub fn in_order(mut listed: Vec<Listed>) -> Result<List<Listed>, Mem>
    ensures { IfOk result (λ l. l ≡ in_order listed_cmp listed.items) }
{
    sort(&mut listed)?;
    Ok(List::from_vec(listed))
}
