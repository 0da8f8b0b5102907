//! What a manifest says of all tables in all shards, collected into one list.

ghost use Rattle.std.specs.Prelude.{◌≡◌, ◌++◌, length, OnOk, IfOk};
ghost use Rattle.cas_changes.specs.Saying.{IsSaid};
ghost use Rattle.cas_opening.specs.Inner.Counting.{numbers_of, frontiers_in, frontiers_below, listed_in, listed_below};

use cas_changes::Said;
use cas_info::TableInfo;
use cas_types::Mem;
use std::alloc::Global;

// Adds the frontiers of a table in each shard.
fn add_frontiers(out: &mut Vec<u64>, said: &Said, table: u16) -> Result<(), Mem>
    ensures { OnOk result (out.new.items ≡ out.old.items ++ frontiers_in said.now table said.now.shards) }
{
    for shard in 0..said.shards() {
        out.push(said.frontier(table, shard))?;
    }
    Ok(())
}

/// The frontiers of all tables in all shards, table by table.
pub(crate) fn frontiers(alloc: Global, said: &Said) -> Result<Vec<u64>, Mem>
    requires { IsSaid said.now }
    ensures { IfOk result (λ v. v.items ≡ frontiers_below said.now (length said.now.tables)) }
{
    let mut out = Vec::new(alloc);
    for table in 0..said.tables().len() as u16 {
        add_frontiers(&mut out, said, table)?;
    }
    Ok(out)
}

// Adds the numbers of files.
fn add_numbers(out: &mut Vec<u64>, infos: &[TableInfo]) -> Result<(), Mem>
    ensures { OnOk result (out.new.items ≡ out.old.items ++ numbers_of infos.now) }
{
    for info in infos {
        out.push(info.number)?;
    }
    Ok(())
}

// Adds the numbers of the listed files of a table in each shard.
fn add_listed(out: &mut Vec<u64>, said: &Said, table: u16) -> Result<(), Mem>
    ensures { OnOk result (out.new.items ≡ out.old.items ++ listed_in said.now table said.now.shards) }
{
    for shard in 0..said.shards() {
        add_numbers(out, said.listed(table, shard))?;
    }
    Ok(())
}

/// The numbers of all listed table files.
pub(crate) fn listed_tables(alloc: Global, said: &Said) -> Result<Vec<u64>, Mem>
    requires { IsSaid said.now }
    ensures { IfOk result (λ v. v.items ≡ listed_below said.now (length said.now.tables)) }
{
    let mut out = Vec::new(alloc);
    for table in 0..said.tables().len() as u16 {
        add_listed(&mut out, said, table)?;
    }
    Ok(out)
}
