//! What `\status` lists of a store without files.

ghost use Rattle.std.specs.Prelude.{◌≡◌, ◌++◌, IfOk, OnOk};
ghost use Rattle.cas_render.specs.Listing.{in_shards, status_of};
ghost use Rattle.cas_reference.specs.Replies.{no_files};

use cas_render::{Listed, in_order, listed_of};
use cas_types::{List, Mem, TableSchema};
use std::alloc::Global;

// A table in each of so many shards.
fn list_table(
    alloc: Global,
    listed: &mut Vec<Listed>,
    table: &TableSchema,
    shards: u8,
) -> Result<(), Mem>
    ensures { OnOk result (listed.new.items ≡ listed.old.items ++ in_shards shards no_files table.now) }
{
    for shard in 0..shards {
        listed.push(listed_of(table, shard, Vec::new(alloc))?)?;
    }
    Ok(())
}

/// The tables in each of so many shards, in the order of their names.
#[tactic(auto, unfolding(cas_render::specs::Listing::status_of))]
pub(crate) fn status_of(
    alloc: Global,
    tables: &[TableSchema],
    shards: u8,
) -> Result<List<Listed>, Mem>
    ensures { IfOk result (λ l. l ≡ status_of tables.now shards no_files) }
{
    let mut listed = Vec::new(alloc);
    for table in tables {
        list_table(alloc, &mut listed, table, shards)?;
    }
    in_order(listed)
}
