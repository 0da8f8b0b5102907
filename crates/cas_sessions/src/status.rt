//! `\status`: the table files of each table in each shard.

ghost use Rattle.std.specs.Prelude.{◌≡◌, ◌++◌, ℕ, ℤ, map, IfOk, OnOk};
ghost use Rattle.cas_render.specs.Listing.{in_shards};
ghost use Rattle.cas_view.specs.Views.{files_of};
ghost use Rattle.cas_lasting.specs.History.{History};
ghost use Rattle.cas_lasting.specs.Nodes.{StandsFor, files_in};
ghost use Rattle.cas_lasting.specs.Status.{file_numbers, status};

use crate::node::{Node, Stored};
use cas_disk::Folder;
use cas_history::Store;
use cas_render::{Listed, in_order, listed_of};
use cas_types::{List, Mem, TableSchema};
use cas_view::OpenFile;
use std::alloc::Global;

fn numbers_of<T: Drop>(alloc: Global, files: &[OpenFile<T>]) -> Result<Vec<u64>, Mem>
    ensures { IfOk result (λ v. v.items ≡ map (λ f. f.info.number) (files_of files.now)) }
{
    let mut numbers = Vec::new(alloc);
    for file in files {
        numbers.push(file.info.number)?;
    }
    Ok(numbers)
}

impl<F: Folder, J: Store> Node<F, J> {
    // A table in each shard.
    fn list_table(
        &self,
        alloc: Global,
        listed: &mut Vec<Listed>,
        table: &TableSchema,
    ) -> Result<(), Mem>
        ensures { OnOk result (listed.new.items
            ≡ listed.old.items ++ in_shards self.now.limits.shards (file_numbers (files_in self.now.shards.items)) table.now) }
    {
        for place in 0..self.limits.shards {
            let files = self.shards[place as usize].files(table.number);
            let numbers = numbers_of(alloc, files)?;
            listed.push(listed_of(table, place, numbers)?)?;
        }
        Ok(())
    }

    /// The table files of each table in each shard, in the order of the tables' names, and then of the shards. It reads
    /// no file.
    pub fn status(&self, alloc: Global) -> Result<List<Listed>, Mem>
        ensures { IfOk result (λ l. (session calls : ℕ) (clock : ℤ) (h : History)
            → StandsFor h (⟦<Node<F, J> as Stored>⟧.state self.now session calls clock) → l ≡ status h) }
    {
        let mut listed = Vec::new(alloc);
        for table in &self.tables {
            self.list_table(alloc, &mut listed, table)?;
        }
        in_order(listed)
    }
}
