//! The view of a table: its files, open to be read.

ghost use Rattle.std.specs.Prelude.{◌≡◌, ◌++◌, [], IfOk};
ghost use Rattle.cas_view.specs.Views.{file_of, files_of, is_among, all_but, may_hold};

use cas_info::TableInfo;
use cas_types::{Mem, compare_bytes};
use std::alloc::Global;
use std::marker::Model;
use std::sync::Arc;

/// A table file that is open, and what is told of it.
#[derive(Drop)]
pub struct OpenFile<T: Drop> {
    pub table: Arc<T, Global>,
    pub info: TableInfo,
}

/// The files of a table in a shard. A view doesn't change: a flush or a compaction makes another
/// one, and who reads goes on with the one that it has.
#[derive(Drop)]
pub struct View<T: Drop> {
    files: Vec<OpenFile<T>>,
}

/// Whether the file may hold a partition, by its first and its last key.
pub fn may_hold(info: &TableInfo, key: &[u8]) -> bool
    ensures { result ≡ may_hold info.now key.now }
{
    compare_bytes(info.first.as_slice(), key).is_le()
        && compare_bytes(key, info.last.as_slice()).is_le()
}

fn is_among(numbers: &[u64], n: u64) -> bool
    ensures { result ≡ is_among numbers.now n }
{
    numbers.iter().any(|m| *m == n)
}

// Another hand on the file.
fn shared<T: Drop>(file: &OpenFile<T>) -> Result<OpenFile<T>, Mem>
    ensures { IfOk result (λ f. file_of f ≡ file_of file.now) }
{
    Ok(OpenFile {
        table: Arc::try_clone(&file.table)?,
        info: file.info.clone()?,
    })
}

// Another hand on each of the files.
fn all_shared<T: Drop>(alloc: Global, from: &[OpenFile<T>]) -> Result<Vec<OpenFile<T>>, Mem>
    ensures { IfOk result (λ fs. files_of fs.items ≡ files_of from.now) }
{
    let mut files = Vec::new(alloc);
    for file in from {
        files.push(shared(file)?)?;
    }
    Ok(files)
}

impl<T: Drop> Model for View<T> {
    ghost use Rattle.std.specs.Prelude.{List};
    ghost use Rattle.cas_view.specs.Views.{File, files_of};

    ghost Value = { List (File T) };

    ghost view = { λ v. files_of v.files.items };
}

impl<T: Drop> View<T> {
    /// Without files.
    pub fn new(alloc: Global) -> Self
        ensures { result ≡ [] }
    {
        View {
            files: Vec::new(alloc),
        }
    }

    /// The files, in the order in which they came.
    pub fn files(&self) -> &[OpenFile<T>]
        ensures { files_of result.now ≡ self.now }
    {
        &self.files
    }

    /// The view with these files behind those that it has.
    pub fn with(&self, mut added: Vec<OpenFile<T>>) -> Result<View<T>, Mem>
        ensures { IfOk result (λ v. v ≡ self.now ++ files_of added.items) }
    {
        let mut files = all_shared(*self.files.allocator(), &self.files)?;
        files.append(&mut added)?;
        Ok(View { files })
    }

    /// The view without the files of these numbers.
    pub fn without(&self, numbers: &[u64]) -> Result<View<T>, Mem>
        ensures { IfOk result (λ v. v ≡ all_but numbers.now self.now) }
    {
        let mut files = Vec::new(*self.files.allocator());
        for file in &self.files {
            if !is_among(numbers, file.info.number) {
                files.push(shared(file)?)?;
            }
        }
        Ok(View { files })
    }
}
