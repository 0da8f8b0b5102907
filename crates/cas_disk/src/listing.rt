//! A list of the files that are there.
ghost use Rattle.std.specs.Prelude.{◌≡◌, ◌++◌, ◌∷◌, List, [], IfOk, OnOk};
ghost use Rattle.cas_disk.specs.declared.event.Stored.{Stored};
ghost use Rattle.cas_disk.specs.Disk.{IsListing};
ghost use Rattle.cas_disk.specs.Inner.Listed.{is_listed};
ghost use Rattle.cas_disk.specs.Inner.Past.{image_of};

use crate::event::Stored;
use crate::name::{Entry, Name, same_name};
use std::alloc::{AllocError, Global};

// Whether the list has this name.
fn is_listed(entries: &[Entry], n: Name) -> bool
    ensures { result ≡ is_listed n entries.now }
{
    let mut rest = entries;
    while let [entry, after @ ..] = rest {
        if same_name(entry.name, n) {
            return true;
        }
        rest = after;
    }
    false
}

// Lists one file more, unless one of its name is listed, which then is the one that is read.
fn list_file(entries: &mut Vec<Entry>, file: &Stored) -> Result<(), AllocError>
    ensures { (files : List Stored) → IsListing (image_of files) entries.old.items
        → OnOk result (IsListing (image_of (files ++ file.now ∷ [])) entries.new.items) }
{
    if is_listed(entries, file.name) {
        return Ok(());
    }
    entries.push(Entry {
        name: file.name,
        size: file.bytes.len() as u64,
    })?;
    Ok(())
}

/// The files that are there with their lengths, each once.
pub fn listed(alloc: Global, files: &[Stored]) -> Result<Vec<Entry>, AllocError>
    ensures { IfOk result (λ entries. IsListing (image_of files.now) entries.items) }
{
    let mut entries = Vec::new(alloc);
    for file in files {
        list_file(&mut entries, file)?;
    }
    Ok(entries)
}
