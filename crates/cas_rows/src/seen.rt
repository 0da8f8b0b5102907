//! Which images of a disk were read already: two with the same files are read alike.

use cas_disk::{Folder, FolderFault, MemFolder, Name};
use std::alloc::{AllocError, Global};

#[derive(Drop, PartialEq, Eq)]
struct File {
    name: Name,
    bytes: Vec<u8>,
}

/// The images that were read while so many lines were answered.
#[derive(Drop)]
pub(crate) struct Seen {
    answered: usize,
    images: Vec<Vec<File>>,
}

fn files_of(alloc: Global, folder: &mut MemFolder) -> Result<Vec<File>, FolderFault> {
    let entries = folder.list()?;
    let mut files = Vec::new(alloc);
    for entry in &entries {
        let mut bytes = vec![in alloc; 0; entry.size as usize]?;
        folder.read_at(entry.name, 0, &mut bytes)?;
        files.push(File {
            name: entry.name,
            bytes,
        })?;
    }
    Ok(files)
}

impl Seen {
    pub fn new(alloc: Global) -> Self {
        Seen {
            answered: 0,
            images: Vec::new(alloc),
        }
    }

    /// Whether the image wasn't read yet while so many lines were answered. From now on it was.
    pub fn is_new(
        &mut self,
        alloc: Global,
        answered: usize,
        image: &mut MemFolder,
    ) -> Result<bool, AllocError> {
        if self.answered != answered {
            *self = Seen {
                answered,
                images: Vec::new(alloc),
            };
        }
        let Ok(files) = files_of(alloc, image) else {
            return Ok(true);
        };
        let is_new = !self.images.contains(&files);
        if is_new {
            self.images.push(files)?;
        }
        Ok(is_new)
    }
}
