//! A folder of the system, its drafts and its sealed files.
ghost use Rattle.std.specs.Prelude.{◌≡◌, ◌≤◌, length, None, IfOk, IsErr, IsErrOf};
ghost use Rattle.cas_disk.specs.Counts.{Counted};
ghost use Rattle.cas_disk.specs.Silent.{silent};

use crate::calls::{
    counted, sync_folder, try_create, try_list, try_make_folder, try_open, try_read,
};
use crate::names::path_of;
use cas_disk::{
    Count, Draft, DraftFault, Entry, FaultCount, Folder, FolderFault, Name, Sealed, same_name,
};
use cas_io::Failed;
use std::alloc::{AllocError, Global};
use std::fs::File;
use std::os::unix::fs::FileExt;
use std::rt::Files;
use std::{fs, io};

/// A folder of the system, which is made at its first call.
#[derive(Drop)]
pub struct HostFolder<'a, R: Files> {
    rt: &'a R,
    alloc: Global,
    path: String,
    is_made: bool,
    /// A file was removed since the folder itself was synced.
    has_removed: bool,
    /// The file that was last written, synced or read.
    last: Option<(Name, File)>,
    faults: FaultCount,
}

/// A table's file that is being written.
#[derive(Drop)]
pub struct HostDraft {
    file: File,
    number: u64,
    length: u64,
}

/// A file that doesn't change.
#[derive(Drop)]
pub struct HostSealed {
    file: File,
}

// What a call of the system answers where there is no memory for its path.
fn out_of_memory<T>(_: AllocError) -> io::Result<T> {
    Err(io::ErrorKind::OutOfMemory.into())
}

impl<'a, R: Files<File = File> + Alloc<A = Global> + Clone + Drop> HostFolder<'a, R> {
    /// The folder of this path, which isn't looked at yet.
    pub fn new(rt: &'a R, alloc: Global, path: String) -> Self
        ensures faults { ⟦<HostFolder<'a, R> as Folder>⟧.faults_of result ≡ 0 }
    {
        HostFolder {
            rt,
            alloc,
            path,
            is_made: false,
            has_removed: false,
            last: None,
            faults: FaultCount::fresh(),
        }
    }

    // Makes the folder at the first call.
    fn make(&mut self) -> Result<(), Failed>
        ensures { Counted (⟦<FaultCount as Count>⟧.number self.old.faults) (⟦<FaultCount as Count>⟧.number self.new.faults) (IsErr result) }
    {
        if !self.is_made {
            let done = try_make_folder(self.rt, self.path.as_str());
            counted(&mut self.faults, done)?;
            self.is_made = true;
        }
        Ok(())
    }

    fn path_of(&self, n: Name) -> Result<String, AllocError> {
        path_of(self.alloc, self.path.as_str(), n)
    }

    // The file, taken out of `last` where it is there.
    fn try_take(&mut self, n: Name) -> io::Result<File>
        ensures { self.new.faults ≡ self.old.faults }
    {
        if let Some((name, file)) = self.last.take() {
            if same_name(name, n) {
                return Ok(file);
            }
        }
        match self.path_of(n) {
            Ok(path) => try_open(self.rt, path.as_str()),
            Err(fault) => out_of_memory(fault),
        }
    }
}

impl<'a, R: Files<File = File> + Alloc<A = Global> + Clone + Drop> Folder for HostFolder<'a, R> {
    type Tally = FaultCount;

    type Sealed = HostSealed;

    type Draft = HostDraft;

    ghost disk = { λ _. silent };

    ghost faults_of = { λ f. ⟦<FaultCount as Count>⟧.number f.faults };

    fn list(&mut self) -> Result<Vec<Entry>, FolderFault> {
        self.make()?;
        let done = try_list(self.rt, self.alloc, self.path.as_str());
        Ok(counted(&mut self.faults, done)?)
    }

    fn create(&mut self, n: Name) -> Result<(), FolderFault> {
        self.make()?;
        let path = self.path_of(n)?;
        let done = try_create(self.rt, self.path.as_str(), path.as_str());
        let file = counted(&mut self.faults, done)?;
        self.last = Some((n, file));
        Ok(())
    }

    fn write_at(&mut self, n: Name, at: u64, bytes: &[u8]) -> Result<(), Failed> {
        self.make()?;
        let taken = self.try_take(n);
        let file = counted(&mut self.faults, taken)?;
        let done = file.write_all_at(bytes, at);
        self.last = Some((n, file));
        counted(&mut self.faults, done)
    }

    fn read_at(&mut self, n: Name, at: u64, into: &mut [u8]) -> Result<usize, Failed> {
        self.make()?;
        let file = match self.try_take(n) {
            Err(e) if e.kind() == io::ErrorKind::NotFound => return Ok(0),
            taken => counted(&mut self.faults, taken)?,
        };
        let done = try_read(&file, at, into);
        self.last = Some((n, file));
        counted(&mut self.faults, done)
    }

    fn sync(&mut self, n: Name) -> Result<(), Failed> {
        self.make()?;
        let taken = self.try_take(n);
        let file = counted(&mut self.faults, taken)?;
        let done = file.sync_data();
        self.last = Some((n, file));
        counted(&mut self.faults, done)?;
        if self.has_removed && same_name(n, Name::Manifest) {
            let done = sync_folder(self.rt, self.path.as_str());
            counted(&mut self.faults, done)?;
            self.has_removed = false;
        }
        Ok(())
    }

    // That the file is gone lasts with the next sync of the manifest.
    fn remove(&mut self, n: Name) -> Result<(), Failed> {
        self.make()?;
        self.last = None;
        self.has_removed = true;
        let done = match self.path_of(n) {
            Ok(path) => fs::remove_file(self.rt, path.as_str()),
            Err(fault) => out_of_memory(fault),
        };
        counted(&mut self.faults, done)
    }

    fn draft(&mut self, number: u64) -> Result<HostDraft, FolderFault> {
        self.make()?;
        let path = self.path_of(Name::Table(number))?;
        let done = try_create(self.rt, self.path.as_str(), path.as_str());
        let file = counted(&mut self.faults, done)?;
        Ok(HostDraft {
            file,
            number,
            length: 0,
        })
    }

    // The draft's bytes last by its own sync, and its name since it was made.
    fn admit(&mut self, draft: HostDraft) -> Result<HostSealed, FolderFault> {
        Ok(HostSealed { file: draft.file })
    }

    fn sealed(&mut self, number: u64) -> Result<HostSealed, FolderFault> {
        self.make()?;
        let path = self.path_of(Name::Table(number))?;
        let done = try_open(self.rt, path.as_str());
        Ok(HostSealed {
            file: counted(&mut self.faults, done)?,
        })
    }

    fn import(&mut self, number: u64) -> Result<HostSealed, FolderFault> {
        self.make()?;
        let path = self.path_of(Name::Import(number))?;
        let done = try_open(self.rt, path.as_str());
        Ok(HostSealed {
            file: counted(&mut self.faults, done)?,
        })
    }

    fn faults(&self) -> u64 {
        self.faults.faults()
    }
}

impl Draft for HostDraft {
    type Tally = FaultCount;

    ghost number = { λ d. d.number };

    ghost written = { λ _ _. ⊥ };

    ghost is_synced = { λ _. Unit {0} };

    fn append(&mut self, bytes: &[u8], tally: &mut FaultCount) -> Result<(), DraftFault> {
        let done = self.file.write_all_at(bytes, self.length);
        counted(tally, done)?;
        self.length = self.length.wrapping_add(bytes.len() as u64);
        Ok(())
    }

    fn sync(&mut self, tally: &mut FaultCount) -> Result<(), Failed> {
        let done = self.file.sync_data();
        counted(tally, done)
    }
}

impl Sealed for HostSealed {
    type Tally = FaultCount;

    ghost contents = { λ _. None };

    fn read_at(&self, at: u64, into: &mut [u8], tally: &mut FaultCount) -> Result<usize, Failed> {
        let done = try_read(&self.file, at, into);
        counted(tally, done)
    }
}
