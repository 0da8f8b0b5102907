//! The calls of a folder in memory.
ghost use Rattle.std.specs.Prelude.{◌≡◌, ◌≢◌, ◌≤◌, ◌+◌, length, true, None, Some, OnOk, OnErr, IfOk, IsErr, is_err};
ghost use Rattle.cas_disk.specs.Counts.{Counted, sum_in_range};
ghost use Rattle.std.specs.Bool.{OnTrue, OnFalse};
ghost use Rattle.cas_disk.specs.Disk.{Image, During, Follows, Same, Gives};
ghost use Rattle.cas_disk.specs.Inner.Past.{image_of};
ghost use Rattle.cas_disk.specs.Inner.PastDisk.{disk_of};
ghost use Rattle.cas_disk.specs.Inner.Plans.{begun, fails, stopped_after};
ghost use Rattle.cas_disk.specs.Inner.Shown.{course_of};

use crate::count::{Count, FaultCount};
use crate::event::Event;
use crate::fault::{DraftFault, FolderFault};
use crate::files::{find, set_file, take_file, write_file};
use crate::folder::{Draft, Folder, Sealed};
use crate::listing::listed;
use crate::memory::{MemDraft, MemFolder, MemSealed};
use crate::name::{Entry, Name};
use crate::plan::{Course, FaultPlan, numbers_of};
use cas_io::Failed;
use std::alloc::{AllocError, Global};
use std::collections::VecDeque;
use std::sync::atomic::{AtomicU64, Ordering};

// Puts the bytes at `at` at the front of `into`.
fn give(bytes: &[u8], at: u64, into: &mut [u8]) -> usize
    ensures bound { result ≤ length into.new }
    ensures given { Gives bytes.now at result into.new }
{
    if at >= bytes.len() as u64 {
        return 0;
    }
    let rest = &bytes[at as usize..];
    let count = rest.len().min(into.len());
    into[..count].copy_from_slice(&rest[..count]);
    count
}

impl MemFolder {
    /// A folder without files, whose calls fail by this plan.
    pub fn new(alloc: Global, plan: FaultPlan) -> Self
        ensures disk { (⟦<MemFolder as Folder>⟧.disk result).reads (λ _. None) }
        ensures course { course_of result ≡ begun plan }
    {
        MemFolder {
            alloc,
            start: Vec::new(alloc),
            past: VecDeque::new(alloc),
            files: Vec::new(alloc),
            course: Course::new(plan),
        }
    }

    /// After so many calls each call of the folder fails.
    pub fn stop_after(&mut self, calls: u64)
        ensures reads { Follows Same (⟦<MemFolder as Folder>⟧.disk self.old).reads (⟦<MemFolder as Folder>⟧.disk self.new).reads }
        ensures during { During Same (⟦<MemFolder as Folder>⟧.disk self.old) (⟦<MemFolder as Folder>⟧.disk self.new) }
        ensures faults { ⟦<MemFolder as Folder>⟧.faults_of self.new ≡ ⟦<MemFolder as Folder>⟧.faults_of self.old }
        ensures stops { course_of self.new ≡ stopped_after calls (course_of self.old) }
    {
        self.course.stops_after = Some(calls);
    }

    /// How many calls there were.
    pub fn calls(&self) -> u64
        ensures { result ≡ (course_of self.now).calls }
    {
        self.course.calls
    }

    /// Whether the file is there, where `create` asks that it isn't, or `import` that it is.
    pub fn has(&self, n: Name) -> bool
        ensures there { OnTrue result ((c : Image) → (⟦<MemFolder as Folder>⟧.disk self.now).reads c → c n ≢ None) }
        ensures absent { OnFalse result ((c : Image) → (⟦<MemFolder as Folder>⟧.disk self.now).reads c → c n ≡ None) }
    {
        match find(&self.files, n) {
            Some(_) => true,
            None => false,
        }
    }

    // Whether a file is there and reaches so far.
    fn reaches(&self, n: Name, at: u64) -> bool {
        match find(&self.files, n) {
            Some(file) => at <= file.len() as u64,
            None => false,
        }
    }
}

impl Folder for MemFolder {
    type Tally = FaultCount;

    type Sealed = MemSealed;

    type Draft = MemDraft;

    ghost disk = { λ m. disk_of (image_of m.start.items) m.past.items };

    ghost faults_of = { λ m. m.course.faults };

    fn list(&mut self) -> Result<Vec<Entry>, FolderFault> {
        self.course.call()?;
        Ok(listed(self.alloc, &self.files)?)
    }

    fn create(&mut self, n: Name) -> Result<(), FolderFault> {
        self.course.call()?;
        self.past.reserve(1)?;
        set_file(&mut self.files, n, Vec::new(self.alloc))?;
        self.past.push_front_reserved(Event::Create(n));
        Ok(())
    }

    fn write_at(&mut self, n: Name, at: u64, bytes: &[u8]) -> Result<(), Failed> {
        self.course.call()?;
        if !self.reaches(n, at) {
            self.course.fault();
            return Err(Failed);
        }
        let Ok(kept) = Vec::from_slice(self.alloc, bytes) else {
            self.course.fault();
            return Err(Failed);
        };
        if self.past.reserve(1).is_err()
            || write_file(self.alloc, &mut self.files, n, at, bytes).is_err()
        {
            self.course.fault();
            return Err(Failed);
        }
        self.past.push_front_reserved(Event::Write(n, at, kept));
        Ok(())
    }

    fn read_at(&mut self, n: Name, at: u64, into: &mut [u8]) -> Result<usize, Failed> {
        self.course.call()?;
        match find(&self.files, n) {
            Some(bytes) => Ok(give(bytes, at, into)),
            None => Ok(0),
        }
    }

    fn sync(&mut self, n: Name) -> Result<(), Failed> {
        self.course.call()?;
        if self.past.push_front(Event::Sync(n)).is_err() {
            self.course.fault();
            return Err(Failed);
        }
        Ok(())
    }

    fn remove(&mut self, n: Name) -> Result<(), Failed> {
        self.course.call()?;
        if self.past.reserve(1).is_err() {
            self.course.fault();
            return Err(Failed);
        }
        take_file(&mut self.files, n);
        self.past.push_front_reserved(Event::Remove(n));
        Ok(())
    }

    fn draft(&mut self, number: u64) -> Result<MemDraft, FolderFault> {
        self.course.call()?;
        let draft = self.course.drafts.saturating_add(1);
        let failing = numbers_of(self.alloc, &self.course.plan.drafts, draft)?;
        self.past.push_front(Event::Draft(number))?;
        self.course.drafts = draft;
        Ok(MemDraft {
            number,
            bytes: Vec::new(self.alloc),
            is_synced: false,
            calls: 0,
            failing,
        })
    }

    fn admit(&mut self, draft: MemDraft) -> Result<MemSealed, FolderFault> {
        self.course.call()?;
        let failing = numbers_of(self.alloc, &self.course.plan.reads, draft.number)?;
        let kept = Vec::from_slice(self.alloc, &draft.bytes)?;
        let bytes = Vec::from_slice(self.alloc, &draft.bytes)?;
        self.past.reserve(1)?;
        set_file(&mut self.files, Name::Table(draft.number), draft.bytes)?;
        self.past
            .push_front_reserved(Event::Admit(draft.number, kept));
        Ok(MemSealed {
            bytes,
            reads: AtomicU64::new(0),
            failing,
        })
    }

    fn sealed(&mut self, number: u64) -> Result<MemSealed, FolderFault> {
        self.course.call()?;
        let failing = numbers_of(self.alloc, &self.course.plan.reads, number)?;
        let Some(bytes) = find(&self.files, Name::Table(number)) else {
            self.course.fault();
            return Err(FolderFault::Failed);
        };
        Ok(MemSealed {
            bytes: Vec::from_slice(self.alloc, bytes)?,
            reads: AtomicU64::new(0),
            failing,
        })
    }

    fn import(&mut self, number: u64) -> Result<MemSealed, FolderFault> {
        self.course.call()?;
        let Some(bytes) = find(&self.files, Name::Import(number)) else {
            self.course.fault();
            return Err(FolderFault::Failed);
        };
        Ok(MemSealed {
            bytes: Vec::from_slice(self.alloc, bytes)?,
            reads: AtomicU64::new(0),
            failing: Vec::new(self.alloc),
        })
    }

    fn faults(&self) -> u64 {
        self.course.faults
    }
}

impl MemDraft {
    // Counts a call, which fails where the plan says so.
    fn call(&mut self, tally: &mut FaultCount) -> Result<(), Failed>
        ensures number { self.new.number ≡ self.old.number }
        ensures bytes { self.new.bytes.items ≡ self.old.bytes.items }
        ensures calls { self.new.calls ≡ sum_in_range self.old.calls 1 }
        ensures failing { self.new.failing.items ≡ self.old.failing.items }
        ensures is_synced { self.new.is_synced ≡ self.old.is_synced }
        ensures count { Counted (⟦<FaultCount as Count>⟧.number tally.old) (⟦<FaultCount as Count>⟧.number tally.new) (IsErr result) }
        ensures planned { is_err result ≡ fails self.old.failing.items None (sum_in_range self.old.calls 1) }
    {
        self.calls = self.calls.saturating_add(1);
        if self.failing.contains(&self.calls) {
            tally.fault();
            return Err(Failed);
        }
        Ok(())
    }
}

impl Draft for MemDraft {
    type Tally = FaultCount;

    ghost number = { λ d. d.number };

    ghost written = { λ d b. b ≡ d.bytes.items };

    ghost is_synced = { λ d. d.is_synced ≡ true };

    fn append(&mut self, bytes: &[u8], tally: &mut FaultCount) -> Result<(), DraftFault> {
        self.is_synced = false;
        self.call(tally)?;
        self.bytes.extend_from_slice(bytes)?;
        Ok(())
    }

    fn sync(&mut self, tally: &mut FaultCount) -> Result<(), Failed> {
        self.call(tally)?;
        self.is_synced = true;
        Ok(())
    }
}

impl Sealed for MemSealed {
    type Tally = FaultCount;

    ghost contents = { λ s. Some s.bytes.items };

    fn read_at(&self, at: u64, into: &mut [u8], tally: &mut FaultCount) -> Result<usize, Failed> {
        let read = self.reads.fetch_add(1, Ordering::SeqCst);
        if self.failing.contains(&read.saturating_add(1)) {
            tally.fault();
            return Err(Failed);
        }
        Ok(give(&self.bytes, at, into))
    }
}
