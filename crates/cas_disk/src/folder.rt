//! A folder of files, its drafts and its sealed files.
ghost use Rattle.std.specs.Prelude.{◌≡◌, ◌≢◌, ◌≤◌, ℕ, List, [], length, Option, None, Some, IfOk, OnOk, IsErr, IsErrOf};
ghost use Rattle.cas_disk.specs.Counts.{Counted};
ghost use Rattle.cas_disk.specs.Disk.{Disk, Image, During, Follows, Same, Changed, IsListing, Gives, Appends, bytes_of};
ghost use Rattle.cas_disk.specs.Disk.{MayTear, MayBeMade, MayGo, MayBeAnything, Is, IsGone, Holds, IsSynced};

use crate::count::Count;
use crate::fault::{DraftFault, FolderFault};
use crate::name::{Entry, Name};
use cas_io::Failed;

/// A table's file that is being written, and isn't in its folder's list yet.
pub trait Draft: Drop {
    /// The count that is raised where a call fails.
    type Tally: Count;

    /// The number of its table.
    ghost number: { Self → ℕ };

    /// The bytes that it has taken, where it tells them.
    ghost written: { Self → List ℕ → Type 0 };

    /// A sync was the last call that it answered.
    ghost is_synced: { Self → Type 0 };

    /// Takes bytes after those that it has.
    fn append(&mut self, bytes: &[u8], tally: &mut Self::Tally) -> Result<(), DraftFault>
        ensures number { number self.new ≡ number self.old }
        ensures taken { OnOk result (Appends bytes.now (written self.old) (written self.new)) }
        ensures count { Counted (Self.Tally.number tally.old) (Self.Tally.number tally.new) (IsErrOf result DraftFault.Failed) };

    /// Makes its bytes last.
    fn sync(&mut self, tally: &mut Self::Tally) -> Result<(), Failed>
        ensures number { number self.new ≡ number self.old }
        ensures kept { OnOk result ((b : List ℕ) → written self.new b → written self.old b) }
        ensures synced { OnOk result (is_synced self.new) }
        ensures count { Counted (Self.Tally.number tally.old) (Self.Tally.number tally.new) (IsErr result) };
}

/// A file that doesn't change.
pub trait Sealed: Drop {
    /// The count that is raised where a call fails.
    type Tally: Count;

    /// Its bytes, where it tells them.
    ghost contents: { Self → Option (List ℕ) };

    /// Puts the bytes at `at` at the front of `into`, and says how many.
    fn read_at(&self, at: u64, into: &mut [u8], tally: &mut Self::Tally) -> Result<usize, Failed>
        ensures bound { IfOk result (λ count. count ≤ length into.new) }
        ensures given { IfOk result (λ count. (b : List ℕ) → contents self.now ≡ Some b → Gives b at count into.new) }
        ensures count { Counted (Self.Tally.number tally.old) (Self.Tally.number tally.new) (IsErr result) };
}

/// A folder of files. What is said of images is said where the folder tells them; the counts of
/// faults are always told.
pub trait Folder {
    type Tally: Count;

    type Sealed: Sealed<Tally = Self::Tally>;

    type Draft: Draft<Tally = Self::Tally>;

    /// What is known of it.
    ghost disk: { Self → Disk };

    /// How often it has failed. At the greatest `u64` the count stands, and counts as risen.
    ghost faults_of: { Self → ℕ };

    /// The files that are there, drafts that aren't admitted aside.
    fn list(&mut self) -> Result<Vec<Entry>, FolderFault>
        ensures listed { IfOk result (λ entries. (c : Image) → (disk self.old).reads c → IsListing c entries.items) }
        ensures reads { Follows Same (disk self.old).reads (disk self.new).reads }
        ensures during { During Same (disk self.old) (disk self.new) }
        ensures count { Counted (faults_of self.old) (faults_of self.new) (IsErrOf result FolderFault.Failed) };

    /// Makes a file without bytes. After its sync it is there for good.
    fn create(&mut self, n: Name) -> Result<(), FolderFault>
        requires { (c : Image) → (disk self.old).reads c → c n ≡ None }
        ensures made { OnOk result (Follows (Changed n (Is [])) (disk self.old).reads (disk self.new).reads) }
        // What was removed under this name doesn't come back.
        ensures fresh { OnOk result ((c : Image) → (disk self.new).may_leave c → bytes_of (c n) ≡ []) }
        ensures during { During (Changed n MayBeMade) (disk self.old) (disk self.new) }
        ensures count { Counted (faults_of self.old) (faults_of self.new) (IsErrOf result FolderFault.Failed) };

    /// Writes over what is there, and past the end.
    fn write_at(&mut self, n: Name, at: u64, bytes: &[u8]) -> Result<(), Failed>
        ensures written { OnOk result (Follows (Changed n (Holds at bytes.now)) (disk self.old).reads (disk self.new).reads) }
        ensures during { During (Changed n (MayTear at (length bytes.now))) (disk self.old) (disk self.new) }
        ensures count { Counted (faults_of self.old) (faults_of self.new) (IsErr result) };

    /// Puts the bytes at `at` at the front of `into`, and says how many. A file that isn't there reads
    /// as one without bytes.
    fn read_at(&mut self, n: Name, at: u64, into: &mut [u8]) -> Result<usize, Failed>
        ensures bound { IfOk result (λ count. count ≤ length into.new) }
        ensures given { IfOk result (λ count. (c : Image) → (disk self.old).reads c → Gives (bytes_of (c n)) at count into.new) }
        ensures reads { Follows Same (disk self.old).reads (disk self.new).reads }
        ensures during { During Same (disk self.old) (disk self.new) }
        ensures count { Counted (faults_of self.old) (faults_of self.new) (IsErr result) };

    /// Makes a file's bytes last, and that it is there or not. That of the manifest makes removals last.
    fn sync(&mut self, n: Name) -> Result<(), Failed>
        ensures synced { OnOk result ((c : Image) → (disk self.new).may_leave c → (read : Image) × (disk self.new).reads read × IsSynced n read c) }
        ensures reads { Follows Same (disk self.old).reads (disk self.new).reads }
        ensures during { During Same (disk self.old) (disk self.new) }
        ensures count { Counted (faults_of self.old) (faults_of self.new) (IsErr result) };

    /// Takes a file away. A crash may bring it back until the manifest is synced or the name is made again.
    fn remove(&mut self, n: Name) -> Result<(), Failed>
        ensures gone { OnOk result (Follows (Changed n IsGone) (disk self.old).reads (disk self.new).reads) }
        ensures during { During (Changed n MayGo) (disk self.old) (disk self.new) }
        ensures count { Counted (faults_of self.old) (faults_of self.new) (IsErr result) };

    /// Begins a table's file. Until it is admitted it isn't read, and a crash may leave anything of it.
    /// A folder may fail where there is a file of that number.
    fn draft(&mut self, number: u64) -> Result<Self::Draft, FolderFault>
        ensures number { IfOk result (λ draft. Self.Draft.number draft ≡ number) }
        ensures empty { IfOk result (λ draft. (b : List ℕ) → Self.Draft.written draft b → b ≡ []) }
        ensures reads { Follows Same (disk self.old).reads (disk self.new).reads }
        ensures during { During (Changed (Name.Table number) MayBeAnything) (disk self.old) (disk self.new) }
        ensures count { Counted (faults_of self.old) (faults_of self.new) (IsErrOf result FolderFault.Failed) };

    /// Puts a draft into the folder, for good.
    fn admit(&mut self, draft: Self::Draft) -> Result<Self::Sealed, FolderFault>
        requires synced { Self.Draft.is_synced draft }
        ensures holds { IfOk result (λ file. (b : List ℕ) → Self.Sealed.contents file ≡ Some b → Self.Draft.written draft b) }
        ensures told { IfOk result (λ file. (c : Image) → (disk self.old).reads c → (b : List ℕ) × (Self.Sealed.contents file ≡ Some b)) }
        ensures stands { OnOk result ((c : Image) → (disk self.new).may_leave c
            → (b : List ℕ) × Self.Draft.written draft b × (c (Name.Table (Self.Draft.number draft)) ≡ Some b)) }
        ensures reads { OnOk result (Follows (Changed (Name.Table (Self.Draft.number draft)) MayBeAnything) (disk self.old).reads (disk self.new).reads) }
        ensures during { During (Changed (Name.Table (Self.Draft.number draft)) MayBeAnything) (disk self.old) (disk self.new) }
        ensures count { Counted (faults_of self.old) (faults_of self.new) (IsErrOf result FolderFault.Failed) };

    /// A table's file that is there.
    fn sealed(&mut self, number: u64) -> Result<Self::Sealed, FolderFault>
        ensures holds { IfOk result (λ file. (c : Image) → (disk self.old).reads c
            → (b : List ℕ) → Self.Sealed.contents file ≡ Some b → c (Name.Table number) ≡ Some b) }
        ensures told { IfOk result (λ file. (c : Image) → (disk self.old).reads c → (b : List ℕ) × (Self.Sealed.contents file ≡ Some b)) }
        ensures reads { Follows Same (disk self.old).reads (disk self.new).reads }
        ensures during { During Same (disk self.old) (disk self.new) }
        ensures count { Counted (faults_of self.old) (faults_of self.new) (IsErrOf result FolderFault.Failed) };

    /// A table's file of another store, which the list has.
    fn import(&mut self, number: u64) -> Result<Self::Sealed, FolderFault>
        requires { (c : Image) → (disk self.old).reads c → c (Name.Import number) ≢ None }
        ensures holds { IfOk result (λ file. (c : Image) → (disk self.old).reads c
            → (b : List ℕ) → Self.Sealed.contents file ≡ Some b → c (Name.Import number) ≡ Some b) }
        ensures told { IfOk result (λ file. (c : Image) → (disk self.old).reads c → (b : List ℕ) × (Self.Sealed.contents file ≡ Some b)) }
        ensures reads { Follows Same (disk self.old).reads (disk self.new).reads }
        ensures during { During Same (disk self.old) (disk self.new) }
        ensures count { Counted (faults_of self.old) (faults_of self.new) (IsErrOf result FolderFault.Failed) };

    /// How often it has failed.
    fn faults(&self) -> u64
        ensures number { result ≡ faults_of self.now };
}
