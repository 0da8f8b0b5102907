//! Bytes go into a draft, and are counted.

ghost use Rattle.std.specs.Prelude.{◌≡◌, ℕ, List, ◌<◌, ◌+◌, length, OnOk, IfErr, IsErrOf};
ghost use Rattle.cas_disk.specs.Counts.{Counted};
ghost use Rattle.cas_sstwrite.specs.Inner.Sinks.{Took, LongFault};

use crate::fault::{Measure, WriteFault};
use crate::held::Sink;
use cas_disk::{Draft, DraftFault};
use cas_info::FILE_LIMIT;

fn of_draft(fault: DraftFault) -> WriteFault
    ensures failed { result ≡ WriteFault.Failed → fault ≡ DraftFault.Failed }
    ensures why { (place more : ℕ) → LongFault place more result }
{
    match fault {
        DraftFault::Failed => WriteFault::Failed,
        DraftFault::Mem => WriteFault::Mem,
    }
}

impl<D: Draft> Sink<D> {
    /// A draft that has taken nothing.
    pub fn new(draft: D) -> Self
        ensures { (result.draft ≡ draft) × (result.place ≡ 0) }
    {
        Sink { draft, place: 0 }
    }

    /// Takes bytes, if the file then isn't too long.
    pub fn append(&mut self, bytes: &[u8], tally: &mut D::Tally) -> Result<(), WriteFault>
        ensures took { OnOk result (Took D.number D.written bytes.now self.old self.new) }
        ensures count { Counted (D.Tally.number tally.old) (D.Tally.number tally.new) (IsErrOf result WriteFault.Failed) }
        ensures why { IfErr result (λ e. LongFault self.old.place (length bytes.now) e) }
    {
        let long = bytes.len() as u64;
        if long > FILE_LIMIT - self.place {
            return Err(WriteFault::TooMany {
                what: Measure::FileBytes,
                limit: FILE_LIMIT,
            });
        }
        if let Err(fault) = self.draft.append(bytes, tally) {
            return Err(of_draft(fault));
        }
        self.place += long;
        Ok(())
    }

    /// Makes the bytes last.
    pub fn sync(&mut self, tally: &mut D::Tally) -> Result<(), WriteFault>
        ensures kept { OnOk result ((bytes : List ℕ) → D.written self.new.draft bytes → D.written self.old.draft bytes) }
        ensures place { self.new.place ≡ self.old.place }
        ensures number { D.number self.new.draft ≡ D.number self.old.draft }
        ensures synced { OnOk result (D.is_synced self.new.draft) }
        ensures count { Counted (D.Tally.number tally.old) (D.Tally.number tally.new) (IsErrOf result WriteFault.Failed) }
        ensures why { IfErr result (λ e. e ≡ WriteFault.Failed) }
    {
        Ok(self.draft.sync(tally)?)
    }
}
