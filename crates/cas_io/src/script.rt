//! Reads a whole script, up to a limit.
ghost use Rattle.std.specs.Prelude.{◌≡◌, ◌+◌, ◌≤◌, length, ℕ, IfOk, IfErr};
ghost use Rattle.cas_io.specs.Causes.{Rose};
ghost use Rattle.cas_io.specs.Streams.{ReadToEnd, TookCount, TookAtMost, WhyNoScript};

use crate::fault::Failed;
use crate::source::Source;
use std::alloc::Global;

/// Why a script wasn't read.
#[derive(Clone, Copy, Debug, PartialEq, Eq)]
pub enum ScriptFault {
    /// The source failed.
    Read,
    /// More bytes came than the limit: `taken` of them were taken, which is one more.
    TooLong { taken: u64 },
    /// Out of memory.
    Mem,
}

/// How many bytes are read at once.
const PIECE: usize = 4096;

/// All the bytes of a source that has at most `limit` of them. No more than one byte above the
/// limit is taken.
pub fn read_script<S: Source>(
    alloc: Global,
    source: &mut S,
    limit: u64,
) -> Result<Vec<u8>, ScriptFault>
    ensures script { IfOk result (λ v. ReadToEnd (S.left source.old) (S.left source.new) v.items) }
    ensures short { IfOk result (λ v. length v.items ≤ limit) }
    ensures kept { S.faults source.old ≤ S.faults source.new }
    ensures why { IfErr result (λ e. WhyNoScript e (Rose (S.faults source.old) (S.faults source.new))
        (TookCount (S.left source.old) (S.left source.new)) (TookAtMost (S.left source.old) (S.left source.new)) limit) }
{
    let mut script = Vec::new(alloc);
    let mut piece = [0u8; PIECE];
    loop {
        let taken = script.len() as u64;
        let room = (limit - taken).min(PIECE as u64 - 1) as usize + 1;
        let into = &mut piece[..room];
        let count = match source.read(into) {
            Ok(count) => count,
            Err(Failed) => return Err(ScriptFault::Read),
        };
        if count == 0 {
            return Ok(script);
        }
        if taken + count as u64 > limit {
            return Err(ScriptFault::TooLong {
                taken: taken + count as u64,
            });
        }
        let Ok(()) = script.extend_from_slice(&into[..count]) else {
            return Err(ScriptFault::Mem);
        };
    }
}
