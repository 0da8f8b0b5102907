//! What the calls of an open store answer.

ghost use Rattle.std.specs.Prelude.{◌≡◌};
ghost use Rattle.cas_sessions.specs.Calls.{reply_of};

use cas_atoms::LiveRow;
use cas_gates::First;
use cas_render::{Failure, Reply};
use cas_types::List;

/// What a call that was done answers.
#[derive(Drop)]
pub enum Answer {
    /// A definition was made, and lasts.
    Done,
    /// The mutation was accepted with this number of its shard, and lasts. It is of the table of this number, in that
    /// shard.
    Wrote {
        number: u64,
        table: u16,
        shard: u8,
    },
    /// The rows of a slice of the shard, as of the mutation of the number `front` and the moment `now` in
    /// seconds.
    Rows {
        rows: List<LiveRow>,
        shard: u8,
        front: u64,
        now: i64,
    },
}

/// Why a call wasn't done.
#[derive(Clone, Copy, Debug, PartialEq, Eq)]
pub enum Fault {
    /// The statement is refused, for the reason of this number.
    Refused(u8),
    /// This earlier fault of the folder stopped all further writes.
    Stopped(First),
    /// The folder failed; its count of faults rose. A mutation that was accepted has its number here: it
    /// may last or not.
    Disk { number: Option<u64> },
    /// A read of a table file failed; the tally of such faults rose.
    Read,
    /// The bytes at that place of the table file of that number aren't as they must be.
    BadBlock { number: u64, at: u64 },
    Mem,
}

/// What an answer is printed as.
pub fn reply_of(answer: Result<Answer, Fault>) -> Reply
    ensures { result ≡ reply_of answer }
{
    match answer {
        Ok(Answer::Done) => Reply::Done,
        Ok(Answer::Wrote { number, .. }) => Reply::Wrote { number },
        Ok(
            Answer::Rows {
                rows,
                shard,
                front,
                now,
            },
        ) => Reply::Rows {
            rows,
            shard,
            front,
            now,
        },
        Err(Fault::Refused(number)) => Reply::Refused(number),
        Err(Fault::Stopped(_)) => Reply::Failed(Failure::Stopped),
        Err(Fault::Disk { number: _ }) => Reply::Failed(Failure::Disk),
        Err(Fault::Read) => Reply::Failed(Failure::Read),
        Err(Fault::BadBlock { number, at }) => Reply::Failed(Failure::Block { number, at }),
        Err(Fault::Mem) => Reply::Failed(Failure::Memory),
    }
}
