//! How a run ends.

ghost use Rattle.std.specs.Prelude.{◌≡◌};
ghost use Rattle.cas_node.specs.Ran.{status_of};

use cas_disk::Name;

/// Why a run ended as it did.
#[derive(Clone, Copy, Debug, PartialEq, Eq)]
pub enum Cause {
    /// Every line was answered without a refusal.
    Good,
    /// The words aren't those of the command.
    Words,
    /// Every line was answered, some with a refusal.
    Refused,
    /// The script couldn't be read. No line was run.
    Read,
    /// The output couldn't be written. No further line was run.
    Write,
    /// The folder failed, or a read of a table file did.
    Disk,
    /// The bytes of this file aren't allowed at this place. No line was run; or the file is a table, and a line was
    /// answered so.
    Bad { name: Name, at: u64 },
    /// Memory ran out.
    Mem,
    /// The script has more than 64 MiB: so many bytes of it were taken. No line was run.
    TooLong { taken: u64 },
}

impl Cause {
    /// The program's exit status.
    pub fn status(self) -> u8
        ensures { result ≡ status_of self }
    {
        match self {
            Cause::Good => 0,
            Cause::Words => 1,
            Cause::Refused => 2,
            Cause::Read => 3,
            Cause::Write => 4,
            Cause::Disk => 5,
            Cause::Bad { .. } => 6,
            Cause::Mem => 7,
            Cause::TooLong { .. } => 8,
        }
    }
}
