//! Why a store wasn't read back.

ghost use Rattle.std.specs.Prelude.{◌≡◌};
ghost use Rattle.cas_recovery.specs.Inner.Faults.{of_listed, of_opening};

use cas_disk::Name;
use cas_listed::ListedFault;
use cas_opening::OpenFault;
use cas_types::Mem;

/// Why a store wasn't read back into memory.
#[derive(Clone, Copy, Debug, PartialEq, Eq)]
pub enum RecoveryFault {
    /// The bytes of this file aren't allowed at this place, or aren't as they are listed.
    Bad { name: Name, at: u64 },
    /// The folder failed; its count of faults rose.
    Failed,
    /// A read of a table file failed; the tally rose.
    Read,
    Mem,
}

impl From<Mem> for RecoveryFault {
    ghost use Rattle.std.specs.Prelude.{◌≡◌};
    ghost use Rattle.cas_recovery.specs.declared.fault.RecoveryFault.TheVariants as fault_of;

    ghost from_gives = { λ _ fault. fault ≡ fault_of.Mem };

    fn from(_: Mem) -> Self {
        RecoveryFault::Mem
    }
}

/// What a fault of the opening is to the recovery.
pub(crate) fn of_opening(fault: OpenFault) -> RecoveryFault
    ensures { result ≡ of_opening fault }
{
    match fault {
        OpenFault::Bad { name, at } => RecoveryFault::Bad { name, at },
        OpenFault::Failed => RecoveryFault::Failed,
        OpenFault::Mem => RecoveryFault::Mem,
    }
}

/// What a fault of listed files is to the recovery.
pub(crate) fn of_listed(fault: ListedFault) -> RecoveryFault
    ensures { result ≡ of_listed fault }
{
    match fault {
        ListedFault::Failed => RecoveryFault::Failed,
        ListedFault::Read => RecoveryFault::Read,
        ListedFault::Bad { number, at } => RecoveryFault::Bad {
            name: Name::Table(number),
            at,
        },
        ListedFault::Mem => RecoveryFault::Mem,
    }
}
