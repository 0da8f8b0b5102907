//! What a check answers of a file's bytes.

ghost use Rattle.std.specs.Prelude.{◌≡◌};
ghost use Rattle.cas_verify.specs.Inner.Ends.{fault_in};

use cas_codec::ReadFault;
use cas_disk::Sealed;
use cas_sstread::{Table, TableFault};

/// What stands at that place isn't as it must be.
pub(crate) fn bad<F: Sealed>(table: &Table<F>, at: u64) -> TableFault
    ensures { result ≡ TableFault.BadBlock table.now.info.number at }
{
    TableFault::BadBlock {
        number: table.info().number,
        at,
    }
}

/// The fault of a reading of the table's file.
pub(crate) fn fault_in<F: Sealed>(table: &Table<F>, fault: ReadFault) -> TableFault
    ensures { result ≡ fault_in table.now.info.number fault }
{
    match fault {
        ReadFault::Short { at } => bad(table, at),
        ReadFault::Bad { at } => bad(table, at),
        ReadFault::Mem => TableFault::Mem,
    }
}
