//! A whole table file is checked.

ghost use Rattle.std.specs.Prelude.{◌≡◌, ◌≤◌, ℕ, List, Some, IsErrOf};
ghost use Rattle.cas_types.specs.Limits.{IsNarrow};
ghost use Rattle.cas_disk.specs.Counts.{Counted};
ghost use Rattle.cas_facts.specs.declared.facts.Facts.{Facts};
ghost use Rattle.cas_info.specs.declared.info.TheConstants.{FILE_LIMIT};
ghost use Rattle.cas_sstread.specs.Loading.{Answers};
ghost use Rattle.cas_verify.specs.Checking.{AreFactsOf, whole_at};

use crate::faults::bad;
use crate::partitions::read_partitions;
use crate::rest::check_rest;
use cas_disk::Sealed;
use cas_sstread::{Table, TableFault};
use std::alloc::Global;

/// Reads a table file that is loaded to its end, and tells the first thing in it that isn't as it must
/// be: of the partitions, each field in its turn; and then of index, filter and info the first field
/// that isn't what the partitions say.
pub fn check<F: Sealed>(
    alloc: Global,
    table: &Table<F>,
    tally: &mut F::Tally,
) -> Result<(), TableFault>
    requires narrow { IsNarrow table.now.columns }
    requires long { table.now.info.bytes ≤ FILE_LIMIT }
    ensures checked { (b : List ℕ) → table.now.contents ≡ Some b → (f : Facts) → AreFactsOf table.now.columns table.now.kept b f
        → Answers (λ u. u) table.now.info.number result (whole_at table.now.columns table.now.info table.now.kept f b) }
    ensures count { Counted (F.Tally.number tally.old) (F.Tally.number tally.new) (IsErrOf result TableFault.ReadFault) }
{
    let scan = read_partitions(alloc, table, tally)?;
    let Some(facts) = scan.seen.facts else {
        return Err(bad(table, table.end()));
    };
    check_rest(alloc, table, &scan.entries, facts, tally)
}
