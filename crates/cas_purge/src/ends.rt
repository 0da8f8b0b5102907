//! Which atoms may be dropped.

ghost use Rattle.std.specs.Prelude.{◌≡◌};
ghost use Rattle.cas_purge.specs.Droppable.{live_end, cell_end, ends_before, droppable};
ghost use Rattle.cas_purge.specs.Purged.{deletion_goes, live_goes, cell_goes};

use cas_atoms::Atom;
use cas_cell::{Cell, Deletion, Liveness};

/// What may be dropped lies behind it: it was dead before the second `before`, and its timestamp in
/// microseconds is earlier than `limit`.
#[derive(Clone, Copy, Debug)]
pub(crate) struct Horizon {
    pub(crate) before: i64,
    pub(crate) limit: i64,
}

/// The second from which on the cell shows no value, if there is one: a tombstone's own, the expiry
/// of a value with a TTL.
pub fn cell_end(c: &Cell) -> Option<i64>
    ensures { result ≡ cell_end c.now }
{
    match c {
        Cell::Plain { .. } => None,
        Cell::Expiring { expiry, .. } => Some(*expiry),
        Cell::Tombstone { second, .. } => Some(*second),
    }
}

/// The second from which on a row doesn't live by this `INSERT` any more, if there is one.
pub fn live_end(l: &Liveness) -> Option<i64>
    ensures { result ≡ live_end l.now }
{
    match l {
        Liveness::Plain { .. } => None,
        Liveness::Expiring { expiry, .. } => Some(*expiry),
    }
}

fn ends_before(horizon: Horizon, end: Option<i64>) -> bool
    ensures { result ≡ ends_before horizon.before end }
{
    match end {
        None => false,
        Some(second) => second < horizon.before,
    }
}

/// Whether an atom of this deletion may be dropped.
pub(crate) fn deletion_goes(horizon: Horizon, d: &Deletion) -> bool
    ensures { result ≡ deletion_goes horizon.before horizon.limit d.now }
{
    d.second < horizon.before && d.at < horizon.limit
}

/// Whether what an `INSERT` left of a row may be dropped.
pub(crate) fn live_goes(horizon: Horizon, l: &Liveness) -> bool
    ensures { result ≡ live_goes horizon.before horizon.limit l.now }
{
    ends_before(horizon, live_end(l)) && l.at() < horizon.limit
}

/// Whether a cell may be dropped.
pub(crate) fn cell_goes(horizon: Horizon, c: &Cell) -> bool
    ensures { result ≡ cell_goes horizon.before horizon.limit c.now }
{
    ends_before(horizon, cell_end(c)) && c.at() < horizon.limit
}

/// Whether a compaction may drop the atom: it was dead before the second `before`, which is the
/// compaction's moment less gc_grace_seconds, and its timestamp in microseconds is earlier than
/// `limit`, the least that is kept elsewhere under the key.
pub fn droppable(atom: &Atom, before: i64, limit: i64) -> bool
    ensures { result ≡ droppable before limit atom.now }
{
    let horizon = Horizon { before, limit };
    match atom {
        Atom::PartitionDeletion(d) => deletion_goes(horizon, d),
        Atom::RangeDeletion(_, _, d) => deletion_goes(horizon, d),
        Atom::RowDeletion(_, d) => deletion_goes(horizon, d),
        Atom::CollectionDeletion(_, _, d) => deletion_goes(horizon, d),
        Atom::Live(_, l) => live_goes(horizon, l),
        Atom::Write(_, _, _, c) => cell_goes(horizon, c),
        Atom::StaticWrite(_, _, c) => cell_goes(horizon, c),
        Atom::StaticCollectionDeletion(_, d) => deletion_goes(horizon, d),
    }
}
