//! What is left of a column, which of two wins, and whether it shows a value.

ghost use Rattle.std.specs.Prelude.{◌≡◌, IfOk};
ghost use Rattle.std.specs.Ordering.{is_gt, on, then_cmp, nat_cmp};
ghost use Rattle.cas_types.specs.Values.{bytes_cmp};
ghost use Rattle.cas_cell.specs.Cells.{cell_at, cell_rank, cell_second, cell_ttl, cell_value, cell_cmp, cell_lives};

use cas_types::{Bytes, compare_bytes};
use std::alloc::AllocError;
use std::cmp::Ordering;

/// What a write or a `DELETE` of one column of a row leaves behind.
#[derive(Drop)]
pub enum Cell {
    /// A value with no TTL, and the write's timestamp in microseconds.
    Plain {
        at: i64,
        value: Bytes,
    },
    /// A value with a TTL, which ends at the second `expiry`.
    Expiring {
        at: i64,
        expiry: i64,
        ttl: u32,
        value: Bytes,
    },
    /// A `DELETE`, and the second at which it was made.
    Tombstone {
        at: i64,
        second: i64,
    },
}

impl Cell {
    /// A copy of the cell.
    pub fn copied(&self) -> Result<Self, AllocError>
        ensures { IfOk result (λ c. c ≡ self.now) }
    {
        Ok(match self {
            Cell::Plain { at, value } => Cell::Plain {
                at: *at,
                value: value.clone()?,
            },
            Cell::Expiring {
                at,
                expiry,
                ttl,
                value,
            } => Cell::Expiring {
                at: *at,
                expiry: *expiry,
                ttl: *ttl,
                value: value.clone()?,
            },
            Cell::Tombstone { at, second } => Cell::Tombstone {
                at: *at,
                second: *second,
            },
        })
    }

    /// The timestamp of the write or the `DELETE`.
    pub fn at(&self) -> i64
        ensures { result ≡ cell_at self.now }
    {
        match self {
            Cell::Plain { at, .. } => *at,
            Cell::Expiring { at, .. } => *at,
            Cell::Tombstone { at, .. } => *at,
        }
    }

    fn rank(&self) -> u8
        ensures { result ≡ cell_rank self.now }
    {
        match self {
            Cell::Plain { .. } => 0,
            Cell::Expiring { .. } => 1,
            Cell::Tombstone { .. } => 2,
        }
    }

    fn second(&self) -> i64
        ensures { result ≡ cell_second self.now }
    {
        match self {
            Cell::Plain { .. } => 0,
            Cell::Expiring { expiry, .. } => *expiry,
            Cell::Tombstone { second, .. } => *second,
        }
    }

    fn ttl(&self) -> u32
        ensures { result ≡ cell_ttl self.now }
    {
        match self {
            Cell::Expiring { ttl, .. } => *ttl,
            _ => 0,
        }
    }

    /// The bytes that were written, of which a `DELETE` has none.
    pub fn value(&self) -> &[u8]
        ensures { result.now ≡ cell_value self.now }
    {
        match self {
            Cell::Plain { value, .. } => value.as_slice(),
            Cell::Expiring { value, .. } => value.as_slice(),
            Cell::Tombstone { .. } => &[],
        }
    }
}

// The values are read only where the timestamps, ranks and seconds tie.
fn order(a: &Cell, b: &Cell) -> Ordering
    ensures { result ≡ cell_cmp a.now b.now }
{
    let times = a.at().cmp(&b.at());
    let ranks = a.rank().cmp(&b.rank());
    let seconds = a.second().cmp(&b.second());
    times.then(ranks.then(seconds.then_with(|| content_order(a, b))))
}

// What decides between two of one timestamp, rank and second: the bytes, then the TTL.
fn content_order(a: &Cell, b: &Cell) -> Ordering
    ensures { result ≡ then_cmp (on cell_value bytes_cmp) (on cell_ttl nat_cmp) a.now b.now }
{
    compare_bytes(a.value(), b.value()).then(a.ttl().cmp(&b.ttl()))
}

/// Whether `a` stands over `b`: the later timestamp, and at one timestamp a `DELETE` over a value
/// with a TTL over one with none, then the later second, the greater bytes, the greater TTL.
pub fn wins(a: &Cell, b: &Cell) -> bool
    ensures { result ≡ is_gt (cell_cmp a.now b.now) }
{
    order(a, b).is_gt()
}

/// Whether the cell shows a value: with no TTL always, with one until the second `expiry`, and a
/// tombstone never.
pub fn alive(c: &Cell, now: i64) -> bool
    ensures { result ≡ cell_lives now c.now }
{
    match c {
        Cell::Plain { .. } => true,
        Cell::Expiring { expiry, .. } => now < *expiry,
        Cell::Tombstone { .. } => false,
    }
}
