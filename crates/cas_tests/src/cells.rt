//! Which of two wins, and what is alive, by hand.

ghost use Rattle.std.specs.Prelude.{◌<◌};

use cas_cell::{
    Cell, Deletion, Liveness, alive, cell_laws, covers, del_wins, deletion_laws, live_alive,
    live_laws, live_wins, wins,
};
use cas_types::Bytes;
use std::alloc::Global;

// Each wins over those above it: a value has its timestamp and bytes, one with a TTL its timestamp, expiry,
// TTL and bytes, a DELETE its timestamp and second.
const CELLS: &str = "\
deleted -7 9
value -6 0x
value 5 0x
value 5 0x00
value 5 0x7f09
value 5 0x80
value 5 0xff
expiring 5 -1 1 0x00
expiring 5 900 60 0x01
expiring 5 900 61 0x01
expiring 5 900 60 0x0100
expiring 5 900 60 0xff
expiring 5 901 1 0x00
deleted 5 1
deleted 5 2";

fn bytes_of(alloc: Global, word: &str) -> Option<Bytes> {
    let digits = word.strip_prefix("0x")?;
    Some(Bytes::from_vec(hex::decode(alloc, digits).ok()?))
}

fn cell_of(alloc: Global, line: &str) -> Option<Cell> {
    let mut words = line.split(' ');
    let form = words.next()?;
    let at = words.next()?.parse().ok()?;
    if form == "value" {
        let value = bytes_of(alloc, words.next()?)?;
        return Some(Cell::Plain { at, value });
    }
    let second = words.next()?.parse().ok()?;
    if form == "deleted" {
        return Some(Cell::Tombstone { at, second });
    }
    let ttl = words.next()?.parse().ok()?;
    Some(Cell::Expiring {
        at,
        expiry: second,
        ttl,
        value: bytes_of(alloc, words.next()?)?,
    })
}

// Whether the first wins, of two lines' cells.
fn is_first_greater(alloc: Global, a: &str, b: &str) -> Option<bool> {
    let a = cell_of(alloc, a)?;
    let b = cell_of(alloc, b)?.copied().ok()?;
    Some(wins(&a, &b) && a.at() >= b.at())
}

#[test]
fn the_greater_cell_wins(rt: HostRuntime) {
    for (i, a) in CELLS.lines().enumerate() {
        for (j, b) in CELLS.lines().enumerate() {
            assert!(rt; is_first_greater(rt.alloc(), a, b) == Some(i > j));
        }
    }
}

// The timestamp of each, and its expiry and TTL. Each wins over those above it.
const LIVES: [(i64, Option<(i64, u32)>); 5] = [
    (-6, None),
    (5, None),
    (5, Some((-1, 9))),
    (5, Some((900, 3))),
    (5, Some((900, 4))),
];

fn liveness(life: (i64, Option<(i64, u32)>)) -> Liveness {
    match life {
        (at, None) => Liveness::Plain { at },
        (at, Some((expiry, ttl))) => Liveness::Expiring { at, expiry, ttl },
    }
}

#[test]
fn the_greater_liveness_wins(rt: HostRuntime) {
    for i in 0..5 {
        for j in 0..5 {
            assert!(rt; live_wins(&liveness(LIVES[i]), &liveness(LIVES[j])) == (i > j));
        }
    }
}

// The timestamp of each, and its second. Each wins over those above it.
const DELETIONS: [(i64, i64); 3] = [(5, 9), (6, 1), (6, 2)];

fn deletion(i: usize) -> Deletion
    requires { i < 3 }
{
    let (at, second) = DELETIONS[i];
    Deletion { at, second }
}

#[test]
fn the_later_deletion_wins(rt: HostRuntime) {
    for i in 0..3 {
        for j in 0..3 {
            assert!(rt; del_wins(&deletion(i), &deletion(j)) == (i > j));
        }
    }
}

#[test]
fn a_deletion_covers_what_is_not_later(rt: HostRuntime) {
    for at in 4..7 {
        assert!(rt; covers(&deletion(0), at) == (at < 6));
    }
}

// Whether the line's cell is alive at the second.
fn is_alive(alloc: Global, line: &str, now: i64) -> Option<bool> {
    Some(alive(&cell_of(alloc, line)?, now))
}

// Whether of each kind what is to be alive at the second is, of which what has a TTL is or isn't.
fn are_alive(alloc: Global, now: i64, with_ttl: bool) -> bool {
    is_alive(alloc, "expiring 5 900 60 0x01", now) == Some(with_ttl)
        && is_alive(alloc, "value 5 0x01", now) == Some(true)
        && is_alive(alloc, "deleted 5 900", now) == Some(false)
        && live_alive(&liveness((5, Some((900, 60)))), now) == with_ttl
        && live_alive(&liveness((5, None)), now)
}

#[test]
fn a_value_with_a_ttl_is_gone_when_it_expires(rt: HostRuntime) {
    for now in -1..902 {
        assert!(rt; are_alive(rt.alloc(), now, now < 900));
    }
}

// Laws have no body: they are called, and nothing is run.
#[test]
fn laws_of_cells(rt: HostRuntime) {
    cell_laws();
    live_laws();
    deletion_laws();
}
