//! The facts so far, with one piece of a partition more.

ghost use Rattle.std.specs.Prelude.{◌≡◌, fold};
ghost use Rattle.cas_facts.specs.Inner.Gathering as gathering;

use crate::facts::Facts;
use cas_atoms::{PathCell, Row, RowColumn};
use cas_cell::{Deletion, Liveness};
use cas_purge::{cell_end, live_end};
use cas_streams::Fragment;

// The later of two ends, where both end.
fn last_end(a: Option<i64>, b: Option<i64>) -> Option<i64>
    ensures { result ≡ gathering.last_end a b }
{
    match (a, b) {
        (Some(d), Some(e)) => Some(d.max(e)),
        _ => None,
    }
}

// The facts of both.
fn joined(a: Facts, b: Facts) -> Facts
    ensures { result ≡ gathering.joined a b }
{
    Facts {
        least: a.least.min(b.least),
        greatest: a.greatest.max(b.greatest),
        dead: last_end(a.dead, b.dead),
    }
}

// With an atom of that timestamp and end.
fn with_one(facts: Option<Facts>, at: i64, end: Option<i64>) -> Option<Facts>
    ensures { result ≡ gathering.with_one facts (gathering.lone at end) }
{
    let lone = Facts {
        least: at,
        greatest: at,
        dead: end,
    };
    match facts {
        Some(f) => Some(joined(f, lone)),
        None => Some(lone),
    }
}

/// With a deletion, if there is one.
pub(crate) fn with_deletion(facts: Option<Facts>, d: Option<Deletion>) -> Option<Facts>
    ensures { result ≡ gathering.with_deletion facts d }
{
    match d {
        Some(d) => with_one(facts, d.at, Some(d.second)),
        None => facts,
    }
}

fn with_live(facts: Option<Facts>, live: Option<Liveness>) -> Option<Facts>
    ensures { result ≡ gathering.with_live facts live }
{
    match live {
        Some(l) => with_one(facts, l.at(), live_end(&l)),
        None => facts,
    }
}

fn with_cells(facts: Option<Facts>, cells: &[PathCell]) -> Option<Facts>
    ensures { result ≡ fold gathering.with_cell facts cells.now }
{
    let mut now = facts;
    for p in cells {
        now = with_one(now, p.cell.at(), cell_end(&p.cell));
    }
    now
}

fn with_column(facts: Option<Facts>, c: &RowColumn) -> Option<Facts>
    ensures { result ≡ gathering.with_column facts c.now }
{
    with_cells(with_deletion(facts, c.deletion), c.cells.as_slice())
}

fn with_columns(facts: Option<Facts>, columns: &[RowColumn]) -> Option<Facts>
    ensures { result ≡ gathering.with_columns facts columns.now }
{
    let mut now = facts;
    for c in columns {
        now = with_column(now, c);
    }
    now
}

fn with_row(facts: Option<Facts>, r: &Row) -> Option<Facts>
    ensures { result ≡ gathering.with_row facts r.now }
{
    let deleted = with_deletion(facts, r.deletion);
    let inserted = with_live(deleted, r.live);
    with_columns(inserted, r.columns.as_slice())
}

/// With a fragment.
pub(crate) fn with_fragment(facts: Option<Facts>, f: &Fragment) -> Option<Facts>
    ensures { result ≡ gathering.with_fragment facts f.now }
{
    match f {
        Fragment::Static(columns) => with_columns(facts, columns.as_slice()),
        Fragment::Row(r) => with_row(facts, r),
        Fragment::Marker(_, d) => with_deletion(facts, *d),
    }
}
