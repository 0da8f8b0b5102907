//! Rows that are lent one after another.

ghost use Rattle.std.specs.Prelude.{◌≡◌, ◌++◌, []};
ghost use Rattle.cas_partition.specs.Inner.Lent.{with_lent, GivesRow, rows_in, static_rows, rows_amid};

use crate::body::Body;
use crate::row_key::RowKey;
use std::collections::BTreeMap;
use std::collections::btree_map::Range;
use std::mem;

/// Rows in order, the first of which can be looked at.
#[derive(Drop)]
pub(crate) struct LentRows<'a> {
    pub(crate) first: Option<(&'a RowKey, &'a Body)>,
    others: Range<'a, RowKey, Body>,
}

// The next row, and the others stay.
fn first_row<'a>(rest: &mut Range<'a, RowKey, Body>) -> Option<(&'a RowKey, &'a Body)>
    ensures { with_lent result rest.new ≡ rest.old }
{
    rest.next()
}

impl<'a> LentRows<'a> {
    /// The first of them, which then is passed.
    pub(crate) fn next(&mut self) -> Option<(&'a RowKey, &'a Body)>
        ensures { GivesRow (rows_in self.old) result (rows_in self.new) }
    {
        if self.first.is_none() {
            return None;
        }
        let next = first_row(&mut self.others);
        mem::replace(&mut self.first, next)
    }
}

// The static row, which stands before all rows.
fn static_row(rows: &BTreeMap<RowKey, Body>) -> Option<(&RowKey, &Body)>
    ensures { with_lent result [] ≡ static_rows rows.now.entries }
{
    let mut all = rows.iter();
    let (key, body) = all.next()?;
    if key.row().is_some() {
        return None;
    }
    Some((key, body))
}

// The rows from one key on, before another.
fn rows_amid<'a>(
    rows: &'a BTreeMap<RowKey, Body>,
    low: &RowKey,
    high: &RowKey,
) -> Range<'a, RowKey, Body>
    ensures { result ≡ rows_amid low.now high.now rows.now.entries }
{
    if low.cmp(high).is_lt() {
        rows.range(low..high)
    } else {
        rows.range(low..low)
    }
}

/// The static row, and the rows from one key on, before another.
pub(crate) fn lend<'a>(
    rows: &'a BTreeMap<RowKey, Body>,
    low: &RowKey,
    high: &RowKey,
) -> LentRows<'a>
    ensures { rows_in result ≡ static_rows rows.now.entries ++ rows_amid low.now high.now rows.now.entries }
{
    let mut others = rows_amid(rows, low, high);
    match static_row(rows) {
        None => {
            let first = first_row(&mut others);
            LentRows { first, others }
        }
        Some(first) => LentRows {
            first: Some(first),
            others,
        },
    }
}
