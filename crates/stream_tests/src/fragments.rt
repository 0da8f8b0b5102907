//! Fragments of a table `k tinyint, c tinyint`, by hand, and in short.

use cas_atoms::Row;
use cas_bounds::{Clustering, Cut, Ordered, RowOrder, Values};
use cas_cell::{Deletion, Liveness};
use cas_streams::{Fragment, FragmentSource, Part};
use cas_types::{Bytes, List, TypeTag};
use std::alloc::{AllocError, Global};

/// A fragment in short: r for a row, e or f for one whose TTL ends at the second 99 or 100, b or a for a marker
/// before or after a row; the row's c; and the timestamp of what stands there, 0 for none.
pub(crate) type Short = (char, u8, i64);

/// Where a stream ends.
pub(crate) const END: Short = ('-', 0, 0);

// One ascending clustering column.
pub(crate) fn order(alloc: Global) -> Result<RowOrder, AllocError> {
    Ok(RowOrder::from_vec(vec![in alloc;
        Ordered {
            tag: TypeTag::TinyInt,
            descending: false,
        },
    ]?))
}

// Before or after the row of that value; without one, the partition's end there.
pub(crate) fn cut(alloc: Global, value: Option<u8>, after: bool) -> Result<Cut, AllocError> {
    let prefix = match value {
        None => Values::from_vec(Vec::new(alloc)),
        Some(c) => Values::one(Bytes::copy_of(alloc, &[c])?),
    };
    Ok(Cut {
        prefix,
        after,
        order: order(alloc)?,
    })
}

fn deletion(at: i64) -> Option<Deletion> {
    if at == 0 {
        None
    } else {
        Some(Deletion { at, second: 0 })
    }
}

fn expiring(at: i64, expiry: i64) -> Liveness {
    Liveness::Expiring { at, expiry, ttl: 5 }
}

fn fragment(alloc: Global, (kind, value, at): Short) -> Result<Fragment, AllocError> {
    let cut = cut(alloc, Some(value), kind == 'a')?;
    let live = match kind {
        'r' => Liveness::Plain { at },
        'e' => expiring(at, 99),
        'f' => expiring(at, 100),
        _ => return Ok(Fragment::Marker(cut, deletion(at))),
    };
    Ok(Fragment::Row(Row {
        clustering: Clustering {
            values: cut.prefix,
            order: cut.order,
        },
        deletion: None,
        live: Some(live),
        columns: List::from_vec(Vec::new(alloc)),
    }))
}

/// These fragments behind others, under a deletion of the whole at that timestamp, if it isn't 0.
pub(crate) fn stream(
    alloc: Global,
    top: i64,
    others: Vec<Fragment>,
    shorts: &[Short],
) -> Result<Part, AllocError> {
    let mut fragments = others;
    for short in shorts {
        fragments.push(fragment(alloc, *short)?)?;
    }
    Ok(Part::new(deletion(top), fragments))
}

fn short(fragment: &Fragment) -> Short {
    match fragment {
        Fragment::Static(_) => ('s', 0, 0),
        Fragment::Row(row) => {
            let at = row.live.map(|live| live.at()).unwrap_or(0);
            ('r', first_byte(&row.clustering.values), at)
        }
        Fragment::Marker(cut, deletion) => {
            let at = deletion.map(|d| d.at).unwrap_or(0);
            (
                if cut.after { 'a' } else { 'b' },
                first_byte(&cut.prefix),
                at,
            )
        }
    }
}

fn first_byte(values: &Values) -> u8 {
    match values.as_slice() {
        [value, ..] => value.as_slice().first().copied().unwrap_or(0),
        [] => 0,
    }
}

/// The first six fragments of a source.
pub(crate) fn first_six<I: FragmentSource>(source: &mut I) -> Result<[Short; 6], I::Fault> {
    let mut found = [END; 6];
    for i in 0..6 {
        if let Some(fragment) = source.next()? {
            found[i] = short(&fragment);
        }
    }
    Ok(found)
}
