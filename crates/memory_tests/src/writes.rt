//! Statements on the table `k tinyint, c tinyint, v tinyint, s tinyint static, PRIMARY KEY (k, c)`.

use cas_atoms::{Atom, ColumnRef, Mutation};
use cas_bounds::{Clustering, Cut, Ordered, RowOrder, Slice, Values};
use cas_cell::{Cell, Deletion, Liveness};
use cas_types::{Bytes, List, TypeTag};
use std::alloc::{AllocError, Global};

/// What is done to a partition. What is written is the statement's timestamp.
#[derive(Clone, Copy)]
pub(crate) enum Statement {
    /// INSERT of the row.
    Insert(u8),
    /// UPDATE of v in the row.
    Update(u8),
    /// UPDATE of s.
    UpdateStatic,
    /// DELETE of the row.
    DeleteRow(u8),
    /// DELETE of the rows from the first to the second, both among them.
    DeleteRows(u8, u8),
}

fn order(alloc: Global) -> Result<RowOrder, AllocError> {
    Ok(RowOrder::from_vec(vec![in alloc;
        Ordered {
            tag: TypeTag::TinyInt,
            descending: false,
        },
    ]?))
}

fn values(alloc: Global, c: u8) -> Result<Values, AllocError> {
    Ok(Values::one(Bytes::copy_of(alloc, &[c])?))
}

fn place(alloc: Global, c: u8) -> Result<Clustering, AllocError> {
    Ok(Clustering {
        values: values(alloc, c)?,
        order: order(alloc)?,
    })
}

fn cut(alloc: Global, c: u8, after: bool) -> Result<Cut, AllocError> {
    Ok(Cut {
        prefix: values(alloc, c)?,
        after,
        order: order(alloc)?,
    })
}

fn end(alloc: Global, after: bool) -> Result<Cut, AllocError> {
    Ok(Cut {
        prefix: Values::from_vec(Vec::new(alloc)),
        after,
        order: order(alloc)?,
    })
}

/// That row, or all rows of a partition.
pub(crate) fn slice(alloc: Global, row: Option<u8>) -> Result<Slice, AllocError> {
    Ok(match row {
        Some(c) => Slice {
            lo: cut(alloc, c, false)?,
            hi: cut(alloc, c, true)?,
        },
        None => Slice {
            lo: end(alloc, false)?,
            hi: end(alloc, true)?,
        },
    })
}

fn column(number: u16) -> ColumnRef {
    ColumnRef { number, path: None }
}

fn cell(alloc: Global, at: u8) -> Result<Cell, AllocError> {
    Ok(Cell::Plain {
        at: i64::from(at),
        value: Bytes::copy_of(alloc, &[at])?,
    })
}

fn written(alloc: Global, c: u8, at: u8) -> Result<Atom, AllocError> {
    let path = Bytes::copy_of(alloc, &[])?;
    Ok(Atom::Write(place(alloc, c)?, column(2), path, cell(alloc, at)?))
}

fn inserted(alloc: Global, c: u8, at: u8) -> Result<Vec<Atom>, AllocError> {
    let live = Liveness::Plain { at: i64::from(at) };
    let place = place(alloc, c)?;
    Ok(vec![in alloc; Atom::Live(place, live), written(alloc, c, at)?]?)
}

fn static_written(alloc: Global, at: u8) -> Result<Atom, AllocError> {
    let path = Bytes::copy_of(alloc, &[])?;
    Ok(Atom::StaticWrite(column(3), path, cell(alloc, at)?))
}

fn atoms(alloc: Global, statement: Statement, at: u8) -> Result<Vec<Atom>, AllocError> {
    let deletion = Deletion {
        at: i64::from(at),
        second: 0,
    };
    let atom = match statement {
        Statement::Insert(c) => return inserted(alloc, c, at),
        Statement::Update(c) => written(alloc, c, at)?,
        Statement::UpdateStatic => static_written(alloc, at)?,
        Statement::DeleteRow(c) => Atom::RowDeletion(place(alloc, c)?, deletion),
        Statement::DeleteRows(least, greatest) => {
            let lo = cut(alloc, least, false)?;
            Atom::RangeDeletion(lo, cut(alloc, greatest, true)?, deletion)
        }
    };
    Ok(vec![in alloc; atom]?)
}

pub(crate) fn key(alloc: Global, k: u8) -> Result<Bytes, AllocError> {
    Bytes::copy_of(alloc, &[k])
}

/// The statement on the partition k, at the timestamp.
pub(crate) fn mutation(
    alloc: Global,
    k: u8,
    statement: Statement,
    at: u8,
) -> Result<Mutation, AllocError> {
    Ok(Mutation {
        table: 0,
        shard: 0,
        number: 0,
        drawn: false,
        at: i64::from(at),
        moment: 0,
        key: key(alloc, k)?,
        atoms: List::from_vec(atoms(alloc, statement, at)?),
    })
}
