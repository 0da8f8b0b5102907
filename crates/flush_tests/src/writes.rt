//! The table `k tinyint, c tinyint, s tinyint static, v tinyint, PRIMARY KEY (k, c)`, and statements on it.

use cas_atoms::{Atom, ColumnRef, Mutation};
use cas_bounds::{Clustering, Cut, Ordered, RowOrder, Values};
use cas_cell::{Cell, Deletion, Liveness};
use cas_types::{Bytes, Column, Kind, List, Shape, Text, TypeTag};
use std::alloc::{AllocError, Global};

/// What is done to a partition; rows are named by their c.
#[derive(Clone, Copy)]
pub(crate) enum Statement {
    /// INSERT of the row with this v.
    Insert(u8, u8),
    /// UPDATE of the row's v.
    Update(u8, u8),
    /// UPDATE of s.
    UpdateStatic(u8),
    /// DELETE of the row.
    DeleteRow(u8),
    /// DELETE of the rows from the first to the second, both among them.
    DeleteRows(u8, u8),
}

fn column(alloc: Global, kind: Kind) -> Column {
    Column {
        name: Text::from_string(String::new(alloc)),
        kind,
        shape: Shape::One,
        tag: TypeTag::TinyInt,
        second: None,
    }
}

pub(crate) fn columns(alloc: Global) -> Result<List<Column>, AllocError> {
    Ok(List::from_vec(vec![in alloc;
        column(alloc, Kind::Partition),
        column(alloc, Kind::Ascending),
        column(alloc, Kind::Static),
        column(alloc, Kind::Regular),
    ]?))
}

/// How the table orders its rows.
fn order(alloc: Global) -> Result<RowOrder, AllocError> {
    let c = Ordered {
        tag: TypeTag::TinyInt,
        descending: false,
    };
    Ok(RowOrder::from_vec(vec![in alloc; c]?))
}

fn place(alloc: Global, c: u8) -> Result<Clustering, AllocError> {
    let order = order(alloc)?;
    let values = Values::one(Bytes::copy_of(alloc, &[c])?);
    Ok(Clustering { values, order })
}

fn cut(alloc: Global, c: u8, after: bool) -> Result<Cut, AllocError> {
    Ok(Cut {
        prefix: Values::one(Bytes::copy_of(alloc, &[c])?),
        after,
        order: order(alloc)?,
    })
}

fn cell(alloc: Global, value: u8, at: u8) -> Result<Cell, AllocError> {
    Ok(Cell::Plain {
        at: i64::from(at),
        value: Bytes::copy_of(alloc, &[value])?,
    })
}

fn deletion(at: u8) -> Deletion {
    Deletion {
        at: i64::from(at),
        second: 0,
    }
}

fn column_of(number: u16) -> ColumnRef {
    ColumnRef { number, path: None }
}

fn updated(alloc: Global, c: u8, v: u8, at: u8) -> Result<Atom, AllocError> {
    let cell = cell(alloc, v, at)?;
    let place = place(alloc, c)?;
    Ok(Atom::Write(place, column_of(3), Bytes::copy_of(alloc, &[])?, cell))
}

fn shared(alloc: Global, s: u8, at: u8) -> Result<Atom, AllocError> {
    let cell = cell(alloc, s, at)?;
    Ok(Atom::StaticWrite(column_of(2), Bytes::copy_of(alloc, &[])?, cell))
}

fn live(alloc: Global, c: u8, at: u8) -> Result<Atom, AllocError> {
    let live = Liveness::Plain { at: i64::from(at) };
    Ok(Atom::Live(place(alloc, c)?, live))
}

fn row_deleted(alloc: Global, c: u8, at: u8) -> Result<Atom, AllocError> {
    Ok(Atom::RowDeletion(place(alloc, c)?, deletion(at)))
}

fn rows_deleted(alloc: Global, least: u8, greatest: u8, at: u8) -> Result<Atom, AllocError> {
    let lo = cut(alloc, least, false)?;
    Ok(Atom::RangeDeletion(lo, cut(alloc, greatest, true)?, deletion(at)))
}

// What a statement leaves, but for an INSERT's liveness.
fn atom(alloc: Global, statement: Statement, at: u8) -> Result<Atom, AllocError> {
    match statement {
        Statement::Insert(c, v) => updated(alloc, c, v, at),
        Statement::Update(c, v) => updated(alloc, c, v, at),
        Statement::UpdateStatic(s) => shared(alloc, s, at),
        Statement::DeleteRow(c) => row_deleted(alloc, c, at),
        Statement::DeleteRows(least, greatest) => rows_deleted(alloc, least, greatest, at),
    }
}

fn atoms(alloc: Global, statement: Statement, at: u8) -> Result<Vec<Atom>, AllocError> {
    let mut atoms = Vec::new(alloc);
    if let Statement::Insert(c, _) = statement {
        atoms.push(live(alloc, c, at)?)?;
    }
    atoms.push(atom(alloc, statement, at)?)?;
    Ok(atoms)
}

/// The statement on the partition k, at the timestamp.
pub(crate) fn mutation(
    alloc: Global,
    k: u8,
    statement: Statement,
    at: u8,
) -> Result<Mutation, AllocError> {
    Ok(Mutation {
        table: 3,
        shard: 1,
        number: 0,
        drawn: false,
        at: i64::from(at),
        moment: 0,
        key: Bytes::copy_of(alloc, &[k])?,
        atoms: List::from_vec(atoms(alloc, statement, at)?),
    })
}
