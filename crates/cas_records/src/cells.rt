//! Cells as bytes.

ghost use Rattle.std.specs.Prelude.{◌≡◌, ◌+◌, ◌<◌, ◌≤◌, ◌^◌, ◌++◌, length, OnOk, OnErr, vec_len};
ghost use Rattle.std.specs.Vec.{vec_capacity};
ghost use Rattle.cas_codec.specs.Reading.{Gives};
ghost use Rattle.cas_atoms.specs.LogLength.{cell_length};
ghost use Rattle.cas_cell.specs.Cells.{cell_value};
ghost use Rattle.cas_records.specs.Spelling.{cell_bytes};
ghost use Rattle.cas_records.specs.Reading.{content_at, may_hold, cell_at};

use crate::times::{read_timestamp, read_ttl};
use cas_cell::Cell;
use cas_codec::{ReadFault, Reader, put_bytes32, put_i64, put_u8, put_u32};
use cas_types::{Bytes, Column, Mem, Shape, check};
use std::alloc::Global;

// What a cell of the column may hold.
#[tactic(auto, unfolding(crate::specs::Reading::may_hold))]
fn may_hold(column: &Column, bytes: &[u8]) -> bool
    ensures { result ≡ may_hold column.now bytes.now }
{
    match column.shape {
        Shape::One => check(column.tag, bytes).is_ok(),
        Shape::Set => bytes.is_empty(),
        Shape::List => check(column.tag, bytes).is_ok(),
        Shape::Map => check(column.value_type(), bytes).is_ok(),
    }
}

// The bytes of a cell.
#[tactic(auto, unfolding(crate::specs::Reading::content_at))]
fn read_content(alloc: Global, reader: &mut Reader<'_>, column: &Column) -> Result<Bytes, ReadFault>
    ensures { Gives (λ b. b) result reader.new (content_at (may_hold column.now) reader.old) }
{
    let at = reader.at();
    let bytes = reader.bytes32()?;
    if !may_hold(column, bytes) {
        return Err(ReadFault::Bad { at });
    }
    Ok(Bytes::copy_of(alloc, bytes)?)
}

/// Reads a cell of the column.
#[tactic(auto, unfolding(crate::specs::Reading::cell_at))]
pub fn read_cell(alloc: Global, reader: &mut Reader<'_>, column: &Column) -> Result<Cell, ReadFault>
    ensures { Gives (λ c. c) result reader.new (cell_at (may_hold column.now) reader.old) }
{
    let rank = reader.u8_within(0, 2)?;
    let at = read_timestamp(reader)?;
    match rank {
        0 => {
            let value = read_content(alloc, reader, column)?;
            Ok(Cell::Plain { at, value })
        }
        1 => {
            let expiry = reader.i64()?;
            let ttl = read_ttl(reader)?;
            let value = read_content(alloc, reader, column)?;
            Ok(Cell::Expiring {
                at,
                expiry,
                ttl,
                value,
            })
        }
        _ => {
            let second = reader.i64()?;
            Ok(Cell::Tombstone { at, second })
        }
    }
}

/// Adds a cell.
pub fn put_cell(out: &mut Vec<u8>, cell: &Cell) -> Result<(), Mem>
    requires { length (cell_value cell.now) < 2 ^ 32 }
    ensures written { OnOk result (out.new.items ≡ out.old.items ++ cell_bytes cell.now) }
    ensures length { OnOk result (vec_len out.new ≡ vec_len out.old + cell_length cell.now) }
    ensures unchanged { OnErr result (out.new.items ≡ out.old.items) }
    ensures full { OnErr result (vec_capacity out.old < vec_len out.old + cell_length cell.now) }
    ensures capacity { vec_capacity out.old ≤ vec_capacity out.new }
{
    match cell {
        Cell::Plain { at, value } => {
            out.reserve(13 + value.as_slice().len())?;
            put_u8(out, 0)?;
            put_i64(out, *at)?;
            put_bytes32(out, value.as_slice())
        }
        Cell::Expiring {
            at,
            expiry,
            ttl,
            value,
        } => {
            out.reserve(25 + value.as_slice().len())?;
            put_u8(out, 1)?;
            put_i64(out, *at)?;
            put_i64(out, *expiry)?;
            put_u32(out, *ttl)?;
            put_bytes32(out, value.as_slice())
        }
        Cell::Tombstone { at, second } => {
            out.reserve(17)?;
            put_u8(out, 2)?;
            put_i64(out, *at)?;
            put_i64(out, *second)
        }
    }
}
