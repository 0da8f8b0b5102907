//! Cells and their paths, passed over.

ghost use Rattle.std.specs.Prelude.{◌≡◌};
ghost use Rattle.cas_codec.specs.Reading.{Gives};
ghost use Rattle.cas_records.specs.Reading.{ttl_at, content_at, may_hold, cell_at};
ghost use Rattle.cas_records.specs.Columns.{has_path, path_at};
ghost use Rattle.cas_skips.specs.Told.{passed};

use cas_codec::{ReadFault, Reader};
use cas_records::read_timestamp;
use cas_types::{Column, LIST_PATH, Shape, TTL_LIMIT, check};

#[tactic(auto, unfolding(cas_records::specs::Reading::ttl_at))]
#[inline(always)]
fn read_ttl(reader: &mut Reader<'_>) -> Result<u32, ReadFault>
    ensures { Gives (λ ttl. ttl) result reader.new (ttl_at reader.old) }
{
    reader.u32_within(1, TTL_LIMIT)
}

// What a cell of the column may hold.
#[tactic(auto, unfolding(cas_records::specs::Reading::may_hold))]
#[inline(always)]
fn may_hold(column: &Column, bytes: &[u8]) -> bool
    ensures { result ≡ may_hold column.now bytes.now }
{
    match column.shape {
        Shape::One => check(column.tag, bytes).is_ok(),
        Shape::Set => bytes.is_empty(),
        Shape::List => check(column.tag, bytes).is_ok(),
        Shape::Map => check(column.value_type(), bytes).is_ok(),
    }
}

// The bytes of a cell.
#[tactic(auto, unfolding(cas_records::specs::Reading::content_at))]
#[inline(always)]
fn see_content<'a>(reader: &mut Reader<'a>, column: &Column) -> Result<&'a [u8], ReadFault>
    ensures { Gives (λ b. b.now) result reader.new (content_at (may_hold column.now) reader.old) }
{
    let at = reader.at();
    let bytes = reader.bytes32()?;
    if !may_hold(column, bytes) {
        return Err(ReadFault::Bad { at });
    }
    Ok(bytes)
}

/// Passes over a cell of the column.
#[tactic(auto, unfolding(cas_records::specs::Reading::cell_at))]
#[inline(always)]
pub(crate) fn skip_cell(reader: &mut Reader<'_>, column: &Column) -> Result<(), ReadFault>
    ensures { Gives (λ done. tt) result reader.new (passed (cell_at (may_hold column.now) reader.old)) }
{
    let rank = reader.u8_within(0, 2)?;
    read_timestamp(reader)?;
    match rank {
        0 => {
            see_content(reader, column)?;
            Ok(())
        }
        1 => {
            reader.i64()?;
            read_ttl(reader)?;
            see_content(reader, column)?;
            Ok(())
        }
        _ => {
            reader.i64()?;
            Ok(())
        }
    }
}

// Whether a cell of the column may stand at that path.
#[tactic(auto, unfolding(cas_records::specs::Columns::has_path))]
#[inline(always)]
fn has_path(column: &Column, bytes: &[u8]) -> bool
    ensures { result ≡ has_path column.now bytes.now }
{
    match column.shape {
        Shape::One => bytes.is_empty(),
        Shape::Set => check(column.tag, bytes).is_ok(),
        Shape::List => bytes.len() as u64 == LIST_PATH,
        Shape::Map => check(column.tag, bytes).is_ok(),
    }
}

/// The path of a cell of the column.
#[tactic(auto, unfolding(cas_records::specs::Columns::path_at))]
#[inline(always)]
pub(crate) fn see_path<'a>(reader: &mut Reader<'a>, column: &Column) -> Result<&'a [u8], ReadFault>
    ensures { Gives (λ b. b.now) result reader.new (path_at column.now reader.old) }
{
    let at = reader.at();
    let bytes = reader.bytes16()?;
    if !has_path(column, bytes) {
        return Err(ReadFault::Bad { at });
    }
    Ok(bytes)
}
