//! Reads the definition of a table.

ghost use Rattle.std.specs.Prelude.{◌≡◌, true, [], length};
ghost use Rattle.cas_types.specs.declared.limits.TheConstants.{COLUMN_LIMIT};
ghost use Rattle.cas_codec.specs.Reading.{Gives, checked, u16_at};
ghost use Rattle.cas_schemas.specs.Reading.{columns_at, is_next_table, schema_at};

use crate::columns::read_columns;
use crate::names::read_table_name;
use crate::options::read_options;
use cas_codec::{ReadFault, Reader};
use cas_types::{COLUMN_LIMIT, Column, List, TableSchema};
use std::alloc::Global;

/// The most tables.
pub const TABLE_LIMIT: u64 = 64;

// The number of the table after so many.
#[tactic(auto, unfolding(cas_codec::specs::Reading::checked))]
fn read_number(reader: &mut Reader<'_>, count: usize) -> Result<u16, ReadFault>
    ensures { Gives (λ n. n) result reader.new (checked (is_next_table count) u16_at reader.old) }
{
    let at = reader.at();
    let number = reader.u16()?;
    if number as usize == count && (number as u64) < TABLE_LIMIT {
        return Ok(number);
    }
    Err(ReadFault::Bad { at })
}

fn read_new_columns(alloc: Global, reader: &mut Reader<'_>) -> Result<List<Column>, ReadFault>
    ensures { Gives (λ l. l) result reader.new (columns_at COLUMN_LIMIT true [] reader.old) }
{
    let none = List::from_vec(Vec::new(alloc));
    read_columns(alloc, reader, COLUMN_LIMIT as u16, true, &none)
}

/// Reads the definition of the table that comes after these.
#[tactic(auto, unfolding(crate::specs::Reading::schema_at))]
pub fn read_schema(
    alloc: Global,
    reader: &mut Reader<'_>,
    tables: &[TableSchema],
) -> Result<TableSchema, ReadFault>
    ensures { Gives (λ t. t) result reader.new (schema_at tables.now reader.old) }
{
    let number = read_number(reader, tables.len())?;
    let name = read_table_name(alloc, reader, tables)?;
    let columns = read_new_columns(alloc, reader)?;
    let options = read_options(reader)?;
    Ok(TableSchema {
        number,
        name,
        columns,
        options,
    })
}
