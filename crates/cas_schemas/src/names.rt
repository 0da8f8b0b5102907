//! The names of tables and columns.

ghost use Rattle.std.specs.Prelude.{◌≡◌, true, IfOk, IfErr};
ghost use Rattle.std.specs.List.{list_any};
ghost use Rattle.std.specs.Str.{bytes_eq, is_utf8};
ghost use Rattle.cas_codec.specs.Reading.{Gives, checked, bytes16_at};
ghost use Rattle.cas_schemas.specs.Names.{is_name, has_letters, is_new_column, is_new_table};

use cas_codec::{ReadFault, Reader};
use cas_types::{Column, TableSchema, Text};
use std::alloc::{AllocError, Global};
use std::str::from_utf8;

/// The most bytes of the name of a table or of a column.
pub const NAME_LIMIT: usize = 48;

fn is_text(bytes: &[u8]) -> bool
    ensures { result ≡ is_utf8 bytes.now }
{
    from_utf8(bytes).is_ok()
}

#[tactic(auto, unfolding(crate::specs::Names::is_name))]
fn is_name(bytes: &[u8]) -> bool
    ensures { result ≡ is_name bytes.now }
{
    1 <= bytes.len() && bytes.len() <= NAME_LIMIT && is_text(bytes)
}

fn has_letters(name: &[u8]) -> bool
    ensures { result ≡ has_letters name.now }
{
    name.iter()
        .all(|byte| byte.is_ascii_alphanumeric() || *byte == b'_')
}

fn has_name(text: &Text, name: &[u8]) -> bool
    ensures { result ≡ bytes_eq text.now name.now }
{
    text.as_str().as_bytes() == name
}

fn is_column(columns: &[Column], name: &[u8]) -> bool
    ensures { result ≡ list_any (λ c. bytes_eq c.name name.now) columns.now }
{
    columns.iter().any(|column| has_name(&column.name, name))
}

fn is_table(tables: &[TableSchema], name: &[u8]) -> bool
    ensures { result ≡ list_any (λ t. bytes_eq t.name name.now) tables.now }
{
    tables.iter().any(|table| has_name(&table.name, name))
}

// A copy of a name.
fn text_of(alloc: Global, name: &[u8]) -> Result<Text, AllocError>
    requires { is_name name.now ≡ true }
    ensures { IfOk result (λ text. text ≡ name.now) }
{
    let Ok(text) = from_utf8(name) else {
        return Err(AllocError);
    };
    Ok(Text::copy_of(alloc, text)?)
}

// The bytes of a name that none of the columns has.
#[tactic(auto, unfolding(crate::specs::Names::is_new_column, cas_codec::specs::Reading::checked))]
fn new_column<'a>(reader: &mut Reader<'a>, before: &[Column]) -> Result<&'a [u8], ReadFault>
    ensures read { Gives (λ n. n.now) result reader.new (checked (is_new_column before.now) bytes16_at reader.old) }
    ensures name { IfOk result (λ n. is_name n.now ≡ true) }
{
    let at = reader.at();
    let name = reader.bytes16()?;
    if !is_name(name) || is_column(before, name) {
        return Err(ReadFault::Bad { at });
    }
    Ok(name)
}

// The bytes of a name that a table may have and none of these has.
#[tactic(auto, unfolding(crate::specs::Names::is_new_table, cas_codec::specs::Reading::checked))]
fn new_table<'a>(reader: &mut Reader<'a>, tables: &[TableSchema]) -> Result<&'a [u8], ReadFault>
    ensures read { Gives (λ n. n.now) result reader.new (checked (is_new_table tables.now) bytes16_at reader.old) }
    ensures name { IfOk result (λ n. is_name n.now ≡ true) }
{
    let at = reader.at();
    let name = reader.bytes16()?;
    if !is_name(name) || !has_letters(name) || is_table(tables, name) {
        return Err(ReadFault::Bad { at });
    }
    Ok(name)
}

/// Reads a name that none of the columns has.
pub(crate) fn read_column_name(
    alloc: Global,
    reader: &mut Reader<'_>,
    before: &[Column],
) -> Result<Text, ReadFault>
    ensures { Gives (λ n. n) result reader.new (checked (is_new_column before.now) bytes16_at reader.old) }
{
    let name = new_column(reader, before)?;
    Ok(text_of(alloc, name)?)
}

/// Reads a name that a table may have and none of these has.
pub(crate) fn read_table_name(
    alloc: Global,
    reader: &mut Reader<'_>,
    tables: &[TableSchema],
) -> Result<Text, ReadFault>
    ensures { Gives (λ n. n) result reader.new (checked (is_new_table tables.now) bytes16_at reader.old) }
{
    let name = new_table(reader, tables)?;
    Ok(text_of(alloc, name)?)
}
