//! Values of the native types as constants.

ghost use Rattle.std.specs.Prelude.{◌≡◌, ◌++◌, length, OnOk, IsTrue};
ghost use Rattle.std.specs.List.{flat_map};
ghost use Rattle.std.specs.Int.{w64};
ghost use Rattle.uuid.specs.Text.{hyphenated_text, lower};
ghost use Rattle.cas_types.specs.Values.{signed_number, day_number, is_value};
ghost use Rattle.cas_render.specs.Text.{quoted_byte, quoted, blob_text, boolean_text, number_text, day_text, constant_text, value_text};

use crate::pieces::{append, append_number, append_signed};
use cas_types::{
    Mem, TypeTag, bigint_value, check, compare_bytes, date_value, int_value, smallint_value,
    tinyint_value,
};
use std::alloc::Global;
use std::cmp::Ordering;
use uuid::Uuid;

fn append_quoted_byte(out: &mut Vec<u8>, byte: u8) -> Result<(), Mem>
    ensures { OnOk result (out.new.items ≡ out.old.items ++ quoted_byte byte) }
{
    if byte == b'\'' {
        append(out, b"''")
    } else {
        append(out, &[byte])
    }
}

fn append_quoted_bytes(out: &mut Vec<u8>, bytes: &[u8]) -> Result<(), Mem>
    ensures { OnOk result (out.new.items ≡ out.old.items ++ flat_map quoted_byte bytes.now) }
{
    for byte in bytes {
        append_quoted_byte(out, *byte)?;
    }
    Ok(())
}

fn append_quoted(out: &mut Vec<u8>, bytes: &[u8]) -> Result<(), Mem>
    ensures { OnOk result (out.new.items ≡ out.old.items ++ quoted bytes.now) }
{
    append(out, b"'")?;
    append_quoted_bytes(out, bytes)?;
    append(out, b"'")
}

fn append_blob(alloc: Global, out: &mut Vec<u8>, bytes: &[u8]) -> Result<(), Mem>
    ensures { OnOk result (out.new.items ≡ out.old.items ++ blob_text bytes.now) }
{
    let digits = hex::encode(alloc, bytes)?;
    append(out, b"0x")?;
    append(out, digits.as_bytes())
}

fn append_boolean(out: &mut Vec<u8>, bytes: &[u8]) -> Result<(), Mem>
    ensures { OnOk result (out.new.items ≡ out.old.items ++ boolean_text bytes.now) }
{
    if compare_bytes(bytes, &[1]) == Ordering::Equal {
        append(out, b"true")
    } else {
        append(out, b"false")
    }
}

fn append_uuid(out: &mut Vec<u8>, bytes: &[u8]) -> Result<(), Mem>
    requires { length bytes.now ≡ 16 }
    ensures { OnOk result (out.new.items ≡ out.old.items ++ hyphenated_text lower bytes.now) }
{
    let mut id = [0_u8; 16];
    id.copy_from_slice(bytes);
    let mut buffer = Uuid::encode_buffer();
    let text = Uuid::from_bytes(id).hyphenated().encode_lower(&mut buffer);
    append(out, text.as_bytes())
}

// The number, where there is one.
fn append_if_number(out: &mut Vec<u8>, number: Option<i64>) -> Result<(), Mem>
    ensures { OnOk result (out.new.items ≡ out.old.items ++ number_text number) }
{
    match number {
        Some(number) => append_signed(out, number),
        None => Ok(()),
    }
}

// The day, where there is one.
fn append_if_day(out: &mut Vec<u8>, day: Option<u32>) -> Result<(), Mem>
    ensures { OnOk result (out.new.items ≡ out.old.items ++ day_text day) }
{
    match day {
        Some(day) => append_number(out, u64::from(day)),
        None => Ok(()),
    }
}

fn append_constant(alloc: Global, out: &mut Vec<u8>, tag: TypeTag, bytes: &[u8]) -> Result<(), Mem>
    requires { IsTrue (is_value tag bytes.now) }
    ensures { OnOk result (out.new.items ≡ out.old.items ++ constant_text tag bytes.now) }
{
    match tag {
        TypeTag::Ascii | TypeTag::Text => append_quoted(out, bytes),
        TypeTag::Blob => append_blob(alloc, out, bytes),
        TypeTag::Boolean => append_boolean(out, bytes),
        TypeTag::TinyInt => append_if_number(out, tinyint_value(bytes).map(i64::from)),
        TypeTag::SmallInt => append_if_number(out, smallint_value(bytes).map(i64::from)),
        TypeTag::Int => append_if_number(out, int_value(bytes).map(i64::from)),
        TypeTag::BigInt | TypeTag::Time | TypeTag::Timestamp => {
            append_if_number(out, bigint_value(bytes))
        }
        TypeTag::Date => append_if_day(out, date_value(bytes)),
        TypeTag::TimeUuid | TypeTag::Uuid => append_uuid(out, bytes),
    }
}

#[tactic(auto, unfolding(crate::specs::Text::value_text))]
pub(crate) fn append_value(
    alloc: Global,
    out: &mut Vec<u8>,
    tag: TypeTag,
    bytes: &[u8],
) -> Result<(), Mem>
    ensures { OnOk result (out.new.items ≡ out.old.items ++ value_text tag bytes.now) }
{
    if check(tag, bytes).is_ok() {
        append_constant(alloc, out, tag, bytes)
    } else {
        append_blob(alloc, out, bytes)
    }
}
