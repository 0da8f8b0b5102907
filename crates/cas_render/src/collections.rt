//! What stands in a row's column: a value, a number, null or a collection.

ghost use Rattle.std.specs.Prelude.{◌≡◌, ◌++◌, codes, OnOk};
ghost use Rattle.std.specs.List.{flat_map, join_by};
ghost use Rattle.cas_render.specs.Text.{value_text, entry_text, datum_text};

use crate::constants::append_value;
use crate::pieces::{append, append_signed};
use cas_atoms::Datum;
use cas_types::{Bytes, Mem, TypeTag};
use std::alloc::Global;

fn append_further_value(
    alloc: Global,
    out: &mut Vec<u8>,
    tag: TypeTag,
    value: &Bytes,
) -> Result<(), Mem>
    ensures { OnOk result (out.new.items ≡ out.old.items ++ (codes ", " ++ value_text tag value.now)) }
{
    append(out, b", ")?;
    append_value(alloc, out, tag, value.as_slice())
}

fn append_further_values(
    alloc: Global,
    out: &mut Vec<u8>,
    tag: TypeTag,
    values: &[Bytes],
) -> Result<(), Mem>
    ensures { OnOk result (out.new.items ≡ out.old.items ++ flat_map (λ v. codes ", " ++ value_text tag v) values.now) }
{
    for value in values {
        append_further_value(alloc, out, tag, value)?;
    }
    Ok(())
}

// The elements of a set or a list.
fn append_values(
    alloc: Global,
    out: &mut Vec<u8>,
    tag: TypeTag,
    values: &[Bytes],
) -> Result<(), Mem>
    ensures { OnOk result (out.new.items ≡ out.old.items ++ join_by (value_text tag) (codes ", ") values.now) }
{
    match values {
        [] => Ok(()),
        [first, rest @ ..] => {
            append_value(alloc, out, tag, first.as_slice())?;
            append_further_values(alloc, out, tag, rest)
        }
    }
}

/// The types of a map's keys and values.
#[derive(Clone, Copy)]
struct MapTypes {
    keys: TypeTag,
    values: TypeTag,
}

fn append_entry(
    alloc: Global,
    out: &mut Vec<u8>,
    types: MapTypes,
    entry: &(Bytes, Bytes),
) -> Result<(), Mem>
    ensures { OnOk result (out.new.items ≡ out.old.items ++ entry_text types.keys types.values entry.now) }
{
    append_value(alloc, out, types.keys, entry.0.as_slice())?;
    append(out, b": ")?;
    append_value(alloc, out, types.values, entry.1.as_slice())
}

fn append_further_entry(
    alloc: Global,
    out: &mut Vec<u8>,
    types: MapTypes,
    entry: &(Bytes, Bytes),
) -> Result<(), Mem>
    ensures { OnOk result (out.new.items ≡ out.old.items ++ (codes ", " ++ entry_text types.keys types.values entry.now)) }
{
    append(out, b", ")?;
    append_entry(alloc, out, types, entry)
}

fn append_further_entries(
    alloc: Global,
    out: &mut Vec<u8>,
    types: MapTypes,
    entries: &[(Bytes, Bytes)],
) -> Result<(), Mem>
    ensures { OnOk result (out.new.items ≡ out.old.items ++ flat_map (λ e. codes ", " ++ entry_text types.keys types.values e) entries.now) }
{
    for entry in entries {
        append_further_entry(alloc, out, types, entry)?;
    }
    Ok(())
}

fn append_entries(
    alloc: Global,
    out: &mut Vec<u8>,
    types: MapTypes,
    entries: &[(Bytes, Bytes)],
) -> Result<(), Mem>
    ensures { OnOk result (out.new.items ≡ out.old.items ++ join_by (entry_text types.keys types.values) (codes ", ") entries.now) }
{
    match entries {
        [] => Ok(()),
        [first, rest @ ..] => {
            append_entry(alloc, out, types, first)?;
            append_further_entries(alloc, out, types, rest)
        }
    }
}

#[tactic(auto, unfolding(crate::specs::Text::datum_text))]
pub(crate) fn append_datum(alloc: Global, out: &mut Vec<u8>, datum: &Datum) -> Result<(), Mem>
    ensures { OnOk result (out.new.items ≡ out.old.items ++ datum_text datum.now) }
{
    match datum {
        Datum::Null => append(out, b"null"),
        Datum::Number(number) => append_signed(out, *number),
        Datum::One(tag, bytes) => append_value(alloc, out, *tag, bytes.as_slice()),
        Datum::Set(tag, values) => {
            append(out, b"{")?;
            append_values(alloc, out, *tag, values.as_slice())?;
            append(out, b"}")
        }
        Datum::List(tag, values) => {
            append(out, b"[")?;
            append_values(alloc, out, *tag, values.as_slice())?;
            append(out, b"]")
        }
        Datum::Map(keys, values, entries) => {
            let types = MapTypes {
                keys: *keys,
                values: *values,
            };
            append(out, b"{")?;
            append_entries(alloc, out, types, entries.as_slice())?;
            append(out, b"}")
        }
    }
}
