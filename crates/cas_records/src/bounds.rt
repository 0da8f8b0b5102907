//! The places of rows, and the cuts between them, as bytes.

ghost use Rattle.std.specs.Prelude.{◌≡◌, ◌+◌, ◌-◌, ◌<◌, ◌≤◌, ◌^◌, ◌++◌, min, length, take, OnOk, OnErr, vec_len, IfOk};
ghost use Rattle.std.specs.Int.{is_in_range};
ghost use Rattle.std.specs.List.{AllByRecursion, sum_by, flat_map};
ghost use Rattle.std.specs.Vec.{vec_capacity};
ghost use Rattle.cas_codec.specs.Fields.{bytes16};
ghost use Rattle.cas_codec.specs.Reading.{Gives, checked, u8_at};
ghost use Rattle.cas_atoms.specs.LogLength.{short_length, values_length, cut_length};
ghost use Rattle.cas_records.specs.Spelling.{values_bytes, clustering_bytes, cut_bytes};
ghost use Rattle.cas_records.specs.Reading.{value_at, values_at, clustering_at, cut_at};
ghost use Rattle.cas_records.specs.Inner.Values.{after_values};

use cas_bounds::{Clustering, Cut, Ordered, RowOrder, Values};
use cas_codec::{ReadFault, Reader, put_bytes16, put_flag, put_u8};
use cas_types::{Bytes, Mem, TypeTag, check};
use std::alloc::Global;

// A value of the type.
#[tactic(auto, unfolding(crate::specs::Reading::value_at))]
fn read_value(alloc: Global, reader: &mut Reader<'_>, tag: TypeTag) -> Result<Bytes, ReadFault>
    ensures { Gives (λ b. b) result reader.new (value_at tag reader.old) }
{
    let at = reader.at();
    let bytes = reader.bytes16()?;
    if check(tag, bytes).is_err() {
        return Err(ReadFault::Bad { at });
    }
    Ok(Bytes::copy_of(alloc, bytes)?)
}

// A value of each of the columns, after those that were read.
#[tactic(auto, using(crate::proofs::BoundLaws::values_none, crate::proofs::BoundLaws::values_more, crate::proofs::BoundLaws::values_fault))]
fn read_values(
    alloc: Global,
    reader: &mut Reader<'_>,
    order: &[Ordered],
    values: &mut Vec<Bytes>,
) -> Result<(), ReadFault>
    ensures { Gives (λ done. values.new.items) result reader.new (after_values values.old.items (values_at order.now reader.old)) }
{
    match order {
        [] => Ok(()),
        [first, others @ ..] => {
            let value = read_value(alloc, reader, first.tag)?;
            values.push(value)?;
            read_values(alloc, reader, others, values)
        }
    }
}

// A value of each of the columns. A sole one takes no memory of its own.
#[tactic(auto, using(crate::proofs::BoundLaws::sole_value, crate::proofs::BoundLaws::sole_fault, crate::proofs::BoundLaws::values_from_none))]
fn read_each(alloc: Global, reader: &mut Reader<'_>, order: &[Ordered]) -> Result<Values, ReadFault>
    ensures { Gives (λ values. values) result reader.new (values_at order.now reader.old) }
{
    match order {
        [sole] => Ok(Values::one(read_value(alloc, reader, sole.tag)?)),
        _ => {
            let mut values = Vec::with_capacity(alloc, order.len())?;
            read_values(alloc, reader, order, &mut values)?;
            Ok(Values::from_vec(values))
        }
    }
}

// How many values there are, from least to greatest.
#[tactic(auto, unfolding(cas_codec::specs::Reading::checked))]
fn read_count(reader: &mut Reader<'_>, least: usize, greatest: usize) -> Result<u8, ReadFault>
    ensures exact { Gives (λ n. n) result reader.new (checked (is_in_range least greatest) u8_at reader.old) }
    ensures within { IfOk result (λ n. (least ≤ n) × (n ≤ greatest)) }
{
    let at = reader.at();
    let count = reader.u8()?;
    if least <= count as usize && count as usize <= greatest {
        return Ok(count);
    }
    Err(ReadFault::Bad { at })
}

/// Reads the place of a row of a table of this order.
#[tactic(auto, unfolding(crate::specs::Reading::clustering_at))]
pub fn read_clustering(
    alloc: Global,
    reader: &mut Reader<'_>,
    order: &RowOrder,
) -> Result<Clustering, ReadFault>
    ensures { Gives (λ c. c) result reader.new (clustering_at order.now reader.old) }
{
    read_count(reader, order.len(), order.len())?;
    let values = read_each(alloc, reader, order.as_slice())?;
    Ok(Clustering {
        values,
        order: order.clone()?,
    })
}

/// Reads a cut between the rows of a table of this order.
#[tactic(auto, unfolding(crate::specs::Reading::cut_at))]
pub fn read_cut(alloc: Global, reader: &mut Reader<'_>, order: &RowOrder) -> Result<Cut, ReadFault>
    ensures exact { Gives (λ c. c) result reader.new (cut_at order.now reader.old) }
    ensures order { IfOk result (λ c. c.order ≡ order.now) }
{
    let after = reader.flag()?;
    let count = read_count(reader, 0, order.len())?;
    let prefix = read_each(alloc, reader, &order.as_slice()[..count as usize])?;
    Ok(Cut {
        prefix,
        after,
        order: order.clone()?,
    })
}

// The length of a value, with the two bytes that tell it.
fn short_len(bytes: &[u8]) -> usize
    ensures { result ≡ min (short_length bytes.now) (2 ^ 64 - 1) }
{
    bytes.len().saturating_add(2)
}

/// The length in bytes of the place of a row, or of a cut's prefix; 2^64-1 where it is greater.
pub fn values_len(values: &[Bytes]) -> usize
    ensures { result ≡ min (values_length values.now) (2 ^ 64 - 1) }
{
    let mut total: usize = 1;
    for value in values {
        total = total.saturating_add(short_len(value.as_slice()));
    }
    total
}

// Adds values, each with its length.
#[tactic(auto, using(crate::proofs::BoundLaws::values_longer))]
fn put_each(out: &mut Vec<u8>, values: &[Bytes]) -> Result<(), Mem>
    requires { AllByRecursion (λ v. length v < 2 ^ 16) values.now }
    ensures written { OnOk result (out.new.items ≡ out.old.items ++ flat_map bytes16 values.now) }
    ensures length { OnOk result (vec_len out.new ≡ vec_len out.old + sum_by short_length values.now) }
    ensures full { OnErr result (vec_capacity out.old < vec_len out.old + sum_by short_length values.now) }
    ensures capacity { vec_capacity out.old ≤ vec_capacity out.new }
{
    match values {
        [] => Ok(()),
        [first, others @ ..] => {
            put_bytes16(out, first.as_slice())?;
            put_each(out, others)
        }
    }
}

fn put_values(out: &mut Vec<u8>, values: &[Bytes]) -> Result<(), Mem>
    requires few { length values.now < 2 ^ 8 }
    requires short { AllByRecursion (λ v. length v < 2 ^ 16) values.now }
    ensures written { OnOk result (out.new.items ≡ out.old.items ++ values_bytes values.now) }
    ensures length { OnOk result (vec_len out.new ≡ vec_len out.old + values_length values.now) }
    ensures unchanged { OnErr result (out.new.items ≡ out.old.items) }
    ensures full { OnErr result (vec_capacity out.old < vec_len out.old + values_length values.now) }
    ensures capacity { vec_capacity out.old ≤ vec_capacity out.new }
{
    out.reserve(values_len(values))?;
    put_u8(out, values.len() as u8)?;
    put_each(out, values)
}

/// Adds the place of a row.
pub fn put_clustering(out: &mut Vec<u8>, clustering: &Clustering) -> Result<(), Mem>
    requires few { length clustering.now.values < 2 ^ 8 }
    requires short { AllByRecursion (λ v. length v < 2 ^ 16) clustering.now.values }
    ensures written { OnOk result (out.new.items ≡ out.old.items ++ clustering_bytes clustering.now) }
    ensures length { OnOk result (vec_len out.new ≡ vec_len out.old + values_length clustering.now.values) }
    ensures unchanged { OnErr result (out.new.items ≡ out.old.items) }
    ensures full { OnErr result (vec_capacity out.old < vec_len out.old + values_length clustering.now.values) }
    ensures capacity { vec_capacity out.old ≤ vec_capacity out.new }
{
    put_values(out, clustering.values.as_slice())
}

/// Adds a cut.
pub fn put_cut(out: &mut Vec<u8>, cut: &Cut) -> Result<(), Mem>
    requires few { length cut.now.prefix < 2 ^ 8 }
    requires short { AllByRecursion (λ v. length v < 2 ^ 16) cut.now.prefix }
    ensures written { OnOk result (out.new.items ≡ out.old.items ++ cut_bytes cut.now) }
    ensures length { OnOk result (vec_len out.new ≡ vec_len out.old + cut_length cut.now) }
    ensures unchanged { OnErr result (out.new.items ≡ out.old.items) }
    ensures full { OnErr result (vec_capacity out.old < vec_len out.old + cut_length cut.now) }
    ensures capacity { vec_capacity out.old ≤ vec_capacity out.new }
{
    let prefix = cut.prefix.as_slice();
    out.reserve(values_len(prefix).saturating_add(1))?;
    put_flag(out, cut.after)?;
    put_values(out, prefix)
}
