//! The heads of partitions, as bytes.

ghost use Rattle.std.specs.Prelude.{◌≡◌, ◌+◌, ◌<◌, ◌≤◌, ◌^◌, ◌++◌, length, OnOk, OnErr, vec_len};
ghost use Rattle.std.specs.Vec.{vec_capacity};
ghost use Rattle.cas_codec.specs.Reading.{Gives};
ghost use Rattle.cas_fragments.specs.Blocks.{head_bytes};
ghost use Rattle.cas_fragments.specs.Reading.{statics_at, head_at};
ghost use Rattle.cas_fragments.specs.Lengths.{head_length};
ghost use Rattle.cas_fragments.specs.Allowed.{HaveRoom};
ghost use Rattle.cas_fragments.specs.declared.heads.Version.TheVariants.{Second};

use crate::columns::{read_columns, read_maybe_deletion};
use crate::lengths::head_len;
use crate::writing::{put_column_parts, put_maybe_deletion};
use cas_atoms::RowColumn;
use cas_cell::Deletion;
use cas_codec::{ReadFault, Reader, put_bytes16};
use cas_records::{Wanted, read_key};
use cas_types::{Bytes, Column, List, Mem};
use std::alloc::Global;

/// The versions of the format of table files. In the first, partitions have no static columns.
#[derive(Clone, Copy)]
pub enum Version {
    First,
    Second,
}

/// The head of a partition: its key, the deletion of all of it, and its static columns.
#[derive(Drop)]
pub struct Head {
    pub key: Bytes,
    pub top: Option<Deletion>,
    pub columns: List<RowColumn>,
}

// The static columns of a head.
#[tactic(auto, unfolding(crate::specs::Reading::statics_at))]
fn read_statics(
    alloc: Global,
    reader: &mut Reader<'_>,
    version: Version,
    columns: &[Column],
) -> Result<List<RowColumn>, ReadFault>
    ensures { Gives (λ cs. cs) result reader.new (statics_at version columns.now reader.old) }
{
    match version {
        Version::First => Ok(List::from_vec(Vec::new(alloc))),
        Version::Second => read_columns(alloc, reader, columns, Wanted::Static),
    }
}

/// Reads the head of a partition of a table with these columns, in a file of this version.
#[tactic(auto, unfolding(crate::specs::Reading::head_at))]
pub fn read_head(
    alloc: Global,
    reader: &mut Reader<'_>,
    version: Version,
    columns: &[Column],
) -> Result<Head, ReadFault>
    ensures { Gives (λ h. (h.key, h.top, h.columns)) result reader.new (head_at version columns.now reader.old) }
{
    let key = read_key(alloc, reader)?;
    let top = read_maybe_deletion(reader)?;
    let columns = read_statics(alloc, reader, version, columns)?;
    Ok(Head { key, top, columns })
}

/// Adds the head of a partition, in the second version.
pub fn put_head(
    out: &mut Vec<u8>,
    key: &[u8],
    top: Option<Deletion>,
    columns: &[RowColumn],
) -> Result<(), Mem>
    requires key { length key.now < 2 ^ 16 }
    requires columns { HaveRoom columns.now }
    ensures written { OnOk result (out.new.items ≡ out.old.items ++ head_bytes Second key.now top columns.now) }
    ensures length { OnOk result (vec_len out.new ≡ vec_len out.old + head_length key.now top columns.now) }
    ensures unchanged { OnErr result (out.new.items ≡ out.old.items) }
    ensures full { OnErr result (vec_capacity out.old < vec_len out.old + head_length key.now top columns.now) }
    ensures capacity { vec_capacity out.old ≤ vec_capacity out.new }
{
    out.reserve(head_len(key, top, columns))?;
    put_bytes16(out, key)?;
    put_maybe_deletion(out, top)?;
    put_column_parts(out, columns)
}
