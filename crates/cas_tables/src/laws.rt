//! What was written is read back, and what holds of table files.

ghost use Rattle.cas_codec.specs.Exact.{IsExact};
ghost use Rattle.cas_tables.specs.declared.header.Header.{Header};
ghost use Rattle.cas_tables.specs.Spelling.{header_bytes};
ghost use Rattle.cas_tables.specs.Reading.{header_at, header_of_at};
ghost use Rattle.cas_tables.specs.Allowed.{FitsHeader};
ghost use Rattle.cas_tables.specs.Laws.{TablesAreOne, LengthIsTold, PartsFit, PlacesAreRight};

/// Headers are read where their spelling stands and nowhere else, whatever follows them; and so is
/// that of one file of a table, in either version.
pub fn headers_are_exact()
    ensures any { IsExact FitsHeader header_bytes header_at }
    ensures of_file { (h : Header) → FitsHeader h
        → IsExact (λ v. Unit {0}) (λ v. header_bytes (record h { version = v })) (header_of_at h.table h.shard h.number) }
{}

/// Contents that a table may have are told by one file.
pub fn tables_are_one()
    ensures { TablesAreOne }
{}

/// What is told of the length of a file is its length.
pub fn length_is_told()
    ensures { LengthIsTold }
{}

/// The index, the filter, what is told and the footer of contents that a table may have are such as
/// a table file may have: they are read back.
pub fn parts_fit()
    ensures { PartsFit }
{}

/// Partitions, blocks, index, filter and info stand where index and footer tell.
pub fn places_are_right()
    ensures { PlacesAreRight }
{}
