//! What was written is read back, whatever follows it, and nothing else is.

ghost use Rattle.std.specs.Prelude.{◌≡◌, List, length};
ghost use Rattle.cas_types.specs.Limits.{IsNarrow};
ghost use Rattle.cas_types.specs.Schemas.{is_regular, is_static};
ghost use Rattle.cas_types.specs.declared.schema.Column.{Column};
ghost use Rattle.cas_bounds.specs.ClusteringOrder.{clustering_order};
ghost use Rattle.cas_codec.specs.Exact.{IsExact, IsPrefixFree};
ghost use Rattle.cas_records.specs.declared.columns.Wanted.TheVariants.{Regular, Static};
ghost use Rattle.cas_streams.specs.declared.fragment.Fragment.{Fragment};
ghost use Rattle.cas_fragments.specs.Spelling.{columns_bytes, row_bytes, fragment_bytes};
ghost use Rattle.cas_fragments.specs.Reading.{columns_at, row_at, fragment_at, head_at};
ghost use Rattle.cas_fragments.specs.Allowed.{FitColumns, FitsRow, FitsFragment, FitsHead, HasSpelling};
ghost use Rattle.cas_fragments.specs.Blocks.{head_bytes};
ghost use Rattle.cas_fragments.specs.Lengths.{fragment_length};
ghost use Rattle.cas_fragments.specs.declared.heads.Version.{Version};
ghost use Rattle.cas_fragments.specs.Laws.{BlocksAreExact, WholesAreStreams, BlocksArePartitions, PartitionsAreExact};

/// The columns of a row, and those of the static row, are read where their spelling stands and
/// nowhere else, whatever follows it.
pub fn columns_are_exact()
    ensures in_rows { (columns : List Column) → IsNarrow columns → IsExact (FitColumns is_regular columns) columns_bytes (columns_at Regular 0 columns) }
    ensures in_static_row { (columns : List Column) → IsNarrow columns → IsExact (FitColumns is_static columns) columns_bytes (columns_at Static 0 columns) }
{}

/// Rows, fragments and the heads of partitions of a table, these in either version, are read where
/// their spelling stands and nowhere else, whatever follows it; so no spelling begins another one. Fragments are as long as
/// they are counted, and each that fits has a spelling.
pub fn fragments_are_exact()
    ensures row { (columns : List Column) → IsNarrow columns → IsExact (FitsRow columns) row_bytes (row_at (clustering_order columns) columns) }
    ensures fragment { (columns : List Column) → IsNarrow columns
        → IsExact (FitsFragment columns) fragment_bytes (fragment_at (clustering_order columns) columns) }
    ensures head { (version : Version) (columns : List Column) → IsNarrow columns
        → IsExact (FitsHead version columns) (λ h. head_bytes version h.0 h.1 h.2) (head_at version columns) }
    ensures alone { (columns : List Column) → IsNarrow columns → IsPrefixFree (FitsFragment columns) fragment_bytes }
    ensures length { (f : Fragment) → length (fragment_bytes f) ≡ fragment_length f }
    ensures spelled { (columns : List Column) (f : Fragment) → FitsFragment columns f → HasSpelling f }
{}

/// What is read of a block is a block of the table's fragments that may stand there, and fills it;
/// and each such block is read.
pub fn blocks_are_exact()
    ensures { BlocksAreExact }
{}

/// The fragments of a partition behind its static columns are a well-formed stream; and those of a
/// well-formed stream, of which each fits, are a partition's.
pub fn wholes_are_streams()
    ensures { WholesAreStreams }
{}

/// A partition's fragments are cut into blocks in one way.
pub fn blocks_are_partitions()
    ensures { BlocksArePartitions }
{}

/// Partitions are read where they stand and nowhere else; what stands in one is a well-formed
/// stream, and each well-formed stream of which all fits has one.
pub fn partitions_are_exact()
    ensures { PartitionsAreExact }
{}
