//! What was written is read back, whatever follows it, and is as long as the log counts it.

ghost use Rattle.std.specs.Prelude.{◌≡◌, List, length};
ghost use Rattle.cas_types.specs.declared.schema.Column.{Column};
ghost use Rattle.cas_bounds.specs.declared.order.Ordered.{Ordered};
ghost use Rattle.cas_bounds.specs.declared.cuts.Clustering.{Clustering};
ghost use Rattle.cas_bounds.specs.declared.cuts.Cut.{Cut};
ghost use Rattle.cas_cell.specs.declared.deletion.Deletion.{Deletion};
ghost use Rattle.cas_cell.specs.declared.liveness.Liveness.{Liveness};
ghost use Rattle.cas_cell.specs.declared.cell.Cell.{Cell};
ghost use Rattle.cas_codec.specs.Exact.{IsExact};
ghost use Rattle.cas_atoms.specs.LogLength.{deletion_length, live_length, cell_length, values_length, cut_length};
ghost use Rattle.cas_records.specs.Spelling.{deletion_bytes, live_bytes, cell_bytes, clustering_bytes, cut_bytes};
ghost use Rattle.cas_atoms.specs.Fits.{FitsTimestamp, FitsKey, FitsDeletion, FitsLive, FitsClustering, FitsCut};
ghost use Rattle.cas_codec.specs.Fields.{u16, i64, bytes16};
ghost use Rattle.cas_atoms.specs.Fits.{FitsPath};
ghost use Rattle.cas_records.specs.declared.columns.Wanted.{Wanted};
ghost use Rattle.cas_records.specs.Columns.{column_at, path_at};
ghost use Rattle.cas_records.specs.Allowed.{FitsCellOf, IsNamed};
ghost use Rattle.cas_records.specs.Reading.{timestamp_at, key_at, deletion_at, live_at, may_hold, cell_at, clustering_at, cut_at};

/// Timestamps, partition keys, deletions, what an `INSERT` leaves of a row, and the cells of each column are read where their
/// spelling stands and nowhere else, whatever follows it, and are as long as the log counts them.
pub fn cells_are_exact()
    ensures timestamp { IsExact FitsTimestamp i64 timestamp_at }
    ensures key { IsExact FitsKey bytes16 key_at }
    ensures deletion { IsExact FitsDeletion deletion_bytes deletion_at }
    ensures live { IsExact FitsLive live_bytes live_at }
    ensures cell { (column : Column) → IsExact (FitsCellOf column) cell_bytes (cell_at (may_hold column)) }
    ensures deletion_length { (d : Deletion) → length (deletion_bytes d) ≡ deletion_length }
    ensures live_length { (l : Liveness) → length (live_bytes l) ≡ live_length l }
    ensures cell_length { (c : Cell) → length (cell_bytes c) ≡ cell_length c }
{}

/// The places of rows and the cuts between them are read where their spelling stands and nowhere
/// else, whatever follows it, and are as long as the log counts them.
pub fn bounds_are_exact()
    ensures clustering { (order : List Ordered) → IsExact (FitsClustering order) clustering_bytes (clustering_at order) }
    ensures cut { (order : List Ordered) → IsExact (FitsCut order) cut_bytes (cut_at order) }
    ensures clustering_length { (c : Clustering) → length (clustering_bytes c) ≡ values_length c.values }
    ensures cut_length { (c : Cut) → length (cut_bytes c) ≡ cut_length c }
{}

/// The columns that a table has, by their numbers, and the paths of the cells of each, are read
/// where their spelling stands and nowhere else, whatever follows it.
pub fn columns_are_exact()
    ensures column { (wanted : Wanted) (columns : List Column) → IsExact (IsNamed wanted columns) (λ p. u16 p.0.number) (column_at wanted columns) }
    ensures path { (column : Column) → IsExact (FitsPath column) bytes16 (path_at column) }
{}
