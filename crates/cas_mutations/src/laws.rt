//! What was written is read back, whatever follows it, and is as long as the log counts it.

ghost use Rattle.cas_types.specs.declared.schema.Column.{Column};
ghost use Rattle.std.specs.Prelude.{◌≡◌, ◌<◌, ◌^◌, ℕ, List, length};
ghost use Rattle.cas_types.specs.Limits.{IsNarrow, IsShardCount};
ghost use Rattle.cas_types.specs.declared.schema.TableSchema.{TableSchema};
ghost use Rattle.cas_atoms.specs.declared.atom.Atom.{Atom};
ghost use Rattle.cas_atoms.specs.declared.atom.Mutation.{Mutation};
ghost use Rattle.cas_atoms.specs.LogLength.{atom_length, record_length};
ghost use Rattle.cas_atoms.specs.Fits.{FitsMutation};
ghost use Rattle.cas_codec.specs.Exact.{IsExact};
ghost use Rattle.cas_bounds.specs.ClusteringOrder.{clustering_order};
ghost use Rattle.cas_mutations.specs.Spelling.{atom_bytes, record_bytes};
ghost use Rattle.cas_mutations.specs.Reading.{atom_at, record_at};
ghost use Rattle.cas_mutations.specs.Allowed.{FitsAtom, AreTables, HasRecord, FitsRecord};

/// The atoms of each table are read where their spelling stands and nowhere else, whatever follows
/// it, and are as long as the log counts them.
pub fn atoms_are_exact()
    ensures atom { (columns : List Column) → IsNarrow columns → IsExact (FitsAtom columns) atom_bytes (atom_at (clustering_order columns) columns) }
    ensures length { (a : Atom) → length (atom_bytes a) ≡ atom_length a }
{}

/// The records of the mutations of a store's tables are read where their spelling stands and nowhere
/// else, whatever follows it, and are as long as the log counts them; each mutation has a record
/// that is as long as its length can tell.
pub fn records_are_exact()
    ensures exact { (tables : List TableSchema) (shards : ℕ) → AreTables tables → IsShardCount shards
        → IsExact (FitsRecord tables shards) record_bytes (record_at tables shards) }
    ensures length { (m : Mutation) → length (record_bytes m) ≡ record_length m }
    ensures recorded { (table : TableSchema) (shards : ℕ) (m : Mutation) → FitsMutation table shards m → record_length m < 2 ^ 32 → HasRecord m }
{}
