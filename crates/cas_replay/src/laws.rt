//! The files that are read are the segments of the grammar.

ghost use Rattle.std.specs.Prelude.{◌≡◌, ◌<◌, ◌^◌, ℕ, List, [], Ok};
ghost use Rattle.std.specs.List.{AllByRecursion};
ghost use Rattle.cas_types.specs.Limits.{IsShardCount};
ghost use Rattle.cas_types.specs.declared.schema.TableSchema.{TableSchema};
ghost use Rattle.cas_codec.specs.Exact.{AreBytes};
ghost use Rattle.cas_atoms.specs.declared.atom.Mutation.{Mutation};
ghost use Rattle.cas_mutations.specs.Allowed.{AreTables};
ghost use Rattle.cas_replay.specs.Reading.{log_of};
ghost use Rattle.cas_replay.specs.Grammar.{IsLog};

/// What is a log of these tables is read, with its mutations, whatever follows its closed gates; and
/// what is read is such a log.
pub fn logs_are_exact()
    ensures again { (tables : List TableSchema) (shards : ℕ) (file : ℕ → List ℕ) (numbers : List ℕ) (mutations : List Mutation) → AreTables tables
        → IsShardCount shards → AllByRecursion (λ n. n < 2 ^ 64) numbers → IsLog tables shards file numbers mutations
        → log_of tables shards file numbers [] ≡ Ok mutations }
    ensures found { (tables : List TableSchema) (shards : ℕ) (file : ℕ → List ℕ) (numbers : List ℕ) (mutations : List Mutation) → AreTables tables
        → IsShardCount shards → ((n : ℕ) → AreBytes (file n)) → log_of tables shards file numbers [] ≡ Ok mutations
        → IsLog tables shards file numbers mutations }
{}
