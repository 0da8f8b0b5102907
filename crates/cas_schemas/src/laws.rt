//! What was written is read back, whatever follows it.

ghost use Rattle.std.specs.Prelude.{ℕ, Bool, List, ◌≤◌};
ghost use Rattle.cas_types.specs.declared.limits.TheConstants.{COLUMN_LIMIT};
ghost use Rattle.cas_types.specs.declared.schema.Column.{Column};
ghost use Rattle.cas_types.specs.declared.schema.TableSchema.{TableSchema};
ghost use Rattle.cas_codec.specs.Exact.{IsExact};
ghost use Rattle.cas_schemas.specs.Spelling.{columns_bytes, schema_bytes};
ghost use Rattle.cas_schemas.specs.Reading.{columns_at, schema_at};
ghost use Rattle.cas_schemas.specs.Columns.{FitColumns, HaveRoom};
ghost use Rattle.cas_schemas.specs.Allowed.{FitsTable, HasSpelling};

/// The definitions of tables and the columns that are added to them are read where their spelling
/// stands and nowhere else, whatever follows it; and each has room in its fields.
pub fn schemas_are_exact()
    ensures columns { (limit : ℕ) (new : Bool) (before : List Column) → limit ≤ COLUMN_LIMIT
        → IsExact (FitColumns limit new before) columns_bytes (columns_at limit new before) }
    ensures table { (tables : List TableSchema) → IsExact (FitsTable tables) schema_bytes (schema_at tables) }
    ensures columns_spelled { (limit : ℕ) (new : Bool) (before columns : List Column) → limit ≤ COLUMN_LIMIT
        → FitColumns limit new before columns → HaveRoom columns }
    ensures spelled { (tables : List TableSchema) (t : TableSchema) → FitsTable tables t → HasSpelling t }
{}
