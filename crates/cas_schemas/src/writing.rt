//! Writes the definitions of tables.

ghost use Rattle.std.specs.Prelude.{◌≡◌, ◌<◌, ◌^◌, ◌++◌, length, OnOk};
ghost use Rattle.std.specs.List.{AllByRecursion, flat_map};
ghost use Rattle.cas_schemas.specs.Spelling.{second_bytes, types_bytes, column_bytes, columns_bytes};
ghost use Rattle.cas_schemas.specs.Spelling.{ages_bytes, buckets_bytes, sizes_bytes, window_bytes, options_bytes, schema_bytes};
ghost use Rattle.cas_schemas.specs.Columns.{HaveRoom};
ghost use Rattle.cas_schemas.specs.Allowed.{HasSpelling};

use crate::codes::{kind_code, shape_code, strategy_code, tag_code, unit_code};
use cas_codec::{put_bytes16, put_u8, put_u16, put_u32, put_u64};
use cas_types::{Column, Mem, Options, TableSchema, TypeTag};

fn put_second(out: &mut Vec<u8>, second: Option<TypeTag>) -> Result<(), Mem>
    ensures { OnOk result (out.new.items ≡ out.old.items ++ second_bytes second) }
{
    match second {
        None => Ok(()),
        Some(tag) => put_u8(out, tag_code(tag)),
    }
}

fn put_types(out: &mut Vec<u8>, column: &Column) -> Result<(), Mem>
    ensures { OnOk result (out.new.items ≡ out.old.items ++ types_bytes column.now) }
{
    put_u8(out, shape_code(column.shape))?;
    put_u8(out, tag_code(column.tag))?;
    put_second(out, column.second)
}

fn put_column(out: &mut Vec<u8>, column: &Column) -> Result<(), Mem>
    requires { length column.now.name < 2 ^ 16 }
    ensures { OnOk result (out.new.items ≡ out.old.items ++ column_bytes column.now) }
{
    put_bytes16(out, column.name.as_str().as_bytes())?;
    put_u8(out, kind_code(column.kind))?;
    put_types(out, column)
}

fn put_each(out: &mut Vec<u8>, columns: &[Column]) -> Result<(), Mem>
    requires { AllByRecursion (λ c. length c.name < 2 ^ 16) columns.now }
    ensures { OnOk result (out.new.items ≡ out.old.items ++ flat_map column_bytes columns.now) }
{
    match columns {
        [] => Ok(()),
        [first, others @ ..] => {
            put_column(out, first)?;
            put_each(out, others)
        }
    }
}

/// Adds columns after their number; where memory ran out, a part of them may stand there.
pub fn put_columns(out: &mut Vec<u8>, columns: &[Column]) -> Result<(), Mem>
    requires { HaveRoom columns.now }
    ensures { OnOk result (out.new.items ≡ out.old.items ++ columns_bytes columns.now) }
{
    put_u16(out, columns.len() as u16)?;
    put_each(out, columns)
}

fn put_ages(out: &mut Vec<u8>, options: Options) -> Result<(), Mem>
    ensures { OnOk result (out.new.items ≡ out.old.items ++ ages_bytes options) }
{
    put_u32(out, options.gc_grace_seconds)?;
    put_u32(out, options.default_time_to_live)?;
    put_u8(out, strategy_code(options.strategy))
}

fn put_buckets(out: &mut Vec<u8>, options: Options) -> Result<(), Mem>
    ensures { OnOk result (out.new.items ≡ out.old.items ++ buckets_bytes options) }
{
    put_u16(out, options.min_threshold)?;
    put_u16(out, options.max_threshold)?;
    put_u32(out, options.bucket_low)?;
    put_u32(out, options.bucket_high)
}

fn put_sizes(out: &mut Vec<u8>, options: Options) -> Result<(), Mem>
    ensures { OnOk result (out.new.items ≡ out.old.items ++ sizes_bytes options) }
{
    put_u64(out, options.min_sstable_size)?;
    put_u16(out, options.sstable_size_in_mb)?;
    put_u16(out, options.fanout_size)
}

fn put_window(out: &mut Vec<u8>, options: Options) -> Result<(), Mem>
    ensures { OnOk result (out.new.items ≡ out.old.items ++ window_bytes options) }
{
    put_u8(out, unit_code(options.unit))?;
    put_u16(out, options.window)
}

fn put_options(out: &mut Vec<u8>, options: Options) -> Result<(), Mem>
    ensures { OnOk result (out.new.items ≡ out.old.items ++ options_bytes options) }
{
    put_ages(out, options)?;
    put_buckets(out, options)?;
    put_sizes(out, options)?;
    put_window(out, options)
}

/// Adds the definition of a table; where memory ran out, a part of it may stand there.
pub fn put_schema(out: &mut Vec<u8>, table: &TableSchema) -> Result<(), Mem>
    requires { HasSpelling table.now }
    ensures { OnOk result (out.new.items ≡ out.old.items ++ schema_bytes table.now) }
{
    put_u16(out, table.number)?;
    put_bytes16(out, table.name.as_str().as_bytes())?;
    put_columns(out, table.columns.as_slice())?;
    put_options(out, table.options)
}
