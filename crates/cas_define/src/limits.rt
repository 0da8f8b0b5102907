//! What limits a definition: the length of names, and how many tables and columns there may be.

ghost use Rattle.std.specs.Prelude.{◌≡◌, ◌||◌, ◌==◌};
ghost use Rattle.std.specs.Char.{is_ascii_alphanumeric};
ghost use Rattle.std.specs.List.{list_all};
ghost use Rattle.cas_define.specs.Limits.{has_name_length, is_table_name, too_many_tables, too_many_columns};

use cas_effects::{Counted, Refusal};
use cas_types::COLUMN_LIMIT;

/// The most tables.
pub const TABLE_LIMIT: u64 = 64;

/// The most bytes of the name of a table or of a column.
pub const NAME_LIMIT: usize = 48;

/// Whether the name is neither empty nor too long.
#[tactic(auto, unfolding(crate::specs::Limits::has_name_length))]
pub(crate) fn has_name_length(name: &str) -> bool
    ensures { result ≡ has_name_length name.now }
{
    0 < name.len() && name.len() <= NAME_LIMIT
}

fn are_table_letters(bytes: &[u8]) -> bool
    ensures { result ≡ list_all (λ c. is_ascii_alphanumeric c || (c == 95)) bytes.now }
{
    bytes
        .iter()
        .all(|byte| byte.is_ascii_alphanumeric() || *byte == b'_')
}

/// Whether the name can be a table's.
#[tactic(auto, unfolding(crate::specs::Limits::is_table_name))]
pub(crate) fn is_table_name(name: &str) -> bool
    ensures { result ≡ is_table_name name.now }
{
    has_name_length(name) && are_table_letters(name.as_bytes())
}

/// The refusal of one more table than so many.
#[tactic(auto, unfolding(crate::specs::Limits::too_many_tables))]
pub(crate) fn too_many_tables(tables: usize) -> Option<Refusal>
    ensures { result ≡ too_many_tables tables }
{
    if TABLE_LIMIT <= tables as u64 {
        Some(Refusal::TooMany {
            what: Counted::Tables,
            limit: TABLE_LIMIT,
        })
    } else {
        None
    }
}

/// The refusal of a table with so many columns.
#[tactic(auto, unfolding(crate::specs::Limits::too_many_columns))]
pub(crate) fn too_many_columns(columns: usize) -> Option<Refusal>
    ensures { result ≡ too_many_columns columns }
{
    if COLUMN_LIMIT < columns as u64 {
        Some(Refusal::TooMany {
            what: Counted::Columns,
            limit: COLUMN_LIMIT,
        })
    } else {
        None
    }
}
