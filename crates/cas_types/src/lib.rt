//! The values that every layer speaks of: byte strings, texts, lists, the native types with their
//! order, a table's schema, the bytes of a partition key and the shard that a key belongs to.
#![tactic(auto)]

mod bytes;
mod key;
mod laws;
mod limits;
mod list;
mod mem;
mod schema;
mod shard;
mod short;
mod tag;
mod text;
mod uuid_order;
mod values;

pub use bytes::{Bytes, compare_bytes};
pub use key::{KeyBuilder, KeyFault};
pub use laws::value_orders;
pub use limits::{
    COLUMN_LIMIT, GREATEST_TIMESTAMP, KEY_LIMIT, LAST_DRAWN, LAST_MICROSECOND, LAST_NANOSECOND,
    LAST_SECOND, LEAST_RECORDED, LEAST_TIMESTAMP, LIST_PATH, MUTATION_LIMIT, ROW_LIMIT,
    SHARD_LIMIT, TTL_LIMIT,
};
pub use list::List;
pub use mem::Mem;
pub use schema::{Column, Kind, Options, Shape, Strategy, TableSchema, Unit};
pub use shard::shard_of;
pub use tag::TypeTag;
pub use text::Text;
pub use values::{
    BadValue, bigint_value, check, compare, date_value, int_value, smallint_value, tinyint_value,
};
