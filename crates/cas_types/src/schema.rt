//! What a CREATE TABLE tells of a table.

ghost use Rattle.std.specs.Prelude.{◌≡◌};
ghost use Rattle.cas_types.specs.Schemas.{is_partition, is_clustering, is_descending, is_key, is_static};
ghost use Rattle.cas_types.specs.Schemas.{is_regular, is_plain, is_list, is_map, path_type, type_or_blob};

use crate::list::List;
use crate::tag::TypeTag;
use crate::text::Text;

/// Whether a column has one value or is a collection.
#[derive(Clone, Copy)]
pub enum Shape {
    One,
    Set,
    List,
    Map,
}

impl Shape {
    /// Whether a column has one value, and so is no collection.
    pub fn is_plain(self) -> bool
        ensures { result ≡ is_plain self }
    {
        matches!(self, Shape::One)
    }

    pub fn is_list(self) -> bool
        ensures { result ≡ is_list self }
    {
        matches!(self, Shape::List)
    }

    pub fn is_map(self) -> bool
        ensures { result ≡ is_map self }
    {
        matches!(self, Shape::Map)
    }
}

/// What a column is in its table. A clustering column is ascending or descending.
#[derive(Clone, Copy)]
pub enum Kind {
    Partition,
    Ascending,
    Descending,
    Static,
    Regular,
}

impl Kind {
    pub fn is_partition(self) -> bool
        ensures { result ≡ is_partition self }
    {
        matches!(self, Kind::Partition)
    }

    pub fn is_clustering(self) -> bool
        ensures { result ≡ is_clustering self }
    {
        matches!(self, Kind::Ascending | Kind::Descending)
    }

    /// Whether it is a clustering column in descending order.
    pub fn is_descending(self) -> bool
        ensures { result ≡ is_descending self }
    {
        matches!(self, Kind::Descending)
    }

    /// Whether it is a column of the primary key.
    pub fn is_key(self) -> bool
        ensures { result ≡ is_key self }
    {
        self.is_partition() || self.is_clustering()
    }

    pub fn is_static(self) -> bool
        ensures { result ≡ is_static self }
    {
        matches!(self, Kind::Static)
    }

    pub fn is_regular(self) -> bool
        ensures { result ≡ is_regular self }
    {
        matches!(self, Kind::Regular)
    }
}

/// A column. The tag is the type of its value, of its elements or of its keys; the second one is
/// there for a map alone, and is the type of the map's values.
#[derive(Clone, Drop)]
pub struct Column {
    pub name: Text,
    pub kind: Kind,
    pub shape: Shape,
    pub tag: TypeTag,
    pub second: Option<TypeTag>,
}

impl Column {
    /// The type of a set's elements or of a map's keys.
    pub fn path_type(&self) -> Option<TypeTag>
        ensures { result ≡ path_type self.now.shape self.now.tag }
    {
        match self.shape {
            Shape::Set | Shape::Map => Some(self.tag),
            Shape::One | Shape::List => None,
        }
    }

    /// The type of a map's values.
    pub fn value_type(&self) -> TypeTag
        ensures { result ≡ type_or_blob self.now.second }
    {
        match self.second {
            Some(tag) => tag,
            None => TypeTag::Blob,
        }
    }
}

/// A compaction strategy.
#[derive(Clone, Copy)]
pub enum Strategy {
    SizeTiered,
    Leveled,
    TimeWindow,
}

/// The unit of `compaction_window_unit`.
#[derive(Clone, Copy)]
pub enum Unit {
    Minutes,
    Hours,
    Days,
}

/// The options of a table: seconds for `gc_grace_seconds` and `default_time_to_live`, whole
/// hundredths for the buckets' bounds, bytes for `min_sstable_size`.
#[derive(Clone, Copy)]
pub struct Options {
    pub gc_grace_seconds: u32,
    pub default_time_to_live: u32,
    pub strategy: Strategy,
    pub min_threshold: u16,
    pub max_threshold: u16,
    pub bucket_low: u32,
    pub bucket_high: u32,
    pub min_sstable_size: u64,
    pub sstable_size_in_mb: u16,
    pub fanout_size: u16,
    pub unit: Unit,
    pub window: u16,
}

/// A table. Its columns are the partition key's in the key's order, then the clustering columns in
/// the key's order, then the others in the order of the definition.
#[derive(Clone, Drop)]
pub struct TableSchema {
    pub number: u16,
    pub name: Text,
    pub columns: List<Column>,
    pub options: Options,
}
