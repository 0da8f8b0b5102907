//! The native types.

/// A native type of CQL.
#[derive(Clone, Copy)]
pub enum TypeTag {
    Ascii,
    BigInt,
    Blob,
    Boolean,
    Date,
    Int,
    SmallInt,
    Text,
    Time,
    Timestamp,
    TimeUuid,
    TinyInt,
    Uuid,
}
