//! A number that tells most rows of a table apart.

ghost use Rattle.std.specs.Prelude.{◌≡◌};
ghost use Rattle.cas_partition.specs.Inner.Fronts.{plain_number, tag_kind, kind_of, turned, no_front, front_by, front_at, front_of};

use cas_bounds::{MapKey, Ordered};
use cas_types::{Bytes, TypeTag, bigint_value, int_value, smallint_value, tinyint_value};

/// Of a row with one clustering column, which has signed numbers: the column's type and direction as
/// one number, and the row's number in this direction. Of any other both are 0.
#[derive(Clone, Copy, Drop)]
pub struct Front {
    pub kind: u8,
    pub number: i64,
}

const NO_FRONT: Front = Front { kind: 0, number: 0 };

fn plain_number(tag: TypeTag, value: &[u8]) -> Option<i64>
    ensures { result ≡ plain_number tag value.now }
{
    match tag {
        TypeTag::TinyInt => Some(i64::from(tinyint_value(value)?)),
        TypeTag::SmallInt => Some(i64::from(smallint_value(value)?)),
        TypeTag::Int => Some(i64::from(int_value(value)?)),
        TypeTag::BigInt | TypeTag::Time | TypeTag::Timestamp => bigint_value(value),
        _ => None,
    }
}

fn tag_kind(tag: TypeTag) -> u8
    ensures { result ≡ tag_kind tag }
{
    match tag {
        TypeTag::TinyInt => 1,
        TypeTag::SmallInt => 3,
        TypeTag::Int => 5,
        TypeTag::BigInt => 7,
        TypeTag::Time => 9,
        TypeTag::Timestamp => 11,
        _ => 0,
    }
}

fn turned(n: i64) -> i64
    ensures { result ≡ turned n }
{
    -1 - n
}

fn front_by(order: &Ordered, number: Option<i64>) -> Front
    ensures { result ≡ front_by order.now number }
{
    let Some(n) = number else {
        return NO_FRONT;
    };
    let kind = tag_kind(order.tag);
    if order.descending {
        return Front {
            kind: kind + 1,
            number: turned(n),
        };
    }
    Front { kind, number: n }
}

/// That of these values.
pub(crate) fn front_at(order: &[Ordered], values: &[Bytes]) -> Front
    ensures { result ≡ front_at order.now values.now }
{
    match (order, values) {
        ([o], [x]) => front_by(o, plain_number(o.tag, x.as_slice())),
        _ => NO_FRONT,
    }
}

/// That of a row; the static row has none.
pub(crate) fn front_of(row: &Option<MapKey>) -> Front
    ensures { result ≡ front_of row.now }
{
    match row {
        None => NO_FRONT,
        Some(key) => front_at(key.order.as_slice(), key.values.as_slice()),
    }
}
