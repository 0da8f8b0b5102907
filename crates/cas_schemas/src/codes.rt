//! The bytes that stand for kinds, shapes, types, strategies and units.

ghost use Rattle.std.specs.Prelude.{◌≡◌};
ghost use Rattle.cas_codec.specs.Reading.{Gives};
ghost use Rattle.cas_schemas.specs.Codes.{kind_code, shape_code, tag_code, strategy_code, unit_code};
ghost use Rattle.cas_schemas.specs.Codes.{kind_of, shape_of, tag_of, strategy_of, unit_of, coded_at};

use cas_codec::{ReadFault, Reader};
use cas_types::{Kind, Shape, Strategy, TypeTag, Unit};

#[tactic(auto, unfolding(crate::specs::Codes::coded_at))]
pub(crate) fn read_kind(reader: &mut Reader<'_>) -> Result<Kind, ReadFault>
    ensures { Gives (λ k. k) result reader.new (coded_at 4 kind_of reader.old) }
{
    match reader.u8_within(0, 4)? {
        0 => Ok(Kind::Partition),
        1 => Ok(Kind::Ascending),
        2 => Ok(Kind::Descending),
        3 => Ok(Kind::Regular),
        _ => Ok(Kind::Static),
    }
}

#[tactic(auto, unfolding(crate::specs::Codes::coded_at))]
pub(crate) fn read_shape(reader: &mut Reader<'_>) -> Result<Shape, ReadFault>
    ensures { Gives (λ s. s) result reader.new (coded_at 3 shape_of reader.old) }
{
    match reader.u8_within(0, 3)? {
        0 => Ok(Shape::One),
        1 => Ok(Shape::Set),
        2 => Ok(Shape::List),
        _ => Ok(Shape::Map),
    }
}

#[tactic(auto, unfolding(crate::specs::Codes::coded_at))]
pub(crate) fn read_tag(reader: &mut Reader<'_>) -> Result<TypeTag, ReadFault>
    ensures { Gives (λ t. t) result reader.new (coded_at 12 tag_of reader.old) }
{
    match reader.u8_within(0, 12)? {
        0 => Ok(TypeTag::Ascii),
        1 => Ok(TypeTag::BigInt),
        2 => Ok(TypeTag::Blob),
        3 => Ok(TypeTag::Boolean),
        4 => Ok(TypeTag::Date),
        5 => Ok(TypeTag::Int),
        6 => Ok(TypeTag::SmallInt),
        7 => Ok(TypeTag::Text),
        8 => Ok(TypeTag::Time),
        9 => Ok(TypeTag::Timestamp),
        10 => Ok(TypeTag::TimeUuid),
        11 => Ok(TypeTag::TinyInt),
        _ => Ok(TypeTag::Uuid),
    }
}

#[tactic(auto, unfolding(crate::specs::Codes::coded_at))]
pub(crate) fn read_strategy(reader: &mut Reader<'_>) -> Result<Strategy, ReadFault>
    ensures { Gives (λ s. s) result reader.new (coded_at 2 strategy_of reader.old) }
{
    match reader.u8_within(0, 2)? {
        0 => Ok(Strategy::SizeTiered),
        1 => Ok(Strategy::Leveled),
        _ => Ok(Strategy::TimeWindow),
    }
}

#[tactic(auto, unfolding(crate::specs::Codes::coded_at))]
pub(crate) fn read_unit(reader: &mut Reader<'_>) -> Result<Unit, ReadFault>
    ensures { Gives (λ u. u) result reader.new (coded_at 2 unit_of reader.old) }
{
    match reader.u8_within(0, 2)? {
        0 => Ok(Unit::Minutes),
        1 => Ok(Unit::Hours),
        _ => Ok(Unit::Days),
    }
}

pub(crate) fn kind_code(kind: Kind) -> u8
    ensures { result ≡ kind_code kind }
{
    match kind {
        Kind::Partition => 0,
        Kind::Ascending => 1,
        Kind::Descending => 2,
        Kind::Regular => 3,
        Kind::Static => 4,
    }
}

pub(crate) fn shape_code(shape: Shape) -> u8
    ensures { result ≡ shape_code shape }
{
    match shape {
        Shape::One => 0,
        Shape::Set => 1,
        Shape::List => 2,
        Shape::Map => 3,
    }
}

pub(crate) fn tag_code(tag: TypeTag) -> u8
    ensures { result ≡ tag_code tag }
{
    match tag {
        TypeTag::Ascii => 0,
        TypeTag::BigInt => 1,
        TypeTag::Blob => 2,
        TypeTag::Boolean => 3,
        TypeTag::Date => 4,
        TypeTag::Int => 5,
        TypeTag::SmallInt => 6,
        TypeTag::Text => 7,
        TypeTag::Time => 8,
        TypeTag::Timestamp => 9,
        TypeTag::TimeUuid => 10,
        TypeTag::TinyInt => 11,
        TypeTag::Uuid => 12,
    }
}

pub(crate) fn strategy_code(strategy: Strategy) -> u8
    ensures { result ≡ strategy_code strategy }
{
    match strategy {
        Strategy::SizeTiered => 0,
        Strategy::Leveled => 1,
        Strategy::TimeWindow => 2,
    }
}

pub(crate) fn unit_code(unit: Unit) -> u8
    ensures { result ≡ unit_code unit }
{
    match unit {
        Unit::Minutes => 0,
        Unit::Hours => 1,
        Unit::Days => 2,
    }
}
