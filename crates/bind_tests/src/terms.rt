//! The bytes of constants at the ends of their types.

use cas_terms::spell;
use cas_types::TypeTag;
use cql_parse::Constant;

fn is_spelled(tag: TypeTag, constant: &Constant, bytes: &[u8]) -> bool {
    match spell(tag, constant) {
        Some(value) => value.as_slice() == bytes,
        None => false,
    }
}

#[test]
fn constants_have_the_width_of_their_type(rt: HostRuntime) {
    let numbers: [(TypeTag, i128, &[u8]); 7] = [
        (TypeTag::TinyInt, -128, &[0x80]),
        (TypeTag::SmallInt, -32_768, &[0x80, 0]),
        (TypeTag::Int, -2, &[0xff, 0xff, 0xff, 0xfe]),
        (
            TypeTag::BigInt,
            -9_223_372_036_854_775_808,
            &[0x80, 0, 0, 0, 0, 0, 0, 0],
        ),
        (
            TypeTag::Timestamp,
            -2,
            &[0xff, 0xff, 0xff, 0xff, 0xff, 0xff, 0xff, 0xfe],
        ),
        (TypeTag::Date, 4_294_967_294, &[0xff, 0xff, 0xff, 0xfe]),
        (
            TypeTag::Time,
            86_399_999_999_999,
            &[0, 0, 0x4e, 0x94, 0x91, 0x4e, 0xff, 0xff],
        ),
    ];
    for (tag, number, bytes) in numbers {
        assert!(rt; is_spelled(tag, &Constant::Number(number), bytes));
    }
    assert!(rt; is_spelled(TypeTag::Boolean, &Constant::Boolean(true), &[1]));
}
