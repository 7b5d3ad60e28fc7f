//! Codes, words and bytes against the tables of the protocol.

use crate::{Address, DataType, ErrorCode, FaultCode, Protocol, State, fits, get_value, put_value};

/// A type, its word, a value and its bytes.
const VALUES: [(DataType, &str, i128, &[u8]); 10] = [
    (DataType::U8, "uint8", 255, &[0xff]),
    (DataType::U16, "uint16", 65_534, &[0xfe, 0xff]),
    (DataType::U32, "uint32", 20, &[20, 0, 0, 0]),
    (
        DataType::U64,
        "uint64",
        18_446_744_073_709_551_615,
        &[0xff; 8],
    ),
    (DataType::I8, "int8", -128, &[0x80]),
    (DataType::I16, "int16", -2, &[0xfe, 0xff]),
    (DataType::I32, "int32", 20, &[20, 0, 0, 0]),
    (DataType::I32, "int32", -1, &[0xff; 4]),
    (
        DataType::I64,
        "int64",
        -2,
        &[0xfe, 0xff, 0xff, 0xff, 0xff, 0xff, 0xff, 0xff],
    ),
    (
        DataType::I64,
        "int64",
        9_223_372_036_854_775_807,
        &[0xff, 0xff, 0xff, 0xff, 0xff, 0xff, 0xff, 0x7f],
    ),
];

#[test]
fn values_have_their_bytes(rt: HostRuntime) {
    for (kind, word, value, bytes) in VALUES {
        assert_eq!(rt; kind.word(), word);
        assert!(rt; fits(kind, value));
        let width = kind.width();
        assert_eq!(rt; width, bytes.len());
        if fits(kind, value) && width == bytes.len() {
            let mut room = [0xaa; 8];
            put_value(kind, value, &mut room[..width]);
            assert_eq!(rt; &room[..width], bytes);
            assert_eq!(rt; get_value(kind, bytes), value);
        }
    }
}

#[test]
fn ranges_end_where_the_types_do(rt: HostRuntime) {
    let outside = [
        (DataType::U8, -1),
        (DataType::U8, 256),
        (DataType::I8, -129),
        (DataType::I16, 32_768),
        (DataType::U32, 4_294_967_296),
        (DataType::I64, -9_223_372_036_854_775_809),
        (DataType::U64, 18_446_744_073_709_551_616),
    ];
    for (kind, value) in outside {
        assert!(rt; !fits(kind, value));
    }
}

#[test]
fn codes_are_those_of_the_tables(rt: HostRuntime) {
    assert_eq!(rt; State::from_code(0x0d), Some(State::Computed));
    assert_eq!(rt; State::from_code(0x13), None);
    assert_eq!(rt; State::ErrorResolved.code(), 0x12);
    assert_eq!(rt; State::SendingI.name(), "SENDING_I");
    assert_eq!(rt; DataType::from_code(4), Some(DataType::I8));
    assert_eq!(rt; DataType::from_code(8), None);
    assert_eq!(rt; DataType::I64.code(), 7);
    assert_eq!(rt; ErrorCode::InErrorState.code(), 14);
    assert_eq!(rt; FaultCode::DivideByZero.code(), 33);
    assert_eq!(rt; Protocol::Tcp.code(), 4);
    let here = Address {
        ip: 2_130_706_433,
        port: 9000,
    };
    assert_eq!(rt; here, here);
}
