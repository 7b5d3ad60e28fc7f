//! The bytes of a value: little-endian two's complement, as wide as the type.

ghost use Rattle.std.specs.Prelude.{◌≡◌, ◌<◌, ◌^◌, ℤ, pos, IsTrue, length};
ghost use Rattle.dcp_types.specs.Values.{width, is_signed, fits, residue, digits, value_bytes};

use crate::data_types::DataType;
use byteorder::{ByteOrder, LittleEndian};

/// One more than the largest number in the type's bytes.
fn modulus(kind: DataType) -> i128
    ensures { result ≡ pos (256 ^ width kind) }
{
    match kind {
        DataType::U8 | DataType::I8 => 0x100,
        DataType::U16 | DataType::I16 => 0x1_0000,
        DataType::U32 | DataType::I32 => 0x1_0000_0000,
        DataType::U64 | DataType::I64 => 0x1_0000_0000_0000_0000,
    }
}

fn is_signed(kind: DataType) -> bool
    ensures { result ≡ is_signed kind }
{
    match kind {
        DataType::U8 | DataType::U16 | DataType::U32 | DataType::U64 => false,
        DataType::I8 | DataType::I16 | DataType::I32 | DataType::I64 => true,
    }
}

/// The number in the type's bytes that stands for the value.
fn residue_of(kind: DataType, value: i128) -> u64
    requires { IsTrue (fits kind value) }
    ensures residue { result ≡ residue (width kind) value }
    ensures small { result < 256 ^ width kind }
{
    if value < 0 {
        (value + modulus(kind)) as u64
    } else {
        value as u64
    }
}

/// Writes the bytes of a value, the lowest first.
///
/// The value lies in the type's range, and `room` has the type's width.
pub fn put_value(kind: DataType, value: i128, room: &mut [u8])
    requires fits { IsTrue (fits kind value) }
    requires room { length room.old ≡ width kind }
    ensures { room.new ≡ value_bytes kind value }
{
    let residue = residue_of(kind, value);
    match kind {
        DataType::U8 | DataType::I8 => room[0] = residue as u8,
        DataType::U16 | DataType::I16 => LittleEndian::write_u16(room, residue as u16),
        DataType::U32 | DataType::I32 => LittleEndian::write_u32(room, residue as u32),
        DataType::U64 | DataType::I64 => LittleEndian::write_u64(room, residue),
    }
}

/// The number in the bytes, the lowest first.
fn number_in(kind: DataType, bytes: &[u8]) -> u64
    requires { length bytes.now ≡ width kind }
    ensures digits { digits (width kind) result ≡ bytes.now }
    ensures small { result < 256 ^ width kind }
{
    match kind {
        DataType::U8 | DataType::I8 => bytes[0] as u64,
        DataType::U16 | DataType::I16 => LittleEndian::read_u16(bytes) as u64,
        DataType::U32 | DataType::I32 => LittleEndian::read_u32(bytes) as u64,
        DataType::U64 | DataType::I64 => LittleEndian::read_u64(bytes),
    }
}

/// Reads a value from its bytes, the lowest first.
///
/// The slice has the type's width. What is read lies in the type's range, and its bytes are these.
pub fn get_value(kind: DataType, bytes: &[u8]) -> i128
    requires { length bytes.now ≡ width kind }
    ensures fits { IsTrue (fits kind result) }
    ensures bytes { value_bytes kind result ≡ bytes.now }
{
    let number = number_in(kind, bytes) as i128;
    let modulus = modulus(kind);
    if is_signed(kind) && number >= modulus / 2 {
        number - modulus
    } else {
        number
    }
}
