//! What a field holds, from its bytes.

ghost use Rattle.std.specs.Prelude.{◌≡◌, ◌<◌, ℕ, length, slice_index};
ghost use Rattle.dcp_types.specs.Codes.{state_code, type_code};
ghost use Rattle.dcp_types.specs.Values.{width};
ghost use Rattle.pdu_layout.specs.Fields.FieldValue.{Number, Signed, Bytes};
ghost use Rattle.pdu_codec.specs.Pieces.{Holds};
ghost use Rattle.pdu_layout.specs.declared.fields.FieldKind.TheVariants as kinds;

use byteorder::{BigEndian, ByteOrder, LittleEndian};
use dcp_types::{DataType, State, get_value};

#[inline(always)]
pub fn u8_of(piece: &[u8]) -> u8
    requires { length piece.now ≡ 1 }
    ensures { Holds kinds.U8 0 (Number result) piece.now }
{
    piece[0]
}

#[inline(always)]
pub fn u16_of(piece: &[u8]) -> u16
    requires { length piece.now ≡ 2 }
    ensures { Holds kinds.U16 0 (Number result) piece.now }
{
    LittleEndian::read_u16(piece)
}

/// A number, or an address in four bytes.
#[inline(always)]
pub fn u32_of(piece: &[u8]) -> u32
    requires { length piece.now ≡ 4 }
    ensures number { Holds kinds.U32 0 (Number result) piece.now }
    ensures ip { Holds kinds.Ip 0 (Number result) piece.now }
{
    LittleEndian::read_u32(piece)
}

#[inline(always)]
pub fn u64_of(piece: &[u8]) -> u64
    requires { length piece.now ≡ 8 }
    ensures { Holds kinds.U64 0 (Number result) piece.now }
{
    LittleEndian::read_u64(piece)
}

#[inline(always)]
pub fn i64_of(piece: &[u8]) -> i64
    requires { length piece.now ≡ 8 }
    ensures { Holds kinds.I64 0 (Signed result) piece.now }
{
    get_value(DataType::I64, piece) as i64
}

#[inline(always)]
pub fn state_of(piece: &[u8]) -> State
    requires one { length piece.now ≡ 1 }
    requires known { slice_index piece.now 0 < 19 }
    ensures { Holds kinds.StateCode 0 (Number (state_code result)) piece.now }
{
    State::from_code(piece[0]).unwrap()
}

#[inline(always)]
pub fn type_of(piece: &[u8]) -> DataType
    requires one { length piece.now ≡ 1 }
    requires known { slice_index piece.now 0 < 8 }
    ensures code { type_code result ≡ slice_index piece.now 0 }
    ensures held { Holds kinds.TypeCode 0 (Number (type_code result)) piece.now }
{
    DataType::from_code(piece[0]).unwrap()
}

#[inline(always)]
pub fn rest_of(piece: &[u8]) -> &[u8]
    ensures { Holds kinds.Rest 0 (Bytes result.now) piece.now }
{
    piece
}

/// An identity stands in the order of its printed form, the highest byte first.
#[inline(always)]
pub fn uuid_of(piece: &[u8]) -> u128
    requires { length piece.now ≡ 16 }
    ensures { Holds kinds.Uuid 0 (Number result) piece.now }
{
    BigEndian::read_u128(piece)
}

/// A value as wide as its type.
#[inline(always)]
pub fn value_of(kind: DataType, piece: &[u8]) -> i128
    requires { length piece.now ≡ width kind }
    ensures { (t : ℕ) → t ≡ type_code kind → Holds kinds.Value t (Signed result) piece.now }
{
    get_value(kind, piece)
}
