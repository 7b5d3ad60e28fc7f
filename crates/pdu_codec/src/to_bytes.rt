//! Writing a message as its bytes.

ghost use Rattle.std.specs.Prelude.{◌≡◌, ◌<◌, ◌≤◌, ◌++◌, ◌∷◌, ◌+◌, ℕ, IsTrue, length, drop, map, take, reverse};
ghost use Rattle.dcp_types.specs.Codes.{type_code};
ghost use Rattle.dcp_types.specs.Values as values;
ghost use Rattle.dcp_types.specs.Values.{fits, digits, value_bytes};
ghost use Rattle.pdu_layout.specs.Fields.{field_width, limit, Fits, bytes_of, spelled};
ghost use Rattle.pdu_layout.specs.Fields.FieldValue.{Number, Signed, Bytes};
ghost use Rattle.pdu_layout.specs.Table.{kinds_of};
ghost use Rattle.pdu_layout.specs.Message.{message_of, Spells, HasSpelling};
ghost use Rattle.pdu_layout.specs.Reading.{spelling};
ghost use Rattle.pdu_layout.specs.Parts.{value_of};
ghost use Rattle.pdu_layout.specs.Ranges.{Fill};

use byteorder::{BigEndian, ByteOrder, LittleEndian};
use dcp_types::{DataType, put_value};
use pdu_layout::{Field, FieldContent, FieldKind, Pdu, parts_of, type_after};

#[inline(always)]
fn put_u8(n: u8, room: &mut [u8]) -> usize
    requires { 1 ≤ length room.old }
    ensures length { result ≡ 1 }
    ensures bytes { room.new ≡ digits 1 n ++ drop 1 room.old }
{
    room[0] = n;
    1
}

#[inline(always)]
fn put_u16(n: u16, room: &mut [u8]) -> usize
    requires { 2 ≤ length room.old }
    ensures length { result ≡ 2 }
    ensures bytes { room.new ≡ digits 2 n ++ drop 2 room.old }
{
    LittleEndian::write_u16(room, n);
    2
}

#[inline(always)]
fn put_u32(n: u32, room: &mut [u8]) -> usize
    requires { 4 ≤ length room.old }
    ensures length { result ≡ 4 }
    ensures bytes { room.new ≡ digits 4 n ++ drop 4 room.old }
{
    LittleEndian::write_u32(room, n);
    4
}

#[inline(always)]
fn put_u64(n: u64, room: &mut [u8]) -> usize
    requires { 8 ≤ length room.old }
    ensures length { result ≡ 8 }
    ensures bytes { room.new ≡ digits 8 n ++ drop 8 room.old }
{
    LittleEndian::write_u64(room, n);
    8
}

/// An identity stands in the order of its printed form, the highest byte first.
#[inline(always)]
fn put_uuid(n: u128, room: &mut [u8]) -> usize
    requires { 16 ≤ length room.old }
    ensures length { result ≡ 16 }
    ensures bytes { room.new ≡ reverse (digits 16 n) ++ drop 16 room.old }
{
    BigEndian::write_u128(room, n);
    16
}

#[inline(always)]
fn put_number(kind: FieldKind, n: u128, room: &mut [u8]) -> usize
    requires fits { n < limit kind }
    requires room { field_width kind 0 ≤ length room.old }
    ensures length { result ≡ field_width kind 0 }
    ensures bytes { room.new ≡ bytes_of kind 0 (Number n) ++ drop (field_width kind 0) room.old }
{
    match kind {
        FieldKind::U8 => put_u8(n as u8, room),
        FieldKind::StateCode => put_u8(n as u8, room),
        FieldKind::TypeCode => put_u8(n as u8, room),
        FieldKind::U16 => put_u16(n as u16, room),
        FieldKind::U32 => put_u32(n as u32, room),
        FieldKind::Ip => put_u32(n as u32, room),
        FieldKind::U64 => put_u64(n as u64, room),
        FieldKind::Uuid => put_uuid(n, room),
        FieldKind::I64 | FieldKind::Value | FieldKind::Rest => unreachable!(),
    }
}

#[inline(always)]
fn put_typed(kind: DataType, value: i128, room: &mut [u8]) -> usize
    requires fits { IsTrue (fits kind value) }
    requires room { values.width kind ≤ length room.old }
    ensures length { result ≡ values.width kind }
    ensures bytes { room.new ≡ value_bytes kind value ++ drop (values.width kind) room.old }
{
    let width = kind.width();
    put_value(kind, value, &mut room[..width]);
    width
}

#[inline(always)]
fn put_signed(kind: FieldKind, last: DataType, value: i128, room: &mut [u8]) -> usize
    requires fits { Fits kind (type_code last) (Signed value) }
    requires room { field_width kind (type_code last) ≤ length room.old }
    ensures length { result ≡ field_width kind (type_code last) }
    ensures bytes { room.new ≡ bytes_of kind (type_code last) (Signed value) ++ drop (field_width kind (type_code last)) room.old }
{
    match kind {
        FieldKind::I64 => put_typed(DataType::I64, value, room),
        FieldKind::Value => put_typed(last, value, room),
        _ => unreachable!(),
    }
}

#[inline(always)]
fn put_bytes(bytes: &[u8], room: &mut [u8]) -> usize
    requires { length bytes.now ≤ length room.old }
    ensures length { result ≡ length bytes.now }
    ensures bytes { room.new ≡ bytes.now ++ drop (length bytes.now) room.old }
{
    room[..bytes.len()].copy_from_slice(bytes);
    bytes.len()
}

/// Writes what a field holds to the front of the room.
#[inline(always)]
fn put_field(kind: FieldKind, last: DataType, content: FieldContent<'_>, room: &mut [u8]) -> usize
    requires fits { Fits kind (type_code last) (value_of content) }
    requires room { length (bytes_of kind (type_code last) (value_of content)) ≤ length room.old }
    ensures length { result ≡ length (bytes_of kind (type_code last) (value_of content.entry)) }
    ensures bytes { room.new ≡ bytes_of kind (type_code last) (value_of content.entry) ++ drop result room.old }
{
    match content {
        FieldContent::Number(n) => put_number(kind, n, room),
        FieldContent::Signed(value) => put_signed(kind, last, value, room),
        FieldContent::Bytes(bytes) => put_bytes(bytes, room),
    }
}

/// Writes what a field holds from a place of the room on.
#[inline(always)]
fn put_field_at(
    at: usize,
    kind: FieldKind,
    last: DataType,
    content: FieldContent<'_>,
    room: &mut [u8],
) -> usize
    requires fits { Fits kind (type_code last) (value_of content) }
    requires room { at + length (bytes_of kind (type_code last) (value_of content)) ≤ length room.old }
    ensures length { result ≡ length (bytes_of kind (type_code last) (value_of content.entry)) }
    ensures bytes { room.new ≡ take at room.old ++ (bytes_of kind (type_code last) (value_of content.entry) ++ drop result (drop at room.old)) }
{
    put_field(kind, last, content, &mut room[at..])
}

/// Writes a type code, and after it what each field holds, to the front of the room of 1,024 bytes,
/// and answers how many bytes that is. The rest of the room stays.
///
/// Each of the contents fits its field, and with the code they have at most 1,024 bytes. Contents
/// past the fields mean nothing.
#[inline(always)]
pub fn put_message(
    code: u8,
    fields: &[Field],
    contents: &[FieldContent<'_>],
    room: &mut [u8],
) -> usize
    requires size { length room.old ≡ 1024 }
    requires few { length fields.now ≤ length contents.now }
    requires fill { Fill (kinds_of fields.now) (map value_of (take (length fields.now) contents.now)) }
    ensures at_most { result ≤ 1024 }
    ensures bytes { take result room.new ≡ code ∷ spelled (kinds_of fields.now) 0 (map value_of (take (length fields.now) contents.now)) }
    ensures rest { drop result room.new ≡ drop result room.old }
{
    room[0] = code;
    let mut at = 1;
    let mut last = DataType::U8;
    for i in 0..fields.len() {
        let kind = fields[i].kind;
        let content = contents[i];
        let length = put_field_at(at, kind, last, content, room);
        last = type_after(kind, last, content);
        at += length;
    }
    at
}

/// Writes a message to the front of the room, and answers how many bytes it has. The rest of the
/// room stays.
///
/// The message is in range: each value fits its type, and it has at most 1,024 bytes.
#[inline(always)]
pub fn encode(pdu: &Pdu<'_>, room: &mut [u8; 1024]) -> usize
    requires { HasSpelling (message_of pdu.now) }
    ensures at_most { result ≤ 1024 }
    ensures spelled { Spells (message_of pdu.now) (take result room.new) }
    ensures told { take result room.new ≡ spelling (message_of pdu.now) }
    ensures rest { drop result room.new ≡ drop result room.old }
{
    let parts = parts_of(pdu);
    put_message(parts.code, parts.fields, &parts.contents, room)
}
