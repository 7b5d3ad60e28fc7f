//! Whether a message has a spelling.

ghost use Rattle.std.specs.Prelude.{◌≡◌, ◌<◌, ◌≤◌, length, map, take, MatchBool};
ghost use Rattle.dcp_types.specs.Codes.{type_code};
ghost use Rattle.pdu_layout.specs.Fields.{field_width, limit, Fits, bytes_of, type_after};
ghost use Rattle.pdu_layout.specs.Table.{kinds_of};
ghost use Rattle.pdu_layout.specs.Fields.FieldValue.{Signed, Bytes};
ghost use Rattle.pdu_layout.specs.Message.{message_of, HasSpelling};
ghost use Rattle.pdu_layout.specs.Parts.{value_of};
ghost use Rattle.pdu_layout.specs.Ranges.{Fill};
ghost use Rattle.pdu_layout.specs.declared.fields.FieldKind.TheVariants as kinds;

use crate::fields::{Field, FieldKind};
use crate::message_parts::{FieldContent, parts_of};
use crate::messages::Pdu;
use dcp_types::{DataType, fits};

impl FieldKind {
    /// How many bytes a field has, after a type field of this type; 0 for a rest.
    pub fn width(self, last: DataType) -> usize
        ensures { result ≡ field_width self (type_code last) }
    {
        match self {
            FieldKind::U8 | FieldKind::StateCode | FieldKind::TypeCode => 1,
            FieldKind::U16 => 2,
            FieldKind::U32 | FieldKind::Ip => 4,
            FieldKind::U64 | FieldKind::I64 => 8,
            FieldKind::Uuid => 16,
            FieldKind::Value => last.width(),
            FieldKind::Rest => 0,
        }
    }
}

fn fits_number(kind: FieldKind, n: u128) -> bool
    ensures { MatchBool result (n < limit kind) (limit kind ≤ n) }
{
    match kind {
        FieldKind::U8 => n < 0x100,
        FieldKind::U16 => n < 0x1_0000,
        FieldKind::U32 | FieldKind::Ip => n < 0x1_0000_0000,
        FieldKind::U64 => n < 0x1_0000_0000_0000_0000,
        FieldKind::StateCode => n <= 18,
        FieldKind::TypeCode => n <= 7,
        FieldKind::Uuid => true,
        FieldKind::I64 | FieldKind::Value | FieldKind::Rest => false,
    }
}

fn fits_signed(kind: FieldKind, last: DataType, z: i128) -> bool
    ensures { MatchBool result (Fits kind (type_code last) (Signed z)) (Fits kind (type_code last) (Signed z) → ⊥) }
{
    match kind {
        FieldKind::I64 => fits(DataType::I64, z),
        FieldKind::Value => fits(last, z),
        _ => false,
    }
}

fn fits_bytes(kind: FieldKind, last: DataType, bytes: &[u8]) -> bool
    ensures { MatchBool result (Fits kind (type_code last) (Bytes bytes.now)) (Fits kind (type_code last) (Bytes bytes.now) → ⊥) }
{
    matches!(kind, FieldKind::Rest)
}

/// Whether a field holds the content, after a type field of this type.
fn fits_field(kind: FieldKind, last: DataType, content: FieldContent<'_>) -> bool
    ensures { MatchBool result (Fits kind (type_code last) (value_of content.entry)) (Fits kind (type_code last) (value_of content.entry) → ⊥) }
{
    match content {
        FieldContent::Number(n) => fits_number(kind, n),
        FieldContent::Signed(z) => fits_signed(kind, last, z),
        FieldContent::Bytes(bytes) => fits_bytes(kind, last, bytes),
    }
}

/// How many bytes the content of a field has.
fn content_length(kind: FieldKind, last: DataType, content: FieldContent<'_>) -> usize
    requires { Fits kind (type_code last) (value_of content) }
    ensures { result ≡ length (bytes_of kind (type_code last) (value_of content.entry)) }
{
    match content {
        FieldContent::Number(_) => kind.width(last),
        FieldContent::Signed(_) => kind.width(last),
        FieldContent::Bytes(bytes) => bytes.len(),
    }
}

/// The type that a type field names.
fn named_type(content: FieldContent<'_>) -> DataType
    requires { Fits kinds.TypeCode 0 (value_of content) }
    ensures { type_code result ≡ type_after kinds.TypeCode 0 (bytes_of kinds.TypeCode 0 (value_of content.entry)) }
{
    match content {
        FieldContent::Number(n) => DataType::from_code(n as u8).unwrap(),
        _ => unreachable!(),
    }
}

/// The type that the fields after this one go by.
#[inline(always)]
pub fn type_after(kind: FieldKind, last: DataType, content: FieldContent<'_>) -> DataType
    requires { Fits kind (type_code last) (value_of content) }
    ensures { type_code result ≡ type_after kind (type_code last) (bytes_of kind (type_code last) (value_of content.entry)) }
{
    match kind {
        FieldKind::TypeCode => named_type(content),
        _ => last,
    }
}

/// Whether each content fits its field, and all are not too many bytes.
fn fit(fields: &[Field], contents: &[FieldContent<'_>]) -> bool
    requires { length fields.now ≤ length contents.now }
    ensures { MatchBool result (Fill (kinds_of fields.now) (map value_of (take (length fields.now) contents.now))) (Fill (kinds_of fields.now) (map value_of (take (length fields.now) contents.now)) → ⊥) }
{
    let mut at = 1;
    let mut last = DataType::U8;
    for i in 0..fields.len() {
        let kind = fields[i].kind;
        let content = contents[i];
        if !fits_field(kind, last, content) {
            return false;
        }
        let length = content_length(kind, last, content);
        if length > 1024 - at {
            return false;
        }
        last = type_after(kind, last, content);
        at += length;
    }
    true
}

/// Whether the message can be written: each field fits its kind, and it has at most 1,024 bytes.
pub fn in_range(pdu: &Pdu<'_>) -> bool
    ensures { MatchBool result (HasSpelling (message_of pdu.now)) (HasSpelling (message_of pdu.now) → ⊥) }
{
    let parts = parts_of(pdu);
    fit(parts.fields, &parts.contents)
}
