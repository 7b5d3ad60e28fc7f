//! Cutting the bytes of a message into its fields.

ghost use Rattle.std.specs.Prelude.{◌≡◌, ◌∷◌, [], ◌<◌, ◌≤◌, ◌+◌, length, slice_index, slice_range, IfOk, IfErr, Some};
ghost use Rattle.dcp_types.specs.Codes.{type_code};
ghost use Rattle.pdu_layout.specs.Fields.{type_after};
ghost use Rattle.pdu_layout.specs.Table.{kinds_for, kinds_of};
ghost use Rattle.pdu_codec.specs.Refusals.{Refusal};
ghost use Rattle.pdu_codec.specs.Pieces.{AreEnds, IsPiece, FieldFault};
ghost use Rattle.pdu_layout.specs.declared.fields.FieldKind.TheVariants as kinds;

use crate::faults::{DecodeFault, DecodeWhy};
use dcp_types::DataType;
use pdu_layout::{Field, FieldKind};

/// Where the field that begins at `at` ends.
fn field_end(kind: FieldKind, last: DataType, bytes: &[u8], at: usize) -> Result<usize, DecodeFault>
    requires { at ≤ length bytes.now }
    ensures within { IfOk result (λ end. (at ≤ end) × (end ≤ length bytes.now)) }
    ensures piece { IfOk result (λ end. IsPiece kind (type_code last) (slice_range bytes.now at end)) }
    ensures rest { IfOk result (λ end. kind ≡ kinds.Rest → (end ≡ length bytes.now) × (length bytes.now ≤ 1024)) }
    ensures err { IfErr result (λ fault. FieldFault kind (type_code last) bytes.now at fault.at fault.why) }
{
    if kind == FieldKind::Rest {
        if bytes.len() > 1024 {
            return Err(DecodeFault {
                at: 1024,
                why: DecodeWhy::TooLong,
            });
        }
        return Ok(bytes.len());
    }
    let width = kind.width(last);
    if bytes.len() - at < width {
        return Err(DecodeFault {
            at: bytes.len(),
            why: DecodeWhy::Short,
        });
    }
    if kind == FieldKind::StateCode && bytes[at] > 18 {
        return Err(DecodeFault {
            at,
            why: DecodeWhy::BadState,
        });
    }
    if kind == FieldKind::TypeCode && bytes[at] > 7 {
        return Err(DecodeFault {
            at,
            why: DecodeWhy::BadType,
        });
    }
    Ok(at + width)
}

/// The type that the fields after this one go by.
fn type_after(kind: FieldKind, last: DataType, piece: &[u8]) -> DataType
    requires { IsPiece kind (type_code last) piece.now }
    ensures { type_code result ≡ type_after kind (type_code last) piece.now }
{
    if kind == FieldKind::TypeCode {
        return DataType::from_code(piece[0]).unwrap();
    }
    last
}

/// Where each field ends, by the layout with this code.
#[inline(always)]
pub fn walk<const N: usize>(
    code: u8,
    fields: &[Field],
    bytes: &[u8],
) -> Result<[usize; N], DecodeFault>
    requires row { kinds_for code ≡ Some (kinds_of fields.now) }
    requires size { length fields.now ≡ N }
    requires some { 0 < length bytes.now }
    requires first { slice_index bytes.now 0 ≡ code }
    ensures ends { IfOk result (λ ends. AreEnds (kinds_of fields.now) 0 bytes.now 1 ends) }
    ensures at_most { IfOk result (λ ends. length bytes.now ≤ 1024) }
    ensures err { IfErr result (λ fault. Refusal bytes.now fault.at fault.why) }
{
    let mut ends = [0; N];
    let mut at = 1;
    let mut last = DataType::U8;
    for (i, field) in fields.iter().enumerate() {
        let kind = field.kind;
        let end = field_end(kind, last, bytes, at)?;
        last = type_after(kind, last, &bytes[at..end]);
        ends[i] = end;
        at = end;
    }
    if at < bytes.len() {
        return Err(DecodeFault {
            at,
            why: DecodeWhy::Long,
        });
    }
    Ok(ends)
}
