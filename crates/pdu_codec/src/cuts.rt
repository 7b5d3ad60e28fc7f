//! The bytes of a message, cut into its fields.

ghost use Rattle.std.specs.Prelude.{◌≡◌, ◌∷◌, [], ◌<◌, ◌≤◌, ◌-◌, ℕ, IfOk, IfErr, length, slice_get, slice_index, slice_range, Some};
ghost use Rattle.pdu_layout.specs.Table.{kinds_for, kinds_of};
ghost use Rattle.pdu_layout.specs.Held.{AreKinds, layout_of};
ghost use Rattle.pdu_layout.specs.Message.{Spells};
ghost use Rattle.pdu_codec.specs.Cuts.{IsCut};
ghost use Rattle.pdu_codec.specs.Facts.{cut_prop};
ghost use Rattle.pdu_codec.specs.Pieces.{AreEnds, Holds, IsPieceAnyhow, begin_of, piece_at};
ghost use Rattle.pdu_codec.specs.Refusals.{Refusal};

use crate::faults::DecodeFault;
use crate::leaves::{
    i64_of, rest_of, state_of, type_of, u8_of, u16_of, u32_of, u64_of, uuid_of, value_of,
};
use crate::walker::walk;
use dcp_types::{DataType, State};
use pdu_layout::{Field, MessageFields};

/// The bytes of a message with `N` fields, and where each field ends.
#[derive(Clone, Copy)]
pub struct Cut<'a, 'f, const N: usize> {
    pub code: u8,
    pub fields: &'f [Field],
    pub bytes: &'a [u8],
    pub ends: [usize; N],
    ghost is_cut: { IsCut code (kinds_of fields.now) bytes.now ends } by { cut_prop code (kinds_of fields.now) bytes.now ends },
}

/// Where field `i` begins.
#[inline(always)]
fn start_of(ends: &[usize], i: usize) -> usize
    requires { i ≤ length ends.now }
    ensures { result ≡ begin_of ends.now i }
{
    if i == 0 { 1 } else { ends[i - 1] }
}

#[inline(always)]
fn part(bytes: &[u8], from: usize, to: usize) -> &[u8]
    requires order { from ≤ to }
    requires within { to ≤ length bytes.now }
    ensures { result.now ≡ slice_range bytes.now from to }
{
    &bytes[from..to]
}

/// The bytes of field `i`.
#[inline(always)]
fn piece_of<'a>(fields: &[Field], bytes: &'a [u8], ends: &[usize], i: usize) -> &'a [u8]
    requires cut { AreEnds (kinds_of fields.now) 0 bytes.now 1 ends.now }
    requires there { i < length fields.now }
    ensures piece { result.now ≡ piece_at bytes.now ends.now i }
    ensures fits { IsPieceAnyhow (slice_get (kinds_of fields.now) i) result.now }
{
    part(bytes, start_of(ends, i), ends[i])
}

impl<'a, 'f, const N: usize> MessageFields<'a> for Cut<'a, 'f, N> {
    ghost use Rattle.pdu_layout.specs.Message.{Spells};
    ghost use Rattle.pdu_layout.specs.Table.{kinds_of};
    ghost use Rattle.pdu_codec.specs.Pieces.{Holds, piece_at};

    ghost code = { λ c. c.code };

    ghost kinds = { λ c. kinds_of c.fields.now };

    ghost holds = { λ c i kind t v. Holds kind t v (piece_at c.bytes.now c.ends i) };

    ghost says = { λ c m. Spells m c.bytes.now };

    #[inline(always)]
    fn u8(&self, i: usize) -> u8 {
        u8_of(piece_of(self.fields, self.bytes, &self.ends, i))
    }

    #[inline(always)]
    fn u16(&self, i: usize) -> u16 {
        u16_of(piece_of(self.fields, self.bytes, &self.ends, i))
    }

    #[inline(always)]
    fn u32(&self, i: usize) -> u32 {
        u32_of(piece_of(self.fields, self.bytes, &self.ends, i))
    }

    #[inline(always)]
    fn u64(&self, i: usize) -> u64 {
        u64_of(piece_of(self.fields, self.bytes, &self.ends, i))
    }

    #[inline(always)]
    fn i64(&self, i: usize) -> i64 {
        i64_of(piece_of(self.fields, self.bytes, &self.ends, i))
    }

    #[inline(always)]
    fn state(&self, i: usize) -> State {
        state_of(piece_of(self.fields, self.bytes, &self.ends, i))
    }

    #[inline(always)]
    fn data_type(&self, i: usize) -> DataType {
        type_of(piece_of(self.fields, self.bytes, &self.ends, i))
    }

    #[inline(always)]
    fn value(&self, i: usize, kind: DataType) -> i128 {
        value_of(kind, piece_of(self.fields, self.bytes, &self.ends, i))
    }

    #[inline(always)]
    fn uuid(&self, i: usize) -> u128 {
        uuid_of(piece_of(self.fields, self.bytes, &self.ends, i))
    }

    #[inline(always)]
    fn ip(&self, i: usize) -> u32 {
        u32_of(piece_of(self.fields, self.bytes, &self.ends, i))
    }

    #[inline(always)]
    fn rest(&self, i: usize) -> &'a [u8] {
        rest_of(piece_of(self.fields, self.bytes, &self.ends, i))
    }

    #[inline(always)]
    fn whole(&self) {
        let _ends = &self.ends;
    }
}

/// Cuts the bytes by the layout with this code.
// In line, each message has a walk of its own, in which its fields are known: twice as fast.
#[inline(always)]
pub fn cut_by<'a, 'f, const N: usize>(
    code: u8,
    fields: &'f [Field],
    bytes: &'a [u8],
) -> Result<Cut<'a, 'f, N>, DecodeFault>
    requires row { kinds_for code ≡ Some (kinds_of fields.now) }
    requires size { length fields.now ≡ N }
    requires some { 0 < length bytes.now }
    requires first { slice_index bytes.now 0 ≡ code }
    ensures code { IfOk result (λ c. c.code ≡ code) }
    ensures kinds { IfOk result (λ c. AreKinds (kinds_of c.fields.now) 0 (layout_of code)) }
    ensures bytes { IfOk result (λ c. c.bytes.now ≡ bytes.now) }
    ensures err { IfErr result (λ fault. Refusal bytes.now fault.at fault.why) }
{
    let ends = walk(code, fields, bytes)?;
    Ok(Cut {
        code,
        fields,
        bytes,
        ends,
    })
}
