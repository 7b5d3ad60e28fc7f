//! The fields of one message, wherever they stand: in its bytes, or in the words of its line.

ghost use Rattle.std.specs.Prelude.{◌≡◌, ◌<◌, ◌-◌, ℕ, List, slice_get, Some};
ghost use Rattle.dcp_types.specs.Codes.{state_code, type_code};
ghost use Rattle.pdu_layout.specs.Fields.{FieldValue};
ghost use Rattle.pdu_layout.specs.Fields.FieldValue.{Number, Signed, Bytes};
ghost use Rattle.pdu_layout.specs.Held.{AreKinds, HoldEach, layout_of};
ghost use Rattle.pdu_layout.specs.Message.{Message};
ghost use Rattle.pdu_layout.specs.Table.{kinds_for};
ghost use Rattle.pdu_layout.specs.declared.fields.FieldKind.{FieldKind};
ghost use Rattle.pdu_layout.specs.declared.fields.FieldKind.TheVariants as fields;

use dcp_types::{DataType, State};

/// The fields of one message, each asked for by its place, counted from 0, and by its kind.
pub trait MessageFields<'a> {
    // the type code
    ghost code: { Self → ℕ };

    // the kinds of the fields, in their order
    ghost kinds: { Self → List FieldKind };

    // the field at a place, of a kind and after a type field of some code, holds the value
    ghost holds: { Self → ℕ → FieldKind → ℕ → FieldValue → Type 0 };

    // the message that the fields make up
    ghost says: { Self → Message → Type 0 };

    fn u8(&self, i: usize) -> u8
        requires { slice_get (kinds self.now) i ≡ Some fields.U8 }
        ensures { holds self.now i fields.U8 0 (Number result) };

    fn u16(&self, i: usize) -> u16
        requires { slice_get (kinds self.now) i ≡ Some fields.U16 }
        ensures { holds self.now i fields.U16 0 (Number result) };

    fn u32(&self, i: usize) -> u32
        requires { slice_get (kinds self.now) i ≡ Some fields.U32 }
        ensures { holds self.now i fields.U32 0 (Number result) };

    fn u64(&self, i: usize) -> u64
        requires { slice_get (kinds self.now) i ≡ Some fields.U64 }
        ensures { holds self.now i fields.U64 0 (Number result) };

    fn i64(&self, i: usize) -> i64
        requires { slice_get (kinds self.now) i ≡ Some fields.I64 }
        ensures { holds self.now i fields.I64 0 (Signed result) };

    fn state(&self, i: usize) -> State
        requires { slice_get (kinds self.now) i ≡ Some fields.StateCode }
        ensures { holds self.now i fields.StateCode 0 (Number (state_code result)) };

    fn data_type(&self, i: usize) -> DataType
        requires { slice_get (kinds self.now) i ≡ Some fields.TypeCode }
        ensures { holds self.now i fields.TypeCode 0 (Number (type_code result)) };

    /// A value of the type that the field before it names.
    fn value(&self, i: usize, kind: DataType) -> i128
        requires typed { 0 < i }
        requires before { slice_get (kinds self.now) (i - 1) ≡ Some fields.TypeCode }
        requires kind { slice_get (kinds self.now) i ≡ Some fields.Value }
        requires named { holds self.now (i - 1) fields.TypeCode 0 (Number (type_code kind)) }
        ensures { holds self.now i fields.Value (type_code kind) (Signed result) };

    fn uuid(&self, i: usize) -> u128
        requires { slice_get (kinds self.now) i ≡ Some fields.Uuid }
        ensures { holds self.now i fields.Uuid 0 (Number result) };

    /// An IPv4 address; the first part of the dotted form is the most significant byte.
    fn ip(&self, i: usize) -> u32
        requires { slice_get (kinds self.now) i ≡ Some fields.Ip }
        ensures { holds self.now i fields.Ip 0 (Number result) };

    fn rest(&self, i: usize) -> &'a [u8]
        requires { slice_get (kinds self.now) i ≡ Some fields.Rest }
        ensures { holds self.now i fields.Rest 0 (Bytes result.now) };

    /// What the fields hold one by one makes up the message.
    fn whole(&self)
        ensures { (n : ℕ) (values : List FieldValue) → code self.now ≡ n → kinds_for n ≡ Some (layout_of n)
            → AreKinds (kinds self.now) 0 (layout_of n) → HoldEach (holds self.now) (layout_of n) 0 0 values → says self.now (record { code = n; values = values }) };
}
