//! A message in parts: its layout and the contents of its fields, which writing, judging and printing
//! go through field by field.

ghost use Rattle.std.specs.Prelude.{◌≡◌, Some};
ghost use Rattle.pdu_layout.specs.Table.{row_of, rows_of};
ghost use Rattle.pdu_layout.specs.Message.{message_of};
ghost use Rattle.pdu_layout.specs.Parts.{AreParts};

use crate::answers::answer_parts;
use crate::configuration::configuration_parts;
use crate::fields::Field;
use crate::messages::Pdu;
use crate::notices::{
    dat_input_output_parts, dat_parameter_parts, ntf_log_parts, ntf_state_changed_parts,
};
use crate::questions::question_parts;
use crate::state_requests::state_request_parts;

/// What a field of a message holds.
#[derive(Clone, Copy, Debug)]
pub enum FieldContent<'a> {
    /// Also the code of a state or of a type, an identity or an address.
    Number(u128),
    Signed(i128),
    Bytes(&'a [u8]),
}

/// A message in parts.
#[derive(Clone, Copy, Debug)]
pub struct Parts<'a> {
    /// The type code.
    pub code: u8,
    /// The name in the printed form.
    pub name: &'static str,
    /// The fields after the type code, 2 to 7.
    pub fields: &'static [Field],
    /// The contents of the fields, in their order; what is past the fields means nothing.
    pub contents: [FieldContent<'a>; 7],
}

pub const NONE: FieldContent<'static> = FieldContent::Number(0);

/// A layout that the table lists under its code, with its name and with its fields' names and kinds.
pub(crate) fn listed(code: u8, name: &'static str, fields: &[Field])
    requires { row_of code ≡ Some (record { code = code; name = name.now; fields = rows_of fields.now }) }
{}

/// The contents of a message from those of its fields, filled up.
macro_rules! filled {
    ($a:expr, $b:expr) => { [$a, $b, NONE, NONE, NONE, NONE, NONE] };
    ($a:expr, $b:expr, $c:expr) => { [$a, $b, $c, NONE, NONE, NONE, NONE] };
    ($a:expr, $b:expr, $c:expr, $d:expr) => { [$a, $b, $c, $d, NONE, NONE, NONE] };
    ($a:expr, $b:expr, $c:expr, $d:expr, $e:expr) => { [$a, $b, $c, $d, $e, NONE, NONE] };
    ($a:expr, $b:expr, $c:expr, $d:expr, $e:expr, $f:expr) => { [$a, $b, $c, $d, $e, $f, NONE] };
    ($a:expr, $b:expr, $c:expr, $d:expr, $e:expr, $f:expr, $g:expr) => { [$a, $b, $c, $d, $e, $f, $g] };
}

pub(crate) use filled;

/// The contents of one field.
macro_rules! field {
    (number $value:expr) => { FieldContent::Number($value as u128) };
    (signed $value:expr) => { FieldContent::Signed($value as i128) };
    (code $value:expr) => { FieldContent::Number($value.code() as u128) };
    (bytes $value:expr) => { FieldContent::Bytes($value) };
}

pub(crate) use field;

/// The parts of a message by its layout, its fields and what they hold.
macro_rules! message {
    ($layout:ident, $fields:ident, $($form:ident $value:expr),+) => {{
        let fields: &[Field] = &$layout.fields;
        listed($layout.code, $layout.name, fields);
        Parts {
            code: $layout.code,
            name: $layout.name,
            fields: &$fields,
            contents: filled!($(field!($form $value)),+),
        }
    }};
}

pub(crate) use message;

/// The parts of a message.
#[inline(always)]
pub fn parts_of<'a>(pdu: &Pdu<'a>) -> Parts<'a>
    ensures { AreParts (message_of pdu.now) result }
{
    match *pdu {
        Pdu::Stc {
            seq,
            receiver,
            state,
            body,
        } => state_request_parts(seq, receiver, state, body),
        Pdu::Cfg {
            seq,
            receiver,
            body,
        } => configuration_parts(seq, receiver, body),
        Pdu::Inf {
            seq,
            receiver,
            body,
        } => question_parts(seq, receiver, body),
        Pdu::Rsp { seq, sender, body } => answer_parts(seq, sender, body),
        Pdu::StateChanged { sender, state } => ntf_state_changed_parts(sender, state),
        Pdu::LogNote {
            sender,
            category,
            level,
            text,
        } => ntf_log_parts(sender, category, level, text),
        Pdu::DataIo {
            seq,
            data_id,
            payload,
        } => dat_input_output_parts(seq, data_id, payload),
        Pdu::DataParameter {
            seq,
            param_id,
            payload,
        } => dat_parameter_parts(seq, param_id, payload),
    }
}
