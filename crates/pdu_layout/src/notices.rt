//! The layouts of the notices and of the data messages, which no one answers.

ghost use Rattle.std.specs.Prelude.{◌≡◌, ◌⊎◌, Some};
ghost use Rattle.pdu_layout.specs.Held.{AreKinds, layout_of};
ghost use Rattle.pdu_layout.specs.Message.{message_of};
ghost use Rattle.pdu_layout.specs.Parts.{AreParts};
ghost use Rattle.pdu_layout.specs.Table.{row_of, rows_of};
ghost use Rattle.pdu_layout.specs.declared.messages.Pdu.TheVariants as pdu;

use crate::field_names::{
    CATEGORY, DATA_ID, LEVEL, PARAM_ID, PAYLOAD, PDU_SEQ_ID, SENDER, STATE_ID, TEXT,
};
use crate::fields::{Field, Layout};
use crate::listed_rows::ListedRow;
use crate::message_fields::MessageFields;
use crate::message_parts::{FieldContent, NONE, Parts, field, filled, listed, message};
use crate::messages::Pdu;
use dcp_types::State;

/// What follows the type code.
pub const NTF_STATE_CHANGED_FIELDS: [Field; 2] = [SENDER, STATE_ID];

pub const NTF_STATE_CHANGED: Layout<2> = Layout {
    code: 0xe0,
    name: "NTF_state_changed",
    fields: NTF_STATE_CHANGED_FIELDS,
};

/// What follows the type code.
pub const NTF_LOG_FIELDS: [Field; 4] = [SENDER, CATEGORY, LEVEL, TEXT];

pub const NTF_LOG: Layout<4> = Layout {
    code: 0xe1,
    name: "NTF_log",
    fields: NTF_LOG_FIELDS,
};

/// What follows the type code.
pub const DAT_INPUT_OUTPUT_FIELDS: [Field; 3] = [PDU_SEQ_ID, DATA_ID, PAYLOAD];

pub const DAT_INPUT_OUTPUT: Layout<3> = Layout {
    code: 0xf0,
    name: "DAT_input_output",
    fields: DAT_INPUT_OUTPUT_FIELDS,
};

/// What follows the type code.
pub const DAT_PARAMETER_FIELDS: [Field; 3] = [PDU_SEQ_ID, PARAM_ID, PAYLOAD];

pub const DAT_PARAMETER: Layout<3> = Layout {
    code: 0xf1,
    name: "DAT_parameter",
    fields: DAT_PARAMETER_FIELDS,
};

/// The layouts of the notices and data messages.
pub fn notice_row(code: u8) -> ListedRow
    requires { (code ≡ 224) ⊎ (code ≡ 225) ⊎ (code ≡ 240) ⊎ (code ≡ 241) }
    ensures { row_of code ≡ Some (record { code = code; name = result.name.now; fields = rows_of result.fields.now }) }
{
    match code {
        224 => ListedRow {
            name: NTF_STATE_CHANGED.name,
            fields: &NTF_STATE_CHANGED_FIELDS,
        },
        225 => ListedRow {
            name: NTF_LOG.name,
            fields: &NTF_LOG_FIELDS,
        },
        240 => ListedRow {
            name: DAT_INPUT_OUTPUT.name,
            fields: &DAT_INPUT_OUTPUT_FIELDS,
        },
        _ => ListedRow {
            name: DAT_PARAMETER.name,
            fields: &DAT_PARAMETER_FIELDS,
        },
    }
}

#[inline(always)]
pub fn ntf_state_changed_parts(sender: u8, state: State) -> Parts<'static>
    ensures { AreParts (message_of (pdu.StateChanged sender state)) result }
{
    message!(NTF_STATE_CHANGED, NTF_STATE_CHANGED_FIELDS, number sender, code state)
}

#[inline(always)]
pub fn ntf_log_parts(sender: u8, category: u8, level: u8, text: &[u8]) -> Parts<'_>
    ensures { AreParts (message_of (pdu.LogNote sender category level text.entry)) result }
{
    message!(NTF_LOG, NTF_LOG_FIELDS, number sender, number category, number level, bytes text)
}

#[inline(always)]
pub fn dat_input_output_parts(seq: u16, data_id: u16, payload: &[u8]) -> Parts<'_>
    ensures { AreParts (message_of (pdu.DataIo seq data_id payload.entry)) result }
{
    message!(DAT_INPUT_OUTPUT, DAT_INPUT_OUTPUT_FIELDS, number seq, number data_id, bytes payload)
}

#[inline(always)]
pub fn dat_parameter_parts(seq: u16, param_id: u16, payload: &[u8]) -> Parts<'_>
    ensures { AreParts (message_of (pdu.DataParameter seq param_id payload.entry)) result }
{
    message!(DAT_PARAMETER, DAT_PARAMETER_FIELDS, number seq, number param_id, bytes payload)
}

/// The message `NTF_state_changed`, by what its fields hold.
#[inline(always)]
pub fn ntf_state_changed<'a, F: MessageFields<'a>>(fields: &F) -> Pdu<'a>
    requires code { F.code fields.now ≡ 224 }
    requires kinds { AreKinds (F.kinds fields.now) 0 (layout_of 224) }
    ensures { F.says fields.now (message_of result) }
{
    fields.whole();
    Pdu::StateChanged {
        sender: fields.u8(0),
        state: fields.state(1),
    }
}

/// The message `NTF_log`, by what its fields hold.
#[inline(always)]
pub fn ntf_log<'a, F: MessageFields<'a>>(fields: &F) -> Pdu<'a>
    requires code { F.code fields.now ≡ 225 }
    requires kinds { AreKinds (F.kinds fields.now) 0 (layout_of 225) }
    ensures { F.says fields.now (message_of result) }
{
    fields.whole();
    Pdu::LogNote {
        sender: fields.u8(0),
        category: fields.u8(1),
        level: fields.u8(2),
        text: fields.rest(3),
    }
}

/// The message `DAT_input_output`, by what its fields hold.
#[inline(always)]
pub fn dat_input_output<'a, F: MessageFields<'a>>(fields: &F) -> Pdu<'a>
    requires code { F.code fields.now ≡ 240 }
    requires kinds { AreKinds (F.kinds fields.now) 0 (layout_of 240) }
    ensures { F.says fields.now (message_of result) }
{
    fields.whole();
    Pdu::DataIo {
        seq: fields.u16(0),
        data_id: fields.u16(1),
        payload: fields.rest(2),
    }
}

/// The message `DAT_parameter`, by what its fields hold.
#[inline(always)]
pub fn dat_parameter<'a, F: MessageFields<'a>>(fields: &F) -> Pdu<'a>
    requires code { F.code fields.now ≡ 241 }
    requires kinds { AreKinds (F.kinds fields.now) 0 (layout_of 241) }
    ensures { F.says fields.now (message_of result) }
{
    fields.whole();
    Pdu::DataParameter {
        seq: fields.u16(0),
        param_id: fields.u16(1),
        payload: fields.rest(2),
    }
}
