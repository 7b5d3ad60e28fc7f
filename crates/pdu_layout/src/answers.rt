//! The layouts of the answers, which begin with the number of the request and the sender.

ghost use Rattle.std.specs.Prelude.{◌≡◌, ◌≤◌, Some};
ghost use Rattle.pdu_layout.specs.Held.{AreKinds, layout_of};
ghost use Rattle.pdu_layout.specs.Message.{message_of};
ghost use Rattle.pdu_layout.specs.Parts.{AreParts};
ghost use Rattle.pdu_layout.specs.Table.{row_of, rows_of};
ghost use Rattle.pdu_layout.specs.declared.messages.Pdu.TheVariants as pdu;
ghost use Rattle.pdu_layout.specs.declared.messages.Rsp.TheVariants as rsp;

use crate::field_names::{ENTRIES, ERROR_CODE, EXP_SEQ_ID, RESP_SEQ_ID, SENDER, STATE_ID};
use crate::fields::{Field, Layout};
use crate::listed_rows::ListedRow;
use crate::message_fields::MessageFields;
use crate::message_parts::{FieldContent, NONE, Parts, field, filled, listed, message};
use crate::messages::{Pdu, Rsp};
use dcp_types::State;

/// What follows the type code.
pub const RSP_ACK_FIELDS: [Field; 2] = [RESP_SEQ_ID, SENDER];

pub const RSP_ACK: Layout<2> = Layout {
    code: 0xb0,
    name: "RSP_ack",
    fields: RSP_ACK_FIELDS,
};

/// What follows the type code.
pub const RSP_NACK_FIELDS: [Field; 4] = [RESP_SEQ_ID, SENDER, EXP_SEQ_ID, ERROR_CODE];

pub const RSP_NACK: Layout<4> = Layout {
    code: 0xb1,
    name: "RSP_nack",
    fields: RSP_NACK_FIELDS,
};

/// What follows the type code.
pub const RSP_STATE_ACK_FIELDS: [Field; 3] = [RESP_SEQ_ID, SENDER, STATE_ID];

pub const RSP_STATE_ACK: Layout<3> = Layout {
    code: 0xb2,
    name: "RSP_state_ack",
    fields: RSP_STATE_ACK_FIELDS,
};

/// What follows the type code.
pub const RSP_ERROR_ACK_FIELDS: [Field; 3] = [RESP_SEQ_ID, SENDER, ERROR_CODE];

pub const RSP_ERROR_ACK: Layout<3> = Layout {
    code: 0xb3,
    name: "RSP_error_ack",
    fields: RSP_ERROR_ACK_FIELDS,
};

/// What follows the type code.
pub const RSP_LOG_ACK_FIELDS: [Field; 3] = [RESP_SEQ_ID, SENDER, ENTRIES];

pub const RSP_LOG_ACK: Layout<3> = Layout {
    code: 0xb4,
    name: "RSP_log_ack",
    fields: RSP_LOG_ACK_FIELDS,
};

/// The layouts of the answers.
pub fn answer_row(code: u8) -> ListedRow
    requires from { 176 ≤ code }
    requires to { code ≤ 180 }
    ensures { row_of code ≡ Some (record { code = code; name = result.name.now; fields = rows_of result.fields.now }) }
{
    match code {
        176 => ListedRow {
            name: RSP_ACK.name,
            fields: &RSP_ACK_FIELDS,
        },
        177 => ListedRow {
            name: RSP_NACK.name,
            fields: &RSP_NACK_FIELDS,
        },
        178 => ListedRow {
            name: RSP_STATE_ACK.name,
            fields: &RSP_STATE_ACK_FIELDS,
        },
        179 => ListedRow {
            name: RSP_ERROR_ACK.name,
            fields: &RSP_ERROR_ACK_FIELDS,
        },
        _ => ListedRow {
            name: RSP_LOG_ACK.name,
            fields: &RSP_LOG_ACK_FIELDS,
        },
    }
}

#[inline(always)]
fn rsp_ack_parts(seq: u16, sender: u8) -> Parts<'static>
    ensures { AreParts (message_of (pdu.Rsp seq sender rsp.Ack)) result }
{
    message!(RSP_ACK, RSP_ACK_FIELDS, number seq, number sender)
}

#[inline(always)]
fn rsp_nack_parts(seq: u16, sender: u8, expected: u16, code: u16) -> Parts<'static>
    ensures { AreParts (message_of (pdu.Rsp seq sender (rsp.Nack expected code))) result }
{
    message!(RSP_NACK, RSP_NACK_FIELDS, number seq, number sender, number expected, number code)
}

#[inline(always)]
fn rsp_state_ack_parts(seq: u16, sender: u8, state: State) -> Parts<'static>
    ensures { AreParts (message_of (pdu.Rsp seq sender (rsp.StateAck state))) result }
{
    message!(RSP_STATE_ACK, RSP_STATE_ACK_FIELDS, number seq, number sender, code state)
}

#[inline(always)]
fn rsp_error_ack_parts(seq: u16, sender: u8, code: u16) -> Parts<'static>
    ensures { AreParts (message_of (pdu.Rsp seq sender (rsp.ErrorAck code))) result }
{
    message!(RSP_ERROR_ACK, RSP_ERROR_ACK_FIELDS, number seq, number sender, number code)
}

#[inline(always)]
fn rsp_log_ack_parts(seq: u16, sender: u8, entries: &[u8]) -> Parts<'_>
    ensures { AreParts (message_of (pdu.Rsp seq sender (rsp.LogAck entries.entry))) result }
{
    message!(RSP_LOG_ACK, RSP_LOG_ACK_FIELDS, number seq, number sender, bytes entries)
}

/// The parts of the answers.
#[inline(always)]
pub fn answer_parts(seq: u16, sender: u8, body: Rsp<'_>) -> Parts<'_>
    ensures { AreParts (message_of (pdu.Rsp seq sender body.entry)) result }
{
    match body {
        Rsp::Ack => rsp_ack_parts(seq, sender),
        Rsp::Nack { expected, code } => rsp_nack_parts(seq, sender, expected, code),
        Rsp::StateAck { state } => rsp_state_ack_parts(seq, sender, state),
        Rsp::ErrorAck { code } => rsp_error_ack_parts(seq, sender, code),
        Rsp::LogAck { entries } => rsp_log_ack_parts(seq, sender, entries),
    }
}

/// The message `RSP_ack`, by what its fields hold.
#[inline(always)]
pub fn rsp_ack<'a, F: MessageFields<'a>>(fields: &F) -> Pdu<'a>
    requires code { F.code fields.now ≡ 176 }
    requires kinds { AreKinds (F.kinds fields.now) 0 (layout_of 176) }
    ensures { F.says fields.now (message_of result) }
{
    fields.whole();
    Pdu::Rsp {
        seq: fields.u16(0),
        sender: fields.u8(1),
        body: Rsp::Ack,
    }
}

/// The message `RSP_nack`, by what its fields hold.
#[inline(always)]
pub fn rsp_nack<'a, F: MessageFields<'a>>(fields: &F) -> Pdu<'a>
    requires code { F.code fields.now ≡ 177 }
    requires kinds { AreKinds (F.kinds fields.now) 0 (layout_of 177) }
    ensures { F.says fields.now (message_of result) }
{
    fields.whole();
    Pdu::Rsp {
        seq: fields.u16(0),
        sender: fields.u8(1),
        body: Rsp::Nack {
            expected: fields.u16(2),
            code: fields.u16(3),
        },
    }
}

/// The message `RSP_state_ack`, by what its fields hold.
#[inline(always)]
pub fn rsp_state_ack<'a, F: MessageFields<'a>>(fields: &F) -> Pdu<'a>
    requires code { F.code fields.now ≡ 178 }
    requires kinds { AreKinds (F.kinds fields.now) 0 (layout_of 178) }
    ensures { F.says fields.now (message_of result) }
{
    fields.whole();
    Pdu::Rsp {
        seq: fields.u16(0),
        sender: fields.u8(1),
        body: Rsp::StateAck {
            state: fields.state(2),
        },
    }
}

/// The message `RSP_error_ack`, by what its fields hold.
#[inline(always)]
pub fn rsp_error_ack<'a, F: MessageFields<'a>>(fields: &F) -> Pdu<'a>
    requires code { F.code fields.now ≡ 179 }
    requires kinds { AreKinds (F.kinds fields.now) 0 (layout_of 179) }
    ensures { F.says fields.now (message_of result) }
{
    fields.whole();
    Pdu::Rsp {
        seq: fields.u16(0),
        sender: fields.u8(1),
        body: Rsp::ErrorAck {
            code: fields.u16(2),
        },
    }
}

/// The message `RSP_log_ack`, by what its fields hold.
#[inline(always)]
pub fn rsp_log_ack<'a, F: MessageFields<'a>>(fields: &F) -> Pdu<'a>
    requires code { F.code fields.now ≡ 180 }
    requires kinds { AreKinds (F.kinds fields.now) 0 (layout_of 180) }
    ensures { F.says fields.now (message_of result) }
{
    fields.whole();
    Pdu::Rsp {
        seq: fields.u16(0),
        sender: fields.u8(1),
        body: Rsp::LogAck {
            entries: fields.rest(2),
        },
    }
}
