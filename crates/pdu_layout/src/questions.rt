//! The layouts of the questions, which begin with a number and the receiver.

ghost use Rattle.std.specs.Prelude.{◌≡◌, ◌≤◌, Some};
ghost use Rattle.pdu_layout.specs.Held.{AreKinds, layout_of};
ghost use Rattle.pdu_layout.specs.Message.{message_of};
ghost use Rattle.pdu_layout.specs.Parts.{AreParts};
ghost use Rattle.pdu_layout.specs.Table.{row_of, rows_of};
ghost use Rattle.pdu_layout.specs.declared.messages.Pdu.TheVariants as pdu;
ghost use Rattle.pdu_layout.specs.declared.messages.Inf.TheVariants as inf;

use crate::field_names::{CATEGORY, MAX_ENTRIES, PDU_SEQ_ID, RECEIVER};
use crate::fields::{Field, Layout};
use crate::listed_rows::ListedRow;
use crate::message_fields::MessageFields;
use crate::message_parts::{FieldContent, NONE, Parts, field, filled, listed, message};
use crate::messages::{Inf, Pdu};

/// What follows the type code.
pub const INF_FIELDS: [Field; 2] = [PDU_SEQ_ID, RECEIVER];

pub const INF_STATE: Layout<2> = Layout {
    code: 0x80,
    name: "INF_state",
    fields: INF_FIELDS,
};

pub const INF_ERROR: Layout<2> = Layout {
    code: 0x81,
    name: "INF_error",
    fields: INF_FIELDS,
};

/// What follows the type code.
pub const INF_LOG_FIELDS: [Field; 4] = [PDU_SEQ_ID, RECEIVER, CATEGORY, MAX_ENTRIES];

pub const INF_LOG: Layout<4> = Layout {
    code: 0x82,
    name: "INF_log",
    fields: INF_LOG_FIELDS,
};

/// The layouts of the questions.
pub fn question_row(code: u8) -> ListedRow
    requires from { 128 ≤ code }
    requires to { code ≤ 130 }
    ensures { row_of code ≡ Some (record { code = code; name = result.name.now; fields = rows_of result.fields.now }) }
{
    match code {
        128 => ListedRow {
            name: INF_STATE.name,
            fields: &INF_FIELDS,
        },
        129 => ListedRow {
            name: INF_ERROR.name,
            fields: &INF_FIELDS,
        },
        _ => ListedRow {
            name: INF_LOG.name,
            fields: &INF_LOG_FIELDS,
        },
    }
}

#[inline(always)]
fn inf_state_parts(seq: u16, receiver: u8) -> Parts<'static>
    ensures { AreParts (message_of (pdu.Inf seq receiver inf.State)) result }
{
    message!(INF_STATE, INF_FIELDS, number seq, number receiver)
}

#[inline(always)]
fn inf_error_parts(seq: u16, receiver: u8) -> Parts<'static>
    ensures { AreParts (message_of (pdu.Inf seq receiver inf.Error)) result }
{
    message!(INF_ERROR, INF_FIELDS, number seq, number receiver)
}

#[inline(always)]
fn inf_log_parts(seq: u16, receiver: u8, category: u8, max_entries: u8) -> Parts<'static>
    ensures { AreParts (message_of (pdu.Inf seq receiver (inf.Log category max_entries))) result }
{
    message!(INF_LOG, INF_LOG_FIELDS, number seq, number receiver, number category, number max_entries)
}

/// The parts of the questions.
#[inline(always)]
pub fn question_parts(seq: u16, receiver: u8, body: Inf) -> Parts<'static>
    ensures { AreParts (message_of (pdu.Inf seq receiver body)) result }
{
    match body {
        Inf::State => inf_state_parts(seq, receiver),
        Inf::Error => inf_error_parts(seq, receiver),
        Inf::Log {
            category,
            max_entries,
        } => inf_log_parts(seq, receiver, category, max_entries),
    }
}

/// The message `INF_state`, by what its fields hold.
#[inline(always)]
pub fn inf_state<'a, F: MessageFields<'a>>(fields: &F) -> Pdu<'a>
    requires code { F.code fields.now ≡ 128 }
    requires kinds { AreKinds (F.kinds fields.now) 0 (layout_of 128) }
    ensures { F.says fields.now (message_of result) }
{
    fields.whole();
    Pdu::Inf {
        seq: fields.u16(0),
        receiver: fields.u8(1),
        body: Inf::State,
    }
}

/// The message `INF_error`, by what its fields hold.
#[inline(always)]
pub fn inf_error<'a, F: MessageFields<'a>>(fields: &F) -> Pdu<'a>
    requires code { F.code fields.now ≡ 129 }
    requires kinds { AreKinds (F.kinds fields.now) 0 (layout_of 129) }
    ensures { F.says fields.now (message_of result) }
{
    fields.whole();
    Pdu::Inf {
        seq: fields.u16(0),
        receiver: fields.u8(1),
        body: Inf::Error,
    }
}

/// The message `INF_log`, by what its fields hold.
#[inline(always)]
pub fn inf_log<'a, F: MessageFields<'a>>(fields: &F) -> Pdu<'a>
    requires code { F.code fields.now ≡ 130 }
    requires kinds { AreKinds (F.kinds fields.now) 0 (layout_of 130) }
    ensures { F.says fields.now (message_of result) }
{
    fields.whole();
    Pdu::Inf {
        seq: fields.u16(0),
        receiver: fields.u8(1),
        body: Inf::Log {
            category: fields.u8(2),
            max_entries: fields.u8(3),
        },
    }
}
