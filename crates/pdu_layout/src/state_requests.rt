//! The layouts of the state requests, which begin with a number, the receiver and the state that the sender
//! takes the receiver to be in.

ghost use Rattle.std.specs.Prelude.{◌≡◌, ◌≤◌, Some};
ghost use Rattle.pdu_layout.specs.Held.{AreKinds, layout_of};
ghost use Rattle.pdu_layout.specs.Message.{message_of};
ghost use Rattle.pdu_layout.specs.Parts.{AreParts};
ghost use Rattle.pdu_layout.specs.Table.{row_of, rows_of};
ghost use Rattle.pdu_layout.specs.declared.messages.Pdu.TheVariants as pdu;
ghost use Rattle.pdu_layout.specs.declared.messages.Stc.TheVariants as stc;

use crate::field_names::{
    MAJOR_VERSION, MINOR_VERSION, OP_MODE, PDU_SEQ_ID, RECEIVER, SLAVE_UUID, START_TIME, STATE_ID,
    STEPS,
};
use crate::fields::{Field, Layout};
use crate::listed_rows::ListedRow;
use crate::message_fields::MessageFields;
use crate::message_parts::{FieldContent, NONE, Parts, field, filled, listed, message};
use crate::messages::{Pdu, Stc};
use dcp_types::State;

/// What follows the type code.
pub const STC_REGISTER_FIELDS: [Field; 7] = [
    PDU_SEQ_ID,
    RECEIVER,
    STATE_ID,
    SLAVE_UUID,
    OP_MODE,
    MAJOR_VERSION,
    MINOR_VERSION,
];

pub const STC_REGISTER: Layout<7> = Layout {
    code: 0x01,
    name: "STC_register",
    fields: STC_REGISTER_FIELDS,
};

/// What follows the type code.
pub const STC_FIELDS: [Field; 3] = [PDU_SEQ_ID, RECEIVER, STATE_ID];

pub const STC_DEREGISTER: Layout<3> = Layout {
    code: 0x02,
    name: "STC_deregister",
    fields: STC_FIELDS,
};

pub const STC_PREPARE: Layout<3> = Layout {
    code: 0x03,
    name: "STC_prepare",
    fields: STC_FIELDS,
};

pub const STC_CONFIGURE: Layout<3> = Layout {
    code: 0x04,
    name: "STC_configure",
    fields: STC_FIELDS,
};

pub const STC_INITIALIZE: Layout<3> = Layout {
    code: 0x05,
    name: "STC_initialize",
    fields: STC_FIELDS,
};

/// What follows the type code.
pub const STC_RUN_FIELDS: [Field; 4] = [PDU_SEQ_ID, RECEIVER, STATE_ID, START_TIME];

pub const STC_RUN: Layout<4> = Layout {
    code: 0x06,
    name: "STC_run",
    fields: STC_RUN_FIELDS,
};

/// What follows the type code.
pub const STC_DO_STEP_FIELDS: [Field; 4] = [PDU_SEQ_ID, RECEIVER, STATE_ID, STEPS];

pub const STC_DO_STEP: Layout<4> = Layout {
    code: 0x07,
    name: "STC_do_step",
    fields: STC_DO_STEP_FIELDS,
};

pub const STC_SEND_OUTPUTS: Layout<3> = Layout {
    code: 0x08,
    name: "STC_send_outputs",
    fields: STC_FIELDS,
};

pub const STC_STOP: Layout<3> = Layout {
    code: 0x09,
    name: "STC_stop",
    fields: STC_FIELDS,
};

pub const STC_RESET: Layout<3> = Layout {
    code: 0x0a,
    name: "STC_reset",
    fields: STC_FIELDS,
};

/// The layouts of the state requests.
pub fn state_request_row(code: u8) -> ListedRow
    requires from { 1 ≤ code }
    requires to { code ≤ 10 }
    ensures { row_of code ≡ Some (record { code = code; name = result.name.now; fields = rows_of result.fields.now }) }
{
    match code {
        1 => ListedRow {
            name: STC_REGISTER.name,
            fields: &STC_REGISTER_FIELDS,
        },
        2 => ListedRow {
            name: STC_DEREGISTER.name,
            fields: &STC_FIELDS,
        },
        3 => ListedRow {
            name: STC_PREPARE.name,
            fields: &STC_FIELDS,
        },
        4 => ListedRow {
            name: STC_CONFIGURE.name,
            fields: &STC_FIELDS,
        },
        5 => ListedRow {
            name: STC_INITIALIZE.name,
            fields: &STC_FIELDS,
        },
        6 => ListedRow {
            name: STC_RUN.name,
            fields: &STC_RUN_FIELDS,
        },
        7 => ListedRow {
            name: STC_DO_STEP.name,
            fields: &STC_DO_STEP_FIELDS,
        },
        8 => ListedRow {
            name: STC_SEND_OUTPUTS.name,
            fields: &STC_FIELDS,
        },
        9 => ListedRow {
            name: STC_STOP.name,
            fields: &STC_FIELDS,
        },
        _ => ListedRow {
            name: STC_RESET.name,
            fields: &STC_FIELDS,
        },
    }
}

#[inline(always)]
fn stc_register_parts(
    seq: u16,
    receiver: u8,
    state: State,
    uuid: u128,
    op_mode: u8,
    major: u8,
    minor: u8,
) -> Parts<'static>
    ensures { AreParts (message_of (pdu.Stc seq receiver state (stc.Register uuid op_mode major minor))) result }
{
    message!(STC_REGISTER, STC_REGISTER_FIELDS, number seq, number receiver, code state, number uuid, number op_mode, number major, number minor)
}

#[inline(always)]
fn stc_deregister_parts(seq: u16, receiver: u8, state: State) -> Parts<'static>
    ensures { AreParts (message_of (pdu.Stc seq receiver state stc.Deregister)) result }
{
    message!(STC_DEREGISTER, STC_FIELDS, number seq, number receiver, code state)
}

#[inline(always)]
fn stc_prepare_parts(seq: u16, receiver: u8, state: State) -> Parts<'static>
    ensures { AreParts (message_of (pdu.Stc seq receiver state stc.Prepare)) result }
{
    message!(STC_PREPARE, STC_FIELDS, number seq, number receiver, code state)
}

#[inline(always)]
fn stc_configure_parts(seq: u16, receiver: u8, state: State) -> Parts<'static>
    ensures { AreParts (message_of (pdu.Stc seq receiver state stc.Configure)) result }
{
    message!(STC_CONFIGURE, STC_FIELDS, number seq, number receiver, code state)
}

#[inline(always)]
fn stc_initialize_parts(seq: u16, receiver: u8, state: State) -> Parts<'static>
    ensures { AreParts (message_of (pdu.Stc seq receiver state stc.Initialize)) result }
{
    message!(STC_INITIALIZE, STC_FIELDS, number seq, number receiver, code state)
}

#[inline(always)]
fn stc_run_parts(seq: u16, receiver: u8, state: State, start_time: i64) -> Parts<'static>
    ensures { AreParts (message_of (pdu.Stc seq receiver state (stc.Run start_time))) result }
{
    message!(STC_RUN, STC_RUN_FIELDS, number seq, number receiver, code state, signed start_time)
}

#[inline(always)]
fn stc_do_step_parts(seq: u16, receiver: u8, state: State, steps: u32) -> Parts<'static>
    ensures { AreParts (message_of (pdu.Stc seq receiver state (stc.DoStep steps))) result }
{
    message!(STC_DO_STEP, STC_DO_STEP_FIELDS, number seq, number receiver, code state, number steps)
}

#[inline(always)]
fn stc_send_outputs_parts(seq: u16, receiver: u8, state: State) -> Parts<'static>
    ensures { AreParts (message_of (pdu.Stc seq receiver state stc.SendOutputs)) result }
{
    message!(STC_SEND_OUTPUTS, STC_FIELDS, number seq, number receiver, code state)
}

#[inline(always)]
fn stc_stop_parts(seq: u16, receiver: u8, state: State) -> Parts<'static>
    ensures { AreParts (message_of (pdu.Stc seq receiver state stc.Stop)) result }
{
    message!(STC_STOP, STC_FIELDS, number seq, number receiver, code state)
}

#[inline(always)]
fn stc_reset_parts(seq: u16, receiver: u8, state: State) -> Parts<'static>
    ensures { AreParts (message_of (pdu.Stc seq receiver state stc.Reset)) result }
{
    message!(STC_RESET, STC_FIELDS, number seq, number receiver, code state)
}

/// The parts of the state requests.
#[inline(always)]
pub fn state_request_parts(seq: u16, receiver: u8, state: State, body: Stc) -> Parts<'static>
    ensures { AreParts (message_of (pdu.Stc seq receiver state body)) result }
{
    match body {
        Stc::Register {
            uuid,
            op_mode,
            major,
            minor,
        } => stc_register_parts(seq, receiver, state, uuid, op_mode, major, minor),
        Stc::Deregister => stc_deregister_parts(seq, receiver, state),
        Stc::Prepare => stc_prepare_parts(seq, receiver, state),
        Stc::Configure => stc_configure_parts(seq, receiver, state),
        Stc::Initialize => stc_initialize_parts(seq, receiver, state),
        Stc::Run { start_time } => stc_run_parts(seq, receiver, state, start_time),
        Stc::DoStep { steps } => stc_do_step_parts(seq, receiver, state, steps),
        Stc::SendOutputs => stc_send_outputs_parts(seq, receiver, state),
        Stc::Stop => stc_stop_parts(seq, receiver, state),
        Stc::Reset => stc_reset_parts(seq, receiver, state),
    }
}

/// The message `STC_register`, by what its fields hold.
#[inline(always)]
pub fn stc_register<'a, F: MessageFields<'a>>(fields: &F) -> Pdu<'a>
    requires code { F.code fields.now ≡ 1 }
    requires kinds { AreKinds (F.kinds fields.now) 0 (layout_of 1) }
    ensures { F.says fields.now (message_of result) }
{
    fields.whole();
    Pdu::Stc {
        seq: fields.u16(0),
        receiver: fields.u8(1),
        state: fields.state(2),
        body: Stc::Register {
            uuid: fields.uuid(3),
            op_mode: fields.u8(4),
            major: fields.u8(5),
            minor: fields.u8(6),
        },
    }
}

/// The message `STC_deregister`, by what its fields hold.
#[inline(always)]
pub fn stc_deregister<'a, F: MessageFields<'a>>(fields: &F) -> Pdu<'a>
    requires code { F.code fields.now ≡ 2 }
    requires kinds { AreKinds (F.kinds fields.now) 0 (layout_of 2) }
    ensures { F.says fields.now (message_of result) }
{
    fields.whole();
    Pdu::Stc {
        seq: fields.u16(0),
        receiver: fields.u8(1),
        state: fields.state(2),
        body: Stc::Deregister,
    }
}

/// The message `STC_prepare`, by what its fields hold.
#[inline(always)]
pub fn stc_prepare<'a, F: MessageFields<'a>>(fields: &F) -> Pdu<'a>
    requires code { F.code fields.now ≡ 3 }
    requires kinds { AreKinds (F.kinds fields.now) 0 (layout_of 3) }
    ensures { F.says fields.now (message_of result) }
{
    fields.whole();
    Pdu::Stc {
        seq: fields.u16(0),
        receiver: fields.u8(1),
        state: fields.state(2),
        body: Stc::Prepare,
    }
}

/// The message `STC_configure`, by what its fields hold.
#[inline(always)]
pub fn stc_configure<'a, F: MessageFields<'a>>(fields: &F) -> Pdu<'a>
    requires code { F.code fields.now ≡ 4 }
    requires kinds { AreKinds (F.kinds fields.now) 0 (layout_of 4) }
    ensures { F.says fields.now (message_of result) }
{
    fields.whole();
    Pdu::Stc {
        seq: fields.u16(0),
        receiver: fields.u8(1),
        state: fields.state(2),
        body: Stc::Configure,
    }
}

/// The message `STC_initialize`, by what its fields hold.
#[inline(always)]
pub fn stc_initialize<'a, F: MessageFields<'a>>(fields: &F) -> Pdu<'a>
    requires code { F.code fields.now ≡ 5 }
    requires kinds { AreKinds (F.kinds fields.now) 0 (layout_of 5) }
    ensures { F.says fields.now (message_of result) }
{
    fields.whole();
    Pdu::Stc {
        seq: fields.u16(0),
        receiver: fields.u8(1),
        state: fields.state(2),
        body: Stc::Initialize,
    }
}

/// The message `STC_run`, by what its fields hold.
#[inline(always)]
pub fn stc_run<'a, F: MessageFields<'a>>(fields: &F) -> Pdu<'a>
    requires code { F.code fields.now ≡ 6 }
    requires kinds { AreKinds (F.kinds fields.now) 0 (layout_of 6) }
    ensures { F.says fields.now (message_of result) }
{
    fields.whole();
    Pdu::Stc {
        seq: fields.u16(0),
        receiver: fields.u8(1),
        state: fields.state(2),
        body: Stc::Run {
            start_time: fields.i64(3),
        },
    }
}

/// The message `STC_do_step`, by what its fields hold.
#[inline(always)]
pub fn stc_do_step<'a, F: MessageFields<'a>>(fields: &F) -> Pdu<'a>
    requires code { F.code fields.now ≡ 7 }
    requires kinds { AreKinds (F.kinds fields.now) 0 (layout_of 7) }
    ensures { F.says fields.now (message_of result) }
{
    fields.whole();
    Pdu::Stc {
        seq: fields.u16(0),
        receiver: fields.u8(1),
        state: fields.state(2),
        body: Stc::DoStep {
            steps: fields.u32(3),
        },
    }
}

/// The message `STC_send_outputs`, by what its fields hold.
#[inline(always)]
pub fn stc_send_outputs<'a, F: MessageFields<'a>>(fields: &F) -> Pdu<'a>
    requires code { F.code fields.now ≡ 8 }
    requires kinds { AreKinds (F.kinds fields.now) 0 (layout_of 8) }
    ensures { F.says fields.now (message_of result) }
{
    fields.whole();
    Pdu::Stc {
        seq: fields.u16(0),
        receiver: fields.u8(1),
        state: fields.state(2),
        body: Stc::SendOutputs,
    }
}

/// The message `STC_stop`, by what its fields hold.
#[inline(always)]
pub fn stc_stop<'a, F: MessageFields<'a>>(fields: &F) -> Pdu<'a>
    requires code { F.code fields.now ≡ 9 }
    requires kinds { AreKinds (F.kinds fields.now) 0 (layout_of 9) }
    ensures { F.says fields.now (message_of result) }
{
    fields.whole();
    Pdu::Stc {
        seq: fields.u16(0),
        receiver: fields.u8(1),
        state: fields.state(2),
        body: Stc::Stop,
    }
}

/// The message `STC_reset`, by what its fields hold.
#[inline(always)]
pub fn stc_reset<'a, F: MessageFields<'a>>(fields: &F) -> Pdu<'a>
    requires code { F.code fields.now ≡ 10 }
    requires kinds { AreKinds (F.kinds fields.now) 0 (layout_of 10) }
    ensures { F.says fields.now (message_of result) }
{
    fields.whole();
    Pdu::Stc {
        seq: fields.u16(0),
        receiver: fields.u8(1),
        state: fields.state(2),
        body: Stc::Reset,
    }
}
