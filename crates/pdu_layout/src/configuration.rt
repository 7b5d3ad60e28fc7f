//! The layouts of the configuration requests, which begin with a number and the receiver.

ghost use Rattle.std.specs.Prelude.{◌≡◌, ◌≤◌, Some};
ghost use Rattle.pdu_layout.specs.Held.{AreKinds, layout_of};
ghost use Rattle.pdu_layout.specs.Message.{message_of};
ghost use Rattle.pdu_layout.specs.Parts.{AreParts};
ghost use Rattle.pdu_layout.specs.Table.{row_of, rows_of};
ghost use Rattle.pdu_layout.specs.declared.messages.Pdu.TheVariants as pdu;
ghost use Rattle.pdu_layout.specs.declared.messages.Cfg.TheVariants as cfg;

use crate::field_names::{
    CATEGORY, DATA_ID, DENOMINATOR, IP, LEVEL, MODE, NUMERATOR, PARAM_ID, PDU_SEQ_ID, PORT, POS,
    PROTOCOL, RECEIVER, SCOPE, SOURCE_TYPE, STEPS, TYPE, VALUE, VR,
};
use crate::fields::{Field, Layout};
use crate::listed_rows::ListedRow;
use crate::message_fields::MessageFields;
use crate::message_parts::{FieldContent, NONE, Parts, field, filled, listed, message};
use crate::messages::{Cfg, NetInfo, Pdu};
use dcp_types::DataType;

/// What follows the type code.
pub const CFG_TIME_RES_FIELDS: [Field; 4] = [PDU_SEQ_ID, RECEIVER, NUMERATOR, DENOMINATOR];

pub const CFG_TIME_RES: Layout<4> = Layout {
    code: 0x20,
    name: "CFG_time_res",
    fields: CFG_TIME_RES_FIELDS,
};

/// What follows the type code.
pub const CFG_STEPS_FIELDS: [Field; 4] = [PDU_SEQ_ID, RECEIVER, DATA_ID, STEPS];

pub const CFG_STEPS: Layout<4> = Layout {
    code: 0x21,
    name: "CFG_steps",
    fields: CFG_STEPS_FIELDS,
};

/// What follows the type code.
pub const CFG_INPUT_FIELDS: [Field; 6] = [PDU_SEQ_ID, RECEIVER, DATA_ID, POS, VR, SOURCE_TYPE];

pub const CFG_INPUT: Layout<6> = Layout {
    code: 0x22,
    name: "CFG_input",
    fields: CFG_INPUT_FIELDS,
};

/// What follows the type code.
pub const CFG_OUTPUT_FIELDS: [Field; 5] = [PDU_SEQ_ID, RECEIVER, DATA_ID, POS, VR];

pub const CFG_OUTPUT: Layout<5> = Layout {
    code: 0x23,
    name: "CFG_output",
    fields: CFG_OUTPUT_FIELDS,
};

/// What follows the type code.
pub const CFG_CLEAR_FIELDS: [Field; 2] = [PDU_SEQ_ID, RECEIVER];

pub const CFG_CLEAR: Layout<2> = Layout {
    code: 0x24,
    name: "CFG_clear",
    fields: CFG_CLEAR_FIELDS,
};

/// What follows the type code.
pub const NETWORK_FIELDS: [Field; 6] = [PDU_SEQ_ID, RECEIVER, DATA_ID, PROTOCOL, PORT, IP];

pub const CFG_TARGET_NETWORK_INFORMATION: Layout<6> = Layout {
    code: 0x25,
    name: "CFG_target_network_information",
    fields: NETWORK_FIELDS,
};

pub const CFG_SOURCE_NETWORK_INFORMATION: Layout<6> = Layout {
    code: 0x26,
    name: "CFG_source_network_information",
    fields: NETWORK_FIELDS,
};

/// What follows the type code.
pub const CFG_PARAMETER_FIELDS: [Field; 5] = [PDU_SEQ_ID, RECEIVER, VR, TYPE, VALUE];

pub const CFG_PARAMETER: Layout<5> = Layout {
    code: 0x27,
    name: "CFG_parameter",
    fields: CFG_PARAMETER_FIELDS,
};

/// What follows the type code.
pub const CFG_TUNABLE_PARAMETER_FIELDS: [Field; 6] = [
    PDU_SEQ_ID, RECEIVER, PARAM_ID, POS, VR, TYPE,
];

pub const CFG_TUNABLE_PARAMETER: Layout<6> = Layout {
    code: 0x28,
    name: "CFG_tunable_parameter",
    fields: CFG_TUNABLE_PARAMETER_FIELDS,
};

/// What follows the type code.
pub const CFG_PARAM_NETWORK_INFORMATION_FIELDS: [Field; 6] = [
    PDU_SEQ_ID, RECEIVER, PARAM_ID, PROTOCOL, PORT, IP,
];

pub const CFG_PARAM_NETWORK_INFORMATION: Layout<6> = Layout {
    code: 0x29,
    name: "CFG_param_network_information",
    fields: CFG_PARAM_NETWORK_INFORMATION_FIELDS,
};

/// What follows the type code.
pub const CFG_LOGGING_FIELDS: [Field; 5] = [PDU_SEQ_ID, RECEIVER, CATEGORY, LEVEL, MODE];

pub const CFG_LOGGING: Layout<5> = Layout {
    code: 0x2a,
    name: "CFG_logging",
    fields: CFG_LOGGING_FIELDS,
};

/// What follows the type code.
pub const CFG_SCOPE_FIELDS: [Field; 4] = [PDU_SEQ_ID, RECEIVER, DATA_ID, SCOPE];

pub const CFG_SCOPE: Layout<4> = Layout {
    code: 0x2b,
    name: "CFG_scope",
    fields: CFG_SCOPE_FIELDS,
};

/// The layouts of the requests that configure.
pub fn configuration_row(code: u8) -> ListedRow
    requires from { 32 ≤ code }
    requires to { code ≤ 43 }
    ensures { row_of code ≡ Some (record { code = code; name = result.name.now; fields = rows_of result.fields.now }) }
{
    match code {
        32 => ListedRow {
            name: CFG_TIME_RES.name,
            fields: &CFG_TIME_RES_FIELDS,
        },
        33 => ListedRow {
            name: CFG_STEPS.name,
            fields: &CFG_STEPS_FIELDS,
        },
        34 => ListedRow {
            name: CFG_INPUT.name,
            fields: &CFG_INPUT_FIELDS,
        },
        35 => ListedRow {
            name: CFG_OUTPUT.name,
            fields: &CFG_OUTPUT_FIELDS,
        },
        36 => ListedRow {
            name: CFG_CLEAR.name,
            fields: &CFG_CLEAR_FIELDS,
        },
        37 => ListedRow {
            name: CFG_TARGET_NETWORK_INFORMATION.name,
            fields: &NETWORK_FIELDS,
        },
        38 => ListedRow {
            name: CFG_SOURCE_NETWORK_INFORMATION.name,
            fields: &NETWORK_FIELDS,
        },
        39 => ListedRow {
            name: CFG_PARAMETER.name,
            fields: &CFG_PARAMETER_FIELDS,
        },
        40 => ListedRow {
            name: CFG_TUNABLE_PARAMETER.name,
            fields: &CFG_TUNABLE_PARAMETER_FIELDS,
        },
        41 => ListedRow {
            name: CFG_PARAM_NETWORK_INFORMATION.name,
            fields: &CFG_PARAM_NETWORK_INFORMATION_FIELDS,
        },
        42 => ListedRow {
            name: CFG_LOGGING.name,
            fields: &CFG_LOGGING_FIELDS,
        },
        _ => ListedRow {
            name: CFG_SCOPE.name,
            fields: &CFG_SCOPE_FIELDS,
        },
    }
}

#[inline(always)]
fn cfg_time_res_parts(seq: u16, receiver: u8, numerator: u32, denominator: u32) -> Parts<'static>
    ensures { AreParts (message_of (pdu.Cfg seq receiver (cfg.TimeRes numerator denominator))) result }
{
    message!(CFG_TIME_RES, CFG_TIME_RES_FIELDS, number seq, number receiver, number numerator, number denominator)
}

#[inline(always)]
fn cfg_steps_parts(seq: u16, receiver: u8, data_id: u16, steps: u32) -> Parts<'static>
    ensures { AreParts (message_of (pdu.Cfg seq receiver (cfg.Steps data_id steps))) result }
{
    message!(CFG_STEPS, CFG_STEPS_FIELDS, number seq, number receiver, number data_id, number steps)
}

#[inline(always)]
fn cfg_input_parts(
    seq: u16,
    receiver: u8,
    data_id: u16,
    pos: u16,
    vr: u64,
    source: DataType,
) -> Parts<'static>
    ensures { AreParts (message_of (pdu.Cfg seq receiver (cfg.Input data_id pos vr source))) result }
{
    message!(CFG_INPUT, CFG_INPUT_FIELDS, number seq, number receiver, number data_id, number pos, number vr, code source)
}

#[inline(always)]
fn cfg_output_parts(seq: u16, receiver: u8, data_id: u16, pos: u16, vr: u64) -> Parts<'static>
    ensures { AreParts (message_of (pdu.Cfg seq receiver (cfg.Output data_id pos vr))) result }
{
    message!(CFG_OUTPUT, CFG_OUTPUT_FIELDS, number seq, number receiver, number data_id, number pos, number vr)
}

#[inline(always)]
fn cfg_clear_parts(seq: u16, receiver: u8) -> Parts<'static>
    ensures { AreParts (message_of (pdu.Cfg seq receiver cfg.Clear)) result }
{
    message!(CFG_CLEAR, CFG_CLEAR_FIELDS, number seq, number receiver)
}

#[inline(always)]
fn cfg_target_network_information_parts(seq: u16, receiver: u8, net: NetInfo) -> Parts<'static>
    ensures { AreParts (message_of (pdu.Cfg seq receiver (cfg.Target net))) result }
{
    message!(CFG_TARGET_NETWORK_INFORMATION, NETWORK_FIELDS, number seq, number receiver, number net.data_id, number net.protocol, number net.port, number net.ip)
}

#[inline(always)]
fn cfg_source_network_information_parts(seq: u16, receiver: u8, net: NetInfo) -> Parts<'static>
    ensures { AreParts (message_of (pdu.Cfg seq receiver (cfg.Source net))) result }
{
    message!(CFG_SOURCE_NETWORK_INFORMATION, NETWORK_FIELDS, number seq, number receiver, number net.data_id, number net.protocol, number net.port, number net.ip)
}

#[inline(always)]
fn cfg_parameter_parts(
    seq: u16,
    receiver: u8,
    vr: u64,
    kind: DataType,
    value: i128,
) -> Parts<'static>
    ensures { AreParts (message_of (pdu.Cfg seq receiver (cfg.Parameter vr kind value))) result }
{
    message!(CFG_PARAMETER, CFG_PARAMETER_FIELDS, number seq, number receiver, number vr, code kind, signed value)
}

#[inline(always)]
fn cfg_tunable_parameter_parts(
    seq: u16,
    receiver: u8,
    param_id: u16,
    pos: u16,
    vr: u64,
    kind: DataType,
) -> Parts<'static>
    ensures { AreParts (message_of (pdu.Cfg seq receiver (cfg.Tunable param_id pos vr kind))) result }
{
    message!(CFG_TUNABLE_PARAMETER, CFG_TUNABLE_PARAMETER_FIELDS, number seq, number receiver, number param_id, number pos, number vr, code kind)
}

#[inline(always)]
fn cfg_param_network_information_parts(
    seq: u16,
    receiver: u8,
    param_id: u16,
    protocol: u8,
    port: u16,
    ip: u32,
) -> Parts<'static>
    ensures { AreParts (message_of (pdu.Cfg seq receiver (cfg.ParamNet param_id protocol port ip))) result }
{
    message!(CFG_PARAM_NETWORK_INFORMATION, CFG_PARAM_NETWORK_INFORMATION_FIELDS, number seq, number receiver, number param_id, number protocol, number port, number ip)
}

#[inline(always)]
fn cfg_logging_parts(seq: u16, receiver: u8, category: u8, level: u8, mode: u8) -> Parts<'static>
    ensures { AreParts (message_of (pdu.Cfg seq receiver (cfg.Logging category level mode))) result }
{
    message!(CFG_LOGGING, CFG_LOGGING_FIELDS, number seq, number receiver, number category, number level, number mode)
}

#[inline(always)]
fn cfg_scope_parts(seq: u16, receiver: u8, data_id: u16, scope: u8) -> Parts<'static>
    ensures { AreParts (message_of (pdu.Cfg seq receiver (cfg.Scope data_id scope))) result }
{
    message!(CFG_SCOPE, CFG_SCOPE_FIELDS, number seq, number receiver, number data_id, number scope)
}

/// The parts of the requests that configure.
#[inline(always)]
pub fn configuration_parts(seq: u16, receiver: u8, body: Cfg) -> Parts<'static>
    ensures { AreParts (message_of (pdu.Cfg seq receiver body)) result }
{
    match body {
        Cfg::TimeRes {
            numerator,
            denominator,
        } => cfg_time_res_parts(seq, receiver, numerator, denominator),
        Cfg::Steps { data_id, steps } => cfg_steps_parts(seq, receiver, data_id, steps),
        Cfg::Input {
            data_id,
            pos,
            vr,
            source,
        } => cfg_input_parts(seq, receiver, data_id, pos, vr, source),
        Cfg::Output { data_id, pos, vr } => cfg_output_parts(seq, receiver, data_id, pos, vr),
        Cfg::Clear => cfg_clear_parts(seq, receiver),
        Cfg::Target(net) => cfg_target_network_information_parts(seq, receiver, net),
        Cfg::Source(net) => cfg_source_network_information_parts(seq, receiver, net),
        Cfg::Parameter { vr, kind, value } => cfg_parameter_parts(seq, receiver, vr, kind, value),
        Cfg::Tunable {
            param_id,
            pos,
            vr,
            kind,
        } => cfg_tunable_parameter_parts(seq, receiver, param_id, pos, vr, kind),
        Cfg::ParamNet {
            param_id,
            protocol,
            port,
            ip,
        } => cfg_param_network_information_parts(seq, receiver, param_id, protocol, port, ip),
        Cfg::Logging {
            category,
            level,
            mode,
        } => cfg_logging_parts(seq, receiver, category, level, mode),
        Cfg::Scope { data_id, scope } => cfg_scope_parts(seq, receiver, data_id, scope),
    }
}

/// The message `CFG_time_res`, by what its fields hold.
#[inline(always)]
pub fn cfg_time_res<'a, F: MessageFields<'a>>(fields: &F) -> Pdu<'a>
    requires code { F.code fields.now ≡ 32 }
    requires kinds { AreKinds (F.kinds fields.now) 0 (layout_of 32) }
    ensures { F.says fields.now (message_of result) }
{
    fields.whole();
    Pdu::Cfg {
        seq: fields.u16(0),
        receiver: fields.u8(1),
        body: Cfg::TimeRes {
            numerator: fields.u32(2),
            denominator: fields.u32(3),
        },
    }
}

/// The message `CFG_steps`, by what its fields hold.
#[inline(always)]
pub fn cfg_steps<'a, F: MessageFields<'a>>(fields: &F) -> Pdu<'a>
    requires code { F.code fields.now ≡ 33 }
    requires kinds { AreKinds (F.kinds fields.now) 0 (layout_of 33) }
    ensures { F.says fields.now (message_of result) }
{
    fields.whole();
    Pdu::Cfg {
        seq: fields.u16(0),
        receiver: fields.u8(1),
        body: Cfg::Steps {
            data_id: fields.u16(2),
            steps: fields.u32(3),
        },
    }
}

/// The message `CFG_input`, by what its fields hold.
#[inline(always)]
pub fn cfg_input<'a, F: MessageFields<'a>>(fields: &F) -> Pdu<'a>
    requires code { F.code fields.now ≡ 34 }
    requires kinds { AreKinds (F.kinds fields.now) 0 (layout_of 34) }
    ensures { F.says fields.now (message_of result) }
{
    fields.whole();
    let source = fields.data_type(5);
    Pdu::Cfg {
        seq: fields.u16(0),
        receiver: fields.u8(1),
        body: Cfg::Input {
            data_id: fields.u16(2),
            pos: fields.u16(3),
            vr: fields.u64(4),
            source,
        },
    }
}

/// The message `CFG_output`, by what its fields hold.
#[inline(always)]
pub fn cfg_output<'a, F: MessageFields<'a>>(fields: &F) -> Pdu<'a>
    requires code { F.code fields.now ≡ 35 }
    requires kinds { AreKinds (F.kinds fields.now) 0 (layout_of 35) }
    ensures { F.says fields.now (message_of result) }
{
    fields.whole();
    Pdu::Cfg {
        seq: fields.u16(0),
        receiver: fields.u8(1),
        body: Cfg::Output {
            data_id: fields.u16(2),
            pos: fields.u16(3),
            vr: fields.u64(4),
        },
    }
}

/// The message `CFG_clear`, by what its fields hold.
#[inline(always)]
pub fn cfg_clear<'a, F: MessageFields<'a>>(fields: &F) -> Pdu<'a>
    requires code { F.code fields.now ≡ 36 }
    requires kinds { AreKinds (F.kinds fields.now) 0 (layout_of 36) }
    ensures { F.says fields.now (message_of result) }
{
    fields.whole();
    Pdu::Cfg {
        seq: fields.u16(0),
        receiver: fields.u8(1),
        body: Cfg::Clear,
    }
}

/// The message `CFG_target_network_information`, by what its fields hold.
#[inline(always)]
pub fn cfg_target_network_information<'a, F: MessageFields<'a>>(fields: &F) -> Pdu<'a>
    requires code { F.code fields.now ≡ 37 }
    requires kinds { AreKinds (F.kinds fields.now) 0 (layout_of 37) }
    ensures { F.says fields.now (message_of result) }
{
    fields.whole();
    Pdu::Cfg {
        seq: fields.u16(0),
        receiver: fields.u8(1),
        body: Cfg::Target(NetInfo {
            data_id: fields.u16(2),
            protocol: fields.u8(3),
            port: fields.u16(4),
            ip: fields.ip(5),
        }),
    }
}

/// The message `CFG_source_network_information`, by what its fields hold.
#[inline(always)]
pub fn cfg_source_network_information<'a, F: MessageFields<'a>>(fields: &F) -> Pdu<'a>
    requires code { F.code fields.now ≡ 38 }
    requires kinds { AreKinds (F.kinds fields.now) 0 (layout_of 38) }
    ensures { F.says fields.now (message_of result) }
{
    fields.whole();
    Pdu::Cfg {
        seq: fields.u16(0),
        receiver: fields.u8(1),
        body: Cfg::Source(NetInfo {
            data_id: fields.u16(2),
            protocol: fields.u8(3),
            port: fields.u16(4),
            ip: fields.ip(5),
        }),
    }
}

/// The message `CFG_parameter`, by what its fields hold.
#[inline(always)]
pub fn cfg_parameter<'a, F: MessageFields<'a>>(fields: &F) -> Pdu<'a>
    requires code { F.code fields.now ≡ 39 }
    requires kinds { AreKinds (F.kinds fields.now) 0 (layout_of 39) }
    ensures { F.says fields.now (message_of result) }
{
    fields.whole();
    let kind = fields.data_type(3);
    Pdu::Cfg {
        seq: fields.u16(0),
        receiver: fields.u8(1),
        body: Cfg::Parameter {
            vr: fields.u64(2),
            kind,
            value: fields.value(4, kind),
        },
    }
}

/// The message `CFG_tunable_parameter`, by what its fields hold.
#[inline(always)]
pub fn cfg_tunable_parameter<'a, F: MessageFields<'a>>(fields: &F) -> Pdu<'a>
    requires code { F.code fields.now ≡ 40 }
    requires kinds { AreKinds (F.kinds fields.now) 0 (layout_of 40) }
    ensures { F.says fields.now (message_of result) }
{
    fields.whole();
    let kind = fields.data_type(5);
    Pdu::Cfg {
        seq: fields.u16(0),
        receiver: fields.u8(1),
        body: Cfg::Tunable {
            param_id: fields.u16(2),
            pos: fields.u16(3),
            vr: fields.u64(4),
            kind,
        },
    }
}

/// The message `CFG_param_network_information`, by what its fields hold.
#[inline(always)]
pub fn cfg_param_network_information<'a, F: MessageFields<'a>>(fields: &F) -> Pdu<'a>
    requires code { F.code fields.now ≡ 41 }
    requires kinds { AreKinds (F.kinds fields.now) 0 (layout_of 41) }
    ensures { F.says fields.now (message_of result) }
{
    fields.whole();
    Pdu::Cfg {
        seq: fields.u16(0),
        receiver: fields.u8(1),
        body: Cfg::ParamNet {
            param_id: fields.u16(2),
            protocol: fields.u8(3),
            port: fields.u16(4),
            ip: fields.ip(5),
        },
    }
}

/// The message `CFG_logging`, by what its fields hold.
#[inline(always)]
pub fn cfg_logging<'a, F: MessageFields<'a>>(fields: &F) -> Pdu<'a>
    requires code { F.code fields.now ≡ 42 }
    requires kinds { AreKinds (F.kinds fields.now) 0 (layout_of 42) }
    ensures { F.says fields.now (message_of result) }
{
    fields.whole();
    Pdu::Cfg {
        seq: fields.u16(0),
        receiver: fields.u8(1),
        body: Cfg::Logging {
            category: fields.u8(2),
            level: fields.u8(3),
            mode: fields.u8(4),
        },
    }
}

/// The message `CFG_scope`, by what its fields hold.
#[inline(always)]
pub fn cfg_scope<'a, F: MessageFields<'a>>(fields: &F) -> Pdu<'a>
    requires code { F.code fields.now ≡ 43 }
    requires kinds { AreKinds (F.kinds fields.now) 0 (layout_of 43) }
    ensures { F.says fields.now (message_of result) }
{
    fields.whole();
    Pdu::Cfg {
        seq: fields.u16(0),
        receiver: fields.u8(1),
        body: Cfg::Scope {
            data_id: fields.u16(2),
            scope: fields.u8(3),
        },
    }
}
