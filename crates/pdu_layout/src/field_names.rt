//! The fields of messages, each by its name in the printed form and its kind.

use crate::fields::{Field, FieldKind};

pub const PDU_SEQ_ID: Field = Field {
    name: "pdu_seq_id",
    kind: FieldKind::U16,
};

pub const RECEIVER: Field = Field {
    name: "receiver",
    kind: FieldKind::U8,
};

pub const STATE_ID: Field = Field {
    name: "state_id",
    kind: FieldKind::StateCode,
};

pub const SLAVE_UUID: Field = Field {
    name: "slave_uuid",
    kind: FieldKind::Uuid,
};

pub const OP_MODE: Field = Field {
    name: "op_mode",
    kind: FieldKind::U8,
};

pub const MAJOR_VERSION: Field = Field {
    name: "major_version",
    kind: FieldKind::U8,
};

pub const MINOR_VERSION: Field = Field {
    name: "minor_version",
    kind: FieldKind::U8,
};

pub const START_TIME: Field = Field {
    name: "start_time",
    kind: FieldKind::I64,
};

pub const STEPS: Field = Field {
    name: "steps",
    kind: FieldKind::U32,
};

pub const NUMERATOR: Field = Field {
    name: "numerator",
    kind: FieldKind::U32,
};

pub const DENOMINATOR: Field = Field {
    name: "denominator",
    kind: FieldKind::U32,
};

pub const DATA_ID: Field = Field {
    name: "data_id",
    kind: FieldKind::U16,
};

pub const POS: Field = Field {
    name: "pos",
    kind: FieldKind::U16,
};

pub const VR: Field = Field {
    name: "vr",
    kind: FieldKind::U64,
};

pub const SOURCE_TYPE: Field = Field {
    name: "source_type",
    kind: FieldKind::TypeCode,
};

pub const PROTOCOL: Field = Field {
    name: "protocol",
    kind: FieldKind::U8,
};

pub const PORT: Field = Field {
    name: "port",
    kind: FieldKind::U16,
};

pub const IP: Field = Field {
    name: "ip",
    kind: FieldKind::Ip,
};

pub const TYPE: Field = Field {
    name: "type",
    kind: FieldKind::TypeCode,
};

pub const VALUE: Field = Field {
    name: "value",
    kind: FieldKind::Value,
};

pub const PARAM_ID: Field = Field {
    name: "param_id",
    kind: FieldKind::U16,
};

pub const CATEGORY: Field = Field {
    name: "category",
    kind: FieldKind::U8,
};

pub const LEVEL: Field = Field {
    name: "level",
    kind: FieldKind::U8,
};

pub const MODE: Field = Field {
    name: "mode",
    kind: FieldKind::U8,
};

pub const SCOPE: Field = Field {
    name: "scope",
    kind: FieldKind::U8,
};

pub const MAX_ENTRIES: Field = Field {
    name: "max_entries",
    kind: FieldKind::U8,
};

pub const RESP_SEQ_ID: Field = Field {
    name: "resp_seq_id",
    kind: FieldKind::U16,
};

pub const SENDER: Field = Field {
    name: "sender",
    kind: FieldKind::U8,
};

pub const EXP_SEQ_ID: Field = Field {
    name: "exp_seq_id",
    kind: FieldKind::U16,
};

pub const ERROR_CODE: Field = Field {
    name: "error_code",
    kind: FieldKind::U16,
};

pub const ENTRIES: Field = Field {
    name: "entries",
    kind: FieldKind::Rest,
};

pub const TEXT: Field = Field {
    name: "text",
    kind: FieldKind::Rest,
};

pub const PAYLOAD: Field = Field {
    name: "payload",
    kind: FieldKind::Rest,
};
