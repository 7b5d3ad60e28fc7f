//! The 34 messages of the protocol: their values, and the layout of each as a table of fields.
//!
//! What it promises: each layout is the row of the table in the definitions, with its code, its name
//! and its fields' names and kinds; `parts_of` gives the message that a value stands for, and `in_range`
//! is true exactly where that message has a spelling. No call takes memory.
#![tactic(auto)]

mod answers;
mod configuration;
mod field_names;
mod fields;
mod listed_rows;
mod message_fields;
mod message_parts;
mod messages;
mod notices;
mod questions;
mod ranges;
mod state_requests;

pub use answers::{
    RSP_ACK, RSP_ERROR_ACK, RSP_LOG_ACK, RSP_NACK, RSP_STATE_ACK, rsp_ack, rsp_error_ack,
    rsp_log_ack, rsp_nack, rsp_state_ack,
};
pub use configuration::{
    CFG_CLEAR, CFG_INPUT, CFG_LOGGING, CFG_OUTPUT, CFG_PARAM_NETWORK_INFORMATION, CFG_PARAMETER,
    CFG_SCOPE, CFG_SOURCE_NETWORK_INFORMATION, CFG_STEPS, CFG_TARGET_NETWORK_INFORMATION,
    CFG_TIME_RES, CFG_TUNABLE_PARAMETER, cfg_clear, cfg_input, cfg_logging, cfg_output,
    cfg_param_network_information, cfg_parameter, cfg_scope, cfg_source_network_information,
    cfg_steps, cfg_target_network_information, cfg_time_res, cfg_tunable_parameter,
};
pub use fields::{Field, FieldKind, Layout};
pub use listed_rows::{ListedRow, listed_row};
pub use message_fields::MessageFields;
pub use message_parts::{FieldContent, Parts, parts_of};
pub use messages::{Cfg, Inf, NetInfo, Pdu, Rsp, Stc};
pub use notices::{
    DAT_INPUT_OUTPUT, DAT_PARAMETER, NTF_LOG, NTF_STATE_CHANGED, dat_input_output, dat_parameter,
    ntf_log, ntf_state_changed,
};
pub use questions::{INF_ERROR, INF_LOG, INF_STATE, inf_error, inf_log, inf_state};
pub use ranges::{in_range, type_after};
pub use state_requests::{
    STC_CONFIGURE, STC_DEREGISTER, STC_DO_STEP, STC_INITIALIZE, STC_PREPARE, STC_REGISTER,
    STC_RESET, STC_RUN, STC_SEND_OUTPUTS, STC_STOP, stc_configure, stc_deregister, stc_do_step,
    stc_initialize, stc_prepare, stc_register, stc_reset, stc_run, stc_send_outputs, stc_stop,
};
