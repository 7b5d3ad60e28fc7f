//! Reading a message from its bytes.

ghost use Rattle.std.specs.Prelude.{◌≡◌, ◌<◌, ◌≤◌, ◌⊎◌, IfOk, IfErr, MatchResult, Some, None, length, slice_index};
ghost use Rattle.pdu_layout.specs.Message.{Spells, message_of};
ghost use Rattle.pdu_layout.specs.Reading.{message_in};
ghost use Rattle.pdu_codec.specs.Refusals.{Refusal};

use crate::cuts::cut_by;
use crate::faults::{DecodeFault, DecodeWhy};
use pdu_layout::{
    CFG_CLEAR, CFG_INPUT, CFG_LOGGING, CFG_OUTPUT, CFG_PARAM_NETWORK_INFORMATION, CFG_PARAMETER,
    CFG_SCOPE, CFG_SOURCE_NETWORK_INFORMATION, CFG_STEPS, CFG_TARGET_NETWORK_INFORMATION,
    CFG_TIME_RES, CFG_TUNABLE_PARAMETER, DAT_INPUT_OUTPUT, DAT_PARAMETER, INF_ERROR, INF_LOG,
    INF_STATE, NTF_LOG, NTF_STATE_CHANGED, Pdu, RSP_ACK, RSP_ERROR_ACK, RSP_LOG_ACK, RSP_NACK,
    RSP_STATE_ACK, STC_CONFIGURE, STC_DEREGISTER, STC_DO_STEP, STC_INITIALIZE, STC_PREPARE,
    STC_REGISTER, STC_RESET, STC_RUN, STC_SEND_OUTPUTS, STC_STOP, cfg_clear, cfg_input,
    cfg_logging, cfg_output, cfg_param_network_information, cfg_parameter, cfg_scope,
    cfg_source_network_information, cfg_steps, cfg_target_network_information, cfg_time_res,
    cfg_tunable_parameter, dat_input_output, dat_parameter, inf_error, inf_log, inf_state, ntf_log,
    ntf_state_changed, rsp_ack, rsp_error_ack, rsp_log_ack, rsp_nack, rsp_state_ack, stc_configure,
    stc_deregister, stc_do_step, stc_initialize, stc_prepare, stc_register, stc_reset, stc_run,
    stc_send_outputs, stc_stop,
};

#[inline(always)]
fn read_stc_register(bytes: &[u8]) -> Result<Pdu<'_>, DecodeFault>
    requires some { 0 < length bytes.now }
    requires code { slice_index bytes.now 0 ≡ 1 }
    ensures ok { IfOk result (λ p. Spells (message_of p) bytes.now) }
    ensures err { IfErr result (λ fault. Refusal bytes.now fault.at fault.why) }
{
    Ok(stc_register(&cut_by::<7>(STC_REGISTER.code, &STC_REGISTER.fields, bytes)?))
}

#[inline(always)]
fn read_stc_deregister(bytes: &[u8]) -> Result<Pdu<'_>, DecodeFault>
    requires some { 0 < length bytes.now }
    requires code { slice_index bytes.now 0 ≡ 2 }
    ensures ok { IfOk result (λ p. Spells (message_of p) bytes.now) }
    ensures err { IfErr result (λ fault. Refusal bytes.now fault.at fault.why) }
{
    Ok(stc_deregister(&cut_by::<3>(STC_DEREGISTER.code, &STC_DEREGISTER.fields, bytes)?))
}

#[inline(always)]
fn read_stc_prepare(bytes: &[u8]) -> Result<Pdu<'_>, DecodeFault>
    requires some { 0 < length bytes.now }
    requires code { slice_index bytes.now 0 ≡ 3 }
    ensures ok { IfOk result (λ p. Spells (message_of p) bytes.now) }
    ensures err { IfErr result (λ fault. Refusal bytes.now fault.at fault.why) }
{
    Ok(stc_prepare(&cut_by::<3>(STC_PREPARE.code, &STC_PREPARE.fields, bytes)?))
}

#[inline(always)]
fn read_stc_configure(bytes: &[u8]) -> Result<Pdu<'_>, DecodeFault>
    requires some { 0 < length bytes.now }
    requires code { slice_index bytes.now 0 ≡ 4 }
    ensures ok { IfOk result (λ p. Spells (message_of p) bytes.now) }
    ensures err { IfErr result (λ fault. Refusal bytes.now fault.at fault.why) }
{
    Ok(stc_configure(&cut_by::<3>(STC_CONFIGURE.code, &STC_CONFIGURE.fields, bytes)?))
}

#[inline(always)]
fn read_stc_initialize(bytes: &[u8]) -> Result<Pdu<'_>, DecodeFault>
    requires some { 0 < length bytes.now }
    requires code { slice_index bytes.now 0 ≡ 5 }
    ensures ok { IfOk result (λ p. Spells (message_of p) bytes.now) }
    ensures err { IfErr result (λ fault. Refusal bytes.now fault.at fault.why) }
{
    Ok(stc_initialize(&cut_by::<3>(STC_INITIALIZE.code, &STC_INITIALIZE.fields, bytes)?))
}

#[inline(always)]
fn read_stc_run(bytes: &[u8]) -> Result<Pdu<'_>, DecodeFault>
    requires some { 0 < length bytes.now }
    requires code { slice_index bytes.now 0 ≡ 6 }
    ensures ok { IfOk result (λ p. Spells (message_of p) bytes.now) }
    ensures err { IfErr result (λ fault. Refusal bytes.now fault.at fault.why) }
{
    Ok(stc_run(&cut_by::<4>(STC_RUN.code, &STC_RUN.fields, bytes)?))
}

#[inline(always)]
fn read_stc_do_step(bytes: &[u8]) -> Result<Pdu<'_>, DecodeFault>
    requires some { 0 < length bytes.now }
    requires code { slice_index bytes.now 0 ≡ 7 }
    ensures ok { IfOk result (λ p. Spells (message_of p) bytes.now) }
    ensures err { IfErr result (λ fault. Refusal bytes.now fault.at fault.why) }
{
    Ok(stc_do_step(&cut_by::<4>(STC_DO_STEP.code, &STC_DO_STEP.fields, bytes)?))
}

#[inline(always)]
fn read_stc_send_outputs(bytes: &[u8]) -> Result<Pdu<'_>, DecodeFault>
    requires some { 0 < length bytes.now }
    requires code { slice_index bytes.now 0 ≡ 8 }
    ensures ok { IfOk result (λ p. Spells (message_of p) bytes.now) }
    ensures err { IfErr result (λ fault. Refusal bytes.now fault.at fault.why) }
{
    Ok(stc_send_outputs(&cut_by::<3>(STC_SEND_OUTPUTS.code, &STC_SEND_OUTPUTS.fields, bytes)?))
}

#[inline(always)]
fn read_stc_stop(bytes: &[u8]) -> Result<Pdu<'_>, DecodeFault>
    requires some { 0 < length bytes.now }
    requires code { slice_index bytes.now 0 ≡ 9 }
    ensures ok { IfOk result (λ p. Spells (message_of p) bytes.now) }
    ensures err { IfErr result (λ fault. Refusal bytes.now fault.at fault.why) }
{
    Ok(stc_stop(&cut_by::<3>(STC_STOP.code, &STC_STOP.fields, bytes)?))
}

#[inline(always)]
fn read_stc_reset(bytes: &[u8]) -> Result<Pdu<'_>, DecodeFault>
    requires some { 0 < length bytes.now }
    requires code { slice_index bytes.now 0 ≡ 10 }
    ensures ok { IfOk result (λ p. Spells (message_of p) bytes.now) }
    ensures err { IfErr result (λ fault. Refusal bytes.now fault.at fault.why) }
{
    Ok(stc_reset(&cut_by::<3>(STC_RESET.code, &STC_RESET.fields, bytes)?))
}

/// Reads a state request.
#[inline(always)]
fn read_state_request(bytes: &[u8]) -> Result<Pdu<'_>, DecodeFault>
    requires some { 0 < length bytes.now }
    requires low { 1 ≤ slice_index bytes.now 0 }
    requires high { slice_index bytes.now 0 ≤ 10 }
    ensures ok { IfOk result (λ p. Spells (message_of p) bytes.now) }
    ensures err { IfErr result (λ fault. Refusal bytes.now fault.at fault.why) }
{
    match bytes[0] {
        0x01 => read_stc_register(bytes),
        0x02 => read_stc_deregister(bytes),
        0x03 => read_stc_prepare(bytes),
        0x04 => read_stc_configure(bytes),
        0x05 => read_stc_initialize(bytes),
        0x06 => read_stc_run(bytes),
        0x07 => read_stc_do_step(bytes),
        0x08 => read_stc_send_outputs(bytes),
        0x09 => read_stc_stop(bytes),
        0x0a => read_stc_reset(bytes),
        _ => unreachable!(),
    }
}

#[inline(always)]
fn read_cfg_time_res(bytes: &[u8]) -> Result<Pdu<'_>, DecodeFault>
    requires some { 0 < length bytes.now }
    requires code { slice_index bytes.now 0 ≡ 32 }
    ensures ok { IfOk result (λ p. Spells (message_of p) bytes.now) }
    ensures err { IfErr result (λ fault. Refusal bytes.now fault.at fault.why) }
{
    Ok(cfg_time_res(&cut_by::<4>(CFG_TIME_RES.code, &CFG_TIME_RES.fields, bytes)?))
}

#[inline(always)]
fn read_cfg_steps(bytes: &[u8]) -> Result<Pdu<'_>, DecodeFault>
    requires some { 0 < length bytes.now }
    requires code { slice_index bytes.now 0 ≡ 33 }
    ensures ok { IfOk result (λ p. Spells (message_of p) bytes.now) }
    ensures err { IfErr result (λ fault. Refusal bytes.now fault.at fault.why) }
{
    Ok(cfg_steps(&cut_by::<4>(CFG_STEPS.code, &CFG_STEPS.fields, bytes)?))
}

#[inline(always)]
fn read_cfg_input(bytes: &[u8]) -> Result<Pdu<'_>, DecodeFault>
    requires some { 0 < length bytes.now }
    requires code { slice_index bytes.now 0 ≡ 34 }
    ensures ok { IfOk result (λ p. Spells (message_of p) bytes.now) }
    ensures err { IfErr result (λ fault. Refusal bytes.now fault.at fault.why) }
{
    Ok(cfg_input(&cut_by::<6>(CFG_INPUT.code, &CFG_INPUT.fields, bytes)?))
}

#[inline(always)]
fn read_cfg_output(bytes: &[u8]) -> Result<Pdu<'_>, DecodeFault>
    requires some { 0 < length bytes.now }
    requires code { slice_index bytes.now 0 ≡ 35 }
    ensures ok { IfOk result (λ p. Spells (message_of p) bytes.now) }
    ensures err { IfErr result (λ fault. Refusal bytes.now fault.at fault.why) }
{
    Ok(cfg_output(&cut_by::<5>(CFG_OUTPUT.code, &CFG_OUTPUT.fields, bytes)?))
}

#[inline(always)]
fn read_cfg_clear(bytes: &[u8]) -> Result<Pdu<'_>, DecodeFault>
    requires some { 0 < length bytes.now }
    requires code { slice_index bytes.now 0 ≡ 36 }
    ensures ok { IfOk result (λ p. Spells (message_of p) bytes.now) }
    ensures err { IfErr result (λ fault. Refusal bytes.now fault.at fault.why) }
{
    Ok(cfg_clear(&cut_by::<2>(CFG_CLEAR.code, &CFG_CLEAR.fields, bytes)?))
}

#[inline(always)]
fn read_cfg_target_network_information(bytes: &[u8]) -> Result<Pdu<'_>, DecodeFault>
    requires some { 0 < length bytes.now }
    requires code { slice_index bytes.now 0 ≡ 37 }
    ensures ok { IfOk result (λ p. Spells (message_of p) bytes.now) }
    ensures err { IfErr result (λ fault. Refusal bytes.now fault.at fault.why) }
{
    Ok(cfg_target_network_information(&cut_by::<6>(
        CFG_TARGET_NETWORK_INFORMATION.code,
        &CFG_TARGET_NETWORK_INFORMATION.fields,
        bytes,
    )?))
}

#[inline(always)]
fn read_cfg_source_network_information(bytes: &[u8]) -> Result<Pdu<'_>, DecodeFault>
    requires some { 0 < length bytes.now }
    requires code { slice_index bytes.now 0 ≡ 38 }
    ensures ok { IfOk result (λ p. Spells (message_of p) bytes.now) }
    ensures err { IfErr result (λ fault. Refusal bytes.now fault.at fault.why) }
{
    Ok(cfg_source_network_information(&cut_by::<6>(
        CFG_SOURCE_NETWORK_INFORMATION.code,
        &CFG_SOURCE_NETWORK_INFORMATION.fields,
        bytes,
    )?))
}

#[inline(always)]
fn read_cfg_parameter(bytes: &[u8]) -> Result<Pdu<'_>, DecodeFault>
    requires some { 0 < length bytes.now }
    requires code { slice_index bytes.now 0 ≡ 39 }
    ensures ok { IfOk result (λ p. Spells (message_of p) bytes.now) }
    ensures err { IfErr result (λ fault. Refusal bytes.now fault.at fault.why) }
{
    Ok(cfg_parameter(&cut_by::<5>(CFG_PARAMETER.code, &CFG_PARAMETER.fields, bytes)?))
}

#[inline(always)]
fn read_cfg_tunable_parameter(bytes: &[u8]) -> Result<Pdu<'_>, DecodeFault>
    requires some { 0 < length bytes.now }
    requires code { slice_index bytes.now 0 ≡ 40 }
    ensures ok { IfOk result (λ p. Spells (message_of p) bytes.now) }
    ensures err { IfErr result (λ fault. Refusal bytes.now fault.at fault.why) }
{
    Ok(cfg_tunable_parameter(&cut_by::<6>(
        CFG_TUNABLE_PARAMETER.code,
        &CFG_TUNABLE_PARAMETER.fields,
        bytes,
    )?))
}

#[inline(always)]
fn read_cfg_param_network_information(bytes: &[u8]) -> Result<Pdu<'_>, DecodeFault>
    requires some { 0 < length bytes.now }
    requires code { slice_index bytes.now 0 ≡ 41 }
    ensures ok { IfOk result (λ p. Spells (message_of p) bytes.now) }
    ensures err { IfErr result (λ fault. Refusal bytes.now fault.at fault.why) }
{
    Ok(cfg_param_network_information(&cut_by::<6>(
        CFG_PARAM_NETWORK_INFORMATION.code,
        &CFG_PARAM_NETWORK_INFORMATION.fields,
        bytes,
    )?))
}

#[inline(always)]
fn read_cfg_logging(bytes: &[u8]) -> Result<Pdu<'_>, DecodeFault>
    requires some { 0 < length bytes.now }
    requires code { slice_index bytes.now 0 ≡ 42 }
    ensures ok { IfOk result (λ p. Spells (message_of p) bytes.now) }
    ensures err { IfErr result (λ fault. Refusal bytes.now fault.at fault.why) }
{
    Ok(cfg_logging(&cut_by::<5>(CFG_LOGGING.code, &CFG_LOGGING.fields, bytes)?))
}

#[inline(always)]
fn read_cfg_scope(bytes: &[u8]) -> Result<Pdu<'_>, DecodeFault>
    requires some { 0 < length bytes.now }
    requires code { slice_index bytes.now 0 ≡ 43 }
    ensures ok { IfOk result (λ p. Spells (message_of p) bytes.now) }
    ensures err { IfErr result (λ fault. Refusal bytes.now fault.at fault.why) }
{
    Ok(cfg_scope(&cut_by::<4>(CFG_SCOPE.code, &CFG_SCOPE.fields, bytes)?))
}

/// Reads a request that configures.
#[inline(always)]
fn read_configuration(bytes: &[u8]) -> Result<Pdu<'_>, DecodeFault>
    requires some { 0 < length bytes.now }
    requires low { 32 ≤ slice_index bytes.now 0 }
    requires high { slice_index bytes.now 0 ≤ 43 }
    ensures ok { IfOk result (λ p. Spells (message_of p) bytes.now) }
    ensures err { IfErr result (λ fault. Refusal bytes.now fault.at fault.why) }
{
    match bytes[0] {
        0x20 => read_cfg_time_res(bytes),
        0x21 => read_cfg_steps(bytes),
        0x22 => read_cfg_input(bytes),
        0x23 => read_cfg_output(bytes),
        0x24 => read_cfg_clear(bytes),
        0x25 => read_cfg_target_network_information(bytes),
        0x26 => read_cfg_source_network_information(bytes),
        0x27 => read_cfg_parameter(bytes),
        0x28 => read_cfg_tunable_parameter(bytes),
        0x29 => read_cfg_param_network_information(bytes),
        0x2a => read_cfg_logging(bytes),
        0x2b => read_cfg_scope(bytes),
        _ => unreachable!(),
    }
}

#[inline(always)]
fn read_inf_state(bytes: &[u8]) -> Result<Pdu<'_>, DecodeFault>
    requires some { 0 < length bytes.now }
    requires code { slice_index bytes.now 0 ≡ 128 }
    ensures ok { IfOk result (λ p. Spells (message_of p) bytes.now) }
    ensures err { IfErr result (λ fault. Refusal bytes.now fault.at fault.why) }
{
    Ok(inf_state(&cut_by::<2>(INF_STATE.code, &INF_STATE.fields, bytes)?))
}

#[inline(always)]
fn read_inf_error(bytes: &[u8]) -> Result<Pdu<'_>, DecodeFault>
    requires some { 0 < length bytes.now }
    requires code { slice_index bytes.now 0 ≡ 129 }
    ensures ok { IfOk result (λ p. Spells (message_of p) bytes.now) }
    ensures err { IfErr result (λ fault. Refusal bytes.now fault.at fault.why) }
{
    Ok(inf_error(&cut_by::<2>(INF_ERROR.code, &INF_ERROR.fields, bytes)?))
}

#[inline(always)]
fn read_inf_log(bytes: &[u8]) -> Result<Pdu<'_>, DecodeFault>
    requires some { 0 < length bytes.now }
    requires code { slice_index bytes.now 0 ≡ 130 }
    ensures ok { IfOk result (λ p. Spells (message_of p) bytes.now) }
    ensures err { IfErr result (λ fault. Refusal bytes.now fault.at fault.why) }
{
    Ok(inf_log(&cut_by::<4>(INF_LOG.code, &INF_LOG.fields, bytes)?))
}

/// Reads a question.
#[inline(always)]
fn read_question(bytes: &[u8]) -> Result<Pdu<'_>, DecodeFault>
    requires some { 0 < length bytes.now }
    requires low { 128 ≤ slice_index bytes.now 0 }
    requires high { slice_index bytes.now 0 ≤ 130 }
    ensures ok { IfOk result (λ p. Spells (message_of p) bytes.now) }
    ensures err { IfErr result (λ fault. Refusal bytes.now fault.at fault.why) }
{
    match bytes[0] {
        0x80 => read_inf_state(bytes),
        0x81 => read_inf_error(bytes),
        0x82 => read_inf_log(bytes),
        _ => unreachable!(),
    }
}

#[inline(always)]
fn read_rsp_ack(bytes: &[u8]) -> Result<Pdu<'_>, DecodeFault>
    requires some { 0 < length bytes.now }
    requires code { slice_index bytes.now 0 ≡ 176 }
    ensures ok { IfOk result (λ p. Spells (message_of p) bytes.now) }
    ensures err { IfErr result (λ fault. Refusal bytes.now fault.at fault.why) }
{
    Ok(rsp_ack(&cut_by::<2>(RSP_ACK.code, &RSP_ACK.fields, bytes)?))
}

#[inline(always)]
fn read_rsp_nack(bytes: &[u8]) -> Result<Pdu<'_>, DecodeFault>
    requires some { 0 < length bytes.now }
    requires code { slice_index bytes.now 0 ≡ 177 }
    ensures ok { IfOk result (λ p. Spells (message_of p) bytes.now) }
    ensures err { IfErr result (λ fault. Refusal bytes.now fault.at fault.why) }
{
    Ok(rsp_nack(&cut_by::<4>(RSP_NACK.code, &RSP_NACK.fields, bytes)?))
}

#[inline(always)]
fn read_rsp_state_ack(bytes: &[u8]) -> Result<Pdu<'_>, DecodeFault>
    requires some { 0 < length bytes.now }
    requires code { slice_index bytes.now 0 ≡ 178 }
    ensures ok { IfOk result (λ p. Spells (message_of p) bytes.now) }
    ensures err { IfErr result (λ fault. Refusal bytes.now fault.at fault.why) }
{
    Ok(rsp_state_ack(&cut_by::<3>(RSP_STATE_ACK.code, &RSP_STATE_ACK.fields, bytes)?))
}

#[inline(always)]
fn read_rsp_error_ack(bytes: &[u8]) -> Result<Pdu<'_>, DecodeFault>
    requires some { 0 < length bytes.now }
    requires code { slice_index bytes.now 0 ≡ 179 }
    ensures ok { IfOk result (λ p. Spells (message_of p) bytes.now) }
    ensures err { IfErr result (λ fault. Refusal bytes.now fault.at fault.why) }
{
    Ok(rsp_error_ack(&cut_by::<3>(RSP_ERROR_ACK.code, &RSP_ERROR_ACK.fields, bytes)?))
}

#[inline(always)]
fn read_rsp_log_ack(bytes: &[u8]) -> Result<Pdu<'_>, DecodeFault>
    requires some { 0 < length bytes.now }
    requires code { slice_index bytes.now 0 ≡ 180 }
    ensures ok { IfOk result (λ p. Spells (message_of p) bytes.now) }
    ensures err { IfErr result (λ fault. Refusal bytes.now fault.at fault.why) }
{
    Ok(rsp_log_ack(&cut_by::<3>(RSP_LOG_ACK.code, &RSP_LOG_ACK.fields, bytes)?))
}

/// Reads an answer.
#[inline(always)]
fn read_answer(bytes: &[u8]) -> Result<Pdu<'_>, DecodeFault>
    requires some { 0 < length bytes.now }
    requires low { 176 ≤ slice_index bytes.now 0 }
    requires high { slice_index bytes.now 0 ≤ 180 }
    ensures ok { IfOk result (λ p. Spells (message_of p) bytes.now) }
    ensures err { IfErr result (λ fault. Refusal bytes.now fault.at fault.why) }
{
    match bytes[0] {
        0xb0 => read_rsp_ack(bytes),
        0xb1 => read_rsp_nack(bytes),
        0xb2 => read_rsp_state_ack(bytes),
        0xb3 => read_rsp_error_ack(bytes),
        0xb4 => read_rsp_log_ack(bytes),
        _ => unreachable!(),
    }
}

#[inline(always)]
fn read_ntf_state_changed(bytes: &[u8]) -> Result<Pdu<'_>, DecodeFault>
    requires some { 0 < length bytes.now }
    requires code { slice_index bytes.now 0 ≡ 224 }
    ensures ok { IfOk result (λ p. Spells (message_of p) bytes.now) }
    ensures err { IfErr result (λ fault. Refusal bytes.now fault.at fault.why) }
{
    Ok(ntf_state_changed(&cut_by::<2>(NTF_STATE_CHANGED.code, &NTF_STATE_CHANGED.fields, bytes)?))
}

#[inline(always)]
fn read_ntf_log(bytes: &[u8]) -> Result<Pdu<'_>, DecodeFault>
    requires some { 0 < length bytes.now }
    requires code { slice_index bytes.now 0 ≡ 225 }
    ensures ok { IfOk result (λ p. Spells (message_of p) bytes.now) }
    ensures err { IfErr result (λ fault. Refusal bytes.now fault.at fault.why) }
{
    Ok(ntf_log(&cut_by::<4>(NTF_LOG.code, &NTF_LOG.fields, bytes)?))
}

#[inline(always)]
fn read_dat_input_output(bytes: &[u8]) -> Result<Pdu<'_>, DecodeFault>
    requires some { 0 < length bytes.now }
    requires code { slice_index bytes.now 0 ≡ 240 }
    ensures ok { IfOk result (λ p. Spells (message_of p) bytes.now) }
    ensures err { IfErr result (λ fault. Refusal bytes.now fault.at fault.why) }
{
    Ok(dat_input_output(&cut_by::<3>(DAT_INPUT_OUTPUT.code, &DAT_INPUT_OUTPUT.fields, bytes)?))
}

#[inline(always)]
fn read_dat_parameter(bytes: &[u8]) -> Result<Pdu<'_>, DecodeFault>
    requires some { 0 < length bytes.now }
    requires code { slice_index bytes.now 0 ≡ 241 }
    ensures ok { IfOk result (λ p. Spells (message_of p) bytes.now) }
    ensures err { IfErr result (λ fault. Refusal bytes.now fault.at fault.why) }
{
    Ok(dat_parameter(&cut_by::<3>(DAT_PARAMETER.code, &DAT_PARAMETER.fields, bytes)?))
}

/// Reads a notice or data message.
#[inline(always)]
fn read_notice(bytes: &[u8]) -> Result<Pdu<'_>, DecodeFault>
    requires some { 0 < length bytes.now }
    requires code { (slice_index bytes.now 0 ≡ 224) ⊎ (slice_index bytes.now 0 ≡ 225) ⊎ (slice_index bytes.now 0 ≡ 240) ⊎ (slice_index bytes.now 0 ≡ 241) }
    ensures ok { IfOk result (λ p. Spells (message_of p) bytes.now) }
    ensures err { IfErr result (λ fault. Refusal bytes.now fault.at fault.why) }
{
    match bytes[0] {
        0xe0 => read_ntf_state_changed(bytes),
        0xe1 => read_ntf_log(bytes),
        0xf0 => read_dat_input_output(bytes),
        0xf1 => read_dat_parameter(bytes),
        _ => unreachable!(),
    }
}

/// Reads a message. The bytes are a datagram whole; text and payload are parts of them.
///
/// The refusal names the first place at which no message goes on as the bytes do:
/// `Empty` where there are no bytes, `UnknownType` where the first byte is no type code, `BadState`
/// and `BadType` at a state above 18 or a type above 7, `Short` where the bytes end before their
/// layout, `Long` where a layout of fixed length ends before the bytes, `TooLong` at 1,024 where
/// there are more bytes than a message has.
#[inline(always)]
pub fn decode(bytes: &[u8]) -> Result<Pdu<'_>, DecodeFault>
    ensures ok { IfOk result (λ p. Spells (message_of p) bytes.now) }
    ensures err { IfErr result (λ fault. Refusal bytes.now fault.at fault.why) }
    ensures told { MatchResult result (λ p. message_in bytes.now ≡ Some (message_of p)) (λ fault. message_in bytes.now ≡ None) }
{
    if bytes.is_empty() {
        return Err(DecodeFault {
            at: 0,
            why: DecodeWhy::Empty,
        });
    }
    match bytes[0] {
        0x01..=0x0a => read_state_request(bytes),
        0x20..=0x2b => read_configuration(bytes),
        0x80..=0x82 => read_question(bytes),
        0xb0..=0xb4 => read_answer(bytes),
        0xe0 | 0xe1 | 0xf0 | 0xf1 => read_notice(bytes),
        _ => Err(DecodeFault {
            at: 0,
            why: DecodeWhy::UnknownType,
        }),
    }
}
