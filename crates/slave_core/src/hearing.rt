//! What a slave hears in a datagram.

ghost use Rattle.std.specs.Prelude.{◌≡◌};
ghost use Rattle.slave_spec.specs.Heard.{heard};
ghost use Rattle.slave_core.specs.Hearing.{as_heard, heard_of};

use pdu_codec::read;
use pdu_layout::Pdu;
use slave_spec::{Asked, SlaveRequest};

/// A request, a data message, or nothing that a slave heeds.
pub enum Hearing<'a> {
    Asks(SlaveRequest),
    Brings {
        number: u16,
        id: u16,
        payload: &'a [u8],
    },
    Nothing,
}

/// What a slave hears in a message.
#[inline(always)]
fn hearing_of(message: Pdu<'_>) -> Hearing<'_>
    ensures { as_heard result ≡ heard_of message.entry }
{
    match message {
        Pdu::Stc {
            seq,
            receiver,
            state,
            body,
        } => Hearing::Asks(SlaveRequest {
            number: seq,
            receiver,
            asked: Asked::Change {
                named: state,
                request: body,
            },
        }),
        Pdu::Cfg {
            seq,
            receiver,
            body,
        } => Hearing::Asks(SlaveRequest {
            number: seq,
            receiver,
            asked: Asked::Setting(body),
        }),
        Pdu::Inf {
            seq,
            receiver,
            body,
        } => Hearing::Asks(SlaveRequest {
            number: seq,
            receiver,
            asked: Asked::Question(body),
        }),
        Pdu::DataIo {
            seq,
            data_id,
            payload,
        } => Hearing::Brings {
            number: seq,
            id: data_id,
            payload,
        },
        Pdu::Rsp { .. }
        | Pdu::StateChanged { .. }
        | Pdu::LogNote { .. }
        | Pdu::DataParameter { .. } => Hearing::Nothing,
    }
}

/// What a slave hears in these bytes.
#[inline(always)]
pub fn hear(bytes: &[u8]) -> Hearing<'_>
    ensures { as_heard result ≡ heard bytes.now }
{
    match read(bytes) {
        Some(message) => hearing_of(message),
        None => Hearing::Nothing,
    }
}
