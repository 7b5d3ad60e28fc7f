//! The command `decode`: the bytes of one message, printed as its line.

ghost use Rattle.std.specs.Prelude.{◌≡◌, IfOk};
ghost use Rattle.commands.specs.Said.{text_of};
ghost use Rattle.commands.specs.SaysDecoded.{SaysDecoded, decode_word};

use crate::refusals::refuse_byte;
use crate::said::{Statement, Text};
use crate::statuses::Judgement;
use dcp_types::OutOfMemory;
use pdu_codec::{DecodeWhy, decode};
use pdu_text::print_pdu;
use std::alloc::Global;

/// The line of the message that the bytes spell, or where and why they spell none.
pub fn say_decoded(alloc: Global, input: &[u8]) -> Result<Statement, OutOfMemory>
    ensures { IfOk result (λ said. SaysDecoded input.now said.judgement (text_of said.text)) }
{
    let pdu = match decode(input) {
        Ok(pdu) => pdu,
        Err(fault) => return refuse_byte(alloc, fault.at, decode_word(fault.why)),
    };
    let line = print_pdu(alloc, &pdu)?;
    Ok(Statement {
        judgement: Judgement::Good,
        text: Text::Whole(line.into_bytes()),
    })
}

/// The word for why bytes spell no message.
fn decode_word(why: DecodeWhy) -> &'static str
    ensures { result.now ≡ decode_word why }
{
    match why {
        DecodeWhy::Empty => "EMPTY",
        DecodeWhy::UnknownType => "UNKNOWN_TYPE",
        DecodeWhy::Short => "SHORT",
        DecodeWhy::Long => "LONG",
        DecodeWhy::BadState => "BAD_STATE",
        DecodeWhy::BadType => "BAD_TYPE",
        DecodeWhy::TooLong => "TOO_LONG",
    }
}
