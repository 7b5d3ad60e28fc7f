//! The command `encode`: the line of one message, written as its bytes.

ghost use Rattle.std.specs.Prelude.{IfOk};
ghost use Rattle.commands.specs.Refusals.{OfText};
ghost use Rattle.commands.specs.Said.{text_of};
ghost use Rattle.commands.specs.SaysEncoded.{SaysEncoded};

use crate::inputs::LIMIT;
use crate::refusals::{refuse_line, refuse_past_limit};
use crate::said::{Statement, Text};
use crate::statuses::Judgement;
use dcp_types::OutOfMemory;
use pdu_text::{PduTextRefused, put_pdu_text};
use std::alloc::Global;

/// The bytes of the message that the line says, or the first rule that it breaks.
pub fn say_encoded(alloc: Global, input: &[u8]) -> Result<Statement, OutOfMemory>
    ensures { IfOk result (λ said. OfText SaysEncoded input.now said.judgement (text_of said.text)) }
{
    if input.len() > LIMIT {
        return Ok(refuse_past_limit());
    }
    let mut room = [0; 1024];
    let length = match put_pdu_text(alloc, input, &mut room) {
        Ok(length) => length,
        Err(PduTextRefused::Line { why }) => return refuse_line(alloc, 1, why.word()),
        Err(PduTextRefused::OutOfMemory) => return Err(OutOfMemory),
    };
    let bytes = room[..length].to_vec(alloc)?;
    Ok(Statement {
        judgement: Judgement::Good,
        text: Text::Whole(bytes),
    })
}
