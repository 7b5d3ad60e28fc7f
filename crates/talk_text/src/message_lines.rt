//! The event of a line that is a message.

ghost use Rattle.std.specs.Prelude.{◌≡◌};
ghost use Rattle.pdu_text.specs.Machine.{text_said};
ghost use Rattle.text_lines.specs.Outcomes.{Gives};
ghost use Rattle.talk_text.specs.Judging.{why_of};
ghost use Rattle.talk_text.specs.Machine.{message_event};

use crate::events::TalkEvent;
use dcp_ends::Bytes;
use pdu_text::{PduTextRefused, PduTextWhy, put_pdu_text};
use std::alloc::Global;
use text_lines::{LineRefused, TextWhy};

/// The cause of a message's line among those of all texts.
fn why_of(why: PduTextWhy) -> TextWhy
    ensures { result ≡ why_of why }
{
    match why {
        PduTextWhy::NotUtf8 => TextWhy::NotUtf8,
        PduTextWhy::UnknownKey => TextWhy::UnknownKey,
        PduTextWhy::Words => TextWhy::Words,
        PduTextWhy::BadNumber => TextWhy::BadNumber,
        PduTextWhy::BadUuid => TextWhy::BadUuid,
        PduTextWhy::Limit => TextWhy::Limit,
    }
}

/// The event that is the message of a line.
pub(crate) fn message_event(alloc: Global, line: &[u8]) -> Result<TalkEvent, LineRefused>
    ensures { Gives (λ e. e) result (message_event (text_said line.now)) }
{
    let mut room = [0; 1024];
    match put_pdu_text(alloc, line, &mut room) {
        Ok(length) => {
            let bytes = Bytes::copied(alloc, &room[..length])?;
            Ok(TalkEvent::Message(bytes))
        }
        Err(PduTextRefused::Line { why }) => Err(LineRefused::Why(why_of(why))),
        Err(PduTextRefused::OutOfMemory) => Err(LineRefused::OutOfMemory),
    }
}
