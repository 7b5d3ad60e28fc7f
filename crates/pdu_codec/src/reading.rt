//! What bytes say, where no one asks why they say nothing.

ghost use Rattle.std.specs.Prelude.{◌≡◌, MatchOption, Some, None};
ghost use Rattle.pdu_layout.specs.Message.{message_of};
ghost use Rattle.pdu_layout.specs.Reading.{message_in};

use crate::from_bytes::decode;
use pdu_layout::Pdu;

/// The message that the bytes spell, where they spell one. A payload is a part of the bytes.
#[inline(always)]
pub fn read(bytes: &[u8]) -> Option<Pdu<'_>>
    ensures { MatchOption result (message_in bytes.now ≡ None) (λ p. message_in bytes.now ≡ Some (message_of p)) }
{
    decode(bytes).ok()
}
