//! What follows of the spellings for all messages.

ghost use Rattle.std.specs.Prelude.{◌≡◌, IfOk, IfErr, take};
ghost use Rattle.pdu_layout.specs.Message.{message_of, HasSpelling};
ghost use Rattle.pdu_codec.specs.Refusals.{Refusal};
ghost use Rattle.pdu_codec.specs.Laws.{MessagesDiffer, OneRefusal, ReadAsSpelled, SpelledOnce, SpellingSpells};

use crate::faults::DecodeFault;
use crate::from_bytes::decode;
use crate::to_bytes::encode;
use pdu_layout::Pdu;

/// No two messages have the same bytes.
pub fn spellings_are_one_to_one()
    ensures { MessagesDiffer }
{}

/// Bytes that are no message have one refusal: one place and one cause.
pub fn refusals_are_unique()
    ensures { OneRefusal }
{}

/// What bytes say as a function of them is what they spell, where they spell anything, and nothing elsewhere.
pub fn bytes_say_what_they_spell()
    ensures { ReadAsSpelled }
{}

/// The spelling as a function of the message is the one list of bytes that spells it.
pub fn messages_have_one_spelling()
    ensures once { SpelledOnce }
    ensures spells { SpellingSpells }
{}

/// Writes a message into the room and reads it back: it is the same message.
///
/// The message is in range.
pub fn written_and_read<'a>(pdu: &Pdu<'_>, room: &'a mut [u8; 1024]) -> Result<Pdu<'a>, DecodeFault>
    requires { HasSpelling (message_of pdu.now) }
    ensures same { IfOk result (λ read. message_of read ≡ message_of pdu.now) }
    ensures never { IfErr result (λ fault. ⊥) }
{
    let length = encode(pdu, room);
    decode(&room[..length])
}

/// Reads a message and writes it into the room: it has the same bytes. The answer is how many they are.
pub fn read_and_written(bytes: &[u8], room: &mut [u8; 1024]) -> Result<usize, DecodeFault>
    ensures same { IfOk result (λ n. take n room.new ≡ bytes.now) }
    ensures err { IfErr result (λ fault. Refusal bytes.now fault.at fault.why) }
{
    let message = decode(bytes)?;
    let length = encode(&message, room);
    Ok(length)
}
