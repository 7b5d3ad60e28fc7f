//! Handing the message that was read to its taker.

ghost use Rattle.std.specs.Prelude.{◌≡◌, ◌≤◌, IfOk, IfErr, map, take};
ghost use Rattle.pdu_layout.specs.Message.{HasSpelling, Spells};
ghost use Rattle.pdu_codec.specs.Refusals.{IsSpelling};
ghost use Rattle.pdu_layout.specs.Parts.{value_of};
ghost use Rattle.pdu_text.specs.Contents.{value_of_said, message_of_said};
ghost use Rattle.pdu_text.specs.Takers.{Adds, Handed, IsRefused, ReadsAndSpells};

use crate::contents::{Said, SaidMessage};
use crate::reasons::PduTextRefused;
use crate::takers::PduTaker;
use crate::texts_read::read_message;
use dcp_types::OutOfMemory;
use pdu_codec::{decode, put_message};
use pdu_layout::{FieldContent, listed_row};
use std::alloc::Global;

fn content(value: &Said) -> FieldContent<'_>
    ensures { value_of result ≡ value_of_said value.now }
{
    match value {
        Said::Number(n) => FieldContent::Number(*n),
        Said::Signed(z) => FieldContent::Signed(*z),
        Said::Bytes(bytes) => FieldContent::Bytes(bytes),
    }
}

/// What was read, as contents of fields.
fn contents(alloc: Global, values: &[Said]) -> Result<Vec<FieldContent<'_>>, OutOfMemory>
    ensures { IfOk result (λ v. map value_of v.items ≡ map value_of_said values.now) }
{
    let mut out = Vec::new(alloc);
    for value in values {
        out.push(content(value))?;
    }
    Ok(out)
}

/// Writes the bytes of a message that was read to the front of the room, and answers how many there are.
///
/// The message has a spelling.
fn put_said(alloc: Global, said: &SaidMessage, room: &mut [u8; 1024]) -> Result<usize, OutOfMemory>
    requires { HasSpelling (message_of_said said.now) }
    ensures at_most { IfOk result (λ n. n ≤ 1024) }
    ensures spelled { IfOk result (λ n. Spells (message_of_said said.now) (take n room.new)) }
{
    let contents = contents(alloc, &said.values)?;
    match listed_row(said.code) {
        Some(row) => Ok(put_message(said.code, row.fields, &contents, room)),
        None => unreachable!(),
    }
}

/// Reads a text as one message, writes its bytes to the front of the room, and answers how many there
/// are.
///
/// The text is one line: a message's name, and for each field the field's name, `=` and what it
/// holds. A text that does not read is refused by the first rule that it breaks. Want of memory is an
/// answer of its own. After a refusal the room may hold anything.
pub fn put_pdu_text(
    alloc: Global,
    text: &[u8],
    room: &mut [u8; 1024],
) -> Result<usize, PduTextRefused>
    ensures at_most { IfOk result (λ n. n ≤ 1024) }
    ensures ok { IfOk result (λ n. ReadsAndSpells text.now (take n room.new)) }
    ensures err { IfErr result (λ e. IsRefused text.now e) }
{
    let said = read_message(alloc, text)?;
    let length = put_said(alloc, &said, room)?;
    Ok(length)
}

/// Hands the message that the bytes spell to the taker.
///
/// The bytes spell a message, and the taker has room for it.
fn hand<R: PduTaker>(bytes: &[u8], taker: &mut R)
    requires ready { R.can_take taker.old }
    requires spelled { IsSpelling bytes.now }
    ensures { Adds (R.taken taker.old) (R.taken taker.new) bytes.now }
{
    match decode(bytes) {
        Ok(pdu) => taker.take(&pdu),
        Err(_) => unreachable!(),
    }
}

/// Reads a text as one message and hands it to the taker, which has room for it, once.
///
/// The text is one line: a message's name, and for each field the field's name, `=` and what it
/// holds. A text that does not read is refused by the first rule that it breaks, and then the taker
/// was not called. Want of memory is an answer of its own.
pub fn with_pdu_text<R: PduTaker>(
    alloc: Global,
    text: &[u8],
    taker: &mut R,
) -> Result<(), PduTextRefused>
    requires { R.can_take taker.old }
    ensures ok { IfOk result (λ _. Handed text.now (R.taken taker.old) (R.taken taker.new)) }
    ensures err { IfErr result (λ e. IsRefused text.now e) }
    ensures not_called { IfErr result (λ _. taker.new ≡ taker.old) }
{
    let mut room = [0; 1024];
    let length = put_pdu_text(alloc, text, &mut room)?;
    hand(&room[..length], taker);
    Ok(())
}
