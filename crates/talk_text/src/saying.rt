//! What an end says to the events of a talk.

ghost use Rattle.std.specs.Prelude.{◌≡◌, ◌++◌, ◌∷◌, [], List, map, OnOk};
ghost use Rattle.dcp_ends.specs.Events.{Event};
ghost use Rattle.pdu_layout.specs.Reading.{message_in};
ghost use Rattle.talk_text.specs.Talks.{event_of_talk};
ghost use Rattle.talk_text.specs.Saying.{sends_over, line_shown, lines_shown};

use crate::events::TalkEvent;
use dcp_ends::End;
use dcp_types::{Address, OutOfMemory};
use pdu_codec::read;
use pdu_text::print_pdu;
use std::alloc::Global;

/// The master of a talk: 127.0.0.1 at port 9000.
const MASTER: Address = Address {
    ip: 0x7f00_0001,
    port: 9000,
};

/// Puts the line of the message that these bytes are.
fn put_line(alloc: Global, bytes: &[u8], text: &mut Vec<u8>) -> Result<(), OutOfMemory>
    ensures { OnOk result (text.new.items ≡ text.old.items ++ line_shown (message_in bytes.now)) }
{
    if let Some(message) = read(bytes) {
        let line = print_pdu(alloc, &message)?;
        text.extend_from_slice(line.as_bytes())?;
    }
    Ok(())
}

/// Puts the lines of the messages that are outgoing.
fn put_outgoing<E: End>(alloc: Global, end: &E, text: &mut Vec<u8>) -> Result<(), OutOfMemory>
    ensures { OnOk result (text.new.items ≡ text.old.items ++ lines_shown (E.outs end.now)) }
{
    let mut i = 0;
    'sends: while let Some((_to, bytes)) = end.outgoing(i) {
        put_line(alloc, bytes, text)?;
        i += 1;
    }
    Ok(())
}

/// Lets an event come to the end. Nothing is outgoing.
fn happen<E: End>(end: &mut E, event: &TalkEvent)
    requires { E.outs end.old ≡ [] }
    ensures stands { (events : List Event) → E.stands end.old events → E.stands end.new (events ++ event_of_talk event.now ∷ []) }
    ensures sends { (events : List Event) → E.stands end.old events → E.outs end.new ≡ (E.rules end.old).sends events (event_of_talk event.now) }
    ensures rules { E.rules end.new ≡ E.rules end.old }
{
    match event {
        TalkEvent::Turn => end.on_turn(),
        TalkEvent::Message(bytes) => end.on_gram(MASTER, bytes.as_slice()),
    }
}

/// Lets the events of a talk come to an end, one after the other, and puts the line of each message
/// that it sends, in order. Nothing is outgoing.
pub fn put_talk<E: End>(
    alloc: Global,
    end: &mut E,
    events: &[TalkEvent],
    text: &mut Vec<u8>,
) -> Result<(), OutOfMemory>
    requires { E.outs end.old ≡ [] }
    ensures { (before : List Event) → E.stands end.old before
        → OnOk result (text.new.items ≡ text.old.items ++ lines_shown (sends_over (E.rules end.old) before (map event_of_talk events.now))) }
{
    for event in events {
        happen(end, event);
        put_outgoing(alloc, end, text)?;
        end.clear_outgoing();
    }
    Ok(())
}
