//! The command `talk`: what a slave says to the events of a talk.

ghost use Rattle.std.specs.Prelude.{◌≡◌, IfOk};
ghost use Rattle.slave_desc.specs.Descriptions.{IsDesc, HasModel};
ghost use Rattle.commands.specs.Refusals.{OfText};
ghost use Rattle.commands.specs.Said.{text_of};
ghost use Rattle.commands.specs.SaysTalk.{SaysTalk, talk_lines};

use crate::externals::refuse_external;
use crate::inputs::LIMIT;
use crate::refusals::{refuse_past_limit, refuse_text};
use crate::said::{Statement, Text};
use crate::statuses::Judgement;
use dcp_types::OutOfMemory;
use slave_device::new_slave;
use std::alloc::Global;
use talk_text::{Talk, put_talk, read_talk};

/// A step of the slave has so many micro steps.
const MICRO: u32 = 1;

/// The lines of the messages that the slave of a talk sends, in order.
fn talk_lines(alloc: Global, talk: Talk) -> Result<Vec<u8>, OutOfMemory>
    requires desc { IsDesc talk.desc }
    requires model { HasModel talk.desc }
    ensures { IfOk result (λ text. text.items ≡ talk_lines talk) }
{
    let Talk { desc, events } = talk;
    let mut slave = new_slave(alloc, desc, MICRO)?;
    let mut text = Vec::new(alloc);
    put_talk(alloc, &mut slave, events.as_slice(), &mut text)?;
    Ok(text)
}

/// What the slave says; or the first line of the text that is refused, or that of a model which is not this
/// program's.
pub fn say_talk(alloc: Global, input: &[u8]) -> Result<Statement, OutOfMemory>
    ensures { IfOk result (λ said. OfText SaysTalk input.now said.judgement (text_of said.text)) }
{
    if input.len() > LIMIT {
        return Ok(refuse_past_limit());
    }
    let talk = match read_talk(alloc, input) {
        Ok(talk) => talk,
        Err(refused) => return refuse_text(alloc, refused),
    };
    if talk.desc.kind.is_external() {
        return refuse_external(alloc, input, 1);
    }
    let text = talk_lines(alloc, talk)?;
    Ok(Statement {
        judgement: Judgement::Good,
        text: Text::Whole(text),
    })
}
