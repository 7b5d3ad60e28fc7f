//! The lines that say why an input is refused.

ghost use Rattle.std.specs.Prelude.{◌≡◌, IfOk};
ghost use Rattle.commands.specs.Refusals.{Refuses, RefusesText, byte_refusal, line_refusal};
ghost use Rattle.commands.specs.Said.{past_limit};

use crate::said::{Statement, Text};
use crate::statuses::Judgement;
use dcp_types::OutOfMemory;
use std::alloc::Global;
use text_lines::TextRefused;

/// A refusal, said by this line.
fn refused(line: Vec<u8>) -> Statement
    ensures { Refuses line.items result }
{
    Statement {
        judgement: Judgement::Refused,
        text: Text::Whole(line),
    }
}

/// Refuses a text at this line of it, from 1, for the reason that the word names.
pub fn refuse_line(alloc: Global, line: u32, word: &str) -> Result<Statement, OutOfMemory>
    ensures { IfOk result (Refuses (line_refusal line word.now)) }
{
    let text = format!(in alloc; "input: line {line} {word}\n")?;
    Ok(refused(text.into_bytes()))
}

/// Refuses a text at its first line that is refused, for the reason that was found there. Want of
/// memory while it was read is passed on.
pub fn refuse_text(alloc: Global, refused: TextRefused) -> Result<Statement, OutOfMemory>
    ensures { IfOk result (RefusesText refused) }
{
    match refused {
        TextRefused::Fault(fault) => refuse_line(alloc, fault.line, fault.why.word()),
        TextRefused::OutOfMemory => Err(OutOfMemory),
    }
}

/// Refuses bytes at this place of them, from 0, for the reason that the word names.
pub fn refuse_byte(alloc: Global, at: usize, word: &str) -> Result<Statement, OutOfMemory>
    ensures { IfOk result (Refuses (byte_refusal at word.now)) }
{
    let text = format!(in alloc; "input: byte {at} {word}\n")?;
    Ok(refused(text.into_bytes()))
}

/// Refuses a text that is longer than an input may be.
pub fn refuse_past_limit() -> Statement
    ensures { Refuses past_limit result }
{
    Statement {
        judgement: Judgement::Refused,
        text: Text::PastLimit,
    }
}
