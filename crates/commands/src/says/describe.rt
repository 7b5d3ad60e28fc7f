//! The command `describe`: a description in its canonical text.

ghost use Rattle.std.specs.Prelude.{IfOk};
ghost use Rattle.commands.specs.Refusals.{OfText};
ghost use Rattle.commands.specs.Said.{text_of};
ghost use Rattle.commands.specs.SaysDescribed.{SaysDescribed};

use crate::inputs::LIMIT;
use crate::refusals::{refuse_past_limit, refuse_text};
use crate::said::{Statement, Text};
use crate::statuses::Judgement;
use dcp_types::OutOfMemory;
use desc_text::{print_desc, read_desc};
use std::alloc::Global;

/// The canonical text of the description, or the first line that is refused.
pub fn say_described(alloc: Global, input: &[u8]) -> Result<Statement, OutOfMemory>
    ensures { IfOk result (λ said. OfText SaysDescribed input.now said.judgement (text_of said.text)) }
{
    if input.len() > LIMIT {
        return Ok(refuse_past_limit());
    }
    let desc = match read_desc(alloc, input) {
        Ok(desc) => desc,
        Err(refused) => return refuse_text(alloc, refused),
    };
    let text = print_desc(alloc, &desc)?;
    Ok(Statement {
        judgement: Judgement::Good,
        text: Text::Whole(text.into_bytes()),
    })
}
