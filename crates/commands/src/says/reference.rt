//! The command `reference`: what a correct run of a scenario prints.

ghost use Rattle.std.specs.Prelude.{IfOk};
ghost use Rattle.commands.specs.Refusals.{OfText};
ghost use Rattle.commands.specs.Said.{text_of};
ghost use Rattle.commands.specs.SaysReference.{SaysReference};

use crate::externals::refuse_external;
use crate::inputs::LIMIT;
use crate::refusals::{refuse_past_limit, refuse_text};
use crate::said::{Statement, Text};
use crate::statuses::Judgement;
use dcp_types::OutOfMemory;
use host::{ALL_ENDS, external_in};
use lockstep::reference;
use scenario_text::read_scenario;
use std::alloc::Global;

/// The rows of the scenario and the line after them; or the first line that is refused, or that of the first
/// model which is not this program's.
pub fn say_reference(alloc: Global, input: &[u8]) -> Result<Statement, OutOfMemory>
    ensures { IfOk result (λ said. OfText SaysReference input.now said.judgement (text_of said.text)) }
{
    if input.len() > LIMIT {
        return Ok(refuse_past_limit());
    }
    let scenario = match read_scenario(alloc, input) {
        Ok(scenario) => scenario,
        Err(refused) => return refuse_text(alloc, refused),
    };
    if let Some(slave) = external_in(&scenario, ALL_ENDS) {
        return refuse_external(alloc, input, slave);
    }
    let steps = scenario.steps;
    let reference = reference(alloc, &scenario)?;
    Ok(Statement {
        judgement: Judgement::Good,
        text: Text::Rows { steps, reference },
    })
}
