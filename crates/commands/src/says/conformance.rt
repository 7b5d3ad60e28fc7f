//! The command `conform`: what a trace has of one slave, checked.

ghost use Rattle.std.specs.Prelude.{◌≡◌, IfOk};
ghost use Rattle.commands.specs.Conforms.{SaysAnswer, SaysOfSlave};
ghost use Rattle.commands.specs.SaysConform.{bad_why_word};

use crate::inputs::TRACE_LIMIT;
use crate::refusals::{refuse_byte, refuse_line};
use crate::said::{Statement, Text};
use crate::says::traces::{Opened, open};
use crate::slave_names::slave_named;
use crate::statuses::Judgement;
use conform::{BadWhy, Conformance, check};
use dcp_types::OutOfMemory;
use std::alloc::Global;

/// The word of the reason why entries break.
fn word_of(why: BadWhy) -> &'static str
    ensures { result.now ≡ bad_why_word why }
{
    match why {
        BadWhy::Send => "SEND",
        BadWhy::Missing => "MISSING",
    }
}

/// The line of what a check answers of the slave of this name.
fn say_answer(alloc: Global, name: &str, answer: Conformance) -> Result<Statement, OutOfMemory>
    ensures { IfOk result (SaysAnswer name.now answer) }
{
    match answer {
        Conformance::Follows { events } => {
            let line = format!(in alloc; "conforms {name} events {events}\n")?;
            Ok(Statement {
                judgement: Judgement::Good,
                text: Text::Whole(line.into_bytes()),
            })
        }
        Conformance::Bad { entry, why } => {
            let word = word_of(why);
            let line = format!(in alloc; "bad entry {entry} {word}\n")?;
            Ok(Statement {
                judgement: Judgement::Differs,
                text: Text::Whole(line.into_bytes()),
            })
        }
    }
}

/// Checks what the trace has of the slave of this name, whose model need not be the one of the scenario: says
/// how many events it has, or the first entry that it may not have; or why the bytes are refused.
pub fn say_conform(alloc: Global, name: &str, input: &[u8]) -> Result<Statement, OutOfMemory>
    ensures { IfOk result (SaysOfSlave name.now input.now) }
{
    if input.len() > TRACE_LIMIT {
        return refuse_byte(alloc, 0, "LIMIT");
    }
    let (scenario, entries) = match open(alloc, input)? {
        Opened::Trace {
            scenario,
            hosted: _,
            entries,
        } => (scenario, entries),
        Opened::Refused(said) => return Ok(said),
    };
    let Some(slave) = slave_named(scenario.slaves.as_slice(), name) else {
        return refuse_line(alloc, 0, "UNKNOWN_SLAVE");
    };
    let answer = check(alloc, &scenario, slave, &entries)?;
    say_answer(alloc, name, answer)
}
