//! The command `replay`: the trace of a run gone through again.

ghost use Rattle.std.specs.Prelude.{IfOk};
ghost use Rattle.dcp_record.specs.Words.{trace_word};
ghost use Rattle.dcp_record.specs.declared.faults.TraceWhy.TheVariants.{Header};
ghost use Rattle.commands.specs.Refusals.{Refuses, byte_refusal};
ghost use Rattle.commands.specs.Replays.{GivesReplay, SaysStop};

use crate::answers::CommandAnswer;
use crate::inputs::TRACE_LIMIT;
use crate::refusals::refuse_byte;
use crate::said::{Statement, Text};
use crate::says::traces::{HOSTED_AT, Opened, open};
use crate::statuses::Judgement;
use dcp_types::OutOfMemory;
use host::external_in;
use replays::{ReplayFault, replay};
use std::alloc::Global;

/// What is said of a trace that does not go through.
fn say_stop(alloc: Global, fault: ReplayFault) -> Result<Statement, OutOfMemory>
    ensures { IfOk result (SaysStop fault) }
{
    let line = match fault {
        ReplayFault::Differs { at } => format!(in alloc; "differs at {at}\n")?,
        ReplayFault::Unended { entries } => format!(in alloc; "unended {entries}\n")?,
        ReplayFault::OutOfMemory => return Err(OutOfMemory),
    };
    Ok(Statement {
        judgement: Judgement::Differs,
        text: Text::Whole(line.into_bytes()),
    })
}

/// Refuses the hosted ends of a trace.
fn refuse_hosted(alloc: Global) -> Result<Statement, OutOfMemory>
    ensures { IfOk result (Refuses (byte_refusal 5 (trace_word Header))) }
{
    refuse_byte(alloc, HOSTED_AT, "HEADER")
}

/// Goes through the trace, and gives the master with the rows and the report that it goes to, or where it
/// differs or breaks off, or why the bytes are refused.
pub fn say_replay(alloc: Global, input: &[u8]) -> Result<CommandAnswer, OutOfMemory>
    ensures gives { IfOk result (GivesReplay input.now) }
{
    if input.len() > TRACE_LIMIT {
        return Ok(CommandAnswer::Said(refuse_byte(alloc, 0, "LIMIT")?));
    }
    let (scenario, hosted, entries) = match open(alloc, input)? {
        Opened::Trace {
            scenario,
            hosted,
            entries,
        } => (scenario, hosted, entries),
        Opened::Refused(said) => return Ok(CommandAnswer::Said(said)),
    };
    if external_in(&scenario, hosted).is_some() {
        return Ok(CommandAnswer::Said(refuse_hosted(alloc)?));
    }
    match replay(alloc, &scenario, hosted, &entries) {
        Ok(replayed) => Ok(CommandAnswer::Replayed { scenario, replayed }),
        Err(fault) => Ok(CommandAnswer::Said(say_stop(alloc, fault)?)),
    }
}
