//! A trace as a command reads it: its scenario, the ends that it is of, and their entries.

ghost use Rattle.std.specs.Prelude.{◌≡◌, ◌≤◌, ◌<◌, ◌+◌, ◌^◌, length, IfOk, MatchOption};
ghost use Rattle.commands.specs.Limits.{trace_limit};
ghost use Rattle.commands.specs.Replays.{IsOpened, RefusesHeader};
ghost use Rattle.commands.specs.SaysReplay.{named_by};

use crate::refusals::refuse_byte;
use crate::said::Statement;
use dcp_record::{Entries, read_record};
use dcp_types::OutOfMemory;
use host::Hosted;
use scenario::Scenario;
use scenario_text::read_scenario;
use std::alloc::Global;
use text_lines::TextRefused;

/// Where the scenario's text begins.
const SCENARIO_AT: usize = 13;

/// Where the hosted ends stand.
pub const HOSTED_AT: usize = 5;

/// What stands in a trace, or why it is refused.
#[derive(Drop)]
pub enum Opened<'a> {
    Trace {
        scenario: Scenario,
        hosted: Hosted,
        entries: Entries<'a>,
    },
    Refused(Statement),
}

/// The ends that these bits name, bit 0 the master and bit s slave s, of a scenario of so many slaves, at
/// most 16; none where a bit names a slave that it lacks.
fn named_by(bits: u32, slaves: usize) -> Option<Hosted>
    requires { slaves ≤ 16 }
    ensures { MatchOption result (2 ^ (slaves + 1) ≤ bits) (λ hosted. (bits < 2 ^ (slaves + 1)) × (hosted ≡ named_by bits)) }
{
    if bits >= 2u32.pow(slaves as u32 + 1) {
        return None;
    }
    Some(Hosted {
        master: bits % 2 == 1,
        slaves: (bits / 2) as u16,
    })
}

/// Refuses the bytes at this place of the header.
fn refuse_header<'a>(alloc: Global, at: usize) -> Result<Opened<'a>, OutOfMemory>
    ensures { IfOk result (RefusesHeader at) }
{
    Ok(Opened::Refused(refuse_byte(alloc, at, "HEADER")?))
}

/// Reads a trace of at most 1,073,741,824 bytes and the scenario in it.
pub fn open(alloc: Global, input: &[u8]) -> Result<Opened<'_>, OutOfMemory>
    requires { length input.now ≤ trace_limit }
    ensures { IfOk result (IsOpened input.now) }
{
    let trace = match read_record(input) {
        Ok(trace) => trace,
        Err(fault) => {
            let said = refuse_byte(alloc, fault.at as usize, fault.why.word())?;
            return Ok(Opened::Refused(said));
        }
    };
    let scenario = match read_scenario(alloc, trace.scenario) {
        Ok(scenario) => scenario,
        Err(TextRefused::Fault(_)) => return refuse_header(alloc, SCENARIO_AT),
        Err(TextRefused::OutOfMemory) => return Err(OutOfMemory),
    };
    let Some(hosted) = named_by(trace.hosted, scenario.slaves.as_slice().len()) else {
        return refuse_header(alloc, HOSTED_AT);
    };
    Ok(Opened::Trace {
        scenario,
        hosted,
        entries: trace.entries,
    })
}
