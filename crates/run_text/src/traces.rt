//! The trace of a run of all ends.

ghost use Rattle.std.specs.Prelude.{◌≡◌, ◌≤◌, ◌<◌, ◌^◌, length};
ghost use Rattle.scenario.specs.Sound.{IsScenario};
ghost use Rattle.dcp_io.specs.Outputs.{Delivers};
ghost use Rattle.dcp_record.specs.Traces.{trace_bytes};
ghost use Rattle.run_text.specs.Runs.{all_bits};

use dcp_io::{Delivery, Sink};
use dcp_record::{RunLog, write_record};
use scenario::Scenario;

/// All ends of a scenario of so many slaves as bits: bit 0 for the master, and bit s for slave s.
fn bits_of(slaves: usize) -> u32
    requires { slaves ≤ 16 }
    ensures bits { result ≡ all_bits slaves }
    ensures few { result < 2 ^ 17 }
{
    2u32.pow(slaves as u32 + 1) - 1
}

/// Writes the trace of a run of all ends of a scenario, whose text is `input`.
pub(crate) fn write_trace<R: Sink>(
    trace: &mut R,
    scenario: &Scenario,
    input: &[u8],
    log: &RunLog,
) -> Delivery
    requires scenario { IsScenario scenario.now }
    requires input { length input.now < 2 ^ 32 }
    ensures { Delivers (R.written trace.old) (R.written trace.new) (R.faults trace.old) (R.faults trace.new) (trace_bytes (all_bits (length scenario.now.slaves)) input.now log.now.entries) result }
{
    let hosted = bits_of(scenario.slaves.as_slice().len());
    match write_record(hosted, input, log, trace) {
        Ok(()) => Delivery::Whole,
        Err(_) => Delivery::Cut,
    }
}
