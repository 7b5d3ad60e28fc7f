//! What a run leaves for its two sinks.

ghost use Rattle.std.specs.Prelude.{◌≡◌, ◌<◌, ◌^◌, List, length, reverse};
ghost use Rattle.dcp_ends.specs.Events.{Event};
ghost use Rattle.scenario.specs.Sound.{IsScenario};
ghost use Rattle.dcp_io.specs.Outputs.{Delivers};
ghost use Rattle.dcp_record.specs.Traces.{trace_bytes};
ghost use Rattle.master_core.specs.Standing.{StandsAfter, core_setup};
ghost use Rattle.run_text.specs.Runs.{DeliversBoth, all_bits, text_after};

use crate::put_report_line;
use crate::rows::put_rows;
use crate::traces::write_trace;
use dcp_io::{Delivery, Sink, Spool};
use dcp_record::RunLog;
use master_core::{MasterCore, Report};
use scenario::Scenario;

/// Writes the rows and the report to the one sink, and then the trace to the other, which is not begun
/// where the first fails. `input` is the scenario's text as it was read, and the log is that of all ends.
pub fn write_run<K: Sink, R: Sink>(
    out: &mut K,
    trace: &mut R,
    scenario: &Scenario,
    master: &MasterCore,
    report: Report,
    input: &[u8],
    log: &RunLog,
) -> Delivery
    requires scenario { IsScenario scenario.now }
    requires input { length input.now < 2 ^ 32 }
    ensures { (events : List Event) → StandsAfter master.now events → DeliversBoth (K.written out.old) (K.written out.new) (K.faults out.old) (K.faults out.new)
        (R.written trace.old) (R.written trace.new) (R.faults trace.old) (R.faults trace.new)
        (text_after (core_setup master.now) (reverse events) report) (trace_bytes (all_bits (length scenario.now.slaves)) input.now log.now.entries) result }
{
    match write_report(out, master, report) {
        Delivery::Whole => write_trace(trace, scenario, input, log),
        Delivery::Cut => Delivery::Cut,
    }
}

/// Writes the rows and the line of the report.
pub fn write_report<K: Sink>(out: &mut K, master: &MasterCore, report: Report) -> Delivery
    ensures { (events : List Event) → StandsAfter master.now events → Delivers (K.written out.old) (K.written out.new) (K.faults out.old) (K.faults out.new)
        (text_after (core_setup master.now) (reverse events) report) result }
{
    let mut spool = Spool::new();
    put_rows(&mut spool, out, master);
    put_report_line(&mut spool, out, report);
    spool.finish(out)
}
