//! What a command over sockets answers to a text, and the writing of it.

ghost use Rattle.std.specs.Prelude.{◌≡◌, ◌≤◌, List, ℕ, length, true};
ghost use Rattle.dcp_io.specs.Outputs.{Delivers};
ghost use Rattle.commands.specs.SaysRun.{run_text};
ghost use Rattle.commands.specs.Statuses.{ComesBeforeWriting, ComesWithoutNet};
ghost use Rattle.dcp_record.specs.Traces.{trace_bytes};
ghost use Rattle.run_text.specs.Runs.{DeliversBoth};
ghost use Rattle.socket_commands.specs.Answers.{Delivered, GivesLive, HasMaster, IsLiveRefusal, IsWritableRun, IsWritableLive, RunDelivered, ended_text};
ghost use Rattle.socket_commands.specs.Changes.{LiveChange};
ghost use Rattle.socket_commands.specs.Parts.{IsPart, bits_in};

use crate::parts::Part;
use commands::{Judgement, Statement, Status, write_text};
use dcp_io::{Delivery, Sink, write_all};
use dcp_record::{RunLog, write_record};
use host::Host;
use master_spec::Report;
use run_text::write_report;

/// What a command answers to a text.
#[derive(Drop)]
pub enum LiveAnswer {
    /// The line that refuses it.
    Refused(Statement),
    /// The ends have run until they were done.
    Ran(Run),
}

/// Ends that have run until they were done.
#[derive(Drop)]
pub struct Run {
    pub part: Part,
    pub host: Host,
    /// What the run came to.
    pub judgement: Judgement,
    pub ending: Ending,
}

/// What is written of a run besides its trace.
#[derive(Drop)]
pub enum Ending {
    /// The rows of the master, and this report.
    Report(Report),
    /// This line of a slave.
    Line(Vec<u8>),
}

/// Writes the rows of the master and its report.
fn write_rows<K: Sink>(out: &mut K, host: &Host, report: Report) -> Delivery
    requires { host.now.hosted.master ≡ true }
    ensures { Delivers (K.written out.old) (K.written out.new) (K.faults out.old) (K.faults out.new) (run_text host.now report) result }
{
    let Some(task) = host.master_task() else {
        unreachable!()
    };
    write_report(out, task.end(), report)
}

/// Writes the text of a run.
fn write_ending<K: Sink>(out: &mut K, run: &Run) -> Delivery
    requires { HasMaster run.now.host run.now.ending }
    ensures { Delivers (K.written out.old) (K.written out.new) (K.faults out.old) (K.faults out.new) (ended_text run.now.host run.now.ending) result }
{
    match &run.ending {
        Ending::Report(report) => write_rows(out, &run.host, *report),
        Ending::Line(line) => write_all(out, line.as_slice()),
    }
}

/// Writes the trace of the ends that were hosted, of so many slaves. `input` is the scenario's text as it
/// was read.
fn write_trace<R: Sink>(
    trace: &mut R,
    part: Part,
    slaves: usize,
    input: &[u8],
    log: &RunLog,
) -> Delivery
    requires part { IsPart part }
    requires few { slaves ≤ 16 }
    requires short { length input.now ≤ 1048576 }
    ensures { Delivers (R.written trace.old) (R.written trace.new) (R.faults trace.old) (R.faults trace.new) (trace_bytes (bits_in part slaves) input.now log.now.entries) result }
{
    let hosted = part.bits(slaves);
    match write_record(hosted, input, log, trace) {
        Ok(()) => Delivery::Whole,
        Err(_) => Delivery::Cut,
    }
}

/// Writes the text of a run to the one sink, and then its trace to the other, which is not begun where
/// the first fails.
fn write_both<K: Sink, R: Sink>(
    out: &mut K,
    trace: &mut R,
    run: &Run,
    slaves: usize,
    input: &[u8],
    log: &RunLog,
) -> Delivery
    requires master { HasMaster run.now.host run.now.ending }
    requires part { IsPart run.now.part }
    requires few { slaves ≤ 16 }
    requires short { length input.now ≤ 1048576 }
    ensures { DeliversBoth (K.written out.old) (K.written out.new) (K.faults out.old) (K.faults out.new)
        (R.written trace.old) (R.written trace.new) (R.faults trace.old) (R.faults trace.new)
        (ended_text run.now.host run.now.ending) (trace_bytes (bits_in run.now.part slaves) input.now log.now.entries) result }
{
    match write_ending(out, run) {
        Delivery::Whole => write_trace(trace, run.part, slaves, input, log),
        Delivery::Cut => Delivery::Cut,
    }
}

/// Writes what a run leaves.
fn deliver_run<K: Sink, R: Sink>(out: &mut K, trace: &mut R, run: &Run, input: &[u8]) -> Status
    requires { IsWritableRun input.now run.now }
    ensures { RunDelivered (K.written out.old) (K.written out.new) (K.faults out.old) (K.faults out.new)
        (R.written trace.old) (R.written trace.new) (R.faults trace.old) (R.faults trace.new) input.now run.now result }
{
    let slaves = run.host.scenario().slaves.as_slice().len();
    let delivery = write_both(out, trace, run, slaves, input, run.host.log());
    run.judgement.status(delivery)
}

/// Writes the line that refuses a text and nothing to the other sink; or what a run leaves to both.
pub fn deliver<K: Sink, R: Sink>(
    out: &mut K,
    trace: &mut R,
    answer: LiveAnswer,
    input: &[u8],
) -> Status
    requires { IsWritableLive input.now answer }
    ensures delivered { (words : List (List ℕ)) (net : LiveChange) → GivesLive words net input.now answer
        → Delivered (K.written out.old) (K.written out.new) (K.faults out.old) (K.faults out.new) (R.written trace.old) (R.written trace.new) (R.faults trace.old) (R.faults trace.new) words net input.now result }
    ensures written { ComesBeforeWriting result → ⊥ }
    ensures used { result ≡ Status.Usage → ⊥ }
    ensures refused { ComesWithoutNet result → IsLiveRefusal answer }
{
    match answer {
        LiveAnswer::Refused(said) => said.judgement.status(write_text(out, &said.text)),
        LiveAnswer::Ran(run) => deliver_run(out, trace, &run, input),
    }
}
