//! What a command answers to an input, and the writing of it.

ghost use Rattle.std.specs.Prelude.{◌≡◌, ℕ, List};
ghost use Rattle.commands.specs.Answers.{Delivered, GivesAnswer, IsRefusal, IsAlone, IsWritable, IsWritableAnswer, RunDelivered, SoakDelivered};
ghost use Rattle.commands.specs.Replays.{FollowsReport, ReplayDelivered};
ghost use Rattle.replays.specs.Replays.{IsReplayed};
ghost use Rattle.scenario.specs.declared.scenarios.Scenario.{Scenario};
ghost use Rattle.dcp_ends.specs.declared.entries.LogEntry.{LogEntry};
ghost use Rattle.commands.specs.Statuses.{ComesBeforeWriting, ComesWithoutNet, judgement_of_report};
ghost use Rattle.commands.specs.SaysRun.{NetTold};
ghost use Rattle.commands.specs.declared.command_words.Command.{Command};

use crate::said::{Statement, write_text};
use crate::statuses::{Judgement, Status};
use dcp_io::Sink;
use dcp_types::OutOfMemory;
use host::Host;
use master_spec::Report;
use replays::Replayed;
use run_text::{write_report, write_run};
use scenario::Scenario;
use soaks::write_summary;

/// What a command answers to an input.
#[derive(Drop)]
pub enum CommandAnswer {
    /// A text.
    Said(Statement),
    /// The host of all ends of a scenario, which have run until the master had its report.
    Ran(Host),
    /// A trace of this scenario that went through, with the master that has its rows and its report.
    Replayed {
        scenario: Scenario,
        replayed: Replayed,
    },
    /// The host of all ends of the scenario of this number, which have run until the master had its report.
    Soaked {
        number: u32,
        host: Host,
    },
}

/// Why a command has no answer.
#[derive(Clone, Copy, Debug, PartialEq, Eq)]
pub enum Unsaid {
    /// The network failed.
    NetFault,
    /// Memory was refused.
    OutOfMemory,
}

impl From<OutOfMemory> for Unsaid {
    ghost use Rattle.commands.specs.declared.answers.Unsaid.TheVariants as unsaid;

    ghost from_gives = { λ _ reason. reason ≡ unsaid.OutOfMemory };

    fn from(_error: OutOfMemory) -> Unsaid {
        Unsaid::OutOfMemory
    }
}

/// What a report makes of a run.
fn judgement_of(report: Report) -> Judgement
    ensures { result ≡ judgement_of_report report }
{
    match report {
        Report::Finished { .. } => Judgement::Good,
        Report::Failed { .. } => Judgement::Failed,
    }
}

/// Writes the rows and the report of a run to the one sink, and then its trace to the other, which is not
/// begun where the first fails. `input` is the scenario's text as it was read.
fn deliver_run<K: Sink, R: Sink>(out: &mut K, trace: &mut R, host: &Host, input: &[u8]) -> Status
    requires { IsWritable input.now host.now }
    ensures { RunDelivered (K.written out.old) (K.written out.new) (K.faults out.old) (K.faults out.new)
        (R.written trace.old) (R.written trace.new) (R.faults trace.old) (R.faults trace.new) input.now host.now result }
{
    let Some(task) = host.master_task() else {
        unreachable!()
    };
    let Some(report) = host.report() else {
        unreachable!()
    };
    let delivery = write_run(
        out,
        trace,
        host.scenario(),
        task.end(),
        report,
        input,
        host.log(),
    );
    judgement_of(report).status(delivery)
}

/// Writes the rows and the report of a trace that went through.
fn deliver_replayed<K: Sink>(out: &mut K, replayed: &Replayed) -> Status
    ensures follows { FollowsReport replayed.now.report result }
    ensures delivered { (scenario : Scenario) (entries : List LogEntry) → IsReplayed scenario entries replayed.now
        → ReplayDelivered (K.written out.old) (K.written out.new) (K.faults out.old) (K.faults out.new) scenario entries replayed.now result }
{
    let delivery = write_report(out, &replayed.master, replayed.report);
    judgement_of(replayed.report).status(delivery)
}

/// Writes the line of the report and the sum of the rows of a run of the number's scenario.
fn deliver_soak<K: Sink>(out: &mut K, number: u32, host: &Host) -> Status
    requires { (input : List ℕ) × IsWritable input host.now }
    ensures { SoakDelivered (K.written out.old) (K.written out.new) (K.faults out.old) (K.faults out.new) number host.now result }
{
    let Some(task) = host.master_task() else {
        unreachable!()
    };
    let Some(report) = host.report() else {
        unreachable!()
    };
    let _log = host.log();
    let delivery = write_summary(out, number, task.end(), report);
    judgement_of(report).status(delivery)
}

/// Writes a text to the one sink and nothing to the other; or what a run leaves to both.
pub fn deliver<K: Sink, R: Sink>(
    out: &mut K,
    trace: &mut R,
    answer: CommandAnswer,
    input: &[u8],
) -> Status
    requires { IsWritableAnswer input.now answer }
    ensures delivered { (command : Command) (net : NetTold) → GivesAnswer command net input.now answer
        → Delivered (K.written out.old) (K.written out.new) (K.faults out.old) (K.faults out.new) (R.written trace.old) (R.written trace.new) (R.faults trace.old) (R.faults trace.new) command net input.now result }
    ensures untouched { IsAlone answer → trace.new ≡ trace.old }
    ensures written { ComesBeforeWriting result → ⊥ }
    ensures used { result ≡ Status.Usage → ⊥ }
    ensures refused { ComesWithoutNet result → IsRefusal answer }
{
    match answer {
        CommandAnswer::Said(said) => said.judgement.status(write_text(out, &said.text)),
        CommandAnswer::Ran(host) => deliver_run(out, trace, &host, input),
        CommandAnswer::Replayed { replayed, .. } => deliver_replayed(out, &replayed),
        CommandAnswer::Soaked { number, host } => deliver_soak(out, number, &host),
    }
}
