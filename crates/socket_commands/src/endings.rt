//! What ends came to that have run until they were done.

ghost use Rattle.std.specs.Prelude.{◌≡◌, ◌≢◌, ◌≤◌, None, Some, true, is_some, IfOk};
ghost use Rattle.commands.specs.SaysRun.{report_after};
ghost use Rattle.commands.specs.Statuses.{judgement_of_report};
ghost use Rattle.host.specs.Views.{is_done, master_in, slaves_in};
ghost use Rattle.scenario.specs.Lookups.{slave_at};
ghost use Rattle.socket_commands.specs.Answers.{HasMaster, IsRunEnded};
ghost use Rattle.socket_commands.specs.Parts.{HasSlave, IsPart, hosted_of};
ghost use Rattle.socket_commands.specs.Says.{LinesOf, judgement_of_fault};

use crate::answers::{Ending, Run};
use crate::lines::slave_line;
use crate::parts::Part;
use commands::Judgement;
use dcp_types::{FaultCode, OutOfMemory};
use host::Host;
use master_spec::Report;
use scenario::slave_at;
use std::alloc::Global;

/// The line of a slave, and what it makes of the run.
#[derive(Drop)]
struct SlaveSaid {
    judgement: Judgement,
    line: Vec<u8>,
}

/// What a report makes of a run.
fn judgement_of(report: Report) -> Judgement
    ensures { result ≡ judgement_of_report report }
{
    match report {
        Report::Finished { .. } => Judgement::Good,
        Report::Failed { .. } => Judgement::Failed,
    }
}

/// What the fault of a slave makes of its run.
fn judgement_of_slave(fault: Option<FaultCode>) -> Judgement
    ensures { result ≡ judgement_of_fault fault }
{
    match fault {
        None => Judgement::Good,
        Some(_) => Judgement::Failed,
    }
}

/// The line of a hosted slave.
fn said_of_slave(alloc: Global, host: &Host, slave: u8) -> Result<SlaveSaid, OutOfMemory>
    requires number { (1 ≤ slave) × (slave ≤ 16) }
    requires hosted { host.now.hosted ≡ hosted_of (Part.Slave slave) }
    requires there { is_some (slave_at host.now.scenario.slaves slave) ≡ true }
    ensures { IfOk result (λ said. LinesOf host.now slave said.judgement said.line.items) }
{
    let Some(desc) = slave_at(host.scenario().slaves.as_slice(), slave) else {
        unreachable!()
    };
    let Some(steps) = host.slave_steps(slave) else {
        unreachable!()
    };
    let Some(state) = host.slave_state(slave) else {
        unreachable!()
    };
    let fault = host.slave_fault(slave);
    let line = slave_line(alloc, desc.name.as_str(), steps, state, fault)?;
    Ok(SlaveSaid {
        judgement: judgement_of_slave(fault),
        line,
    })
}

/// The run of a hosted slave that is over.
fn slave_run(alloc: Global, slave: u8, host: Host) -> Result<Run, OutOfMemory>
    requires number { (1 ≤ slave) × (slave ≤ 16) }
    requires hosted { host.hosted ≡ hosted_of (Part.Slave slave) }
    requires there { is_some (slave_at host.scenario.slaves slave) ≡ true }
    ensures same { IfOk result (λ run. (run.part ≡ Part.Slave slave) × (run.host ≡ host)) }
    ensures ended { IfOk result IsRunEnded }
    ensures master { IfOk result (λ run. HasMaster run.host run.ending) }
{
    let said = said_of_slave(alloc, &host, slave)?;
    Ok(Run {
        part: Part::Slave(slave),
        host,
        judgement: said.judgement,
        ending: Ending::Line(said.line),
    })
}

/// The report of a hosted master that has it.
fn report_of(host: &Host) -> Report
    requires hosted { host.now.hosted.master ≡ true }
    requires reported { report_after host.now ≢ None }
    ensures { report_after host.now ≡ Some result }
{
    let Some(report) = host.report() else {
        unreachable!()
    };
    report
}

/// What the ends of a host came to that are done.
pub fn ended(alloc: Global, part: Part, host: Host) -> Result<Run, OutOfMemory>
    requires part { IsPart part }
    requires hosted { host.hosted ≡ hosted_of part }
    requires there { HasSlave host.scenario part }
    requires done { is_done (master_in host) (slaves_in host) host.log ≡ true }
    ensures same { IfOk result (λ run. (run.part ≡ part) × (run.host ≡ host)) }
    ensures ended { IfOk result IsRunEnded }
    ensures master { IfOk result (λ run. HasMaster run.host run.ending) }
{
    if let Part::Slave(slave) = part {
        return slave_run(alloc, slave, host);
    }
    let report = report_of(&host);
    Ok(Run {
        part,
        host,
        judgement: judgement_of(report),
        ending: Ending::Report(report),
    })
}
