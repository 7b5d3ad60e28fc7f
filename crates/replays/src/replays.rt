//! A trace gone through again.

ghost use Rattle.std.specs.Prelude.{◌≡◌, IfOk};
ghost use Rattle.scenario.specs.Sound.{IsScenario, HaveModels};
ghost use Rattle.host.specs.Hosting.{hosted_slaves};
ghost use Rattle.replays.specs.Replays.{Answers, IsReplayed, replay_fault};

use crate::faults::ReplayFault;
use crate::going::go_through;
use crate::making::{new_master, new_slaves, places_of};
use crate::stops::Stop;
use dcp_record::Entries;
use host::Hosted;
use master_core::{MasterCore, Report};
use scenario::Scenario;
use std::alloc::Global;

/// What a trace shows that goes to a report.
#[derive(Debug, Drop)]
pub struct Replayed {
    /// The master at the end of the trace: it has the rows, and the report.
    pub master: MasterCore,
    pub report: Report,
}

/// What is answered where going through so many entries stops here.
fn fault_of(stop: Stop, entries: usize) -> ReplayFault
    ensures { result ≡ replay_fault stop entries }
{
    match stop {
        Stop::Differs { at } => ReplayFault::Differs { at: at as u64 },
        Stop::Unended => ReplayFault::Unended {
            entries: entries as u64,
        },
    }
}

/// Makes the hosted ends of a scenario anew, gives them the Gots and Turns of a trace, and compares what
/// they then send with its Sents. The answer is the master with its report, or where the trace differs or
/// breaks off. Each hosted slave has a model here. Where no master is hosted there is no report, so a trace that does not differ breaks off.
/// Only making the ends takes memory.
pub fn replay(
    alloc: Global,
    scenario: &Scenario,
    hosted: Hosted,
    entries: &Entries<'_>,
) -> Result<Replayed, ReplayFault>
    requires scenario { IsScenario scenario.now }
    requires models { HaveModels (hosted_slaves scenario.now hosted) }
    ensures answers { Answers scenario.now hosted entries.now result }
    ensures replayed { IfOk result (λ replayed. IsReplayed scenario.now entries.now replayed) }
{
    let mut master = new_master(alloc, scenario, hosted)?;
    let mut slaves = new_slaves(alloc, scenario, hosted)?;
    let places = places_of(alloc, &slaves)?;
    if let Err(stop) = go_through(&mut master, &mut slaves, &places, entries) {
        return Err(fault_of(stop, entries.len()));
    }
    let Some(master) = master else {
        unreachable!();
    };
    let Some(report) = master.report() else {
        unreachable!();
    };
    Ok(Replayed { master, report })
}
