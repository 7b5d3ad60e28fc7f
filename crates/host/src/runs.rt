//! A run, round by round.

ghost use Rattle.std.specs.Prelude.{◌≡◌, IsTrue, OnOk, OnErr, IfOk, IfErr, IfSome};
ghost use Rattle.scenario.specs.Sound.{IsScenario, HaveModels};
ghost use Rattle.rounds.specs.Steps.{Caused};
ghost use Rattle.host.specs.Hosting.{all_ends, hosted_slaves, opening_of};
ghost use Rattle.host.specs.Views.{fault_of, Tells};
ghost use Rattle.host.specs.Runs.{IsBegun, IsWhole, IsCutShort, StopsAt};

use crate::{ALL_ENDS, Host, HostFault, Progress};
use dcp_net::Net;
use scenario::Scenario;
use std::alloc::Global;

/// Why a run did not come to its report.
#[derive(Drop)]
pub enum Stopped {
    /// The ends wanted memory, and nothing was done.
    Unmade,
    /// The host holds the fault, and the log of what was done.
    Faulted(Host),
}

/// Runs rounds until the master has its report.
fn run_on<N: Net>(host: &mut Host, net: &mut N) -> Result<(), HostFault>
    requires sound { IsScenario host.old.scenario }
    requires begun { IsBegun host.old }
    requires is_open { IsTrue (N.is_open net.old) }
    ensures same { (host.new.scenario ≡ host.old.scenario) × (host.new.hosted ≡ host.old.hosted) }
    ensures ok { OnOk result (IsWhole host.new) }
    ensures err { OnErr result (IsCutShort host.new) }
    ensures fault { host.new.fault ≡ fault_of result }
    ensures told { Tells (N.calls net.old) host.old.log → Tells (N.calls net.new) host.new.log }
    ensures opening { N.opening net.new ≡ N.opening net.old }
    ensures cause { Caused (N.count net.old) (N.count net.new) result }
{
    'rounds: loop {
        match host.round(net)? {
            Progress::Going => {}
            Progress::Done => return Ok(()),
        }
    }
}

/// Runs all ends of a scenario over this network until the master has its report. The host that is
/// answered has the log, the rows and the report.
pub fn run_scenario<N: Net>(alloc: Global, scenario: Scenario, net: &mut N) -> Result<Host, Stopped>
    requires scenario { IsScenario scenario }
    requires models { HaveModels (hosted_slaves scenario all_ends) }
    ensures setup { IfOk result (λ host. (host.scenario ≡ scenario) × (host.hosted ≡ all_ends)) }
    ensures whole { IfOk result (λ host. IsWhole host) }
    ensures told { IfOk result (λ host. Tells (N.calls net.new) host.log) }
    ensures opening { IfOk result (λ host. IfSome (N.opening net.new) (λ opening. opening ≡ opening_of scenario all_ends)) }
    ensures still { IfOk result (λ host. N.count net.new ≡ N.count net.old) }
    ensures stopped { IfErr result (StopsAt scenario (N.count net.old) (N.count net.new)) }
{
    let Ok(mut host) = Host::new(alloc, scenario, ALL_ENDS) else {
        return Err(Stopped::Unmade);
    };
    if let Err(_fault) = host.begin(net) {
        return Err(Stopped::Faulted(host));
    }
    match run_on(&mut host, net) {
        Ok(()) => Ok(host),
        Err(_fault) => Err(Stopped::Faulted(host)),
    }
}
