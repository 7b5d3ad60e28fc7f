//! A host of all ends of a scenario and its rounds.

ghost use Rattle.std.specs.Prelude.{◌≡◌, [], None, Err, IsTrue, IfOk, IfSome, OnErr, OnOk};
ghost use Rattle.scenario.specs.Sound.{IsScenario, HaveModels};
ghost use Rattle.rounds.specs.Rounds.{IsRound, IsRoundPart};
ghost use Rattle.rounds.specs.Steps.{AddsPart, Caused};
ghost use Rattle.host.specs.Hosting.{all_ends, hosted_slaves, opening_of};
ghost use Rattle.host.specs.Views.{fault_of, is_done, master_in, progress_of, slaves_in, Tells};
ghost use Rattle.host_laws.specs.Lockstep.{HostsAll, IsInRounds, HostKeepsInStep};
ghost use Rattle.host_laws.specs.Reports.{HostFailsForReason, HostIsComplete};

use dcp_net::Net;
use dcp_types::OutOfMemory;
use host::{ALL_ENDS, Host, HostFault, Progress};
use scenario::Scenario;
use std::alloc::Global;

/// A host of the master and all slaves of a scenario, which have models here; nothing has happened to it. It takes
/// the memory of the ends.
pub fn host_of_all(alloc: Global, scenario: Scenario) -> Result<Host, OutOfMemory>
    requires scenario { IsScenario scenario }
    requires models { HaveModels (hosted_slaves scenario all_ends) }
    ensures host { IfOk result (λ host. host ≡ record { scenario = scenario; hosted = all_ends; log = []; fault = None }) }
    ensures all { IfOk result (λ host. HostsAll host) }
    ensures in_rounds { IfOk result (λ host. IsInRounds host) }
{
    Host::new(alloc, scenario, ALL_ENDS)
}

/// Opens the network for a host of all ends, before the first round.
pub fn begin<N: Net>(host: &mut Host, net: &mut N) -> Result<(), HostFault>
    requires all { HostsAll host.old }
    requires in_rounds { IsInRounds host.old }
    requires first { host.old.fault ≡ None → host.old.log ≡ [] }
    ensures kept { IfSome host.old.fault (λ fault. (result ≡ Err fault) × (host.new ≡ host.old) × (net.new ≡ net.old)) }
    ensures setup { (host.new.scenario ≡ host.old.scenario) × (host.new.hosted ≡ host.old.hosted) }
    ensures log { host.new.log ≡ host.old.log }
    ensures is_open { OnOk result (IsTrue (N.is_open net.new)) }
    ensures told { OnOk result (Tells (N.calls net.new) host.new.log) }
    ensures opening { OnOk result (IfSome (N.opening net.new) (λ opening. opening ≡ opening_of host.old.scenario host.old.hosted)) }
    ensures fault { host.new.fault ≡ fault_of result }
    ensures cause { host.old.fault ≡ None → Caused (N.count net.old) (N.count net.new) result }
    ensures all { HostsAll host.new }
    ensures in_rounds { IsInRounds host.new }
{
    host.begin(net)
}

/// Runs one round of a host of all ends. The log has what was done also where the round was stopped, and keeps to
/// the reference of the scenario. Where no fault stopped it, a failure that the master then reports has its reason in
/// the log, and where nothing was lost or late, the report is what the reference gives.
pub fn round<N: Net>(host: &mut Host, net: &mut N) -> Result<Progress, HostFault>
    requires all { HostsAll host.old }
    requires in_rounds { IsInRounds host.old }
    requires is_open { host.old.fault ≡ None → IsTrue (N.is_open net.old) }
    ensures kept { IfSome host.old.fault (λ fault. (result ≡ Err fault) × (host.new ≡ host.old) × (net.new ≡ net.old)) }
    ensures setup { (host.new.scenario ≡ host.old.scenario) × (host.new.hosted ≡ host.old.hosted) }
    ensures is_open { host.old.fault ≡ None → IsTrue (N.is_open net.new) }
    ensures opening { N.opening net.new ≡ N.opening net.old }
    ensures ok { host.old.fault ≡ None → OnOk result (AddsPart N.calls (IsRound (master_in host.old) (slaves_in host.old) host.old.log) net.old net.new host.old.log host.new.log) }
    ensures err { host.old.fault ≡ None → OnErr result (AddsPart N.calls (IsRoundPart (master_in host.old) (slaves_in host.old) host.old.log) net.old net.new host.old.log host.new.log) }
    ensures progress { IfOk result (λ progress. progress ≡ progress_of (is_done (master_in host.old) (slaves_in host.old) host.new.log)) }
    ensures told { Tells (N.calls net.old) host.old.log → Tells (N.calls net.new) host.new.log }
    ensures fault { host.new.fault ≡ fault_of result }
    ensures cause { host.old.fault ≡ None → Caused (N.count net.old) (N.count net.new) result }
    ensures all { HostsAll host.new }
    ensures in_rounds { IsInRounds host.new }
    ensures in_step { HostKeepsInStep host.new }
    ensures reasons { HostFailsForReason host.new }
    ensures complete { HostIsComplete host.new }
{
    let result = host.round(net);
    keeps_in_step(host);
    reports_for_reason(host);
    result
}

/// At every moment of its log a host of all ends keeps to the reference of its scenario, also where a fault of the
/// network or want of memory stopped it.
pub fn keeps_in_step(host: &Host)
    requires all { HostsAll host.now }
    requires in_rounds { IsInRounds host.now }
    ensures { HostKeepsInStep host.now }
{
    let _log = host.log();
}

/// What a host of all ends has reported without a fault has its reason: a failure in the log, and where nothing was
/// lost or late, in the reference of its scenario.
pub fn reports_for_reason(host: &Host)
    requires all { HostsAll host.now }
    requires in_rounds { IsInRounds host.now }
    ensures reasons { HostFailsForReason host.now }
    ensures complete { HostIsComplete host.now }
{
    let _log = host.log();
}
