//! Hosted ends that run in rounds, with a wait before each.

ghost use Rattle.std.specs.Prelude.{◌≡◌, ◌≤◌, ◌<◌, ◌+◌, ◌^◌, [], ℕ, None, IsTrue, IfOk, IfErr, IfSome, OnOk, if◌then◌else◌};
ghost use Rattle.scenario.specs.Sound.{HaveModels, IsLimits, IsScenario};
ghost use Rattle.host.specs.Hosting.{hosted_slaves, opening_of};
ghost use Rattle.host.specs.Views.{Tells, master_in, slaves_in};
ghost use Rattle.socket_commands.specs.Lives.{CauseOf, HasRun, RestingRounds, is_done_by, live_fault, stays};
ghost use Rattle.socket_commands.specs.Parts.{IsPart, hosted_of};

use crate::parts::Part;
use dcp_net::{Net, Ready, Waited};
use dcp_types::{Limits, OutOfMemory};
use host::{Host, HostFault, Progress};
use scenario::Scenario;
use std::alloc::Global;
use std::sync::Wait;

/// Why the ends did not come to their end.
#[derive(Clone, Copy, Debug, PartialEq, Eq)]
pub enum LiveFault {
    /// The network failed.
    Net,
    /// A wait failed.
    Wait,
    /// Memory was refused.
    OutOfMemory,
}

impl From<OutOfMemory> for LiveFault {
    ghost use Rattle.socket_commands.specs.declared.hosting.LiveFault.TheVariants as faults;

    ghost from_gives = { λ _ fault. fault ≡ faults.OutOfMemory };

    fn from(_error: OutOfMemory) -> LiveFault {
        LiveFault::OutOfMemory
    }
}

/// What the fault of a host is here.
fn fault_in(fault: HostFault) -> LiveFault
    ensures { result ≡ live_fault fault }
{
    match fault {
        HostFault::Net { count: _ } => LiveFault::Net,
        HostFault::OutOfMemory => LiveFault::OutOfMemory,
    }
}

/// How many rounds the ends stay at rest after the one in which they are done. A slave without its master stays as
/// long as the master, to which its last acknowledgement may not have come, can send the request again.
fn stays(part: Part, limits: Limits) -> u32
    requires { IsLimits limits }
    ensures { result ≡ stays part limits }
{
    match part {
        Part::All | Part::Master => 0,
        Part::Slave(_) => limits.tries * limits.turn_limit,
    }
}

/// How many rounds the ends have been at rest after one more, where they were so many before it.
fn rested_for(progress: Progress, is_quiet: bool, resting: u64) -> u64
    requires { resting < 2 ^ 32 }
    ensures { result ≡ (if is_done_by progress then (if is_quiet then resting + 1 else 1) else 0) }
{
    match progress {
        Progress::Going => 0,
        Progress::Done if is_quiet => resting + 1,
        Progress::Done => 1,
    }
}

/// Runs a round, and says how many rounds the ends have been at rest after it, where they were so many before it.
fn rest_on<N: Net>(host: &mut Host, net: &mut N, resting: u64) -> Result<u64, LiveFault>
    requires unfaulted { host.old.fault ≡ None }
    requires is_open { IsTrue (N.is_open net.old) }
    requires short { resting < 2 ^ 32 }
    ensures same { (host.new.scenario ≡ host.old.scenario) × (host.new.hosted ≡ host.old.hosted) }
    ensures unfaulted { OnOk result (host.new.fault ≡ None) }
    ensures is_open { IsTrue (N.is_open net.new) }
    ensures rounds { (most n : ℕ) → resting ≤ most → RestingRounds (master_in host.old) (slaves_in host.old) most n resting host.old.log
        → IfOk result (λ now. RestingRounds (master_in host.old) (slaves_in host.old) most (n + 1) now host.new.log) }
    ensures told { Tells (N.calls net.old) host.old.log → Tells (N.calls net.new) host.new.log }
    ensures opening { N.opening net.new ≡ N.opening net.old }
    ensures still { OnOk result (N.count net.new ≡ N.count net.old) }
    ensures cause { IfErr result (λ fault. (waits : ℕ) → CauseOf (N.count net.old) (N.count net.new) waits waits fault) }
{
    let before = host.log().gots();
    match host.round(net) {
        Ok(progress) => {
            let is_quiet = host.log().gots() == before;
            Ok(rested_for(progress, is_quiet, resting))
        }
        Err(fault) => Err(fault_in(fault)),
    }
}

/// Waits and runs a round, again and again, until the ends have been at rest for more than so many rounds.
fn run_live<W: Wait, N: Net, P: Ready>(
    rt: &W,
    host: &mut Host,
    most: u32,
    net: &mut N,
    ready: &mut P,
) -> Result<(), LiveFault>
    requires unfaulted { host.old.fault ≡ None }
    requires fresh { host.old.log ≡ [] }
    requires is_open { IsTrue (N.is_open net.old) }
    ensures same { (host.new.scenario ≡ host.old.scenario) × (host.new.hosted ≡ host.old.hosted) }
    ensures ok { OnOk result (HasRun (P.waits ready.old) (P.waits ready.new) most host.new) }
    ensures told { Tells (N.calls net.old) host.old.log → Tells (N.calls net.new) host.new.log }
    ensures opening { N.opening net.new ≡ N.opening net.old }
    ensures still { OnOk result ((N.count net.new ≡ N.count net.old) × (P.count ready.new ≡ P.count ready.old)) }
    ensures cause { IfErr result (CauseOf (N.count net.old) (N.count net.new) (P.count ready.old) (P.count ready.new)) }
{
    let mut resting = 0;
    'rounds: for _ in rt.forever() {
        if ready.wait() == Waited::Failed {
            return Err(LiveFault::Wait);
        }
        match rest_on(host, net, resting) {
            Ok(now) if now > u64::from(most) => return Ok(()),
            Ok(now) => resting = now,
            Err(fault) => return Err(fault),
        }
    }
    unreachable!()
}

/// Hosts these ends of the scenario over the network until they are done and have been at rest for as long as they stay.
pub(crate) fn host_part<W: Wait, N: Net, P: Ready>(
    rt: &W,
    alloc: Global,
    scenario: Scenario,
    part: Part,
    net: &mut N,
    ready: &mut P,
) -> Result<Host, LiveFault>
    requires scenario { IsScenario scenario }
    requires part { IsPart part }
    requires models { HaveModels (hosted_slaves scenario (hosted_of part)) }
    ensures setup { IfOk result (λ host. (host.scenario ≡ scenario) × (host.hosted ≡ hosted_of part)) }
    ensures run { IfOk result (λ host. HasRun (P.waits ready.old) (P.waits ready.new) (stays part scenario.limits) host) }
    ensures told { IfOk result (λ host. Tells (N.calls net.new) host.log) }
    ensures opening { IfOk result (λ host. IfSome (N.opening net.new) (λ opening. opening ≡ opening_of scenario (hosted_of part))) }
    ensures still { IfOk result (λ host. (N.count net.new ≡ N.count net.old) × (P.count ready.new ≡ P.count ready.old)) }
    ensures cause { IfErr result (CauseOf (N.count net.old) (N.count net.new) (P.count ready.old) (P.count ready.new)) }
{
    let most = stays(part, scenario.limits);
    let Ok(mut host) = Host::new(alloc, scenario, part.hosted()) else {
        return Err(LiveFault::OutOfMemory);
    };
    if let Err(fault) = host.begin(net) {
        return Err(fault_in(fault));
    }
    match run_live(rt, &mut host, most, net, ready) {
        Ok(()) => Ok(host),
        Err(fault) => Err(fault),
    }
}
