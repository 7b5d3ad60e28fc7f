//! A host: the hosted ends of one scenario, their rounds, their log, and the fault that stopped them.

ghost use Rattle.std.specs.Prelude.{◌≡◌, ◌+◌, [], ℕ, None, Err, IsTrue, OnOk, OnErr, IfOk, IfSome};
ghost use Rattle.scenario.specs.Sound.{IsScenario, HaveModels};
ghost use Rattle.rounds.specs.Rounds.{IsRound, IsRoundPart, Rounds};
ghost use Rattle.rounds.specs.Steps.{AddsPart, Caused};
ghost use Rattle.host.specs.Hosting.{hosted_slaves, opening_of};
ghost use Rattle.host.specs.Views.{fault_of, is_done, master_in, progress_of, slaves_in, Tells};

use crate::hosted::{Hosted, Progress};
use crate::making::{MasterSeat, SlaveSeat, seated_master, seated_slaves};
use crate::openings::opening_for;
use crate::running::run;
use dcp_net::{Done, Net, Opening};
use dcp_record::RunLog;
use dcp_types::OutOfMemory;
use rounds::{HostFault, Room, Seat};
use scenario::Scenario;
use std::alloc::Global;
use std::marker::Model;

/// The hosted ends of a scenario as tasks, which run in rounds over a network. `begin` opens the network,
/// and each `round` looks at each hosted end for its datagrams and then gives each its turn, the master
/// first and the slaves in order. A host that answered a fault answers it again from then on, and calls
/// nothing.
///
/// Contracts see the scenario, which ends are hosted, the log, and the fault.
#[derive(Drop)]
pub struct Host {
    pub(crate) scenario: Scenario,
    pub(crate) hosted: Hosted,
    /// What the network is opened with.
    pub(crate) opening: Opening,
    pub(crate) master: Option<MasterSeat>,
    /// The hosted ones in order.
    pub(crate) slaves: Vec<SlaveSeat>,
    pub(crate) log: RunLog,
    pub(crate) room: Room,
    pub(crate) fault: Option<HostFault>,
}

impl Model for Host {
    ghost use Rattle.std.specs.Prelude.{◌≡◌};
    ghost use Rattle.host.specs.Hosting.{master_of, slaves_of, master_setup_of, slave_setups_of, opening_of};
    ghost use Rattle.host.specs.Views.{HostView};
    ghost use Rattle.host.specs.Hosts.{AreSound};

    ghost Value = { HostView };

    ghost view = { λ h. record { scenario = h.scenario; hosted = h.hosted; log = h.log.entries; fault = h.fault } };

    ghost invariant = { λ h. (h.opening ≡ opening_of h.scenario h.hosted)
        × AreSound ⟦<MasterSeat as Seat>⟧ ⟦<SlaveSeat as Seat>⟧
        (master_of h.scenario h.hosted) (slaves_of h.scenario h.hosted) (master_setup_of h.scenario h.hosted) (slave_setups_of h.scenario h.hosted) h.master h.slaves.items h.log.entries h.fault };
}

impl Host {
    /// A host of these ends of a scenario, to which nothing has happened. It takes the memory of the
    /// ends.
    pub fn new(alloc: Global, scenario: Scenario, hosted: Hosted) -> Result<Host, OutOfMemory>
        requires scenario { IsScenario scenario }
        requires models { HaveModels (hosted_slaves scenario hosted) }
        ensures { IfOk result (λ host. host ≡ record { scenario = scenario; hosted = hosted; log = []; fault = None }) }
    {
        let master = seated_master(alloc, &scenario, hosted)?;
        let slaves = seated_slaves(alloc, &scenario, hosted)?;
        let opening = opening_for(alloc, &scenario, hosted)?;
        Ok(Host {
            scenario,
            hosted,
            opening,
            master,
            slaves,
            log: RunLog::new(alloc),
            room: Room::new(),
            fault: None,
        })
    }

    /// Opens the network for the hosted ends, before the first round.
    pub fn begin<N: Net>(&mut self, net: &mut N) -> Result<(), HostFault>
        requires { self.old.fault ≡ None → self.old.log ≡ [] }
        ensures kept { IfSome self.old.fault (λ fault. (result ≡ Err fault) × (self.new ≡ self.old) × (net.new ≡ net.old)) }
        ensures setup { (self.new.scenario ≡ self.old.scenario) × (self.new.hosted ≡ self.old.hosted) }
        ensures log { self.new.log ≡ self.old.log }
        ensures is_open { OnOk result (IsTrue (N.is_open net.new)) }
        ensures told { OnOk result (Tells (N.calls net.new) self.new.log) }
        ensures opening { OnOk result (IfSome (N.opening net.new) (λ opening. opening ≡ opening_of self.old.scenario self.old.hosted)) }
        ensures fault { self.new.fault ≡ fault_of result }
        ensures cause { self.old.fault ≡ None → Caused (N.count net.old) (N.count net.new) result }
    {
        if self.fault.is_none() {
            self.fault = open(&self.opening, net).err();
        }
        match self.fault {
            Some(fault) => Err(fault),
            None => Ok(()),
        }
    }

    /// Runs one round of the hosted ends. The log has what was done also where the round was stopped.
    pub fn round<N: Net>(&mut self, net: &mut N) -> Result<Progress, HostFault>
        requires { self.old.fault ≡ None → IsTrue (N.is_open net.old) }
        ensures kept { IfSome self.old.fault (λ fault. (result ≡ Err fault) × (self.new ≡ self.old) × (net.new ≡ net.old)) }
        ensures setup { (self.new.scenario ≡ self.old.scenario) × (self.new.hosted ≡ self.old.hosted) }
        ensures is_open { self.old.fault ≡ None → IsTrue (N.is_open net.new) }
        ensures opening { N.opening net.new ≡ N.opening net.old }
        ensures ok { self.old.fault ≡ None → OnOk result (AddsPart N.calls (IsRound (master_in self.old) (slaves_in self.old) self.old.log) net.old net.new self.old.log self.new.log) }
        ensures err { self.old.fault ≡ None → OnErr result (AddsPart N.calls (IsRoundPart (master_in self.old) (slaves_in self.old) self.old.log) net.old net.new self.old.log self.new.log) }
        ensures progress { IfOk result (λ progress. progress ≡ progress_of (is_done (master_in self.old) (slaves_in self.old) self.new.log)) }
        ensures told { Tells (N.calls net.old) self.old.log → Tells (N.calls net.new) self.new.log }
        ensures rounds { (n : ℕ) → Rounds (master_in self.old) (slaves_in self.old) n self.old.log → OnOk result (Rounds (master_in self.old) (slaves_in self.old) (n + 1) self.new.log) }
        ensures fault { self.new.fault ≡ fault_of result }
        ensures cause { self.old.fault ≡ None → Caused (N.count net.old) (N.count net.new) result }
    {
        if let Some(fault) = self.fault {
            return Err(fault);
        }
        let result = run(
            &mut self.master,
            &mut self.slaves,
            net,
            &mut self.log,
            &mut self.room,
        );
        self.fault = result.err();
        result
    }
}

/// Opens the network.
fn open<N: Net>(opening: &Opening, net: &mut N) -> Result<(), HostFault>
    ensures is_open { OnOk result (IsTrue (N.is_open net.new)) }
    ensures told { OnOk result (Tells (N.calls net.new) []) }
    ensures opening { OnOk result (IfSome (N.opening net.new) (λ o. o ≡ opening.now)) }
    ensures cause { Caused (N.count net.old) (N.count net.new) result }
{
    match net.begin(opening) {
        Done::Ok => Ok(()),
        Done::Failed => Err(HostFault::Net {
            count: net.faults(),
        }),
        Done::OutOfMemory => Err(HostFault::OutOfMemory),
    }
}
