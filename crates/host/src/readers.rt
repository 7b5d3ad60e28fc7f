//! What is read of a host, at any time.

ghost use Rattle.std.specs.Prelude.{◌≡◌, Some, None, is_some, option_copied, slice_get, All, IfSome};
ghost use Rattle.dcp_ends.specs.Logs.{IsInRange, events_at};
ghost use Rattle.rounds.specs.Told.{Follows, FollowsUpTo};
ghost use Rattle.master_spec.specs.Setup.{setup_from};
ghost use Rattle.slave_spec.specs.Slaves.{state_after, steps_after, fault_after};
ghost use Rattle.host.specs.Hosting.{hosted_slave, hosted_slaves, slave_setup};
ghost use Rattle.host.specs.Seats.{IsFirstFound, IsFoundSeat, IsSeatPlace};
ghost use Rattle.host.specs.Views.{master_in, report_in, row_count_in, slave_in, slaves_in, row_value};

use crate::hosted::Hosted;
use crate::hosts::Host;
use crate::making::{MasterSeat, SlaveSeat};
use dcp_ends::End;
use dcp_record::RunLog;
use dcp_types::{FaultCode, State};
use master_core::{MasterCore, Report};
use rounds::{EndTask, HostFault, Seat};
use scenario::{Scenario, slave_at};
use slave_device::SlaveEnd;

/// The place of a hosted slave among those that are hosted, from 0.
fn place_of(scenario: &Scenario, hosted: Hosted, slave: u8) -> Option<usize>
    ensures { IsSeatPlace (hosted_slave scenario.now hosted slave) (hosted_slaves scenario.now hosted) result }
{
    let Some(_desc) = slave_at(scenario.slaves.as_slice(), slave) else {
        return None;
    };
    if hosted.has(slave) {
        Some(hosted.before(slave))
    } else {
        None
    }
}

/// The seat at a place, from 0.
fn seat_at(slaves: &[SlaveSeat], place: usize) -> Option<&SlaveSeat>
    ensures { option_copied result ≡ slice_get slaves.now place }
{
    slaves.get(place)
}

impl Host {
    /// The scenario.
    pub fn scenario(&self) -> &Scenario
        ensures { result.now ≡ self.now.scenario }
    {
        &self.scenario
    }

    /// Which ends are hosted.
    pub fn hosted(&self) -> Hosted
        ensures { result ≡ self.now.hosted }
    {
        self.hosted
    }

    /// The log: it has the sends of each hosted end after each of its events, all but those that a fault
    /// cut off.
    pub fn log(&self) -> &RunLog
        ensures log { result.now.entries ≡ self.now.log }
        ensures follows_master { self.now.fault ≡ None → IfSome (master_in self.now) (λ rules. Follows rules self.now.log) }
        ensures follows { self.now.fault ≡ None → All (λ rules. Follows rules self.now.log) (slaves_in self.now) }
        ensures cut_master { IfSome (master_in self.now) (λ rules. FollowsUpTo rules self.now.log) }
        ensures cut { All (λ rules. FollowsUpTo rules self.now.log) (slaves_in self.now) }
        ensures range { All IsInRange self.now.log }
    {
        &self.log
    }

    /// The fault that stopped the rounds, if one did.
    pub fn fault(&self) -> Option<HostFault>
        ensures { result ≡ self.now.fault }
    {
        self.fault
    }

    /// The seat of the master, where it is hosted.
    fn master_seat(&self) -> Option<&MasterSeat>
        ensures { IsFirstFound ⟦<MasterSeat as Seat>⟧.stands ⟦<MasterSeat as Seat>⟧.made self.now.scenario self.now.log self.now.hosted.master (option_copied result) }
    {
        self.master.as_ref()
    }

    /// How the run ended, once it has. None where no master is hosted.
    pub fn report(&self) -> Option<Report>
        ensures { result ≡ report_in self.now }
    {
        match self.master_seat() {
            Some(seat) => seat.end().report(),
            None => None,
        }
    }

    /// How many rows are whole. 0 where no master is hosted.
    pub fn rows(&self) -> u32
        ensures { result ≡ row_count_in self.now }
    {
        match self.master_seat() {
            Some(seat) => seat.end().rows(),
            None => 0,
        }
    }

    /// The value of a port in row k, which counts over all runs; slaves count from 1, ports from 0. None
    /// where there is no such row, slave or port, or no master is hosted.
    pub fn row(&self, k: u32, slave: u8, port: u8) -> Option<i128>
        ensures { result ≡ row_value self.now k slave port }
    {
        match self.master_seat() {
            Some(seat) => seat.end().row(k, slave, port),
            None => None,
        }
    }

    /// The task of the master, whose end stands for its events in the log. None where it is not hosted.
    pub fn master_task(&self) -> Option<&EndTask<MasterCore>>
        ensures hosted { is_some result ≡ self.now.hosted.master }
        ensures made { IfSome result (λ task. ⟦<MasterCore as End>⟧.made task.now.end ≡ setup_from self.now.scenario) }
        ensures stands { IfSome result (λ task. ⟦<MasterCore as End>⟧.stands task.now.end (events_at self.now.scenario.master self.now.log)) }
    {
        match self.master_seat() {
            Some(seat) => Some(seat.task()),
            None => None,
        }
    }

    /// The seat of a hosted slave.
    fn seat_of(&self, slave: u8) -> Option<&SlaveSeat>
        ensures { IsFoundSeat ⟦<SlaveSeat as Seat>⟧.stands ⟦<SlaveSeat as Seat>⟧.made self.now.scenario self.now.log (hosted_slave self.now.scenario self.now.hosted slave) (option_copied result) }
    {
        match place_of(&self.scenario, self.hosted, slave) {
            Some(place) => seat_at(&self.slaves, place),
            None => None,
        }
    }

    /// The task of a slave, whose end stands for its events in the log. None where it is not hosted.
    pub fn slave_task(&self, slave: u8) -> Option<&EndTask<SlaveEnd>>
        ensures hosted { is_some result ≡ is_some (hosted_slave self.now.scenario self.now.hosted slave) }
        ensures made { IfSome (hosted_slave self.now.scenario self.now.hosted slave) (λ d. IfSome result (λ task. ⟦<SlaveEnd as End>⟧.made task.now.end ≡ slave_setup self.now.scenario d)) }
        ensures stands { IfSome (hosted_slave self.now.scenario self.now.hosted slave) (λ d. IfSome result (λ task. ⟦<SlaveEnd as End>⟧.stands task.now.end (events_at d.address self.now.log))) }
    {
        match self.seat_of(slave) {
            Some(seat) => Some(seat.task()),
            None => None,
        }
    }

    /// The steps that a hosted slave has taken since the last reset.
    pub fn slave_steps(&self, slave: u8) -> Option<u32>
        ensures { result ≡ slave_in self.now slave (λ setup events. Some (steps_after setup events)) }
    {
        match self.seat_of(slave) {
            Some(seat) => Some(seat.end().steps_taken()),
            None => None,
        }
    }

    /// The state of a hosted slave.
    pub fn slave_state(&self, slave: u8) -> Option<State>
        ensures { result ≡ slave_in self.now slave (λ setup events. Some (state_after setup events)) }
    {
        match self.seat_of(slave) {
            Some(seat) => Some(seat.end().state()),
            None => None,
        }
    }

    /// The newest fault of a hosted slave. None where there was none, or it is not hosted.
    pub fn slave_fault(&self, slave: u8) -> Option<FaultCode>
        ensures { result ≡ slave_in self.now slave fault_after }
    {
        match self.seat_of(slave) {
            Some(seat) => seat.end().fault(),
            None => None,
        }
    }
}
