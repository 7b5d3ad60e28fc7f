//! How the hosted ends are made.

ghost use Rattle.std.specs.Prelude.{◌≡◌, ◌≤◌, ◌+◌, ◌++◌, List, Some, None, if◌then◌else◌, All, length, map, IfOk, OnOk};
ghost use Rattle.std.specs.List.{AllZip};
ghost use Rattle.slave_desc.specs.Descriptions.{IsDesc, HasModel};
ghost use Rattle.scenario.specs.Sound.{IsScenario, HaveModels};
ghost use Rattle.slave_spec.specs.declared.words.SlaveSetup.{SlaveSetup};
ghost use Rattle.host.specs.Hosting.{hosted_from, hosted_slaves};
ghost use Rattle.host.specs.Seats.{IsFresh, IsFirstFresh, Making, master_making, slave_making};

use crate::copies::copied_desc;
use crate::hosted::Hosted;
use crate::seated::Seated;
use config_plan::plan;
use dcp_types::OutOfMemory;
use master_core::MasterCore;
use rounds::Seat;
use scenario::Scenario;
use slave_desc::SlaveDesc;
use slave_device::{SlaveEnd, new_slave};
use std::alloc::Global;

/// The seat of the master.
pub(crate) type MasterSeat = Seated<MasterCore>;

/// The seat of a slave.
pub(crate) type SlaveSeat = Seated<SlaveEnd>;

/// A slave of this description in its seat.
fn seated_slave(
    alloc: Global,
    scenario: &Scenario,
    desc: &SlaveDesc,
) -> Result<SlaveSeat, OutOfMemory>
    requires desc { IsDesc desc.now }
    requires model { HasModel desc.now }
    requires micro { (1 ≤ scenario.now.micro) × (scenario.now.micro ≤ 1000) }
    ensures { IfOk result (λ seat. IsFresh ⟦<SlaveSeat as Seat>⟧ seat (slave_making scenario.now desc.now)) }
{
    let end = new_slave(alloc, copied_desc(alloc, desc)?, scenario.micro)?;
    Seated::new(alloc, end)
}

/// Seats the hosted ones of these slaves, which are numbered from this number on, behind those that are
/// seated.
fn seat_hosted(
    alloc: Global,
    scenario: &Scenario,
    hosted: Hosted,
    slave: u8,
    descs: &[SlaveDesc],
    seats: &mut Vec<SlaveSeat>,
) -> Result<(), OutOfMemory>
    requires micro { (1 ≤ scenario.now.micro) × (scenario.now.micro ≤ 1000) }
    requires descs { All (λ d. IsDesc d) descs.now }
    requires models { HaveModels (hosted_from hosted slave descs.now) }
    requires number { (1 ≤ slave) × (slave + length descs.now ≤ 17) }
    ensures { OnOk result ((all : List (Making SlaveSetup)) → AllZip (IsFresh ⟦<SlaveSeat as Seat>⟧) seats.old.items all
        → AllZip (IsFresh ⟦<SlaveSeat as Seat>⟧) seats.new.items (all ++ map (slave_making scenario.now) (hosted_from hosted slave descs.now))) }
{
    let [desc, rest @ ..] = descs else {
        return Ok(());
    };
    if hosted.has(slave) {
        seats.push(seated_slave(alloc, scenario, desc)?)?;
    }
    seat_hosted(alloc, scenario, hosted, slave + 1, rest, seats)?;
    Ok(())
}

/// The hosted slaves in their seats, in order: each has a model here.
pub(crate) fn seated_slaves(
    alloc: Global,
    scenario: &Scenario,
    hosted: Hosted,
) -> Result<Vec<SlaveSeat>, OutOfMemory>
    requires scenario { IsScenario scenario.now }
    requires models { HaveModels (hosted_slaves scenario.now hosted) }
    ensures { IfOk result (λ seats. AllZip (IsFresh ⟦<SlaveSeat as Seat>⟧) seats.items (map (slave_making scenario.now) (hosted_slaves scenario.now hosted))) }
{
    let mut seats = Vec::new(alloc);
    let descs = scenario.slaves.as_slice();
    seat_hosted(alloc, scenario, hosted, 1, descs, &mut seats)?;
    Ok(seats)
}

/// The master in its seat, where it is hosted.
pub(crate) fn seated_master(
    alloc: Global,
    scenario: &Scenario,
    hosted: Hosted,
) -> Result<Option<MasterSeat>, OutOfMemory>
    requires { IsScenario scenario.now }
    ensures { IfOk result (λ seat. IsFirstFresh (IsFresh ⟦<MasterSeat as Seat>⟧) seat (if hosted.master then Some (master_making scenario.now) else None)) }
{
    if !hosted.master {
        return Ok(None);
    }
    let plan = plan(alloc, scenario)?;
    let end = MasterCore::new(alloc, scenario, &plan)?;
    Ok(Some(Seated::new(alloc, end)?))
}
