//! How the hosted ends are made anew.

ghost use Rattle.std.specs.Prelude.{◌≡◌, ◌≤◌, ◌+◌, ◌++◌, All, length, map, IfOk, IfSome, OnOk};
ghost use Rattle.std.specs.Option.{option_map};
ghost use Rattle.slave_desc.specs.Descriptions.{IsDesc, HasModel};
ghost use Rattle.scenario.specs.Sound.{IsScenario, HaveModels};
ghost use Rattle.master_core.specs.Standing.{core_setup};
ghost use Rattle.master_spec.specs.Setup.{setup_from};
ghost use Rattle.rounds.specs.Rounds.{places_of};
ghost use Rattle.host.specs.Hosting.{hosted_from, hosted_slaves, is_hosted, master_of, slave_rules, slaves_of};
ghost use Rattle.replays.specs.Visits.{IsNewEnd};

use crate::copies::copied_desc;
use config_plan::plan;
use dcp_ends::End;
use dcp_types::{Address, OutOfMemory};
use host::Hosted;
use master_core::MasterCore;
use scenario::Scenario;
use slave_desc::SlaveDesc;
use slave_device::{SlaveEnd, new_slave};
use std::alloc::Global;

/// Whether the slave of this number, 1 to 16, is hosted.
fn is_hosted(hosted: Hosted, slave: u8) -> bool
    requires { (1 ≤ slave) × (slave ≤ 16) }
    ensures { result ≡ is_hosted hosted slave }
{
    (hosted.slaves >> (slave - 1)) % 2 == 1
}

/// A slave of this description.
fn slave_of(alloc: Global, scenario: &Scenario, desc: &SlaveDesc) -> Result<SlaveEnd, OutOfMemory>
    requires desc { IsDesc desc.now }
    requires model { HasModel desc.now }
    requires micro { (1 ≤ scenario.now.micro) × (scenario.now.micro ≤ 1000) }
    ensures rules { IfOk result (λ end. ⟦<SlaveEnd as End>⟧.rules end ≡ slave_rules scenario.now desc.now) }
    ensures fresh { IfOk result (λ end. IsNewEnd ⟦<SlaveEnd as End>⟧ end) }
{
    let copy = copied_desc(alloc, desc)?;
    let end = new_slave(alloc, copy, scenario.micro)?;
    Ok(end)
}

/// Makes the hosted ones of these slaves, which are numbered from this number on, behind those that are
/// made.
fn add_slaves(
    alloc: Global,
    scenario: &Scenario,
    hosted: Hosted,
    slave: u8,
    descs: &[SlaveDesc],
    ends: &mut Vec<SlaveEnd>,
) -> Result<(), OutOfMemory>
    requires micro { (1 ≤ scenario.now.micro) × (scenario.now.micro ≤ 1000) }
    requires descs { All (λ d. IsDesc d) descs.now }
    requires models { HaveModels (hosted_from hosted slave descs.now) }
    requires number { (1 ≤ slave) × (slave + length descs.now ≤ 17) }
    ensures rules { OnOk result (map ⟦<SlaveEnd as End>⟧.rules ends.new.items
        ≡ map ⟦<SlaveEnd as End>⟧.rules ends.old.items ++ map (slave_rules scenario.now) (hosted_from hosted slave descs.now)) }
    ensures fresh { All (IsNewEnd ⟦<SlaveEnd as End>⟧) ends.old.items → OnOk result (All (IsNewEnd ⟦<SlaveEnd as End>⟧) ends.new.items) }
{
    let [desc, rest @ ..] = descs else {
        return Ok(());
    };
    if is_hosted(hosted, slave) {
        ends.push(slave_of(alloc, scenario, desc)?)?;
    }
    add_slaves(alloc, scenario, hosted, slave + 1, rest, ends)?;
    Ok(())
}

/// The hosted slaves, in order: each has a model here.
pub(crate) fn new_slaves(
    alloc: Global,
    scenario: &Scenario,
    hosted: Hosted,
) -> Result<Vec<SlaveEnd>, OutOfMemory>
    requires scenario { IsScenario scenario.now }
    requires models { HaveModels (hosted_slaves scenario.now hosted) }
    ensures rules { IfOk result (λ ends. map ⟦<SlaveEnd as End>⟧.rules ends.items ≡ slaves_of scenario.now hosted) }
    ensures fresh { IfOk result (λ ends. All (IsNewEnd ⟦<SlaveEnd as End>⟧) ends.items) }
{
    let mut ends = Vec::new(alloc);
    let descs = scenario.slaves.as_slice();
    add_slaves(alloc, scenario, hosted, 1, descs, &mut ends)?;
    Ok(ends)
}

/// The master, where it is hosted.
pub(crate) fn new_master(
    alloc: Global,
    scenario: &Scenario,
    hosted: Hosted,
) -> Result<Option<MasterCore>, OutOfMemory>
    requires { IsScenario scenario.now }
    ensures rules { IfOk result (λ master. option_map ⟦<MasterCore as End>⟧.rules master ≡ master_of scenario.now hosted) }
    ensures made { IfOk result (λ master. IfSome master (λ m. core_setup m ≡ setup_from scenario.now)) }
    ensures fresh { IfOk result (λ master. IfSome master (λ m. IsNewEnd ⟦<MasterCore as End>⟧ m)) }
{
    if !hosted.master {
        return Ok(None);
    }
    let plan = plan(alloc, scenario)?;
    let master = MasterCore::new(alloc, scenario, &plan)?;
    Ok(Some(master))
}

/// Where these ends are found.
pub(crate) fn places_of<E: End>(alloc: Global, ends: &[E]) -> Result<Vec<Address>, OutOfMemory>
    ensures { IfOk result (λ places. places.items ≡ places_of (map E.rules ends.now)) }
{
    let mut places = Vec::new(alloc);
    for end in ends {
        places.push(end.address())?;
    }
    Ok(places)
}
