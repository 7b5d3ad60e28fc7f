//! The parts of a scenario that the master keeps.

ghost use Rattle.std.specs.Prelude.{◌≡◌, ◌≤◌, ◌-◌, IfOk, Some, length, map, slice_get, All};
ghost use Rattle.std.specs.List.{range_with_len};
ghost use Rattle.master_spec.specs.Plans.{plan_of};
ghost use Rattle.master_spec.specs.PlanSetup.{adjust_list};
ghost use Rattle.master_spec.specs.Setup as specs;
ghost use Rattle.scenario.specs.Sound.{IsScenario};
ghost use Rattle.master_core.specs.Talking.{IsFreshTalk, slave_talked_to};

use crate::records::Talk;
use config_plan::Plan;
use dcp_types::{DataType, Items, OutOfMemory};
use master_spec::{Script, Slave};
use pdu_layout::Cfg;
use scenario::Scenario;
use slave_desc::{Port, SlaveDesc};
use std::alloc::Global;

fn copy_list(alloc: Global, list: &[Cfg]) -> Result<Items<Cfg>, OutOfMemory>
    ensures { IfOk result (λ copy. copy ≡ list.now) }
{
    let mut copy = Items::new(alloc);
    for body in list {
        copy.push(*body)?;
    }
    Ok(copy)
}

fn types_of(alloc: Global, ports: &[Port]) -> Result<Items<DataType>, OutOfMemory>
    ensures { IfOk result (λ types. types ≡ map (λ p. p.kind) ports.now) }
{
    let mut types = Items::new(alloc);
    for port in ports {
        types.push(port.kind)?;
    }
    Ok(types)
}

fn adjusts_of(
    alloc: Global,
    scenario: &Scenario,
    plan: &Plan,
    id: u8,
) -> Result<Items<Items<Cfg>>, OutOfMemory>
    requires runs { 1 ≤ scenario.now.runs }
    requires plan { plan.now ≡ plan_of scenario.now }
    requires id { (1 ≤ id) × (id ≤ length scenario.now.slaves) }
    ensures { IfOk result (λ lists. lists ≡ map (λ r. adjust_list scenario.now r id) (range_with_len 1 (scenario.now.runs - 1))) }
{
    let mut lists = Items::new(alloc);
    for run in 1..scenario.runs {
        lists.push(copy_list(alloc, plan.adjust(run, id))?)?;
    }
    Ok(lists)
}

fn slave_of(
    alloc: Global,
    scenario: &Scenario,
    plan: &Plan,
    id: u8,
    desc: &SlaveDesc,
) -> Result<Slave, OutOfMemory>
    requires runs { 1 ≤ scenario.now.runs }
    requires plan { plan.now ≡ plan_of scenario.now }
    requires id { 1 ≤ id }
    requires desc { slice_get scenario.now.slaves (id - 1) ≡ Some desc.now }
    ensures { IfOk result (λ slave. slave ≡ specs.slave_of scenario.now id desc.now) }
{
    Ok(Slave {
        id,
        address: desc.address,
        types: types_of(alloc, desc.outputs.as_slice())?,
        script: Script {
            uuid: desc.uuid,
            setup: copy_list(alloc, plan.setup(id))?,
            adjusts: adjusts_of(alloc, scenario, plan, id)?,
        },
    })
}

/// A conversation with each slave, in order. The plan is the scenario's.
pub(crate) fn talks_of(
    alloc: Global,
    scenario: &Scenario,
    plan: &Plan,
) -> Result<Vec<Talk>, OutOfMemory>
    requires sound { IsScenario scenario.now }
    requires plan { plan.now ≡ plan_of scenario.now }
    ensures slaves { IfOk result (λ talks. map slave_talked_to talks.items ≡ specs.slaves_from scenario.now 1 scenario.now.slaves) }
    ensures fresh { IfOk result (λ talks. All (λ t. IsFreshTalk scenario.now.limits t) talks.items) }
{
    let mut talks = Vec::new(alloc);
    let mut id = 1;
    for desc in scenario.slaves.as_slice() {
        let slave = slave_of(alloc, scenario, plan, id, desc)?;
        talks.push(Talk::new(slave, scenario.limits))?;
        id += 1;
    }
    Ok(talks)
}
