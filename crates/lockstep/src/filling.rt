//! One row: all slaves step at once, each on what the others showed before.

ghost use Rattle.std.specs.Prelude.{◌≡◌, ◌-◌, [], length, All, Ok, IfOk, IfErr, OnOk};
ghost use Rattle.fixed_models.specs.Domains.{IsInput};
ghost use Rattle.slave_desc.specs.declared.descriptions.SlaveDesc.{SlaveDesc};
ghost use Rattle.slave_desc.specs.Descriptions.{IsDesc, HasModel};
ghost use Rattle.scenario.specs.Totals.{total_outputs};
ghost use Rattle.scenario.specs.Sound.{IsScenario, HaveModels};
ghost use Rattle.lockstep.specs.Cut.{SameRows};
ghost use Rattle.lockstep.specs.Lockstep.{row_index, row, IsMoment};
ghost use Rattle.lockstep.specs.Parts.{PartStandsAt, AllStand, Serves, Halted};

use crate::halts::Halt;
use crate::parts::{Part, show};
use crate::references::RefFault;
use crate::tables::Table;
use dcp_types::{FaultCode, OutOfMemory};
use scenario::Scenario;
use slave_desc::SlaveDesc;

/// A step of a run, 0 standing for what is shown before the first.
#[derive(Clone, Copy, Debug)]
pub(crate) struct Moment {
    pub run: u32,
    pub step: u32,
}

/// Brings one slave to this moment, from the step before it, and puts its outputs behind the row
/// that is begun.
fn serve(
    scenario: &Scenario,
    desc: &SlaveDesc,
    _slave: u8,
    part: &mut Part,
    rows: &mut Table,
    at: Moment,
    inputs: &mut Vec<i128>,
) -> Result<Result<(), FaultCode>, OutOfMemory>
    requires scenario { IsScenario scenario.now }
    requires desc { IsDesc desc.now }
    requires model { HasModel desc.now }
    requires moment { IsMoment scenario.now at.run at.step }
    requires place { length rows.old.rows ≡ row_index scenario.now.steps at.run at.step }
    requires values { All (λ row. All IsInput row) rows.old.rows }
    requires width { rows.old.width ≡ total_outputs scenario.now.slaves }
    requires stands { PartStandsAt scenario.now rows.old.rows at.run (at.step - 1) _slave desc.now part.old }
    ensures served { IfOk result (Serves scenario.now rows.old.rows at.run at.step _slave desc.now rows.old.begun rows.new.begun part.new) }
    ensures kept { SameRows rows.old rows.new }
{
    match part.reach(rows, at.step, scenario.micro, inputs)? {
        Ok(()) => (),
        Err(code) => return Ok(Err(code)),
    }
    let outputs = desc.outputs.as_slice().len() as u8;
    show(&part.model, outputs, rows)
}

/// Brings all slaves to this moment, from the step before it, and begins the row of what they show.
pub(crate) fn fill(
    scenario: &Scenario,
    parts: &mut Vec<Part>,
    rows: &mut Table,
    at: Moment,
    inputs: &mut Vec<i128>,
) -> Result<(), Halt>
    requires scenario { IsScenario scenario.now }
    requires models { HaveModels scenario.now.slaves }
    requires moment { IsMoment scenario.now at.run at.step }
    requires place { length rows.old.rows ≡ row_index scenario.now.steps at.run at.step }
    requires values { All (λ row. All IsInput row) rows.old.rows }
    requires width { rows.old.width ≡ total_outputs scenario.now.slaves }
    requires begun { rows.old.begun ≡ [] }
    requires stand { AllStand scenario.now rows.old.rows at.run (at.step - 1) parts.old.items }
    ensures row { OnOk result (row scenario.now rows.old.rows at.run at.step ≡ Ok rows.new.begun) }
    ensures stand { OnOk result (AllStand scenario.now rows.old.rows at.run at.step parts.new.items) }
    ensures kept { SameRows rows.old rows.new }
    ensures halted { IfErr result (Halted (row scenario.now rows.old.rows at.run at.step)) }
{
    let slaves = scenario.slaves.as_slice();
    for index in 0..slaves.len() {
        let slave = index as u8 + 1;
        let part = &mut parts[index];
        match serve(scenario, &slaves[index], slave, part, rows, at, inputs) {
            Ok(Ok(())) => (),
            Ok(Err(code)) => {
                return Err(Halt::Fault(RefFault {
                    slave,
                    run: at.run,
                    step: at.step,
                    code,
                }));
            }
            Err(OutOfMemory) => return Err(Halt::OutOfMemory),
        }
    }
    Ok(())
}
