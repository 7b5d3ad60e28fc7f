//! All rows of all runs.

ghost use Rattle.std.specs.Prelude.{◌≡◌, ◌+◌, ◌-◌, ◌*◌, ◌≤◌, [], List, ℤ, IfOk, OnOk, IfErr};
ghost use Rattle.scenario.specs.Sound.{IsScenario, HaveModels};
ghost use Rattle.lockstep.specs.Lockstep.{IsReference};
ghost use Rattle.lockstep.specs.Parts.{AllStand};
ghost use Rattle.lockstep.specs.Filling.{SoFar, StoppedBy};

use crate::filling::{Moment, fill};
use crate::halts::Halt;
use crate::parts::Part;
use crate::references::Reference;
use crate::row_lists::Rows;
use crate::tables::Table;
use dcp_types::OutOfMemory;
use scenario::{Scenario, total_outputs};
use std::alloc::Global;

/// All slaves at the begin of a run.
fn parts_of(alloc: Global, scenario: &Scenario, run: u32) -> Result<Vec<Part>, OutOfMemory>
    requires scenario { IsScenario scenario.now }
    requires models { HaveModels scenario.now.slaves }
    ensures { IfOk result (λ parts. (rows : List (List ℤ)) → AllStand scenario.now rows run 0 parts.items) }
{
    let slaves = scenario.slaves.as_slice();
    let mut parts = Vec::with_capacity(alloc, slaves.len())?;
    for index in 0..slaves.len() {
        let slave = index as u8 + 1;
        parts.push(Part::new(alloc, scenario, slave, &slaves[index], run)?)?;
    }
    Ok(parts)
}

/// Puts the rows of one run behind those of the runs before.
fn run_once(
    alloc: Global,
    scenario: &Scenario,
    run: u32,
    rows: &mut Table,
    inputs: &mut Vec<i128>,
) -> Result<(), Halt>
    requires scenario { IsScenario scenario.now }
    requires models { HaveModels scenario.now.slaves }
    requires first { 1 ≤ run }
    requires last { run ≤ scenario.now.runs }
    requires rows { SoFar scenario.now ((run - 1) * (scenario.now.steps + 1)) rows.old }
    ensures done { OnOk result (SoFar scenario.now (run * (scenario.now.steps + 1)) rows.new) }
    ensures halted { IfErr result (StoppedBy scenario.now rows.new) }
{
    let Ok(mut parts) = parts_of(alloc, scenario, run) else {
        return Err(Halt::OutOfMemory);
    };
    for step in 0..scenario.steps + 1 {
        let at = Moment { run, step };
        match fill(scenario, &mut parts, rows, at, inputs) {
            Ok(()) => (),
            Err(halt) => return Err(halt),
        }
        rows.close();
    }
    Ok(())
}

fn run_all(
    alloc: Global,
    scenario: &Scenario,
    rows: &mut Table,
    inputs: &mut Vec<i128>,
) -> Result<(), Halt>
    requires scenario { IsScenario scenario.now }
    requires models { HaveModels scenario.now.slaves }
    requires rows { SoFar scenario.now 0 rows.old }
    ensures done { OnOk result (SoFar scenario.now (scenario.now.runs * (scenario.now.steps + 1)) rows.new) }
    ensures halted { IfErr result (StoppedBy scenario.now rows.new) }
{
    for run in 1..scenario.runs + 1 {
        run_once(alloc, scenario, run, rows, inputs)?;
    }
    Ok(())
}

/// What a correct run of the scenario prints, where each slave's model is one of this program's. The memory is that of the rows, taken once, and little
/// more.
pub fn reference(alloc: Global, scenario: &Scenario) -> Result<Reference, OutOfMemory>
    requires scenario { IsScenario scenario.now }
    requires models { HaveModels scenario.now.slaves }
    ensures { IfOk result (λ reference. IsReference scenario.now reference.rows reference.fault) }
{
    let width = total_outputs(scenario.slaves.as_slice()) as usize;
    let room = scenario.runs as usize * (scenario.steps as usize + 1);
    let mut rows = Table::with_room(alloc, width, room)?;
    let mut inputs = Vec::new(alloc);
    let fault = match run_all(alloc, scenario, &mut rows, &mut inputs) {
        Ok(()) => None,
        Err(Halt::Fault(fault)) => Some(fault),
        Err(Halt::OutOfMemory) => return Err(OutOfMemory),
    };
    Ok(Reference {
        rows: Rows::from_table(rows),
        fault,
    })
}
