//! A slave in the calculation: its model, and what its inputs read.

ghost use Rattle.std.specs.Prelude.{◌≡◌, ◌<◌, ◌≤◌, ◌-◌, List, ℤ, Some, length, map, All, true, IfOk};
ghost use Rattle.fixed_models.specs.Domains.{IsInput};
ghost use Rattle.fixed_models.specs.Kinds.{has_inputs, output_count};
ghost use Rattle.slave_desc.specs.Descriptions.{IsDesc, HasModel};
ghost use Rattle.scenario.specs.Lookups.{slave_at};
ghost use Rattle.scenario.specs.Sound.{IsScenario, IsSlave};
ghost use Rattle.fixed_models.specs.Views.{begun, accepts};
ghost use Rattle.lockstep.specs.Cut.{SameRows};
ghost use Rattle.lockstep.specs.Feeds.{fed, IsFeed};
ghost use Rattle.lockstep.specs.Parts.{PartStandsAt, Advances, Reaches, Shows};

use crate::tables::Table;
use crate::wiring::{Feed, feeds_of, gather};
use dcp_types::{DataType, FaultCode, OutOfMemory};
use fixed_models::{Kind, Model, ModelRefused};
use scenario::{Scenario, parameters};
use slave_desc::{Port, SlaveDesc};
use std::alloc::Global;

/// A slave in the calculation.
#[derive(Drop)]
pub(crate) struct Part {
    pub model: Model,
    /// What each input reads.
    pub feeds: Vec<Option<Feed>>,
}

impl Part {
    /// A slave at the begin of a run.
    pub(crate) fn new(
        alloc: Global,
        scenario: &Scenario,
        slave: u8,
        desc: &SlaveDesc,
        run: u32,
    ) -> Result<Part, OutOfMemory>
        requires scenario { IsScenario scenario.now }
        requires slave { slave_at scenario.now.slaves slave ≡ Some desc.now }
        requires number { IsSlave scenario.now.slaves slave }
        requires desc { IsDesc desc.now }
        requires model { HasModel desc.now }
        ensures { IfOk result (λ part. (rows : List (List ℤ)) → PartStandsAt scenario.now rows run 0 slave desc.now part) }
    {
        let types = types_of(alloc, desc.outputs.as_slice())?;
        let feeds = feeds_of(alloc, scenario, slave, desc.inputs.as_slice().len())?;
        let parameters = parameters(alloc, scenario, slave, desc, run)?;
        let model = begin(alloc, desc.kind, parameters.as_slice(), types.as_slice())?;
        Ok(Part { model, feeds })
    }

    /// One step on what the inputs read at the last row, which stands at `now`.
    pub(crate) fn advance(
        &mut self,
        rows: &Table,
        now: usize,
        step: u32,
        micro: u32,
        inputs: &mut Vec<i128>,
    ) -> Result<Result<(), FaultCode>, OutOfMemory>
        requires ports { has_inputs self.old.model.kind (length self.old.feeds.items) ≡ true }
        requires feeds { All (IsFeed rows.now.width) self.old.feeds.items }
        requires values { All (λ row. All IsInput row) rows.now.rows }
        requires there { now < length rows.now.rows }
        requires step { step ≤ now }
        requires micro { 1 ≤ micro }
        ensures { IfOk result (Advances (map (fed rows.now.rows (now - step) step) self.old.feeds.items) micro self.old self.new) }
    {
        gather(self.feeds.as_slice(), rows, now, step, inputs)?;
        Ok(self.model.step(inputs.as_slice(), micro))
    }

    /// Brings the part to this step of the run, which is the one after the step where it stands. At
    /// step 0 it stands already.
    pub(crate) fn reach(
        &mut self,
        rows: &Table,
        step: u32,
        micro: u32,
        inputs: &mut Vec<i128>,
    ) -> Result<Result<(), FaultCode>, OutOfMemory>
        requires ports { has_inputs self.old.model.kind (length self.old.feeds.items) ≡ true }
        requires feeds { All (IsFeed rows.now.width) self.old.feeds.items }
        requires values { All (λ row. All IsInput row) rows.now.rows }
        requires step { step ≤ length rows.now.rows }
        requires micro { 1 ≤ micro }
        ensures { IfOk result (Reaches rows.now.rows self.old self.new step micro) }
    {
        if step == 0 {
            return Ok(Ok(()));
        }
        self.advance(rows, rows.len() - 1, step - 1, micro, inputs)
    }
}

fn types_of(alloc: Global, ports: &[Port]) -> Result<Vec<DataType>, OutOfMemory>
    ensures { IfOk result (λ types. types.items ≡ map (λ p. p.kind) ports.now) }
{
    let types = ports.iter().map(|p| p.kind).collect(alloc)?;
    Ok(types)
}

/// A model that the kind takes.
fn begin(
    alloc: Global,
    kind: Kind,
    parameters: &[i64],
    types: &[DataType],
) -> Result<Model, OutOfMemory>
    requires { accepts kind parameters.now (length types.now) ≡ true }
    ensures { IfOk result (λ model. model ≡ begun kind parameters.now types.now) }
{
    match Model::new(alloc, kind, parameters, types) {
        Ok(model) => Ok(model),
        Err(ModelRefused::OutOfMemory) => Err(OutOfMemory),
        Err(ModelRefused::BadParameters) => unreachable!(),
    }
}

/// Puts the outputs of a model behind the row that is begun. After a fault that row is of no use.
pub(crate) fn show(
    model: &Model,
    outputs: u8,
    rows: &mut Table,
) -> Result<Result<(), FaultCode>, OutOfMemory>
    requires outputs { outputs ≡ length model.now.types }
    requires types { length model.now.types ≡ output_count model.now.kind }
    ensures shown { IfOk result (Shows model.now rows.old.begun rows.new.begun) }
    ensures kept { SameRows rows.old rows.new }
{
    for port in 0..outputs {
        match model.output(port) {
            Ok(value) => rows.put(value)?,
            Err(code) => return Ok(Err(code)),
        }
    }
    Ok(Ok(()))
}
