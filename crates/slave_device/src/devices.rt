//! The machine of a slave, and how it is made.

ghost use Rattle.std.specs.Prelude.{◌≡◌, ◌≤◌, IfOk};
ghost use Rattle.slave_desc.specs.Descriptions.{IsDesc, HasModel};
ghost use Rattle.slave_spec.specs.Plants.{start_plant, model_with, output_types};
ghost use Rattle.slave_spec.specs.Payloads.{bare_wires};
ghost use Rattle.slave_device.specs.Made.{IsMade};

use crate::works::Works;
use dcp_types::{DataType, FaultCode, OutOfMemory, State};
use fixed_models::{Model, ModelRefused};
use slave_desc::SlaveDesc;
use slave_log::SlaveLog;
use slave_spec::{SlaveSetup, Wired};
use std::alloc::Global;

/// The machine of a slave over a wiring. The transport calls it by the trait `Inner`.
#[derive(Drop)]
pub struct Device<W: Wired> {
    /// The model, and what the slave was made with.
    pub(crate) works: Works,
    pub(crate) state: State,
    /// The steps taken since the last reset.
    pub(crate) steps: u32,
    /// The initial outputs of this run were sent.
    pub(crate) outputs_sent: bool,
    /// For how many turns more the step under way lasts.
    pub(crate) busy_left: u32,
    /// The newest fault.
    pub(crate) fault: Option<FaultCode>,
    pub(crate) wiring: W,
    pub(crate) log: SlaveLog,
    /// Where the data messages are spelled: made once, since a room for each would be cleared each time.
    pub(crate) room: Box<[u8; 1024]>,
}

/// The types of a slave's outputs, by port.
fn types_of(alloc: Global, desc: &SlaveDesc) -> Result<Vec<DataType>, OutOfMemory>
    ensures { IfOk result (λ types. types.items ≡ output_types desc.now) }
{
    let mut types = Vec::new(alloc);
    for port in desc.outputs.as_slice() {
        types.push(port.kind)?;
    }
    Ok(types)
}

/// The model of a slave, with the parameters of its description, in its state at first.
fn model_of(alloc: Global, desc: &SlaveDesc) -> Result<Model, OutOfMemory>
    requires desc { IsDesc desc.now }
    requires model { HasModel desc.now }
    ensures { IfOk result (λ model. model ≡ model_with desc.now desc.now.parameters) }
{
    let types = types_of(alloc, desc)?;
    let parameters = desc.parameters.as_slice();
    match Model::new(alloc, desc.kind, parameters, &types) {
        Ok(model) => Ok(model),
        Err(ModelRefused::OutOfMemory) => Err(OutOfMemory),
        Err(ModelRefused::BadParameters) => unreachable!(),
    }
}

impl<W: Wired> Device<W> {
    ghost use Rattle.slave_device.specs.Devices.{DeviceFor};

    /// A machine that no request and no turn has reached: over a model of its description in its state
    /// at first, and a wiring that was told nothing. It takes all the memory that it needs.
    pub fn new(
        alloc: Global,
        setup: SlaveSetup,
        model: Model,
        wiring: W,
    ) -> Result<Device<W>, OutOfMemory>
        requires made { IsMade setup model }
        requires model { model ≡ model_with setup.desc setup.desc.parameters }
        requires wiring { W.stands wiring setup.desc bare_wires }
        ensures stands { IfOk result (λ d. DeviceFor W.stands d (start_plant setup)) }
        ensures setup { IfOk result (λ d. d.works.setup ≡ setup) }
    {
        let log = SlaveLog::new(alloc)?;
        let room = Box::new(alloc, [0; 1024])?;
        Ok(Device {
            works: Works { setup, model },
            state: State::Alive,
            steps: 0,
            outputs_sent: false,
            busy_left: 0,
            fault: None,
            wiring,
            log,
            room,
        })
    }

    /// The machine of a slave of this description, in which a step has so many micro steps, over a wiring
    /// of the description that was told nothing. It takes all the memory that it needs.
    pub fn from_description(
        alloc: Global,
        desc: SlaveDesc,
        micro: u32,
        wiring: W,
    ) -> Result<Device<W>, OutOfMemory>
        requires desc { IsDesc desc }
        requires model { HasModel desc }
        requires micro { (1 ≤ micro) × (micro ≤ 1000) }
        requires wiring { W.stands wiring desc bare_wires }
        ensures stands { IfOk result (λ d. DeviceFor W.stands d (start_plant (record { desc = desc; micro = micro }))) }
        ensures setup { IfOk result (λ d. d.works.setup ≡ record { desc = desc; micro = micro }) }
    {
        let model = model_of(alloc, &desc)?;
        Device::new(alloc, SlaveSetup { desc, micro }, model, wiring)
    }
}
