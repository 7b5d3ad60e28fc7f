//! Outputs, and the data messages that carry them.

ghost use Rattle.std.specs.Prelude.{ℕ, ◌≡◌, ◌<◌, ◌≤◌, ◌+◌, ◌++◌, ◌∷◌, [], map, length, take, true, false, slice_get, Some, MatchResult};
ghost use Rattle.fixed_models.specs.Steps.{all_fit};
ghost use Rattle.slave_desc.specs.declared.descriptions.SlaveDesc.{SlaveDesc};
ghost use Rattle.slave_spec.specs.Changes.{output, ids};
ghost use Rattle.slave_spec.specs.Payloads.{WiringState};
ghost use Rattle.slave_spec.specs.Payloads as payloads;
ghost use Rattle.slave_spec.specs.Transport.{parcel_send};
ghost use Rattle.slave_spec.specs.Plants.{Plant};
ghost use Rattle.slave_spec.specs.Sound.{IsSoundPlant};
ghost use Rattle.slave_spec.specs.Turns.{values, data_parcels, parcels};
ghost use Rattle.slave_device.specs.Devices.{DeviceFor};
ghost use Rattle.slave_device.specs.Sending.{data_sends};

use crate::devices::Device;
use dcp_types::{FaultCode, State};
use slave_core::SlaveOutbox;
use slave_spec::Wired;

/// Puts the data message of an output id, by its place among them, where it is due after so many steps. It is
/// spelled in the room.
fn send_one<W: Wired>(
    wiring: &W,
    target: usize,
    steps: u32,
    values: &[i128],
    room: &mut [u8; 1024],
    out: &mut SlaveOutbox,
)
    requires room { length out.old < 21 }
    ensures out { (d : SlaveDesc) (x : WiringState) → W.stands wiring.now d x → (id : ℕ) → slice_get (ids output x.changes) target ≡ Some id
        → payloads.values_fit_ports d.outputs values.now ≡ true
        → out.new ≡ out.old ++ data_sends d x.changes steps values.now (id ∷ []) }
    ensures few { length out.new ≤ length out.old + 1 }
{
    if wiring.is_due(target, steps) {
        if let Some((to, length)) = wiring.build(target, steps, values, room) {
            out.put_bytes(to, &room[..length]);
        }
    }
}

/// Puts the data messages that are due after so many steps, of these outputs.
fn send_values<W: Wired>(
    wiring: &W,
    steps: u32,
    values: &[i128],
    room: &mut [u8; 1024],
    out: &mut SlaveOutbox,
)
    requires { out.old ≡ [] }
    ensures out { (d : SlaveDesc) (x : WiringState) → W.stands wiring.now d x → payloads.values_fit_ports d.outputs values.now ≡ true
        → out.new ≡ map parcel_send (data_parcels d x.changes steps values.now) }
    ensures few { length out.new ≤ 17 }
{
    for target in 0..wiring.targets() {
        send_one(wiring, target, steps, values, room, out);
    }
}

impl<W: Wired> Device<W> {
    /// The outputs, where each lies in its type.
    pub(crate) fn outputs(&self, room: &mut [i128; 8]) -> Result<usize, FaultCode>
        ensures { MatchResult result
            (λ n. (all_fit self.now.works.model.types (values self.now.works.model) ≡ true) × (take n room.new ≡ values self.now.works.model) × (n ≤ 8))
            (λ e. (all_fit self.now.works.model.types (values self.now.works.model) ≡ false) × (e ≡ FaultCode.OutOfRange)) }
    {
        let count = self.works.setup.desc.outputs.as_slice().len();
        for port in 0..count {
            match self.works.model.output(port as u8) {
                Ok(value) => room[port] = value,
                Err(code) => return Err(code),
            }
        }
        Ok(count)
    }

    /// Puts the data messages that are due, where the outputs lie in their types.
    fn send_data(&mut self, out: &mut SlaveOutbox)
        requires { out.old ≡ [] }
        ensures out { (p : Plant) → DeviceFor W.stands self.old p → all_fit p.model.types (values p.model) ≡ true
            → out.new ≡ map parcel_send (data_parcels self.old.works.setup.desc p.wires.changes p.steps (values p.model)) }
        ensures stands { (p : Plant) → DeviceFor W.stands self.old p → DeviceFor W.stands self.new p }
        ensures setup { self.new.works.setup ≡ self.old.works.setup }
        ensures few { length out.new ≤ 17 }
    {
        let mut values = [0; 8];
        if let Ok(count) = self.outputs(&mut values) {
            send_values(
                &self.wiring,
                self.steps,
                &values[..count],
                &mut self.room,
                out,
            );
        }
    }

    /// Puts the data messages of a sending state.
    pub(crate) fn send_outputs(&mut self, out: &mut SlaveOutbox)
        requires { out.old ≡ [] }
        ensures out { (p : Plant) → DeviceFor W.stands self.old p → IsSoundPlant p → out.new ≡ map parcel_send (parcels self.old.works.setup p) }
        ensures stands { (p : Plant) → DeviceFor W.stands self.old p → DeviceFor W.stands self.new p }
        ensures setup { self.new.works.setup ≡ self.old.works.setup }
        ensures few { length out.new ≤ 17 }
    {
        match self.state {
            State::SendingI => self.send_data(out),
            State::SendingD => self.send_data(out),
            _ => {}
        }
    }
}
