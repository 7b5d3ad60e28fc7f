//! The data messages of a slave whose outputs are not known.

ghost use Rattle.std.specs.Prelude.{◌≡◌, ◌≤◌, ◌<◌, ◌+◌, ℕ, [], length, take, slice_get, Some, None, is_some, IfSome, MatchBool, MatchOption};
ghost use Rattle.dcp_types.specs.declared.addresses.Address.{Address};
ghost use Rattle.slave_desc.specs.declared.descriptions.SlaveDesc.{SlaveDesc};
ghost use Rattle.slave_spec.specs.Changes.{output, ids};
ghost use Rattle.slave_spec.specs.Changes as wiring;
ghost use Rattle.slave_spec.specs.Foreign.{ForeignPlant};
ghost use Rattle.conform.specs.Plants.{ForeignFor};
ghost use Rattle.conform.specs.Sending.{goes_out, ids_from, IsDataTo, IsSample, IsNextId};

use crate::plants::ForeignDevice;
use dcp_types::Address;
use slave_spec::Wired;

/// A data message has so many bytes before its values: its type code, its number, and its id.
const HEAD: usize = 5;

/// A slave has at most so many outputs.
pub(crate) const OUTPUTS: usize = 8;

/// Whether two messages have one address, one length, and one beginning.
fn is_alike(to: Address, bytes: &[u8], address: Address, sample: &[u8]) -> bool
    ensures { MatchBool result ((to ≡ address) × (length bytes.now ≡ length sample.now) × (5 ≤ length sample.now) × (take 5 bytes.now ≡ take 5 sample.now))
        ((to ≡ address) × (length bytes.now ≡ length sample.now) × (5 ≤ length sample.now) × (take 5 bytes.now ≡ take 5 sample.now) → ⊥) }
{
    if to != address {
        return false;
    }
    if bytes.len() != sample.len() {
        return false;
    }
    if sample.len() < HEAD {
        return false;
    }
    &bytes[..HEAD] == &sample[..HEAD]
}

impl ForeignDevice {
    /// Writes a data message of an output id, by its place, of a slave with so many outputs, which are 0;
    /// answers where it goes and how many bytes it has.
    fn sample(
        &self,
        target: usize,
        outputs: usize,
        room: &mut [u8; 1024],
    ) -> Option<(Address, usize)>
        requires { outputs ≤ 8 }
        ensures sized { IfSome result (λ built. built.1 ≤ 1024) }
        ensures sample { (d : SlaveDesc) (p : ForeignPlant) → ForeignFor self.now d p → outputs ≡ length d.outputs → (id : ℕ) → slice_get (ids output p.wires.changes) target ≡ Some id
            → IsSample d p.wires.changes p.steps id room.new (wiring.target id p.wires.changes) result }
    {
        let zeros = [0; OUTPUTS];
        self.wiring
            .build(target, self.steps, &zeros[..outputs], room)
    }

    /// Whether a message of an output id, by its place, is due and goes somewhere.
    fn goes_out(&self, target: usize, outputs: usize) -> bool
        requires { outputs ≤ 8 }
        ensures { (d : SlaveDesc) (p : ForeignPlant) → ForeignFor self.now d p → outputs ≡ length d.outputs → (id : ℕ) → slice_get (ids output p.wires.changes) target ≡ Some id
            → result ≡ goes_out p.wires.changes p.steps id }
    {
        if !self.wiring.is_due(target, self.steps) {
            return false;
        }
        let mut room = [0; 1024];
        self.sample(target, outputs, &mut room).is_some()
    }

    /// The first of the output ids, from a place on, of which a message is due and goes somewhere.
    pub(crate) fn next_due(&self, from: usize, outputs: usize) -> Option<usize>
        requires { outputs ≤ 8 }
        ensures few { IfSome result (λ t. t < 17) }
        ensures next { (d : SlaveDesc) (p : ForeignPlant) → ForeignFor self.now d p → outputs ≡ length d.outputs
            → MatchOption result (ids_from from p.wires.changes p.steps ≡ []) (IsNextId p.wires.changes p.steps from) }
    {
        let targets = self.wiring.targets();
        let mut target = from;
        'ids: while target < targets {
            if self.goes_out(target, outputs) {
                return Some(target);
            }
            target += 1;
        }
        None
    }

    /// Whether this is a data message of an output id, by its place: its number, its length, and where it
    /// goes.
    pub(crate) fn is_data(&self, target: usize, outputs: usize, to: Address, bytes: &[u8]) -> bool
        requires { outputs ≤ 8 }
        ensures { (d : SlaveDesc) (p : ForeignPlant) → ForeignFor self.now d p → outputs ≡ length d.outputs → (id : ℕ) → slice_get (ids output p.wires.changes) target ≡ Some id
            → (address : Address) → wiring.target id p.wires.changes ≡ Some address
            → MatchBool result (IsDataTo d p.wires.changes p.steps id address (record { to = to; bytes = bytes.now })) (IsDataTo d p.wires.changes p.steps id address (record { to = to; bytes = bytes.now }) → ⊥) }
    {
        let mut room = [0; 1024];
        match self.sample(target, outputs, &mut room) {
            Some((address, size)) => is_alike(to, bytes, address, &room[..size]),
            None => false,
        }
    }
}
