//! The output ids of a slave.

ghost use Rattle.std.specs.Prelude.{◌≡◌, ◌==◌, ◌&&◌, List, ℕ, ◌≤◌, ◌<◌, ◌%◌, nat_lt, true, [], ◌∷◌, length, slice_get, Some, None, IfOk, IfSome, MatchResult, is_some, ⊤};
ghost use Rattle.std.specs.List.{list_all};
ghost use Rattle.slave_desc.specs.declared.descriptions.SlaveDesc.{SlaveDesc};
ghost use Rattle.slave_spec.specs.Changes.{Change, Set, Restart, output, ids, has_id, target, is_due};
ghost use Rattle.slave_spec.specs.Refusals.{refusal_of_setting, is_transport};
ghost use Rattle.slave_spec.specs.Payloads.{IsBuilt};
ghost use Rattle.pdu_layout.specs.declared.messages.Cfg.TheVariants as cfg;
ghost use Rattle.slave_device.specs.Wires.Ids.{IsThere, IsPlaceFor};
ghost use Rattle.slave_device.specs.Wires.Sending.{AreOutputs};

use crate::addresses::address_of;
use crate::data_ids::{DataIds, IDS};
use crate::numbers::{base_after, is_end, number_after};
use crate::payloads::{PAYLOAD, put_data, write_payload};
use crate::places::{POSITIONS, PortPlaces};
use crate::ports::place_of;
use crate::tables::{OutputRow, Outputs};
use dcp_types::{Address, ErrorCode, OutOfMemory};
use pdu_layout::NetInfo;
use slave_desc::Port;
use std::alloc::Global;

/// Whether an id with so many entries takes one at this position.
fn is_next(position: u16, count: usize) -> bool
    ensures { result ≡ ((position == count) && nat_lt position 8) }
{
    position as usize == count && count < POSITIONS
}

impl Outputs {
    pub(crate) fn new(alloc: Global, ports: &[Port]) -> Result<Outputs, OutOfMemory>
        ensures { (d : SlaveDesc) → d.outputs ≡ ports.now → IfOk result (AreOutputs d []) }
    {
        let ports = Vec::from_slice(alloc, ports)?;
        let ids = DataIds::new(alloc)?;
        let rows = Vec::with_capacity(alloc, IDS)?;
        Ok(Outputs { ports, ids, rows })
    }

    pub(crate) fn clear(&mut self)
        ensures { (d : SlaveDesc) (changes : List Change) → AreOutputs d changes self.old → AreOutputs d [] self.new }
    {
        self.ids.clear();
        self.rows.clear();
    }

    pub(crate) fn has(&self, id: u16) -> bool
        ensures { (d : SlaveDesc) (changes : List Change) → AreOutputs d changes self.now → result ≡ has_id output id changes }
    {
        self.ids.find(id).is_ok()
    }

    /// Adds an entry to an id, which begins with it where it is new.
    pub(crate) fn add(&mut self, id: u16, position: u16, vr: u64) -> Result<(), ErrorCode>
        ensures { (d : SlaveDesc) (changes : List Change) → AreOutputs d changes self.old → MatchResult result
            (λ _. (refusal_of_setting d changes (cfg.Output id position vr) ≡ None) × AreOutputs d (Set (cfg.Output id position vr) ∷ changes) self.new)
            (λ e. (refusal_of_setting d changes (cfg.Output id position vr) ≡ Some e) × AreOutputs d changes self.new) }
    {
        match self.ids.find(id) {
            Ok(i) => self.extend(i, id, position, vr),
            Err(i) => self.begin(i, id, position, vr),
        }
    }

    /// Adds an entry to an id that has some.
    fn extend(&mut self, i: usize, id: u16, position: u16, vr: u64) -> Result<(), ErrorCode>
        requires { IsThere self.old.ids id i }
        ensures { (d : SlaveDesc) (changes : List Change) → AreOutputs d changes self.old → MatchResult result
            (λ _. (refusal_of_setting d changes (cfg.Output id position vr) ≡ None) × AreOutputs d (Set (cfg.Output id position vr) ∷ changes) self.new)
            (λ e. (refusal_of_setting d changes (cfg.Output id position vr) ≡ Some e) × AreOutputs d changes self.new) }
    {
        let Some(place) = place_of(self.ports.as_slice(), vr) else {
            return Err(ErrorCode::UnknownVr);
        };
        if !is_next(position, self.rows[i].places.len()) {
            return Err(ErrorCode::Position);
        }
        self.rows[i].places.push(place);
        Ok(())
    }

    /// Adds an id with its first entry.
    fn begin(&mut self, i: usize, id: u16, position: u16, vr: u64) -> Result<(), ErrorCode>
        requires { IsPlaceFor self.old.ids id i }
        ensures { (d : SlaveDesc) (changes : List Change) → AreOutputs d changes self.old → MatchResult result
            (λ _. (refusal_of_setting d changes (cfg.Output id position vr) ≡ None) × AreOutputs d (Set (cfg.Output id position vr) ∷ changes) self.new)
            (λ e. (refusal_of_setting d changes (cfg.Output id position vr) ≡ Some e) × AreOutputs d changes self.new) }
    {
        if self.ids.len() >= IDS {
            return Err(ErrorCode::NotSupported);
        }
        let Some(place) = place_of(self.ports.as_slice(), vr) else {
            return Err(ErrorCode::UnknownVr);
        };
        if !is_next(position, 0) {
            return Err(ErrorCode::Position);
        }
        let mut places = PortPlaces::new();
        places.push(place);
        let row = OutputRow {
            places,
            target: None,
            interval: 1,
            base: 0,
        };
        self.ids.insert(i, id);
        if self.rows.insert(i, row).is_err() {
            unreachable!();
        }
        Ok(())
    }

    /// Says where an id goes.
    pub(crate) fn set_target(&mut self, net: &NetInfo) -> Result<(), ErrorCode>
        requires { is_transport net.now.protocol ≡ true }
        ensures { (d : SlaveDesc) (changes : List Change) → AreOutputs d changes self.old → MatchResult result
            (λ _. (refusal_of_setting d changes (cfg.Target net.now) ≡ None) × AreOutputs d (Set (cfg.Target net.now) ∷ changes) self.new)
            (λ e. (refusal_of_setting d changes (cfg.Target net.now) ≡ Some e) × AreOutputs d changes self.new) }
    {
        let Ok(i) = self.ids.find(net.data_id) else {
            return Err(ErrorCode::Position);
        };
        if self.rows[i].target.is_some() {
            return Err(ErrorCode::Position);
        }
        self.rows[i].target = Some(address_of(net));
        Ok(())
    }

    /// Sets the interval of an id, where it has entries.
    pub(crate) fn set_interval(&mut self, id: u16, interval: u32)
        ensures { (d : SlaveDesc) (changes : List Change) → AreOutputs d changes self.old → AreOutputs d (Set (cfg.Steps id interval) ∷ changes) self.new }
    {
        if let Ok(i) = self.ids.find(id) {
            self.rows[i].interval = interval;
        }
    }

    /// Whether each id has a target.
    pub(crate) fn have_targets(&self) -> bool
        ensures { result ≡ list_all (λ row. is_some row.target) self.now.rows.items }
    {
        self.rows.iter().all(|row| row.target.is_some())
    }

    pub(crate) fn len(&self) -> usize
        ensures ids { (d : SlaveDesc) (changes : List Change) → AreOutputs d changes self.now → result ≡ length (ids output changes) }
        ensures few { result ≤ 17 }
    {
        self.ids.len()
    }

    /// Whether the message of an id, by its place, is sent after so many steps.
    pub(crate) fn is_due(&self, i: usize, steps: u32) -> bool
        ensures { (d : SlaveDesc) (changes : List Change) → AreOutputs d changes self.now → (id : ℕ) → slice_get (ids output changes) i ≡ Some id → result ≡ is_due output id changes steps }
    {
        i < self.rows.len() && is_end(steps, self.rows[i].interval)
    }

    /// Begins the next run: the numbers go on after those of so many steps.
    pub(crate) fn restart(&mut self, steps: u32)
        ensures { (d : SlaveDesc) (changes : List Change) → AreOutputs d changes self.old → AreOutputs d (Restart steps ∷ changes) self.new }
    {
        for row in self.rows.iter_mut() {
            row.base = base_after(row.base, steps, row.interval);
        }
    }

    /// Writes the data message of an id, by its place, to the front of the room; answers where it goes
    /// and how many bytes it has.
    pub(crate) fn build(
        &self,
        i: usize,
        steps: u32,
        outputs: &[i128],
        room: &mut [u8; 1024],
    ) -> Option<(Address, usize)>
        ensures sized { IfSome result (λ built. (1 ≤ built.1) × (built.1 ≤ 1024)) }
        ensures built { (d : SlaveDesc) (changes : List Change) → AreOutputs d changes self.now → (id : ℕ) → slice_get (ids output changes) i ≡ Some id
            → IsBuilt d changes steps outputs.now id room.new result }
    {
        if i >= self.rows.len() {
            return None;
        }
        let row = &self.rows[i];
        let Some(target) = row.target else {
            return None;
        };
        let mut payload = [0; PAYLOAD];
        let length = write_payload(row.places.as_slice(), outputs, &mut payload);
        let number = number_after(row.base, steps, row.interval);
        let size = put_data(number, self.ids.at(i), &payload[..length], room);
        Some((target, size))
    }
}
