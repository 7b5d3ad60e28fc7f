//! The input ids of a slave, and the values of its inputs.

ghost use Rattle.std.specs.Prelude.{◌≡◌, ◌≤◌, ◌<◌, ◌/◌, ℕ, [], ◌∷◌, length, true, Some, None, is_some, slice_index_or, IfOk, MatchResult, All};
ghost use Rattle.std.specs.List.{list_all};
ghost use Rattle.fixed_models.specs.Domains.{IsInput};
ghost use Rattle.dcp_types.specs.Codes.{type_code};
ghost use Rattle.dcp_types.specs.declared.data_types.DataType.{DataType};
ghost use Rattle.slave_desc.specs.declared.descriptions.SlaveDesc.{SlaveDesc};
ghost use Rattle.slave_desc.specs.Descriptions.{AreApart};
ghost use Rattle.slave_spec.specs.Changes.{input, ids, has_id};
ghost use Rattle.slave_spec.specs.Refusals.{refusal_of_setting, is_transport};
ghost use Rattle.slave_spec.specs.Payloads.{WiringState, bare_wires, set, brought, is_wanted, wired_values, restarted};
ghost use Rattle.pdu_layout.specs.declared.messages.Cfg.TheVariants as cfg;
ghost use Rattle.slave_device.specs.Wires.Ids.{IsThere, IsPlaceFor};
ghost use Rattle.slave_device.specs.Wires.Ports.{IsPort};
ghost use Rattle.slave_device.specs.Wires.Receiving.{AreInputs, is_kept_for};

use crate::addresses::address_of;
use crate::data_ids::DataIds;
use crate::numbers::{base_after, in_run};
use crate::places::PortPlace;
use crate::ports::place_of;
use crate::segments::{is_kept_for, take_values, wants};
use crate::tables::{INPUTS, InputRow, Inputs, Segment};
use dcp_types::{Address, DataType, ErrorCode, OutOfMemory};
use pdu_layout::NetInfo;
use slave_desc::Port;
use std::alloc::Global;

impl Inputs {
    pub(crate) fn new(alloc: Global, ports: &[Port]) -> Result<Inputs, OutOfMemory>
        requires { length ports.now ≤ 8 }
        ensures { (d : SlaveDesc) → d.inputs ≡ ports.now → AreApart d.inputs → IfOk result (AreInputs d bare_wires) }
    {
        let ports = Vec::from_slice(alloc, ports)?;
        let ids = DataIds::new(alloc)?;
        let rows = Vec::with_capacity(alloc, INPUTS)?;
        Ok(Inputs {
            ports,
            ids,
            rows,
            segments: [None; INPUTS],
            values: [0; INPUTS],
        })
    }

    pub(crate) fn clear(&mut self)
        ensures { (d : SlaveDesc) (w : WiringState) → AreInputs d w self.old → AreInputs d bare_wires self.new }
    {
        self.ids.clear();
        self.rows.clear();
        self.segments = [None; INPUTS];
        self.values = [0; INPUTS];
    }

    pub(crate) fn has(&self, id: u16) -> bool
        ensures { (d : SlaveDesc) (w : WiringState) → AreInputs d w self.now → result ≡ has_id input id w.changes }
    {
        self.ids.find(id).is_ok()
    }

    /// Adds an entry to an id, which begins with it where it is new.
    pub(crate) fn add(
        &mut self,
        id: u16,
        position: u16,
        vr: u64,
        source: DataType,
    ) -> Result<(), ErrorCode>
        ensures { (d : SlaveDesc) (w : WiringState) → AreInputs d w self.old → MatchResult result
            (λ _. (refusal_of_setting d w.changes (cfg.Input id position vr source) ≡ None) × AreInputs d (set w (cfg.Input id position vr source)) self.new)
            (λ e. (refusal_of_setting d w.changes (cfg.Input id position vr source) ≡ Some e) × AreInputs d w self.new) }
    {
        let Some(place) = place_of(self.ports.as_slice(), vr) else {
            return Err(ErrorCode::UnknownVr);
        };
        if source.code() != place.kind.code() {
            return Err(ErrorCode::TypeMismatch);
        }
        let segment = self.segments[place.index];
        if segment.is_some() {
            return Err(ErrorCode::Position);
        }
        match self.ids.find(id) {
            Ok(i) => self.extend(i, id, position, place),
            Err(i) => self.begin(i, id, position, place),
        }
    }

    /// Adds an entry for an input that has none to an id that has some.
    fn extend(
        &mut self,
        i: usize,
        id: u16,
        position: u16,
        place: PortPlace,
    ) -> Result<(), ErrorCode>
        requires there { IsThere self.old.ids id i }
        requires within { place.index < length self.old.ports.items }
        requires free { slice_index_or self.old.segments place.index None ≡ None }
        ensures { (d : SlaveDesc) (w : WiringState) (vr : ℕ) (source : DataType) → AreInputs d w self.old → IsPort vr d.inputs place → type_code source ≡ type_code place.kind → MatchResult result
            (λ _. (refusal_of_setting d w.changes (cfg.Input id position vr source) ≡ None) × AreInputs d (set w (cfg.Input id position vr source)) self.new)
            (λ e. (refusal_of_setting d w.changes (cfg.Input id position vr source) ≡ Some e) × AreInputs d w self.new) }
    {
        let row = self.rows[i];
        if position as u32 != row.count {
            return Err(ErrorCode::Position);
        }
        self.segments[place.index] = Some(Segment {
            id,
            offset: row.size,
            kind: place.kind,
        });
        self.rows[i] = InputRow {
            count: row.count + 1,
            size: row.size + place.kind.width() as u32,
            ..row
        };
        Ok(())
    }

    /// Adds an id with its first entry, for an input that has none.
    fn begin(&mut self, i: usize, id: u16, position: u16, place: PortPlace) -> Result<(), ErrorCode>
        requires absent { IsPlaceFor self.old.ids id i }
        requires within { place.index < length self.old.ports.items }
        requires free { slice_index_or self.old.segments place.index None ≡ None }
        ensures { (d : SlaveDesc) (w : WiringState) (vr : ℕ) (source : DataType) → AreInputs d w self.old → IsPort vr d.inputs place → type_code source ≡ type_code place.kind → MatchResult result
            (λ _. (refusal_of_setting d w.changes (cfg.Input id position vr source) ≡ None) × AreInputs d (set w (cfg.Input id position vr source)) self.new)
            (λ e. (refusal_of_setting d w.changes (cfg.Input id position vr source) ≡ Some e) × AreInputs d w self.new) }
    {
        if position != 0 {
            return Err(ErrorCode::Position);
        }
        let row = InputRow {
            count: 1,
            size: place.kind.width() as u32,
            source: None,
            interval: 1,
            base: 0,
            kept: None,
        };
        self.ids.insert(i, id);
        if self.rows.insert(i, row).is_err() {
            unreachable!();
        }
        self.segments[place.index] = Some(Segment {
            id,
            offset: 0,
            kind: place.kind,
        });
        Ok(())
    }

    /// Says where an id comes from.
    pub(crate) fn set_source(&mut self, net: &NetInfo) -> Result<(), ErrorCode>
        requires { is_transport net.now.protocol ≡ true }
        ensures { (d : SlaveDesc) (w : WiringState) → AreInputs d w self.old → MatchResult result
            (λ _. (refusal_of_setting d w.changes (cfg.Source net.now) ≡ None) × AreInputs d (set w (cfg.Source net.now)) self.new)
            (λ e. (refusal_of_setting d w.changes (cfg.Source net.now) ≡ Some e) × AreInputs d w self.new) }
    {
        let Ok(i) = self.ids.find(net.data_id) else {
            return Err(ErrorCode::Position);
        };
        let row = self.rows[i];
        if row.source.is_some() {
            return Err(ErrorCode::Position);
        }
        self.rows[i] = InputRow {
            source: Some(address_of(net)),
            ..row
        };
        Ok(())
    }

    /// Sets the interval of an id, where it has entries.
    pub(crate) fn set_interval(&mut self, id: u16, interval: u32)
        ensures { (d : SlaveDesc) (w : WiringState) → AreInputs d w self.old → AreInputs d (set w (cfg.Steps id interval)) self.new }
    {
        if let Ok(i) = self.ids.find(id) {
            self.rows[i].interval = interval;
        }
    }

    /// Whether each id has a source.
    pub(crate) fn have_sources(&self) -> bool
        ensures { result ≡ list_all (λ row. is_some row.source) self.now.rows.items }
    {
        self.rows.iter().all(|row| row.source.is_some())
    }

    /// Keeps a payload under its id, where it is wanted, and says whether it is.
    pub(crate) fn take_data(
        &mut self,
        from: Address,
        number: u16,
        id: u16,
        payload: &[u8],
        steps: u32,
    ) -> bool
        ensures kept { (d : SlaveDesc) (w : WiringState) → AreInputs d w self.old → result ≡ is_wanted d w from number id payload.now steps }
        ensures stands { (d : SlaveDesc) (w : WiringState) → AreInputs d w self.old → AreInputs d (brought d w from number id payload.now steps) self.new }
    {
        let Ok(i) = self.ids.find(id) else {
            return false;
        };
        let row = self.rows[i];
        if !wants(row, from, number, payload.len(), steps) {
            return false;
        }
        self.rows[i] = InputRow {
            kept: Some(in_run(steps, row.interval)),
            ..row
        };
        take_values(
            &self.segments,
            self.ports.len(),
            id,
            payload,
            &mut self.values,
        );
        true
    }

    /// Whether each id has the payload for so many steps.
    pub(crate) fn ready(&self, steps: u32) -> bool
        ensures { result ≡ list_all (λ row. is_kept_for (steps / row.interval) row.kept) self.now.rows.items }
    {
        self.rows
            .iter()
            .all(|row| is_kept_for(row.kept, steps, row.interval))
    }

    /// The values kept last, by port.
    pub(crate) fn as_slice(&self) -> &[i128]
        ensures values { (d : SlaveDesc) (w : WiringState) → AreInputs d w self.now → result.now ≡ wired_values d w }
        ensures inputs { All IsInput result.now }
    {
        &self.values[..self.ports.len()]
    }

    /// Begins the next run: the numbers go on after those of so many steps, and nothing is kept.
    pub(crate) fn restart(&mut self, steps: u32)
        ensures { (d : SlaveDesc) (w : WiringState) → AreInputs d w self.old → AreInputs d (restarted w steps) self.new }
    {
        for row in self.rows.iter_mut() {
            row.base = base_after(row.base, steps, row.interval);
            row.kept = None;
        }
        self.values = [0; INPUTS];
    }
}
