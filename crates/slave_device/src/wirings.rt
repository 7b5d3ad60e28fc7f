//! A slave's wiring.

ghost use Rattle.std.specs.Prelude.{◌≡◌, ◌==◌, ◌&&◌, ◌||◌, ◌≤◌, ℕ, nat_le, is_some, length, Some, None, IfOk, MatchResult};
ghost use Rattle.std.specs.List.{list_all};
ghost use Rattle.slave_desc.specs.declared.descriptions.SlaveDesc.{SlaveDesc};
ghost use Rattle.slave_desc.specs.Descriptions.{AreApart};
ghost use Rattle.slave_spec.specs.Changes.{input, output, ids, has_id, is_due, complete};
ghost use Rattle.slave_spec.specs.Refusals.{refusal_of_setting};
ghost use Rattle.slave_spec.specs.Payloads.{WiringState, bare_wires, set, ready};
ghost use Rattle.pdu_layout.specs.declared.messages.Cfg.TheVariants as cfg;
ghost use Rattle.slave_device.specs.Wires.Standing.{WiringFor};

use crate::addresses::is_transport;
use crate::tables::{Inputs, Outputs};
use dcp_types::{Address, DataType, ErrorCode, OutOfMemory};
use pdu_layout::{Cfg, NetInfo};
use slave_desc::SlaveDesc;
use slave_spec::Wired;
use std::alloc::Global;

/// The steps between two messages of a data id are at most so many.
const INTERVAL: u32 = 1000;

/// The wiring of one slave.
///
/// [`Wired::apply`] takes configuration requests, [`Wired::take_data`] data messages;
/// [`Wired::ready`] and [`Wired::inputs`] are read at a step, [`Wired::is_due`] and [`Wired::build`]
/// where outputs are sent, and [`Wired::restart`] begins another run. Only [`Wiring::new`] takes
/// memory.
#[derive(Drop)]
pub struct Wiring {
    pub(crate) numerator: u32,
    pub(crate) denominator: u32,
    /// The resolution was told.
    pub(crate) has_time: bool,
    pub(crate) inputs: Inputs,
    pub(crate) outputs: Outputs,
}

/// Whether the steps from one message to the next can be so many.
fn is_interval(steps: u32) -> bool
    ensures { result ≡ (nat_le 1 steps && nat_le steps 1000) }
{
    1 <= steps && steps <= INTERVAL
}

impl Wiring {
    /// A wiring without data ids, for the ports of a description, which has 8 inputs at most, each
    /// with a value reference of its own. It takes all the memory that it needs.
    pub fn new(alloc: Global, desc: &SlaveDesc) -> Result<Wiring, OutOfMemory>
        requires few { length desc.now.inputs ≤ 8 }
        requires apart { AreApart desc.now.inputs }
        ensures { IfOk result (λ w. WiringFor w desc.now bare_wires) }
    {
        let inputs = Inputs::new(alloc, desc.inputs.as_slice())?;
        let outputs = Outputs::new(alloc, desc.outputs.as_slice())?;
        Ok(Wiring {
            numerator: desc.numerator,
            denominator: desc.denominator,
            has_time: false,
            inputs,
            outputs,
        })
    }

    fn clear(&mut self)
        ensures { (d : SlaveDesc) (x : WiringState) → WiringFor self.old d x → WiringFor self.new d bare_wires }
    {
        self.has_time = false;
        self.inputs.clear();
        self.outputs.clear();
    }

    /// Whether this is the resolution of the slave.
    fn has_resolution(&self, numerator: u32, denominator: u32) -> bool
        ensures { (d : SlaveDesc) (x : WiringState) → WiringFor self.now d x → result ≡ ((numerator == d.numerator) && (denominator == d.denominator)) }
    {
        numerator == self.numerator && denominator == self.denominator
    }

    fn set_time(&mut self, numerator: u32, denominator: u32) -> Result<(), ErrorCode>
        ensures { (d : SlaveDesc) (x : WiringState) → WiringFor self.old d x → MatchResult result
            (λ _. (refusal_of_setting d x.changes (cfg.TimeRes numerator denominator) ≡ None) × WiringFor self.new d (set x (cfg.TimeRes numerator denominator)))
            (λ e. (refusal_of_setting d x.changes (cfg.TimeRes numerator denominator) ≡ Some e) × WiringFor self.new d x) }
    {
        if !self.has_resolution(numerator, denominator) {
            return Err(ErrorCode::NotSupported);
        }
        self.has_time = true;
        Ok(())
    }

    /// Whether an id has entries, on either side.
    fn knows(&self, id: u16) -> bool
        ensures { (d : SlaveDesc) (x : WiringState) → WiringFor self.now d x → result ≡ (has_id input id x.changes || has_id output id x.changes) }
    {
        self.inputs.has(id) || self.outputs.has(id)
    }

    /// Whether an id can be given this interval.
    fn allows(&self, id: u16, steps: u32) -> bool
        ensures { (d : SlaveDesc) (x : WiringState) → WiringFor self.now d x → result ≡ (nat_le 1 steps && nat_le steps 1000 && (has_id input id x.changes || has_id output id x.changes)) }
    {
        is_interval(steps) && self.knows(id)
    }

    fn set_interval(&mut self, id: u16, steps: u32) -> Result<(), ErrorCode>
        ensures { (d : SlaveDesc) (x : WiringState) → WiringFor self.old d x → MatchResult result
            (λ _. (refusal_of_setting d x.changes (cfg.Steps id steps) ≡ None) × WiringFor self.new d (set x (cfg.Steps id steps)))
            (λ e. (refusal_of_setting d x.changes (cfg.Steps id steps) ≡ Some e) × WiringFor self.new d x) }
    {
        if !self.allows(id, steps) {
            return Err(ErrorCode::NotSupported);
        }
        self.inputs.set_interval(id, steps);
        self.outputs.set_interval(id, steps);
        Ok(())
    }

    fn add_input(
        &mut self,
        id: u16,
        position: u16,
        vr: u64,
        source: DataType,
    ) -> Result<(), ErrorCode>
        ensures { (d : SlaveDesc) (x : WiringState) → WiringFor self.old d x → MatchResult result
            (λ _. (refusal_of_setting d x.changes (cfg.Input id position vr source) ≡ None) × WiringFor self.new d (set x (cfg.Input id position vr source)))
            (λ e. (refusal_of_setting d x.changes (cfg.Input id position vr source) ≡ Some e) × WiringFor self.new d x) }
    {
        self.inputs.add(id, position, vr, source)
    }

    fn add_output(&mut self, id: u16, position: u16, vr: u64) -> Result<(), ErrorCode>
        ensures { (d : SlaveDesc) (x : WiringState) → WiringFor self.old d x → MatchResult result
            (λ _. (refusal_of_setting d x.changes (cfg.Output id position vr) ≡ None) × WiringFor self.new d (set x (cfg.Output id position vr)))
            (λ e. (refusal_of_setting d x.changes (cfg.Output id position vr) ≡ Some e) × WiringFor self.new d x) }
    {
        self.outputs.add(id, position, vr)
    }

    fn set_source(&mut self, net: &NetInfo) -> Result<(), ErrorCode>
        ensures { (d : SlaveDesc) (x : WiringState) → WiringFor self.old d x → MatchResult result
            (λ _. (refusal_of_setting d x.changes (cfg.Source net.now) ≡ None) × WiringFor self.new d (set x (cfg.Source net.now)))
            (λ e. (refusal_of_setting d x.changes (cfg.Source net.now) ≡ Some e) × WiringFor self.new d x) }
    {
        if !is_transport(net.protocol) {
            return Err(ErrorCode::NotSupported);
        }
        self.inputs.set_source(net)
    }

    fn set_target(&mut self, net: &NetInfo) -> Result<(), ErrorCode>
        ensures { (d : SlaveDesc) (x : WiringState) → WiringFor self.old d x → MatchResult result
            (λ _. (refusal_of_setting d x.changes (cfg.Target net.now) ≡ None) × WiringFor self.new d (set x (cfg.Target net.now)))
            (λ e. (refusal_of_setting d x.changes (cfg.Target net.now) ≡ Some e) × WiringFor self.new d x) }
    {
        if !is_transport(net.protocol) {
            return Err(ErrorCode::NotSupported);
        }
        self.outputs.set_target(net)
    }

    fn is_complete(&self) -> bool
        ensures { result ≡ (self.now.has_time && list_all (λ row. is_some row.source) self.now.inputs.rows.items && list_all (λ row. is_some row.target) self.now.outputs.rows.items) }
    {
        self.has_time && self.inputs.have_sources() && self.outputs.have_targets()
    }
}

impl Wired for Wiring {
    ghost use Rattle.slave_desc.specs.declared.descriptions.SlaveDesc.{SlaveDesc};
    ghost use Rattle.slave_spec.specs.Payloads.{WiringState};
    ghost use Rattle.slave_device.specs.Wires.Standing.{WiringFor};

    ghost stands = { λ w d x. WiringFor w d x };

    #[tactic(auto, unfolding(slave_spec::specs::Refusals::refusal_of_setting))]
    fn apply(&mut self, body: &Cfg) -> Result<(), ErrorCode> {
        match body {
            Cfg::Clear => {
                self.clear();
                Ok(())
            }
            Cfg::TimeRes {
                numerator,
                denominator,
            } => self.set_time(*numerator, *denominator),
            Cfg::Steps { data_id, steps } => self.set_interval(*data_id, *steps),
            Cfg::Input {
                data_id,
                pos,
                vr,
                source,
            } => self.add_input(*data_id, *pos, *vr, *source),
            Cfg::Output { data_id, pos, vr } => self.add_output(*data_id, *pos, *vr),
            Cfg::Source(net) => self.set_source(net),
            Cfg::Target(net) => self.set_target(net),
            Cfg::Parameter { .. }
            | Cfg::Tunable { .. }
            | Cfg::ParamNet { .. }
            | Cfg::Logging { .. }
            | Cfg::Scope { .. } => Err(ErrorCode::NotSupported),
        }
    }

    fn complete(&self) -> bool {
        self.is_complete()
    }

    fn take_data(
        &mut self,
        from: Address,
        seq: u16,
        data_id: u16,
        payload: &[u8],
        steps: u32,
    ) -> bool {
        self.inputs.take_data(from, seq, data_id, payload, steps)
    }

    fn ready(&self, steps: u32) -> bool {
        self.inputs.ready(steps)
    }

    fn inputs(&self) -> &[i128] {
        self.inputs.as_slice()
    }

    fn targets(&self) -> usize {
        self.outputs.len()
    }

    fn is_due(&self, target: usize, steps: u32) -> bool {
        self.outputs.is_due(target, steps)
    }

    fn build(
        &self,
        target: usize,
        steps: u32,
        outputs: &[i128],
        room: &mut [u8; 1024],
    ) -> Option<(Address, usize)> {
        self.outputs.build(target, steps, outputs, room)
    }

    fn restart(&mut self, steps: u32) {
        self.inputs.restart(steps);
        self.outputs.restart(steps);
    }
}
