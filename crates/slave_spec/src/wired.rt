//! What a wiring does.

ghost use Rattle.std.specs.Prelude.{◌≡◌, ◌≤◌, ◌<◌, ℕ, All, length, slice_get, Some, None, IfSome, MatchResult};
ghost use Rattle.fixed_models.specs.Domains.{IsInput};
ghost use Rattle.slave_desc.specs.declared.descriptions.SlaveDesc.{SlaveDesc};
ghost use Rattle.slave_spec.specs.Changes.{output, ids, is_due, complete};
ghost use Rattle.slave_spec.specs.Refusals.{refusal_of_setting};
ghost use Rattle.slave_spec.specs.Payloads.{WiringState, set, restarted, is_wanted, brought, ready, wired_values, IsBuilt};

use dcp_types::{Address, ErrorCode};
use pdu_layout::Cfg;

/// The wiring of one slave. `apply` takes configuration requests, `take_data` data messages; `ready`
/// and `inputs` are read at a step, `is_due` and `build` where outputs are sent.
pub trait Wired: Drop {
    ghost use Rattle.slave_desc.specs.declared.descriptions.SlaveDesc.{SlaveDesc};
    ghost use Rattle.slave_spec.specs.Payloads.{WiringState};

    /// The description whose ports are wired, and the changes and payloads so far.
    ghost stands: { Self → SlaveDesc → WiringState → Type 0 };

    /// Takes a configuration request, which is not that of a parameter. It is refused by the first
    /// rule that it breaks, and then nothing changes.
    fn apply(&mut self, body: &Cfg) -> Result<(), ErrorCode>
        ensures { (d : SlaveDesc) (x : WiringState) → stands self.old d x → MatchResult result
            (λ _. (refusal_of_setting d x.changes body.now ≡ None) × stands self.new d (set x body.now))
            (λ e. (refusal_of_setting d x.changes body.now ≡ Some e) × stands self.new d x) };

    /// Whether the resolution was told, each input id has a source, and each output id a target.
    fn complete(&self) -> bool
        ensures { (d : SlaveDesc) (x : WiringState) → stands self.now d x → result ≡ complete x.changes };

    /// Keeps the payload of a data message and answers true, exactly where it comes from the source of
    /// an input id, with that id's length, under the number of this many steps, and none is kept for
    /// these.
    fn take_data(
        &mut self,
        from: Address,
        seq: u16,
        data_id: u16,
        payload: &[u8],
        steps: u32,
    ) -> bool
        ensures kept { (d : SlaveDesc) (x : WiringState) → stands self.old d x → result ≡ is_wanted d x from seq data_id payload.now steps }
        ensures stands { (d : SlaveDesc) (x : WiringState) → stands self.old d x → stands self.new d (brought d x from seq data_id payload.now steps) };

    /// Whether each input id has a payload that was kept for this many steps.
    fn ready(&self, steps: u32) -> bool
        ensures { (d : SlaveDesc) (x : WiringState) → stands self.now d x → result ≡ ready x steps };

    /// The values kept last, by port; 0 before.
    fn inputs(&self) -> &[i128]
        ensures values { (d : SlaveDesc) (x : WiringState) → stands self.now d x → result.now ≡ wired_values d x }
        ensures inputs { All IsInput result.now };

    /// How many output ids there are.
    fn targets(&self) -> usize
        ensures ids { (d : SlaveDesc) (x : WiringState) → stands self.now d x → result ≡ length (ids output x.changes) }
        ensures few { result ≤ 17 };

    /// Whether the message of an output id, by its place among the ascending ids, is sent after so
    /// many steps.
    fn is_due(&self, target: usize, steps: u32) -> bool
        ensures { (d : SlaveDesc) (x : WiringState) → stands self.now d x → (id : ℕ) → slice_get (ids output x.changes) target ≡ Some id → result ≡ is_due output id x.changes steps };

    /// Writes the data message of an output id; answers where it goes and how many bytes it has.
    fn build(
        &self,
        target: usize,
        steps: u32,
        outputs: &[i128],
        room: &mut [u8; 1024],
    ) -> Option<(Address, usize)>
        ensures sized { IfSome result (λ built. (1 ≤ built.1) × (built.1 ≤ 1024)) }
        ensures built { (d : SlaveDesc) (x : WiringState) → stands self.now d x → (id : ℕ) → slice_get (ids output x.changes) target ≡ Some id
            → IsBuilt d x.changes steps outputs.now id room.new result };

    /// Gives up the payloads that were kept; the ordinals go on after those of this many steps.
    fn restart(&mut self, steps: u32)
        ensures { (d : SlaveDesc) (x : WiringState) → stands self.old d x → stands self.new d (restarted x steps) };
}
