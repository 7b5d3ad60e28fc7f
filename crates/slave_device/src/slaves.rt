//! A slave from its description, in one call.

ghost use Rattle.std.specs.Prelude.{◌≡◌, ◌≤◌, [], IfOk};
ghost use Rattle.slave_desc.specs.Descriptions.{IsDesc, HasModel};
ghost use Rattle.slave_spec.specs.Payloads.{bare_wires};
ghost use Rattle.slave_spec.specs.Slaves.{slave_rules_from};

use crate::devices::Device;
use dcp_ends::End;
use dcp_types::OutOfMemory;
use slave_core::SlaveCore;
use slave_desc::SlaveDesc;
use slave_spec::Wired;
use std::alloc::Global;

/// A slave of this description to which nothing has come, in which a step has so many micro steps, over
/// a wiring of the description that was told nothing. It takes all the memory that it needs.
pub fn slave_over<W: Wired>(
    alloc: Global,
    desc: SlaveDesc,
    micro: u32,
    wiring: W,
) -> Result<SlaveCore<Device<W>>, OutOfMemory>
    requires desc { IsDesc desc }
    requires model { HasModel desc }
    requires micro { (1 ≤ micro) × (micro ≤ 1000) }
    requires wiring { W.stands wiring desc bare_wires }
    ensures stands { IfOk result (λ s. ⟦<SlaveCore<Device<W>> as End>⟧.stands s []) }
    ensures rules { IfOk result (λ s. ⟦<SlaveCore<Device<W>> as End>⟧.rules s ≡ slave_rules_from (record { desc = desc; micro = micro })) }
    ensures made { IfOk result (λ s. ⟦<SlaveCore<Device<W>> as End>⟧.made s ≡ record { desc = desc; micro = micro }) }
    ensures quiet { IfOk result (λ s. ⟦<SlaveCore<Device<W>> as End>⟧.outs s ≡ []) }
{
    let device = Device::from_description(alloc, desc, micro, wiring)?;
    SlaveCore::new(alloc, device)
}
