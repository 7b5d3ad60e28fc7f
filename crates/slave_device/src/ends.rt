//! The slave of a description.

ghost use Rattle.std.specs.Prelude.{◌≡◌, ◌≤◌, [], IfOk};
ghost use Rattle.slave_desc.specs.Descriptions.{IsDesc, HasModel};
ghost use Rattle.slave_spec.specs.Slaves.{slave_rules_from};

use crate::wirings::Wiring;
use crate::{Device, slave_over};
use dcp_ends::End;
use dcp_types::OutOfMemory;
use slave_core::SlaveCore;
use slave_desc::SlaveDesc;
use std::alloc::Global;

/// A slave: the transport over a machine over a wiring.
pub type SlaveEnd = SlaveCore<Device<Wiring>>;

/// A slave of this description to which nothing has come, and whose steps have so many micro steps. It
/// takes all the memory that it needs.
pub fn new_slave(alloc: Global, desc: SlaveDesc, micro: u32) -> Result<SlaveEnd, OutOfMemory>
    requires desc { IsDesc desc }
    requires model { HasModel desc }
    requires micro { (1 ≤ micro) × (micro ≤ 1000) }
    ensures stands { IfOk result (λ s. ⟦<SlaveCore<Device<Wiring>> as End>⟧.stands s []) }
    ensures rules { IfOk result (λ s. ⟦<SlaveCore<Device<Wiring>> as End>⟧.rules s ≡ slave_rules_from (record { desc = desc; micro = micro })) }
    ensures made { IfOk result (λ s. ⟦<SlaveCore<Device<Wiring>> as End>⟧.made s ≡ record { desc = desc; micro = micro }) }
    ensures quiet { IfOk result (λ s. ⟦<SlaveCore<Device<Wiring>> as End>⟧.outs s ≡ []) }
{
    let wiring = Wiring::new(alloc, &desc)?;
    slave_over(alloc, desc, micro, wiring)
}
