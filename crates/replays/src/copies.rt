//! Copies of a description, in memory of their own.

ghost use Rattle.std.specs.Prelude.{◌≡◌, IfOk};

use dcp_types::{Items, Name, OutOfMemory};
use slave_desc::SlaveDesc;
use std::alloc::Global;

/// Another list of the same items.
fn copied_items<T: Copy + Drop>(alloc: Global, items: &Items<T>) -> Result<Items<T>, OutOfMemory>
    ensures { IfOk result (λ copy. copy ≡ items.now) }
{
    let mut copy = Items::new(alloc);
    for item in items.as_slice() {
        copy.push(*item)?;
    }
    Ok(copy)
}

/// The same name.
fn copied_name(alloc: Global, name: &Name) -> Result<Name, OutOfMemory>
    ensures { IfOk result (λ copy. copy ≡ name.now) }
{
    Ok(Name::from_string(String::from_str(alloc, name.as_str())?))
}

/// The same description.
pub(crate) fn copied_desc(alloc: Global, desc: &SlaveDesc) -> Result<SlaveDesc, OutOfMemory>
    ensures { IfOk result (λ copy. copy ≡ desc.now) }
{
    Ok(SlaveDesc {
        name: copied_name(alloc, &desc.name)?,
        uuid: desc.uuid,
        address: desc.address,
        kind: desc.kind,
        parameters: copied_items(alloc, &desc.parameters)?,
        busy: desc.busy,
        heartbeat: desc.heartbeat,
        numerator: desc.numerator,
        denominator: desc.denominator,
        inputs: copied_items(alloc, &desc.inputs)?,
        outputs: copied_items(alloc, &desc.outputs)?,
    })
}
