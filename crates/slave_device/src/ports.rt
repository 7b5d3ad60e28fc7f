//! The ports of a slave, by value reference.

ghost use Rattle.std.specs.Prelude.{◌≡◌, MatchOption, None};
ghost use Rattle.slave_spec.specs.Refusals.{port_with};
ghost use Rattle.slave_device.specs.Wires.Ports.{IsPort};

use crate::places::PortPlace;
use slave_desc::Port;

/// The port with this value reference: the first, where there are several.
pub(crate) fn place_of(ports: &[Port], vr: u64) -> Option<PortPlace>
    ensures { MatchOption result (port_with vr ports.now ≡ None) (IsPort vr ports.now) }
{
    for (index, port) in ports.iter().enumerate() {
        if port.vr == vr {
            return Some(PortPlace {
                index,
                kind: port.kind,
            });
        }
    }
    None
}
