//! Why a bridge stopped.

ghost use Rattle.std.specs.Prelude.{◌≡◌};
ghost use Rattle.bridge.specs.Causes.{fault_on};

use crate::sides::BridgeSide;
use rounds::HostFault;

/// Why a round was not finished.
#[derive(Clone, Copy, Debug, PartialEq, Eq)]
pub enum BridgeFault {
    /// A call of the network of UDP failed, and its count of faults rose to this.
    Udp { count: u64 },
    /// The same of the network of TCP.
    Tcp { count: u64 },
    /// A network wanted memory.
    OutOfMemory,
}

/// The fault of the network on this side.
pub(crate) fn fault_on(side: BridgeSide, fault: HostFault) -> BridgeFault
    ensures { result ≡ fault_on side fault }
{
    match fault {
        HostFault::Net { count } => match side {
            BridgeSide::Udp => BridgeFault::Udp { count },
            BridgeSide::Tcp => BridgeFault::Tcp { count },
        },
        HostFault::OutOfMemory => BridgeFault::OutOfMemory,
    }
}
