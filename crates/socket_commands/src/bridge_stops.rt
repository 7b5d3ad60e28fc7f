//! Why a bridge does not stand any longer.

ghost use Rattle.std.specs.Prelude.{◌≡◌};
ghost use Rattle.socket_commands.specs.Bridge.Standing.{stop_of};

use bridge::BridgeFault;
use dcp_types::OutOfMemory;

/// Why a bridge does not stand any longer.
#[derive(Clone, Copy, Debug, PartialEq, Eq)]
pub enum Stop {
    /// A network or a wait failed.
    Net,
    /// Memory was refused.
    OutOfMemory,
}

impl From<OutOfMemory> for Stop {
    ghost use Rattle.socket_commands.specs.declared.bridge_stops.Stop.TheVariants as stops;

    ghost from_gives = { λ _ stop. stop ≡ stops.OutOfMemory };

    fn from(_error: OutOfMemory) -> Stop {
        Stop::OutOfMemory
    }
}

/// What the fault of a bridge is here.
pub(crate) fn stop_of(fault: BridgeFault) -> Stop
    ensures { result ≡ stop_of fault }
{
    match fault {
        BridgeFault::Udp { count: _ } | BridgeFault::Tcp { count: _ } => Stop::Net,
        BridgeFault::OutOfMemory => Stop::OutOfMemory,
    }
}
