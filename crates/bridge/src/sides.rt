//! The two sides of a bridge.

ghost use Rattle.std.specs.Prelude.{◌≡◌};
ghost use Rattle.bridge.specs.Carried.{protocol_on};

use dcp_types::Protocol;

/// A side of the bridge: the ends that use this transport.
#[derive(Clone, Copy, Debug, PartialEq, Eq)]
pub enum BridgeSide {
    Udp,
    Tcp,
}

impl BridgeSide {
    /// The transport of the ends on this side.
    pub(crate) fn protocol(self) -> Protocol
        ensures { result ≡ protocol_on self }
    {
        match self {
            BridgeSide::Udp => Protocol::Udp,
            BridgeSide::Tcp => Protocol::Tcp,
        }
    }
}
