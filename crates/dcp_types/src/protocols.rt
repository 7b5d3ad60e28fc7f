//! The transports.

ghost use Rattle.std.specs.Prelude.{◌≡◌};
ghost use Rattle.dcp_types.specs.Codes.{protocol_code};

/// The transport that all ends of a scenario use.
#[derive(Clone, Copy, Debug, PartialEq, Eq)]
pub enum Protocol {
    /// A message is a datagram over UDP and IPv4.
    Udp,
    /// Messages are frames of a stream over TCP and IPv4.
    Tcp,
}

impl Protocol {
    /// The code in a network information message: 0 for UDP over IPv4, 4 for TCP over IPv4.
    pub fn code(self) -> u8
        ensures { result ≡ protocol_code self }
    {
        match self {
            Protocol::Udp => 0,
            Protocol::Tcp => 4,
        }
    }
}
