//! The other ends of data messages.

ghost use Rattle.std.specs.Prelude.{◌≡◌};
ghost use Rattle.slave_spec.specs.Refusals.{is_transport};
ghost use Rattle.slave_spec.specs.Payloads.{is_address};

use dcp_types::{Address, Protocol};
use pdu_layout::NetInfo;

/// Whether data can go by this protocol.
pub(crate) fn is_transport(protocol: u8) -> bool
    ensures { result ≡ is_transport protocol }
{
    protocol == Protocol::Udp.code() || protocol == Protocol::Tcp.code()
}

pub(crate) fn address_of(net: &NetInfo) -> Address
    ensures { result ≡ record { ip = net.now.ip; port = net.now.port } }
{
    Address {
        ip: net.ip,
        port: net.port,
    }
}

/// Whether a data message from this address is from the source of its id.
pub(crate) fn is_from(source: Option<Address>, from: Address) -> bool
    ensures { result ≡ is_address source from }
{
    match source {
        Some(address) => address.ip == from.ip && address.port == from.port,
        None => false,
    }
}
