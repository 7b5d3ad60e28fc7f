//! The addresses of ends as the addresses of sockets.

ghost use Rattle.std.specs.Prelude.{◌≡◌, Some};
ghost use Rattle.live_net.specs.Addresses.{address_in};

use dcp_types::Address;
use std::net::{Ipv4Addr, SocketAddr, SocketAddrV4};

/// The address of a socket at this end.
pub(crate) fn socket_of(at: Address) -> SocketAddr
    ensures { address_in result ≡ Some at }
{
    SocketAddr::V4(SocketAddrV4::new(Ipv4Addr::from_bits(at.ip), at.port))
}

/// The end at the address of a socket, where that is of IPv4.
pub(crate) fn address_of(socket: SocketAddr) -> Option<Address>
    ensures { result ≡ address_in socket }
{
    match socket {
        SocketAddr::V4(socket) => Some(Address {
            ip: socket.ip().to_bits(),
            port: socket.port(),
        }),
        SocketAddr::V6(_) => None,
    }
}
