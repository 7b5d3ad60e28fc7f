//! Two ends for the tests, each with a network of its own.

use dcp_net::{Addresses, Done, Net, Opening, Ready, Taken};
use dcp_types::{Address, Protocol};
use live_net::{LiveNet, MioReady};
use scenario::{NetLines, NetPlan};
use std::alloc::Global;
use std::net::{Ipv4Addr, SocketAddr, TcpListener, UdpSocket};
use std::test::Fail;

/// How many waits of 10 milliseconds a message is awaited for.
const WAITS: u32 = 80;

/// An end, and the network that hosts it alone.
#[derive(Drop)]
pub(crate) struct Place {
    pub(crate) at: Address,
    pub(crate) net: LiveNet<HostRuntime>,
}

/// An address of the loopback at which nothing is bound.
pub(crate) fn free_address(rt: &HostRuntime, protocol: Protocol) -> Result<Address, Fail> {
    let any = SocketAddr::from((Ipv4Addr::LOCALHOST, 0));
    let bound = match protocol {
        Protocol::Udp => UdpSocket::bind(rt, any)?.local_addr()?,
        Protocol::Tcp => TcpListener::bind(rt, any)?.local_addr()?,
    };
    Ok(Address {
        ip: Ipv4Addr::LOCALHOST.to_bits(),
        port: bound.port(),
    })
}

/// The socket address of an end.
pub(crate) fn socket_at(at: Address) -> SocketAddr {
    SocketAddr::from((Ipv4Addr::from_bits(at.ip), at.port))
}

/// An opening for one of two ends.
pub(crate) fn opening(
    alloc: Global,
    protocol: Protocol,
    at: Address,
    other: Address,
) -> Result<Opening, Fail> {
    Ok(Opening {
        protocol,
        all: Addresses::from_vec([at, other].to_vec(alloc)?),
        ends: Addresses::from_vec([at].to_vec(alloc)?),
        plan: NetPlan {
            lines: NetLines::new(alloc),
            chaos: None,
        },
    })
}

impl Place {
    /// A place with its network open, beside another end.
    pub(crate) fn open(
        rt: &HostRuntime,
        ready: &MioReady<HostRuntime>,
        protocol: Protocol,
        at: Address,
        other: Address,
    ) -> Result<Place, Fail> {
        let alloc = rt.alloc();
        let mut net = LiveNet::new(rt, alloc, ready)?;
        let plan = opening(alloc, protocol, at, other)?;
        match net.begin(&plan) {
            Done::Ok => Ok(Place { at, net }),
            Done::Failed | Done::OutOfMemory => Err(Fail::new("the end is not opened")),
        }
    }

    /// Sends a message of twenty of this byte.
    pub(crate) fn send(&mut self, to: Address, byte: u8) -> Result<(), Fail> {
        match self.net.send(self.at, to, &[byte; 20]) {
            Done::Ok => Ok(()),
            Done::Failed | Done::OutOfMemory => Err(Fail::new("a send failed")),
        }
    }

    /// The sender and the last byte of what comes next, if anything comes, and its length.
    pub(crate) fn take(&mut self) -> Result<Option<(Address, u8, usize)>, Fail> {
        let mut room = [0; 1025];
        match self.net.take(self.at, &mut room) {
            Taken::Gram { from, len } => {
                let last = if len == 0 { 0 } else { room[len - 1] };
                Ok(Some((from, last, len)))
            }
            Taken::Nothing => Ok(None),
            Taken::Failed | Taken::OutOfMemory => Err(Fail::new("a take failed")),
        }
    }

    /// The same, within a while.
    pub(crate) fn awaited(
        &mut self,
        ready: &mut MioReady<HostRuntime>,
    ) -> Result<Option<(Address, u8, usize)>, Fail> {
        for _ in 0..WAITS {
            let taken = self.take()?;
            if taken.is_some() {
                return Ok(taken);
            }
            let _ = ready.wait();
        }
        Ok(None)
    }
}

/// Whether a message of this byte comes from one end to the other.
pub(crate) fn carries(
    ready: &mut MioReady<HostRuntime>,
    from: &mut Place,
    to: &mut Place,
    byte: u8,
) -> Result<bool, Fail> {
    from.send(to.at, byte)?;
    let came = to.awaited(ready)?;
    Ok(came == Some((from.at, byte, 20)))
}

/// Two ends whose networks are open.
pub(crate) fn two_ends(
    rt: &HostRuntime,
    ready: &MioReady<HostRuntime>,
    protocol: Protocol,
) -> Result<(Place, Place), Fail> {
    let left = free_address(rt, protocol)?;
    let right = free_address(rt, protocol)?;
    let one = Place::open(rt, ready, protocol, left, right)?;
    let other = Place::open(rt, ready, protocol, right, left)?;
    Ok((one, other))
}
