//! One hosted end over sockets.

ghost use Rattle.std.specs.Prelude.{◌≡◌, ◌≤◌, length, IfOk};
ghost use Rattle.dcp_net.specs.Nets.{IsWithinRoom};
ghost use Rattle.live_net.specs.Live.{SendsBy, TakesBy, socket_end, opened_as};
ghost use Rattle.live_net.specs.Strangers.{ComesFrom};

use crate::datagrams::UdpEnd;
use crate::refusals::Refused;
use crate::tcp_ends::TcpEnd;
use crate::watches::Watch;
use dcp_net::{Done, Taken};
use dcp_types::{Address, Protocol};
use std::alloc::Global;
use std::net::Net;
use std::rc::Rc;

/// An end with its sockets.
#[derive(Drop)]
pub(crate) enum LiveEnd {
    Udp(UdpEnd),
    Tcp(TcpEnd),
}

impl LiveEnd {
    /// Opens the socket at which the end takes its messages. `all` are the ends that it may send to and
    /// that it hears.
    pub(crate) fn open<H: Net>(
        net: &H,
        watch: &Watch,
        alloc: Global,
        protocol: Protocol,
        place: Address,
        all: &Rc<Vec<Address>>,
    ) -> Result<LiveEnd, Refused>
        ensures { IfOk result (λ end. socket_end end ≡ opened_as protocol all.now.value.items place) }
    {
        match protocol {
            Protocol::Udp => Ok(LiveEnd::Udp(UdpEnd::open(net, watch, alloc, place, all)?)),
            Protocol::Tcp => {
                let end = TcpEnd::open(net, watch, alloc, place, all)?;
                Ok(LiveEnd::Tcp(end))
            }
        }
    }

    /// Where it is.
    pub(crate) fn place(&self) -> Address
        ensures { result ≡ (socket_end self.now).place }
    {
        match self {
            LiveEnd::Udp(end) => end.place(),
            LiveEnd::Tcp(end) => end.place(),
        }
    }

    /// Sends a message.
    pub(crate) fn send<H: Net>(
        &mut self,
        net: &H,
        watch: &Watch,
        alloc: Global,
        to: Address,
        bytes: &[u8],
    ) -> Done
        requires low { 1 ≤ length bytes.now }
        requires high { length bytes.now ≤ 1024 }
        ensures { SendsBy to bytes.now result (socket_end self.old) (socket_end self.new) }
    {
        match self {
            LiveEnd::Udp(end) => end.send(to, bytes),
            LiveEnd::Tcp(end) => end.send(net, watch, alloc, to, bytes),
        }
    }

    /// Takes the next message, if one is there.
    pub(crate) fn take(
        &mut self,
        watch: &Watch,
        alloc: Global,
        all: &[Address],
        room: &mut [u8; 1025],
    ) -> Taken
        ensures takes { TakesBy result room.new (socket_end self.old) (socket_end self.new) }
        ensures len { IsWithinRoom result }
        ensures known { ComesFrom all.now result }
    {
        match self {
            LiveEnd::Udp(end) => end.take(all, room),
            LiveEnd::Tcp(end) => end.take(watch, alloc, all, room),
        }
    }
}
