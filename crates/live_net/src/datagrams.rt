//! One end over UDP.

ghost use Rattle.std.specs.Prelude.{◌≡◌, Some, IfOk};
ghost use Rattle.dcp_net.specs.Nets.{IsWithinRoom};
ghost use Rattle.live_net.specs.Addresses.{address_in};
ghost use Rattle.live_net.specs.Datagrams.{IsSentTo};
ghost use Rattle.live_net.specs.Strangers.{ComesFrom};

use crate::addresses::socket_of;
use crate::answers::{done_of, taken_of};
use crate::refusals::Refused;
use crate::sockets::{Bound, Datagrams, datagrams_at, shared};
use crate::strangers::{MOST_DROPPED, is_strange};
use crate::watches::Watch;
use dcp_net::{Done, Taken};
use dcp_types::Address;
use mio::net::UdpSocket;
use std::alloc::Global;
use std::net::Net;
use std::rc::Rc;

/// An end with a socket of its own.
#[derive(Drop)]
pub(crate) struct UdpEnd<D = Bound<Rc<UdpSocket>>> {
    place: Address,
    socket: D,
}

impl UdpEnd {
    /// A socket at this address, which is watched, and at which these ends are heard.
    pub(crate) fn open<H: Net>(
        net: &H,
        watch: &Watch,
        alloc: Global,
        place: Address,
        all: &Rc<Vec<Address>>,
    ) -> Result<UdpEnd, Refused>
        ensures place { IfOk result (λ end. end.place ≡ place) }
        ensures bound { IfOk result (λ end. address_in end.socket.at ≡ Some place) }
    {
        let bound = datagrams_at(net, socket_of(place))?;
        let socket = shared(watch, alloc, all, bound)?;
        Ok(UdpEnd { place, socket })
    }
}

impl<D: Datagrams> UdpEnd<D> {
    /// Where it is.
    pub(crate) fn place(&self) -> Address
        ensures { result ≡ self.now.place }
    {
        self.place
    }

    /// Sends a datagram. What the network or the peer refuses is lost.
    pub(crate) fn send(&mut self, to: Address, bytes: &[u8]) -> Done
        ensures place { self.new.place ≡ self.old.place }
        ensures sent { IsSentTo to bytes.now (D.sent self.old.socket) (D.sent self.new.socket) }
    {
        done_of(&self.socket.send_to(bytes, socket_of(to)))
    }

    /// Takes the next datagram of one of the ends, if one is there. Those of strangers before it are dropped,
    /// and where there are too many of them nothing is taken. The system cuts what is longer than the room.
    pub(crate) fn take(&mut self, all: &[Address], room: &mut [u8; 1025]) -> Taken
        ensures place { self.new.place ≡ self.old.place }
        ensures len { IsWithinRoom result }
        ensures known { ComesFrom all.now result }
    {
        for _ in 0..MOST_DROPPED {
            let taken = taken_of(&self.socket.recv_from(room));
            if !is_strange(all, taken) {
                return taken;
            }
        }
        Taken::Nothing
    }
}
