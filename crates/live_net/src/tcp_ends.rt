//! One end over TCP.

ghost use Rattle.std.specs.Prelude.{◌≡◌, ◌≤◌, [], map, length, IfOk};
ghost use Rattle.dcp_net.specs.Nets.{IsWithinRoom};
ghost use Rattle.live_net.specs.Connections.{inlet_of};
ghost use Rattle.live_net.specs.Departures.{FlushesAll, leaving_of, unconnected};
ghost use Rattle.live_net.specs.Doors.{Given};
ghost use Rattle.live_net.specs.Receivers.{DepartsIf};
ghost use Rattle.live_net.specs.Strangers.{ComesFrom};

use crate::arrivals::Arrivals;
use crate::departures::Departures;
use crate::refusals::Refused;
use crate::watches::Watch;
use dcp_net::{Done, Taken};
use dcp_types::Address;
use std::alloc::Global;
use std::net::Net;

/// An end with a listener of its own, and its connections both ways.
#[derive(Drop)]
pub(crate) struct TcpEnd {
    arrivals: Arrivals,
    departures: Departures,
}

impl TcpEnd {
    /// A listener at this address, and no connection yet.
    pub(crate) fn open<H: Net>(
        net: &H,
        watch: &Watch,
        alloc: Global,
        place: Address,
        all: &[Address],
    ) -> Result<TcpEnd, Refused>
        ensures place { IfOk result (λ end. end.departures.from ≡ place) }
        ensures arrivals { IfOk result (λ end. end.arrivals.connections.items ≡ []) }
        ensures leads { IfOk result (λ end. map leaving_of end.departures.outward.items ≡ map unconnected all.now) }
    {
        let arrivals = Arrivals::open(net, watch, alloc, place)?;
        let departures = Departures::new(alloc, place, all)?;
        Ok(TcpEnd {
            arrivals,
            departures,
        })
    }

    /// Where it is.
    pub(crate) fn place(&self) -> Address
        ensures { result ≡ self.now.departures.from }
    {
        self.departures.from()
    }

    /// Sends a message over the connection to its receiver.
    pub(crate) fn send<H: Net>(
        &mut self,
        net: &H,
        watch: &Watch,
        alloc: Global,
        to: Address,
        bytes: &[u8],
    ) -> Done
        requires low { 1 ≤ length bytes.now }
        requires high { length bytes.now ≤ 1024 }
        ensures arrivals { self.new.arrivals ≡ self.old.arrivals }
        ensures from { self.new.departures.from ≡ self.old.departures.from }
        ensures departs { DepartsIf result self.old.departures.from to bytes.now self.old.departures.outward.items self.new.departures.outward.items }
    {
        match self.departures.send(net, watch, alloc, to, bytes) {
            Ok(()) => Done::Ok,
            Err(_) => Done::OutOfMemory,
        }
    }

    /// Writes what still waits to be sent, and takes the next message, if one has come.
    pub(crate) fn take(
        &mut self,
        watch: &Watch,
        alloc: Global,
        all: &[Address],
        room: &mut [u8; 1025],
    ) -> Taken
        ensures from { self.new.departures.from ≡ self.old.departures.from }
        ensures flushes { FlushesAll self.old.departures.outward.items self.new.departures.outward.items }
        ensures len { IsWithinRoom result }
        ensures known { ComesFrom all.now result }
        ensures handed { Given result (map inlet_of self.new.arrivals.connections.items) room.new }
    {
        self.departures.flush();
        self.arrivals.take(watch, alloc, all, room)
    }
}
