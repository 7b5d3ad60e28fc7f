//! What one end sends over TCP: a connection to each end that it has sent to.

ghost use Rattle.std.specs.Prelude.{◌≡◌, ◌≤◌, ◌&&◌, nat_lt, None, drop, map, length, IfOk, OnErr, MatchOption};
ghost use Rattle.live_net.specs.Departures.{Connects, Flushes, FlushesAll, FlushesIfAny, FlushesOutward, PostsIfAny, Sends, WritesAs, is_lost, leaving_of, unconnected};
ghost use Rattle.live_net.specs.Receivers.{Departs, place_to};

use crate::addresses::socket_of;
use crate::sockets::{Bound, stream_to};
use crate::streams::Stream;
use crate::watches::Watch;
use dcp_types::{Address, OutOfMemory};
use mio::net::TcpStream;
use std::alloc::Global;
use std::net::Net;
use stream_frame::{Flushed, Link};

/// The connection to one end, once it is wanted.
#[derive(Drop)]
pub(crate) struct Outward {
    to: Address,
    link: Option<Link<Stream<Bound<TcpStream>>>>,
}

/// The connections of one end to all ends, its own place among them. So it has no more of them than there
/// are ends, whoever asks it for an answer.
#[derive(Drop)]
pub(crate) struct Departures {
    from: Address,
    outward: Vec<Outward>,
}

impl Departures {
    /// No connection yet.
    pub(crate) fn new(
        alloc: Global,
        from: Address,
        all: &[Address],
    ) -> Result<Departures, OutOfMemory>
        ensures from { IfOk result (λ made. made.from ≡ from) }
        ensures leads { IfOk result (λ made. map leaving_of made.outward.items ≡ map unconnected all.now) }
    {
        let mut outward = Vec::new(alloc);
        for to in all {
            outward.push(Outward {
                to: *to,
                link: None,
            })?;
        }
        Ok(Departures { from, outward })
    }

    /// The sender of all messages.
    pub(crate) fn from(&self) -> Address
        ensures { result ≡ self.now.from }
    {
        self.from
    }

    /// Sends a message. It is lost where it goes to none of the ends, where no connection can be made, or
    /// where too many bytes wait already.
    pub(crate) fn send<H: Net>(
        &mut self,
        net: &H,
        watch: &Watch,
        alloc: Global,
        to: Address,
        bytes: &[u8],
    ) -> Result<(), OutOfMemory>
        requires low { 1 ≤ length bytes.now }
        requires high { length bytes.now ≤ 1024 }
        ensures from { self.new.from ≡ self.old.from }
        ensures departs { IfOk result (λ _. Departs self.old.from to bytes.now self.old.outward.items self.new.outward.items) }
        ensures nothing { OnErr result (self.new.outward.items ≡ self.old.outward.items) }
    {
        match self.find(to) {
            Some(i) => self.outward[i].send(net, watch, alloc, self.from, bytes),
            None => Ok(()),
        }
    }

    /// Writes what waits, as far as the streams take it.
    pub(crate) fn flush(&mut self)
        ensures from { self.new.from ≡ self.old.from }
        ensures flushes { FlushesAll self.old.outward.items self.new.outward.items }
    {
        flush_all(&mut self.outward);
    }

    /// The place of the connection to this end.
    fn find(&self, to: Address) -> Option<usize>
        ensures { result ≡ place_to to self.now.outward.items }
    {
        self.outward.iter().position(|outward| outward.to == to)
    }
}

impl Outward {
    /// Sends a message from this sender over the connection, which is begun where there is none.
    fn send<H: Net>(
        &mut self,
        net: &H,
        watch: &Watch,
        alloc: Global,
        from: Address,
        bytes: &[u8],
    ) -> Result<(), OutOfMemory>
        requires low { 1 ≤ length bytes.now }
        requires high { length bytes.now ≤ 1024 }
        ensures sends { IfOk result (λ _. Sends from bytes.now self.old self.new) }
        ensures nothing { OnErr result (self.new ≡ self.old) }
    {
        self.connect(net, watch, alloc, from)?;
        self.post(bytes);
        Ok(())
    }

    /// Begins a connection where there is none, if the system gives one.
    fn connect<H: Net>(
        &mut self,
        net: &H,
        watch: &Watch,
        alloc: Global,
        from: Address,
    ) -> Result<(), OutOfMemory>
        ensures to { self.new.to ≡ self.old.to }
        ensures connects { IfOk result (λ _. Connects from self.old.to self.old.link self.new.link) }
        ensures nothing { OnErr result (self.new.link ≡ self.old.link) }
    {
        if self.link.is_some() {
            return Ok(());
        }
        if let Ok(stream) = stream_to(net, watch, socket_of(self.to)) {
            self.link = Some(Link::new(alloc, from, Stream::new(stream))?);
        }
        Ok(())
    }

    /// Lets a message wait, and writes what waits.
    fn post(&mut self, bytes: &[u8])
        requires low { 1 ≤ length bytes.now }
        requires high { length bytes.now ≤ 1024 }
        ensures to { self.new.to ≡ self.old.to }
        ensures posts { PostsIfAny bytes.now self.old.link self.new.link }
    {
        if let Some(link) = &mut self.link {
            let _ = link.post(bytes);
        }
        self.flush();
    }

    /// Writes what waits. A connection that is broken is closed, and what waits is lost.
    fn flush(&mut self)
        ensures { FlushesOutward self.old self.new }
    {
        let is_lost = match &mut self.link {
            Some(link) => is_lost(link),
            None => false,
        };
        if is_lost {
            self.link = None;
        }
    }
}

/// Writes what waits on each of these connections.
fn flush_all(connections: &mut [Outward])
    ensures { FlushesAll connections.old connections.new }
{
    for outward in connections.iter_mut() {
        outward.flush();
    }
}

/// Writes what waits, and says whether bytes wait that never will be written.
fn is_lost(link: &mut Link<Stream<Bound<TcpStream>>>) -> bool
    ensures lost { result ≡ is_lost link.new }
    ensures writes { WritesAs link.old.waits link.old link.new }
{
    link.is_waiting() && link.flush() == Flushed::Failed && link.sink().is_over()
}
