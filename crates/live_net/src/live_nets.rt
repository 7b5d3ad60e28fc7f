//! The network over sockets.

ghost use Rattle.std.specs.Prelude.{◌≡◌, ◌≢◌, ◌≤◌, ◌<◌, ⊤, [], false, true, length, map, position, IfOk, IfSome, IsTrue, OnErr};
ghost use Rattle.dcp_io.specs.Faults.{one_more};
ghost use Rattle.dcp_ends.specs.Logs.{same_address};
ghost use Rattle.dcp_net.specs.Nets.{HasCause, IsWithinRoom};
ghost use Rattle.live_net.specs.Live.{SendsFrom, TakesHere, has_socket, socket_places, socket_end, opened_as, end_place};
ghost use Rattle.live_net.specs.Strangers.{ComesFrom};

use crate::answers::begun_of;
use crate::live_ends::LiveEnd;
use crate::refusals::Refused;
use crate::waits::MioReady;
use crate::watches::Watch;
use dcp_net::{Done, Net, Opening, Taken};
use dcp_types::{Address, Protocol};
use std::alloc::Global;
use std::marker::Model;
use std::net;
use std::rc::Rc;
use std::rt::Clock;

/// A network over sockets, by UDP or TCP as it is opened. It tells neither its calls nor what it was opened
/// with, since no one knows what a socket does; a plan of what is to be lost or held back it ignores.
///
/// Contracts see all ends, those of them that have a socket of their own, with what waits there, and how often
/// it has failed.
#[derive(Drop)]
pub struct LiveNet<H: net::Net + Clone + Drop> {
    net: H,
    alloc: Global,
    watch: Rc<Watch>,
    all: Rc<Vec<Address>>,
    ends: Vec<LiveEnd>,
    faults: u64,
}

impl<H: net::Net + Clone + Drop> Model for LiveNet<H> {
    ghost use Rattle.std.specs.Prelude.{map};
    ghost use Rattle.live_net.specs.Live.{Live, socket_end};

    ghost Value = { Live };

    ghost view = { λ s. record { all = s.all.value.items; ends = map socket_end s.ends.items; faults = s.faults } };
}

impl<H: net::Net + Clone + Drop> LiveNet<H> {
    /// A network with no socket yet, whose sockets are watched by the waits of `ready`: over TCP a connection
    /// is let in once one of these has told of it.
    pub fn new(rt: &H, alloc: Global, ready: &MioReady<H>) -> Result<LiveNet<H>, Refused>
    where
        H: Clock,
        ensures { IfOk result (λ made. made ≡ record { all = []; ends = []; faults = 0 }) }
    {
        let net = rt.clone()?;
        let watch = ready.watch()?;
        let all = Rc::new(alloc, Vec::new(alloc))?;
        Ok(LiveNet {
            net,
            alloc,
            watch,
            all,
            ends: Vec::new(alloc),
            faults: 0,
        })
    }

    /// Opens a socket for each of the ends that are hosted. Where one cannot be had, none stays open.
    fn open(&mut self, plan: &Opening) -> Result<(), Refused>
        ensures all { IfOk result (λ _. self.new.all ≡ plan.now.all) }
        ensures opened { IfOk result (λ _. self.new.ends ≡ map (opened_as plan.now.protocol plan.now.all) plan.now.ends) }
        ensures closed { OnErr result (self.new.ends ≡ []) }
        ensures faults { self.new.faults ≡ self.old.faults }
    {
        self.ends = Vec::new(self.alloc);
        let all = plan.all.as_slice().to_vec(self.alloc)?;
        self.all = Rc::new(self.alloc, all)?;
        self.ends = open_all(
            &self.net,
            &self.watch,
            self.alloc,
            plan.protocol,
            plan.ends.as_slice(),
            &self.all,
        )?;
        Ok(())
    }

    /// The place of the hosted end at this address.
    fn find(&self, at: Address) -> Option<usize>
        ensures place { result ≡ end_place at self.now.ends }
        ensures within { IfSome result (λ i. i < length self.now.ends) }
    {
        place_in(&self.ends, at)
    }

    /// Sends by the socket of the sending end, where it has one.
    fn send_by(&mut self, from: Address, to: Address, bytes: &[u8]) -> Done
        requires low { 1 ≤ length bytes.now }
        requires high { length bytes.now ≤ 1024 }
        ensures sends { SendsFrom from to bytes.now result self.old self.new }
        ensures all { self.new.all ≡ self.old.all }
        ensures faults { self.new.faults ≡ self.old.faults }
    {
        match self.find(from) {
            Some(i) => self.ends[i].send(&self.net, &self.watch, self.alloc, to, bytes),
            None => Done::Ok,
        }
    }

    /// Takes by the socket of this end, where it has one.
    fn take_at(&mut self, at: Address, room: &mut [u8; 1025]) -> Taken
        ensures takes { TakesHere at result room.new self.old self.new }
        ensures all { self.new.all ≡ self.old.all }
        ensures faults { self.new.faults ≡ self.old.faults }
        ensures len { IsWithinRoom result }
        ensures known { ComesFrom self.old.all result }
    {
        match self.find(at) {
            Some(i) => self.ends[i].take(&self.watch, self.alloc, &self.all, room),
            None => Taken::Nothing,
        }
    }
}

/// The place among these of the end at this address.
fn place_in(ends: &[LiveEnd], at: Address) -> Option<usize>
    ensures place { result ≡ position (λ e. same_address (socket_end e).place at) ends.now }
    ensures within { IfSome result (λ i. i < length ends.now) }
{
    ends.iter().position(|end| end.place() == at)
}

/// An end with its sockets at each of these places. `all` are the ends that it may send to and
/// that it hears.
fn open_all<H: net::Net>(
    net: &H,
    watch: &Watch,
    alloc: Global,
    protocol: Protocol,
    places: &[Address],
    all: &Rc<Vec<Address>>,
) -> Result<Vec<LiveEnd>, Refused>
    ensures { IfOk result (λ ends. map socket_end ends.items ≡ map (opened_as protocol all.now.value.items) places.now) }
{
    let mut ends = Vec::new(alloc);
    for place in places {
        let end = LiveEnd::open(net, watch, alloc, protocol, *place, all)?;
        ends.push(end)?;
    }
    Ok(ends)
}

impl<H: net::Net + Clone + Drop> Net for LiveNet<H> {
    ghost use Rattle.std.specs.Prelude.{None, true};

    ghost calls = { λ s. None };

    ghost opening = { λ s. None };

    ghost count = { λ s. s.faults };

    ghost is_open = { λ s. true };

    /// Opens a socket for each of the ends that are hosted, after it has closed those that it had. Failed
    /// where the system refuses one, as where a port is in use.
    fn begin(&mut self, plan: &Opening) -> Done
        ensures opened { result ≡ Done.Ok → IsTrue true }
        ensures empty { result ≡ Done.Ok → ⊤ }
        ensures plan { result ≡ Done.Ok → ⊤ }
        ensures cause { HasCause self.old.faults self.new.faults (result ≡ Done.Failed) }
        ensures once { result ≡ Done.Failed → self.new.faults ≡ one_more self.old.faults }
        ensures hosted { result ≡ Done.Ok → socket_places self.new ≡ plan.now.ends }
        ensures ends { result ≡ Done.Ok → self.new.ends ≡ map (opened_as plan.now.protocol plan.now.all) plan.now.ends }
        ensures all { result ≡ Done.Ok → self.new.all ≡ plan.now.all }
        ensures closed { result ≢ Done.Ok → self.new.ends ≡ [] }
    {
        let begun = begun_of(&self.open(plan));
        if begun == Done::Failed {
            self.faults = self.faults.saturating_add(1);
        }
        begun
    }

    /// Sends by the socket of the sending end. The message of an end that has none is lost.
    fn send(&mut self, from: Address, to: Address, bytes: &[u8]) -> Done
        requires is_open { IsTrue true }
        requires low { 1 ≤ length bytes.now }
        requires high { length bytes.now ≤ 1024 }
        ensures is_open { IsTrue true }
        ensures calls { Unit {0} }
        ensures opening { Unit {0} }
        ensures cause { HasCause self.old.faults self.new.faults (result ≡ Done.Failed) }
        ensures once { result ≡ Done.Failed → self.new.faults ≡ one_more self.old.faults }
        ensures hosted { socket_places self.new ≡ socket_places self.old }
        ensures elsewhere { has_socket self.old from ≡ false → result ≡ Done.Ok }
        ensures sends { SendsFrom from to bytes.now result self.old self.new }
        ensures all { self.new.all ≡ self.old.all }
    {
        let sent = self.send_by(from, to, bytes);
        if sent == Done::Failed {
            self.faults = self.faults.saturating_add(1);
        }
        sent
    }

    /// Takes by the socket of the end what comes from one of the ends. An end that has none is given nothing.
    fn take(&mut self, at: Address, room: &mut [u8; 1025]) -> Taken
        requires { IsTrue true }
        ensures is_open { IsTrue true }
        ensures len { IsWithinRoom result }
        ensures calls { Unit {0} }
        ensures opening { Unit {0} }
        ensures cause { HasCause self.old.faults self.new.faults (result ≡ Taken.Failed) }
        ensures once { result ≡ Taken.Failed → self.new.faults ≡ one_more self.old.faults }
        ensures hosted { socket_places self.new ≡ socket_places self.old }
        ensures elsewhere { has_socket self.old at ≡ false → result ≡ Taken.Nothing }
        ensures takes { TakesHere at result room.new self.old self.new }
        ensures all { self.new.all ≡ self.old.all }
        ensures known { ComesFrom self.old.all result }
    {
        let taken = self.take_at(at, room);
        if taken == Taken::Failed {
            self.faults = self.faults.saturating_add(1);
        }
        taken
    }

    fn faults(&self) -> u64 {
        self.faults
    }
}
