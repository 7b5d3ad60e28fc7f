//! One direction of a bridge: what comes in on one side goes out on the other.

ghost use Rattle.std.specs.Prelude.{◌≡◌, ◌+◌, ◌*◌, ◌<◌, ◌≤◌, ◌^◌, ◌∷◌, [], true, false, length, IfOk, OnOk, OnErr, IsTrue};
ghost use Rattle.dcp_ends.specs.declared.entries.LogEntry.TheVariants.{Got};
ghost use Rattle.rounds.specs.Rounds.{EachEnd};
ghost use Rattle.rounds.specs.Steps.{Caused};
ghost use Rattle.bridge.specs.Passes.{TakesAt, count_of, is_from_here};
ghost use Rattle.bridge.specs.Steps.{Admits, AnyCalls, Forwards, TakesIn, TakesOne};

use crate::carrying::carry;
use crate::crossings::{Content, Crossing, LONGEST};
use crate::passing::Passed;
use crate::sides::BridgeSide;
use circular_buffer::HeapCircularBuffer;
use dcp_net::{Addresses, Done, Net, Taken};
use dcp_types::{Address, OutOfMemory};
use rounds::HostFault;
use std::alloc::Global;
use std::marker::Model;

/// How many messages have room to wait.
const MOST_WAITING: usize = 256;

/// The most datagrams that are taken at an address in one round.
const MOST_GRAMS: u8 = 64;

/// One direction: where its messages go, and those that wait, at most 256. Contracts see these and who lives
/// on the side where they come in.
#[derive(Drop)]
pub(crate) struct Way {
    to: BridgeSide,
    living: Addresses,
    waiting: HeapCircularBuffer<Crossing>,
}

impl Model for Way {
    ghost use Rattle.std.specs.Prelude.{◌≡◌};
    ghost use Rattle.bridge.specs.Bridges.{WayView};

    ghost Value = { WayView };

    ghost view = { λ w. record { to = w.to; living = w.living; waiting = w.waiting.items } };

    ghost invariant = { λ w. w.waiting.capacity ≡ 256 };
}

impl Way {
    /// The direction to this side of messages from these ends. It takes all the memory that it needs.
    pub(crate) fn new(alloc: Global, to: BridgeSide, living: Addresses) -> Result<Way, OutOfMemory>
        ensures { IfOk result (λ way. way ≡ record { to = to; living = living; waiting = [] }) }
    {
        let waiting = HeapCircularBuffer::with_capacity(alloc, MOST_WAITING)?;
        Ok(Way {
            to,
            living,
            waiting,
        })
    }

    /// How many messages wait.
    pub(crate) fn waiting(&self) -> usize
        ensures { result ≡ length self.now.waiting }
    {
        self.waiting.len()
    }

    /// Whether a datagram with this sender is an end's message.
    fn is_from_here(&self, from: Address, bytes: &[u8]) -> bool
        ensures { result ≡ is_from_here self.now.living from bytes.now }
    {
        !bytes.is_empty() && bytes.len() <= LONGEST && self.living.as_slice().contains(&from)
    }

    /// Lets a datagram wait that was taken at this address, as it is to go out; or gives it up.
    fn admit(&mut self, at: Address, from: Address, bytes: &mut [u8], passed: &mut Passed)
        requires { count_of passed.old + 1 < 2 ^ 32 }
        ensures admits { Admits (Got at from bytes.old ∷ []) self.old self.new passed.old passed.new }
        ensures few { count_of passed.new ≡ count_of passed.old + 1 }
    {
        if !self.is_from_here(from, bytes) {
            passed.strange += 1;
            return;
        }
        carry(self.to, bytes);
        let message = Crossing {
            from,
            to: at,
            bytes: Content::new(bytes),
        };
        match self.waiting.try_push_back(message) {
            Ok(()) => passed.carried += 1,
            Err(_) => passed.dropped += 1,
        }
    }

    /// Takes once at this address; the answer says whether a datagram came.
    fn take_one<N: Net>(
        &mut self,
        net: &mut N,
        at: Address,
        room: &mut [u8; 1025],
        passed: &mut Passed,
    ) -> Result<bool, HostFault>
        requires is_open { IsTrue (N.is_open net.old) }
        requires few { count_of passed.old + 1 < 2 ^ 32 }
        ensures is_open { IsTrue (N.is_open net.new) }
        ensures opening { N.opening net.new ≡ N.opening net.old }
        ensures ok { IfOk result (λ more. TakesIn N.calls (TakesOne at more) net.old net.new self.old self.new passed.old passed.new) }
        ensures err { OnErr result (TakesIn N.calls AnyCalls net.old net.new self.old self.new passed.old passed.new) }
        ensures few { count_of passed.new ≤ count_of passed.old + 1 }
        ensures cause { Caused (N.count net.old) (N.count net.new) result }
    {
        match net.take(at, room) {
            Taken::Nothing => Ok(false),
            Taken::Gram { from, len } => {
                self.admit(at, from, &mut room[..len], passed);
                Ok(true)
            }
            Taken::Failed => Err(HostFault::Net {
                count: net.faults(),
            }),
            Taken::OutOfMemory => Err(HostFault::OutOfMemory),
        }
    }

    /// Takes at this address until nothing comes, at most 64 datagrams.
    fn take_all<N: Net>(
        &mut self,
        net: &mut N,
        at: Address,
        room: &mut [u8; 1025],
        passed: &mut Passed,
    ) -> Result<(), HostFault>
        requires is_open { IsTrue (N.is_open net.old) }
        requires few { count_of passed.old + 64 < 2 ^ 32 }
        ensures is_open { IsTrue (N.is_open net.new) }
        ensures opening { N.opening net.new ≡ N.opening net.old }
        ensures ok { OnOk result (TakesIn N.calls (TakesAt at) net.old net.new self.old self.new passed.old passed.new) }
        ensures err { OnErr result (TakesIn N.calls AnyCalls net.old net.new self.old self.new passed.old passed.new) }
        ensures few { count_of passed.new ≤ count_of passed.old + 64 }
        ensures cause { Caused (N.count net.old) (N.count net.new) result }
    {
        'takes: for _got in 0..MOST_GRAMS {
            let more = self.take_one(net, at, room, passed)?;
            if !more {
                return Ok(());
            }
        }
        Ok(())
    }

    /// Takes at each of these addresses, and counts what came.
    pub(crate) fn gather<N: Net>(
        &mut self,
        net: &mut N,
        ends: &[Address],
        room: &mut [u8; 1025],
        passed: &mut Passed,
    ) -> Result<(), HostFault>
        requires is_open { IsTrue (N.is_open net.old) }
        requires few { count_of passed.old + 64 * length ends.now < 2 ^ 32 }
        ensures is_open { IsTrue (N.is_open net.new) }
        ensures opening { N.opening net.new ≡ N.opening net.old }
        ensures ok { OnOk result (TakesIn N.calls (EachEnd TakesAt ends.now) net.old net.new self.old self.new passed.old passed.new) }
        ensures err { OnErr result (TakesIn N.calls AnyCalls net.old net.new self.old self.new passed.old passed.new) }
        ensures few { count_of passed.new ≤ count_of passed.old + 64 * length ends.now }
        ensures cause { Caused (N.count net.old) (N.count net.new) result }
    {
        'ends: for at in ends {
            self.take_all(net, *at, room, passed)?;
        }
        Ok(())
    }

    /// Sends the first of what waits; the answer says whether one waited.
    fn send_first<N: Net>(&mut self, net: &mut N) -> Result<bool, HostFault>
        requires { IsTrue (N.is_open net.old) }
        ensures is_open { IsTrue (N.is_open net.new) }
        ensures opening { N.opening net.new ≡ N.opening net.old }
        ensures forwards { Forwards N.calls net.old net.new self.old self.new }
        ensures fewer { IfOk result (λ more. more ≡ true → length self.new.waiting < length self.old.waiting) }
        ensures none { IfOk result (λ more. more ≡ false → self.new.waiting ≡ []) }
        ensures cause { Caused (N.count net.old) (N.count net.new) result }
    {
        let Some(message) = self.waiting.front() else {
            return Ok(false);
        };
        match net.send(message.from, message.to, message.bytes.as_slice()) {
            Done::Ok => {
                drop(self.waiting.pop_front());
                Ok(true)
            }
            Done::Failed => Err(HostFault::Net {
                count: net.faults(),
            }),
            Done::OutOfMemory => Err(HostFault::OutOfMemory),
        }
    }

    /// Sends what waits, in order. What a fault kept back waits on.
    pub(crate) fn forward<N: Net>(&mut self, net: &mut N) -> Result<(), HostFault>
        requires { IsTrue (N.is_open net.old) }
        ensures is_open { IsTrue (N.is_open net.new) }
        ensures opening { N.opening net.new ≡ N.opening net.old }
        ensures forwards { Forwards N.calls net.old net.new self.old self.new }
        ensures all { OnOk result (self.new.waiting ≡ []) }
        ensures cause { Caused (N.count net.old) (N.count net.new) result }
    {
        'sends: while self.send_first(net)? {}
        Ok(())
    }
}
