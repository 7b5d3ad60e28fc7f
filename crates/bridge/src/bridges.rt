//! A bridge between the ends on UDP and the ends on TCP.

ghost use Rattle.std.specs.Prelude.{◌≡◌, ◌<◌, ⊤, None, Err, length, IfOk, IfErr, IfSome, IsTrue, OnOk, MatchOption, []};
ghost use Rattle.bridge.specs.Bridges.{CallsBoth, IsPass, IsSameBut, bridge_of, stopped_by_fault, waiting_from};
ghost use Rattle.bridge.specs.Causes.{CauseOn};

use crate::faults::{BridgeFault, fault_on};
use crate::openings::{addresses_of, addresses_with, opened_with};
use crate::passing::Passed;
use crate::sides::BridgeSide;
use crate::ways::Way;
use dcp_net::{Done, Net, Opening};
use dcp_types::{OutOfMemory, Protocol};
use scenario::Scenario;
use std::alloc::Global;
use std::marker::Model;

/// Room for the longest datagram that a network gives, in bytes: one more than an end sends.
const ROOM: usize = 1025;

/// A bridge: it stands, on UDP, at the addresses of the ends on TCP, and on TCP at those of the ends on UDP,
/// so each end finds every other at its scenario address. `begin` opens both networks, and each `round` takes
/// what came on both sides and sends it on the other. A bridge that answered a fault answers it again from
/// then on, and calls nothing.
///
/// Contracts see what it opens on each side, its two directions with what waits in them, and the fault.
#[derive(Drop)]
pub struct Bridge {
    udp: Opening,
    tcp: Opening,
    to_tcp: Way,
    to_udp: Way,
    fault: Option<BridgeFault>,
}

impl Model for Bridge {
    ghost use Rattle.std.specs.Prelude.{◌≡◌, ◌≤◌, length};
    ghost use Rattle.bridge.specs.Bridges.{BridgeView};

    ghost Value = { BridgeView };

    ghost view = { λ b. record { udp = b.udp; tcp = b.tcp; to_tcp = b.to_tcp; to_udp = b.to_udp; fault = b.fault } };

    ghost invariant = { λ b. (length b.udp.ends ≤ 16) × (length b.tcp.ends ≤ 17) };
}

impl Bridge {
    /// A bridge for a scenario of which the master and the slaves up to `udp_slaves` live on UDP, and the other
    /// slaves on TCP. It takes the memory of two queues of 256 messages.
    pub fn new(alloc: Global, scenario: &Scenario, udp_slaves: u8) -> Result<Bridge, OutOfMemory>
        requires { udp_slaves < length scenario.now.slaves }
        ensures { IfOk result (λ bridge. bridge ≡ bridge_of scenario.now udp_slaves) }
    {
        let slaves = scenario.slaves.as_slice();
        let (here, there) = slaves.split_at(usize::from(udp_slaves));
        let on_udp = addresses_with(alloc, scenario.master, here)?;
        let on_tcp = addresses_of(alloc, there)?;
        let to_tcp = Way::new(
            alloc,
            BridgeSide::Tcp,
            addresses_with(alloc, scenario.master, here)?,
        )?;
        let to_udp = Way::new(alloc, BridgeSide::Udp, addresses_of(alloc, there)?)?;
        Ok(Bridge {
            udp: opened_with(alloc, scenario, Protocol::Udp, on_tcp)?,
            tcp: opened_with(alloc, scenario, Protocol::Tcp, on_udp)?,
            to_tcp,
            to_udp,
            fault: None,
        })
    }

    /// Opens both networks, before the first round. It may be called again, which opens them again.
    pub fn begin<U: Net, T: Net>(&mut self, udp: &mut U, tcp: &mut T) -> Result<(), BridgeFault>
        ensures kept { IfSome self.old.fault (λ fault. (result ≡ Err fault) × (self.new ≡ self.old) × (udp.new ≡ udp.old) × (tcp.new ≡ tcp.old)) }
        ensures same { self.new ≡ record self.old { fault = stopped_by_fault result } }
        ensures is_open { OnOk result (IsTrue (U.is_open udp.new) × IsTrue (T.is_open tcp.new)) }
        ensures told { OnOk result (MatchOption (U.calls udp.new) ⊤ (λ calls. calls ≡ []) × MatchOption (T.calls tcp.new) ⊤ (λ calls. calls ≡ [])) }
        ensures opening { OnOk result (MatchOption (U.opening udp.new) ⊤ (λ opening. opening ≡ self.old.udp) × MatchOption (T.opening tcp.new) ⊤ (λ opening. opening ≡ self.old.tcp)) }
        ensures cause { self.old.fault ≡ None → IfErr result (CauseOn (U.count udp.old) (U.count udp.new) (T.count tcp.old) (T.count tcp.new)) }
        ensures unfailed { OnOk result ((U.count udp.new ≡ U.count udp.old) × (T.count tcp.new ≡ T.count tcp.old)) }
    {
        if let Some(fault) = self.fault {
            return Err(fault);
        }
        let result = self.open(udp, tcp);
        self.fault = result.err();
        result
    }

    /// Takes on UDP for each end on TCP, and on TCP for each end on UDP, until nothing comes, at most 64
    /// datagrams each; then sends on TCP all that came from UDP, and on UDP all that came from TCP.
    pub fn round<U: Net, T: Net>(&mut self, udp: &mut U, tcp: &mut T) -> Result<Passed, BridgeFault>
        requires udp_open { self.old.fault ≡ None → IsTrue (U.is_open udp.old) }
        requires tcp_open { self.old.fault ≡ None → IsTrue (T.is_open tcp.old) }
        ensures kept { IfSome self.old.fault (λ fault. (result ≡ Err fault) × (self.new ≡ self.old) × (udp.new ≡ udp.old) × (tcp.new ≡ tcp.old)) }
        ensures same { IsSameBut (stopped_by_fault result) self.old self.new }
        ensures udp_open { IsTrue (U.is_open udp.old) → IsTrue (U.is_open udp.new) }
        ensures tcp_open { IsTrue (T.is_open tcp.old) → IsTrue (T.is_open tcp.new) }
        ensures opening { (U.opening udp.new ≡ U.opening udp.old) × (T.opening tcp.new ≡ T.opening tcp.old) }
        ensures passes { CallsBoth U.calls T.calls (IsPass self.old self.new result) udp.old udp.new tcp.old tcp.new }
        ensures cause { self.old.fault ≡ None → IfErr result (CauseOn (U.count udp.old) (U.count udp.new) (T.count tcp.old) (T.count tcp.new)) }
        ensures unfailed { OnOk result ((U.count udp.new ≡ U.count udp.old) × (T.count tcp.new ≡ T.count tcp.old)) }
    {
        if let Some(fault) = self.fault {
            return Err(fault);
        }
        let result = self.pass(udp, tcp);
        self.fault = result.err();
        result
    }

    /// How many messages wait that came in on this side.
    pub fn waiting(&self, from: BridgeSide) -> usize
        ensures { result ≡ length (waiting_from from self.now) }
    {
        match from {
            BridgeSide::Udp => self.to_tcp.waiting(),
            BridgeSide::Tcp => self.to_udp.waiting(),
        }
    }

    /// Opens both networks.
    fn open<U: Net, T: Net>(&self, udp: &mut U, tcp: &mut T) -> Result<(), BridgeFault>
        ensures is_open { OnOk result (IsTrue (U.is_open udp.new) × IsTrue (T.is_open tcp.new)) }
        ensures told { OnOk result (MatchOption (U.calls udp.new) ⊤ (λ calls. calls ≡ []) × MatchOption (T.calls tcp.new) ⊤ (λ calls. calls ≡ [])) }
        ensures opening { OnOk result (MatchOption (U.opening udp.new) ⊤ (λ opening. opening ≡ self.now.udp) × MatchOption (T.opening tcp.new) ⊤ (λ opening. opening ≡ self.now.tcp)) }
        ensures cause { IfErr result (CauseOn (U.count udp.old) (U.count udp.new) (T.count tcp.old) (T.count tcp.new)) }
        ensures unfailed { OnOk result ((U.count udp.new ≡ U.count udp.old) × (T.count tcp.new ≡ T.count tcp.old)) }
    {
        match udp.begin(&self.udp) {
            Done::Ok => {}
            Done::Failed => {
                return Err(BridgeFault::Udp {
                    count: udp.faults(),
                });
            }
            Done::OutOfMemory => return Err(BridgeFault::OutOfMemory),
        }
        match tcp.begin(&self.tcp) {
            Done::Ok => Ok(()),
            Done::Failed => Err(BridgeFault::Tcp {
                count: tcp.faults(),
            }),
            Done::OutOfMemory => Err(BridgeFault::OutOfMemory),
        }
    }

    /// One round of a bridge that holds no fault.
    fn pass<U: Net, T: Net>(&mut self, udp: &mut U, tcp: &mut T) -> Result<Passed, BridgeFault>
        requires udp_open { IsTrue (U.is_open udp.old) }
        requires tcp_open { IsTrue (T.is_open tcp.old) }
        ensures same { IsSameBut self.old.fault self.old self.new }
        ensures is_open { IsTrue (U.is_open udp.new) × IsTrue (T.is_open tcp.new) }
        ensures opening { (U.opening udp.new ≡ U.opening udp.old) × (T.opening tcp.new ≡ T.opening tcp.old) }
        ensures passes { CallsBoth U.calls T.calls (IsPass self.old self.new result) udp.old udp.new tcp.old tcp.new }
        ensures cause { IfErr result (CauseOn (U.count udp.old) (U.count udp.new) (T.count tcp.old) (T.count tcp.new)) }
        ensures unfailed { OnOk result ((U.count udp.new ≡ U.count udp.old) × (T.count tcp.new ≡ T.count tcp.old)) }
    {
        let mut room = [0; ROOM];
        let mut passed = Passed::none();
        if let Err(fault) = self
            .to_tcp
            .gather(udp, self.udp.ends.as_slice(), &mut room, &mut passed)
        {
            return Err(fault_on(BridgeSide::Udp, fault));
        }
        if let Err(fault) = self
            .to_udp
            .gather(tcp, self.tcp.ends.as_slice(), &mut room, &mut passed)
        {
            return Err(fault_on(BridgeSide::Tcp, fault));
        }
        if let Err(fault) = self.to_tcp.forward(tcp) {
            return Err(fault_on(BridgeSide::Tcp, fault));
        }
        if let Err(fault) = self.to_udp.forward(udp) {
            return Err(fault_on(BridgeSide::Udp, fault));
        }
        Ok(passed)
    }
}
