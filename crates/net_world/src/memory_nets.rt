//! The network in memory.

ghost use Rattle.std.specs.Prelude.{◌≡◌, ◌≤◌, ◌+◌, ◌-◌, ◌↔◌, [], true, false, length, IfSome, IsTrue, MatchOption, Some, None, ⊤, if◌then◌else◌};
ghost use Rattle.dcp_io.specs.Faults.{Rose};
ghost use Rattle.dcp_net.specs.Nets.{HasCause, IsWithinRoom, sent_entries, told_more, took_entries};
ghost use Rattle.net_world.specs.Calls.{AllRecent, GivesDue};
ghost use Rattle.net_world.specs.World.{TakesOpened, calls_of, fails_now, is_opened, is_chosen, carried_opening, sent_of};

use crate::sure_nets::SureNet;
use dcp_net::{Done, Net, Opening, Taken};
use dcp_types::Address;
use std::alloc::Global;
use std::marker::Model;

/// The kinds of calls that can be made to fail.
#[derive(Clone, Copy, Debug, PartialEq, Eq)]
pub enum NetCall {
    Begin,
    Send,
    Take,
}

/// A network in memory as `SureNet` is one, of which one call may be made to fail.
#[derive(Drop)]
pub struct MemoryNet {
    net: SureNet,
    fails: Option<NetCall>,
    before_it: u64,
    faults: u64,
}

impl MemoryNet {
    /// A network that is not open, and of which no call fails.
    pub fn new(alloc: Global) -> MemoryNet
        ensures closed { result.net.traffic ≡ None }
        ensures faults { result.faults ≡ 0 }
        ensures never { result.fails ≡ None }
    {
        MemoryNet {
            net: SureNet::new(alloc),
            fails: None,
            before_it: 0,
            faults: 0,
        }
    }

    /// A network that is not open, and of which the call of this kind with this number, from 1, fails.
    pub fn failing(alloc: Global, call: NetCall, nth: u64) -> MemoryNet
        requires { 1 ≤ nth }
        ensures closed { result.net.traffic ≡ None }
        ensures faults { result.faults ≡ 0 }
        ensures fails { result.fails ≡ Some call }
        ensures nth { result.before_it + 1 ≡ nth }
    {
        MemoryNet {
            net: SureNet::new(alloc),
            fails: Some(call),
            before_it: nth - 1,
            faults: 0,
        }
    }

    /// How many messages were sent since the network was opened, and none before that. Each take since then
    /// gave what was due, and nothing only where nothing was.
    pub fn sent(&self) -> u64
        ensures sent { result ≡ sent_of self.now.net.traffic }
        ensures given { IfSome self.now.net.traffic (λ carried. GivesDue carried.opening [] carried.calls) }
        ensures recent { IfSome self.now.net.traffic (λ carried. AllRecent [] carried.calls) }
    {
        self.net.sent()
    }

    /// Whether this call is the one that fails.
    fn strikes(&mut self, call: NetCall) -> bool
        ensures fails { result ≡ fails_now call self.old.fails self.old.before_it }
        ensures once { result ≡ true → self.new.fails ≡ None }
        ensures before { result ≡ false → (self.new.fails ≡ self.old.fails) × (self.new.before_it ≡ (if is_chosen call self.old.fails then self.old.before_it - 1 else self.old.before_it)) }
        ensures later { self.old.faults ≤ self.new.faults }
        ensures rose { result ≡ true → Rose self.old.faults self.new.faults }
        ensures same { result ≡ false → self.new.faults ≡ self.old.faults }
        ensures traffic { self.new.net.traffic ≡ self.old.net.traffic }
    {
        if !is_chosen(call, self.fails) {
            return false;
        }
        if self.before_it > 0 {
            self.before_it -= 1;
            return false;
        }
        self.fails = None;
        self.faults = self.faults.saturating_add(1);
        true
    }
}

/// Whether calls of this kind were chosen.
fn is_chosen(call: NetCall, chosen: Option<NetCall>) -> bool
    ensures { result ≡ is_chosen call chosen }
{
    match (chosen, call) {
        (Some(NetCall::Begin), NetCall::Begin)
        | (Some(NetCall::Send), NetCall::Send)
        | (Some(NetCall::Take), NetCall::Take) => true,
        _ => false,
    }
}

impl Net for MemoryNet {
    ghost calls = { λ s. calls_of s.net.traffic };

    ghost opening = { λ s. carried_opening s.net.traffic };

    ghost count = { λ s. s.faults };

    ghost is_open = { λ s. is_opened s.net.traffic };

    fn begin(&mut self, plan: &Opening) -> Done
        ensures opened { result ≡ Done.Ok → IsTrue (is_opened self.new.net.traffic) }
        ensures empty { result ≡ Done.Ok → MatchOption (calls_of self.new.net.traffic) ⊤ (λ l. l ≡ []) }
        ensures plan { result ≡ Done.Ok → MatchOption (carried_opening self.new.net.traffic) ⊤ (λ o. o ≡ plan.now) }
        ensures cause { HasCause self.old.faults self.new.faults (result ≡ Done.Failed) }
        ensures fails { (result ≡ Done.Failed) ↔ IsTrue (fails_now NetCall.Begin self.old.fails self.old.before_it) }
    {
        if self.strikes(NetCall::Begin) {
            return Done::Failed;
        }
        self.net.begin(plan)
    }

    fn send(&mut self, from: Address, to: Address, bytes: &[u8]) -> Done
        requires is_open { IsTrue (is_opened self.old.net.traffic) }
        requires low { 1 ≤ length bytes.now }
        requires high { length bytes.now ≤ 1024 }
        ensures is_open { IsTrue (is_opened self.new.net.traffic) }
        ensures calls { calls_of self.new.net.traffic ≡ told_more (calls_of self.old.net.traffic) (sent_entries result from to bytes.now) }
        ensures opening { carried_opening self.new.net.traffic ≡ carried_opening self.old.net.traffic }
        ensures cause { HasCause self.old.faults self.new.faults (result ≡ Done.Failed) }
        ensures fails { (result ≡ Done.Failed) ↔ IsTrue (fails_now NetCall.Send self.old.fails self.old.before_it) }
    {
        if self.strikes(NetCall::Send) {
            return Done::Failed;
        }
        self.net.send(from, to, bytes)
    }

    /// Gives what is due by the plan and the list of calls, and nothing exactly where nothing is.
    fn take(&mut self, at: Address, room: &mut [u8; 1025]) -> Taken
        requires { IsTrue (is_opened self.old.net.traffic) }
        ensures is_open { IsTrue (is_opened self.new.net.traffic) }
        ensures len { IsWithinRoom result }
        ensures calls { calls_of self.new.net.traffic ≡ told_more (calls_of self.old.net.traffic) (took_entries at result room.new) }
        ensures opening { carried_opening self.new.net.traffic ≡ carried_opening self.old.net.traffic }
        ensures cause { HasCause self.old.faults self.new.faults (result ≡ Taken.Failed) }
        ensures due { TakesOpened self.old.net.traffic at result room.new }
        ensures ample { result ≡ Taken.OutOfMemory → ⊥ }
        ensures fails { (result ≡ Taken.Failed) ↔ IsTrue (fails_now NetCall.Take self.old.fails self.old.before_it) }
    {
        if self.strikes(NetCall::Take) {
            return Taken::Failed;
        }
        self.net.take(at, room)
    }

    fn faults(&self) -> u64 {
        self.faults
    }
}
