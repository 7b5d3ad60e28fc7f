//! The network in memory of which no call fails.

ghost use Rattle.std.specs.Prelude.{◌≡◌, ◌≤◌, ◌↔◌, [], Some, length, IfSome, IsTrue, MatchOption, ⊤};
ghost use Rattle.dcp_net.specs.Nets.{HasCause, IsWithinRoom, sent_entries, told_more, took_entries};
ghost use Rattle.net_world.specs.Calls.{AllRecent, GivesDue};
ghost use Rattle.net_world.specs.World.{TakesOpened, calls_of, is_opened, carried_opening, sent_of};

use crate::traffics::Traffic;
use dcp_net::{Done, Net, Opening, Taken};
use dcp_types::Address;
use std::alloc::Global;
use std::marker::Model;

/// A network in memory, which treats messages as the plan says that it is opened with, and of which no call
/// fails. Contracts see what it was opened with and all its successful calls, of which it keeps no list.
///
/// A message comes at once, or when more messages have been sent, or twice, or not at all. `take` gives
/// what is due at its address, and nothing exactly where nothing is.
#[derive(Drop)]
pub struct SureNet {
    alloc: Global,
    traffic: Option<Traffic>,
}

impl SureNet {
    /// A network that is not open.
    pub fn new(alloc: Global) -> SureNet
        ensures closed { result.traffic ≡ None }
    {
        SureNet {
            alloc,
            traffic: None,
        }
    }

    /// How many messages were sent since the network was opened, and none before that. Each take since then
    /// gave what was due, and nothing only where nothing was.
    pub fn sent(&self) -> u64
        ensures sent { result ≡ sent_of self.now.traffic }
        ensures given { IfSome self.now.traffic (λ carried. GivesDue carried.opening [] carried.calls) }
        ensures recent { IfSome self.now.traffic (λ carried. AllRecent [] carried.calls) }
    {
        match &self.traffic {
            Some(traffic) => traffic.sent(),
            None => 0,
        }
    }
}

impl Net for SureNet {
    ghost calls = { λ s. calls_of s.traffic };

    ghost opening = { λ s. carried_opening s.traffic };

    ghost count = { λ s. 0 };

    ghost is_open = { λ s. is_opened s.traffic };

    fn begin(&mut self, plan: &Opening) -> Done
        ensures opened { result ≡ Done.Ok → IsTrue (is_opened self.new.traffic) }
        ensures empty { result ≡ Done.Ok → MatchOption (calls_of self.new.traffic) ⊤ (λ l. l ≡ []) }
        ensures plan { result ≡ Done.Ok → MatchOption (carried_opening self.new.traffic) ⊤ (λ o. o ≡ plan.now) }
        ensures cause { HasCause 0 0 (result ≡ Done.Failed) }
        ensures never { result ≡ Done.Failed → ⊥ }
    {
        match Traffic::new(self.alloc, plan) {
            Ok(traffic) => {
                self.traffic = Some(traffic);
                Done::Ok
            }
            Err(_) => Done::OutOfMemory,
        }
    }

    fn send(&mut self, from: Address, to: Address, bytes: &[u8]) -> Done
        requires is_open { IsTrue (is_opened self.old.traffic) }
        requires low { 1 ≤ length bytes.now }
        requires high { length bytes.now ≤ 1024 }
        ensures is_open { IsTrue (is_opened self.new.traffic) }
        ensures calls { calls_of self.new.traffic ≡ told_more (calls_of self.old.traffic) (sent_entries result from to bytes.now) }
        ensures opening { carried_opening self.new.traffic ≡ carried_opening self.old.traffic }
        ensures cause { HasCause 0 0 (result ≡ Done.Failed) }
        ensures never { result ≡ Done.Failed → ⊥ }
    {
        let Some(traffic) = &mut self.traffic else {
            unreachable!();
        };
        match traffic.send(self.alloc, from, to, bytes) {
            Ok(()) => Done::Ok,
            Err(_) => Done::OutOfMemory,
        }
    }

    /// Gives what is due by the plan and the list of calls, and nothing exactly where nothing is.
    fn take(&mut self, at: Address, room: &mut [u8; 1025]) -> Taken
        requires { IsTrue (is_opened self.old.traffic) }
        ensures is_open { IsTrue (is_opened self.new.traffic) }
        ensures len { IsWithinRoom result }
        ensures calls { calls_of self.new.traffic ≡ told_more (calls_of self.old.traffic) (took_entries at result room.new) }
        ensures opening { carried_opening self.new.traffic ≡ carried_opening self.old.traffic }
        ensures cause { HasCause 0 0 (result ≡ Taken.Failed) }
        ensures due { TakesOpened self.old.traffic at result room.new }
        ensures never { result ≡ Taken.Failed → ⊥ }
        ensures ample { result ≡ Taken.OutOfMemory → ⊥ }
    {
        let Some(traffic) = &mut self.traffic else {
            unreachable!();
        };
        traffic.take(at, room)
    }

    fn faults(&self) -> u64 {
        0
    }
}
