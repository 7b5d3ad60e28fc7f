//! A network that gives what a script says.

ghost use Rattle.std.specs.Prelude.{◌≡◌, ◌≤◌, [], ◌∷◌, ◌++◌, length, take, IsTrue, Some, None, true, false, if◌then◌else◌};
ghost use Rattle.dcp_net.specs.Firsts.{FindsFirst};
ghost use Rattle.dcp_net.specs.Nets.{told_more, took_entries, IsWithinRoom, HasCause};
ghost use Rattle.dcp_net.specs.Scripts.{AllFit, FollowsScript, is_for, rests_after, took_at};

use crate::grams::ScriptGram;
use crate::nets::{Done, Net, Taken};
use crate::openings::Opening;
use dcp_ends::{Bytes, LogEntry};
use dcp_types::Address;
use std::alloc::Global;
use std::marker::Model;

/// A network that gives the datagrams of a script in order, whoever is said to have sent them, and loses
/// what is sent. After each datagram the next take at that address gives nothing, so that an end is
/// given one datagram a round. It tells its calls and no opening.
#[derive(Debug, Drop)]
pub struct ScriptNet {
    alloc: Global,
    left: Vec<ScriptGram>,
    calls: Vec<LogEntry>,
}

impl Model for ScriptNet {
    ghost use Rattle.dcp_net.specs.Scripts.{NetScript, AllFit};

    ghost Value = { NetScript };

    ghost view = { λ s. record { left = s.left.items; calls = s.calls.items } };

    ghost invariant = { λ s. AllFit s.left.items };
}

impl ScriptNet {
    /// A network that gives these datagrams, each of at most 1,025 bytes.
    pub fn new(alloc: Global, grams: Vec<ScriptGram>) -> ScriptNet
        requires { AllFit grams.items }
        ensures { result ≡ record { left = grams.items; calls = [] } }
    {
        ScriptNet {
            alloc,
            left: grams,
            calls: Vec::new(alloc),
        }
    }
}

/// Whether this call took a datagram at this address, where it was a take there.
fn took(call: &LogEntry, at: Address) -> Option<bool>
    ensures { result ≡ took_at at call.now }
{
    match call {
        LogEntry::Got { at: place, .. } => (at == *place).then_some(true),
        LogEntry::Idle { at: place } => (at == *place).then_some(false),
        LogEntry::Sent { .. } | LogEntry::Turn { .. } => None,
    }
}

/// Whether the last take at this address gave a datagram.
fn rests(calls: &[LogEntry], at: Address) -> bool
    ensures { result ≡ rests_after at false calls.now }
{
    let mut i = calls.len();
    while i > 0 {
        i -= 1;
        if let Some(gave) = took(&calls[i], at) {
            return gave;
        }
    }
    false
}

/// The place of the first datagram for this address.
fn first_for(grams: &[ScriptGram], at: Address) -> Option<usize>
    ensures { FindsFirst (is_for at) grams.now result }
{
    for (i, gram) in grams.iter().enumerate() {
        if gram.at == at {
            return Some(i);
        }
    }
    None
}

/// Puts the bytes to the front of the room.
fn put_front(room: &mut [u8; 1025], bytes: &[u8])
    requires { length bytes.now ≤ 1025 }
    ensures { take (length bytes.now) room.new ≡ bytes.now }
{
    room[..bytes.len()].copy_from_slice(bytes);
}

impl Net for ScriptNet {
    ghost use Rattle.std.specs.Prelude.{Some, None, true};

    ghost calls = { λ s. Some s.calls };

    ghost opening = { λ s. None };

    ghost count = { λ s. 0 };

    ghost is_open = { λ s. true };

    fn begin(&mut self, plan: &Opening) -> Done {
        self.calls.clear();
        Done::Ok
    }

    fn send(&mut self, from: Address, to: Address, bytes: &[u8]) -> Done {
        if self.calls.reserve(1).is_err() {
            return Done::OutOfMemory;
        }
        match Bytes::copied(self.alloc, bytes) {
            Ok(bytes) => {
                self.calls.push_reserved(LogEntry::Sent { from, to, bytes });
                Done::Ok
            }
            Err(_) => Done::OutOfMemory,
        }
    }

    fn take(&mut self, at: Address, room: &mut [u8; 1025]) -> Taken
        ensures is_open { IsTrue true }
        ensures len { IsWithinRoom result }
        ensures calls { Some self.new.calls ≡ told_more (Some self.old.calls) (took_entries at result room.new) }
        ensures opening { Unit {0} }
        ensures cause { HasCause 0 0 (result ≡ Taken.Failed) }
        ensures script { FollowsScript at self.old self.new result room.new }
    {
        if self.calls.reserve(1).is_err() {
            return Taken::OutOfMemory;
        }
        if rests(&self.calls, at) {
            self.calls.push_reserved(LogEntry::Idle { at });
            return Taken::Nothing;
        }
        let Some(i) = first_for(&self.left, at) else {
            self.calls.push_reserved(LogEntry::Idle { at });
            return Taken::Nothing;
        };
        let gram = self.left.remove(i);
        let ScriptGram { at: _, from, bytes } = gram;
        let len = bytes.as_slice().len();
        put_front(room, bytes.as_slice());
        self.calls.push_reserved(LogEntry::Got { at, from, bytes });
        Taken::Gram { from, len }
    }

    fn faults(&self) -> u64 {
        0
    }
}
