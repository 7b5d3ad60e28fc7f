//! What goes through an open network.

ghost use Rattle.std.specs.Prelude.{◌≡◌, ◌≤◌, ◌<◌, ◌+◌, ◌++◌, ◌∷◌, ◌^◌, [], length, take, IfOk, OnOk, OnErr};
ghost use Rattle.std.specs.Option.{option_map};
ghost use Rattle.dcp_ends.specs.declared.entries.LogEntry.TheVariants.{Sent};
ghost use Rattle.dcp_net.specs.Firsts.{first_that};
ghost use Rattle.dcp_net.specs.Nets.{IsWithinRoom, took_entries};
ghost use Rattle.net_world.specs.Calls.{GivesDue, TakesDue};
ghost use Rattle.net_world.specs.Chances.{lags_by_chance};
ghost use Rattle.net_world.specs.Deliveries.{delivery, due, lags_by};
ghost use Rattle.net_world.specs.Lags.{lags_in};
ghost use Rattle.net_world.specs.Messages.{messages};
ghost use Rattle.net_world.specs.Watches.{line_watched, watch_names};

use crate::chances::{Lags, after_message, by_chance, by_line};
use crate::deliveries::Arrival;
use crate::mailboxes::{Mailbox, next_for, post, room_for};
use crate::watches::{Watch, count, line_for, watched};
use dcp_ends::{Bytes, Call, History};
use dcp_net::{Opening, Taken};
use dcp_types::Address;
use std::alloc::{AllocError, Global};
use std::marker::Model;

/// How many messages a network carries at most: their numbers and those of their deliveries can be told.
const MOST: u64 = i64::MAX as u64;

/// An open network: what it was opened with, its calls, and what waits in it. Contracts see the first
/// two. Only they read the calls, which take no memory: what waits, and how many messages were sent, tell
/// all that a later call does.
#[derive(Drop)]
pub struct Traffic {
    opening: Opening,
    history: History,
    watches: Vec<Watch>,
    generator: u64,
    sent: u64,
    boxes: Vec<Mailbox>,
}

impl Model for Traffic {
    ghost use Rattle.net_world.specs.Calls.{Carried};
    ghost use Rattle.net_world.specs.Tied.{IsTied};

    ghost Value = { Carried };

    ghost view = { λ t. record { opening = t.opening; calls = t.history.calls } };

    ghost invariant = { λ t. IsTied t.opening t.history.calls t.watches.items t.generator t.sent t.boxes.items };
}

/// The lags of the message that is sent now.
fn lags_now(
    opening: &Opening,
    watches: &[Watch],
    generator: u64,
    from: Address,
    bytes: &[u8],
) -> Lags
    requires { 1 ≤ length bytes.now }
    ensures { lags_in result ≡ lags_by (option_map line_watched (first_that (watch_names opening.now.all from bytes.now) watches.now)) (lags_by_chance opening.now.plan.chaos generator) }
{
    match line_for(watches, opening.all.as_slice(), from, bytes) {
        Some(line) => by_line(line),
        None => by_chance(opening.plan.chaos, generator),
    }
}

/// The delivery of a message with this number after so many more, if there is one.
fn delivered(
    alloc: Global,
    number: u64,
    from: Address,
    to: Address,
    bytes: &[u8],
    lag: Option<u32>,
) -> Result<Option<Arrival>, AllocError>
    requires { number < 2 ^ 63 }
    ensures { IfOk result (λ d. d ≡ option_map (delivery number from to bytes.now) lag) }
{
    let Some(lag) = lag else {
        return Ok(None);
    };
    let bytes = Bytes::copied(alloc, bytes)?;
    Ok(Some(Arrival {
        due: number + u64::from(lag),
        number,
        from,
        to,
        bytes,
    }))
}

/// Puts the bytes to the front of the room.
fn put_front(room: &mut [u8; 1025], bytes: &[u8])
    requires { length bytes.now ≤ 1025 }
    ensures { take (length bytes.now) room.new ≡ bytes.now }
{
    room[..bytes.len()].copy_from_slice(bytes);
}

impl Traffic {
    /// A network that was opened so, before any call.
    pub fn new(alloc: Global, plan: &Opening) -> Result<Traffic, AllocError>
        ensures { IfOk result (λ traffic. traffic ≡ record { opening = plan.now; calls = [] }) }
    {
        let opening = plan.copied(alloc)?;
        let watches = watched(alloc, opening.plan.lines.as_slice())?;
        let generator = match opening.plan.chaos {
            Some(chaos) => chaos.start,
            None => 0,
        };
        Ok(Traffic {
            opening,
            history: History::new(),
            watches,
            generator,
            sent: 0,
            boxes: Vec::new(alloc),
        })
    }

    /// Sends 1 to 1,024 bytes: their deliveries wait then, as the plan says. Where memory is short, or so
    /// many messages were sent that no more can be numbered, nothing was sent.
    pub fn send(
        &mut self,
        alloc: Global,
        from: Address,
        to: Address,
        bytes: &[u8],
    ) -> Result<(), AllocError>
        requires low { 1 ≤ length bytes.now }
        requires high { length bytes.now ≤ 1024 }
        ensures ok { OnOk result (self.new ≡ record { opening = self.old.opening; calls = self.old.calls ++ Sent from to bytes.now ∷ [] }) }
        ensures err { OnErr result (self.new ≡ self.old) }
    {
        if self.sent >= MOST {
            return Err(AllocError);
        }
        let lags = lags_now(&self.opening, &self.watches, self.generator, from, bytes);
        let number = self.sent + 1;
        let first = delivered(alloc, number, from, to, bytes, lags.first)?;
        let second = delivered(alloc, number, from, to, bytes, lags.second)?;
        let place = room_for(alloc, &mut self.boxes, to)?;
        post(&mut self.boxes, place, to, first, second);
        count(&mut self.watches, self.opening.all.as_slice(), from, bytes);
        self.generator = after_message(self.opening.plan.chaos, self.generator);
        self.sent = number;
        self.history = self.history.then(&Call::Sent { from, to, bytes });
        Ok(())
    }

    /// Takes what is due at this address into the front of the room.
    pub fn take(&mut self, at: Address, room: &mut [u8; 1025]) -> Taken
        ensures len { IsWithinRoom result }
        ensures calls { self.new ≡ record { opening = self.old.opening; calls = self.old.calls ++ took_entries at result room.new } }
        ensures due { TakesDue (due self.old.opening self.old.calls at) result room.new }
        ensures never { result ≡ Taken.Failed → ⊥ }
        ensures ample { result ≡ Taken.OutOfMemory → ⊥ }
    {
        let Some(next) = next_for(&mut self.boxes, at, self.sent) else {
            self.history = self.history.then(&Call::Idle { at });
            return Taken::Nothing;
        };
        let Arrival { from, bytes, .. } = next;
        let len = bytes.as_slice().len();
        put_front(room, bytes.as_slice());
        self.history = self.history.then(&Call::Got {
            at,
            from,
            bytes: bytes.as_slice(),
        });
        Taken::Gram { from, len }
    }

    /// How many messages were sent. Each take since the network was opened gave what was due.
    pub fn sent(&self) -> u64
        ensures sent { result ≡ messages self.now.calls }
        ensures given { GivesDue self.now.opening [] self.now.calls }
    {
        self.sent
    }
}
