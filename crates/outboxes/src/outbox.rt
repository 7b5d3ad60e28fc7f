//! The messages that are to be sent.

ghost use Rattle.std.specs.Prelude.{◌≡◌, ◌<◌, ◌++◌, ◌∷◌, [], length, slice_get, option_map, IfOk, IfSome, ◌^◌};
ghost use Rattle.pdu_layout.specs.Message.{message_of, HasSpelling};
ghost use Rattle.pdu_layout.specs.Reading.{spelling};
ghost use Rattle.outboxes.specs.Sizes.{IsSendSized};

use crate::slots::Slot;
use dcp_types::{Address, OutOfMemory};
use pdu_layout::Pdu;
use std::alloc::Global;
use std::marker::Model;

/// The messages that are to be sent after one event, in order. `ROOM` of them have room.
#[derive(Debug, Drop)]
pub struct Outbox<const ROOM: usize> {
    /// As many as there is room for.
    slots: Vec<Slot>,
    /// In so many of them, from the first on, stands a message.
    used: usize,
}

impl<const ROOM: usize> Model for Outbox<ROOM> {
    ghost use Rattle.std.specs.Prelude.{List, map, take, ◌≡◌, ◌≤◌, All, length};
    ghost use Rattle.dcp_ends.specs.Events.{Send};
    ghost use Rattle.outboxes.specs.Slots.{send_in, IsFilled};

    ghost Value = { List Send };

    ghost view = { λ o. map send_in (take o.used o.slots.items) };

    ghost invariant = { λ o. (length o.slots.items ≡ ROOM) × (o.used ≤ ROOM) × All IsFilled (take o.used o.slots.items) };
}

impl<const ROOM: usize> Outbox<ROOM> {
    /// An empty outbox. It takes all the memory that it needs.
    pub fn new(alloc: Global) -> Result<Outbox<ROOM>, OutOfMemory>
        ensures { IfOk result (λ out. out ≡ []) }
    {
        let mut slots = Vec::new(alloc);
        slots.resize_with(ROOM, || Slot::new())?;
        Ok(Outbox { slots, used: 0 })
    }

    /// Puts a message behind the others.
    #[inline(always)]
    pub fn put(&mut self, to: Address, message: &Pdu<'_>)
        requires room { length self.old < ROOM }
        requires spelled { HasSpelling (message_of message.now) }
        ensures { self.new ≡ self.old ++ record { to = to; bytes = spelling (message_of message.now) } ∷ [] }
    {
        self.slots[self.used].spell(to, message);
        self.used += 1;
    }

    /// Puts the bytes of a message behind the others.
    pub fn put_bytes(&mut self, to: Address, message: &[u8])
        requires room { length self.old < ROOM }
        requires sized { IsSendSized message.now }
        ensures { self.new ≡ self.old ++ record { to = to; bytes = message.now } ∷ [] }
    {
        self.slots[self.used].copy(to, message);
        self.used += 1;
    }

    /// The message with this number, from 0.
    #[inline(always)]
    pub fn get(&self, i: usize) -> Option<(Address, &[u8])>
        ensures value { option_map (λ out. record { to = out.0; bytes = out.1.now }) result ≡ slice_get self.now i }
        ensures sized { IfSome result (λ out. IsSendSized out.1.now) }
        ensures few { length self.now < 2 ^ 64 }
    {
        if i < self.used {
            Some(self.slots[i].message())
        } else {
            None
        }
    }

    /// Gives up all messages.
    #[inline(always)]
    pub fn clear(&mut self)
        ensures { self.new ≡ [] }
    {
        self.used = 0;
    }
}
