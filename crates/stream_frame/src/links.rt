//! The outbox of one connection.

ghost use Rattle.std.specs.Prelude.{◌≡◌, ◌<◌, ◌≤◌, ◌++◌, ℕ, List, [], Option, length, IfOk, IsTrue, ◌↔◌};
ghost use Rattle.dcp_types.specs.declared.addresses.Address.{Address as Sender};
ghost use Rattle.stream_frame.specs.Frames.{IsFrame};
ghost use Rattle.stream_frame.specs.Greetings.{greeting};
ghost use Rattle.stream_frame.specs.Links.{Carries, EndsFlush, FailsFlush, Front, Posts, Sent, WritesFront, with_posted};

use crate::greetings::greeting_bytes;
use crate::{FRAME_ROOM, put_frame};
use circular_buffer::HeapCircularBuffer;
use dcp_io::{Sink, Written};
use dcp_types::{Address, OutOfMemory};
use std::alloc::Global;
use std::marker::Model;

/// The most bytes that wait to be written.
pub const MOST_WAITING: usize = 65_536;

/// What became of a message.
#[derive(Clone, Copy, Debug, PartialEq, Eq)]
pub enum Posted {
    /// Its frame waits to be written.
    Taken,
    /// There is no room for its frame, and it is lost, as a network may lose it.
    Full,
}

/// How a flush ended.
#[derive(Clone, Copy, Debug, PartialEq, Eq)]
pub enum Flushed {
    /// Nothing waits.
    Empty,
    /// A write failed. The bytes that were not written wait on.
    Failed,
}

/// The outbox of one connection: the greeting of its sender, and then the frames of the messages. `post`
/// lets a message wait, and `flush` writes what waits.
#[derive(Drop)]
pub struct Link<K: Sink> {
    sink: K,
    waiting: HeapCircularBuffer<u8>,
}

impl<K: Sink> Model for Link<K> {
    ghost use Rattle.std.specs.Prelude.{◌≡◌};
    ghost use Rattle.stream_frame.specs.Links.{LinkOutbox};

    ghost Value = { LinkOutbox K };

    ghost view = { λ l. record { sink = l.sink; waits = l.waiting.items } };

    ghost invariant = { λ l. l.waiting.capacity ≡ 65536 };
}

impl<K: Sink> Link<K> {
    /// A connection from this sender, whose greeting waits. It takes all the memory that it needs.
    pub fn new(alloc: Global, from: Address, sink: K) -> Result<Link<K>, OutOfMemory>
    where
        K: Drop,
        ensures waits { IfOk result (λ link. link ≡ record { sink = sink; waits = greeting from }) }
        ensures carries { IfOk result (λ link. Carries (K.written sink) (K.written link.sink) link.waits from []) }
    {
        let mut waiting = HeapCircularBuffer::with_capacity(alloc, MOST_WAITING)?;
        let _ = waiting.fill_from_slice(&greeting_bytes(from));
        Ok(Link { sink, waiting })
    }

    /// Lets a message of 1 to 1,024 bytes wait to be written, as a frame.
    ///
    /// Full exactly where the bytes that wait and the frame together are more than 65,536; then nothing
    /// changes.
    pub fn post(&mut self, pdu: &[u8]) -> Posted
        requires { IsFrame pdu.now }
        ensures step { Posts self.old self.new pdu.now result }
        ensures carries { (start : Option (List ℕ)) (from : Sender) (messages : List (List ℕ))
            → Carries start (K.written self.old.sink) self.old.waits from messages
            → Carries start (K.written self.new.sink) self.new.waits from (with_posted result pdu.now messages) }
    {
        let mut frame = [0; FRAME_ROOM];
        let size = put_frame(pdu, &mut frame);
        if self.waiting.len() + size > MOST_WAITING {
            return Posted::Full;
        }
        let _ = self.waiting.fill_from_slice(&frame[..size]);
        Posted::Taken
    }

    /// Writes until nothing waits, or a write fails.
    ///
    /// Empty exactly where nothing waits afterwards; Failed only where the sink's count of faults rose.
    pub fn flush(&mut self) -> Flushed
        ensures sent { Sent (K.written self.old.sink) (K.written self.new.sink) self.old.waits self.new.waits }
        ensures left { EndsFlush self.new.waits result }
        ensures cause { FailsFlush (K.faults self.old.sink) (K.faults self.new.sink) result }
        ensures carries { (start : Option (List ℕ)) (from : Sender) (messages : List (List ℕ))
            → Carries start (K.written self.old.sink) self.old.waits from messages
            → Carries start (K.written self.new.sink) self.new.waits from messages }
    {
        'writing: while self.is_waiting() {
            match self.write_front() {
                Written::Failed => return Flushed::Failed,
                Written::Wrote(_) => {}
            }
        }
        Flushed::Empty
    }

    /// Where the bytes go.
    pub fn sink(&self) -> &K
        ensures { result.now ≡ self.now.sink }
    {
        &self.sink
    }

    /// Whether bytes wait to be written.
    pub fn is_waiting(&self) -> bool
        ensures { IsTrue result ↔ (0 < length self.now.waits) }
    {
        !self.waiting.is_empty()
    }

    /// Writes some of the bytes that wait, of which there are some.
    fn write_front(&mut self) -> Written
        requires { 0 < length self.old.waits }
        ensures { WritesFront (K.written self.old.sink) (K.written self.new.sink) (K.faults self.old.sink) (K.faults self.new.sink) self.old.waits self.new.waits result }
    {
        let written = self.sink.write(front_of(&self.waiting));
        if let Written::Wrote(count) = written {
            self.waiting.truncate_front(self.waiting.len() - count);
        }
        written
    }
}

/// The bytes that stand together at the front, of which there are some.
fn front_of(waiting: &HeapCircularBuffer<u8>) -> &[u8]
    requires { 0 < length waiting.now.items }
    ensures { Front result.now waiting.now.items }
{
    let (front, back) = waiting.as_slices();
    if front.is_empty() { back } else { front }
}
