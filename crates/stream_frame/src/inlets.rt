//! What the receiver of one connection reads.

ghost use Rattle.std.specs.Prelude.{◌≡◌, ◌-◌, ◌++◌, ℕ, List, [], length, take, min, IfOk};
ghost use Rattle.stream_frame.specs.Inlets.{AsksForMessage, Feeds, Receives, fresh_inlet, with_received};

use crate::greetings::{GREETING_SIZE, greeting_in};
use crate::{Frame, FrameReader};
use dcp_types::{Address, OutOfMemory};
use std::alloc::Global;
use std::marker::Model;

/// What comes next from a connection.
#[derive(Clone, Copy, Debug, PartialEq, Eq)]
pub enum Inward {
    /// A whole message, from the sender of the greeting.
    Gram { from: Address },
    /// No whole message: more bytes are wanted.
    NotYet,
    /// A length that no frame has: 0, or above 1,024.
    Bad { length: u32 },
}

/// The reading side of one connection: a greeting, and then frames. `feed` takes bytes, `next_gram` hands
/// out the next message, which `gram` then gives.
#[derive(Drop)]
pub struct Inlet {
    greeting: [u8; GREETING_SIZE],
    greeted: usize,
    reader: FrameReader,
}

impl Model for Inlet {
    ghost use Rattle.std.specs.Prelude.{◌≤◌, take};
    ghost use Rattle.stream_frame.specs.Inlets.{Arriving};

    ghost Value = { Arriving };

    ghost view = { λ i. record { greeting = take i.greeted i.greeting; reader = i.reader } };

    ghost invariant = { λ i. i.greeted ≤ 6 };
}

impl Inlet {
    /// An inlet at the begin of a connection. It takes all the memory that it needs.
    pub fn new(alloc: Global) -> Result<Inlet, OutOfMemory>
        ensures fresh { IfOk result (λ inlet. inlet ≡ fresh_inlet) }
        ensures receives { IfOk result (λ inlet. Receives inlet [] []) }
    {
        let reader = FrameReader::new(alloc)?;
        Ok(Inlet {
            greeting: [0; GREETING_SIZE],
            greeted: 0,
            reader,
        })
    }

    /// Takes as many bytes of the piece's front as there is room for, and answers their number: first the
    /// rest of the six bytes of the greeting, then what a reader of frames takes.
    pub fn feed(&mut self, piece: &[u8]) -> usize
        ensures step { Feeds self.old self.new piece.now result }
        ensures receives { (bytes : List ℕ) (grams : List (List ℕ)) → Receives self.old bytes grams → Receives self.new (bytes ++ take result piece.now) grams }
    {
        let count = self.greet(piece);
        count + self.reader.feed(&piece[count..])
    }

    /// Hands out the next message.
    ///
    /// NotYet while the greeting is not whole; then Gram where a frame is whole, and Bad and NotYet as a
    /// reader of frames answers them.
    pub fn next_gram(&mut self) -> Inward
        ensures step { AsksForMessage self.old self.new result }
        ensures receives { (bytes : List ℕ) (grams : List (List ℕ)) → Receives self.old bytes grams → Receives self.new bytes (with_received result self.new grams) }
    {
        if self.greeted < GREETING_SIZE {
            return Inward::NotYet;
        }
        match self.reader.next_frame() {
            Frame::Whole => Inward::Gram {
                from: greeting_in(&self.greeting),
            },
            Frame::NotYet => Inward::NotYet,
            Frame::Bad { length } => Inward::Bad { length },
        }
    }

    /// The last message, or nothing before the first.
    pub fn gram(&self) -> &[u8]
        ensures { result.now ≡ self.now.reader.last }
    {
        self.reader.frame()
    }

    /// Takes what is missing of the greeting, as far as the piece has it.
    fn greet(&mut self, piece: &[u8]) -> usize
        ensures count { result ≡ min (length piece.now) (6 - length self.old.greeting) }
        ensures greeting { self.new ≡ record self.old { greeting = self.old.greeting ++ take result piece.now } }
    {
        let count = piece.len().min(GREETING_SIZE - self.greeted);
        let end = self.greeted + count;
        self.greeting[self.greeted..end].copy_from_slice(&piece[..count]);
        self.greeted = end;
        count
    }
}
