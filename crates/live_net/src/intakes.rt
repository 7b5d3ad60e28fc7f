//! What comes in over one connection.

ghost use Rattle.std.specs.Prelude.{◌≡◌, ◌≤◌, ◌-◌, ◌++◌, [], List, ℕ, Option, take, drop, IfOk};
ghost use Rattle.stream_frame.specs.Inlets.{Receives};
ghost use Rattle.live_net.specs.Intakes.{Gathers, Hands, with_handed};

use dcp_io::{Read, Source};
use dcp_types::{Address, OutOfMemory};
use std::alloc::Global;
use std::marker::Model;
use stream_frame::{Inlet, Inward};

/// How many bytes are read from a stream at once.
const PIECE_SIZE: usize = 1_024;

/// How often a stream is read at most for one message.
const READS: u32 = 64;

/// What came next over a connection.
#[derive(Clone, Copy, Debug, PartialEq, Eq)]
pub enum Taking {
    /// A whole message, from the sender of the greeting.
    Gram { from: Address },
    /// No message is whole now.
    NotYet,
    /// The stream gave a length that no frame has: no message will come.
    Bad,
}

/// The receiving side of one connection: it reads a stream in pieces, and hands out the messages whose
/// frames the stream gives. Of a piece that was read, what the inlet has no room for yet is held back.
#[derive(Drop)]
pub struct Intake<S: Source> {
    source: S,
    inlet: Inlet,
    piece: [u8; PIECE_SIZE],
    at: usize,
    end: usize,
}

impl<S: Source> Model for Intake<S> {
    ghost use Rattle.std.specs.Prelude.{◌≤◌, take, drop};
    ghost use Rattle.live_net.specs.Intakes.{Incoming};

    ghost Value = { Incoming S };

    ghost view = { λ i. record { source = i.source; inlet = i.inlet; held = drop i.at (take i.end i.piece) } };

    ghost invariant = { λ i. (i.at ≤ i.end) × (i.end ≤ 1024) };
}

impl<S: Source> Intake<S> {
    /// The receiving side of a connection at its begin. It takes all the memory that it needs.
    pub fn new(alloc: Global, source: S) -> Result<Intake<S>, OutOfMemory>
    where
        S: Drop,
        ensures source { IfOk result (λ intake. intake.source ≡ source) }
        ensures gathers { IfOk result (λ intake. Gathers (S.left source) (S.left intake.source) intake.inlet intake.held []) }
    {
        let inlet = Inlet::new(alloc)?;
        Ok(Intake {
            source,
            inlet,
            piece: [0; PIECE_SIZE],
            at: 0,
            end: 0,
        })
    }

    /// Hands out the next message, which `gram` then gives.
    ///
    /// NotYet where the stream gives no more bytes now, or too few at a time; Bad where it has given a
    /// length that no frame has.
    pub fn next(&mut self) -> Taking
        ensures hands { Hands result self.new.inlet }
        ensures gathers { (start : Option (List ℕ)) (grams : List (List ℕ))
            → Gathers start (S.left self.old.source) self.old.inlet self.old.held grams
            → Gathers start (S.left self.new.source) self.new.inlet self.new.held (with_handed result self.new.inlet grams) }
    {
        for _ in 0..READS {
            match self.ask() {
                Taking::NotYet => {}
                told => return told,
            }
            if !self.read_more() {
                return Taking::NotYet;
            }
            self.feed();
        }
        self.ask()
    }

    /// The last message, or nothing before the first.
    pub fn gram(&self) -> &[u8]
        ensures { result.now ≡ self.now.inlet.reader.last }
    {
        self.inlet.gram()
    }

    /// Where the bytes come from.
    pub fn source(&self) -> &S
        ensures { result.now ≡ self.now.source }
    {
        &self.source
    }

    /// Asks the inlet for the next message.
    fn ask(&mut self) -> Taking
        ensures hands { Hands result self.new.inlet }
        ensures gathers { (start : Option (List ℕ)) (grams : List (List ℕ))
            → Gathers start (S.left self.old.source) self.old.inlet self.old.held grams
            → Gathers start (S.left self.new.source) self.new.inlet self.new.held (with_handed result self.new.inlet grams) }
    {
        match self.inlet.next_gram() {
            Inward::Gram { from } => Taking::Gram { from },
            Inward::NotYet => Taking::NotYet,
            Inward::Bad { length: _ } => Taking::Bad,
        }
    }

    /// Whether bytes are held back, where need be after a read.
    fn read_more(&mut self) -> bool
        ensures gathers { (start : Option (List ℕ)) (grams : List (List ℕ))
            → Gathers start (S.left self.old.source) self.old.inlet self.old.held grams
            → Gathers start (S.left self.new.source) self.new.inlet self.new.held grams }
        ensures inlet { self.new.inlet ≡ self.old.inlet }
    {
        if self.at < self.end {
            return true;
        }
        match self.source.read(&mut self.piece) {
            Read::Bytes(count) => {
                self.at = 0;
                self.end = count;
                true
            }
            Read::End | Read::Failed => {
                self.at = 0;
                self.end = 0;
                false
            }
        }
    }

    /// Feeds the inlet what is held back, as far as it has room.
    fn feed(&mut self)
        ensures gathers { (start : Option (List ℕ)) (grams : List (List ℕ))
            → Gathers start (S.left self.old.source) self.old.inlet self.old.held grams
            → Gathers start (S.left self.new.source) self.new.inlet self.new.held grams }
    {
        self.at += feed_part(&mut self.inlet, &self.piece, self.at, self.end);
    }
}

/// Feeds the inlet a part of the piece, as far as it has room, and gives the number of the bytes taken.
fn feed_part(inlet: &mut Inlet, piece: &[u8; PIECE_SIZE], at: usize, end: usize) -> usize
    requires from { at ≤ end }
    requires to { end ≤ 1024 }
    ensures few { result ≤ end - at }
    ensures receives { (bytes : List ℕ) (grams : List (List ℕ)) → Receives inlet.old bytes grams → Receives inlet.new (bytes ++ take result (drop at (take end piece.now))) grams }
{
    inlet.feed(&piece[at..end])
}
