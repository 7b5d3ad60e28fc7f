//! The reader of a stream.

ghost use Rattle.std.specs.Prelude.{◌≡◌, ◌+◌, ◌≤◌, ◌<◌, ◌^◌, ◌++◌, ◌∷◌, ℕ, List, [], false, length, take, drop, get_or, min, IfOk, MatchOption};
ghost use Rattle.circular_buffer.specs.Buffer.{buffer};
ghost use Rattle.dcp_types.specs.Values.{digits};
ghost use Rattle.stream_frame.specs.Framing.{Asks, fresh_framing, space};
ghost use Rattle.stream_frame.specs.Calls.{Asked, FrameCall, Fed, StandsByCalls};

use crate::frames::{FRAME_ROOM, Frame, LENGTH_SIZE, LONGEST_FRAME};
use byteorder::{ByteOrder, LittleEndian};
use circular_buffer::HeapCircularBuffer;
use dcp_types::OutOfMemory;
use std::alloc::Global;
use std::marker::Model;

/// A reader of frames from a stream that comes in pieces. `feed` takes bytes, `next_frame` hands out the
/// next frame, which `frame` then gives.
///
/// Contracts see the bytes that are held, the last frame, and whether a bad length was answered; and, as
/// a relation, the list of all calls.
#[derive(Drop)]
pub struct FrameReader {
    held: HeapCircularBuffer<u8>,
    last: [u8; LONGEST_FRAME],
    size: usize,
    is_refused: bool,
}

impl Model for FrameReader {
    ghost use Rattle.std.specs.Prelude.{◌≡◌, ◌≤◌, take, true};
    ghost use Rattle.stream_frame.specs.Frames.{IsBad};
    ghost use Rattle.stream_frame.specs.Framing.{Framing};

    ghost Value = { Framing };

    ghost view = { λ r. record { held = r.held.items; last = take r.size r.last; is_refused = r.is_refused } };

    ghost invariant = { λ r. (r.held.capacity ≡ 1028) × (r.size ≤ 1024) × (r.is_refused ≡ true → IsBad r.held.items) };
}

impl FrameReader {
    /// A reader at the begin of a stream. It takes all the memory that it needs.
    pub fn new(alloc: Global) -> Result<FrameReader, OutOfMemory>
        ensures fresh { IfOk result (λ reader. reader ≡ fresh_framing) }
        ensures stands { IfOk result (λ reader. StandsByCalls reader []) }
    {
        let held = HeapCircularBuffer::with_capacity(alloc, FRAME_ROOM)?;
        Ok(FrameReader {
            held,
            last: [0; LONGEST_FRAME],
            size: 0,
            is_refused: false,
        })
    }

    /// Takes as many bytes of the piece's front as there is room for, and answers their number. At most
    /// 1,028 bytes are held. After a bad length was answered it takes none.
    pub fn feed(&mut self, piece: &[u8]) -> usize
        ensures count { result ≡ min (length piece.now) (space self.old) }
        ensures held { self.new ≡ record self.old { held = self.old.held ++ take result piece.now } }
        ensures stands { (calls : List FrameCall) → StandsByCalls self.old calls → StandsByCalls self.new (Fed piece.now result ∷ calls) }
    {
        if self.is_refused {
            return 0;
        }
        self.held.fill_from_slice(piece)
    }

    /// Hands out the next frame.
    ///
    /// Whole exactly where the bytes that are held begin with a whole frame, which they then give up. Bad
    /// exactly where they begin with a length of 0 or above 1,024, and from then on always the same.
    pub fn next_frame(&mut self) -> Frame
        ensures step { Asks self.old self.new result }
        ensures stands { (calls : List FrameCall) → StandsByCalls self.old calls → StandsByCalls self.new (Asked result self.new.last ∷ calls) }
    {
        let length = match self.announced() {
            None => return Frame::NotYet,
            Some(length) => length,
        };
        if length == 0 || length > LONGEST_FRAME as u32 {
            self.is_refused = true;
            return Frame::Bad { length };
        }
        let size = length as usize;
        if self.held.len() < LENGTH_SIZE + size {
            return Frame::NotYet;
        }
        self.hand_out(size);
        Frame::Whole
    }

    /// The last whole frame, or nothing before the first.
    pub fn frame(&self) -> &[u8]
        ensures { result.now ≡ self.now.last }
    {
        &self.last[..self.size]
    }

    /// The length that the bytes begin with, where four bytes are held.
    fn announced(&self) -> Option<u32>
        ensures { MatchOption result
            (length self.now.held < 4)
            (λ n. (4 ≤ length self.now.held) × (n < 2 ^ 32) × (take 4 self.now.held ≡ digits 4 n)) }
    {
        if self.held.len() < LENGTH_SIZE {
            return None;
        }
        let bytes = [self.byte(0), self.byte(1), self.byte(2), self.byte(3)];
        Some(LittleEndian::read_u32(&bytes))
    }

    /// The byte with this place among those that are held.
    fn byte(&self, place: usize) -> u8
        requires { place < length self.now.held }
        ensures { result ≡ get_or self.now.held place 0 }
    {
        match self.held.get(place) {
            Some(byte) => *byte,
            None => unreachable!(),
        }
    }

    /// Hands out the frame of this size that the held bytes begin with.
    fn hand_out(&mut self, size: usize)
        requires most { size ≤ 1024 }
        requires whole { 4 + size ≤ length self.old.held }
        requires open { self.old.is_refused ≡ false }
        ensures { self.new ≡ record self.old { held = drop (4 + size) self.old.held; last = take size (drop 4 self.old.held) } }
    {
        move_frame(&mut self.held, size, &mut self.last);
        self.size = size;
    }
}

/// Moves the frame of this size from behind its length to the front of the room.
fn move_frame(held: &mut HeapCircularBuffer<u8>, size: usize, room: &mut [u8; LONGEST_FRAME])
    requires most { size ≤ 1024 }
    requires whole { 4 + size ≤ length held.old.items }
    ensures held { held.new ≡ buffer (drop (4 + size) held.old.items) held.old.capacity }
    ensures frame { take size room.new ≡ take size (drop 4 held.old.items) }
{
    let mut length = [0; LENGTH_SIZE];
    held.read_into(&mut length);
    held.read_into(&mut room[..size]);
}
