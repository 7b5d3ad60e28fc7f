//! Writing a long text piece by piece, through a small room.

ghost use Rattle.std.specs.Prelude.{◌≡◌, ◌≤◌, ◌+◌, ◌++◌, ℕ, List, Option, [], false, length};
ghost use Rattle.dcp_io.specs.Outputs.{Delivers};
ghost use Rattle.dcp_io.specs.Spools.{Spooled};

use crate::Sink;
use crate::outputs::{Delivery, write_all};
use std::marker::Model;

/// How many bytes wait at most before they are written.
const SIZE: usize = 4_096;

/// A text on its way to a sink: what waits to be written, and whether a write has failed. After a failed
/// write nothing more is written.
#[derive(Drop)]
pub struct Spool {
    room: [u8; SIZE],
    len: usize,
    failed: bool,
}

impl Model for Spool {
    ghost use Rattle.std.specs.Prelude.{take, ◌≤◌};
    ghost use Rattle.dcp_io.specs.Unwritten.{Unwritten};

    ghost Value = { Unwritten };

    ghost view = { λ s. record { waits = take s.len s.room; failed = s.failed } };

    ghost invariant = { λ s. s.len ≤ 4096 };
}

impl Spool {
    /// Nothing waits.
    pub fn new() -> Spool
        ensures { result ≡ record { waits = []; failed = false } }
    {
        Spool {
            room: [0; SIZE],
            len: 0,
            failed: false,
        }
    }

    /// Adds a piece of the text, of at most 4,096 bytes.
    pub fn put<K: Sink>(&mut self, out: &mut K, piece: &[u8])
        requires { length piece.now ≤ 4096 }
        ensures { (old : Option (List ℕ)) (before : ℕ) (text : List ℕ) → Spooled old (K.written out.old) before (K.faults out.old) text self.old
            → Spooled old (K.written out.new) before (K.faults out.new) (text ++ piece.now) self.new }
    {
        if piece.len() > SIZE - self.len {
            self.flush(out);
        }
        self.keep(piece);
    }

    /// Writes what waits.
    fn flush<K: Sink>(&mut self, out: &mut K)
        ensures spooled { (old : Option (List ℕ)) (before : ℕ) (text : List ℕ) → Spooled old (K.written out.old) before (K.faults out.old) text self.old
            → Spooled old (K.written out.new) before (K.faults out.new) text self.new }
        ensures empty { self.new.waits ≡ [] }
    {
        if self.failed {
            self.len = 0;
            return;
        }
        self.failed = match write_all(out, &self.room[..self.len]) {
            Delivery::Whole => false,
            Delivery::Cut => true,
        };
        self.len = 0;
    }

    /// Lets a piece wait behind what waits.
    fn keep(&mut self, piece: &[u8])
        requires { length self.old.waits + length piece.now ≤ 4096 }
        ensures { self.new ≡ record { waits = self.old.waits ++ piece.now; failed = self.old.failed } }
    {
        let end = self.len + piece.len();
        self.room[self.len..end].copy_from_slice(piece);
        self.len = end;
    }

    /// Writes what waits, as the end of the text.
    pub fn finish<K: Sink>(mut self, out: &mut K) -> Delivery
        ensures { (old : Option (List ℕ)) (before : ℕ) (text : List ℕ) → Spooled old (K.written out.old) before (K.faults out.old) text self
            → Delivers old (K.written out.new) before (K.faults out.new) text result }
    {
        self.flush(out);
        if self.failed {
            Delivery::Cut
        } else {
            Delivery::Whole
        }
    }
}
