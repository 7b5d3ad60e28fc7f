//! The calls of the standard library, alone.

ghost use Rattle.std.specs.Prelude.{ℕ, List, Result};
ghost use Rattle.std.specs.declared.io.Error.{Error};
ghost use Rattle.dcp_io.specs.Tries.{ReaderAnswers, WriterAnswers};

use std::io;

/// What is read by calls that may be interrupted. What a call may answer is left open, so that nothing but
/// a call can show that it answered so.
pub(crate) trait Reader {
    ghost answers: { Self × List ℕ → Result ℕ Error → Self × List ℕ → Type 0 };

    /// Calls the reader once.
    fn call(&mut self, room: &mut [u8]) -> io::Result<usize>
        ensures { answers (self.old, room.old) result (self.new, room.new) };
}

impl<T: io::Read> Reader for T {
    ghost answers = { ReaderAnswers T.remaining };

    fn call(&mut self, room: &mut [u8]) -> io::Result<usize> {
        self.read(room)
    }
}

/// What is written to by calls that may be interrupted. What a call may answer is left open, as of a reader.
pub(crate) trait Writer {
    ghost answers: { List ℕ → Self → Result ℕ Error → Self → Type 0 };

    /// Calls the writer once.
    fn call(&mut self, piece: &[u8]) -> io::Result<usize>
        ensures { answers piece.now self.old result self.new };
}

impl<T: io::Write> Writer for T {
    ghost answers = { WriterAnswers T.contents };

    fn call(&mut self, piece: &[u8]) -> io::Result<usize> {
        self.write(piece)
    }
}
