//! A stream that does not wait, as a source and as a sink.

ghost use Rattle.std.specs.Prelude.{◌≡◌, ◌<◌, ◌||◌, false, length};
ghost use Rattle.dcp_io.specs.Calls.{ReadFits, ReadTakes, ReadCause, WriteFits, WriteAdds, WriteCause};
ghost use Rattle.live_net.specs.Motions.{is_last_motion, read_as, written_as, faults_read, faults_written};
ghost use Rattle.live_net.specs.declared.motions.Motion.{Motion};

use crate::motions::{Motion, motion_of, read_of, written_of};
use dcp_io::{Read, Sink, Source, Written};
use std::io;

/// A stream that does not wait. A call that would wait counts as failed, and may be made again later; it
/// tells its bytes where the stream does.
#[derive(Drop)]
pub struct Stream<T> {
    inner: T,
    faults: u64,
    is_over: bool,
}

impl<T> Stream<T> {
    /// A stream that has had no fault.
    pub fn new(inner: T) -> Stream<T>
        ensures inner { result.inner ≡ inner }
        ensures faults { result.faults ≡ 0 }
        ensures open { result.is_over ≡ false }
    {
        Stream {
            inner,
            faults: 0,
            is_over: false,
        }
    }

    /// Takes note of what a call came to.
    fn note(&mut self, motion: Motion)
        ensures inner { self.new.inner ≡ self.old.inner }
        ensures faults { self.new.faults ≡ self.old.faults }
        ensures over { self.new.is_over ≡ (self.old.is_over || is_last_motion motion) }
    {
        match motion {
            Motion::Ended | Motion::Broken => self.is_over = true,
            Motion::Moved(_) | Motion::Later => {}
        }
    }

    /// The stream inside.
    pub fn inner(&self) -> &T
        ensures { result.now ≡ self.now.inner }
    {
        &self.inner
    }

    /// Whether the stream has ended or is broken, so that no later call on it moves a byte.
    pub fn is_over(&self) -> bool
        ensures { result ≡ self.now.is_over }
    {
        self.is_over
    }
}

impl<T: io::Write> Sink for Stream<T> {
    ghost written = { λ s. T.contents s.inner };

    ghost faults = { λ s. s.faults };

    fn write(&mut self, piece: &[u8]) -> Written
        requires { 0 < length piece.now }
        ensures fits { WriteFits result piece.now }
        ensures bytes { WriteAdds (T.contents self.old.inner) (T.contents self.new.inner) result piece.now }
        ensures cause { WriteCause self.old.faults self.new.faults result }
        ensures once { self.new.faults ≡ faults_written self.old.faults result }
        ensures meaning { (motion : Motion) × (result ≡ written_as motion) × (self.new.is_over ≡ (self.old.is_over || is_last_motion motion)) }
    {
        let motion = motion_of(&self.inner.write(piece));
        self.note(motion);
        let written = written_of(motion);
        if written == Written::Failed {
            self.faults = self.faults.saturating_add(1);
        }
        written
    }
}

impl<T: io::Read> Source for Stream<T> {
    ghost left = { λ s. T.remaining s.inner };

    ghost faults = { λ s. s.faults };

    fn read(&mut self, room: &mut [u8]) -> Read
        requires { 0 < length room.old }
        ensures fits { ReadFits result room.new }
        ensures bytes { ReadTakes (T.remaining self.old.inner) (T.remaining self.new.inner) result room.new }
        ensures cause { ReadCause self.old.faults self.new.faults result }
        ensures once { self.new.faults ≡ faults_read self.old.faults result }
        ensures meaning { (motion : Motion) × (result ≡ read_as motion) × (self.new.is_over ≡ (self.old.is_over || is_last_motion motion)) }
    {
        let motion = motion_of(&self.inner.read(room));
        self.note(motion);
        let read = read_of(motion);
        if read == Read::Failed {
            self.faults = self.faults.saturating_add(1);
        }
        read
    }
}
