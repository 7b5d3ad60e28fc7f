//! What a call on a stream that does not wait came to.

ghost use Rattle.std.specs.Prelude.{◌≡◌};
ghost use Rattle.live_net.specs.Motions.{MeansMotion, read_as, written_as};

use dcp_io::{Read, Written};
use std::io;
use std::io::ErrorKind;

/// What a read or a write of a stream that does not wait came to.
#[derive(Clone, Copy, Debug, PartialEq, Eq)]
pub enum Motion {
    /// So many bytes were moved: at least one.
    Moved(usize),
    /// No byte was moved, and none will be: a reader is at its end, and a writer takes nothing.
    Ended,
    /// The call would wait, or was interrupted. It may be made again later.
    Later,
    /// The stream is broken.
    Broken,
}

/// What the result of a read or a write means.
pub fn motion_of(called: &io::Result<usize>) -> Motion
    ensures { MeansMotion result called.now }
{
    match called {
        Ok(0) => Motion::Ended,
        Ok(count) => Motion::Moved(*count),
        Err(error) => match error.kind() {
            ErrorKind::WouldBlock | ErrorKind::Interrupted => Motion::Later,
            _ => Motion::Broken,
        },
    }
}

/// What a read is that came to this. The end is no failure.
pub(crate) fn read_of(motion: Motion) -> Read
    ensures { result ≡ read_as motion }
{
    match motion {
        Motion::Moved(count) => Read::Bytes(count),
        Motion::Ended => Read::End,
        Motion::Later | Motion::Broken => Read::Failed,
    }
}

/// What a write is that came to this. A stream that takes nothing has failed.
pub(crate) fn written_of(motion: Motion) -> Written
    ensures { result ≡ written_as motion }
{
    match motion {
        Motion::Moved(count) => Written::Wrote(count),
        Motion::Ended | Motion::Later | Motion::Broken => Written::Failed,
    }
}
