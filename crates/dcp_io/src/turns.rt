//! What a call of the standard library came to.

ghost use Rattle.std.specs.Prelude.{◌≡◌};
ghost use Rattle.dcp_io.specs.Tries.{read_from, written_from};
ghost use Rattle.dcp_io.specs.Turns.{Means};

use crate::reads::Read;
use crate::writes::Written;
use std::io;
use std::io::ErrorKind;

/// How many calls are made at most before an interruption counts as a fault.
pub(crate) const TRIES: u32 = 1_000;

/// What a read or a write of the standard library came to.
#[derive(Clone, Copy, Debug, PartialEq, Eq)]
pub enum Turn {
    /// So many bytes were moved: at least one.
    Moved(usize),
    /// No byte was moved: a reader is at its end, and a writer takes nothing.
    Nothing,
    /// The call was interrupted before it moved a byte, and may be made again.
    Again,
    /// The call failed.
    Failed,
}

/// What the result of a read or a write means.
pub fn turn_of(called: &io::Result<usize>) -> Turn
    ensures { Means result called.now }
{
    match called {
        Ok(0) => Turn::Nothing,
        Ok(count) => Turn::Moved(*count),
        Err(error) => match error.kind() {
            ErrorKind::Interrupted => Turn::Again,
            _ => Turn::Failed,
        },
    }
}

/// What our read did, by what its last call came to. A call that is still interrupted has failed.
pub fn read_of(turn: Turn) -> Read
    ensures { result ≡ read_from turn }
{
    match turn {
        Turn::Moved(count) => Read::Bytes(count),
        Turn::Nothing => Read::End,
        Turn::Again | Turn::Failed => Read::Failed,
    }
}

/// What our write did, by what its last call came to. A device that takes nothing has failed, and so has a
/// call that is still interrupted.
pub fn written_of(turn: Turn) -> Written
    ensures { result ≡ written_from turn }
{
    match turn {
        Turn::Moved(count) => Written::Wrote(count),
        Turn::Nothing | Turn::Again | Turn::Failed => Written::Failed,
    }
}
