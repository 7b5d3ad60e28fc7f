//! Which errors of the system are a failure of an own socket.

ghost use Rattle.std.specs.Prelude.{◌↔◌, IsTrue};
ghost use Rattle.std.specs.IoError.{raw_os_error};
ghost use Rattle.live_net.specs.Failures.{IsOwn};

use std::io;

/// The number is no open descriptor (EBADF of Linux).
const BAD_DESCRIPTOR: i32 = 9;

/// The memory that was handed in is not the process's own (EFAULT).
const BAD_MEMORY: i32 = 14;

/// The descriptor is no socket (ENOTSOCK).
const NOT_A_SOCKET: i32 = 88;

/// Whether the error is a failure of the own socket. All others come of the network or of a peer, or go by:
/// what was to be carried is lost, as a network may lose it.
pub(crate) fn is_own(error: &io::Error) -> bool
    ensures { IsTrue result ↔ IsOwn (raw_os_error error.now) }
{
    matches!(
        error.raw_os_error(),
        Some(BAD_DESCRIPTOR | BAD_MEMORY | NOT_A_SOCKET)
    )
}
