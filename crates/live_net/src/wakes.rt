//! The names under which sockets wake a wait, or do not.

use mio::Token;

/// A stream of one of the ends wakes a wait. All of them have one name: a round asks each end, so no one asks
/// which of them woke it.
pub(crate) const STREAM: Token = Token(0);

/// A stream of someone who is not known to be an end wakes none.
pub(crate) const QUIET: Token = Token(1);

/// Who knocks at a listener wakes none, and is told to the network.
pub(crate) const DOOR: Token = Token(2);

/// The first of the sockets for datagrams. Each has a name of its own, since it wakes a wait only where its
/// next datagram comes from one of the ends.
pub(crate) const FIRST_MAILBOX: usize = 3;
