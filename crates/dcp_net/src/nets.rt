//! The network that ends are given their datagrams by.

ghost use Rattle.std.specs.Prelude.{◌≡◌, ◌≤◌, ℕ, List, [], Option, Bool, IsTrue, ⊤, length, MatchOption};
ghost use Rattle.dcp_ends.specs.declared.entries.LogEntry.{LogEntry};
ghost use Rattle.dcp_net.specs.declared.openings.Opening.{Opening};
ghost use Rattle.dcp_net.specs.Nets.{told_more, sent_entries, took_entries, IsWithinRoom, HasCause};

use crate::openings::Opening;
use dcp_types::Address;

/// What `begin` or `send` did.
#[derive(Clone, Copy, Debug, PartialEq, Eq)]
pub enum Done {
    Ok,
    /// Nothing was done, and the count of faults rose.
    Failed,
    /// Nothing was done.
    OutOfMemory,
}

/// What `take` did.
#[derive(Clone, Copy, Debug, PartialEq, Eq)]
pub enum Taken {
    /// No datagram is there for this end.
    Nothing,
    /// A datagram came from there, and so many bytes of it stand at the front of the room.
    Gram { from: Address, len: usize },
    /// Nothing was taken, and the count of faults rose.
    Failed,
    /// Nothing was taken.
    OutOfMemory,
}

/// A network: `begin` opens it, and then ends send by it and take from it.
///
/// Where it tells them, `calls` are the successful calls of `send` and `take` since then, in order, as
/// entries of a log, and `opening` is what it was opened with. A network of sockets tells neither.
pub trait Net {
    ghost calls: { Self → Option (List LogEntry) };

    ghost opening: { Self → Option Opening };

    /// How often it has failed: it never falls.
    ghost count: { Self → ℕ };

    /// `begin` has answered Ok.
    ghost is_open: { Self → Bool };

    /// Opens the network for these ends. It may be opened again.
    fn begin(&mut self, plan: &Opening) -> Done
        ensures opened { result ≡ Done.Ok → IsTrue (is_open self.new) }
        ensures empty { result ≡ Done.Ok → MatchOption (calls self.new) ⊤ (λ l. l ≡ []) }
        ensures plan { result ≡ Done.Ok → MatchOption (opening self.new) ⊤ (λ o. o ≡ plan.now) }
        ensures cause { HasCause (count self.old) (count self.new) (result ≡ Done.Failed) };

    /// Sends 1 to 1,024 bytes. Whether they arrive is not said.
    fn send(&mut self, from: Address, to: Address, bytes: &[u8]) -> Done
        requires is_open { IsTrue (is_open self.old) }
        requires low { 1 ≤ length bytes.now }
        requires high { length bytes.now ≤ 1024 }
        ensures is_open { IsTrue (is_open self.new) }
        ensures calls { calls self.new ≡ told_more (calls self.old) (sent_entries result from to bytes.now) }
        ensures opening { opening self.new ≡ opening self.old }
        ensures cause { HasCause (count self.old) (count self.new) (result ≡ Done.Failed) };

    /// Takes the next datagram for the end at this address into the front of the room. A longer one is
    /// cut to 1,025 bytes, one more than an end sends.
    fn take(&mut self, at: Address, room: &mut [u8; 1025]) -> Taken
        requires { IsTrue (is_open self.old) }
        ensures is_open { IsTrue (is_open self.new) }
        ensures len { IsWithinRoom result }
        ensures calls { calls self.new ≡ told_more (calls self.old) (took_entries at result room.new) }
        ensures opening { opening self.new ≡ opening self.old }
        ensures cause { HasCause (count self.old) (count self.new) (result ≡ Taken.Failed) };

    /// How often it has failed. The count stays at 2^64 - 1 once it is there.
    fn faults(&self) -> u64
        ensures { result ≡ count self.now };
}
