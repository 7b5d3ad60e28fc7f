//! Whether a message is one of those that stand in the outbox.

ghost use Rattle.std.specs.Prelude.{◌≡◌, ◌<◌, ◌≤◌, ℕ, length, take, IsTrue, slice_get, Some, IfSome, IfNone, MatchBool};
ghost use Rattle.dcp_ends.specs.Events.{Send};
ghost use Rattle.conform.specs.Standing.{IsMessageHead};

use dcp_types::Address;
use slave_core::SlaveOutbox;

/// A message has at most so many bytes.
pub(crate) const MOST_BYTES: usize = 1024;

/// At most so many answers to a request are awaited one by one.
const MOST_ANSWERS: usize = 3;

/// Whether the message with this place in the outbox is this one.
pub(crate) fn is_out(out: &SlaveOutbox, i: usize, to: Address, bytes: &[u8]) -> bool
    ensures { MatchBool result ((slice_get out.now i ≡ Some (record { to = to; bytes = bytes.now })) × (length bytes.now ≤ 1024)) (slice_get out.now i ≡ Some (record { to = to; bytes = bytes.now }) → ⊥) }
{
    match out.get(i) {
        Some((address, message)) => same_message(address, message, to, bytes),
        None => false,
    }
}

/// Whether two messages are one.
fn same_message(address: Address, message: &[u8], to: Address, bytes: &[u8]) -> bool
    ensures { MatchBool result ((address ≡ to) × (message.now ≡ bytes.now)) ((address ≡ to) × (message.now ≡ bytes.now) → ⊥) }
{
    address == to && message == bytes
}

/// The first three messages in the outbox: which of them is this one.
pub(crate) fn find_out(out: &SlaveOutbox, to: Address, bytes: &[u8]) -> Option<usize>
    ensures some { IfSome result (λ i. (slice_get out.now i ≡ Some (record { to = to; bytes = bytes.now })) × (length bytes.now ≤ 1024)) }
    ensures none { IfNone result ((i : ℕ) → i < 3 → slice_get out.now i ≡ Some (record { to = to; bytes = bytes.now }) → ⊥) }
{
    for i in 0..MOST_ANSWERS {
        if is_out(out, i, to, bytes) {
            return Some(i);
        }
    }
    None
}

/// Whether bytes begin with these.
fn is_front(head: &[u8], bytes: &[u8]) -> bool
    ensures { MatchBool result (take (length head.now) bytes.now ≡ head.now) (take (length head.now) bytes.now ≡ head.now → ⊥) }
{
    if bytes.len() < head.len() {
        return false;
    }
    &bytes[..head.len()] == head
}

/// Whether a message begins with another one and has at most 1,024 bytes.
fn begins(address: Address, head: &[u8], to: Address, bytes: &[u8]) -> bool
    ensures { MatchBool result (IsMessageHead (record { to = address; bytes = head.now }) (record { to = to; bytes = bytes.now })) (IsMessageHead (record { to = address; bytes = head.now }) (record { to = to; bytes = bytes.now }) → ⊥) }
{
    if address != to {
        return false;
    }
    if bytes.len() > MOST_BYTES {
        return false;
    }
    is_front(head, bytes)
}

/// Whether a message of at most 1,024 bytes begins with that of this place in the outbox.
pub(crate) fn is_begun(out: &SlaveOutbox, i: usize, to: Address, bytes: &[u8]) -> bool
    ensures begins { (head : Send) → slice_get out.now i ≡ Some head → MatchBool result (IsMessageHead head (record { to = to; bytes = bytes.now })) (IsMessageHead head (record { to = to; bytes = bytes.now }) → ⊥) }
    ensures few { IsTrue result → length bytes.now ≤ 1024 }
{
    match out.get(i) {
        Some((address, head)) => bytes.len() <= MOST_BYTES && begins(address, head, to, bytes),
        None => false,
    }
}
