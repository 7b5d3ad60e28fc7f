//! A message that waits.

ghost use Rattle.std.specs.Prelude.{◌≡◌, ◌≤◌, length};

use arrayvec::ArrayVec;
use dcp_types::Address;
use std::marker::Model;

/// The most bytes of a message.
pub(crate) const LONGEST: usize = 1024;

/// The bytes of a message, 1 to 1,024, in the value itself. Contracts see the list.
#[derive(Drop)]
pub(crate) struct Content {
    bytes: ArrayVec<u8, LONGEST>,
}

impl Model for Content {
    ghost use Rattle.std.specs.Prelude.{◌≤◌, List, ℕ, length};

    ghost Value = { List ℕ };

    ghost view = { λ c. c.bytes.items };

    ghost invariant = { λ c. (1 ≤ length c.bytes.items) × (length c.bytes.items ≤ 1024) };
}

impl Content {
    /// A copy of these bytes.
    pub(crate) fn new(bytes: &[u8]) -> Content
        requires low { 1 ≤ length bytes.now }
        requires high { length bytes.now ≤ 1024 }
        ensures { result ≡ bytes.now }
    {
        let mut kept = ArrayVec::new();
        match kept.try_extend_from_slice(bytes) {
            Ok(()) => Content { bytes: kept },
            Err(_) => unreachable!(),
        }
    }

    /// The bytes in order.
    pub(crate) fn as_slice(&self) -> &[u8]
        ensures value { result.now ≡ self.now }
        ensures low { 1 ≤ length result.now }
        ensures high { length result.now ≤ 1024 }
    {
        self.bytes.as_slice()
    }
}

/// A message on its way from one side to the other: who sent it, to whom it goes, and its bytes as they go out.
#[derive(Drop)]
pub struct Crossing {
    pub from: Address,
    pub to: Address,
    pub(crate) bytes: Content,
}
