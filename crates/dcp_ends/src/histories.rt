//! A history that only contracts read.

ghost use Rattle.std.specs.Prelude.{◌≡◌, List, [], ◌∷◌, ◌++◌};
ghost use Rattle.std.specs.Borrow.{ftrue};
ghost use Rattle.dcp_ends.specs.declared.entries.LogEntry.{LogEntry};
ghost use Rattle.dcp_ends.specs.Entries.{call_entry};

use dcp_types::Address;
use std::marker::Model;

/// The successful calls of a network, for contracts alone: it takes no memory, and nothing at run time
/// depends on it. Nothing in it ties the list to a network: the type that has it does so by its own
/// invariant.
#[derive(Drop)]
pub struct History {
    pub ghost calls: { List LogEntry },
}

impl Model for History {
    ghost also_owns = { λ _. ftrue };
}

/// A successful call of a network.
#[derive(Clone, Copy, Debug)]
pub enum Call<'a> {
    Sent {
        from: Address,
        to: Address,
        bytes: &'a [u8],
    },
    Got {
        at: Address,
        from: Address,
        bytes: &'a [u8],
    },
    Idle {
        at: Address,
    },
}

impl History {
    /// No call.
    #[inline(always)]
    pub fn new() -> History
        ensures { result.calls ≡ [] }
    {
        History {}
    }

    /// The history with this call after the others.
    #[inline(always)]
    pub fn then(&self, call: &Call<'_>) -> History
        ensures { result.calls ≡ self.now.calls ++ call_entry call.now ∷ [] }
    {
        History {}
    }
}
