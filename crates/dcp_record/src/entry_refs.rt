//! Single entries of a log, in bytes that were read.

use dcp_types::Address;

/// An entry whose bytes are a part of those that were read.
#[derive(Clone, Copy, Debug)]
pub enum EntryRef<'a> {
    Sent {
        from: Address,
        to: Address,
        bytes: &'a [u8],
    },
    Got {
        at: Address,
        from: Address,
        bytes: &'a [u8],
    },
    Idle {
        at: Address,
    },
    Turn {
        at: Address,
    },
}
