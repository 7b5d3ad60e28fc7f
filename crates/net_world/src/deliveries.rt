//! What a network in memory holds.

use dcp_ends::Bytes;
use dcp_types::Address;

/// A delivery of a message. A message that comes twice has two.
#[derive(Debug, Drop)]
pub struct Arrival {
    /// How many messages have been sent when it is due.
    pub due: u64,
    /// The number of its message, from 1, in the order of sending.
    pub number: u64,
    pub from: Address,
    pub to: Address,
    pub bytes: Bytes,
}
