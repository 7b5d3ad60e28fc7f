//! The datagrams of a script.

use dcp_ends::Bytes;
use dcp_types::Address;

/// A datagram of a script: the end that takes it, who seems to have sent it, and at most 1,025 bytes.
#[derive(Debug, Drop)]
pub struct ScriptGram {
    pub at: Address,
    pub from: Address,
    pub bytes: Bytes,
}
