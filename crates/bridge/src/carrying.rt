//! What a bridge does with the bytes of a message.

ghost use Rattle.std.specs.Prelude.{◌≡◌, ◌<◌, ◌==◌, ◌||◌, true, length};
ghost use Rattle.pdu_layout.specs.Reading.{message_in};
ghost use Rattle.bridge.specs.Carried.{carried_to, names_transport};

use crate::sides::BridgeSide;
use pdu_codec::read;
use pdu_layout::{CFG_SOURCE_NETWORK_INFORMATION, CFG_TARGET_NETWORK_INFORMATION};

/// The place of the transport's code in a network information.
const TRANSPORT_AT: usize = 6;

/// Whether a message with this type code is a network information.
fn is_of_network(code: u8) -> bool
    ensures { result ≡ ((code == 37) || (code == 38)) }
{
    code == CFG_TARGET_NETWORK_INFORMATION.code || code == CFG_SOURCE_NETWORK_INFORMATION.code
}

/// Whether the bytes are a network information, which names a transport.
fn names_transport(bytes: &[u8]) -> bool
    ensures names { result ≡ names_transport (message_in bytes.now) }
    ensures long { result ≡ true → 6 < length bytes.now }
{
    if bytes.is_empty() || !is_of_network(bytes[0]) {
        return false;
    }
    read(bytes).is_some()
}

/// Writes the transport of this side into the bytes, where they name one.
pub(crate) fn carry(to: BridgeSide, bytes: &mut [u8])
    ensures { bytes.new ≡ carried_to to bytes.old }
{
    if names_transport(bytes) {
        bytes[TRANSPORT_AT] = to.protocol().code();
    }
}
