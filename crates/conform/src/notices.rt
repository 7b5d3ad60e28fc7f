//! Notices of log entries.

ghost use Rattle.std.specs.Prelude.{◌≡◌, MatchBool};
ghost use Rattle.slave_spec.specs.Foreign.{AreNoticesFrom, AreNoticesIn};
ghost use Rattle.conform.specs.Notices.{is_note, MayTellOne};

use crate::matching::MOST_BYTES;
use dcp_types::Address;
use slave_core::same_address;
use slave_spec::Session;

/// The type code of a notice of a log entry.
const LOG_NOTE: u8 = 225;

/// Such a notice has so many bytes before its text: its type code, the id of the slave, a category, and a
/// level.
const NOTE_HEAD: usize = 4;

/// Whether this is a notice of a log entry from the slave with this id: its type code and its id, a
/// category, a level, and any text.
pub(crate) fn is_notice(bytes: &[u8], id: u8) -> bool
    ensures { result ≡ is_note bytes.now id }
{
    bytes.len() >= NOTE_HEAD && bytes.len() <= MOST_BYTES && bytes[0] == LOG_NOTE && bytes[1] == id
}

/// Whether this is a notice from the slave with this id to its master, where it may log.
fn is_told_by(master: Address, id: u8, logs: bool, to: Address, bytes: &[u8]) -> bool
    ensures { MatchBool result (MayTellOne logs (AreNoticesFrom master id) (record { to = to; bytes = bytes.now })) (MayTellOne logs (AreNoticesFrom master id) (record { to = to; bytes = bytes.now }) → ⊥) }
{
    if !logs {
        return false;
    }
    if !same_address(to, master) {
        return false;
    }
    is_notice(bytes, id)
}

/// Whether a slave in this session may tell this of its log.
pub(crate) fn is_told(session: Session, logs: bool, to: Address, bytes: &[u8]) -> bool
    ensures { MatchBool result (MayTellOne logs (AreNoticesIn session) (record { to = to; bytes = bytes.now })) (MayTellOne logs (AreNoticesIn session) (record { to = to; bytes = bytes.now }) → ⊥) }
{
    match session {
        Session::Before => false,
        Session::During { master, id } => is_told_by(master, id, logs, to, bytes),
        Session::After { master, id } => is_told_by(master, id, logs, to, bytes),
    }
}
