//! Single entries of a trace.

ghost use Rattle.std.specs.Prelude.{◌≡◌, ◌≢◌, MatchBool};
ghost use Rattle.dcp_ends.specs.declared.entries.LogEntry.TheVariants.{Sent};
ghost use Rattle.dcp_record.specs.EntryRefs.{entry_told};
ghost use Rattle.replays.specs.Visits.{place_in};

use dcp_record::EntryRef;
use dcp_types::Address;

/// Where the end is found that an entry is about; none for a Sent.
pub(crate) fn place_in(entry: &EntryRef<'_>) -> Option<Address>
    ensures { result ≡ place_in (entry_told entry.now) }
{
    match entry {
        EntryRef::Sent { .. } => None,
        EntryRef::Got { at, .. } => Some(*at),
        EntryRef::Idle { at } => Some(*at),
        EntryRef::Turn { at } => Some(*at),
    }
}

/// Whether an entry says that this message was sent.
pub(crate) fn is_sent(entry: &EntryRef<'_>, by: Address, receiver: Address, message: &[u8]) -> bool
    ensures { MatchBool result (entry_told entry.now ≡ Sent by receiver message.now) (entry_told entry.now ≢ Sent by receiver message.now) }
{
    match entry {
        EntryRef::Sent { from, to, bytes } => {
            *from == by && *to == receiver && *bytes == message
        }
        _ => false,
    }
}
