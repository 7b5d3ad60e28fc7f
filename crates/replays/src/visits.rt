//! One end and one of its entries.

ghost use Rattle.std.specs.Prelude.{◌≡◌, ◌++◌, List, [], OnOk};
ghost use Rattle.dcp_ends.specs.Events.{Event};
ghost use Rattle.dcp_record.specs.EntryRefs.{entry_told};
ghost use Rattle.replays.specs.Visits.{Passes, PassesUnless, event_in, place_reached, visit_sends};

use crate::sends::answer;
use crate::stops::Stop;
use dcp_ends::End;
use dcp_record::{EntryCursor, EntryRef};

/// Gives an end the event of one of its entries, if it is one.
fn hear<E: End>(end: &mut E, entry: &EntryRef<'_>)
    requires { E.outs end.old ≡ [] }
    ensures stands { (events : List Event) → E.stands end.old events → E.stands end.new (events ++ event_in (entry_told entry.now)) }
    ensures sends { (events : List Event) → E.stands end.old events → E.outs end.new ≡ visit_sends (E.rules end.old) events (entry_told entry.now) }
    ensures rules { E.rules end.new ≡ E.rules end.old }
    ensures made { E.made end.new ≡ E.made end.old }
{
    match entry {
        EntryRef::Got { from, bytes, .. } => end.on_gram(*from, bytes),
        EntryRef::Turn { .. } => end.on_turn(),
        EntryRef::Idle { .. } | EntryRef::Sent { .. } => {}
    }
}

/// Gives an end the event of one of its entries, and goes on past what it then sends.
pub(crate) fn visit<E: End>(
    end: &mut E,
    entry: &EntryRef<'_>,
    cursor: &mut EntryCursor<'_>,
) -> Result<(), Stop>
    requires quiet { E.outs end.old ≡ [] }
    ensures passes { (events : List Event) → E.stands end.old events → Passes (E.rules end.old).place (visit_sends (E.rules end.old) events (entry_told entry.now)) cursor.old.entries cursor.old.at (place_reached cursor.new.at result) }
    ensures entries { cursor.new.entries ≡ cursor.old.entries }
    ensures quiet { OnOk result (E.outs end.new ≡ []) }
    ensures stands { (events : List Event) → E.stands end.old events → E.stands end.new (events ++ event_in (entry_told entry.now)) }
    ensures rules { E.rules end.new ≡ E.rules end.old }
    ensures made { E.made end.new ≡ E.made end.old }
{
    hear(end, entry);
    answer(end, cursor)?;
    Ok(())
}

/// Gives the master the event of one of its entries, and goes on past what it then sends. Where
/// it then has its report, no entry may follow.
pub(crate) fn visit_master<M: End>(
    master: &mut M,
    entry: &EntryRef<'_>,
    cursor: &mut EntryCursor<'_>,
) -> Result<(), Stop>
    requires quiet { M.outs master.old ≡ [] }
    ensures passes { (events : List Event) → M.stands master.old events
        → PassesUnless (M.rules master.old) events (entry_told entry.now) cursor.old.entries cursor.old.at (place_reached cursor.new.at result) }
    ensures entries { cursor.new.entries ≡ cursor.old.entries }
    ensures quiet { OnOk result (M.outs master.new ≡ []) }
    ensures stands { (events : List Event) → M.stands master.old events → M.stands master.new (events ++ event_in (entry_told entry.now)) }
    ensures rules { M.rules master.new ≡ M.rules master.old }
    ensures made { M.made master.new ≡ M.made master.old }
{
    hear(master, entry);
    if master.is_over() && !cursor.is_at_end() {
        return Err(Stop::Differs { at: cursor.at() });
    }
    answer(master, cursor)?;
    Ok(())
}
