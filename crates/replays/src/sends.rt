//! What an end has to send, compared with the entries of a trace.

ghost use Rattle.std.specs.Prelude.{◌≡◌, List, [], OnOk};
ghost use Rattle.dcp_ends.specs.Events.{Event};
ghost use Rattle.replays.specs.Visits.{Passes, place_reached};

use crate::entries::is_sent;
use crate::stops::Stop;
use dcp_ends::End;
use dcp_record::EntryCursor;

/// Goes on past the sends of an end, which must be the next entries.
fn past_sends<E: End>(end: &E, cursor: &mut EntryCursor<'_>) -> Result<(), Stop>
    ensures passes { Passes (E.rules end.now).place (E.outs end.now) cursor.old.entries cursor.old.at (place_reached cursor.new.at result) }
    ensures entries { cursor.new.entries ≡ cursor.old.entries }
{
    let place = end.address();
    let start = cursor.at();
    let mut count = 0;
    'sends: while let Some((to, message)) = end.outgoing(count) {
        let Some(entry) = cursor.next() else {
            return Err(Stop::Unended);
        };
        if !is_sent(&entry, place, to, message) {
            return Err(Stop::Differs { at: start + count });
        }
        count += 1;
    }
    Ok(())
}

/// Goes on past the sends of an end, and clears them.
pub(crate) fn answer<E: End>(end: &mut E, cursor: &mut EntryCursor<'_>) -> Result<(), Stop>
    ensures passes { Passes (E.rules end.old).place (E.outs end.old) cursor.old.entries cursor.old.at (place_reached cursor.new.at result) }
    ensures entries { cursor.new.entries ≡ cursor.old.entries }
    ensures quiet { OnOk result (E.outs end.new ≡ []) }
    ensures stands { (events : List Event) → E.stands end.old events → E.stands end.new events }
    ensures rules { E.rules end.new ≡ E.rules end.old }
    ensures made { E.made end.new ≡ E.made end.old }
{
    past_sends(end, cursor)?;
    end.clear_outgoing();
    Ok(())
}
