//! Going through a trace with ends that are made to run it.

ghost use Rattle.std.specs.Prelude.{◌≡◌, ◌<◌, List, [], false, length, map, take, IfSome, IfNone, IfOk, IfErr, OnOk};
ghost use Rattle.std.specs.List.{list_any};
ghost use Rattle.std.specs.Option.{option_map};
ghost use Rattle.dcp_ends.specs.declared.entries.LogEntry.{LogEntry};
ghost use Rattle.dcp_ends.specs.Logs.{events_at, same_address};
ghost use Rattle.rounds.specs.Rounds.{has_report, hosted, places_of};
ghost use Rattle.rounds.specs.Told.{Apart, IsTold};
ghost use Rattle.replays.specs.Differences.{EndsReplay, StopsReplayAt};
ghost use Rattle.replays.specs.Expected.{AreRight};
ghost use Rattle.replays.specs.Visits.{AreAt, IsFoundPlace, WentOn, is_found_at};

use crate::entries::place_in;
use crate::stops::Stop;
use crate::visits::{visit, visit_master};
use dcp_ends::End;
use dcp_record::{Entries, EntryCursor};
use dcp_types::Address;

/// Whether this end is there, and is found at this address.
fn is_at<E: End>(end: &Option<E>, place: Address) -> bool
    ensures { result ≡ is_found_at (option_map E.rules end.now) place }
{
    match end {
        Some(end) => end.address() == place,
        None => false,
    }
}

/// Whether the master is there and has its report.
fn reports<M: End>(master: &Option<M>) -> bool
    ensures { (log : List LogEntry) → IfSome master.now (λ m. IsTold M.stands (M.rules m) m log) → result ≡ has_report (option_map M.rules master.now) log }
{
    match master {
        Some(end) => end.is_over(),
        None => false,
    }
}

/// The first of these addresses that is this one, counted from 0.
fn find(places: &[Address], place: Address) -> Option<usize>
    ensures found { IfSome result (λ i. IsFoundPlace places.now place i) }
    ensures none { IfNone result (list_any (λ a. same_address a place) places.now ≡ false) }
{
    for i in 0..places.len() {
        if places[i] == place {
            return Some(i);
        }
    }
    None
}

/// Goes on past the next entry and what its end then sends. `places` are the addresses of the slaves.
fn go_on<M: End, S: End>(
    master: &mut Option<M>,
    slaves: &mut [S],
    places: &[Address],
    cursor: &mut EntryCursor<'_>,
) -> Result<(), Stop>
    requires here { cursor.old.at < length cursor.old.entries }
    requires places { places.now ≡ places_of (map S.rules slaves.old) }
    requires apart { Apart (hosted (option_map M.rules master.old) (map S.rules slaves.old)) }
    requires right { AreRight (option_map M.rules master.old) (map S.rules slaves.old) (take cursor.old.at cursor.old.entries) }
    requires going { has_report (option_map M.rules master.old) (take cursor.old.at cursor.old.entries) ≡ false }
    requires ends { AreAt M.End S.End master.old slaves.old (take cursor.old.at cursor.old.entries) }
    ensures entries { cursor.new.entries ≡ cursor.old.entries }
    ensures rules_master { option_map M.rules master.new ≡ option_map M.rules master.old }
    ensures rules_slaves { map S.rules slaves.new ≡ map S.rules slaves.old }
    ensures made { option_map M.made master.new ≡ option_map M.made master.old }
    ensures ok { OnOk result (WentOn (option_map M.rules master.old) (map S.rules slaves.old) cursor.old.entries cursor.old.at cursor.new.at) }
    ensures ends { OnOk result (AreAt M.End S.End master.new slaves.new (take cursor.new.at cursor.old.entries)) }
    ensures err { IfErr result (λ stop. StopsReplayAt (option_map M.rules master.old) (map S.rules slaves.old) cursor.old.entries stop) }
{
    let at = cursor.at();
    let Some(entry) = cursor.next() else {
        unreachable!();
    };
    let Some(place) = place_in(&entry) else {
        return Err(Stop::Differs { at });
    };
    if is_at(master, place) {
        let Some(end) = master else {
            unreachable!();
        };
        visit_master(end, &entry, cursor)?;
        return Ok(());
    }
    let Some(i) = find(places, place) else {
        return Err(Stop::Differs { at });
    };
    visit(&mut slaves[i], &entry, cursor)?;
    Ok(())
}

/// Goes through the entries with a master, if it is hosted, and slaves to which nothing has come. `places`
/// are the addresses of the slaves.
pub(crate) fn go_through<M: End, S: End>(
    master: &mut Option<M>,
    slaves: &mut [S],
    places: &[Address],
    entries: &Entries<'_>,
) -> Result<(), Stop>
    requires places { places.now ≡ places_of (map S.rules slaves.old) }
    requires apart { Apart (hosted (option_map M.rules master.old) (map S.rules slaves.old)) }
    requires ends { AreAt M.End S.End master.old slaves.old [] }
    ensures result { EndsReplay (option_map M.rules master.old) (map S.rules slaves.old) entries.now result }
    ensures rules { option_map M.rules master.new ≡ option_map M.rules master.old }
    ensures made { option_map M.made master.new ≡ option_map M.made master.old }
    ensures stands { OnOk result (IfSome master.new (λ m. M.stands m (events_at (M.rules m).place entries.now))) }
{
    let mut cursor = entries.cursor();
    'entries: while !cursor.is_at_end() {
        if reports(master) {
            return Err(Stop::Differs { at: cursor.at() });
        }
        go_on(master, slaves, places, &mut cursor)?;
    }
    if reports(master) {
        Ok(())
    } else {
        Err(Stop::Unended)
    }
}
