//! How far the hosted ends are.

ghost use Rattle.std.specs.Prelude.{◌≡◌, List, map};
ghost use Rattle.std.specs.List.{list_all};
ghost use Rattle.std.specs.Option.{option_map};
ghost use Rattle.dcp_ends.specs.declared.entries.LogEntry.{LogEntry};
ghost use Rattle.rounds.specs.Rounds.{has_report};
ghost use Rattle.rounds.specs.Told.{AllTold};
ghost use Rattle.host.specs.Views.{is_done, rules_are_over, progress_of};

use crate::hosted::Progress;
use rounds::Seat;

/// Whether each of these ends is over.
fn are_over<S: Seat>(slaves: &[S]) -> bool
    ensures { (log : List LogEntry) → AllTold S.stands S.rules slaves.now log → result ≡ list_all (rules_are_over log) (map S.rules slaves.now) }
{
    for seat in slaves {
        if !seat.is_over() {
            return false;
        }
    }
    true
}

/// How far these ends are, of which the master reports or not.
pub(crate) fn how_far<M: Seat, S: Seat>(master: &Option<M>, slaves: &[S], reports: bool) -> Progress
    ensures { (log : List LogEntry) → AllTold S.stands S.rules slaves.now log → reports ≡ has_report (option_map M.rules master.now) log
        → result ≡ progress_of (is_done (option_map M.rules master.now) (map S.rules slaves.now) log) }
{
    if reports || (master.is_none() && are_over(slaves)) {
        Progress::Done
    } else {
        Progress::Going
    }
}
