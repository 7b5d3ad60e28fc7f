//! One round of ends, with how far they are after it.

ghost use Rattle.std.specs.Prelude.{◌≡◌, None, Option, IsTrue, OnOk, OnErr, IfOk, map};
ghost use Rattle.std.specs.Option.{option_map};
ghost use Rattle.rounds.specs.Rounds.{IsRound, IsRoundPart};
ghost use Rattle.rounds.specs.Steps.{AddsPart, Caused};
ghost use Rattle.host.specs.Views.{fault_of, is_done, progress_of};
ghost use Rattle.host.specs.Hosts.{AreSound};

use crate::hosted::Progress;
use crate::over::how_far;
use dcp_net::Net;
use dcp_record::RunLog;
use rounds::{HostFault, Room, Seat, run_round};

/// Runs one round of these ends, the master first, and says how far they are.
pub(crate) fn run<M: Seat, S: Seat, N: Net>(
    master: &mut Option<M>,
    slaves: &mut Vec<S>,
    net: &mut N,
    log: &mut RunLog,
    room: &mut Room,
) -> Result<Progress, HostFault>
    requires is_open { IsTrue (N.is_open net.old) }
    requires sound { AreSound M.Seat S.Seat (option_map M.rules master.old) (map S.rules slaves.old.items) (option_map M.made master.old) (map S.made slaves.old.items) master.old slaves.old.items log.old.entries None }
    ensures is_open { IsTrue (N.is_open net.new) }
    ensures opening { N.opening net.new ≡ N.opening net.old }
    ensures sound { AreSound M.Seat S.Seat (option_map M.rules master.old) (map S.rules slaves.old.items) (option_map M.made master.old) (map S.made slaves.old.items) master.new slaves.new.items log.new.entries (fault_of result) }
    ensures ok { OnOk result (AddsPart N.calls (IsRound (option_map M.rules master.old) (map S.rules slaves.old.items) log.old.entries) net.old net.new log.old.entries log.new.entries) }
    ensures err { OnErr result (AddsPart N.calls (IsRoundPart (option_map M.rules master.old) (map S.rules slaves.old.items) log.old.entries) net.old net.new log.old.entries log.new.entries) }
    ensures progress { IfOk result (λ progress. progress ≡ progress_of (is_done (option_map M.rules master.old) (map S.rules slaves.old.items) log.new.entries)) }
    ensures cause { Caused (N.count net.old) (N.count net.new) result }
{
    let reports = run_round(master, slaves, net, log, room)?;
    Ok(how_far(master, slaves, reports))
}
