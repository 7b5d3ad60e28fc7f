//! A round of several ends: each is looked at for its datagrams, and then each has its turn.

ghost use Rattle.std.specs.Prelude.{◌≡◌, ◌≤◌, ◌<◌, ◌^◌, [], ◌∷◌, map, IsTrue, OnOk, OnErr, IfOk, IfSome, List, ℕ};
ghost use Rattle.std.specs.List.{All};
ghost use Rattle.std.specs.Option.{option_map};
ghost use Rattle.dcp_ends.specs.Logs.{IsInRange};
ghost use Rattle.dcp_ends.specs.declared.entries.LogEntry.{LogEntry};
ghost use Rattle.rounds.specs.Steps.{Caused, AddsPart};
ghost use Rattle.rounds.specs.Rounds.{IsLook, IsLookPart, IsTurn, IsTurnPart, EachEnd, EachPart, IfFirst, IsLooks, IsLooksPart, IsTurns, IsTurnsPart, IsRound, IsRoundPart, hosted, has_report, places_of};
ghost use Rattle.rounds.specs.Told.{IsTold, IsToldUpTo, AllTold, AllToldUpTo, Apart};

use crate::one_end::{HostFault, look, turn};
use crate::rooms::Room;
use crate::seats::Seat;
use dcp_net::Net;
use dcp_record::RunLog;

/// Looks at each of these ends, in order.
fn look_each<E: Seat, N: Net>(
    ends: &mut [E],
    net: &mut N,
    log: &mut RunLog,
    room: &mut Room,
) -> Result<(), HostFault>
    requires is_open { IsTrue (N.is_open net.old) }
    requires apart { Apart (map E.rules ends.old) }
    requires quiet { All (λ end. E.outs end ≡ []) ends.old }
    requires told { AllTold E.stands E.rules ends.old log.old.entries }
    ensures is_open { IsTrue (N.is_open net.new) }
    ensures opening { N.opening net.new ≡ N.opening net.old }
    ensures rules { map E.rules ends.new ≡ map E.rules ends.old }
    ensures made { map E.made ends.new ≡ map E.made ends.old }
    ensures quiet { OnOk result (All (λ end. E.outs end ≡ []) ends.new) }
    ensures told { OnOk result (AllTold E.stands E.rules ends.new log.new.entries) }
    ensures cut { OnErr result (AllToldUpTo E.stands E.rules ends.new log.new.entries) }
    ensures ok { OnOk result (AddsPart N.calls (EachEnd IsLook (places_of (map E.rules ends.old))) net.old net.new log.old.entries log.new.entries) }
    ensures err { OnErr result (AddsPart N.calls (EachPart IsLook IsLookPart (places_of (map E.rules ends.old))) net.old net.new log.old.entries log.new.entries) }
    ensures cause { Caused (N.count net.old) (N.count net.new) result }
    ensures range { All IsInRange log.old.entries → All IsInRange log.new.entries }
{
    for end in ends.iter_mut() {
        look(end, net, log, room)?;
    }
    Ok(())
}

/// Gives each of these ends its turn, in order.
fn turn_each<E: Seat, N: Net>(
    ends: &mut [E],
    net: &mut N,
    log: &mut RunLog,
) -> Result<(), HostFault>
    requires is_open { IsTrue (N.is_open net.old) }
    requires apart { Apart (map E.rules ends.old) }
    requires quiet { All (λ end. E.outs end ≡ []) ends.old }
    requires told { AllTold E.stands E.rules ends.old log.old.entries }
    ensures is_open { IsTrue (N.is_open net.new) }
    ensures opening { N.opening net.new ≡ N.opening net.old }
    ensures rules { map E.rules ends.new ≡ map E.rules ends.old }
    ensures made { map E.made ends.new ≡ map E.made ends.old }
    ensures quiet { OnOk result (All (λ end. E.outs end ≡ []) ends.new) }
    ensures told { OnOk result (AllTold E.stands E.rules ends.new log.new.entries) }
    ensures cut { OnErr result (AllToldUpTo E.stands E.rules ends.new log.new.entries) }
    ensures ok { OnOk result (AddsPart N.calls (EachEnd IsTurn (places_of (map E.rules ends.old))) net.old net.new log.old.entries log.new.entries) }
    ensures err { OnErr result (AddsPart N.calls (EachPart IsTurn IsTurnPart (places_of (map E.rules ends.old))) net.old net.new log.old.entries log.new.entries) }
    ensures cause { Caused (N.count net.old) (N.count net.new) result }
    ensures range { All IsInRange log.old.entries → All IsInRange log.new.entries }
{
    for end in ends.iter_mut() {
        turn(end, net, log)?;
    }
    Ok(())
}

/// Looks at the first end, where there is one.
fn look_first<E: Seat, N: Net>(
    first: &mut Option<E>,
    net: &mut N,
    log: &mut RunLog,
    room: &mut Room,
) -> Result<(), HostFault>
    requires is_open { IsTrue (N.is_open net.old) }
    requires quiet { IfSome first.old (λ end. E.outs end ≡ []) }
    requires told { IfSome first.old (λ end. IsTold E.stands (E.rules end) end log.old.entries) }
    ensures is_open { IsTrue (N.is_open net.new) }
    ensures opening { N.opening net.new ≡ N.opening net.old }
    ensures rules { option_map E.rules first.new ≡ option_map E.rules first.old }
    ensures made { option_map E.made first.new ≡ option_map E.made first.old }
    ensures quiet { OnOk result (IfSome first.new (λ end. E.outs end ≡ [])) }
    ensures told { OnOk result (IfSome first.new (λ end. IsTold E.stands (E.rules end) end log.new.entries)) }
    ensures cut { OnErr result (IfSome first.new (λ end. IsToldUpTo E.stands (E.rules end) end log.new.entries)) }
    ensures ok { OnOk result (AddsPart N.calls (IfFirst IsLook (option_map E.rules first.old)) net.old net.new log.old.entries log.new.entries) }
    ensures err { OnErr result (AddsPart N.calls (IfFirst IsLookPart (option_map E.rules first.old)) net.old net.new log.old.entries log.new.entries) }
    ensures cause { Caused (N.count net.old) (N.count net.new) result }
    ensures range { All IsInRange log.old.entries → All IsInRange log.new.entries }
{
    let Some(end) = first else {
        return Ok(());
    };
    look(end, net, log, room)?;
    Ok(())
}

/// Gives the first end its turn, where there is one.
fn turn_first<E: Seat, N: Net>(
    first: &mut Option<E>,
    net: &mut N,
    log: &mut RunLog,
) -> Result<(), HostFault>
    requires is_open { IsTrue (N.is_open net.old) }
    requires quiet { IfSome first.old (λ end. E.outs end ≡ []) }
    requires told { IfSome first.old (λ end. IsTold E.stands (E.rules end) end log.old.entries) }
    ensures is_open { IsTrue (N.is_open net.new) }
    ensures opening { N.opening net.new ≡ N.opening net.old }
    ensures rules { option_map E.rules first.new ≡ option_map E.rules first.old }
    ensures made { option_map E.made first.new ≡ option_map E.made first.old }
    ensures quiet { OnOk result (IfSome first.new (λ end. E.outs end ≡ [])) }
    ensures told { OnOk result (IfSome first.new (λ end. IsTold E.stands (E.rules end) end log.new.entries)) }
    ensures cut { OnErr result (IfSome first.new (λ end. IsToldUpTo E.stands (E.rules end) end log.new.entries)) }
    ensures ok { OnOk result (AddsPart N.calls (IfFirst IsTurn (option_map E.rules first.old)) net.old net.new log.old.entries log.new.entries) }
    ensures err { OnErr result (AddsPart N.calls (IfFirst IsTurnPart (option_map E.rules first.old)) net.old net.new log.old.entries log.new.entries) }
    ensures cause { Caused (N.count net.old) (N.count net.new) result }
    ensures range { All IsInRange log.old.entries → All IsInRange log.new.entries }
{
    let Some(end) = first else {
        return Ok(());
    };
    turn(end, net, log)?;
    Ok(())
}

/// Looks at the master, where it is hosted, and then at each slave.
fn look_all<M: Seat, S: Seat, N: Net>(
    master: &mut Option<M>,
    slaves: &mut [S],
    net: &mut N,
    log: &mut RunLog,
    room: &mut Room,
) -> Result<(), HostFault>
    requires is_open { IsTrue (N.is_open net.old) }
    requires apart { Apart (hosted (option_map M.rules master.old) (map S.rules slaves.old)) }
    requires quiet_master { IfSome master.old (λ end. M.outs end ≡ []) }
    requires quiet_slaves { All (λ end. S.outs end ≡ []) slaves.old }
    requires told_master { IfSome master.old (λ end. IsTold M.stands (M.rules end) end log.old.entries) }
    requires told_slaves { AllTold S.stands S.rules slaves.old log.old.entries }
    ensures is_open { IsTrue (N.is_open net.new) }
    ensures opening { N.opening net.new ≡ N.opening net.old }
    ensures rules_master { option_map M.rules master.new ≡ option_map M.rules master.old }
    ensures rules_slaves { map S.rules slaves.new ≡ map S.rules slaves.old }
    ensures made_master { option_map M.made master.new ≡ option_map M.made master.old }
    ensures made_slaves { map S.made slaves.new ≡ map S.made slaves.old }
    ensures quiet_master { OnOk result (IfSome master.new (λ end. M.outs end ≡ [])) }
    ensures quiet_slaves { OnOk result (All (λ end. S.outs end ≡ []) slaves.new) }
    ensures told_master { OnOk result (IfSome master.new (λ end. IsTold M.stands (M.rules end) end log.new.entries)) }
    ensures told_slaves { OnOk result (AllTold S.stands S.rules slaves.new log.new.entries) }
    ensures cut_master { OnErr result (IfSome master.new (λ end. IsToldUpTo M.stands (M.rules end) end log.new.entries)) }
    ensures cut_slaves { OnErr result (AllToldUpTo S.stands S.rules slaves.new log.new.entries) }
    ensures ok { OnOk result (AddsPart N.calls (IsLooks (option_map M.rules master.old) (map S.rules slaves.old)) net.old net.new log.old.entries log.new.entries) }
    ensures err { OnErr result (AddsPart N.calls (IsLooksPart (option_map M.rules master.old) (map S.rules slaves.old)) net.old net.new log.old.entries log.new.entries) }
    ensures cause { Caused (N.count net.old) (N.count net.new) result }
    ensures range { All IsInRange log.old.entries → All IsInRange log.new.entries }
{
    look_first(master, net, log, room)?;
    look_each(slaves, net, log, room)?;
    Ok(())
}

/// Whether the master is hosted and has its report.
fn reports<M: Seat>(master: &Option<M>) -> bool
    ensures { (log : List LogEntry) → IfSome master.now (λ end. IsTold M.stands (M.rules end) end log) → result ≡ has_report (option_map M.rules master.now) log }
{
    match master {
        Some(end) => end.is_over(),
        None => false,
    }
}

/// Gives the master its turn, and then each slave, but no slave where the master then has its report.
/// The answer says whether it has.
fn turn_all<M: Seat, S: Seat, N: Net>(
    master: &mut Option<M>,
    slaves: &mut [S],
    net: &mut N,
    log: &mut RunLog,
) -> Result<bool, HostFault>
    requires is_open { IsTrue (N.is_open net.old) }
    requires apart { Apart (hosted (option_map M.rules master.old) (map S.rules slaves.old)) }
    requires quiet_master { IfSome master.old (λ end. M.outs end ≡ []) }
    requires quiet_slaves { All (λ end. S.outs end ≡ []) slaves.old }
    requires told_master { IfSome master.old (λ end. IsTold M.stands (M.rules end) end log.old.entries) }
    requires told_slaves { AllTold S.stands S.rules slaves.old log.old.entries }
    ensures is_open { IsTrue (N.is_open net.new) }
    ensures opening { N.opening net.new ≡ N.opening net.old }
    ensures rules_master { option_map M.rules master.new ≡ option_map M.rules master.old }
    ensures rules_slaves { map S.rules slaves.new ≡ map S.rules slaves.old }
    ensures made_master { option_map M.made master.new ≡ option_map M.made master.old }
    ensures made_slaves { map S.made slaves.new ≡ map S.made slaves.old }
    ensures quiet_master { OnOk result (IfSome master.new (λ end. M.outs end ≡ [])) }
    ensures quiet_slaves { OnOk result (All (λ end. S.outs end ≡ []) slaves.new) }
    ensures told_master { OnOk result (IfSome master.new (λ end. IsTold M.stands (M.rules end) end log.new.entries)) }
    ensures told_slaves { OnOk result (AllTold S.stands S.rules slaves.new log.new.entries) }
    ensures cut_master { OnErr result (IfSome master.new (λ end. IsToldUpTo M.stands (M.rules end) end log.new.entries)) }
    ensures cut_slaves { OnErr result (AllToldUpTo S.stands S.rules slaves.new log.new.entries) }
    ensures ok { OnOk result (AddsPart N.calls (IsTurns (option_map M.rules master.old) (map S.rules slaves.old) log.old.entries) net.old net.new log.old.entries log.new.entries) }
    ensures report { IfOk result (λ over. over ≡ has_report (option_map M.rules master.old) log.new.entries) }
    ensures err { OnErr result (AddsPart N.calls (IsTurnsPart (option_map M.rules master.old) (map S.rules slaves.old) log.old.entries) net.old net.new log.old.entries log.new.entries) }
    ensures cause { Caused (N.count net.old) (N.count net.new) result }
    ensures range { All IsInRange log.old.entries → All IsInRange log.new.entries }
{
    turn_first(master, net, log)?;
    if reports(master) {
        return Ok(true);
    }
    turn_each(slaves, net, log)?;
    Ok(false)
}

/// Runs one round of the hosted ends: each is looked at for its datagrams, and then each has its turn,
/// the master first and the slaves in order. The answer says whether the master is hosted and has its
/// report. After a refusal the log is what was done up to then.
pub fn run_round<M: Seat, S: Seat, N: Net>(
    master: &mut Option<M>,
    slaves: &mut [S],
    net: &mut N,
    log: &mut RunLog,
    room: &mut Room,
) -> Result<bool, HostFault>
    requires is_open { IsTrue (N.is_open net.old) }
    requires apart { Apart (hosted (option_map M.rules master.old) (map S.rules slaves.old)) }
    requires quiet_master { IfSome master.old (λ end. M.outs end ≡ []) }
    requires quiet_slaves { All (λ end. S.outs end ≡ []) slaves.old }
    requires told_master { IfSome master.old (λ end. IsTold M.stands (M.rules end) end log.old.entries) }
    requires told_slaves { AllTold S.stands S.rules slaves.old log.old.entries }
    ensures is_open { IsTrue (N.is_open net.new) }
    ensures opening { N.opening net.new ≡ N.opening net.old }
    ensures rules_master { option_map M.rules master.new ≡ option_map M.rules master.old }
    ensures rules_slaves { map S.rules slaves.new ≡ map S.rules slaves.old }
    ensures made_master { option_map M.made master.new ≡ option_map M.made master.old }
    ensures made_slaves { map S.made slaves.new ≡ map S.made slaves.old }
    ensures quiet_master { OnOk result (IfSome master.new (λ end. M.outs end ≡ [])) }
    ensures quiet_slaves { OnOk result (All (λ end. S.outs end ≡ []) slaves.new) }
    ensures told_master { OnOk result (IfSome master.new (λ end. IsTold M.stands (M.rules end) end log.new.entries)) }
    ensures told_slaves { OnOk result (AllTold S.stands S.rules slaves.new log.new.entries) }
    ensures cut_master { OnErr result (IfSome master.new (λ end. IsToldUpTo M.stands (M.rules end) end log.new.entries)) }
    ensures cut_slaves { OnErr result (AllToldUpTo S.stands S.rules slaves.new log.new.entries) }
    ensures ok { OnOk result (AddsPart N.calls (IsRound (option_map M.rules master.old) (map S.rules slaves.old) log.old.entries) net.old net.new log.old.entries log.new.entries) }
    ensures report { IfOk result (λ over. over ≡ has_report (option_map M.rules master.old) log.new.entries) }
    ensures err { OnErr result (AddsPart N.calls (IsRoundPart (option_map M.rules master.old) (map S.rules slaves.old) log.old.entries) net.old net.new log.old.entries log.new.entries) }
    ensures cause { Caused (N.count net.old) (N.count net.new) result }
    ensures range { All IsInRange log.old.entries → All IsInRange log.new.entries }
{
    look_all(master, slaves, net, log, room)?;
    let over = turn_all(master, slaves, net, log)?;
    Ok(over)
}
