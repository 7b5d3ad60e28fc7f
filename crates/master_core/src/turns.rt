//! What happens to all conversations.

ghost use Rattle.std.specs.Prelude.{◌≡◌, ◌≤◌, ◌+◌, ◌++◌, ℕ, List, length, map, Some, MatchOption};
ghost use Rattle.std.specs.List.{flat_map};
ghost use Rattle.dcp_types.specs.declared.limits.Limits.{Limits};
ghost use Rattle.master_spec.specs.Marks.{Turned, Begun};
ghost use Rattle.master_spec.specs.Course.{CourseTalk as Said, marked, sends_after, mark_of_gram};
ghost use Rattle.master_core.specs.Stages.{job_at};
ghost use Rattle.master_core.specs.Apart.{AreSlavesApart};
ghost use Rattle.master_core.specs.Each.{Each};
ghost use Rattle.master_core.specs.Speaking.{AreSilent, SpeaksAt};
ghost use Rattle.master_core.specs.Talking.{TalkStandsAt, Now, at_stage, IsNow, slave_talked_to};

use crate::records::{MasterOutbox, Talk};
use crate::stages::Schedule;
use dcp_types::Address;

/// All begin the present phase.
pub(crate) fn begin_all(talks: &mut Vec<Talk>, schedule: &Schedule, out: &mut MasterOutbox)
    requires { length out.old + length talks.old.items ≤ 32 }
    ensures stands { (limits : Limits) (now : Now) (said : List Said) → Each (TalkStandsAt limits now) talks.old.items said → Each (TalkStandsAt limits (at_stage schedule.now.steps schedule.now.stage)) talks.new.items (map (λ talk. marked limits talk (Some (Begun (job_at schedule.now.steps schedule.now.stage talk.slave.script)))) said) }
    ensures sends { (limits : Limits) (now : Now) (said : List Said) → Each (TalkStandsAt limits now) talks.old.items said → out.new ≡ out.old ++ flat_map (λ talk. sends_after limits talk (Some (Begun (job_at schedule.now.steps schedule.now.stage talk.slave.script)))) said }
    ensures room { length out.new ≤ length out.old + length talks.old.items }
    ensures slaves { map slave_talked_to talks.new.items ≡ map slave_talked_to talks.old.items }
{
    for talk in talks.iter_mut() {
        talk.begin(schedule, out);
    }
}

/// All have their turn. `settled` tells that none was going when the master's turn began.
pub(crate) fn turn_all(talks: &mut Vec<Talk>, settled: bool, out: &mut MasterOutbox)
    requires { length out.old + length talks.old.items ≤ 32 }
    ensures stands { (limits : Limits) (now : Now) (said : List Said) → Each (TalkStandsAt limits now) talks.old.items said → Each (TalkStandsAt limits now) talks.new.items (map (λ talk. marked limits talk (Some (Turned settled))) said) }
    ensures sends { (limits : Limits) (now : Now) (said : List Said) → Each (TalkStandsAt limits now) talks.old.items said → out.new ≡ out.old ++ flat_map (λ talk. sends_after limits talk (Some (Turned settled))) said }
    ensures room { length out.new ≤ length out.old + length talks.old.items }
    ensures slaves { map slave_talked_to talks.new.items ≡ map slave_talked_to talks.old.items }
{
    for talk in talks.iter_mut() {
        talk.turn(settled, out);
    }
}

/// The first conversation from this place on whose slave has this address.
fn find(talks: &[Talk], first: usize, from: Address) -> Option<usize>
    ensures { MatchOption result (AreSilent from first (length talks.now) talks.now) (λ i. SpeaksAt from talks.now i) }
{
    for i in first..talks.len() {
        if talks[i].is_of(from) {
            return Some(i);
        }
    }
    None
}

/// The conversation whose slave has this address, which is looked for from this place on first.
fn place_of(talks: &[Talk], spoke: usize, from: Address) -> Option<usize>
    ensures { MatchOption result (AreSilent from 0 (length talks.now) talks.now) (λ i. SpeaksAt from talks.now i) }
{
    match find(talks, spoke, from) {
        Some(i) => Some(i),
        None => find(talks, 0, from),
    }
}

/// A datagram has come, and the conversation takes it that it concerns, if there is one. `spoke` is where it is
/// looked for first; answers where the next one is.
pub(crate) fn hear_one(
    talks: &mut Vec<Talk>,
    spoke: usize,
    schedule: &Schedule,
    from: Address,
    bytes: &[u8],
    out: &mut MasterOutbox,
) -> usize
    requires room { length out.old + length talks.old.items ≤ 32 }
    requires apart { AreSlavesApart (map slave_talked_to talks.old.items) }
    ensures stands { (limits : Limits) (now : Now) (said : List Said) → Each (TalkStandsAt limits now) talks.old.items said → IsNow schedule.now now → Each (TalkStandsAt limits now) talks.new.items (map (λ talk. marked limits talk (mark_of_gram talk from bytes.now)) said) }
    ensures sends { (limits : Limits) (now : Now) (said : List Said) → Each (TalkStandsAt limits now) talks.old.items said → IsNow schedule.now now → out.new ≡ out.old ++ flat_map (λ talk. sends_after limits talk (mark_of_gram talk from bytes.now)) said }
    ensures room { length out.new ≤ length out.old + length talks.old.items }
    ensures slaves { map slave_talked_to talks.new.items ≡ map slave_talked_to talks.old.items }
{
    match place_of(talks, spoke, from) {
        Some(i) => {
            talks[i].hear(schedule, bytes, out);
            i
        }
        None => spoke,
    }
}
