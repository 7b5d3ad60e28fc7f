//! A law on networks: where what a network gives was sent so not long before, it is honest.

ghost use Rattle.std.specs.Prelude.{List, []};
ghost use Rattle.dcp_ends.specs.declared.entries.LogEntry.{LogEntry};
ghost use Rattle.log_spec.specs.Log.{Parties};
ghost use Rattle.log_spec.specs.Oldest.{Honest};
ghost use Rattle.net_world.specs.Calls.{AllRecent};
ghost use Rattle.rounds.specs.Steps.{without_turns};

/// A log is honest where, in the list that its network tells, each datagram that was got was sent so, with
/// at most 32,767 messages after it: no channel can have more changes of its number than that.
pub fn recent_is_honest()
    ensures { (w : Parties) (log : List LogEntry) → AllRecent [] (without_turns log) → Honest w log }
{}
