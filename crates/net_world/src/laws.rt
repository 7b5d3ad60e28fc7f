//! A law about the definitions.

ghost use Rattle.std.specs.Prelude.{List, []};
ghost use Rattle.dcp_ends.specs.declared.entries.LogEntry.{LogEntry};
ghost use Rattle.dcp_net.specs.declared.openings.Opening.{Opening};
ghost use Rattle.net_world.specs.Calls.{AllRecent, GivesDue};

/// Where each take gave what was due, what it gave was sent so, with at most 32,767 messages after it.
pub fn deliveries_are_recent()
    ensures { (o : Opening) (calls : List LogEntry) → GivesDue o [] calls → AllRecent [] calls }
{}
