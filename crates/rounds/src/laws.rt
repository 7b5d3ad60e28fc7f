//! A law about the definitions.

ghost use Rattle.std.specs.Prelude.{◌++◌, List, Option};
ghost use Rattle.dcp_ends.specs.Events.{Rules};
ghost use Rattle.dcp_ends.specs.declared.entries.LogEntry.{LogEntry};
ghost use Rattle.rounds.specs.Rounds.{IsRound, IsRoundPart};

/// What was done of a round that was refused is the front of a round.
pub fn refused_round()
    ensures { (master : Option Rules) (slaves : List Rules) (log part : List LogEntry) → IsRoundPart master slaves log part
        → (rest : List LogEntry) × IsRound master slaves log (part ++ rest) }
{}
