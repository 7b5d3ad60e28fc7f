//! A slave that stays in the state that it passes through.

ghost use Rattle.master_spec.specs.declared.causes.Cause.TheVariants.{Stuck};
ghost use Rattle.witness_laws.specs.Shown.Ends.{single, small_slave};
ghost use Rattle.witness_laws.specs.Shown.Logs.{TellsCause, ShowsOnly, ShowsNothing};
ghost use Rattle.witness_laws.specs.Shown.Phases.{stuck, asked_at_once, prepared_at_last};

/// A slave that still prepares when it is asked a turn after its acknowledgement is shown to be stuck.
pub fn stuck_slaves_are_shown()
    ensures first { TellsCause (single 0) stuck (small_slave 1) 3 (Stuck 4 2) }
    ensures only { ShowsOnly (single 0) stuck (small_slave 1) 3 (Stuck 4 2) }
{}

/// Nothing is shown where it is asked before a turn has passed, nor where it has prepared.
pub fn stuck_slaves_had_their_time()
    ensures soon { ShowsNothing (single 0) asked_at_once (small_slave 1) }
    ensures done { ShowsNothing (single 0) prepared_at_last (small_slave 1) }
{}
