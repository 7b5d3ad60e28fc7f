//! A slave whose answers do not fit the requests.

ghost use Rattle.master_spec.specs.declared.causes.Cause.TheVariants.{Stuck, Unexpected};
ghost use Rattle.witness_laws.specs.Shown.Ends.{single, pair, small_slave};
ghost use Rattle.witness_laws.specs.Shown.FirstPhase.{state_for_change, log_for_change, other_state, ack_for_state, state_for_error, right_state, log_for_log};
ghost use Rattle.witness_laws.specs.Shown.Logs.{TellsCause, ShowsOnly, ShowsNothing};
ghost use Rattle.master_spec.specs.Shown.{Shown};
ghost use Rattle.witness_laws.specs.Shown.Pairs.{fallen_back};
ghost use Rattle.std.specs.Prelude.{reverse};

/// An answer of a kind that the request does not have is shown with its type code, and with 255 where it
/// names no state.
pub fn other_answers_are_shown()
    ensures state { TellsCause (single 0) state_for_change (small_slave 1) 1 (Unexpected 0 178 0) }
    ensures only_state { ShowsOnly (single 0) state_for_change (small_slave 1) 1 (Unexpected 0 178 0) }
    ensures log { TellsCause (single 0) log_for_change (small_slave 1) 1 (Unexpected 0 180 255) }
    ensures only_log { ShowsOnly (single 0) log_for_change (small_slave 1) 1 (Unexpected 0 180 255) }
    ensures ack { TellsCause (single 0) ack_for_state (small_slave 1) 1 (Unexpected 1 176 255) }
    ensures only_ack { ShowsOnly (single 0) ack_for_state (small_slave 1) 1 (Unexpected 1 176 255) }
    ensures error { TellsCause (single 0) state_for_error (small_slave 1) 1 (Unexpected 2 178 17) }
    ensures only_error { ShowsOnly (single 0) state_for_error (small_slave 1) 1 (Unexpected 2 178 17) }
{}

/// A state that the phase has no use for is shown with its code.
pub fn other_states_are_shown()
    ensures first { TellsCause (single 0) other_state (small_slave 1) 1 (Unexpected 1 178 0) }
    ensures only { ShowsOnly (single 0) other_state (small_slave 1) 1 (Unexpected 1 178 0) }
{}

/// The state that the phase leads to shows nothing.
pub fn targets_are_expected()
    ensures { ShowsNothing (single 0) right_state (small_slave 1) }
{}

/// The answer to a question for the log shows nothing.
pub fn told_logs_show_nothing()
    ensures { ShowsNothing (single 0) log_for_log (small_slave 1) }
{}

/// The state that a slave passes through is not expected of it once it has named the one that it leads to.
/// A log that shows this may show as well that it is stuck.
pub fn falling_back_is_shown()
    ensures first { TellsCause (pair 3 1 0) fallen_back (small_slave 1) 3 (Unexpected 5 178 2) }
    ensures stuck { Shown (pair 3 1 0) (reverse fallen_back) (small_slave 1) 3 (Stuck 5 2) }
{}
