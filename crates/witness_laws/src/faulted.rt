//! A slave that tells its fault.

ghost use Rattle.master_spec.specs.declared.causes.Cause.TheVariants.{Faulted};
ghost use Rattle.witness_laws.specs.Shown.Ends.{single, small_slave};
ghost use Rattle.witness_laws.specs.Shown.FirstPhase.{faulted, fault_not_told, no_error_state};
ghost use Rattle.witness_laws.specs.Shown.Logs.{TellsCause, ShowsOnly, ShowsNothing};

/// A fault is shown with the number of its question and its code, and nothing else is shown.
pub fn faults_are_shown()
    ensures first { TellsCause (single 0) faulted (small_slave 1) 1 (Faulted 2 35) }
    ensures only { ShowsOnly (single 0) faulted (small_slave 1) 1 (Faulted 2 35) }
{}

/// Nothing is shown without the answer, nor where the state that was told before is no error.
pub fn fault_needs_its_question()
    ensures untold { ShowsNothing (single 0) fault_not_told (small_slave 1) }
    ensures no_error { ShowsNothing (single 0) no_error_state (small_slave 1) }
{}
