//! A slave whose outputs do not come.

ghost use Rattle.master_spec.specs.declared.causes.Cause.TheVariants.{DataMissing};
ghost use Rattle.witness_laws.specs.Shown.Ends.{set_between, single, small_slave, twice};
ghost use Rattle.witness_laws.specs.Shown.Logs.{TellsCause, ShowsOnly, ShowsNothing};
ghost use Rattle.witness_laws.specs.Shown.Phases.{late_outputs, missing_outputs, other_outputs, outputs_awaited, outputs_at_last};
ghost use Rattle.witness_laws.specs.Shown.Rough.{rough_missing};
ghost use Rattle.witness_laws.specs.Shown.Runs.{old_outputs};

/// First outputs that do not come within a turn after the state that they belong to are shown to be missing.
/// Those of the next row, of another size, from before the phase, or from after that turn do not count.
pub fn missing_outputs_are_shown()
    ensures first { TellsCause (single 0) missing_outputs (small_slave 1) 6 (DataMissing 0) }
    ensures only { ShowsOnly (single 0) missing_outputs (small_slave 1) 6 (DataMissing 0) }
    ensures other { TellsCause (single 0) other_outputs (small_slave 1) 6 (DataMissing 0) }
    ensures late { TellsCause (single 0) late_outputs (small_slave 1) 6 (DataMissing 0) }
{}

/// Nothing is shown before that turn, nor where they come before it.
pub fn missing_outputs_had_their_time()
    ensures awaited { ShowsNothing (single 0) outputs_awaited (small_slave 1) }
    ensures came { ShowsNothing (single 0) outputs_at_last (small_slave 1) }
{}

/// In the second run the outputs of the first do not count.
pub fn outputs_are_of_their_run()
    ensures { TellsCause twice old_outputs set_between 16 (DataMissing 0) }
{}

/// The outputs of the second step are shown to be missing after a step that was refused once.
pub fn outputs_are_of_their_step()
    ensures { TellsCause (single 2) rough_missing (small_slave 1) 11 (DataMissing 2) }
{}
