//! A slave that refuses its step for want of inputs.

ghost use Rattle.master_spec.specs.declared.causes.Cause.TheVariants.{InputsMissing, Refused};
ghost use Rattle.witness_laws.specs.Shown.Ends.{single, small_slave};
ghost use Rattle.witness_laws.specs.Shown.Logs.{TellsCause, ShowsOnly, ShowsNothing};
ghost use Rattle.witness_laws.specs.Shown.Phases.{missing_inputs, refused_once, refused_otherwise};

/// Two steps that are refused for want of inputs are shown, with the number of the second.
pub fn missing_inputs_are_shown()
    ensures first { TellsCause (single 1) missing_inputs (small_slave 1) 8 (InputsMissing 14 1) }
    ensures only { ShowsOnly (single 1) missing_inputs (small_slave 1) 8 (InputsMissing 14 1) }
{}

/// One such refusal shows nothing. A second one for another reason is shown as a refusal.
pub fn missing_inputs_need_each_try()
    ensures once { ShowsNothing (single 1) refused_once (small_slave 1) }
    ensures first { TellsCause (single 1) refused_otherwise (small_slave 1) 8 (Refused 14 14) }
    ensures only { ShowsOnly (single 1) refused_otherwise (small_slave 1) 8 (Refused 14 14) }
{}
