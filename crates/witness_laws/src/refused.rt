//! A slave that refuses the first request.

ghost use Rattle.master_spec.specs.declared.causes.Cause.TheVariants.{Refused};
ghost use Rattle.witness_laws.specs.Shown.Ends.{single, small_slave};
ghost use Rattle.witness_laws.specs.Shown.FirstPhase.{refusing, refused_other, refused_as_other, refused_from_other, refused_second, refused_before};
ghost use Rattle.witness_laws.specs.Shown.Logs.{TellsCause, ShowsOnly, ShowsNothing};

/// A refusal is shown with its number and its code, and nothing else is shown.
pub fn refusals_are_shown()
    ensures first { TellsCause (single 0) refusing (small_slave 1) 1 (Refused 0 10) }
    ensures only { ShowsOnly (single 0) refusing (small_slave 1) 1 (Refused 0 10) }
{}

/// The refusal of another number, by another sender, or from another address shows nothing, nor does one
/// that comes after an acknowledgement.
pub fn refusals_need_their_request()
    ensures number { ShowsNothing (single 0) refused_other (small_slave 1) }
    ensures sender { ShowsNothing (single 0) refused_as_other (small_slave 1) }
    ensures address { ShowsNothing (single 0) refused_from_other (small_slave 1) }
    ensures second { ShowsNothing (single 0) refused_second (small_slave 1) }
{}

/// Nothing is shown before the first phase has begun.
pub fn refusals_need_their_phase()
    ensures { ShowsNothing (single 0) refused_before (small_slave 1) }
{}
