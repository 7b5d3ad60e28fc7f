//! A slave that never answers.

ghost use Rattle.master_spec.specs.declared.causes.Cause.TheVariants.{NoAnswer, Refused};
ghost use Rattle.master_spec.specs.Shown.{Shown};
ghost use Rattle.std.specs.Prelude.{reverse};
ghost use Rattle.witness_laws.specs.Shown.Ends.{single, small_slave};
ghost use Rattle.witness_laws.specs.Shown.Logs.{TellsCause, ShowsOnly, ShowsNothing};
ghost use Rattle.witness_laws.specs.Shown.Silence.{silent, one_turn_less, sent_once, late_repeat, answered_at_last, refused_too_late};

/// A request that is sent twice, each time for one turn, is shown to have no answer, and nothing else is
/// shown.
pub fn silence_is_shown()
    ensures first { TellsCause (single 0) silent (small_slave 1) 1 (NoAnswer 0) }
    ensures only { ShowsOnly (single 0) silent (small_slave 1) 1 (NoAnswer 0) }
{}

/// With one turn or one sending less, with a repeat that comes a turn late, or with an answer before the
/// last turn, nothing is shown.
pub fn silence_needs_each_sending()
    ensures turn { ShowsNothing (single 0) one_turn_less (small_slave 1) }
    ensures sending { ShowsNothing (single 0) sent_once (small_slave 1) }
    ensures repeat { ShowsNothing (single 0) late_repeat (small_slave 1) }
    ensures answer { ShowsNothing (single 0) answered_at_last (small_slave 1) }
{}

/// An answer that comes after the last turn takes nothing back; what it says is shown as well.
pub fn late_answers_show_both()
    ensures first { TellsCause (single 0) refused_too_late (small_slave 1) 1 (NoAnswer 0) }
    ensures both { Shown (single 0) (reverse refused_too_late) (small_slave 1) 1 (Refused 0 10) }
{}
