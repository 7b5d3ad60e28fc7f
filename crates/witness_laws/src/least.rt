//! Two slaves: which one is named.

ghost use Rattle.master_spec.specs.Shown.{Shown, First};
ghost use Rattle.master_spec.specs.declared.causes.Cause.TheVariants.{NoAnswer, Faulted, Unexpected};
ghost use Rattle.witness_laws.specs.Shown.Ends.{pair, small_slave};
ghost use Rattle.witness_laws.specs.Shown.Logs.{TellsCause, ShowsNothing};
ghost use Rattle.witness_laws.specs.Shown.Pairs.{both_silent, second_silent, first_faulted, silent_in_setup};
ghost use Rattle.witness_laws.specs.Shown.Together.{pair_adjusted, pair_twice, second_set, silent_in_adjust, silent_in_reset, still_stopped};
ghost use Rattle.std.specs.Prelude.{reverse};

/// Where neither slave answers, both are shown to be silent, and the first is named.
pub fn the_least_is_named()
    ensures first { TellsCause (pair 1 2 0) both_silent (small_slave 1) 1 (NoAnswer 0) }
    ensures second { Shown (pair 1 2 0) (reverse both_silent) (small_slave 2) 1 (NoAnswer 0) }
    ensures not_first { First (pair 1 2 0) (reverse both_silent) (small_slave 2) 1 (NoAnswer 0) → ⊥ }
{}

/// Where the first has passed, nothing is shown of it, and the second is named.
pub fn passed_slaves_are_not_named()
    ensures second { TellsCause (pair 1 2 0) second_silent (small_slave 2) 1 (NoAnswer 0) }
    ensures first { ShowsNothing (pair 1 2 0) second_silent (small_slave 1) }
{}

/// A slave that has passed tells its state as a sign of life: the state in which it is configured shows
/// nothing.
pub fn signs_of_life_show_nothing()
    ensures second { TellsCause (pair 3 1 0) silent_in_setup (small_slave 2) 2 (NoAnswer 2) }
    ensures first { ShowsNothing (pair 3 1 0) silent_in_setup (small_slave 1) }
{}

/// Where it tells an error state then, it is named, though the other slave ended before.
pub fn later_ends_of_lesser_slaves_are_named()
    ensures first { TellsCause (pair 1 1 0) first_faulted (small_slave 1) 1 (Faulted 3 35) }
    ensures second { Shown (pair 1 1 0) (reverse first_faulted) (small_slave 2) 1 (NoAnswer 0) }
{}

/// Where the second is silent while it is reset, nothing is shown of the first, though turns pass after it has
/// told its state: outputs are missing only in a phase that has some.
pub fn phases_without_outputs_miss_none()
    ensures second { TellsCause pair_twice silent_in_reset (small_slave 2) 9 (NoAnswer 15) }
    ensures first { ShowsNothing pair_twice silent_in_reset (small_slave 1) }
{}

/// So it is where the second is silent while a parameter is set, which the first has none of: then the state
/// that shows nothing is that in which it is configured, and each other state is shown.
pub fn empty_lists_have_a_state()
    ensures second { TellsCause pair_adjusted silent_in_adjust second_set 10 (NoAnswer 17) }
    ensures first { ShowsNothing pair_adjusted silent_in_adjust (small_slave 1) }
    ensures stopped { TellsCause pair_adjusted still_stopped (small_slave 1) 10 (Unexpected 17 178 16) }
{}
