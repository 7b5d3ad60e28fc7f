//! A run that finishes.

ghost use Rattle.master_spec.specs.Exchanged.{AllExchanged};
ghost use Rattle.master_spec.specs.declared.reports.Report.TheVariants.{Finished};
ghost use Rattle.witness_laws.specs.Shown.Ends.{pair, single, twice};
ghost use Rattle.witness_laws.specs.Shown.Logs.{IsMasterRun};
ghost use Rattle.witness_laws.specs.Shown.Rough.{rough_whole};
ghost use Rattle.witness_laws.specs.Shown.Runs.{NotAllExchanged, NotBetween, two_runs, not_reset, reset_refused, prepared_too_early, reset_at_first, overlapping};
ghost use Rattle.witness_laws.specs.Shown.Together.{NotTogether, together, one_ahead, one_behind};
ghost use Rattle.witness_laws.specs.Shown.Whole.{NotExchanged, whole, only_noticed, asked_too_early, early_values, late_values, not_running, outputs_refused, two_at_once};
ghost use Rattle.std.specs.Prelude.{reverse};

/// The log of a run of one step that finishes shows that its step is exchanged.
pub fn finished_runs_are_exchanged()
    ensures run { IsMasterRun (single 1) whole (Finished 1) }
    ensures exchanged { AllExchanged (single 1) (reverse whole) }
{}

/// The step is not exchanged where no answer tells that the slave has computed before its outputs are asked
/// for, where none tells that it runs again, where its outputs are refused, or where two steps are asked for.
pub fn exchanges_need_their_answers()
    ensures noticed { NotExchanged only_noticed }
    ensures early { NotExchanged asked_too_early }
    ensures running { NotExchanged not_running }
    ensures refused { NotExchanged outputs_refused }
    ensures two { NotExchanged two_at_once }
{}

/// Nor is it where the values come before that answer, or after the slave was asked to stop.
pub fn exchanges_need_their_values()
    ensures early { NotExchanged early_values }
    ensures late { NotExchanged late_values }
{}

/// The log of two runs that finish shows that the step of each is exchanged, one after the other, and that the
/// slave is reset between them.
pub fn finished_runs_are_separate()
    ensures run { IsMasterRun twice two_runs (Finished 1) }
    ensures exchanged { AllExchanged twice (reverse two_runs) }
{}

/// It does not where the slave is not reset, where its reset is refused, or where it is prepared before. A reset
/// before the start of a run does not end that run.
pub fn runs_need_their_reset()
    ensures missing { NotAllExchanged not_reset }
    ensures refused { NotAllExchanged reset_refused }
    ensures early { NotAllExchanged prepared_too_early }
    ensures started { NotBetween reset_at_first }
{}

/// Two runs are not exchanged where the step of the second is asked for before the outputs of the first have come.
pub fn runs_wait_for_each_other()
    ensures { NotAllExchanged overlapping }
{}

/// The log of two slaves that finish shows that they exchange the step together.
pub fn finished_slaves_are_together()
    ensures run { IsMasterRun (pair 3 1 1) together (Finished 1) }
    ensures exchanged { AllExchanged (pair 3 1 1) (reverse together) }
{}

/// They do not where one is asked for its outputs before the other has computed, nor where one is asked to
/// stop before the outputs of the other have come.
pub fn slaves_wait_for_each_other()
    ensures ahead { NotTogether one_ahead }
    ensures behind { NotTogether one_behind }
{}

/// So does the log of two steps over a bad network, with a repeated request, an answer that comes twice, a
/// step that is refused once, and values that come after the state.
pub fn rough_runs_are_exchanged()
    ensures run { IsMasterRun (single 2) rough_whole (Finished 2) }
    ensures exchanged { AllExchanged (single 2) (reverse rough_whole) }
{}
