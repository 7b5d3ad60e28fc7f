//! What the log of a finished run shows of all its steps, on every network, honest or not.

ghost use Rattle.master_log_laws.specs.Finish.Laws.{FinishedIsExchanged};

/// Where the master of a scenario reports that it has finished, its log has the whole exchange of every
/// step with every slave, one step after the other, and between two runs all slaves are reset.
pub fn finished_runs_are_exchanged()
    ensures { FinishedIsExchanged }
{}
