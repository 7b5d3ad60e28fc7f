//! What the log of a failed run shows, on every network.

ghost use Rattle.master_log_laws.specs.Failures.Laws.{FailedIsFirstOf};

/// Where the master reports a failure, its log shows it: the slave that it names ended in the phase that
/// it names with the cause that it names, and the log shows no cause for any slave of a lesser number.
pub fn failed_shows_first()
    ensures { FailedIsFirstOf }
{}
