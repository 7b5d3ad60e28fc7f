//! Runs of a scenario's own master and slaves, by the log of all its ends.
//!
//! The log is that of a sound scenario, in which the master and the slaves do what their rules say and the
//! network is honest. Nothing else is assumed. There is no code.

ghost use Rattle.run_laws.specs.Laws.{RoundsAreRuns};

/// A log of whole rounds of all ends of a scenario, on an honest network, is such a run.
pub fn rounds_are_runs()
    ensures { RoundsAreRuns }
{}
