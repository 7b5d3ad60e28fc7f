//! How the log of a run goes from phase to phase, and what it shows once the run has finished, on every network.

ghost use Rattle.master_log_laws.specs.Exchanges.Laws.{FinishedIsAcknowledged, PhasesAreBarriers};

/// Where the master reports that it has finished, it had all its steps, and by its log each slave
/// acknowledged as many requests as its spine has.
pub fn finished_runs_are_acknowledged()
    ensures { FinishedIsAcknowledged }
{}

/// At every moment, once some slave has been asked a request of a phase, each slave has acknowledged as
/// many requests as stand in its spine before that phase.
pub fn phases_are_barriers()
    ensures { PhasesAreBarriers }
{}
