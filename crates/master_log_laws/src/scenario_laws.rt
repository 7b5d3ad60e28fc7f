//! What the log of a scenario's master shows, on every network, honest or not.

ghost use Rattle.master_log_laws.specs.Scenarios.Laws.{FailedIsFirst, RunFinishIsAcknowledged, RunPhasesAreBarriers, RunRequestsGoOneByOne, SetupsAreHeard};

/// A sound scenario gives a setup whose slaves have addresses of their own, and all that they are asked
/// reads back from its bytes.
pub fn setups_are_heard()
    ensures { SetupsAreHeard }
{}

/// Where the master of a scenario reports a failure, its log shows it: the slave that it names ended in
/// the phase that it names with the cause that it names, and the log shows no cause for a lesser slave.
pub fn failed_runs_show_first()
    ensures { FailedIsFirst }
{}

/// The master of a scenario asks each slave one request after the other: by its log each has the next
/// number, and comes once all before it are decided.
pub fn requests_go_one_by_one()
    ensures { RunRequestsGoOneByOne }
{}

/// Where the master of a scenario reports that it has finished, it had all the scenario's steps, and by
/// its log each slave acknowledged as many requests as its spine has.
pub fn finished_runs_are_acknowledged()
    ensures { RunFinishIsAcknowledged }
{}

/// Once some slave of a scenario has been asked a request of a phase, each slave has acknowledged as many
/// requests as stand in its spine before that phase.
pub fn phases_are_barriers()
    ensures { RunPhasesAreBarriers }
{}
