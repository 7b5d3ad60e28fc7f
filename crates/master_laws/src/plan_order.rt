//! Each new request of a scenario's master follows the plan of the run. There is no code.

ghost use Rattle.master_laws.specs.PlanOrder.Laws.{RequestsFollowThePlan, SlavesAreOpened};

/// The newest request is sent again, or it may be asked after what was decided: a slave is prepared once it has taken exactly the
/// settings of its run, it is set only while no outputs are ready, and a row event is the next one, asked where none is under way,
/// in a run for which the slave is set up and initialized.
pub fn requests_follow_the_plan()
    ensures { RequestsFollowThePlan }
{}

/// Where one slave is asked for a row event for the first time, every slave is set up and initialized for its run.
pub fn slaves_are_opened()
    ensures { SlavesAreOpened }
{}
