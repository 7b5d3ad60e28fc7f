//! What holds of the logs of own slaves, and of what allowed slaves have taken.

ghost use Rattle.conform_laws.specs.Laws.{CutRunsAreAllowed, HostFrontsAreAllowed, HostLogsAreAllowed, RoundsAreCut};
ghost use Rattle.conform_laws.specs.Served.{AnswersStandBehind};
ghost use Rattle.conform_laws.specs.Serving.{AllowedAskNothing, AtEachMoment, DecidedAsGiven, DecidedAsTaken, HostRunsAreSuch, TakenOnce};

/// In a log of whole rounds the sends of each end stand right behind the events at which they were sent.
pub fn rounds_are_cut()
    ensures { RoundsAreCut }
{}

/// A log in which a slave of a description does what its rules say at each of its events is allowed of that
/// description.
pub fn cut_runs_are_allowed()
    ensures { CutRunsAreAllowed }
{}

/// In each log of whole rounds of a host each hosted slave is allowed.
pub fn host_logs_are_allowed()
    ensures { HostLogsAreAllowed }
{}

/// Where a round was stopped by a refusal, an allowed log begins with what each hosted slave has done.
pub fn host_fronts_are_allowed()
    ensures { HostFrontsAreAllowed }
{}

/// What an allowed slave has taken are the requests that the master sent it, one for each ordinal, in order.
pub fn allowed_take_once_and_in_order()
    ensures { AtEachMoment TakenOnce }
{}

/// What decides a request is the answer that the allowed slave gave when it took that request.
pub fn decided_as_allowed_gave()
    ensures deciding { AtEachMoment DecidedAsGiven }
    ensures taken { AtEachMoment DecidedAsTaken }
{}

/// That answer is the first that the slave sent behind the request.
pub fn answers_stand_behind()
    ensures { AnswersStandBehind }
{}

/// Allowed slaves send no requests.
pub fn allowed_ask_nothing()
    ensures { AllowedAskNothing }
{}

/// Each slave of a host of all ends over an honest network is in a run of which these laws speak.
pub fn host_runs_are_such()
    ensures { HostRunsAreSuch }
{}
