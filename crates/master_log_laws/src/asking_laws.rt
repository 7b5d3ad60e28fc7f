//! When the master asks a slave something new.

ghost use Rattle.master_log_laws.specs.Asking.Closed.{AsksWhenClosed, CoursesAreFit, StaysFit};
ghost use Rattle.master_log_laws.specs.Asking.Legal.{TalksGoByRule};

/// A request is asked for the first time only when all earlier ones are answered, under the next number.
pub fn asks_when_closed()
    ensures closed { AsksWhenClosed }
    ensures fit { StaysFit }
    ensures courses { CoursesAreFit }
{}

/// Whatever comes to the master, each of its conversations goes by the rules, mark by mark, and all are in the same phase.
pub fn talks_go_by_rule()
    ensures { TalksGoByRule }
{}
