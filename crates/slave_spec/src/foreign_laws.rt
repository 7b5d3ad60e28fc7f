//! What holds of allowed logs.

ghost use Rattle.slave_spec.specs.ForeignLaws.{AllowedWalk, FrontsWalk};

/// A log is allowed exactly where its entries lead from the beginning to an end, one after the other.
pub fn allowed_logs_walk()
    ensures { AllowedWalk }
{}

/// An allowed log begins with entries exactly where they lead to where one goes on.
pub fn fronts_walk()
    ensures { FrontsWalk }
{}
