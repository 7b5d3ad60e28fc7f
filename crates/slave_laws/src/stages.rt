//! What the exchanges with a slave tell of its state, on every network: each of its answers fits what was asked,
//! and each state that it names is one to which its newest acknowledged change of state leads.
//!
//! There is no code.

ghost use Rattle.slave_laws.specs.Model.Answering.{AnswersFitStages, SlavesStandInStages};

/// Each answer of a slave fits its request and the exchanges before it.
pub fn answers_fit_stages()
    ensures { AnswersFitStages }
{}

/// While its session lasts, a slave stands where the exchanges have it, or has a fault.
pub fn slaves_stand_in_stages()
    ensures { SlavesStandInStages }
{}
