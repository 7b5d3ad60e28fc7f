//! What holds over all deliveries of the program's own master and slaves: each request acts once and in order,
//! no slave is more than one row event ahead of another, models, data and the master's rows are those of the
//! reference, and so each run keeps to the lockstep of its scenario.
//!
//! The log is that of a sound scenario, in which the master and the slaves do what their rules say and the
//! network is honest. Nothing else is assumed. There is no code.

ghost use Rattle.lockstep_laws.specs.Laws.{AskedInOrder, DecidedAsServed, DecidedByGiven, InStep, StepTogether, TakenInOrder};
ghost use Rattle.lockstep_laws.specs.Models.Laws.{DataCarryRows, FinishedIsWhole, ModelsStand, RowsAreFrontOf, StepsOnRows};
ghost use Rattle.run_laws.specs.Headline.Laws.{AllBehave, AtEveryMoment, AtEveryMomentCounted, AtEveryMomentInRows};
ghost use Rattle.run_laws.specs.Headline.Headline.{RunsKeepToReference};
ghost use Rattle.run_laws.specs.Headline.Others.{OthersMakeNoDifference};

/// The network, the master and the slaves of a run are those that the laws over a run speak of.
pub fn all_behave()
    ensures { AllBehave }
{}

/// What a slave has taken are the requests that the master sent it, one for each ordinal, in order.
pub fn taken_once_and_in_order()
    ensures { AtEveryMoment TakenInOrder }
{}

/// What decides a request is the answer that the slave gave when it took that request.
pub fn decided_as_given()
    ensures deciding { AtEveryMoment DecidedByGiven }
    ensures served { AtEveryMoment DecidedAsServed }
{}

/// What a slave has taken was asked of it in order: each request where the exchanges before it allow it.
pub fn asked_in_order()
    ensures { AtEveryMoment AskedInOrder }
{}

/// No slave is more than one row event ahead of another.
pub fn slaves_keep_together()
    ensures places { AtEveryMoment StepTogether }
    ensures steps { AtEveryMoment InStep }
{}

/// A model stands where the reference has it, once its slave has what sets it up for the run; before that no
/// step is taken.
pub fn models_stand_in_lockstep()
    ensures { AtEveryMomentInRows ModelsStand }
{}

/// A data message carries its sender's outputs in the row that its ordinal stands for, and a slave steps on
/// what was sent under the ordinal that stands for its own place.
pub fn data_carry_rows()
    ensures sent { AtEveryMomentInRows DataCarryRows }
    ensures used { AtEveryMomentInRows StepsOnRows }
{}

/// The rows that the master has counted are a front of the reference's, and all of them where it says that the
/// run finished; then the reference has no fault.
pub fn rows_are_those_of_the_reference()
    ensures front { AtEveryMomentCounted RowsAreFrontOf }
    ensures whole { AtEveryMomentCounted FinishedIsWhole }
{}

/// Each run keeps to the reference of its scenario, from its first moment to its last.
pub fn runs_keep_to_the_reference()
    ensures { RunsKeepToReference }
{}

/// Which description stands for slaves that are not there makes no difference to what a run is.
pub fn others_make_no_difference()
    ensures { OthersMakeNoDifference }
{}
