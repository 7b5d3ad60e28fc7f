//! What the data messages of a run carry, and where the models stand: in the rows of the reference.
//!
//! The laws speak of any master and any slaves that meet the records of `specs/`. There is no code.

ghost use Rattle.lockstep_laws.specs.Models.Scenarios.{ScenarioHasParties};
ghost use Rattle.lockstep_laws.specs.Models.Laws.{AlwaysCollected, AlwaysInRows, DataCarryRows, FinishedIsWhole, ModelsStand, RowsAreFrontOf, StepsOnRows};

/// Each model stands where the reference has it.
pub fn models_stand_in_lockstep()
    ensures { AlwaysInRows ModelsStand }
{}

/// A data message carries its sender's outputs in the row that its ordinal stands for, and a slave steps on these.
pub fn data_carry_rows()
    ensures sent { AlwaysInRows DataCarryRows }
    ensures used { AlwaysInRows StepsOnRows }
{}

/// The rows that the master collects are a front of the reference's rows, and at the end of a finished run all of them.
pub fn rows_are_those_of_the_reference()
    ensures front { AlwaysCollected RowsAreFrontOf }
    ensures whole { AlwaysCollected FinishedIsWhole }
{}

/// The master and the slaves of a scenario can be the parties of a run.
pub fn scenarios_have_parties()
    ensures { ScenarioHasParties }
{}
