//! The slaves of a sound scenario are those that the laws of models speak of, but for where their inputs come from.
//!
//! There is no code.

ghost use Rattle.slave_laws.specs.Data.Whole.{AreMachinesOnRows, MasterAsksRequests, StepOnInputs};

/// A step of a slave is the model's step on the inputs that the slave has.
pub fn slaves_step_on_inputs()
    ensures { StepOnInputs }
{}

/// The slaves of a scenario hold data and models as the laws want it, and are asked in order as these want it,
/// where the inputs of each step are the reference's.
pub fn slaves_are_machines()
    ensures { AreMachinesOnRows }
{}

/// A master that converses with the slaves of a scenario asks requests alone, so it converses with those of which
/// nothing else may be asked.
pub fn masters_ask_requests()
    ensures { MasterAsksRequests }
{}
