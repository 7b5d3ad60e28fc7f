//! How the slave of the definition holds its model and its inputs, whatever the network does.
//!
//! There is no code.

ghost use Rattle.slave_laws.specs.Model.Models.{InputsAreThere, ModelsBeginFresh, ModelsStayStill};

/// Before the first step of a run the model is in its state at first.
pub fn models_begin_fresh()
    ensures { ModelsBeginFresh }
{}

/// After the first step of a run the model changes with the steps alone.
pub fn models_stay_still()
    ensures { ModelsStayStill }
{}

/// While a step is computed all inputs that it takes are there.
pub fn inputs_are_there()
    ensures { InputsAreThere }
{}
