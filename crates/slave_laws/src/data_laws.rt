//! The slaves of a scenario with their data and models, as the laws of models see them.
//!
//! What the laws want of a slave's model, and of what it keeps of data, holds of the slaves of a scenario, as far
//! as `specs/Holding.antt` says. There is no code.

ghost use Rattle.slave_laws.specs.Data.Holding.{EndedIsAlive, HoldsItsInputs, HoldsItsModel, KeepsItsData, OwesItsOwn};

/// A slave whose session has ended is in the state without a session.
pub fn sessions_end_alive()
    ensures { EndedIsAlive }
{}

/// Before its first step a model is at first, with the parameters of the run once they are set, and it shows
/// its outputs once the slave is opened; between steps it stays.
pub fn models_are_held()
    ensures { HoldsItsModel }
{}

/// At first nothing is kept; at a step there is, under each data id that feeds the slave, what is kept for its
/// place.
pub fn inputs_are_fed()
    ensures { HoldsItsInputs }
{}

/// A slave owes data of its own ids alone.
pub fn data_is_its_own()
    ensures { OwesItsOwn }
{}

/// What comes under a data id is kept for the ordinal that is wanted, with its number, or not at all; nothing else
/// changes what is kept but a request that takes it away.
pub fn data_is_kept()
    ensures { KeepsItsData }
{}
