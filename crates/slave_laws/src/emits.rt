//! What data the slaves of a scenario owe, and what they keep of it, entry by entry.
//!
//! There is no code.

ghost use Rattle.slave_laws.specs.Data.Emitting.{GoesOnWithData, PastIsTuned};

/// Past its configuration a slave that is asked in order has taken the settings of its run.
pub fn slaves_past_setup_are_tuned()
    ensures { PastIsTuned }
{}

/// A turn that shows a row owes one data message for each of the slave's data ids that is due, with the outputs
/// of the model, and no other entry owes data.
pub fn data_goes_on()
    ensures { GoesOnWithData }
{}
