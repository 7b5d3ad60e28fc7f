//! Where a slave stands that is asked in order: once it is prepared, its wiring is that of the plan, run by run.
//!
//! There is no code.

ghost use Rattle.slave_spec.specs.Changes.{input, output};
ghost use Rattle.slave_laws.specs.Wiring.Ordinals.{OrdinalsGoOn};
ghost use Rattle.slave_laws.specs.Wiring.Wired.{PlaceIsCounted, WiringIsPlanned};

/// Past its configuration a slave has the wiring of the plan, with a restart after all steps for each run before.
pub fn wiring_is_planned()
    ensures { WiringIsPlanned }
{}

/// No run of a slave has more steps than the scenario says, and its row events stand where its resets and steps do.
pub fn steps_are_in_range()
    ensures { PlaceIsCounted }
{}

/// The ordinals of each data id go on from run to run, for what comes and for what is sent.
pub fn ordinals_go_on()
    ensures inputs { OrdinalsGoOn input }
    ensures outputs { OrdinalsGoOn output }
{}
