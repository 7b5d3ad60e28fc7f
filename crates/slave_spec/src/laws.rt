//! What holds of every slave, whatever comes to it.

ghost use Rattle.std.specs.Prelude.{List};
ghost use Rattle.dcp_ends.specs.Events.{Event};
ghost use Rattle.slave_spec.specs.declared.words.SlaveSetup.{SlaveSetup};
ghost use Rattle.slave_spec.specs.Slaves.{slave_after};
ghost use Rattle.slave_spec.specs.Begun.{IsRegularIn};
ghost use Rattle.slave_spec.specs.Sound.{IsSoundPlant};

/// After every list of events the outputs that are sent lie in the types of their ports, and while a
/// step is computed the count of steps is below its last number.
pub fn slaves_are_sound()
    ensures { (setup : SlaveSetup) (events : List Event) → IsSoundPlant (slave_after setup events).inner }
{}

/// While the session lasts, the outputs lie in their types from INITIALIZED until the run is ended by a
/// reset, and initial outputs count as unsent before CONFIGURED.
pub fn outputs_fit_through_a_run()
    ensures { (setup : SlaveSetup) (events : List Event) → IsRegularIn setup (slave_after setup events).session (slave_after setup events).inner }
{}
