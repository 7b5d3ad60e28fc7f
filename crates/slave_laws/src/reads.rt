//! The slaves of a sound scenario are those that the laws of models speak of.
//!
//! Each of them steps on the reference's rows, which the laws of its machine leave open. There is no code.

ghost use Rattle.slave_laws.specs.Wiring.Reading.{SlavesAreMachines, SlavesReadRows};

/// While a step is computed on payloads that carry rows of the reference, the slave's inputs are those of the
/// reference.
pub fn slaves_read_rows()
    ensures { SlavesReadRows }
{}

/// The slaves of a scenario hold data and models as the laws want it, and are asked in order as these want it.
pub fn scenario_slaves_are_machines()
    ensures { SlavesAreMachines }
{}
