//! The inputs of a slave: what it reads off the payloads that it kept is what the reference reads.
//!
//! There is no code.

ghost use Rattle.slave_laws.specs.Wiring.Reads.{InputsReadRows};

/// Where each payload that is kept carries what its sender shows in its row, the slave's inputs are the reference's.
pub fn inputs_read_rows()
    ensures { InputsReadRows }
{}
