//! The machine of a slave: its state, its wiring, its model and its log; and a slave, from its
//! description, in one call.
//!
//! What it promises: a request that is taken is refused, or changes the machine and is answered, as the
//! definition of a slave says; so are a turn and a data message (`slave_spec`, which sees the machine as
//! a `Plant`). A `Device` is a machine (`Inner`) over any wiring that does what its trait says (`Wired`).
//! The slave that is made (`new_slave`) stands for no event, and its rules are those of the definition for
//! its description. [`Wiring`] is such a wiring: a request is refused by the first rule that it breaks, else the
//! wiring is what the changes so far say; a data message is kept exactly where it is the next of its id; an input is
//! the value kept last; and a data message that is built carries the outputs under the id's next number. Only making
//! a slave or a wiring takes memory.
#![tactic(auto)]

mod acts;
mod addresses;
mod answers;
mod changes;
mod data_ids;
mod devices;
mod ends;
mod inputs;
mod machines;
mod notes;
mod numbers;
mod outputs;
mod payloads;
mod places;
mod ports;
mod segments;
mod sending;
mod settings;
mod slaves;
mod tables;
mod turns;
mod wirings;
mod works;

pub use devices::Device;
pub use ends::{SlaveEnd, new_slave};
pub use slaves::slave_over;
pub use wirings::Wiring;
