//! Slave descriptions as values: who a slave is, where it is found, its model and its ports.
//!
//! A description is plain data. `specs/Descriptions.antt` says which descriptions are sound: those
//! that a text can give.
#![tactic(auto)]

mod descriptions;
mod parameters;
mod ports;

pub use descriptions::SlaveDesc;
pub use parameters::Parameters;
pub use ports::{Port, Ports};
