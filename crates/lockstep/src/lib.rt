//! The lockstep reference of a scenario: what a correct run must print.
//!
//! In lockstep all slaves step at once, each on what the others showed before, with no network
//! between them. The definition is a relation between a scenario, the rows of all its runs, and the
//! fault that ends them. What it promises: each scenario has exactly one reference, and `reference`
//! gives it, or wants memory.
#![tactic(auto)]

mod filling;
mod halts;
mod laws;
mod parts;
mod references;
mod row_lists;
mod running;
mod tables;
mod wiring;

pub use laws::one_reference;
pub use references::{RefFault, Reference};
pub use row_lists::Rows;
pub use running::reference;
