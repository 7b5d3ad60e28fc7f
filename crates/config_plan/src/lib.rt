//! The plan of a run: the data ids, and how each slave is configured.
//!
//! What it promises: the data ids, the setup lists and the lists between runs are those of the
//! definitions, which are functions of the scenario.
#![tactic(auto)]

mod links;
mod pairs;
mod planning;
mod plans;
mod setups;

pub use master_spec::DataLink;
pub use planning::plan;
pub use plans::Plan;
