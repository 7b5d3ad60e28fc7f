//! The master: one conversation with each slave, phase by phase, the rows that come, and the report.
//!
//! What it promises: the master is an end that stands for the list of its events, and what it sends at
//! each of them, its report and its rows are those of the definitions over that list.
#![tactic(auto)]

mod ends;
mod masters;
mod records;
mod rows;
mod schedules;
mod setups;
mod sizes;
mod stages;
mod surveys;
mod talks;
mod turns;

pub use master_spec::{Cause, Report};
pub use records::MasterCore;
