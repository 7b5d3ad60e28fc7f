//! Runs of a scenario's own master and slaves, by the log of all its ends: each request acts once and in order,
//! no slave is more than one row event ahead of another, models, data and the master's rows are those of the
//! reference, and so each run keeps to the lockstep of its scenario (`headline_laws`).
//!
//! The log is that of a sound scenario, in which the master and the slaves do what their rules say and the network
//! is honest (`nets` says of which networks that is known). Nothing else is assumed. There is no code.
#![tactic(auto)]

pub mod collecting_laws;
pub mod headline_laws;
pub mod nets;
pub mod whole_rounds;
