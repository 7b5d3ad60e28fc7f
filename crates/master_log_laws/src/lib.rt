//! What a master's log shows, on every network, honest or not.
//!
//! `Asking`, `Index`, `Phases`: the requests that a log tells are those of the master's conversations, and in which
//! phase each stands. `Exchanges`, `Finish`: how a log goes from phase to phase, and what it shows once the run has
//! finished. `Failures`: what it shows of a failed run. `Scenarios`: the same for a scenario's master. `Bound`: the
//! master has its report within the bound of its scenario. No code stands here; each function is a law.
#![tactic(auto)]

pub mod asking_laws;
mod bounds;
pub mod exchange_laws;
pub mod failure_laws;
pub mod finish_laws;
pub mod index_laws;
mod naming;
pub mod phase_laws;
pub mod scenario_laws;
mod turns;

pub use bounds::{scenario_reports, setup_reports};
pub use naming::last_target_named;
pub use turns::{log_reports, rounds_are_few, turns_are_in_log};
