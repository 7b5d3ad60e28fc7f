//! What holds of allowed logs: those of own slaves are allowed, and what an allowed slave has taken is once and in order.
//!
//! So a check of the entries of one slave of a description finds no fault in a slave that keeps to the
//! definitions; nothing is assumed there of the network, of the master or of other slaves. And a slave whose
//! entries pass that check has taken the requests of its master as an own slave does, over an honest network
//! on which the master keeps to its rules. There is no code.
#![tactic(auto)]

mod laws;

pub use laws::{
    allowed_ask_nothing, allowed_take_once_and_in_order, answers_stand_behind,
    cut_runs_are_allowed, decided_as_allowed_gave, host_fronts_are_allowed, host_logs_are_allowed,
    host_runs_are_such, rounds_are_cut,
};
