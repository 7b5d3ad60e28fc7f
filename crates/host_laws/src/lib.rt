//! What a host of all ends of a scenario keeps to, where its network is honest: the lockstep of the scenario's
//! reference.
//!
//! What it promises: the network may lose, repeat, hold and reorder what is sent, and a fault or want of memory may
//! stop the run anywhere. Each request acts once and in order at its slave, models stand where the reference has
//! them, data carries the reference's rows, and what is read of the host is of the reference.
#![tactic(auto)]

mod hosts;
mod readings;

pub use hosts::{begin, host_of_all, keeps_in_step, reports_for_reason, round};
pub use readings::{report, row, rows, slave_steps};
