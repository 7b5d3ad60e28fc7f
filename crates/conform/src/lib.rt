//! A check of the recorded entries of one slave whose model is not known.
//!
//! What it promises: `check` says that the entries follow exactly where such a slave may have them
//! (`Allowed` of `slave_spec`), and else names the longest front of them with which some allowed list begins, and
//! whether a message of the slave stands there or one is missing. It keeps one state and goes through the
//! entries once; only the start takes memory.
#![tactic(auto)]

mod answers;
mod asking;
mod checks;
mod faults;
mod followers;
mod matching;
mod meanings;
mod notices;
mod plants;
mod sending;

pub use answers::{BadWhy, Conformance};
pub use checks::check;
