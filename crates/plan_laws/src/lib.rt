//! Laws: every slave of a sound scenario takes what the plan asks of it.
//!
//! `specs/` says what it means that a list of settings is taken whole, where a slave stands from run to run, and
//! in which order a slave is asked (`Course`). No code stands here.
#![tactic(auto)]

pub mod courses;
mod laws;

pub use laws::{
    adjust_lists_are_taken, lists_are_taken_run_by_run, plans_have_these_lists,
    settings_are_acknowledged, setup_lists_are_taken,
};
