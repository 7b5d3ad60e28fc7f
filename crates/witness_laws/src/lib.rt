//! Small runs, written out entry by entry, so that the laws and definitions speak of something.
//!
//! A master that asks one slave for a session and then for its state (`exchange_run`); logs that show a cause, and logs
//! that lack one thing of it; whole runs of small scenarios that meet every premise of the laws of runs (`whole_runs`). No
//! code stands here; each function is a fact on these logs.
#![tactic(auto)]

mod bounds;
mod data_missing;
pub mod exchange_run;
mod faulted;
mod finished;
mod inputs_missing;
mod least;
mod no_answer;
mod refused;
mod stuck;
mod unexpected;
pub mod whole_runs;

pub use bounds::{small_bound, usual_bound};
pub use data_missing::{
    missing_outputs_are_shown, missing_outputs_had_their_time, outputs_are_of_their_run,
    outputs_are_of_their_step,
};
pub use faulted::{fault_needs_its_question, faults_are_shown};
pub use finished::{
    exchanges_need_their_answers, exchanges_need_their_values, finished_runs_are_exchanged,
    finished_runs_are_separate, finished_slaves_are_together, rough_runs_are_exchanged,
    runs_need_their_reset, runs_wait_for_each_other, slaves_wait_for_each_other,
};
pub use inputs_missing::{missing_inputs_are_shown, missing_inputs_need_each_try};
pub use least::{
    empty_lists_have_a_state, later_ends_of_lesser_slaves_are_named, passed_slaves_are_not_named,
    phases_without_outputs_miss_none, signs_of_life_show_nothing, the_least_is_named,
};
pub use no_answer::{late_answers_show_both, silence_is_shown, silence_needs_each_sending};
pub use refused::{refusals_are_shown, refusals_need_their_phase, refusals_need_their_request};
pub use stuck::{stuck_slaves_are_shown, stuck_slaves_had_their_time};
pub use unexpected::{
    falling_back_is_shown, other_answers_are_shown, other_states_are_shown, targets_are_expected,
    told_logs_show_nothing,
};
