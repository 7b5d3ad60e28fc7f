//! A trace gone through again: the ends of a scenario are made anew and given their events, and what they
//! then send is compared with the trace.
//!
//! What it promises: the first entry is named that cannot follow on those before it, by what the hosted
//! ends' rules give over their events; or that nothing differs and the trace breaks off; and where neither
//! holds, the answer is the master of the scenario after its events in the trace, with its report. The
//! trace of a run that reported is always gone through to this report. Only making the ends takes memory.
#![tactic(auto)]

mod copies;
mod entries;
mod faults;
mod going;
mod laws;
mod making;
mod replays;
mod sends;
mod stops;
mod visits;

pub use faults::ReplayFault;
pub use laws::{one_answer, runs_replay};
pub use replays::{Replayed, replay};
