//! Scenarios as values: slaves and their models, the wires between them, how they are run, and what
//! the network in memory does to their messages.
//!
//! A scenario is plain data, and `IsScenario` of `specs/Sound.antt` says which are sound: each number,
//! port, setting and interval that it names is there and in range, and nothing clashes. What it
//! promises: the look-ups that all above share (a slave and what it has, the wire into an input, the
//! interval of a pair, the parameters of a run, the totals) give exactly what their definitions give.
#![tactic(auto)]

mod lookups;
mod net_plans;
mod scenarios;
mod settings;
mod slave_lists;
mod totals;
mod wiring;

pub use lookups::{inputs_at, outputs_at, parameters_at, slave_at, type_at};
pub use net_plans::{Chaos, NetLine, NetLines, NetPlan};
pub use scenarios::{Every, Intervals, Rerun, Reruns, Scenario, Setting, Settings, Wire, Wires};
pub use settings::{change_all, parameters};
pub use slave_lists::Slaves;
pub use totals::{is_too_much, total_outputs};
pub use wiring::{every_between, interval, wire_into};
