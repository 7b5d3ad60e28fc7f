//! The hosted ends of one scenario as tasks: their rounds over any network, their log, and the fault that
//! stopped them; and whole runs, all ends hosted, until the master has its report.
//!
//! What it promises: the log is a list of whole rounds of all hosted ends, and after a refusal the front of
//! one more; without its turns it is what the network tells of its calls; each hosted end has sent exactly
//! what its rules give after each of its events, and the end in its task stands for its events in the log.
//! After a fault each later call answers it again and calls nothing. A run ends, within the bound of its
//! scenario; a run that a fault stopped has the log of what was done.
#![tactic(auto)]

mod copies;
mod externals;
mod hosted;
mod hosts;
mod making;
mod openings;
mod over;
mod readers;
mod running;
mod runs;
mod seated;

pub use externals::external_in;
pub use hosted::{ALL_ENDS, Hosted, Progress};
pub use hosts::Host;
pub use rounds::HostFault;
pub use runs::{Stopped, run_scenario};
