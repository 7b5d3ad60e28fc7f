//! A network in memory: it loses, repeats and holds back messages as a plan says, and gives each end what
//! is due for it.
//!
//! What it promises: a take gives exactly what is due by the plan and the list of calls, and nothing
//! exactly where nothing is; what it gives was sent so, with at most 32,767 messages after it.
#![tactic(auto)]

mod chances;
mod deliveries;
mod laws;
mod mailboxes;
mod memory_nets;
mod queues;
mod sure_nets;
mod traffics;
mod watches;

pub use laws::deliveries_are_recent;
pub use memory_nets::{MemoryNet, NetCall};
pub use sure_nets::SureNet;
