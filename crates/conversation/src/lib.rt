//! One conversation of the master with one slave: which request is due, when it is sent again, and how
//! the conversation stands.
//!
//! What it promises: a conversation stands for the list of all that happened in it, and after each call
//! it stands for that list with what the call brought and what the rules make follow from it.
#![tactic(auto)]

mod asking;
mod conversations;
mod hearing;
mod records;
mod rules;
mod tables;

pub use hearing::hear;
pub use master_spec::{Awaited, Cause, Reaction, Task, Verdict};
pub use records::Conversation;
